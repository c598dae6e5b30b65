ghost use Rattle.std.specs.Prelude.{◌≡◌, ◌+◌, ◌<◌, ◌^◌, ◌↔◌, IsTrue, IfOk, length, ◌++◌};
ghost use Rattle.std.specs.List.{All};
ghost use Rattle.mm_num.specs.Small.{IsSmall};
ghost use Rattle.simplex_core.specs.Rows.{AreWide, AreSmall, IsSmallRow};
ghost use Rattle.simplex_core.specs.Walk.{AreNarrow, IsNarrow};
ghost use Rattle.simplex_core.specs.machine.Tableau.{negated, mark, swept, turned, first_line, first_lines};

use crate::LinRow;
use crate::numbers::{are_narrow, sweep, turn};
use std::alloc::{AllocError, Global};
use std::marker::Model;

/// An equation of a basis's form: its basic variable, and a number for each variable and for the constant. Times a
/// point of the rows these sum to 0.
#[derive(Debug, Drop)]
pub struct Line {
    basic: u32,
    numbers: Vec<i128>,
}

impl Model for Line {
    ghost use Rattle.std.specs.Prelude.{ℕ, ℤ, List};

    ghost Value = { ℕ × List ℤ };

    ghost view = { λ l. (l.basic, l.numbers.items) };
}

impl Line {
    /// The equation of a row's own slack, the one at a place among the slacks.
    fn first(alloc: Global, row: &LinRow, place: usize, slacks: usize) -> Result<Line, AllocError>
        requires small { IsSmallRow row.now }
        requires place { place < slacks }
        requires few { length row.now.coeffs.items + slacks < 2 ^ 32 }
        ensures { IfOk result (λ l. l ≡ first_line (length row.now.coeffs.items) slacks place row.now) }
    {
        let unknowns = row.coeffs.len();
        let mut numbers = Vec::with_capacity(alloc, unknowns + slacks + 1)?;
        push_negated(&mut numbers, &row.coeffs)?;
        push_mark(&mut numbers, slacks, place)?;
        numbers.push(-row.constant)?;
        Ok(Line {
            basic: (unknowns + place) as u32,
            numbers,
        })
    }

    /// The basic variable.
    pub fn basic(&self) -> u32
        ensures { result ≡ self.now.0 }
    {
        self.basic
    }

    /// The numbers of the unknowns, the slacks and the constant.
    pub fn numbers(&self) -> &[i128]
        ensures { result.now ≡ self.now.1 }
    {
        &self.numbers
    }

    /// Solves the equation for a variable, whose number is then above 0.
    pub fn solve_for(&mut self, variable: u32)
        requires narrow { AreNarrow self.old.1 }
        requires place { variable < length self.old.1 }
        ensures { self.new ≡ (variable, turned variable self.old.1) }
    {
        turn(&mut self.numbers, variable as usize);
        self.basic = variable;
    }

    /// Takes a variable out by the equation that is solved for it.
    pub fn sweep(&mut self, variable: usize, pivot: &[i128])
        requires narrow { AreNarrow self.old.1 }
        requires pivot { AreNarrow pivot.now }
        requires same { length self.old.1 ≡ length pivot.now }
        requires place { variable < length pivot.now }
        ensures { self.new ≡ (self.old.0, swept variable pivot.now self.old.1) }
    {
        sweep(&mut self.numbers, variable, pivot);
    }
}

/// Appends the numbers of the other sign.
pub fn push_negated(numbers: &mut Vec<i128>, coeffs: &[i128]) -> Result<(), AllocError>
    requires { All IsSmall coeffs.now }
    ensures { IfOk result (λ _. numbers.new.items ≡ numbers.old.items ++ negated coeffs.now) }
{
    for coeff in coeffs {
        numbers.push(-*coeff)?;
    }
    Ok(())
}

/// Appends a 0 for each place, and 1 at one place.
fn push_mark(numbers: &mut Vec<i128>, places: usize, place: usize) -> Result<(), AllocError>
    requires { place < places }
    ensures { IfOk result (λ _. numbers.new.items ≡ numbers.old.items ++ mark places place) }
{
    for slack in 0..places {
        numbers.push(i128::from(slack == place))?;
    }
    Ok(())
}

/// The equations of all slacks: the rows' own.
pub fn first_tableau(
    alloc: Global,
    rows: &[LinRow],
    unknowns: usize,
) -> Result<Vec<Line>, AllocError>
    requires wide { AreWide unknowns rows.now }
    requires small { AreSmall rows.now }
    requires few { unknowns + length rows.now < 2 ^ 32 }
    ensures { IfOk result (λ ls. ls.items ≡ first_lines unknowns (length rows.now) 0 rows.now) }
{
    let mut lines = Vec::with_capacity(alloc, rows.len())?;
    for (place, row) in rows.iter().enumerate() {
        lines.push(Line::first(alloc, row, place, rows.len())?)?;
    }
    Ok(lines)
}

/// Whether all numbers are below 2^30 in magnitude.
pub fn is_narrow(lines: &[Line]) -> bool
    ensures { IsTrue result ↔ IsNarrow lines.now }
{
    lines.iter().all(|line| are_narrow(line.numbers()))
}
