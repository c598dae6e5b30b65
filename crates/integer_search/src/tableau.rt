use crate::stop::{Stop, push};
use crate::table::{copied, divisor_of, is_small, number_at, over, plus_times, put, zeros};
use mm_num::Frac;
use mm_poly::{Mono, Poly};
use std::alloc::Global;

/// A variable of the tableau.
#[derive(Clone, Copy, Debug, PartialEq, Eq)]
enum Variable {
    /// An unknown, of any sign.
    Unknown(usize),
    /// What a row has at a point, which is at least 0.
    Slack(usize),
}

/// An equation: the basic variable times the divisor is what the columns count of theirs, and a constant.
#[derive(Debug, Drop)]
struct Line {
    basic: Variable,
    divisor: i128,
    numbers: Vec<i128>,
    constant: i128,
}

/// A multiple of a row.
#[derive(Clone, Copy, Debug)]
pub struct Multiple {
    pub row: usize,
    pub times: i128,
}

/// A form of inequalities that gives the basic variables by those of the columns, one for each unknown.
///
/// Its point has 0 in the columns. Rows may be added at any time, so that a search goes on where it was (the simplex of
/// Dutertre and de Moura 2006). All numbers are whole; one that gets too great ends the search.
#[derive(Debug, Drop)]
pub struct Tableau {
    columns: Vec<Variable>,
    lines: Vec<Line>,
    rows: usize,
}

impl Tableau {
    /// No rows over so many unknowns.
    pub fn new(alloc: Global, unknowns: usize) -> Result<Tableau, Stop> {
        let mut columns = Vec::with_capacity(alloc, unknowns)?;
        for unknown in 0..unknowns {
            push(&mut columns, Variable::Unknown(unknown))?;
        }
        Ok(Tableau {
            columns,
            lines: Vec::new(alloc),
            rows: 0,
        })
    }

    pub fn copy(&self, alloc: Global) -> Result<Tableau, Stop> {
        let mut columns = Vec::with_capacity(alloc, self.columns.len())?;
        for column in &self.columns {
            push(&mut columns, *column)?;
        }
        let mut lines = Vec::with_capacity(alloc, self.lines.len())?;
        for line in &self.lines {
            push(&mut lines, line.copy(alloc)?)?;
        }
        Ok(Tableau {
            columns,
            lines,
            rows: self.rows,
        })
    }

    /// Adds the row that a linear polynomial is at least 0.
    pub fn add(&mut self, alloc: Global, poly: &Poly) -> Result<(), Stop> {
        let mut line = Line {
            basic: Variable::Slack(self.rows),
            divisor: 1,
            numbers: zeros(alloc, self.columns.len())?,
            constant: poly.constant_term(),
        };
        for term in poly.unknowns() {
            self.count(&mut line, term.coeff, unknown_of(&term.mono))?;
        }
        push(&mut self.lines, line)?;
        self.rows = self.rows.saturating_add(1);
        Ok(())
    }

    // Adds a multiple of an unknown to a line.
    fn count(&self, line: &mut Line, coeff: i128, unknown: usize) -> Result<(), Stop> {
        let variable = Variable::Unknown(unknown);
        if let Some(column) = self.columns.iter().position(|other| *other == variable) {
            let number = plus_times(number_at(&line.numbers, column), coeff, line.divisor)?;
            put(&mut line.numbers, column, number);
            return Ok(());
        }
        match self.lines.iter().find(|other| other.basic == variable) {
            Some(equation) => line.add(coeff, equation),
            None => Err(Stop::Lost),
        }
    }

    /// Goes from basis to basis, by Bland's rule, until all rows hold at the point or a row can't be mended: then multiples
    /// of rows sum to a constant below 0. Each step takes a turn.
    pub fn solve(&mut self, alloc: Global, turns: &mut u32) -> Result<Option<Vec<Multiple>>, Stop> {
        let most = *turns;
        for _ in 0..most {
            let Some(place) = self.least_broken() else {
                return Ok(None);
            };
            let Some(column) = self.first_mender(place) else {
                return Ok(Some(self.multiples(alloc, place)?));
            };
            *turns = turns.saturating_sub(1);
            self.exchange(place, column)?;
        }
        Err(Stop::Lost)
    }

    // The place of the broken line whose row comes first.
    fn least_broken(&self) -> Option<usize> {
        let mut best = None;
        let mut least = usize::MAX;
        for (place, line) in self.lines.iter().enumerate() {
            if let Variable::Slack(row) = line.basic {
                if line.constant < 0 && row < least {
                    best = Some(place);
                    least = row;
                }
            }
        }
        best
    }

    // The column whose variable can mend the line: an unknown, or else the slack of the first row.
    fn first_mender(&self, place: usize) -> Option<usize> {
        let line = self.lines.get(place)?;
        let mut best = None;
        let mut least = usize::MAX;
        for (column, variable) in self.columns.iter().enumerate() {
            let number = number_at(&line.numbers, column);
            match variable {
                Variable::Unknown(_) => {
                    if number != 0 {
                        return Some(column);
                    }
                }
                Variable::Slack(row) => {
                    if number > 0 && *row < least {
                        best = Some(column);
                        least = *row;
                    }
                }
            }
        }
        best
    }

    // The multiples by which rows sum to the constant of a line that nothing mends.
    fn multiples(&self, alloc: Global, place: usize) -> Result<Vec<Multiple>, Stop> {
        let Some(line) = self.lines.get(place) else {
            return Err(Stop::Lost);
        };
        let mut out = Vec::new(alloc);
        push_multiple(&mut out, line.basic, line.divisor)?;
        for (column, variable) in self.columns.iter().enumerate() {
            push_multiple(
                &mut out,
                *variable,
                number_at(&line.numbers, column).saturating_neg(),
            )?;
        }
        Ok(out)
    }

    // Exchanges the basic variable of a line for that of a column.
    fn exchange(&mut self, place: usize, column: usize) -> Result<(), Stop> {
        let (Some(line), Some(variable)) = (self.lines.get_mut(place), self.columns.get_mut(column))
        else {
            return Err(Stop::Lost);
        };
        line.solve_for(variable, column)?;
        if place >= self.lines.len() {
            return Err(Stop::Lost);
        }
        let pivot = self.lines.remove(place);
        for other in self.lines.iter_mut() {
            other.sweep(column, &pivot)?;
        }
        push(&mut self.lines, pivot)
    }

    /// The unknown's value at the point.
    pub fn value(&self, unknown: usize) -> Result<Frac, Stop> {
        let variable = Variable::Unknown(unknown);
        match self.lines.iter().find(|line| line.basic == variable) {
            Some(line) => fraction(line.constant, line.divisor),
            None => fraction(0, 1),
        }
    }
}

impl Line {
    fn copy(&self, alloc: Global) -> Result<Line, Stop> {
        Ok(Line {
            basic: self.basic,
            divisor: self.divisor,
            numbers: copied(alloc, &self.numbers)?,
            constant: self.constant,
        })
    }

    // Adds so many times the basic variable of an equation.
    fn add(&mut self, times: i128, equation: &Line) -> Result<(), Stop> {
        let common = divisor_of(self.divisor, equation.divisor)?;
        let own = over(equation.divisor, common)?;
        let other = plus_times(0, times, over(self.divisor, common)?)?;
        self.combine(own, other, equation)
    }

    // Takes the variable of a column out by an equation that is solved for it.
    fn sweep(&mut self, column: usize, equation: &Line) -> Result<(), Stop> {
        let number = number_at(&self.numbers, column);
        if number == 0 {
            return Ok(());
        }
        put(&mut self.numbers, column, 0);
        let common = divisor_of(number, equation.divisor)?;
        let own = over(equation.divisor, common)?;
        self.combine(own, over(number, common)?, equation)
    }

    // So many times itself, and so many times what an equation says its basic variable is.
    fn combine(&mut self, own: i128, other: i128, equation: &Line) -> Result<(), Stop> {
        self.divisor = plus_times(0, own, self.divisor)?;
        self.constant = plus_times(plus_times(0, own, self.constant)?, other, equation.constant)?;
        let mut common = divisor_of(self.divisor, self.constant)?;
        for (number, added) in self.numbers.iter_mut().zip(&equation.numbers) {
            *number = plus_times(plus_times(0, own, *number)?, other, *added)?;
            common = divisor_of(common, *number)?;
        }
        self.divide(common)
    }

    // Divides all numbers by a common divisor.
    fn divide(&mut self, common: i128) -> Result<(), Stop> {
        if common == 1 {
            return Ok(());
        }
        self.divisor = over(self.divisor, common)?;
        self.constant = over(self.constant, common)?;
        for number in self.numbers.iter_mut() {
            *number = over(*number, common)?;
        }
        Ok(())
    }

    // Solves the equation for the variable of a column, and hands the column its own.
    fn solve_for(&mut self, variable: &mut Variable, column: usize) -> Result<(), Stop> {
        let number = number_at(&self.numbers, column);
        let sign = if number < 0 { 1 } else { -1 };
        for other in self.numbers.iter_mut() {
            *other = plus_times(0, sign, *other)?;
        }
        self.constant = plus_times(0, sign, self.constant)?;
        put(
            &mut self.numbers,
            column,
            plus_times(0, sign, self.divisor)?.saturating_neg(),
        );
        self.divisor = number.saturating_abs();
        let basic = self.basic;
        self.basic = *variable;
        *variable = basic;
        Ok(())
    }
}

// The multiple of a slack's row, where it isn't 0.
fn push_multiple(out: &mut Vec<Multiple>, variable: Variable, times: i128) -> Result<(), Stop> {
    match variable {
        Variable::Slack(row) if times != 0 => push(out, Multiple { row, times }),
        _ => Ok(()),
    }
}

fn fraction(num: i128, den: i128) -> Result<Frac, Stop> {
    if !is_small(num) || !is_small(den) {
        return Err(Stop::Lost);
    }
    match Frac::make(num, den) {
        Some(value) => Ok(value),
        None => Err(Stop::Lost),
    }
}

/// The unknown of a monomial of degree 1.
pub fn unknown_of(mono: &Mono) -> usize {
    match mono.factors().first() {
        Some(factor) => factor.0 as usize,
        None => usize::MAX,
    }
}
