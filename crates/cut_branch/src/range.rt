ghost use Rattle.std.specs.Prelude.{◌≡◌, pos, ◌≤ℤ◌, length, IfOk, IfSome};
ghost use Rattle.mm_num.specs.Small.{IsSmall};

use cert_kit::{Op, PRow};
use mm_num::{ceil_div, floor_div};
use mm_poly::Poly;
use std::alloc::{AllocError, Global};

/// The whole numbers between which rows of one variable hold it.
#[derive(Clone, Copy, Debug)]
pub(crate) struct Range {
    pub low: Option<i128>,
    pub high: Option<i128>,
}

impl Range {
    /// How far apart its ends are, where it has both.
    pub fn width(&self) -> Option<i128> {
        self.high?.checked_sub(self.low?)
    }
}

/// The ranges of variables, in their order.
pub(crate) fn ranges(alloc: Global, rows: &[PRow], vars: &[u32]) -> Result<Vec<Range>, AllocError>
    ensures { IfOk result (λ ranges. length ranges.items ≡ length vars.now) }
{
    let mut ranges = unbounded(alloc, vars)?;
    for row in rows {
        narrow(&mut ranges, vars, row);
    }
    Ok(ranges)
}

// A range without ends for each variable.
fn unbounded(alloc: Global, vars: &[u32]) -> Result<Vec<Range>, AllocError>
    ensures { IfOk result (λ ranges. length ranges.items ≡ length vars.now) }
{
    let mut ranges = Vec::with_capacity(alloc, vars.len())?;
    for _var in vars {
        ranges.push(Range {
            low: None,
            high: None,
        })?;
    }
    Ok(ranges)
}

// Narrows the range of a row's variable, where it has one alone.
fn narrow(ranges: &mut Vec<Range>, vars: &[u32], row: &PRow)
    requires { length ranges.old.items ≡ length vars.now }
    ensures { length ranges.new.items ≡ length ranges.old.items }
{
    let Some((variable, coeff)) = only_variable(&row.poly) else {
        return;
    };
    if let Ok(place) = vars.binary_search(&variable) {
        ranges[place] = narrowed(ranges[place], coeff, row.poly.constant_term(), row.op);
    }
}

// The variable of a linear polynomial with one alone, and its coefficient.
fn only_variable(poly: &Poly) -> Option<(u32, i128)>
    ensures { IfSome result (λ f. IsSmall f.1) }
{
    let unknowns = poly.unknowns();
    if unknowns.len() != 1 {
        return None;
    }
    let mono = &unknowns[0].mono;
    if mono.is_empty() {
        return None;
    }
    let (variable, _) = mono.factor(0);
    Some((variable, poly.coefficient(mono)))
}

// The range where the coefficient times the variable and the constant are at least 0, or 0.
fn narrowed(range: Range, coeff: i128, constant: i128, op: Op) -> Range
    requires coeff { IsSmall coeff }
    requires constant { IsSmall constant }
{
    if coeff == 0 {
        return range;
    }
    let rises = coeff > 0;
    let equal = op == Op::Eq;
    let (num, den) = solved(coeff, constant);
    Range {
        low: if rises || equal {
            greater(range.low, ceil_div(num, den))
        } else {
            range.low
        },
        high: if equal || !rises {
            less(range.high, floor_div(num, den))
        } else {
            range.high
        },
    }
}

// The fraction at which the coefficient times it and the constant are 0, over a denominator above 0.
fn solved(coeff: i128, constant: i128) -> (i128, i128)
    requires coeff { IsSmall coeff }
    requires constant { IsSmall constant }
    requires some { coeff ≡ pos 0 → ⊥ }
    ensures num { IsSmall result.0 }
    ensures den { IsSmall result.1 }
    ensures positive { pos 1 ≤ℤ result.1 }
{
    if coeff > 0 {
        (-constant, coeff)
    } else {
        (constant, -coeff)
    }
}

fn greater(bound: Option<i128>, other: i128) -> Option<i128> {
    match bound {
        Some(number) => Some(number.max(other)),
        None => Some(other),
    }
}

fn less(bound: Option<i128>, other: i128) -> Option<i128> {
    match bound {
        Some(number) => Some(number.min(other)),
        None => Some(other),
    }
}
