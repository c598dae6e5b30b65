ghost use Rattle.std.specs.Prelude.{◌⊎◌, ◌+◌, ◌*◌, ◌<◌, ◌≤◌, ◌^◌, ◌↔◌, IsTrue};
ghost use Rattle.std.specs.List.{All};
ghost use Rattle.simplex_core.specs.Walk.{choose};
ghost use Rattle.relaxation.specs.machine.Ending.{IsNarrowForm};

use simplex_core::LinRow;

const NARROW_LIMIT: u128 = 1073741824;

const MOST_NUMBERS: usize = 65536;

/// Whether a simplex is tried: its tableau is small, or there may be no more candidate bases than turns.
pub fn is_in_reach(unknowns: usize, rows: usize, turns: u32) -> bool
    requires unknowns { unknowns < 2 ^ 32 }
    requires rows { rows < 2 ^ 32 }
    ensures { choose (unknowns + rows) rows ≤ turns → IsTrue result }
{
    is_small(unknowns, rows) || has_few_bases(unknowns.max(rows), turns)
}

// Whether the tableau is small, or has fewer than two unknowns or rows.
fn is_small(unknowns: usize, rows: usize) -> bool
    requires unknowns { unknowns < 2 ^ 32 }
    requires rows { rows < 2 ^ 32 }
    ensures { IsTrue result ⊎ ((2 ≤ unknowns) × (2 ≤ rows)) }
{
    unknowns < 2 || rows < 2 || rows.saturating_mul(unknowns + rows + 1) <= MOST_NUMBERS
}

// Whether two of so many things and two more can be taken in at most so many ways.
fn has_few_bases(count: usize, turns: u32) -> bool
    requires { count < 2 ^ 32 }
    ensures { IsTrue result ↔ ((count + 1) * (count + 2) ≤ 2 * turns) }
{
    (count as u128 + 1) * (count as u128 + 2) <= 2 * turns as u128
}

/// Whether all numbers are below 2^30 in magnitude.
pub fn are_narrow(forms: &[LinRow]) -> bool
    ensures { IsTrue result ↔ All IsNarrowForm forms.now }
{
    forms.iter().all(|form| is_narrow(form))
}

fn is_narrow(form: &LinRow) -> bool
    ensures { IsTrue result ↔ IsNarrowForm form.now }
{
    form.coeffs.iter().all(|c| c.unsigned_abs() < NARROW_LIMIT)
        && form.constant.unsigned_abs() < NARROW_LIMIT
}
