ghost use Rattle.std.specs.Prelude.{◌≡◌, ◌<◌, ◌≤◌, ◌^◌, IfOk, length};
ghost use Rattle.simplex_core.specs.Rows.{unknowns, AreWide, AreSmall, IsPoint};
ghost use Rattle.simplex_core.specs.Form.{one_of};
ghost use Rattle.simplex_core.specs.Walk.{choose, AreNarrow};
ghost use Rattle.simplex_core.specs.Farkas.{IsFarkas};
ghost use Rattle.simplex_core.specs.Solved.{IfPoint, IfFarkas, IfTurns, IfSize, EndsDue, EndsWide, AreFormsNarrow, LeavesTurns, IsWalked};

use crate::answer::{multipliers, point};
use crate::choice::{first_mender, least_broken};
use crate::exchange::exchange;
use crate::tableau::{first_tableau, is_narrow};
use crate::{LinRow, Pivot, Solved, Walked};
use std::alloc::{AllocError, Global};

/// Solves or refutes the rows by at most so many pivots.
///
/// The rows are of equally many coefficients, with numbers of magnitude below 2^126, and there are fewer than 2^32
/// unknowns and rows together. The walk begins at the basis of all slacks. By Bland's rule the least broken slack
/// leaves, and the least variable that can mend it enters (Bland 1977), so no basis comes twice.
pub fn solve(alloc: Global, rows: &[LinRow], turns: u32) -> Result<Solved, AllocError>
    requires wide { AreWide (unknowns rows.now) rows.now }
    requires small { AreSmall rows.now }
    requires few { one_of (unknowns rows.now) rows.now < 2 ^ 32 }

    ensures point { IfOk result (IfPoint (IsPoint rows.now)) }
    ensures farkas { IfOk result (IfFarkas (IsFarkas rows.now)) }
    ensures turns { IfOk result (IfTurns (EndsDue rows.now turns)) }
    ensures size { IfOk result (IfSize (EndsWide rows.now turns)) }

    // There are so many sets of as many variables as rows.
    ensures enough_turns { choose (one_of (unknowns rows.now) rows.now) (length rows.now) ≤ turns
        → IfOk result (IfTurns (λ ps. ⊥)) }
    ensures narrow_forms { AreFormsNarrow rows.now → IfOk result (IfSize (λ ps. ⊥)) }
    ensures narrow_multipliers { IfOk result (IfFarkas AreNarrow) }
{
    Ok(solve_within(alloc, rows, turns)?.solved)
}

/// The same, and the turns that its pivots leave.
pub fn solve_within(alloc: Global, rows: &[LinRow], turns: u32) -> Result<Walked, AllocError>
    requires wide { AreWide (unknowns rows.now) rows.now }
    requires small { AreSmall rows.now }
    requires few { one_of (unknowns rows.now) rows.now < 2 ^ 32 }

    ensures point { IfOk result (λ w. IfPoint (IsPoint rows.now) w.solved) }
    ensures farkas { IfOk result (λ w. IfFarkas (IsFarkas rows.now) w.solved) }
    ensures turns { IfOk result (λ w. IfTurns (EndsDue rows.now turns) w.solved) }
    ensures size { IfOk result (λ w. IfSize (EndsWide rows.now turns) w.solved) }

    // There are so many sets of as many variables as rows.
    ensures enough_turns { choose (one_of (unknowns rows.now) rows.now) (length rows.now) ≤ turns
        → IfOk result (λ w. IfTurns (λ ps. ⊥) w.solved) }
    ensures narrow_forms { AreFormsNarrow rows.now → IfOk result (λ w. IfSize (λ ps. ⊥) w.solved) }
    ensures narrow_multipliers { IfOk result (λ w. IfFarkas AreNarrow w.solved) }

    ensures left { IfOk result (λ w. LeavesTurns rows.now turns w.left) }
{
    let width = rows.first().map_or(0, |row| row.coeffs.len());
    walk(alloc, rows, width, turns)
}

/// Goes from basis to basis until nothing is broken, nothing can mend what is, the turns are taken, or a number is
/// too great.
fn walk(alloc: Global, rows: &[LinRow], width: usize, turns: u32) -> Result<Walked, AllocError>
    requires width { width ≡ unknowns rows.now }
    requires wide { AreWide width rows.now }
    requires small { AreSmall rows.now }
    requires few { one_of width rows.now < 2 ^ 32 }
    ensures { IfOk result (IsWalked rows.now turns) }
{
    let mut lines = first_tableau(alloc, rows, width)?;
    let mut pivots = Vec::new(alloc);
    let mut left = turns;
    'bases: loop {
        if !is_narrow(&lines) {
            let solved = Solved::Size(pivots);
            return Ok(Walked { solved, left });
        }
        let Some(place) = least_broken(&lines, rows, width) else {
            let solved = Solved::Point(point(alloc, &lines, rows, width)?);
            return Ok(Walked { solved, left });
        };
        let Some(enters) = first_mender(&lines[place], rows, width) else {
            let found = multipliers(alloc, &lines[place], width, rows.len())?;
            let solved = Solved::Farkas(found);
            return Ok(Walked { solved, left });
        };
        if left == 0 {
            let solved = Solved::Turns(pivots);
            return Ok(Walked { solved, left });
        }
        let leaves = lines[place].basic();
        pivots.push(Pivot { leaves, enters })?;
        exchange(&mut lines, place, enters)?;
        left -= 1;
    }
}
