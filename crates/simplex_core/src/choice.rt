ghost use Rattle.std.specs.Prelude.{◌≡◌, ℕ, ◌+◌, ◌<◌, ◌≤◌, ◌^◌, ◌↔◌, IsTrue, MatchOption, IfSome, length};
ghost use Rattle.simplex_core.specs.Form.{one_of, IsForm, IsPlaced};
ghost use Rattle.simplex_core.specs.Walk.{is_equality, IsBroken, CanMend};
ghost use Rattle.simplex_core.specs.machine.Tableau.{NoneBroken, IsLeastAt, IsLesser, IsFirstMender};

use crate::LinRow;
use crate::tableau::Line;

/// Whether a variable is the slack of an equality.
#[tactic(auto, using(crate::proofs::ChoiceLaws::equality_at))]
pub fn is_equality(rows: &[LinRow], unknowns: usize, variable: usize) -> bool
    requires { variable < one_of unknowns rows.now }
    ensures { result ≡ is_equality unknowns rows.now variable }
{
    variable >= unknowns && rows[variable - unknowns].equal
}

/// Whether the line's variable is a slack below 0, or that of an equality and not 0.
fn is_broken(line: &Line, rows: &[LinRow], unknowns: usize) -> bool
    requires { IsPlaced (one_of unknowns rows.now) line.now }
    ensures { IsTrue result ↔ IsBroken unknowns rows.now line.now }
{
    let slack = line.basic() as usize;
    let shortfall = line.numbers()[unknowns + rows.len()];
    slack >= unknowns && (shortfall > 0 || (is_equality(rows, unknowns, slack) && shortfall != 0))
}

/// Whether the variable can mend the line.
fn can_mend(line: &Line, rows: &[LinRow], unknowns: usize, variable: usize) -> bool
    requires line { IsPlaced (one_of unknowns rows.now) line.now }
    requires variable { variable < one_of unknowns rows.now }
    ensures { IsTrue result ↔ CanMend unknowns rows.now line.now variable }
{
    let number = line.numbers()[variable];
    if variable < unknowns {
        return number != 0;
    }
    let shortfall = line.numbers()[unknowns + rows.len()];
    !is_equality(rows, unknowns, variable)
        && ((shortfall > 0 && number < 0) || (shortfall < 0 && number > 0))
}

/// The place with the lesser variable, the new one where there was none.
fn lesser(lines: &[Line], best: Option<usize>, place: usize) -> usize
    requires place { place < length lines.now }
    requires best { IfSome best (λ b. b < length lines.now) }
    ensures { IsLesser lines.now best place result }
{
    match best {
        Some(b) if lines[b].basic() <= lines[place].basic() => b,
        _ => place,
    }
}

/// The place of the least broken slack's line, none where no slack is broken.
pub fn least_broken(lines: &[Line], rows: &[LinRow], unknowns: usize) -> Option<usize>
    requires { IsForm unknowns rows.now lines.now }
    ensures { MatchOption result (NoneBroken unknowns rows.now lines.now) (IsLeastAt unknowns rows.now lines.now) }
{
    let mut best = None;
    for (place, line) in lines.iter().enumerate() {
        if is_broken(line, rows, unknowns) {
            best = Some(lesser(lines, best, place));
        }
    }
    best
}

/// The least variable that can mend the line, none where nothing can.
pub fn first_mender(line: &Line, rows: &[LinRow], unknowns: usize) -> Option<u32>
    requires line { IsPlaced (one_of unknowns rows.now) line.now }
    requires few { one_of unknowns rows.now < 2 ^ 32 }
    ensures { MatchOption result
        ((e : ℕ) → e < one_of unknowns rows.now → CanMend unknowns rows.now line.now e → ⊥)
        (IsFirstMender unknowns rows.now line.now) }
{
    for variable in 0..unknowns + rows.len() {
        if can_mend(line, rows, unknowns, variable) {
            return Some(variable as u32);
        }
    }
    None
}
