ghost use Rattle.std.specs.Prelude.{◌≡◌, ◌<◌, IfOk, length};
ghost use Rattle.std.specs.List.{All};
ghost use Rattle.simplex_core.specs.Walk.{AreNarrow};
ghost use Rattle.simplex_core.specs.machine.Tableau.{turned, pivoted, line_at, swept_all, IsSweepable, CanExchange};

use crate::tableau::Line;
use std::alloc::AllocError;

/// Takes a variable out of all equations, by the one that is solved for it.
fn sweep_all(lines: &mut [Line], variable: usize, pivot: &[i128])
    requires lines { All (IsSweepable (length pivot.now)) lines.old }
    requires pivot { AreNarrow pivot.now }
    requires place { variable < length pivot.now }
    ensures { lines.new ≡ swept_all variable pivot.now lines.old }
{
    for line in lines.iter_mut() {
        line.sweep(variable, pivot);
    }
}

/// Exchanges the variable of the line at a place for one outside the basis.
pub fn exchange(lines: &mut Vec<Line>, place: usize, enters: u32) -> Result<(), AllocError>
    requires { CanExchange lines.old.items place enters }
    ensures { IfOk result (λ _. lines.new.items
        ≡ pivoted (line_at lines.old.items place).0 enters (turned enters (line_at lines.old.items place).1) lines.old.items) }
{
    let mut pivot = lines.remove(place);
    pivot.solve_for(enters);
    sweep_all(lines, enters as usize, pivot.numbers());
    lines.insert(place, pivot)?;
    Ok(())
}
