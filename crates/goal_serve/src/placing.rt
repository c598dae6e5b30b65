ghost use Rattle.std.specs.Prelude.{◌≡◌, ◌<◌, ℕ, length, IfOk};
ghost use Rattle.std.specs.List.{AllByRecursion};
ghost use Rattle.std.specs.List.Sorted.{IsStrictlySortedBy};
ghost use Rattle.std.specs.Ordering.{nat_cmp};
ghost use Rattle.mm_num.specs.Small.{IsSmall};
ghost use Rattle.mm_poly.specs.Point.{point_of as point_by};
ghost use Rattle.goal_ast.specs.Range.{point_of};
ghost use Rattle.goal_serve.specs.Answering.{placed};

use goal_ast::Assignment;
use sqlite_items::Items;
use std::alloc::{AllocError, Global};

// The values of a clause's variables as those of so many variables of the goal, 0 for each that isn't in the clause.
pub(crate) fn placed(
    alloc: Global,
    bound: usize,
    vars: &[u32],
    values: &[i128],
) -> Result<Assignment, AllocError>
    requires order { IsStrictlySortedBy nat_cmp vars.now }
    requires one_each { length values.now ≡ length vars.now }
    requires small { AllByRecursion IsSmall values.now }
    ensures one_each { IfOk result (λ a. length a.values ≡ bound) }
    ensures values { IfOk result (λ a. (v : ℕ) → v < bound → point_of a.values v ≡ placed vars.now (point_by values.now) v) }
{
    let mut out = Vec::with_capacity(alloc, bound)?;
    out.resize(bound, 0)?;
    for (place, var) in vars.iter().enumerate() {
        let var = *var as usize;
        let value = values[place];
        if var < bound {
            out[var] = value;
        }
    }
    Ok(Assignment {
        values: Items::from_vec(out),
    })
}
