ghost use Rattle.std.specs.Prelude.{◌≡◌, ◌≤◌, suc, [], ◌∷◌, length, true, Some, slice_get, IfOk, IfSome};
ghost use Rattle.std.specs.Bool.{OnTrue};
ghost use Rattle.std.specs.List.{AllByRecursion};
ghost use Rattle.mm_num.specs.Small.{IsSmall};
ghost use Rattle.goal_ast.specs.Sorted.{IsWellFormed};
ghost use Rattle.goal_ast.specs.Range.{IsInRange};
ghost use Rattle.goal_ast.specs.Fitting.{all_fit, is_in_sort, fits_bound};
ghost use Rattle.box_enum.specs.Cube.{cube_of, fails_at};
ghost use Rattle.box_enum.specs.machine.Trying.{IsFoundIn, points_from, points_with_one_of};

use goal_ast::{Assignment, Bound, Eval, Goal, Sort, eval};
use sqlite_items::Items;
use std::alloc::{AllocError, Global};

// At most so many variables are tried.
const MOST_VARIABLES: usize = 6;

// The values that are tried, in their order.
const VALUES: [i128; 5] = [0, 1, -1, 2, -2];

/// The first assignment of the cube at which the goal is false: a goal of at most 6 variables, with values from -2 to 2.
pub fn cube(alloc: Global, goal: &Goal) -> Result<Option<Assignment>, AllocError>
    requires { IsWellFormed goal.now }
    ensures first { IfOk result (λ found. found ≡ cube_of goal.now) }
    ensures in_range { IfOk result (λ found. IfSome found (IsInRange goal.now)) }
{
    let count = goal.vars.len();
    if count > MOST_VARIABLES {
        return Ok(None);
    }
    let mut a = Assignment {
        values: Items::from_vec(Vec::with_capacity(alloc, count)?),
    };
    if search(goal, &mut a)? {
        Ok(Some(a))
    } else {
        Ok(None)
    }
}

// Whether some values of the variables that have none yet make the goal false; the first such are put behind the others.
#[cycle(search)]
fn search(goal: &Goal, a: &mut Assignment) -> Result<bool, AllocError>
    requires well_formed { IsWellFormed goal.now }
    requires few { length a.old.values ≤ length goal.now.vars }
    requires fit { all_fit goal.now.vars a.old.values ≡ true }
    ensures found { IfOk result (λ found. IsFoundIn goal.now (points_from (length a.old.values) goal.now) a.old.values found a.new.values) }
    ensures whole { IfOk result (λ found. OnTrue found (IsInRange goal.now a.new)) }
{
    match goal.vars.get(a.values.len()) {
        None => Ok(fails(goal, a)),
        Some(bound) => {
            let found = search_values(goal, a, bound, &VALUES)?;
            Ok(found)
        }
    }
}

// Tries those of these values that the next variable may have.
#[cycle(search)]
fn search_values(
    goal: &Goal,
    a: &mut Assignment,
    bound: &Bound,
    values: &[i128],
) -> Result<bool, AllocError>
    requires well_formed { IsWellFormed goal.now }
    requires next { slice_get goal.now.vars (length a.old.values) ≡ Some bound.now }
    requires fit { all_fit goal.now.vars a.old.values ≡ true }
    requires few { length values.now ≤ 5 }
    requires small { AllByRecursion IsSmall values.now }
    ensures found { IfOk result (λ found. IsFoundIn goal.now (points_with_one_of bound.now values.now (points_from (suc (length a.old.values)) goal.now)) a.old.values found a.new.values) }
    ensures whole { IfOk result (λ found. OnTrue found (IsInRange goal.now a.new)) }
{
    let Some(value) = values.first() else {
        return Ok(false);
    };
    if search_value(goal, a, bound, *value)? {
        return Ok(true);
    }
    let found = search_values(goal, a, bound, &values[1..])?;
    Ok(found)
}

// Tries a value of the next variable, if it may have it.
#[cycle(search)]
fn search_value(
    goal: &Goal,
    a: &mut Assignment,
    bound: &Bound,
    value: i128,
) -> Result<bool, AllocError>
    requires well_formed { IsWellFormed goal.now }
    requires next { slice_get goal.now.vars (length a.old.values) ≡ Some bound.now }
    requires fit { all_fit goal.now.vars a.old.values ≡ true }
    requires small { IsSmall value }
    ensures found { IfOk result (λ found. IsFoundIn goal.now (points_with_one_of bound.now (value ∷ []) (points_from (suc (length a.old.values)) goal.now)) a.old.values found a.new.values) }
    ensures whole { IfOk result (λ found. OnTrue found (IsInRange goal.now a.new)) }
{
    if !has_number(bound.sort, value) {
        return Ok(false);
    }
    a.values.push(value)?;
    if search(goal, a)? {
        return Ok(true);
    }
    a.values.pop();
    Ok(false)
}

// Whether the goal is false at an assignment.
fn fails(goal: &Goal, a: &Assignment) -> bool
    requires well_formed { IsWellFormed goal.now }
    requires in_range { IsInRange goal.now a.now }
    ensures { result ≡ fails_at goal.now a.now.values }
{
    match eval(goal, a) {
        Eval::False => true,
        Eval::True => false,
        Eval::Big => false,
    }
}

// Whether a sort has a number.
fn has_number(sort: Sort, z: i128) -> bool
    ensures { result ≡ is_in_sort sort z }
{
    match sort {
        Sort::Int => true,
        Sort::Bin | Sort::Nat => z >= 0,
        Sort::Pos => z >= 1,
        Sort::Bool => z >= 0 && z <= 1,
    }
}
