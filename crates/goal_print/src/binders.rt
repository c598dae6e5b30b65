//! The variables that a goal binds.

ghost use Rattle.std.specs.Prelude.{◌≡◌, ◌++◌, OnOk, ◌∷◌, not};
ghost use Rattle.std.specs.List.{list_any};
ghost use Rattle.goal_ast.specs.Sorted.{is_sort};
ghost use Rattle.goal_print.specs.Binders.{opening, closing, ending, next, following};
ghost use Rattle.goal_print.specs.Text.{groups, groups_text, binders_text};

use crate::pieces::push;
use crate::spelling::sort_text;
use goal_ast::{Bound, Sort};
use std::alloc::AllocError;

fn is_other(sort: Sort, other: Sort) -> bool
    ensures { result ≡ not (is_sort sort other) }
{
    sort != other
}

fn has_other(vars: &[Bound], sort: Sort) -> bool
    ensures { result ≡ list_any (λ b. not (is_sort sort b.sort)) vars.now }
{
    vars.iter().any(|bound| is_other(sort, bound.sort))
}

fn open(out: &mut Vec<u8>, several: bool) -> Result<(), AllocError>
    ensures { OnOk result (out.new.items ≡ out.old.items ++ opening several) }
{
    push(out, if several { b"(" } else { b"" })
}

fn close(out: &mut Vec<u8>, several: bool) -> Result<(), AllocError>
    ensures { OnOk result (out.new.items ≡ out.old.items ++ closing several) }
{
    push(out, if several { b")" } else { b"" })
}

// What stands after the last name of a group.
fn push_ending(out: &mut Vec<u8>, several: bool, sort: Sort) -> Result<(), AllocError>
    ensures { OnOk result (out.new.items ≡ out.old.items ++ ending several sort) }
{
    push(out, b" : ")?;
    push(out, sort_text(sort))?;
    close(out, several)
}

// A name, and what stands between it and a name of this sort before it.
fn push_next(out: &mut Vec<u8>, several: bool, sort: Sort, bound: &Bound) -> Result<(), AllocError>
    ensures { OnOk result (out.new.items ≡ out.old.items ++ next several sort bound.now) }
{
    if is_other(sort, bound.sort) {
        push_ending(out, several, sort)?;
        push(out, b" ")?;
        open(out, several)?;
        push(out, bound.name.bytes.as_slice())
    } else {
        push(out, b" ")?;
        push(out, bound.name.bytes.as_slice())
    }
}

// What stands after a name of this sort, with these variables after it.
fn push_following(
    out: &mut Vec<u8>,
    several: bool,
    first: Sort,
    vars: &[Bound],
) -> Result<(), AllocError>
    ensures { OnOk result (out.new.items ≡ out.old.items ++ following several first vars.now) }
{
    let mut sort = first;
    for bound in vars {
        push_next(out, several, sort, bound)?;
        sort = bound.sort;
    }
    push_ending(out, several, sort)
}

// The variables between `forall` and the comma.
fn push_groups(out: &mut Vec<u8>, first: &Bound, vars: &[Bound]) -> Result<(), AllocError>
    ensures { OnOk result (out.new.items ≡ out.old.items ++ groups_text (groups (first.now ∷ vars.now))) }
{
    let several = has_other(vars, first.sort);
    open(out, several)?;
    push(out, first.name.bytes.as_slice())?;
    push_following(out, several, first.sort, vars)
}

// Nothing where there are no variables.
pub(crate) fn push_binders(out: &mut Vec<u8>, vars: &[Bound]) -> Result<(), AllocError>
    ensures { OnOk result (out.new.items ≡ out.old.items ++ binders_text vars.now) }
{
    match vars {
        [] => Ok(()),
        [first, rest @ ..] => {
            push(out, b"forall ")?;
            push_groups(out, first, rest)?;
            push(out, b", ")
        }
    }
}
