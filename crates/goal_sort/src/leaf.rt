//! Nodes without operands.

ghost use Rattle.std.specs.Prelude.{◌≡◌, ◌≤◌, ◌<◌, length, nat_eq, IfSome};
ghost use Rattle.std.specs.Cmp.Lexicographic.{pointwise};
ghost use Rattle.goal_token.specs.Words.{lookup, constants};
ghost use Rattle.goal_sort.specs.SortGiving.{GivesPlaced};
ghost use Rattle.goal_sort.specs.Sorting.{same_name, bound_from, zero_place, variable, constant_node, bound_node, name_node, leaf_node};

use crate::fail::SortFail;
use crate::raw::{Head, RawBound};
use crate::statement::a_statement;
use crate::term::a_number;
use crate::truth::a_truth;
use crate::value::{NumberSort, Sorted};
use goal_ast::{BTerm, Formula, Name, Sort, Term};
use goal_token::Constant;

fn same_name(a: &Name, b: &Name) -> bool
    ensures { result ≡ same_name a.now b.now }
{
    a.bytes.as_slice() == b.bytes.as_slice()
}

/// The variable that a name is bound to, and its sort.
pub fn bound_to(name: &Name, bound: &[RawBound]) -> Option<(usize, Sort)>
    ensures value { result ≡ bound_from 0 name.now bound.now }
    ensures below { IfSome result (λ v. v.0 < length bound.now) }
{
    for v in 0..bound.len() {
        if same_name(name, &bound[v].name) {
            return Some((v, bound[v].sort));
        }
    }
    None
}

// The place, where a literal there is 0.
fn zero_place(n: i128, at: u64) -> Option<u64>
    ensures { result ≡ zero_place n at }
{
    if n == 0 { Some(at) } else { None }
}

fn variable(v: u32, sort: Sort) -> Sorted
    ensures { result ≡ variable v sort }
{
    if sort == Sort::Bool {
        a_truth(BTerm::Var(v), None)
    } else {
        a_number(NumberSort::Fixed(sort), Term::Var(v), None)
    }
}

fn constant_of(text: &[u8]) -> Option<Constant>
    ensures { result ≡ lookup text.now constants }
{
    match text {
        b"True" => Some(Constant::True),
        b"False" => Some(Constant::False),
        b"true" => Some(Constant::BoolTrue),
        b"false" => Some(Constant::BoolFalse),
        _ => None,
    }
}

fn constant_node(constant: Constant) -> Sorted
    ensures { result ≡ constant_node constant }
{
    match constant {
        Constant::True => a_statement(Formula::True, None),
        Constant::False => a_statement(Formula::False, None),
        Constant::BoolTrue => a_truth(BTerm::True, None),
        Constant::BoolFalse => a_truth(BTerm::False, None),
    }
}

#[tactic(auto, unfolding(crate::specs::Sorting::bound_node))]
fn bound_node(bound: &[RawBound], at: u64, name: &Name) -> Result<Sorted, SortFail>
    requires { length bound.now ≤ 256 }
    ensures { GivesPlaced result (bound_node bound.now at name.now) }
{
    match bound_to(name, bound) {
        Some((v, sort)) => Ok(variable(v as u32, sort)),
        None => Err(SortFail::IllSorted { at }),
    }
}

#[tactic(auto, unfolding(crate::specs::Sorting::name_node))]
fn name_node(bound: &[RawBound], at: u64, name: &Name) -> Result<Sorted, SortFail>
    requires { length bound.now ≤ 256 }
    ensures { GivesPlaced result (name_node bound.now at name.now) }
{
    match constant_of(name.bytes.as_slice()) {
        Some(constant) => Ok(constant_node(constant)),
        None => bound_node(bound, at, name),
    }
}

/// A literal or a name.
#[tactic(auto, unfolding(crate::specs::Sorting::leaf_node))]
pub fn leaf_node(bound: &[RawBound], at: u64, head: &Head) -> Result<Sorted, SortFail>
    requires { length bound.now ≤ 256 }
    ensures { GivesPlaced result (leaf_node bound.now at head.now) }
{
    match head {
        Head::Lit(n) => Ok(a_number(NumberSort::Free(false), Term::Lit(*n), zero_place(*n, at))),
        Head::Name(name) => name_node(bound, at, name),
        _ => Err(SortFail::IllSorted { at }),
    }
}
