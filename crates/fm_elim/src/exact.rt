ghost use Rattle.std.specs.Prelude.{◌≡◌, ◌++◌, ◌∷◌, [], List, false, IfOk, OnOk};
ghost use Rattle.mm_poly.specs.declared.term.Term.{Term as ATerm};
ghost use Rattle.mm_poly.specs.Mono.{is_constant};
ghost use Rattle.mm_poly.specs.Poly.{IsPoly, without_constant};
ghost use Rattle.cert_kit.specs.declared.row.PRow.{PRow as ARow};
ghost use Rattle.std.specs.List.{AllByRecursion};
ghost use Rattle.fm_elim.specs.Unknowns.{with_unknowns, unknowns};
ghost use Rattle.fm_elim.specs.Steps.{first_exact, is_exact};
ghost use Rattle.fm_elim.specs.machine.Choice.{at_most_1, at_least_minus_1, lent, first_lent, first_of, first_unknown, earlier, terms_of, first_exact_in, first_in_group, AreInOrder, AreOrdered, IsGroup};
ghost use Rattle.fm_elim.specs.machine.Tidying.{rows_of};

use crate::group::Group;
use crate::live::Live;
use mm_poly::{Mono, Poly, Term};
use std::alloc::{AllocError, Global};
use std::cmp::Ordering;

/// The first unknown of rows.
pub fn first_unknown(rows: &[Live]) -> Option<&Mono>
    ensures { first_lent result ≡ first_of (unknowns (rows_of rows.now)) }
{
    let mut first = None;
    for n in (0..rows.len()).rev() {
        first = earlier(&rows[n].row.poly, first);
    }
    first
}

// The first unknown of a polynomial or the one that was found, whichever comes before the other.
fn earlier<'a>(poly: &'a Poly, found: Option<&'a Mono>) -> Option<&'a Mono>
    ensures first { first_lent result ≡ earlier (first_unknown (without_constant poly.now)) (first_lent found.entry) }
    ensures order { IsPoly poly.now }
{
    prove!(poly.spread() <= 65_536);
    let Some(term) = poly.unknowns().first() else {
        return found;
    };
    let Some(unknown) = found else {
        return Some(&term.mono);
    };
    match term.mono.order(unknown) {
        Ordering::Less => Some(&term.mono),
        Ordering::Equal | Ordering::Greater => Some(unknown),
    }
}

/// Whether the unknown's positive coefficients are all 1, or its negative ones all -1.
pub fn is_exact(rows: &[Live], unknown: &Mono) -> bool
    ensures { result ≡ is_exact (rows_of rows.now) unknown.now }
{
    let mut lower_ones = true;
    let mut upper_ones = true;
    for live in rows {
        let coeff = live.row.poly.coefficient(unknown);
        lower_ones = lower_ones && coeff <= 1;
        upper_ones = upper_ones && coeff >= -1;
    }
    lower_ones || upper_ones
}

/// The first unknown of rows that can be eliminated exactly.
pub fn first_exact(alloc: Global, rows: &[Live]) -> Result<Option<Mono>, AllocError>
    ensures { IfOk result (λ found. found ≡ first_exact (rows_of rows.now) (unknowns (rows_of rows.now))) }
{
    are_polys(rows);
    let terms = terms_in_order(alloc, rows)?;
    let found = first_exact_in(&terms)?;
    Ok(found)
}

// Each polynomial's terms are in order, since it is a `Poly`.
fn are_polys(rows: &[Live])
    ensures { AllByRecursion (λ (r : ARow). IsPoly r.poly) (rows_of rows.now) }
{
    for live in rows {
        prove!(live.row.poly.spread() <= 65_536);
    }
}

// The terms of rows that aren't constant, in monomial order.
fn terms_in_order(alloc: Global, rows: &[Live]) -> Result<Vec<&Term>, AllocError>
    ensures { IfOk result (λ terms. AreOrdered (rows_of rows.now) (lent terms.items)) }
{
    let mut terms = terms_of(alloc, rows)?;
    terms.sort_unstable_by(|first, second| first.mono.order(&second.mono));
    Ok(terms)
}

// The terms of rows that aren't constant, row after row.
fn terms_of(alloc: Global, rows: &[Live]) -> Result<Vec<&Term>, AllocError>
    ensures { IfOk result (λ terms. lent terms.items ≡ terms_of (rows_of rows.now)) }
{
    let mut terms = Vec::with_capacity(alloc, rows.len())?;
    for live in rows {
        push_all(&mut terms, live.row.poly.unknowns())?;
    }
    Ok(terms)
}

fn push_all<'a>(terms: &mut Vec<&'a Term>, more: &'a [Term]) -> Result<(), AllocError>
    ensures { OnOk result (lent terms.new.items ≡ lent terms.old.items ++ more.now) }
{
    for term in more {
        terms.push(term)?;
    }
    Ok(())
}

// The first unknown of terms in monomial order that can be eliminated exactly.
fn first_exact_in(terms: &[&Term]) -> Result<Option<Mono>, AllocError>
    requires { AreInOrder (lent terms.now) }
    ensures { IfOk result (λ found. found ≡ first_exact_in (lent terms.now) (with_unknowns (lent terms.now) [])) }
{
    let count = terms.len();
    if count == 0 {
        return Ok(None);
    }
    let mut group = first_group(terms[count - 1]);
    for n in (0..count - 1).rev() {
        group = group.with(terms[n]);
    }
    match group.first_exact() {
        Some(unknown) => Ok(Some(unknown.copy()?)),
        None => Ok(None),
    }
}

// The group of one term.
fn first_group(term: &Term) -> Group<'_>
    requires { is_constant term.now.mono ≡ false }
    ensures { IsGroup (term.now ∷ []) result }
{
    Group::new(
        &term.mono,
        is_at_most_1(term),
        is_at_least_minus_1(term),
        None,
    )
}

fn is_at_most_1(term: &Term) -> bool
    ensures { result ≡ at_most_1 term.now.coeff }
{
    term.coeff <= 1
}

fn is_at_least_minus_1(term: &Term) -> bool
    ensures { result ≡ at_least_minus_1 term.now.coeff }
{
    term.coeff >= -1
}

impl<'a> Group<'a> {
    fn new(
        unknown: &'a Mono,
        lower_ones: bool,
        upper_ones: bool,
        later: Option<&'a Mono>,
    ) -> Group<'a>
        ensures unknown { result.unknown.now ≡ unknown.now }
        ensures lower { result.lower_ones ≡ lower_ones }
        ensures upper { result.upper_ones ≡ upper_ones }
        ensures later { first_lent result.later ≡ first_lent later.entry }
    {
        Group {
            unknown,
            lower_ones,
            upper_ones,
            later,
        }
    }

    // The group with one more term before the others.
    fn with(self, term: &'a Term) -> Group<'a>
        ensures { (terms : List ATerm) → AreInOrder (term.now ∷ terms) → IsGroup terms self.entry → IsGroup (term.now ∷ terms) result }
    {
        let lower_one = is_at_most_1(term);
        let upper_one = is_at_least_minus_1(term);
        if term.mono.same(self.unknown) {
            let lower_ones = lower_one && self.lower_ones;
            let upper_ones = upper_one && self.upper_ones;
            return Group::new(self.unknown, lower_ones, upper_ones, self.later);
        }
        Group::new(&term.mono, lower_one, upper_one, self.first_exact())
    }

    // The first unknown that can be eliminated exactly.
    fn first_exact(self) -> Option<&'a Mono>
        ensures { first_lent result ≡ first_in_group self.entry }
    {
        if self.lower_ones || self.upper_ones {
            Some(self.unknown)
        } else {
            self.later
        }
    }
}
