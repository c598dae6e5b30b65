ghost use Rattle.std.specs.Prelude.{◌≡◌, unsigned_abs};
ghost use Rattle.goal_measure.specs.Measure.{of_product, of_power, of_variable, nothing, greater};
ghost use Rattle.goal_measure.specs.Bounding.{cap, cases_bound, difference_bound, remainder_bound, quotient_bound, predecessor_bound, sign_bound, call_bound, called_bound, difference_term_bound, weighed, compared_bound, bool_bound, formula_bound, sum_capped, atom_capped, of_literal_capped};

use crate::measure::{Measure, atom, greatest, literal, none, power, product, sum, variable};
use goal_ast::{BTerm, Fn1, Formula, Sort, Term};

/// The measures of a term's translation, and the greatest ones of the conditions of its operations, each up to its limit.
#[derive(Clone, Copy)]
pub struct Weighed {
    pub term: Measure,
    pub atoms: Measure,
}

fn cases(a: Measure, b: Measure, v: Measure, w: Measure) -> Measure
    ensures { result ≡ cases_bound a b v w }
{
    let compared = atom(a, b);
    greatest(
        greatest(compared, atom(variable(), v)),
        greatest(compared, atom(variable(), w)),
    )
}

fn difference(sort: Sort, a: Measure, b: Measure) -> Measure
    ensures { result ≡ difference_bound sort a b }
{
    match sort {
        Sort::Int | Sort::Bool => none(),
        Sort::Bin | Sort::Nat => cases(a, b, sum(a, b), literal(0)),
        Sort::Pos => cases(a, b, sum(a, b), literal(1)),
    }
}

fn difference_term(sort: Sort, a: Measure, b: Measure) -> Measure
    ensures { result ≡ difference_term_bound sort a b }
{
    match sort {
        Sort::Int | Sort::Bool => sum(a, b),
        Sort::Bin | Sort::Nat | Sort::Pos => variable(),
    }
}

fn remainder(a: Measure, k: &i128) -> Measure
    ensures { result ≡ remainder_bound a k.now }
{
    sum(a, product(literal(k.unsigned_abs()), variable()))
}

fn quotient(a: Measure, k: &i128) -> Measure
    ensures { result ≡ quotient_bound a k.now }
{
    let rest = remainder(a, k);
    greatest(
        atom(rest, literal(0)),
        atom(rest, literal(k.unsigned_abs())),
    )
}

fn predecessor(n: u128, m: u128, a: Measure) -> Measure
    ensures { result ≡ predecessor_bound n m a }
{
    cases(a, literal(n), sum(a, literal(1)), literal(m))
}

fn sign(a: Measure) -> Measure
    ensures { result ≡ sign_bound a }
{
    let zero = literal(0);
    let one = literal(1);
    greatest(
        greatest(atom(a, zero), atom(variable(), one)),
        cases(a, zero, zero, one),
    )
}

fn call(f: Fn1, a: Measure) -> Measure
    ensures { result ≡ call_bound f a }
{
    match f {
        Fn1::ZAbs => cases(a, literal(0), a, a),
        Fn1::ZSgn => sign(a),
        Fn1::NatPred | Fn1::NPred => predecessor(1, 0, a),
        Fn1::PosPred => predecessor(2, 1, a),
        Fn1::ToNat | Fn1::ToN => cases(a, literal(0), a, literal(0)),
        Fn1::ZSucc | Fn1::ZPred | Fn1::ZOpp | Fn1::S | Fn1::NSucc => none(),
        Fn1::PosSucc | Fn1::OfNat | Fn1::OfN | Fn1::OfPos => none(),
    }
}

fn called(f: Fn1, a: Measure) -> Measure
    ensures { result ≡ called_bound f a }
{
    match f {
        Fn1::ZSucc | Fn1::ZPred | Fn1::S | Fn1::NSucc | Fn1::PosSucc => sum(a, literal(1)),
        Fn1::ZOpp | Fn1::OfNat | Fn1::OfN | Fn1::OfPos => a,
        Fn1::ZAbs | Fn1::ZSgn | Fn1::NatPred | Fn1::NPred | Fn1::PosPred => variable(),
        Fn1::ToNat | Fn1::ToN => variable(),
    }
}

fn joined(term: Measure, a: Weighed, b: Weighed) -> Weighed
    ensures { result ≡ record { term = term; atoms = greater a.atoms b.atoms } }
{
    Weighed {
        term,
        atoms: greatest(a.atoms, b.atoms),
    }
}

fn with_condition(term: Measure, parts: Measure, condition: Measure) -> Weighed
    ensures { result ≡ record { term = term; atoms = greater parts condition } }
{
    Weighed {
        term,
        atoms: greatest(parts, condition),
    }
}

fn leaf(term: Measure) -> Weighed
    ensures { result ≡ record { term = term; atoms = nothing } }
{
    Weighed {
        term,
        atoms: none(),
    }
}

pub(crate) fn weigh(t: &Term) -> Weighed
    ensures { result ≡ weighed t.now }
{
    match t {
        Term::Lit(n) => leaf(literal(n.unsigned_abs())),
        Term::Var(_) => leaf(variable()),
        Term::Neg(a) => weigh(a.get()),
        Term::Add(a, b) => added(weigh(a.get()), weigh(b.get())),
        Term::Sub(sort, a, b) => subtracted(*sort, weigh(a.get()), weigh(b.get())),
        Term::Mul(a, b) => multiplied(weigh(a.get()), weigh(b.get())),
        Term::Pow(a, k) => raised(weigh(a.get()), k),
        Term::Div(a, k) => divided(weigh(a.get()), k),
        Term::Rem(a, k) => reduced(weigh(a.get()), k),
        Term::Call1(f, a) => applied(*f, weigh(a.get())),
        Term::Call2(_, a, b) => applied_to_two(weigh(a.get()), weigh(b.get())),
    }
}

fn added(a: Weighed, b: Weighed) -> Weighed
    ensures { result ≡ record { term = sum_capped a.term b.term; atoms = greater a.atoms b.atoms } }
{
    joined(sum(a.term, b.term), a, b)
}

fn subtracted(sort: Sort, a: Weighed, b: Weighed) -> Weighed
    ensures { result ≡ record { term = difference_term_bound sort a.term b.term; atoms = greater (greater a.atoms b.atoms) (difference_bound sort a.term b.term) } }
{
    with_condition(
        difference_term(sort, a.term, b.term),
        greatest(a.atoms, b.atoms),
        difference(sort, a.term, b.term),
    )
}

fn multiplied(a: Weighed, b: Weighed) -> Weighed
    ensures { result ≡ record { term = cap (of_product a.term b.term); atoms = greater a.atoms b.atoms } }
{
    joined(product(a.term, b.term), a, b)
}

fn raised(a: Weighed, k: &i128) -> Weighed
    ensures { result ≡ record { term = cap (of_power a.term (unsigned_abs k.now)); atoms = a.atoms } }
{
    Weighed {
        term: power(a.term, k.unsigned_abs()),
        atoms: a.atoms,
    }
}

fn divided(a: Weighed, k: &i128) -> Weighed
    ensures { result ≡ record { term = of_variable; atoms = greater a.atoms (quotient_bound a.term k.now) } }
{
    with_condition(variable(), a.atoms, quotient(a.term, k))
}

fn reduced(a: Weighed, k: &i128) -> Weighed
    ensures { result ≡ record { term = remainder_bound a.term k.now; atoms = greater a.atoms (quotient_bound a.term k.now) } }
{
    with_condition(remainder(a.term, k), a.atoms, quotient(a.term, k))
}

fn applied(f: Fn1, a: Weighed) -> Weighed
    ensures { result ≡ record { term = called_bound f a.term; atoms = greater a.atoms (call_bound f a.term) } }
{
    with_condition(called(f, a.term), a.atoms, call(f, a.term))
}

fn applied_to_two(a: Weighed, b: Weighed) -> Weighed
    ensures { result ≡ record { term = of_variable; atoms = greater (greater a.atoms b.atoms) (cases_bound a.term b.term a.term b.term) } }
{
    with_condition(
        variable(),
        greatest(a.atoms, b.atoms),
        cases(a.term, b.term, a.term, b.term),
    )
}

fn compared(a: Weighed, b: Weighed) -> Measure
    ensures { result ≡ compared_bound a b }
{
    greatest(greatest(a.atoms, b.atoms), atom(a.term, b.term))
}

fn weigh_bool(t: &BTerm) -> Measure
    ensures { result ≡ bool_bound t.now }
{
    match t {
        BTerm::True | BTerm::False => none(),
        BTerm::Var(_) => atom(variable(), literal(1)),
        BTerm::Test(_, t, u) => compared(weigh(t.get()), weigh(u.get())),
        BTerm::Not(a) => weigh_bool(a.get()),
        BTerm::And(a, b) | BTerm::Or(a, b) | BTerm::Call(_, a, b) => {
            greatest(weigh_bool(a.get()), weigh_bool(b.get()))
        }
    }
}

fn weigh_chain(t: &Term, u: &Term, v: &Term) -> Measure
    ensures { result ≡ greater (compared_bound (weighed t.now) (weighed u.now)) (compared_bound (weighed u.now) (weighed v.now)) }
{
    let middle = weigh(u);
    greatest(compared(weigh(t), middle), compared(middle, weigh(v)))
}

/// The greatest measures of the atoms of a formula's translation and of the conditions of its operations, as far as
/// they are below the limits.
pub fn weigh_formula(f: &Formula) -> Measure
    ensures { result ≡ formula_bound f.now }
{
    match f {
        Formula::True | Formula::False => none(),
        Formula::Atom(_, t, u) => compared(weigh(t.get()), weigh(u.get())),
        Formula::Chain(t, _, u, _, v) => weigh_chain(t.get(), u.get(), v.get()),
        Formula::Same(b, c) | Formula::Differ(b, c) => {
            greatest(weigh_bool(b.get()), weigh_bool(c.get()))
        }
        Formula::Not(f) => weigh_formula(f.get()),
        Formula::And(f, g) | Formula::Or(f, g) | Formula::Imp(f, g) | Formula::Iff(f, g) => {
            greatest(weigh_formula(f.get()), weigh_formula(g.get()))
        }
    }
}
