ghost use Rattle.std.specs.Prelude.{◌≡◌, true, not, neg_ℤ, ◌+ℤ◌, ◌-ℤ◌, ◌*ℤ◌, ◌&&◌, ◌||◌, unsigned_abs};
ghost use Rattle.goal_ast.specs.Range.{point_of};
ghost use Rattle.goal_ast.specs.Truth.{quotient, remainder, stopped, call_1, call_2, compare, test, same, call_bool};
ghost use Rattle.mm_num.specs.Power.{power};
ghost use Rattle.goal_ast.specs.Divisors.{divisor_fits, divisors_fit, bool_divisors_fit, formula_divisors_fit};
ghost use Rattle.goal_ast.specs.Evaluation.{SmallIfAny, of_one, of_two, checked_one, checked_two, chain_of, evaluated, bool_evaluated, truth_evaluated};

use crate::arithmetic::{
    call_one, call_two, difference, power_of, product, quotient_by, remainder_by, small,
};
use crate::formula::{BCmp, BFn, BTerm, Cmp, Formula};
use crate::term::{Fn1, Fn2, Sort, Term};

// The value of a variable, or 0 where there is none.
#[tactic(auto, using(std::proofs::lemmas::List::get_or_past))]
fn value_at(v: u32, values: &[i128]) -> i128
    ensures { result ≡ point_of values.now v }
{
    if (v as usize) < values.len() {
        values[v as usize]
    } else {
        0
    }
}

fn negated(a: Option<i128>) -> Option<i128>
    requires a { SmallIfAny a }
    ensures value { result ≡ checked_one neg_ℤ a }
    ensures small { SmallIfAny result }
{
    small(-a?)
}

fn added(a: Option<i128>, b: Option<i128>) -> Option<i128>
    requires a { SmallIfAny a }
    requires b { SmallIfAny b }
    ensures value { result ≡ checked_two (λ v w. v +ℤ w) a b }
    ensures small { SmallIfAny result }
{
    small(a? + b?)
}

fn subtracted(sort: Sort, a: Option<i128>, b: Option<i128>) -> Option<i128>
    requires a { SmallIfAny a }
    requires b { SmallIfAny b }
    ensures value { result ≡ checked_two (λ v w. stopped sort (v -ℤ w)) a b }
    ensures small { SmallIfAny result }
{
    small(difference(sort, a?, b?))
}

fn multiplied(a: Option<i128>, b: Option<i128>) -> Option<i128>
    requires a { SmallIfAny a }
    requires b { SmallIfAny b }
    ensures value { result ≡ checked_two (λ v w. v *ℤ w) a b }
    ensures small { SmallIfAny result }
{
    product(a?, b?)
}

fn raised(a: Option<i128>, k: &i128) -> Option<i128>
    requires a { SmallIfAny a }
    ensures value { result ≡ checked_one (λ v. power v (unsigned_abs k.now)) a }
    ensures small { SmallIfAny result }
{
    power_of(a?, k.unsigned_abs())
}

#[tactic(auto, using(crate::proofs::DivisionLaws::divisor_small, crate::proofs::DivisionLaws::divisor_other))]
fn divided(a: Option<i128>, k: &i128) -> Option<i128>
    requires a { SmallIfAny a }
    requires k { divisor_fits k.now ≡ true }
    ensures value { result ≡ checked_one (λ v. quotient v k.now) a }
    ensures small { SmallIfAny result }
{
    small(quotient_by(a?, k))
}

#[tactic(auto, using(crate::proofs::DivisionLaws::divisor_small, crate::proofs::DivisionLaws::divisor_other))]
fn left_over(a: Option<i128>, k: &i128) -> Option<i128>
    requires a { SmallIfAny a }
    requires k { divisor_fits k.now ≡ true }
    ensures value { result ≡ checked_one (λ v. remainder v k.now) a }
    ensures small { SmallIfAny result }
{
    small(remainder_by(a?, k))
}

fn called_one(f: Fn1, a: Option<i128>) -> Option<i128>
    requires a { SmallIfAny a }
    ensures value { result ≡ checked_one (call_1 f) a }
    ensures small { SmallIfAny result }
{
    small(call_one(f, a?))
}

fn called_two(f: Fn2, a: Option<i128>, b: Option<i128>) -> Option<i128>
    ensures value { result ≡ checked_two (call_2 f) a b }
    ensures small { SmallIfAny result }
{
    small(call_two(f, a?, b?))
}

// The value of a term, where that of each subterm is small.
pub(crate) fn value(t: &Term, values: &[i128]) -> Option<i128>
    requires { divisors_fit t.now ≡ true }
    ensures value { result ≡ evaluated (point_of values.now) t.now }
    ensures small { SmallIfAny result }
{
    match t {
        Term::Lit(n) => small(*n),
        Term::Var(v) => small(value_at(*v, values)),
        Term::Neg(a) => negated(value(a.get(), values)),
        Term::Add(a, b) => added(value(a.get(), values), value(b.get(), values)),
        Term::Sub(sort, a, b) => subtracted(*sort, value(a.get(), values), value(b.get(), values)),
        Term::Mul(a, b) => multiplied(value(a.get(), values), value(b.get(), values)),
        Term::Pow(a, k) => raised(value(a.get(), values), k),
        Term::Div(a, k) => divided(value(a.get(), values), k),
        Term::Rem(a, k) => left_over(value(a.get(), values), k),
        Term::Call1(f, a) => called_one(*f, value(a.get(), values)),
        Term::Call2(f, a, b) => called_two(*f, value(a.get(), values), value(b.get(), values)),
    }
}

fn compares(c: Cmp, a: i128, b: i128) -> bool
    ensures { result ≡ compare c a b }
{
    match c {
        Cmp::Eq => a == b,
        Cmp::Ne => a != b,
        Cmp::Lt => a < b,
        Cmp::Le => a <= b,
        Cmp::Gt => a > b,
        Cmp::Ge => a >= b,
    }
}

fn tests(c: BCmp, a: i128, b: i128) -> bool
    ensures { result ≡ test c a b }
{
    match c {
        BCmp::Eq => a == b,
        BCmp::Lt => a < b,
        BCmp::Le => a <= b,
        BCmp::Gt => a > b,
        BCmp::Ge => a >= b,
    }
}

fn of_bools(f: BFn, a: bool, b: bool) -> bool
    ensures { result ≡ call_bool f a b }
{
    match f {
        BFn::Imp => !a | b,
        BFn::Xor => a != b,
        BFn::Eqb => a == b,
    }
}

fn tested(c: BCmp, a: Option<i128>, b: Option<i128>) -> Option<bool>
    ensures { result ≡ of_two (test c) a b }
{
    Some(tests(c, a?, b?))
}

fn opposite(a: Option<bool>) -> Option<bool>
    ensures { result ≡ of_one not a }
{
    Some(!a?)
}

fn both(a: Option<bool>, b: Option<bool>) -> Option<bool>
    ensures { result ≡ of_two (λ p q. p && q) a b }
{
    Some(a? & b?)
}

fn either(a: Option<bool>, b: Option<bool>) -> Option<bool>
    ensures { result ≡ of_two (λ p q. p || q) a b }
{
    Some(a? | b?)
}

fn implied(a: Option<bool>, b: Option<bool>) -> Option<bool>
    ensures { result ≡ of_two (λ p q. not p || q) a b }
{
    Some(!a? | b?)
}

fn equal(a: Option<bool>, b: Option<bool>) -> Option<bool>
    ensures { result ≡ of_two same a b }
{
    Some(a? == b?)
}

fn different(a: Option<bool>, b: Option<bool>) -> Option<bool>
    ensures { result ≡ of_two (λ p q. not (same p q)) a b }
{
    Some(a? != b?)
}

fn called(f: BFn, a: Option<bool>, b: Option<bool>) -> Option<bool>
    ensures { result ≡ of_two (call_bool f) a b }
{
    Some(of_bools(f, a?, b?))
}

// The value of a bool term, where that of each subterm is small.
pub(crate) fn bool_value(t: &BTerm, values: &[i128]) -> Option<bool>
    requires { bool_divisors_fit t.now ≡ true }
    ensures { result ≡ bool_evaluated (point_of values.now) t.now }
{
    match t {
        BTerm::True => Some(true),
        BTerm::False => Some(false),
        BTerm::Var(v) => Some(value_at(*v, values) >= 1),
        BTerm::Test(c, t, u) => tested(*c, value(t.get(), values), value(u.get(), values)),
        BTerm::Not(a) => opposite(bool_value(a.get(), values)),
        BTerm::And(a, b) => both(bool_value(a.get(), values), bool_value(b.get(), values)),
        BTerm::Or(a, b) => either(bool_value(a.get(), values), bool_value(b.get(), values)),
        BTerm::Call(f, a, b) => called(
            *f,
            bool_value(a.get(), values),
            bool_value(b.get(), values),
        ),
    }
}

fn compared(c: Cmp, a: Option<i128>, b: Option<i128>) -> Option<bool>
    ensures { result ≡ of_two (compare c) a b }
{
    Some(compares(c, a?, b?))
}

fn chain_holds(c: Cmp, d: Cmp, a: i128, b: i128, e: i128) -> bool
    ensures { result ≡ (compare c a b && compare d b e) }
{
    compares(c, a, b) && compares(d, b, e)
}

fn chained(c: Cmp, d: Cmp, a: Option<i128>, b: Option<i128>, e: Option<i128>) -> Option<bool>
    ensures { result ≡ chain_of c d a b e }
{
    Some(chain_holds(c, d, a?, b?, e?))
}

fn chain(c: Cmp, d: Cmp, t: &Term, u: &Term, v: &Term, values: &[i128]) -> Option<bool>
    requires t { divisors_fit t.now ≡ true }
    requires u { divisors_fit u.now ≡ true }
    requires v { divisors_fit v.now ≡ true }
    ensures { result ≡ chain_of c d (evaluated (point_of values.now) t.now) (evaluated (point_of values.now) u.now) (evaluated (point_of values.now) v.now) }
{
    chained(c, d, value(t, values), value(u, values), value(v, values))
}

// Whether a formula holds, where the value of each subterm is small.
pub(crate) fn truth(f: &Formula, values: &[i128]) -> Option<bool>
    requires { formula_divisors_fit f.now ≡ true }
    ensures { result ≡ truth_evaluated (point_of values.now) f.now }
{
    match f {
        Formula::True => Some(true),
        Formula::False => Some(false),
        Formula::Atom(c, t, u) => compared(*c, value(t.get(), values), value(u.get(), values)),
        Formula::Chain(t, c, u, d, v) => chain(*c, *d, t.get(), u.get(), v.get(), values),
        Formula::Same(b, c) => equal(bool_value(b.get(), values), bool_value(c.get(), values)),
        Formula::Differ(b, c) => different(
            bool_value(b.get(), values),
            bool_value(c.get(), values),
        ),
        Formula::Not(f) => opposite(truth(f.get(), values)),
        Formula::And(f, g) => both(truth(f.get(), values), truth(g.get(), values)),
        Formula::Or(f, g) => either(truth(f.get(), values), truth(g.get(), values)),
        Formula::Imp(f, g) => implied(truth(f.get(), values), truth(g.get(), values)),
        Formula::Iff(f, g) => equal(truth(f.get(), values), truth(g.get(), values)),
    }
}
