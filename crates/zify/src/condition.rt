ghost use Rattle.std.specs.Prelude.{◌≡◌, IfOk, pos};
ghost use Rattle.mm_num.specs.Small.{IsSmall};
ghost use Rattle.zify.specs.Translation.{number, remainder_term, plain_call, equals, cases, difference_condition, predecessor_condition, sign_condition, call_condition, least_condition, greatest_condition, call_2_condition, quotient_condition};

use crate::form::ZForm;
use crate::term::ZTerm;
use goal_ast::{Cmp, Fn1, Fn2, Sort};
use std::alloc::{AllocError, Global};

// A number, a negative one as the negation of a literal.
pub(crate) fn number(alloc: Global, k: i128) -> Result<ZTerm, AllocError>
    requires { IsSmall k }
    ensures { IfOk result (λ t. t ≡ number k) }
{
    if k >= 0 {
        Ok(ZTerm::Lit(k))
    } else {
        ZTerm::negation(alloc, ZTerm::Lit(-k))
    }
}

// `a - k * z`.
pub(crate) fn remainder(alloc: Global, a: ZTerm, k: &i128, z: ZTerm) -> Result<ZTerm, AllocError>
    requires { IsSmall k.now }
    ensures { IfOk result (λ t. t ≡ remainder_term a k.now z) }
{
    let multiple = ZTerm::product(alloc, number(alloc, *k)?, z)?;
    ZTerm::difference(alloc, a, multiple)
}

// A function that is polynomial in its argument.
pub(crate) fn plain(alloc: Global, f: Fn1, a: ZTerm) -> Result<ZTerm, AllocError>
    ensures { IfOk result (λ t. t ≡ plain_call f a) }
{
    match f {
        Fn1::ZSucc | Fn1::S | Fn1::NSucc | Fn1::PosSucc => ZTerm::sum(alloc, a, ZTerm::Lit(1)),
        Fn1::ZPred => ZTerm::difference(alloc, a, ZTerm::Lit(1)),
        Fn1::ZOpp => ZTerm::negation(alloc, a),
        Fn1::ZAbs | Fn1::ZSgn | Fn1::NatPred | Fn1::NPred | Fn1::PosPred => Ok(a),
        Fn1::OfNat | Fn1::OfN | Fn1::OfPos | Fn1::ToNat | Fn1::ToN => Ok(a),
    }
}

// The two sides of a comparison.
#[derive(Drop)]
struct Sides {
    left: ZTerm,
    right: ZTerm,
}

// A comparison, and what the variable then is.
fn case(alloc: Global, c: Cmp, sides: Sides, z: u32, v: ZTerm) -> Result<ZForm, AllocError>
    ensures { IfOk result (λ f. f ≡ ZForm.And (ZForm.Atom c sides.left sides.right) (equals (ZTerm.Var z) v)) }
{
    let Sides { left, right } = sides;
    let compared = ZForm::atom(alloc, c, left, right)?;
    let equal = ZForm::atom(alloc, Cmp::Eq, ZTerm::Var(z), v)?;
    ZForm::conjunction(alloc, compared, equal)
}

fn copied_sides(alloc: Global, left: &ZTerm, right: &ZTerm) -> Result<Sides, AllocError>
    ensures { IfOk result (λ s. s ≡ record { left = left.now; right = right.now }) }
{
    Ok(Sides {
        left: left.copy(alloc)?,
        right: right.copy(alloc)?,
    })
}

// What the variable is where a comparison holds, and where the other one does.
#[derive(Drop)]
struct Values {
    first: ZTerm,
    second: ZTerm,
}

fn two_cases(
    alloc: Global,
    signs: (Cmp, Cmp),
    a: ZTerm,
    b: ZTerm,
    z: u32,
    values: Values,
) -> Result<ZForm, AllocError>
    ensures { IfOk result (λ f. f ≡ cases signs.0 signs.1 a b (ZTerm.Var z) values.first values.second) }
{
    let Values { first, second } = values;
    let copies = copied_sides(alloc, &a, &b)?;
    let one = case(alloc, signs.0, copies, z, first)?;
    let other = case(alloc, signs.1, Sides { left: a, right: b }, z, second)?;
    ZForm::disjunction(alloc, one, other)
}

// What says that the variable is the difference, on a sort where it stops.
pub(crate) fn difference(
    alloc: Global,
    sort: Sort,
    a: ZTerm,
    b: ZTerm,
    z: u32,
) -> Result<ZForm, AllocError>
    ensures { IfOk result (λ f. f ≡ difference_condition sort a b (ZTerm.Var z)) }
{
    match sort {
        Sort::Int | Sort::Bool => Ok(ZForm::True),
        Sort::Bin | Sort::Nat => stopped(alloc, (Cmp::Ge, Cmp::Lt), a, b, z, 0),
        Sort::Pos => stopped(alloc, (Cmp::Gt, Cmp::Le), a, b, z, 1),
    }
}

fn stopped(
    alloc: Global,
    signs: (Cmp, Cmp),
    a: ZTerm,
    b: ZTerm,
    z: u32,
    least: i128,
) -> Result<ZForm, AllocError>
    ensures { IfOk result (λ f. f ≡ cases signs.0 signs.1 a b (ZTerm.Var z) (ZTerm.Sub a b) (ZTerm.Lit least)) }
{
    let first = ZTerm::difference(alloc, a.copy(alloc)?, b.copy(alloc)?)?;
    let second = ZTerm::Lit(least);
    two_cases(alloc, signs, a, b, z, Values { first, second })
}

// What says that the variable is the number before a, where a is at least `from`, and else `least`.
fn predecessor(
    alloc: Global,
    from: i128,
    least: i128,
    a: ZTerm,
    z: u32,
) -> Result<ZForm, AllocError>
    ensures { IfOk result (λ f. f ≡ cases Cmp.Ge Cmp.Lt a (ZTerm.Lit from) (ZTerm.Var z) (ZTerm.Sub a (ZTerm.Lit (pos 1))) (ZTerm.Lit least)) }
{
    let first = ZTerm::difference(alloc, a.copy(alloc)?, ZTerm::Lit(1))?;
    let second = ZTerm::Lit(least);
    two_cases(
        alloc,
        (Cmp::Ge, Cmp::Lt),
        a,
        ZTerm::Lit(from),
        z,
        Values { first, second },
    )
}

fn sign(alloc: Global, a: ZTerm, z: u32) -> Result<ZForm, AllocError>
    ensures { IfOk result (λ f. f ≡ sign_condition a (ZTerm.Var z)) }
{
    let above = copied_sides(alloc, &a, &ZTerm::Lit(0))?;
    let one = case(alloc, Cmp::Gt, above, z, ZTerm::Lit(1))?;
    let first = ZTerm::Lit(0);
    let second = ZTerm::negation(alloc, ZTerm::Lit(1))?;
    let rest = two_cases(
        alloc,
        (Cmp::Eq, Cmp::Lt),
        a,
        ZTerm::Lit(0),
        z,
        Values { first, second },
    )?;
    ZForm::disjunction(alloc, one, rest)
}

fn magnitude(alloc: Global, a: ZTerm, z: u32) -> Result<ZForm, AllocError>
    ensures { IfOk result (λ f. f ≡ call_condition Fn1.ZAbs a (ZTerm.Var z)) }
{
    let first = a.copy(alloc)?;
    let second = ZTerm::negation(alloc, a.copy(alloc)?)?;
    two_cases(
        alloc,
        (Cmp::Ge, Cmp::Lt),
        a,
        ZTerm::Lit(0),
        z,
        Values { first, second },
    )
}

fn natural(alloc: Global, a: ZTerm, z: u32) -> Result<ZForm, AllocError>
    ensures { IfOk result (λ f. f ≡ call_condition Fn1.ToNat a (ZTerm.Var z)) }
{
    let first = a.copy(alloc)?;
    let second = ZTerm::Lit(0);
    two_cases(
        alloc,
        (Cmp::Ge, Cmp::Lt),
        a,
        ZTerm::Lit(0),
        z,
        Values { first, second },
    )
}

// What says that the variable is the value of a call.
pub(crate) fn call(alloc: Global, f: Fn1, a: ZTerm, z: u32) -> Result<ZForm, AllocError>
    ensures { IfOk result (λ g. g ≡ call_condition f a (ZTerm.Var z)) }
{
    match f {
        Fn1::ZAbs => magnitude(alloc, a, z),
        Fn1::ZSgn => sign(alloc, a, z),
        Fn1::NatPred | Fn1::NPred => predecessor(alloc, 1, 0, a, z),
        Fn1::PosPred => predecessor(alloc, 2, 1, a, z),
        Fn1::ToNat | Fn1::ToN => natural(alloc, a, z),
        Fn1::ZSucc | Fn1::ZPred | Fn1::ZOpp | Fn1::S | Fn1::NSucc => Ok(ZForm::True),
        Fn1::PosSucc | Fn1::OfNat | Fn1::OfN | Fn1::OfPos => Ok(ZForm::True),
    }
}

fn one_of(alloc: Global, signs: (Cmp, Cmp), a: ZTerm, b: ZTerm, z: u32) -> Result<ZForm, AllocError>
    ensures { IfOk result (λ g. g ≡ cases signs.0 signs.1 a b (ZTerm.Var z) a b) }
{
    let first = a.copy(alloc)?;
    let second = b.copy(alloc)?;
    two_cases(alloc, signs, a, b, z, Values { first, second })
}

// What says that the variable is the least or the greatest of two numbers.
pub(crate) fn call_of_two(
    alloc: Global,
    f: Fn2,
    a: ZTerm,
    b: ZTerm,
    z: u32,
) -> Result<ZForm, AllocError>
    ensures { IfOk result (λ g. g ≡ call_2_condition f a b (ZTerm.Var z)) }
{
    match f {
        Fn2::ZMin | Fn2::NatMin | Fn2::NMin | Fn2::PosMin => {
            one_of(alloc, (Cmp::Le, Cmp::Gt), a, b, z)
        }
        Fn2::ZMax | Fn2::NatMax | Fn2::NMax | Fn2::PosMax => {
            one_of(alloc, (Cmp::Ge, Cmp::Lt), a, b, z)
        }
    }
}

fn bounded(alloc: Global, signs: (Cmp, Cmp), a: ZTerm, k: i128, z: u32) -> Result<ZForm, AllocError>
    requires { IsSmall k }
    ensures { IfOk result (λ g. g ≡ ZForm.And (ZForm.Atom signs.0 (remainder_term a k (ZTerm.Var z)) (ZTerm.Lit (pos 0))) (ZForm.Atom signs.1 (remainder_term a k (ZTerm.Var z)) (number k))) }
{
    let rest = remainder(alloc, a, &k, ZTerm::Var(z))?;
    let first = ZForm::atom(alloc, signs.0, rest.copy(alloc)?, ZTerm::Lit(0))?;
    let second = ZForm::atom(alloc, signs.1, rest, number(alloc, k)?)?;
    ZForm::conjunction(alloc, first, second)
}

// What says that the variable is the quotient of a by k.
pub(crate) fn quotient(alloc: Global, a: ZTerm, k: i128, z: u32) -> Result<ZForm, AllocError>
    requires { IsSmall k }
    ensures { IfOk result (λ g. g ≡ quotient_condition a k (ZTerm.Var z)) }
{
    if k >= 0 {
        bounded(alloc, (Cmp::Ge, Cmp::Lt), a, k, z)
    } else {
        bounded(alloc, (Cmp::Le, Cmp::Gt), a, k, z)
    }
}
