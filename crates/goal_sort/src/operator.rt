//! The operators and functions, by the numbers of their tokens.

ghost use Rattle.std.specs.Prelude.{◌≡◌};
ghost use Rattle.goal_sort.specs.Operators.{entry, prefixes, functions_of_one, unary_of, by_literals, by_literal_of, infixes, functions_of_two, binary_of, chained, chain_of};

use crate::raw::Head;
use goal_ast::{BCmp, BFn, Cmp, Fn1, Fn2};

/// What has one operand.
#[derive(Clone, Copy, Debug)]
pub enum Unary {
    /// `-`
    Minus,
    /// `~`
    Not,
    /// A function of a number.
    Call(Fn1),
    /// `negb`
    Negb,
}

/// What joins two numbers to a number.
#[derive(Clone, Copy, Debug)]
pub enum Arithmetic {
    /// `+`
    Sum,
    /// `-`
    Difference,
    /// `*`
    Product,
}

/// What has a literal for its right side.
#[derive(Clone, Copy, Debug, PartialEq, Eq)]
pub enum ByLiteral {
    /// `^`
    Power,
    /// `/`
    Quotient,
    /// `mod`
    Remainder,
}

/// What joins two bools to a bool.
#[derive(Clone, Copy, Debug)]
pub enum BoolOperator {
    /// `&&`
    And,
    /// `||`
    Or,
    /// A function.
    Call(BFn),
}

/// What joins two formulas to a formula.
#[derive(Clone, Copy, Debug)]
pub enum Connective {
    /// `/\`
    And,
    /// `\/`
    Or,
    /// `->`
    Imp,
    /// `<->`
    Iff,
}

/// What has two operands.
#[derive(Clone, Copy, Debug)]
pub enum Binary {
    Arithmetic(Arithmetic),
    /// `=`
    Equal,
    /// `<>`
    Differ,
    /// One of `<`, `<=`, `>`, `>=`.
    Compare(Cmp),
    /// A comparison that is a bool.
    Test(BCmp),
    Bool(BoolOperator),
    Connect(Connective),
    /// A function of two numbers.
    Call(Fn2),
}

fn prefix_of(number: u8) -> Option<Unary>
    ensures { result ≡ entry number prefixes }
{
    match number {
        23 => Some(Unary::Minus),
        27 => Some(Unary::Not),
        _ => None,
    }
}

fn function_of_one(number: u8) -> Option<Unary>
    ensures { result ≡ entry number functions_of_one }
{
    match number {
        29 => Some(Unary::Call(Fn1::ZSucc)),
        30 => Some(Unary::Call(Fn1::ZPred)),
        31 => Some(Unary::Call(Fn1::ZOpp)),
        32 => Some(Unary::Call(Fn1::ZAbs)),
        33 => Some(Unary::Call(Fn1::ZSgn)),
        34 => Some(Unary::Call(Fn1::S)),
        35 => Some(Unary::Call(Fn1::NatPred)),
        36 => Some(Unary::Call(Fn1::NSucc)),
        37 => Some(Unary::Call(Fn1::NPred)),
        38 => Some(Unary::Call(Fn1::PosSucc)),
        39 => Some(Unary::Call(Fn1::PosPred)),
        40 => Some(Unary::Call(Fn1::OfNat)),
        41 => Some(Unary::Call(Fn1::OfN)),
        42 => Some(Unary::Call(Fn1::OfPos)),
        43 => Some(Unary::Call(Fn1::ToNat)),
        44 => Some(Unary::Call(Fn1::ToN)),
        53 => Some(Unary::Negb),
        _ => None,
    }
}

/// What has one operand.
#[tactic(auto, unfolding(crate::specs::Operators::unary_of))]
pub fn unary_of(head: &Head) -> Option<Unary>
    ensures { result ≡ unary_of head.now }
{
    match head {
        Head::Prefix(number) => prefix_of(*number),
        Head::Apply(number) => function_of_one(*number),
        _ => None,
    }
}

fn literal_sign(number: u8) -> Option<ByLiteral>
    ensures { result ≡ entry number by_literals }
{
    match number {
        26 => Some(ByLiteral::Power),
        25 => Some(ByLiteral::Quotient),
        28 => Some(ByLiteral::Remainder),
        _ => None,
    }
}

/// What has a literal for its right side.
#[tactic(auto, unfolding(crate::specs::Operators::by_literal_of))]
pub fn by_literal_of(head: &Head) -> Option<ByLiteral>
    ensures { result ≡ by_literal_of head.now }
{
    match head {
        Head::Infix(number) => literal_sign(*number),
        _ => None,
    }
}

fn infix_of(number: u8) -> Option<Binary>
    ensures { result ≡ entry number infixes }
{
    match number {
        22 => Some(Binary::Arithmetic(Arithmetic::Sum)),
        23 => Some(Binary::Arithmetic(Arithmetic::Difference)),
        24 => Some(Binary::Arithmetic(Arithmetic::Product)),
        19 => Some(Binary::Equal),
        6 => Some(Binary::Differ),
        20 => Some(Binary::Compare(Cmp::Lt)),
        7 => Some(Binary::Compare(Cmp::Le)),
        21 => Some(Binary::Compare(Cmp::Gt)),
        8 => Some(Binary::Compare(Cmp::Ge)),
        9 => Some(Binary::Test(BCmp::Eq)),
        10 => Some(Binary::Test(BCmp::Lt)),
        1 => Some(Binary::Test(BCmp::Le)),
        11 => Some(Binary::Test(BCmp::Gt)),
        2 => Some(Binary::Test(BCmp::Ge)),
        12 => Some(Binary::Bool(BoolOperator::And)),
        13 => Some(Binary::Bool(BoolOperator::Or)),
        4 => Some(Binary::Connect(Connective::And)),
        5 => Some(Binary::Connect(Connective::Or)),
        3 => Some(Binary::Connect(Connective::Imp)),
        0 => Some(Binary::Connect(Connective::Iff)),
        _ => None,
    }
}

fn function_of_two(number: u8) -> Option<Binary>
    ensures { result ≡ entry number functions_of_two }
{
    match number {
        45 => Some(Binary::Call(Fn2::ZMin)),
        46 => Some(Binary::Call(Fn2::ZMax)),
        47 => Some(Binary::Call(Fn2::NatMin)),
        48 => Some(Binary::Call(Fn2::NatMax)),
        49 => Some(Binary::Call(Fn2::NMin)),
        50 => Some(Binary::Call(Fn2::NMax)),
        51 => Some(Binary::Call(Fn2::PosMin)),
        52 => Some(Binary::Call(Fn2::PosMax)),
        54 => Some(Binary::Bool(BoolOperator::Call(BFn::Imp))),
        55 => Some(Binary::Bool(BoolOperator::Call(BFn::Xor))),
        56 => Some(Binary::Bool(BoolOperator::Call(BFn::Eqb))),
        _ => None,
    }
}

/// What has two operands.
#[tactic(auto, unfolding(crate::specs::Operators::binary_of))]
pub fn binary_of(head: &Head) -> Option<Binary>
    ensures { result ≡ binary_of head.now }
{
    match head {
        Head::Infix(number) => infix_of(*number),
        Head::Apply(number) => function_of_two(*number),
        _ => None,
    }
}

fn chain_sign(number: u8) -> Option<Cmp>
    ensures { result ≡ entry number chained }
{
    match number {
        20 => Some(Cmp::Lt),
        7 => Some(Cmp::Le),
        _ => None,
    }
}

/// The two signs of what has three operands.
#[tactic(auto, unfolding(crate::specs::Operators::chain_of))]
pub fn chain_of(head: &Head) -> Option<(Cmp, Cmp)>
    ensures { result ≡ chain_of head.now }
{
    match head {
        Head::Chain(first, second) => Some((chain_sign(*first)?, chain_sign(*second)?)),
        _ => None,
    }
}
