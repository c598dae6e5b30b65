//! Words that aren't names, told apart by their length first.

ghost use Rattle.std.specs.Prelude.{◌≡◌, nat_eq};
ghost use Rattle.std.specs.Cmp.Lexicographic.{pointwise};
ghost use Rattle.goal_token.specs.Words.{lookup, of_length, words};

use crate::token::{Constant, Function, Keyword, Sign, Token};
use goal_ast::{BFn, Fn1, Fn2, Sort};

fn is(text: &[u8], word: &[u8]) -> bool
    ensures { result ≡ pointwise nat_eq text.now word.now }
{
    text == word
}

fn one(f: Fn1) -> Token
    ensures { result ≡ Token.Function (Function.One f) }
{
    Token::Function(Function::One(f))
}

fn two(f: Fn2) -> Token
    ensures { result ≡ Token.Function (Function.Two f) }
{
    Token::Function(Function::Two(f))
}

#[tactic(auto, unfolding(crate::specs::Words::words))]
fn of_one(text: &[u8]) -> Option<Token>
    ensures { result ≡ lookup text.now (of_length 1 words) }
{
    match text {
        b"Z" => Some(Token::Sort(Sort::Int)),
        b"N" => Some(Token::Sort(Sort::Bin)),
        b"S" => Some(one(Fn1::S)),
        _ => None,
    }
}

#[tactic(auto, unfolding(crate::specs::Words::words))]
fn of_three(text: &[u8]) -> Option<Token>
    ensures { result ≡ lookup text.now (of_length 3 words) }
{
    match text {
        b"Qed" => Some(Token::Keyword(Keyword::Qed)),
        b"lia" => Some(Token::Keyword(Keyword::Lia)),
        b"nia" => Some(Token::Keyword(Keyword::Nia)),
        b"nat" => Some(Token::Sort(Sort::Nat)),
        b"mod" => Some(Token::Sign(Sign::Mod)),
        _ => None,
    }
}

#[tactic(auto, unfolding(crate::specs::Words::words))]
fn of_four(text: &[u8]) -> Option<Token>
    ensures { result ≡ lookup text.now (of_length 4 words) }
{
    match text {
        b"Goal" => Some(Token::Keyword(Keyword::Goal)),
        b"True" => Some(Token::Constant(Constant::True)),
        b"true" => Some(Token::Constant(Constant::BoolTrue)),
        b"bool" => Some(Token::Sort(Sort::Bool)),
        b"negb" => Some(Token::Function(Function::Negb)),
        b"xorb" => Some(Token::Function(Function::Bool(BFn::Xor))),
        _ => None,
    }
}

#[tactic(auto, unfolding(crate::specs::Words::words))]
fn of_five(text: &[u8]) -> Option<Token>
    ensures { result ≡ lookup text.now (of_length 5 words) }
{
    if is(text, b"Proof") {
        Some(Token::Keyword(Keyword::Proof))
    } else if is(text, b"False") {
        Some(Token::Constant(Constant::False))
    } else if is(text, b"false") {
        Some(Token::Constant(Constant::BoolFalse))
    } else if is(text, b"Z.opp") {
        Some(one(Fn1::ZOpp))
    } else if is(text, b"Z.abs") {
        Some(one(Fn1::ZAbs))
    } else if is(text, b"Z.sgn") {
        Some(one(Fn1::ZSgn))
    } else if is(text, b"Z.pos") {
        Some(one(Fn1::OfPos))
    } else if is(text, b"Z.min") {
        Some(two(Fn2::ZMin))
    } else if is(text, b"Z.max") {
        Some(two(Fn2::ZMax))
    } else if is(text, b"N.min") {
        Some(two(Fn2::NMin))
    } else if is(text, b"N.max") {
        Some(two(Fn2::NMax))
    } else if is(text, b"implb") {
        Some(Token::Function(Function::Bool(BFn::Imp)))
    } else {
        None
    }
}

#[tactic(auto, unfolding(crate::specs::Words::words))]
fn of_six(text: &[u8]) -> Option<Token>
    ensures { result ≡ lookup text.now (of_length 6 words) }
{
    if is(text, b"forall") {
        Some(Token::Keyword(Keyword::Forall))
    } else if is(text, b"Z.succ") {
        Some(one(Fn1::ZSucc))
    } else if is(text, b"Z.pred") {
        Some(one(Fn1::ZPred))
    } else if is(text, b"N.succ") {
        Some(one(Fn1::NSucc))
    } else if is(text, b"N.pred") {
        Some(one(Fn1::NPred))
    } else if is(text, b"Z.of_N") {
        Some(one(Fn1::OfN))
    } else if is(text, b"Z.to_N") {
        Some(one(Fn1::ToN))
    } else {
        None
    }
}

#[tactic(auto, unfolding(crate::specs::Words::words))]
fn of_seven(text: &[u8]) -> Option<Token>
    ensures { result ≡ lookup text.now (of_length 7 words) }
{
    if is(text, b"Session") {
        Some(Token::Keyword(Keyword::Session))
    } else if is(text, b"Nat.min") {
        Some(two(Fn2::NatMin))
    } else if is(text, b"Nat.max") {
        Some(two(Fn2::NatMax))
    } else if is(text, b"Pos.min") {
        Some(two(Fn2::PosMin))
    } else if is(text, b"Pos.max") {
        Some(two(Fn2::PosMax))
    } else {
        None
    }
}

#[tactic(auto, unfolding(crate::specs::Words::words))]
fn of_eight(text: &[u8]) -> Option<Token>
    ensures { result ≡ lookup text.now (of_length 8 words) }
{
    if is(text, b"positive") {
        Some(Token::Sort(Sort::Pos))
    } else if is(text, b"Nat.pred") {
        Some(one(Fn1::NatPred))
    } else if is(text, b"Pos.succ") {
        Some(one(Fn1::PosSucc))
    } else if is(text, b"Pos.pred") {
        Some(one(Fn1::PosPred))
    } else if is(text, b"Z.of_nat") {
        Some(one(Fn1::OfNat))
    } else if is(text, b"Z.to_nat") {
        Some(one(Fn1::ToNat))
    } else if is(text, b"Bool.eqb") {
        Some(Token::Function(Function::Bool(BFn::Eqb)))
    } else {
        None
    }
}

// The word of this text, if it is one.
#[tactic(auto, using(crate::proofs::WordLaws::by_length, crate::proofs::WordLaws::no_word))]
pub(crate) fn reserved(text: &[u8]) -> Option<Token>
    ensures { result ≡ lookup text.now words }
{
    match text.len() {
        1 => of_one(text),
        3 => of_three(text),
        4 => of_four(text),
        5 => of_five(text),
        6 => of_six(text),
        7 => of_seven(text),
        8 => of_eight(text),
        _ => None,
    }
}
