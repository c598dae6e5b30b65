//! The numbers of signs and functions, one count.

ghost use Rattle.std.specs.Prelude.{◌≡◌};
ghost use Rattle.goal_token.specs.Numbers.{sign_number, one_number, two_number, function_number};

use crate::token::{Function, Sign};
use goal_ast::{BFn, Fn1, Fn2};

impl Sign {
    /// Its number: the signs from 0 in the order of their variants.
    pub fn number(self) -> u8
        ensures { result ≡ sign_number self }
    {
        self as u8
    }
}

fn one_number(f: Fn1) -> u8
    ensures { result ≡ one_number f }
{
    29 + f as u8
}

fn two_number(f: Fn2) -> u8
    ensures { result ≡ two_number f }
{
    45 + f as u8
}

impl Function {
    /// Its number: the functions follow the signs, from 29.
    pub fn number(self) -> u8
        ensures { result ≡ function_number self }
    {
        match self {
            Function::One(f) => one_number(f),
            Function::Two(f) => two_number(f),
            Function::Negb => 53,
            Function::Bool(BFn::Imp) => 54,
            Function::Bool(BFn::Xor) => 55,
            Function::Bool(BFn::Eqb) => 56,
        }
    }
}
