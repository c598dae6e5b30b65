ghost use Rattle.std.specs.Prelude.{◌≡◌};
ghost use Rattle.goal_text.specs.Levels.{infix_levels, prefix_level, can_chain, arity};

use goal_token::{Function, Sign};

/// The level of a sign between two operands, and the highest level of either operand. A lower level binds tighter.
#[derive(Clone, Copy, Debug, PartialEq, Eq)]
pub struct Levels {
    pub level: u8,
    pub left: u8,
    pub right: u8,
}

/// The levels of a sign between operands. A bare `mod` stands above the products, so that it's no left side of one.
pub fn infix_levels(sign: Sign) -> Option<Levels>
    ensures { result ≡ infix_levels sign }
{
    let (left, level, right) = match sign {
        Sign::Arrow => (98, 99, 99),
        Sign::Iff => (94, 95, 94),
        Sign::Or => (84, 85, 85),
        Sign::And => (79, 80, 80),
        Sign::Eq
        | Sign::Ne
        | Sign::Lt
        | Sign::Le
        | Sign::Gt
        | Sign::Ge
        | Sign::EqTest
        | Sign::LtTest
        | Sign::LeTest
        | Sign::GtTest
        | Sign::GeTest => (69, 70, 69),
        Sign::Plus | Sign::Minus | Sign::BoolOr => (50, 50, 49),
        Sign::Times | Sign::Divide | Sign::BoolAnd => (40, 40, 39),
        Sign::Mod => (39, 41, 39),
        Sign::Power => (29, 30, 30),
        Sign::Open | Sign::Close | Sign::Comma | Sign::Colon | Sign::Dot | Sign::Not => {
            return None;
        }
    };
    Some(Levels { level, left, right })
}

/// The level of a sign before its operand, which is also the operand's highest.
pub fn prefix_level(sign: Sign) -> Option<u8>
    ensures { result ≡ prefix_level sign }
{
    match sign {
        Sign::Minus => Some(35),
        Sign::Not => Some(75),
        _ => None,
    }
}

/// Whether two such comparisons may stand between three operands.
pub fn can_chain(sign: Sign) -> bool
    ensures { result ≡ can_chain sign }
{
    sign == Sign::Lt || sign == Sign::Le
}

/// How many arguments a function has.
pub fn arity(function: Function) -> u8
    ensures { result ≡ arity function }
{
    match function {
        Function::One(_) | Function::Negb => 1,
        Function::Two(_) | Function::Bool(_) => 2,
    }
}
