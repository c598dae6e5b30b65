//! Signs, by their bytes.

ghost use Rattle.std.specs.Prelude.{◌≡◌, [], ◌∷◌};
ghost use Rattle.goal_token.specs.Words.{lookup, signs_of_3, signs_of_2, signs_of_1};

use crate::token::Sign;

// The sign of these three bytes.
#[tactic(auto, unfolding(crate::specs::Words::signs_of_3))]
pub(crate) fn of_three(a: u8, b: u8, c: u8) -> Option<Sign>
    ensures { result ≡ lookup (a ∷ b ∷ c ∷ []) signs_of_3 }
{
    match (a, b, c) {
        (b'<', b'-', b'>') => Some(Sign::Iff),
        (b'<', b'=', b'?') => Some(Sign::LeTest),
        (b'>', b'=', b'?') => Some(Sign::GeTest),
        _ => None,
    }
}

// The sign of these two bytes.
#[tactic(auto, unfolding(crate::specs::Words::signs_of_2))]
pub(crate) fn of_two(a: u8, b: u8) -> Option<Sign>
    ensures { result ≡ lookup (a ∷ b ∷ []) signs_of_2 }
{
    Some(match (a, b) {
        (b'-', b'>') => Sign::Arrow,
        (b'/', b'\\') => Sign::And,
        (b'\\', b'/') => Sign::Or,
        (b'<', b'>') => Sign::Ne,
        (b'<', b'=') => Sign::Le,
        (b'>', b'=') => Sign::Ge,
        (b'=', b'?') => Sign::EqTest,
        (b'<', b'?') => Sign::LtTest,
        (b'>', b'?') => Sign::GtTest,
        (b'&', b'&') => Sign::BoolAnd,
        (b'|', b'|') => Sign::BoolOr,
        _ => return None,
    })
}

// The sign of this byte.
#[tactic(auto, unfolding(crate::specs::Words::signs_of_1))]
pub(crate) fn of_one(a: u8) -> Option<Sign>
    ensures { result ≡ lookup (a ∷ []) signs_of_1 }
{
    Some(match a {
        b'(' => Sign::Open,
        b')' => Sign::Close,
        b',' => Sign::Comma,
        b':' => Sign::Colon,
        b'.' => Sign::Dot,
        b'=' => Sign::Eq,
        b'<' => Sign::Lt,
        b'>' => Sign::Gt,
        b'+' => Sign::Plus,
        b'-' => Sign::Minus,
        b'*' => Sign::Times,
        b'/' => Sign::Divide,
        b'^' => Sign::Power,
        b'~' => Sign::Not,
        _ => return None,
    })
}
