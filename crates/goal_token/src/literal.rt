//! Numbers.

ghost use Rattle.std.specs.Prelude.{◌≡◌, ◌+◌, ◌*◌, ◌^◌, ◌<◌, ◌≤◌, length, min};
ghost use Rattle.goal_token.specs.Tokens.{literal, literal_at};

use crate::class::is_digit;
use crate::token::Token;

// The least number that is no literal.
const LIMIT: u128 = 1 << 126;

// The number with one more digit, up to the limit.
fn with_digit(value: u128, digit: u8) -> u128
    requires value { value ≤ 2 ^ 126 }
    requires digit { digit < 10 }
    ensures { result ≡ min (10 * value + digit) (2 ^ 126) }
{
    if value > LIMIT / 10 {
        return LIMIT;
    }
    (10 * value + u128::from(digit)).min(LIMIT)
}

fn literal(value: u128) -> Token
    ensures { result ≡ literal value }
{
    if value < LIMIT {
        Token::Literal(value as i128)
    } else {
        Token::Wrong
    }
}

// The number whose digits are at the front, and how many they are.
#[tactic(auto, unfolding(crate::specs::Tokens::literal_at))]
pub(crate) fn literal_at(bytes: &[u8]) -> (Token, usize)
    ensures value { result ≡ literal_at bytes.now }
    ensures within { result.1 ≤ length bytes.now }
{
    let mut value = 0;
    for (place, byte) in bytes.iter().enumerate() {
        if !is_digit(*byte) {
            return (literal(value), place);
        }
        value = with_digit(value, *byte - b'0');
    }
    (literal(value), bytes.len())
}
