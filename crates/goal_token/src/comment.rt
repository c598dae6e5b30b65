//! What stands between tokens.

ghost use Rattle.std.specs.Prelude.{◌≡◌, ◌≤◌, length, drop, [], ◌∷◌, option_map, Some, IfSome, IfNone};
ghost use Rattle.goal_token.specs.declared.token.Token.TheVariants.{Wrong};
ghost use Rattle.goal_token.specs.Tokens.{is_opening, is_closing, after_comment, begins_comment, is_blank, placed, tokens_at, BeginsToken};

use crate::class::is_blank;

// An opening `(*`.
fn is_opening(c: u8, d: u8) -> bool
    ensures { result ≡ is_opening c d }
{
    c == b'(' && d == b'*'
}

// A closing `*)`.
fn is_closing(c: u8, d: u8) -> bool
    ensures { result ≡ is_closing c d }
{
    c == b'*' && d == b')'
}

// Whether a comment begins at the front.
fn begins_comment(bytes: &[u8]) -> bool
    ensures { result ≡ begins_comment bytes.now }
{
    match bytes {
        [c, d, ..] => is_opening(*c, *d),
        _ => false,
    }
}

// The place after the comment whose opening ends at this place, where it is closed.
fn after_comment(bytes: &[u8], start: usize) -> Option<usize>
    requires { start ≤ length bytes.now }
    ensures rest { option_map (λ end. drop end bytes.now) result ≡ after_comment 1 (drop start bytes.now) }
    ensures after { IfSome result (λ end. start ≤ end) }
    ensures within { IfSome result (λ end. end ≤ length bytes.now) }
{
    let mut depth: usize = 1;
    let mut place = start;
    while depth > 0 {
        if bytes.len() - place < 2 {
            return None;
        }
        let (c, d) = (bytes[place], bytes[place + 1]);
        if is_opening(c, d) {
            depth += 1;
            place += 2;
        } else if is_closing(c, d) {
            depth -= 1;
            place += 2;
        } else {
            place += 1;
        }
    }
    Some(place)
}

/// The place of the next token or the end of the input, where each comment before it is closed.
pub(crate) fn skip_blanks(bytes: &[u8], start: usize) -> Option<usize>
    requires { start ≤ length bytes.now }
    ensures same { IfSome result (λ next. tokens_at start (drop start bytes.now) ≡ tokens_at next (drop next bytes.now)) }
    ensures begins { IfSome result (λ next. BeginsToken (drop next bytes.now)) }
    ensures within { IfSome result (λ next. next ≤ length bytes.now) }
    ensures unclosed { IfNone result (tokens_at start (drop start bytes.now) ≡ placed Wrong (length bytes.now) ∷ []) }
{
    let mut place = start;
    while place < bytes.len() {
        let (_, rest) = bytes.split_at(place);
        if is_blank(bytes[place]) {
            place += 1;
        } else if begins_comment(rest) {
            place = after_comment(bytes, place + 2)?;
        } else {
            return Some(place);
        }
    }
    Some(place)
}
