//! Parts of lines: the bytes up to a line feed, and what follows a line's number.

ghost use Rattle.std.specs.Prelude.{◌≡◌, ◌<◌, ◌==◌, length, IfSome};
ghost use Rattle.std.specs.List.{position};
ghost use Rattle.std.specs.Option.{option_map};
ghost use Rattle.report_text.specs.machine.Parts.{SplitsLine, numbered_after, mode_at};

use crate::number::number_after;
use crate::word::strip;
use goal_ast::Mode;

// The place of the first line feed.
fn line_feed(bytes: &[u8]) -> Option<usize>
    ensures place { result ≡ position (λ c. c == 10) bytes.now }
    ensures within { IfSome result (λ n. n < length bytes.now) }
{
    bytes.iter().position(|b| *b == b'\n')
}

/// The bytes before the first line feed and those after it.
pub fn split_line(bytes: &[u8]) -> Option<(&[u8], &[u8])>
    ensures { SplitsLine bytes.now (option_map (λ x. (x.0.now, x.1.now)) result) }
{
    let end = line_feed(bytes)?;
    let (line, rest) = bytes.split_at(end);
    Some((line, &rest[1..]))
}

/// What follows the number of a line, after the word and before a blank, where it is this one.
pub fn numbered_after<'a>(bytes: &'a [u8], word: &[u8], number: u64) -> Option<&'a [u8]>
    ensures { option_map (λ x. x.now) result ≡ numbered_after word.now number bytes.now }
{
    let (read, rest) = number_after(bytes, word)?;
    let rest = strip(rest, b" ")?;
    if read == number { Some(rest) } else { None }
}

/// The mode at the front of the bytes, and what follows it.
pub fn mode(bytes: &[u8]) -> Option<(Mode, &[u8])>
    ensures { option_map (λ x. (x.0, x.1.now)) result ≡ mode_at bytes.now }
{
    if let Some(rest) = strip(bytes, b"lia") {
        return Some((Mode::Lia, rest));
    }
    let rest = strip(bytes, b"nia")?;
    Some((Mode::Nia, rest))
}
