//! Words at the front of bytes.

ghost use Rattle.std.specs.Prelude.{◌≡◌, ◌-◌, ◌≤◌, length};
ghost use Rattle.std.specs.Option.{option_map};
ghost use Rattle.cert_text.specs.Reading.{Gives, after};

use crate::fail::TextFail;

/// What follows the word, where the bytes begin with it.
pub fn strip<'a>(bytes: &'a [u8], word: &[u8]) -> Option<&'a [u8]>
    ensures { option_map (λ x. x.now) result ≡ after word.now bytes.now }
{
    bytes.strip_prefix(word)
}

/// What follows the word, with which the bytes have to begin.
pub fn skip<'a>(bytes: &'a [u8], word: &[u8]) -> Result<&'a [u8], TextFail>
    ensures { Gives (λ x. x.now) result (after word.now bytes.now) }
{
    strip(bytes, word).ok_or(TextFail::Bad)
}

/// How many bytes stand in front of the rest of them.
pub fn front_length(bytes: &[u8], rest: &[u8]) -> usize
    requires { length rest.now ≤ length bytes.now }
    ensures { result ≡ length bytes.now - length rest.now }
{
    bytes.len() - rest.len()
}
