//! Words at the front of bytes.

ghost use Rattle.std.specs.Prelude.{◌≡◌};
ghost use Rattle.std.specs.Option.{option_map};
ghost use Rattle.cert_text.specs.Reading.{after};

/// What follows the word, where the bytes begin with it.
pub fn strip<'a>(bytes: &'a [u8], word: &[u8]) -> Option<&'a [u8]>
    ensures { option_map (λ x. x.now) result ≡ after word.now bytes.now }
{
    bytes.strip_prefix(word)
}
