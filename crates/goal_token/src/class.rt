//! Which bytes are blanks and digits, and which are in names.

ghost use Rattle.std.specs.Prelude.{◌≡◌};
ghost use Rattle.goal_token.specs.Tokens.{is_blank, is_digit, begins_name, is_name_byte};

// A space, a tab, CR or LF.
pub(crate) fn is_blank(c: u8) -> bool
    ensures { result ≡ is_blank c }
{
    matches!(c, b' ' | b'\t' | b'\r' | b'\n')
}

pub(crate) fn is_digit(c: u8) -> bool
    ensures { result ≡ is_digit c }
{
    c.is_ascii_digit()
}

// An ASCII letter or `_`.
pub(crate) fn begins_name(c: u8) -> bool
    ensures { result ≡ begins_name c }
{
    c.is_ascii_alphabetic() || c == b'_'
}

// An ASCII letter, a digit, `_` or `'`.
pub(crate) fn is_name_byte(c: u8) -> bool
    ensures { result ≡ is_name_byte c }
{
    begins_name(c) || is_digit(c) || c == b'\''
}
