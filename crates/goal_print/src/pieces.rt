//! Pieces of text at the end of a text.

ghost use Rattle.std.specs.Prelude.{◌≡◌, ◌++◌, OnOk};
ghost use Rattle.std.specs.Fmt.{signed_decimal};
ghost use Rattle.goal_print.specs.Parts.{at_most, number};
ghost use Rattle.goal_print.specs.Text.{name_of};

use crate::precedence::{LEAF, NEGATION};
use goal_ast::Bound;
use itoa::Buffer;
use std::alloc::AllocError;

pub(crate) fn push(out: &mut Vec<u8>, text: &[u8]) -> Result<(), AllocError>
    ensures { OnOk result (out.new.items ≡ out.old.items ++ text.now) }
{
    out.extend_from_slice(text)
}

// The digits of a number, after a minus where it's below 0.
pub(crate) fn push_digits(out: &mut Vec<u8>, z: i128) -> Result<(), AllocError>
    ensures { OnOk result (out.new.items ≡ out.old.items ++ signed_decimal z) }
{
    let mut buffer = Buffer::new();
    push(out, buffer.format(z).as_bytes())
}

// A number below 0 is a minus before its operand.
pub(crate) fn number_level(z: i128) -> u8
    ensures { result ≡ (number z).level }
{
    if z >= 0 { LEAF } else { NEGATION }
}

// A number where only levels up to this one may stand without parentheses.
pub(crate) fn push_number(out: &mut Vec<u8>, z: i128, highest: u8) -> Result<(), AllocError>
    ensures { OnOk result (out.new.items ≡ out.old.items ++ at_most highest (number z)) }
{
    if number_level(z) <= highest {
        push_digits(out, z)
    } else {
        push(out, b"(")?;
        push_digits(out, z)?;
        push(out, b")")
    }
}

fn name_of<'a>(vars: &'a [Bound], v: u32) -> &'a [u8]
    ensures { result.now ≡ name_of vars.now v }
{
    match vars.get(v as usize) {
        Some(bound) => bound.name.bytes.as_slice(),
        None => &[],
    }
}

// The name of the variable of this number, and nothing where there is none.
pub(crate) fn push_name(out: &mut Vec<u8>, vars: &[Bound], v: u32) -> Result<(), AllocError>
    ensures { OnOk result (out.new.items ≡ out.old.items ++ name_of vars.now v) }
{
    push(out, name_of(vars, v))
}
