ghost use Rattle.std.specs.Prelude.{◌≡◌, ◌++◌, IfOk, OnOk};
ghost use Rattle.cert_text.specs.Check.{IsRow};
ghost use Rattle.cert_text.specs.Text.{op_text, row_text, row_line};

use crate::grammar::row_fits;
use crate::print::polynomial::push_polynomial;
use cert_kit::{Op, PRow};
use std::alloc::{AllocError, Global};

fn push_op(out: &mut Vec<u8>, op: Op) -> Result<(), AllocError>
    ensures { OnOk result (out.new.items ≡ out.old.items ++ op_text op) }
{
    match op {
        Op::Ge => out.extend_from_slice(b" >= 0"),
        Op::Eq => out.extend_from_slice(b" = 0"),
    }
}

fn push_row(out: &mut Vec<u8>, row: &PRow) -> Result<(), AllocError>
    ensures { OnOk result (out.new.items ≡ out.old.items ++ row_text row.now) }
{
    push_polynomial(out, &row.poly)?;
    push_op(out, row.op)
}

/// The text of a row, which is one of the grammar.
pub fn print_row(alloc: Global, row: &PRow) -> Result<Vec<u8>, AllocError>
    ensures text { IfOk result (λ text. text.items ≡ row_text row.now) }
    ensures row { IsRow row.now }
{
    row_fits(row);
    let mut out = Vec::new(alloc);
    push_row(&mut out, row)?;
    Ok(out)
}

/// Appends the line of a row, which is one of the grammar: `row `, its text and a line feed. `Err` where there is no memory.
pub fn push_row_line(out: &mut Vec<u8>, row: &PRow) -> Result<(), AllocError>
    ensures text { OnOk result (out.new.items ≡ out.old.items ++ row_line row.now) }
    ensures row { IsRow row.now }
{
    row_fits(row);
    out.extend_from_slice(b"row ")?;
    push_row(out, row)?;
    out.extend_from_slice(b"\n")
}
