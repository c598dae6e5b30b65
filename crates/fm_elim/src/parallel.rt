ghost use Rattle.std.specs.Prelude.{◌≡◌};
ghost use Rattle.fm_elim.specs.Tidy.{is_inequality, are_parallel, is_tighter};
ghost use Rattle.fm_elim.specs.machine.Tidying.{parallel_from};

use crate::live::Live;
use cert_kit::{Op, PRow};

/// Whether it is at least 0.
pub fn is_inequality(op: Op) -> bool
    ensures { result ≡ is_inequality op }
{
    op == Op::Ge
}

// Whether both are inequalities that are the same but for their constants.
fn are_parallel(first: &PRow, second: &PRow) -> bool
    ensures { result ≡ are_parallel first.now second.now }
{
    is_inequality(first.op) && is_inequality(second.op) && first.poly.has_unknowns_of(&second.poly)
}

/// Whether the first constant is less.
pub fn is_tighter(first: &PRow, second: &PRow) -> bool
    ensures { result ≡ is_tighter first.now second.now }
{
    first.poly.constant_term() < second.poly.constant_term()
}

/// The place of the first row that is parallel to this one.
pub fn parallel_place(rows: &[Live], row: &PRow) -> Option<usize>
    ensures { result ≡ parallel_from rows.now row.now 0 }
{
    for (place, live) in rows.iter().enumerate() {
        if are_parallel(&live.row, row) {
            return Some(place);
        }
    }
    None
}
