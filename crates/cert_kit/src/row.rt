ghost use Rattle.std.specs.Prelude.{◌≡◌, [], ◌∷◌};
ghost use Rattle.cert_kit.specs.Row.{is_false};

use mm_poly::{Poly, Term};
use sqlite_items::Items;

/// How a polynomial compares to 0.
#[derive(Clone, Copy, Debug, PartialEq, Eq)]
pub enum Op {
    /// It is at least 0.
    Ge,
    /// It is 0.
    Eq,
}

/// A row: `poly >= 0` or `poly = 0`.
#[derive(Debug, Drop)]
pub struct PRow {
    pub poly: Poly,
    pub op: Op,
}

/// A list of rows. An integer point solves it where each row holds there.
#[derive(Debug, Drop)]
pub struct Clause {
    pub rows: Items<PRow>,
}

/// Whether the row is constant and false: `k >= 0` with `k` below 0, or `k = 0` with another `k`.
pub fn false_row(row: &PRow) -> bool
    ensures { result ≡ is_false row.now }
{
    row.poly.spread() == 1 && is_false_term(&row.op, row.poly.term(0))
}

fn is_false_term(op: &Op, term: &Term) -> bool
    ensures { result ≡ is_false record { poly = term.now ∷ []; op = op.now } }
{
    term.mono.is_empty()
        && match op {
            Op::Ge => term.coeff < 0,
            Op::Eq => term.coeff != 0,
        }
}
