ghost use Rattle.std.specs.Prelude.{◌≡◌, ℕ, ◌+◌, ◌*◌, ◌^◌, ◌<◌, IsTrue, ◌↔◌, nat_lt};
ghost use Rattle.std.specs.List.{All, list_all};
ghost use Rattle.box_enum.specs.Box.{is_modest, is_box_within};
ghost use Rattle.box_enum.specs.machine.Edges.{sides_at, IsSmallEdge};

use crate::edge::{Edge, reach, size};
use cert_kit::PRow;

/// Whether a box has at most 2,048 sides and as many points as turns, and each row is small enough.
pub(crate) fn is_box_within(rows: &[PRow], edges: &[Edge], turns: u32) -> bool
    requires { All IsSmallEdge edges.now }
    ensures { result ≡ is_box_within turns rows.now (sides_at edges.now) }
{
    edges.len() <= 2048 && (size(edges) <= u128::from(turns) && are_modest(rows, reach(edges)))
}

fn are_modest(rows: &[PRow], reach: u128) -> bool
    requires { reach < 2 ^ 126 }
    ensures { result ≡ list_all (is_modest reach) rows.now }
{
    rows.iter().all(|row| is_modest(row, reach))
}

// Whether a row is small enough for each step of a certificate over a box that reaches so far.
fn is_modest(row: &PRow, reach: u128) -> bool
    requires { reach < 2 ^ 126 }
    ensures { result ≡ is_modest reach row.now }
{
    let degree = row.poly.degree();
    u64::from(row.poly.spread()) * u64::from(2 * degree + 1) <= 65_536
        && is_small(row.poly.norm().unsigned_abs(), reach, 2 * degree)
}

// Whether a number times a power of 4 times the reach and 4 is below 2^100.
fn is_small(number: u128, reach: u128, exponent: u32) -> bool
    requires { reach < 2 ^ 126 }
    ensures { result ≡ nat_lt (number * (4 * reach + 4) ^ exponent) (2 ^ 100) }
{
    if number >= 1 << 100 {
        return false;
    }
    let mut multiple = number;
    for _ in 0..exponent {
        match (multiple * 4).checked_mul(reach + 1) {
            Some(product) if product < 1 << 100 => multiple = product,
            _ => return false,
        }
    }
    true
}
