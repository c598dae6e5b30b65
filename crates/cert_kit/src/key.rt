ghost use Rattle.std.specs.Prelude.{◌≡◌, ◌↔◌, ◌++◌, ℕ, List, ◌^◌, ◌<◌, length, IfOk, IsTrue};
ghost use Rattle.std.specs.List.{AllByRecursion};
ghost use Rattle.mm_poly.specs.Poly.{Fits};
ghost use Rattle.cert_kit.specs.declared.row.PRow.{PRow as ARow};
ghost use Rattle.cert_kit.specs.Codec.{IsCodec};
ghost use Rattle.cert_kit.specs.Bytes.{rows_bytes, rows_at, AreRows};

use crate::bytes::put_rows;
use crate::row::PRow;
use crate::sink::{Comparison, Differs};
use std::alloc::{AllocError, Global};

/// The bytes of rows, fewer than 2^32: the key of a clause of them.
pub fn rows_bytes(alloc: Global, rows: &[PRow]) -> Result<Vec<u8>, AllocError>
    requires { length rows.now < 2 ^ 32 }
    ensures { IfOk result (λ bytes. bytes.items ≡ rows_bytes rows.now) }
{
    let mut bytes = Vec::new(alloc);
    put_rows(&mut bytes, rows)?;
    bytes.shrink_to_fit();
    Ok(bytes)
}

/// Whether these are the bytes of rows, fewer than 2^32. It takes no memory, and ends at the first that differ.
#[tactic(auto, using(crate::proofs::FrontLaws::not_all, crate::proofs::FrontLaws::whole))]
pub fn key_is(rows: &[PRow], bytes: &[u8]) -> bool
    requires { length rows.now < 2 ^ 32 }
    ensures { IsTrue result ↔ (rows_bytes rows.now ≡ bytes.now) }
{
    let mut comparison = Comparison { rest: bytes };
    match put_rows(&mut comparison, rows) {
        Ok(()) => comparison.rest.is_empty(),
        Err(Differs) => false,
    }
}

/// Bytes that are read are spelled so, and bytes that are spelled so are read again. So equal bytes stand for equal
/// rows, and no rows' bytes are the beginning of others'.
pub fn keys()
    ensures codec { IsCodec rows_at rows_bytes AreRows }
    ensures same { (rows others : List ARow) (a b : List ℕ) → AreRows rows → AreRows others
        → rows_bytes rows ++ a ≡ rows_bytes others ++ b → (rows ≡ others) × (a ≡ b) }
{}

/// Any rows are within the bounds of polynomials.
pub fn have_bounds(rows: &[PRow])
    ensures { AllByRecursion (λ (r : ARow). Fits r.poly) rows.now }
{
    for row in rows {
        let _ = row.poly.terms();
    }
}

/// Rows with equal bytes are equal.
pub fn one_key(rows: &[PRow], others: &[PRow])
    requires rows { length rows.now < 2 ^ 32 }
    requires others { length others.now < 2 ^ 32 }
    ensures { rows_bytes rows.now ≡ rows_bytes others.now → rows.now ≡ others.now }
{
    have_bounds(rows);
    have_bounds(others);
}
