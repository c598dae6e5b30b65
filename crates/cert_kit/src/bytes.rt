//! The one walk over rows that hands their bytes on, piece by piece.

ghost use Rattle.std.specs.Prelude.{◌≡◌, ◌^◌, ◌<◌, length, [], ◌∷◌, OnOk, OnErr};
ghost use Rattle.std.specs.List.{flat_map};
ghost use Rattle.cert_kit.specs.Codec.{number_bytes};
ghost use Rattle.cert_kit.specs.Bytes.{integer_bytes, factor_bytes, mono_bytes, term_bytes, poly_bytes, op_bytes, row_bytes, rows_bytes};

use crate::row::{Op, PRow};
use crate::sink::ByteSink;
use mm_poly::{Mono, Poly, Term};

/// Hands the bytes of a number on.
#[tactic(auto, unfolding(crate::specs::Codec::number_bytes))]
pub fn put_number<S: ByteSink>(sink: &mut S, n: u32) -> Result<(), S::Stop>
    ensures taken { OnOk result (S.took sink.old (number_bytes n) sink.new) }
    ensures refused { OnErr result (S.refuses sink.old (number_bytes n)) }
{
    sink.put(&n.to_le_bytes())
}

/// Hands a byte on.
pub fn put_byte<S: ByteSink>(sink: &mut S, byte: u8) -> Result<(), S::Stop>
    ensures taken { OnOk result (S.took sink.old (byte ∷ []) sink.new) }
    ensures refused { OnErr result (S.refuses sink.old (byte ∷ [])) }
{
    sink.put(&[byte])
}

/// Hands the bytes of an integer on.
pub fn put_integer<S: ByteSink>(sink: &mut S, z: i128) -> Result<(), S::Stop>
    ensures taken { OnOk result (S.took sink.old (integer_bytes z) sink.new) }
    ensures refused { OnErr result (S.refuses sink.old (integer_bytes z)) }
{
    sink.put(&bytes_of_integer(z))
}

#[tactic(auto, using(crate::proofs::KeyLaws::integer_is))]
fn bytes_of_integer(z: i128) -> [u8; 16]
    ensures { result ≡ integer_bytes z }
{
    z.to_le_bytes()
}

fn put_factor<S: ByteSink>(sink: &mut S, factor: (u32, u8)) -> Result<(), S::Stop>
    ensures taken { OnOk result (S.took sink.old (factor_bytes factor) sink.new) }
    ensures refused { OnErr result (S.refuses sink.old (factor_bytes factor)) }
{
    put_number(sink, factor.0)?;
    put_byte(sink, factor.1)
}

fn put_factors<S: ByteSink>(sink: &mut S, factors: &[(u32, u8)]) -> Result<(), S::Stop>
    ensures taken { OnOk result (S.took sink.old (flat_map factor_bytes factors.now) sink.new) }
    ensures refused { OnErr result (S.refuses sink.old (flat_map factor_bytes factors.now)) }
{
    for factor in factors {
        put_factor(sink, *factor)?;
    }
    Ok(())
}

fn put_mono<S: ByteSink>(sink: &mut S, mono: &Mono) -> Result<(), S::Stop>
    ensures taken { OnOk result (S.took sink.old (mono_bytes mono.now) sink.new) }
    ensures refused { OnErr result (S.refuses sink.old (mono_bytes mono.now)) }
{
    put_number(sink, mono.len())?;
    put_factors(sink, mono.factors())
}

fn put_term<S: ByteSink>(sink: &mut S, term: &Term) -> Result<(), S::Stop>
    ensures taken { OnOk result (S.took sink.old (term_bytes term.now) sink.new) }
    ensures refused { OnErr result (S.refuses sink.old (term_bytes term.now)) }
{
    put_integer(sink, term.coeff)?;
    put_mono(sink, &term.mono)
}

fn put_terms<S: ByteSink>(sink: &mut S, terms: &[Term]) -> Result<(), S::Stop>
    ensures taken { OnOk result (S.took sink.old (flat_map term_bytes terms.now) sink.new) }
    ensures refused { OnErr result (S.refuses sink.old (flat_map term_bytes terms.now)) }
{
    for term in terms {
        put_term(sink, term)?;
    }
    Ok(())
}

/// Hands the bytes of a polynomial on.
pub fn put_poly<S: ByteSink>(sink: &mut S, poly: &Poly) -> Result<(), S::Stop>
    ensures taken { OnOk result (S.took sink.old (poly_bytes poly.now) sink.new) }
    ensures refused { OnErr result (S.refuses sink.old (poly_bytes poly.now)) }
{
    put_number(sink, poly.spread())?;
    put_terms(sink, poly.terms())
}

#[tactic(auto, unfolding(crate::specs::Bytes::op_bytes))]
fn put_op<S: ByteSink>(sink: &mut S, op: Op) -> Result<(), S::Stop>
    ensures taken { OnOk result (S.took sink.old (op_bytes op) sink.new) }
    ensures refused { OnErr result (S.refuses sink.old (op_bytes op)) }
{
    match op {
        Op::Ge => put_byte(sink, 0),
        Op::Eq => put_byte(sink, 1),
    }
}

fn put_row<S: ByteSink>(sink: &mut S, row: &PRow) -> Result<(), S::Stop>
    ensures taken { OnOk result (S.took sink.old (row_bytes row.now) sink.new) }
    ensures refused { OnErr result (S.refuses sink.old (row_bytes row.now)) }
{
    put_op(sink, row.op)?;
    put_poly(sink, &row.poly)
}

fn put_each_row<S: ByteSink>(sink: &mut S, rows: &[PRow]) -> Result<(), S::Stop>
    ensures taken { OnOk result (S.took sink.old (flat_map row_bytes rows.now) sink.new) }
    ensures refused { OnErr result (S.refuses sink.old (flat_map row_bytes rows.now)) }
{
    for row in rows {
        put_row(sink, row)?;
    }
    Ok(())
}

/// Hands the bytes of rows, fewer than 2^32, on.
pub fn put_rows<S: ByteSink>(sink: &mut S, rows: &[PRow]) -> Result<(), S::Stop>
    requires { length rows.now < 2 ^ 32 }
    ensures taken { OnOk result (S.took sink.old (rows_bytes rows.now) sink.new) }
    ensures refused { OnErr result (S.refuses sink.old (rows_bytes rows.now)) }
{
    put_number(sink, rows.len() as u32)?;
    put_each_row(sink, rows)
}
