ghost use Rattle.std.specs.Prelude.{◌≡◌, ◌<◌, ◌/◌, ◌^◌, length, slice_index, EachIndex, IfOk};
ghost use Rattle.sha2.specs.Sha256.{sha256};
ghost use Rattle.cert_kit.specs.Bytes.{rows_bytes};
ghost use Rattle.clause_form.specs.Key.{hex_digit, hex_digit_at};

use crate::digesting::digest_of_rows;
use cert_kit::{Clause, one_key, rows_bytes};
use std::alloc::{AllocError, Global};

/// The key of a clause with fewer than 2^32 rows: how many there are, and the bytes of each.
pub fn key(alloc: Global, clause: &Clause) -> Result<Vec<u8>, AllocError>
    requires { length clause.now.rows < 2 ^ 32 }
    ensures { IfOk result (λ bytes. bytes.items ≡ rows_bytes clause.now.rows) }
{
    rows_bytes(alloc, clause.rows.as_slice())
}

/// Clauses with equal keys are equal.
pub fn equal_keys(clause: &Clause, other: &Clause)
    requires rows { length clause.now.rows < 2 ^ 32 }
    requires others { length other.now.rows < 2 ^ 32 }
    ensures { rows_bytes clause.now.rows ≡ rows_bytes other.now.rows → clause.now ≡ other.now }
{
    one_key(clause.rows.as_slice(), other.rows.as_slice());
}

/// The name of a clause with fewer than 2^32 rows: the first 16 hexadecimal digits of its key's SHA-256 (FIPS 180-4), in lower
/// case. The key isn't made: the digest takes its bytes piece by piece.
pub fn clause_name(clause: &Clause) -> [u8; 16]
    requires { length clause.now.rows < 2 ^ 32 }
    ensures { EachIndex result (λ k. slice_index result k ≡ hex_digit_at (sha256 (rows_bytes clause.now.rows)) k) }
{
    let digest = digest_of_rows(clause.rows.as_slice());
    first_digits(&digest)
}

fn first_digits(bytes: &[u8; 32]) -> [u8; 16]
    ensures { EachIndex result (λ k. slice_index result k ≡ hex_digit_at bytes.now k) }
{
    let mut name = [0; 16];
    for place in 0..16 {
        name[place] = digit_at(bytes, place);
    }
    name
}

fn digit_at(bytes: &[u8; 32], place: usize) -> u8
    requires { place < 16 }
    ensures { result ≡ hex_digit_at bytes.now place }
{
    let byte = bytes[place / 2];
    if place % 2 == 0 {
        hex_digit(byte / 16)
    } else {
        hex_digit(byte % 16)
    }
}

fn hex_digit(n: u8) -> u8
    requires { n < 16 }
    ensures { result ≡ hex_digit n }
{
    if n < 10 { b'0' + n } else { b'a' - 10 + n }
}
