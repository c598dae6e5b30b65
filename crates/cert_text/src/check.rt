//! A whole check: rows, each on a line, and a certificate on the last line.

ghost use Rattle.std.specs.Prelude.{◌≡◌, ℕ, ◌-◌, ◌≤◌, List, IfOk, IfErr, length};
ghost use Rattle.cert_kit.specs.declared.row.PRow.{PRow};
ghost use Rattle.cert_kit.specs.declared.cert.Cert.{Cert as Certificate};
ghost use Rattle.cert_text.specs.Text.{check_text};
ghost use Rattle.cert_text.specs.Check.{IsCheck};
ghost use Rattle.cert_text.specs.Place.{IsNoCheck, IsBadAt, IsBad};
ghost use Rattle.cert_text.specs.Whole.{whole_at, last_at, check_at, CheckGives};

use crate::certificate::line;
use crate::fail::{CheckText, TextFail};
use crate::row::rows;
use crate::word::front_length;
use cert_kit::{Cert, Clause, PRow};
use sqlite_items::Items;
use std::alloc::Global;

/// The rows and the certificate that the bytes spell, all of the bytes: `Bad` where they spell none, at the place of
/// the first line that doesn't fit, or at their length where all lines fit and the certificate is missing.
pub fn read_check(alloc: Global, bytes: &[u8]) -> Result<(Clause, Cert), CheckText>
    ensures found { IfOk result (λ r. IsCheck r.0.rows r.1 × (bytes.now ≡ check_text r.0.rows r.1)) }
    ensures bad { IfErr result (IsBad bytes.now) }
{
    check(alloc, bytes)
}

/// A text has at most one reading.
pub fn one_reading()
    ensures { (rows others : List PRow) (c d : Certificate) → IsCheck rows c → IsCheck others d → check_text rows c ≡ check_text others d → (rows ≡ others) × (c ≡ d) }
{}

/// Bytes have at most one place where they go wrong, and only where they are no check.
pub fn one_place()
    ensures one { (bytes : List ℕ) (m n : ℕ) → IsBadAt bytes m → IsBadAt bytes n → m ≡ n }
    ensures none { (bytes : List ℕ) (m : ℕ) → IsBadAt bytes m → IsNoCheck bytes }
{}

// The rows and the certificate, all of the bytes.
#[tactic(auto, unfolding(crate::specs::Whole::check_at), using(crate::proofs::CheckLaws::rows_short))]
fn check(alloc: Global, bytes: &[u8]) -> Result<(Clause, Cert), CheckText>
    ensures { CheckGives result (check_at bytes.now) }
{
    let (rows, rest) = rows(alloc, u32::MAX, bytes)?;
    last(alloc, bytes, rows, rest)
}

// The certificate's line after the rows, and nothing after it.
#[tactic(auto, using(crate::proofs::CheckLaws::line_short))]
fn last(
    alloc: Global,
    bytes: &[u8],
    rows: Vec<PRow>,
    rest: &[u8],
) -> Result<(Clause, Cert), CheckText>
    requires { length rest.now ≤ length bytes.now }
    ensures { CheckGives result (last_at bytes.now (rows.items, rest.now)) }
{
    match line(alloc, rest) {
        Ok((cert, end)) => whole(bytes, rows, cert, end),
        Err(TextFail::Bad) => Err(CheckText::Bad {
            at: place(bytes, rest),
        }),
        Err(TextFail::NoMemory) => Err(CheckText::NoMemory),
    }
}

// The rows and the certificate, where no bytes are left.
fn whole(bytes: &[u8], rows: Vec<PRow>, cert: Cert, end: &[u8]) -> Result<(Clause, Cert), CheckText>
    requires { length end.now ≤ length bytes.now }
    ensures { CheckGives result (whole_at bytes.now rows.items (cert, end.now)) }
{
    if end.is_empty() {
        let rows = Items::from_vec(rows);
        Ok((Clause { rows }, cert))
    } else {
        Err(CheckText::Bad {
            at: place(bytes, end),
        })
    }
}

// Where the rest of the bytes begins.
fn place(bytes: &[u8], rest: &[u8]) -> u64
    requires { length rest.now ≤ length bytes.now }
    ensures { result ≡ length bytes.now - length rest.now }
{
    front_length(bytes, rest) as u64
}
