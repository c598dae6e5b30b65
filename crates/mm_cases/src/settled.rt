//! How a certificate is judged, and a point written, wherever a crate ends a clause.

use cert_check::{Verdict, check};
use cert_kit::{Cert, Clause};
use std::alloc::{AllocError, Global};

/// This word where the certificate is accepted, else that it isn't good.
pub fn judged(
    alloc: Global,
    word: &str,
    clause: &Clause,
    cert: &Cert,
) -> Result<Vec<u8>, AllocError> {
    match check(alloc, clause, cert)? {
        Verdict::Accepted => Vec::from_slice(alloc, word.as_bytes()),
        Verdict::Rejected | Verdict::Size => {
            Vec::from_slice(alloc, b"a certificate that is not good")
        }
    }
}

/// `point` and its values.
pub fn point(alloc: Global, values: &[i128]) -> Result<Vec<u8>, AllocError> {
    let mut text = Vec::from_slice(alloc, b"point")?;
    for value in values {
        text.extend_from_slice(format!(in alloc; " {value}")?.as_bytes())?;
    }
    Ok(text)
}
