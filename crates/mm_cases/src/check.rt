use crate::program::run_with;
use std::alloc::{AllocError, Global};
use std::thread::Threads;

/// What `mm check` writes for these bytes, without the line feed at its end, and the status after ` / `.
pub fn line<R: Threads + Sync>(rt: &R, alloc: Global, input: &[u8]) -> Result<Vec<u8>, AllocError> {
    let written = run_with(rt, alloc, "check", input)?;
    written.line(alloc)
}

fn push_row(text: &mut String, row: &str) -> Result<(), AllocError> {
    text.push_str("row ")?;
    text.push_str(row)?;
    text.push_str("\n")
}

/// What `mm check` says of rows, parted by `; `, and a certificate after ` | `: its line and its status.
pub fn verdict<R: Threads + Sync>(
    rt: &R,
    alloc: Global,
    input: &str,
) -> Result<Vec<u8>, AllocError> {
    let Some((rows, cert)) = input.split_once(" | ") else {
        return Vec::from_slice(alloc, b"no certificate");
    };
    let mut text = String::new(alloc);
    for row in rows.split("; ") {
        if !row.is_empty() {
            push_row(&mut text, row)?;
        }
    }
    text.push_str("cert ")?;
    text.push_str(cert)?;
    text.push_str("\n")?;
    line(rt, alloc, text.as_bytes())
}
