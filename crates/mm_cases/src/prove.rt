//! What `mm prove` says of goal files.

use crate::case::input_of;
use crate::check;
use crate::program::{Written, run_with};
use std::alloc::{AllocError, Global};
use std::thread::Threads;

/// The first words of the lines of a report that are no answers.
const OTHERS: [&str; 8] = [
    "mm report 1",
    "session ",
    "goal ",
    "clause ",
    "row ",
    "cert ",
    "cache ",
    "end",
];

fn proved<R: Threads + Sync>(rt: &R, alloc: Global, input: &str) -> Result<Written, AllocError> {
    run_with(rt, alloc, "prove", &input_of(alloc, input)?)
}

// The lines of the report that are answers, parted by `; `, and the status.
fn answers_of(alloc: Global, written: &Written) -> Result<Vec<u8>, AllocError> {
    let mut answer = Vec::new(alloc);
    for line in String::from_utf8_lossy(alloc, &written.text)?.lines() {
        if is_answer(line) {
            push_part(&mut answer, line.as_bytes())?;
        }
    }
    written.push_status(alloc, &mut answer)?;
    Ok(answer)
}

fn is_answer(line: &str) -> bool {
    line.contains(" := ") || !OTHERS.iter().any(|word| line.starts_with(*word))
}

// The piece after `; `, or alone where it is the first.
fn push_part(text: &mut Vec<u8>, part: &[u8]) -> Result<(), AllocError> {
    if !text.is_empty() {
        text.extend_from_slice(b"; ")?;
    }
    text.extend_from_slice(part)
}

/// The lines of the report that are answers, parted by `; `, and the status.
pub fn answers<R: Threads + Sync>(
    rt: &R,
    alloc: Global,
    input: &str,
) -> Result<Vec<u8>, AllocError> {
    answers_of(alloc, &proved(rt, alloc, input)?)
}

/// The same for the goals after `; `, with so many turns as stand before it.
pub fn within<R: Threads + Sync>(
    rt: &R,
    alloc: Global,
    input: &str,
) -> Result<Vec<u8>, AllocError> {
    let Some((turns, goals)) = input.split_once("; ") else {
        return Vec::from_slice(alloc, b"no turns");
    };
    let words = format!(in alloc; "prove --turns {turns}")?;
    let written = run_with(rt, alloc, &words, &input_of(alloc, goals)?)?;
    answers_of(alloc, &written)
}

/// What is said of each goal, without assignments, parted by `; `, and the status.
pub fn said<R: Threads + Sync>(rt: &R, alloc: Global, input: &str) -> Result<Vec<u8>, AllocError> {
    let written = proved(rt, alloc, input)?;
    let mut answer = Vec::new(alloc);
    for line in String::from_utf8_lossy(alloc, &written.text)?.lines() {
        if is_answer(line) && !line.contains(" := ") {
            push_part(&mut answer, line.as_bytes())?;
        }
    }
    written.push_status(alloc, &mut answer)?;
    Ok(answer)
}

/// The whole report, each line feed as `%0a`, and the status.
pub fn report<R: Threads + Sync>(
    rt: &R,
    alloc: Global,
    input: &str,
) -> Result<Vec<u8>, AllocError> {
    let written = proved(rt, alloc, input)?;
    let mut answer = Vec::new(alloc);
    for byte in &written.text {
        if *byte == b'\n' {
            answer.extend_from_slice(b"%0a")?;
        } else {
            answer.push(*byte)?;
        }
    }
    written.push_status(alloc, &mut answer)?;
    Ok(answer)
}

/// What `mm check` says of each certificate of the report with its rows: how many it accepts, of how many.
pub fn accepted<R: Threads + Sync>(
    rt: &R,
    alloc: Global,
    input: &str,
) -> Result<Vec<u8>, AllocError> {
    let written = proved(rt, alloc, input)?;
    let mut certs = 0u64;
    let mut accepted = 0u64;
    let mut rows = String::new(alloc);
    for line in String::from_utf8_lossy(alloc, &written.text)?.lines() {
        if line.starts_with("row ") || line.starts_with("cert ") {
            rows.push_str(line)?;
            rows.push_str("\n")?;
        }
        if line.starts_with("cert ") {
            certs = certs.saturating_add(1);
            if check::line(rt, alloc, rows.as_bytes())?.as_slice() == b"accepted / 0".as_slice() {
                accepted = accepted.saturating_add(1);
            }
            rows.clear();
        }
    }
    Ok(format!(in alloc; "{accepted} of {certs}")?.into_bytes())
}

/// What the program writes for the words before ` | `, parted by blanks, and the input after it, and the status.
pub fn asked<R: Threads + Sync>(rt: &R, alloc: Global, input: &str) -> Result<Vec<u8>, AllocError> {
    let Some((words, input)) = input.split_once(" | ") else {
        return Vec::from_slice(alloc, b"no input");
    };
    run_with(rt, alloc, words, &input_of(alloc, input)?)?.line(alloc)
}
