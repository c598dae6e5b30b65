//! Lines between goals, and rows.

ghost use Rattle.std.specs.Prelude.{◌≡◌, ◌≤◌, length, drop, IfOk};
ghost use Rattle.std.specs.Option.{option_map};
ghost use Rattle.report_text.specs.machine.Reads.{Reads};
ghost use Rattle.report_text.specs.machine.Kinds.{IsSessionLine, IsAskedLine, IsRowLine, IsCertLine, ReadsNamed};

use crate::goal::asked;
use crate::lines::Line;
use crate::name::name;
use crate::part::{mode, numbered_after, split_line};
use cert_text::{read_cert_line, read_row_line};
use goal_ast::Name;
use std::alloc::{AllocError, Global};

// A name up to the end of the line, and what follows it.
fn named(alloc: Global, bytes: &[u8]) -> Result<Option<(Name, &[u8])>, AllocError>
    ensures { IfOk result (λ o. ReadsNamed bytes.now (option_map (λ x. (x.0, x.1.now)) o)) }
{
    let Some((text, rest)) = split_line(bytes) else {
        return Ok(None);
    };
    match name(alloc, text)? {
        Some(name) => Ok(Some((name, rest))),
        None => Ok(None),
    }
}

/// The line of the session of this number, and what follows it.
pub fn session_line(
    alloc: Global,
    number: u64,
    bytes: &[u8],
) -> Result<Option<(Line, &[u8])>, AllocError>
    ensures { IfOk result (λ o. Reads (IsSessionLine number) bytes.now (option_map (λ x. (x.0, x.1.now)) o)) }
{
    let Some(rest) = numbered_after(bytes, b"session ", number) else {
        return Ok(None);
    };
    match named(alloc, rest)? {
        Some((name, rest)) => Ok(Some((Line::Session { number, name }, rest))),
        None => Ok(None),
    }
}

/// The line of the goal of this number, and what follows it.
pub fn asked_line(
    alloc: Global,
    number: u64,
    bytes: &[u8],
) -> Result<Option<(Line, &[u8])>, AllocError>
    ensures { IfOk result (λ o. Reads (IsAskedLine number) bytes.now (option_map (λ x. (x.0, x.1.now)) o)) }
{
    let Some(rest) = numbered_after(bytes, b"goal ", number) else {
        return Ok(None);
    };
    let Some((mode, rest)) = mode(rest) else {
        return Ok(None);
    };
    match asked(alloc, mode, rest)? {
        Some((goal, rest)) => Ok(Some((Line::Asked { number, mode, goal }, rest))),
        None => Ok(None),
    }
}

/// The line of a row, and what follows it.
pub fn row_line(alloc: Global, bytes: &[u8]) -> Result<Option<(Line, &[u8])>, AllocError>
    ensures { IfOk result (λ o. Reads IsRowLine bytes.now (option_map (λ x. (x.0, x.1.now)) o)) }
{
    match read_row_line(alloc, bytes)? {
        Some((row, length)) => Ok(Some((Line::Row(row), after(bytes, length)))),
        None => Ok(None),
    }
}

/// The line of a certificate, and what follows it.
pub fn certificate_line(alloc: Global, bytes: &[u8]) -> Result<Option<(Line, &[u8])>, AllocError>
    ensures { IfOk result (λ o. Reads IsCertLine bytes.now (option_map (λ x. (x.0, x.1.now)) o)) }
{
    match read_cert_line(alloc, bytes)? {
        Some((cert, length)) => Ok(Some((Line::Certificate(cert), after(bytes, length)))),
        None => Ok(None),
    }
}

// What follows so many bytes.
fn after(bytes: &[u8], count: usize) -> &[u8]
    requires { count ≤ length bytes.now }
    ensures { result.now ≡ drop count bytes.now }
{
    let (_, rest) = bytes.split_at(count);
    rest
}
