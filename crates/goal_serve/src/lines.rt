//! The lines of a report, each at the end of a text.

ghost use Rattle.std.specs.Prelude.{◌≡◌, ◌++◌, Some, None, OnOk, codes, decimal};
ghost use Rattle.goal_print.specs.ReadsBack.{mode_text};
ghost use Rattle.goal_serve.specs.KeyName.{key_name};
ghost use Rattle.goal_serve.specs.Line.{Begin, Session, Asked, Proved, Clause as ClauseLine, Refuted, Unsettled, Oversize, IllSorted, Cache, End, origin_text, why_text, kind_text, counted, line_text};

use crate::answers::{Kind, Origin};
use crate::keys::key_name;
use cert_kit::Clause;
use clause_engine::Why;
use goal_ast::{Goal, Mode, Name};
use goal_print::push_goal;
use itoa::Buffer;
use std::alloc::AllocError;

fn push(out: &mut Vec<u8>, text: &[u8]) -> Result<(), AllocError>
    ensures { OnOk result (out.new.items ≡ out.old.items ++ text.now) }
{
    out.extend_from_slice(text)
}

fn push_number(out: &mut Vec<u8>, number: u64) -> Result<(), AllocError>
    ensures { OnOk result (out.new.items ≡ out.old.items ++ decimal number) }
{
    let mut buffer = Buffer::new();
    push(out, buffer.format(number).as_bytes())
}

fn mode_text(mode: Mode) -> &'static [u8]
    ensures { result.now ≡ mode_text mode }
{
    match mode {
        Mode::Lia => b"lia",
        Mode::Nia => b"nia",
    }
}

fn origin_text(origin: Origin) -> &'static [u8]
    ensures { result.now ≡ origin_text origin }
{
    match origin {
        Origin::New => b"new",
    }
}

fn why_text(why: Why) -> &'static [u8]
    ensures { result.now ≡ why_text why }
{
    match why {
        Why::Grey => b"grey",
        Why::Over => b"over",
    }
}

fn push_kind(out: &mut Vec<u8>, kind: Kind) -> Result<(), AllocError>
    ensures { OnOk result (out.new.items ≡ out.old.items ++ kind_text kind) }
{
    match kind {
        Kind::Weight => push(out, b"weight"),
        Kind::Spread => push(out, b"spread"),
        Kind::Degree => push(out, b"degree"),
        Kind::Splits(number) => {
            push(out, b"splits ")?;
            push_number(out, number)
        }
    }
}

/// Appends the first line of a report. As with all lines here, `Err` where there is no memory.
pub fn push_begin(out: &mut Vec<u8>) -> Result<(), AllocError>
    ensures { OnOk result (out.new.items ≡ out.old.items ++ line_text Begin) }
{
    push(out, b"mm report 1\n")
}

/// Appends the line of a session with its number.
pub fn push_session(out: &mut Vec<u8>, number: u64, name: &Name) -> Result<(), AllocError>
    ensures { OnOk result (out.new.items ≡ out.old.items ++ line_text (Session number name.now)) }
{
    push(out, b"session ")?;
    push_number(out, number)?;
    push(out, b" ")?;
    push(out, name.bytes.as_slice())?;
    push(out, b"\n")
}

// A goal's number and mode.
fn push_numbered(out: &mut Vec<u8>, number: u64, mode: Mode) -> Result<(), AllocError>
    ensures { OnOk result (out.new.items ≡ out.old.items ++ (codes "goal " ++ (decimal number ++ (codes " " ++ mode_text mode)))) }
{
    push(out, b"goal ")?;
    push_number(out, number)?;
    push(out, b" ")?;
    push(out, mode_text(mode))
}

/// Appends the line of a goal with its number.
pub fn push_asked(out: &mut Vec<u8>, number: u64, goal: &Goal) -> Result<(), AllocError>
    ensures { OnOk result (out.new.items ≡ out.old.items ++ line_text (Asked number goal.now.mode (Some goal.now))) }
{
    push_numbered(out, number, goal.mode)?;
    push(out, b" ")?;
    push_goal(out, goal)?;
    push(out, b".\n")
}

/// Appends the line of a goal without sorts: its number and its mode.
pub fn push_unsorted(out: &mut Vec<u8>, number: u64, mode: Mode) -> Result<(), AllocError>
    ensures { OnOk result (out.new.items ≡ out.old.items ++ line_text (Asked number mode None)) }
{
    push_numbered(out, number, mode)?;
    push(out, b"\n")
}

/// Appends the line that names the place where a goal's sorts don't fit.
pub fn push_ill_sorted(out: &mut Vec<u8>, at: u64) -> Result<(), AllocError>
    ensures { OnOk result (out.new.items ≡ out.old.items ++ line_text (IllSorted at)) }
{
    push(out, b"ill-sorted ")?;
    push_number(out, at)?;
    push(out, b"\n")
}

pub(crate) fn push_proved(out: &mut Vec<u8>, clauses: u64) -> Result<(), AllocError>
    ensures { OnOk result (out.new.items ≡ out.old.items ++ line_text (Proved clauses)) }
{
    push(out, b"proved ")?;
    push_number(out, clauses)?;
    push(out, b"\n")
}

// Where a certificate comes from, at the end of a line.
fn push_origin(out: &mut Vec<u8>, origin: Origin) -> Result<(), AllocError>
    ensures { OnOk result (out.new.items ≡ out.old.items ++ (codes " " ++ (origin_text origin ++ codes "\n"))) }
{
    push(out, b" ")?;
    push(out, origin_text(origin))?;
    push(out, b"\n")
}

// `Err` also where the clause has 2^32 rows or more.
pub(crate) fn push_clause(
    out: &mut Vec<u8>,
    number: u64,
    clause: &Clause,
    origin: Origin,
) -> Result<(), AllocError>
    ensures { OnOk result (out.new.items ≡ out.old.items ++ line_text (ClauseLine number (key_name clause.now) origin)) }
{
    let name = key_name(clause)?;
    push(out, b"clause ")?;
    push_number(out, number)?;
    push(out, b" ")?;
    push(out, &name)?;
    push_origin(out, origin)
}

pub(crate) fn push_refuted(out: &mut Vec<u8>) -> Result<(), AllocError>
    ensures { OnOk result (out.new.items ≡ out.old.items ++ line_text Refuted) }
{
    push(out, b"refuted\n")
}

pub(crate) fn push_unsettled(out: &mut Vec<u8>, clause: u64, why: Why) -> Result<(), AllocError>
    ensures { OnOk result (out.new.items ≡ out.old.items ++ line_text (Unsettled clause why)) }
{
    push(out, b"unsettled ")?;
    push_number(out, clause)?;
    push(out, b" ")?;
    push(out, why_text(why))?;
    push(out, b"\n")
}

pub(crate) fn push_oversize(out: &mut Vec<u8>, kind: Kind) -> Result<(), AllocError>
    ensures { OnOk result (out.new.items ≡ out.old.items ++ line_text (Oversize kind)) }
{
    push(out, b"oversize ")?;
    push_kind(out, kind)?;
    push(out, b"\n")
}

// A word between blanks, and a number.
fn push_count(out: &mut Vec<u8>, word: &[u8], number: u64) -> Result<(), AllocError>
    ensures { OnOk result (out.new.items ≡ out.old.items ++ counted word.now number) }
{
    push(out, b" ")?;
    push(out, word)?;
    push(out, b" ")?;
    push_number(out, number)
}

// The word `cache` and a mode.
fn push_cached(out: &mut Vec<u8>, mode: Mode) -> Result<(), AllocError>
    ensures { OnOk result (out.new.items ≡ out.old.items ++ (codes "cache " ++ mode_text mode)) }
{
    push(out, b"cache ")?;
    push(out, mode_text(mode))
}

/// Appends the line of a cache: how many entries it was opened with, how many were stored, and how many are saved.
pub fn push_cache(
    out: &mut Vec<u8>,
    mode: Mode,
    opened: u64,
    stored: u64,
    saved: u64,
) -> Result<(), AllocError>
    ensures { OnOk result (out.new.items ≡ out.old.items ++ line_text (Cache mode opened stored saved)) }
{
    push_cached(out, mode)?;
    push_count(out, b"opened", opened)?;
    push_count(out, b"stored", stored)?;
    push_count(out, b"saved", saved)?;
    push(out, b"\n")
}

/// Appends the last line of a report.
pub fn push_end(out: &mut Vec<u8>) -> Result<(), AllocError>
    ensures { OnOk result (out.new.items ≡ out.old.items ++ line_text End) }
{
    push(out, b"end\n")
}
