ghost use Rattle.std.specs.Prelude.{◌≡◌, map, OnOk};
ghost use Rattle.cert_kit.specs.Acceptance.{ends_false};
ghost use Rattle.cert_kit.specs.FirstFault.{walk, first_fault, unless};
ghost use Rattle.cert_check.specs.Checking.{Gives, Finds, walked_range, close_fault, members_fault};

use crate::fail::CheckFail;
use crate::interval::Interval;
use crate::rows::Rows;
use crate::split::{push_lower_side, push_upper_side, test_split};
use crate::step::push_steps;
use crate::walk::walk_through;
use cert_kit::{Cert, Close, Fault, Psatz, false_row};
use sqlite_items::Boxed;
use std::alloc::Global;

/// Returns where the certificate has no fault over the rows, and fails with its first one. The rows stay as they
/// were where it returns. Rows are let go while there are levels left: a certificate of two steps or more takes one.
#[cycle(check)]
pub fn check_cert(
    alloc: Global,
    rows: &mut Rows<'_>,
    levels: u32,
    cert: &Cert,
) -> Result<(), CheckFail>
    ensures finds { Finds result (first_fault cert.now rows.old) }
    ensures rows { OnOk result (rows.new ≡ rows.old) }
{
    let before = rows.len();
    let steps = cert.steps.as_slice();
    push_steps(alloc, rows, levels, steps, &cert.close)?;
    let levels = levels.saturating_sub((steps.len() > 1) as u32);
    check_close(alloc, rows, levels, &cert.close)?;
    rows.truncate(before);
    Ok(())
}

#[cycle(check)]
fn check_close(
    alloc: Global,
    rows: &mut Rows<'_>,
    levels: u32,
    close: &Close,
) -> Result<(), CheckFail>
    ensures finds { Finds result (close_fault close.now rows.old) }
    ensures rows { OnOk result (rows.new ≡ rows.old) }
{
    match close {
        Close::Done => check_done(rows),
        Close::Split(poly, first, second) => {
            let before = rows.len();
            test_split(poly)?;
            push_upper_side(alloc, rows, poly)?;
            check_cert(alloc, rows, levels, first.get())?;
            rows.truncate(before);
            push_lower_side(alloc, rows, poly)?;
            check_cert(alloc, rows, levels, second.get())?;
            rows.truncate(before);
            Ok(())
        }
        Close::Enum(ends, members) => {
            let ends = ends.get();
            let interval = interval_of(alloc, rows, &ends.lower, &ends.upper)?;
            check_members(alloc, rows, levels, interval.get(), members.as_slice())
        }
    }
}

// The last row has to be constant and false.
fn check_done(rows: &Rows<'_>) -> Result<(), CheckFail>
    ensures { Finds result (unless (ends_false rows.now) Fault.Rule) }
{
    match rows.last() {
        Some(row) if false_row(row) => Ok(()),
        _ => Err(CheckFail::Wrong(Fault::Rule)),
    }
}

// A certificate for each value of the interval, in order.
#[cycle(check)]
fn check_members(
    alloc: Global,
    rows: &mut Rows<'_>,
    levels: u32,
    interval: &Interval,
    members: &[Cert],
) -> Result<(), CheckFail>
    ensures finds { Finds result (members_fault (map first_fault members.now) rows.old interval.now) }
    ensures rows { OnOk result (rows.new ≡ rows.old) }
{
    if interval.count() != members.len() as u128 {
        return Err(CheckFail::Wrong(Fault::Rule));
    }
    let before = rows.len();
    let mut value = interval.low();
    for member in members {
        interval.push_value(alloc, rows, value)?;
        check_cert(alloc, rows, levels, member)?;
        rows.truncate(before);
        value += 1;
    }
    Ok(())
}

// The interval that two expressions give.
fn interval_of(
    alloc: Global,
    rows: &Rows<'_>,
    lower: &Psatz,
    upper: &Psatz,
) -> Result<Boxed<Interval>, CheckFail>
    ensures { Gives result (walked_range (walk lower.now rows.now) (walk upper.now rows.now)) }
{
    let lower = walk_through(alloc, rows, lower)?;
    let upper = walk_through(alloc, rows, upper)?;
    Interval::of_rows(alloc, lower.get().row(), upper.get().row())
}
