ghost use Rattle.std.specs.Prelude.{◌≡◌, ℕ, [], map, length, Some, IfOk};
ghost use Rattle.std.specs.Option.{option_map};
ghost use Rattle.std.specs.Ordering.{nat_cmp};
ghost use Rattle.std.specs.Int.{int_min, int_max};
ghost use Rattle.std.specs.List.Sorted.{IsStrictlySortedBy};
ghost use Rattle.cert_kit.specs.Variables.{variables_of};
ghost use Rattle.box_enum.specs.declared.reading.Reading.{Reading as AReading};
ghost use Rattle.box_enum.specs.declared.reading.Span.{Span as ASpan};
ghost use Rattle.box_enum.specs.Box.{better, box_of, bounds_of};
ghost use Rattle.box_enum.specs.machine.Reading.{span_of, narrowed, side_between, side_in, sides_in};

use crate::reading::{Reading, Span, read_cut};
use cert_kit::{PRow, variables};
use sqlite_items::Items;
use std::alloc::{AllocError, Global};

/// The least and the greatest value of each variable, in the order of the variables.
#[derive(Debug, Drop)]
pub struct Bounds {
    pub low: Items<i128>,
    pub high: Items<i128>,
}

/// The bounds that rows of one variable give each variable of a clause: the greatest lower and the least upper one, where
/// each variable has both.
#[tactic(auto, using(crate::proofs::BoundLaws::bounds_are))]
pub fn boxed(alloc: Global, rows: &[PRow]) -> Result<Option<Bounds>, AllocError>
    ensures { IfOk result (λ found. found ≡ option_map bounds_of (box_of rows.now)) }
{
    let vars = variables(alloc, rows)?;
    let spans = spans(alloc, rows, &vars)?;
    sides(alloc, &spans)
}

// The bounds that the rows give each of these variables.
fn spans(alloc: Global, rows: &[PRow], vars: &[u32]) -> Result<Vec<Span>, AllocError>
    requires { vars.now ≡ variables_of rows.now }
    ensures { IfOk result (λ spans. spans.items ≡ map (span_of rows.now) vars.now) }
{
    let mut spans = no_spans(alloc, vars)?;
    for n in (0..rows.len()).rev() {
        if let Some(reading) = read_cut(alloc, &rows[n])? {
            narrow(&mut spans, vars, reading);
        }
    }
    Ok(spans)
}

// No bounds yet, for each of these variables.
fn no_spans(alloc: Global, vars: &[u32]) -> Result<Vec<Span>, AllocError>
    ensures { IfOk result (λ spans. spans.items ≡ map (span_of []) vars.now) }
{
    let mut spans = Vec::with_capacity(alloc, vars.len())?;
    for _var in vars {
        spans.push(Span {
            low: None,
            high: None,
        })?;
    }
    Ok(spans)
}

// The bounds of the variable that was read, bettered by what was read.
fn narrow(spans: &mut Vec<Span>, vars: &[u32], reading: Reading)
    requires rising { IsStrictlySortedBy nat_cmp vars.now }
    requires each { length spans.old.items ≡ length vars.now }
    ensures { (f : ℕ → ASpan) → spans.old.items ≡ map f vars.now → spans.new.items ≡ map (λ x. narrowed (Some reading) x (f x)) vars.now }
{
    if let Ok(place) = vars.binary_search(&reading.variable) {
        let span = spans[place];
        spans[place] = Span {
            low: greater(reading.low, span.low),
            high: less(reading.high, span.high),
        };
    }
}

// The greater of two bounds, where one or both may be lacking.
fn greater(first: Option<i128>, second: Option<i128>) -> Option<i128>
    ensures { result ≡ better int_max first second }
{
    match (first, second) {
        (Some(a), Some(b)) => Some(a.max(b)),
        (Some(a), None) => Some(a),
        (None, other) => other,
    }
}

// The less of two bounds, where one or both may be lacking.
fn less(first: Option<i128>, second: Option<i128>) -> Option<i128>
    ensures { result ≡ better int_min first second }
{
    match (first, second) {
        (Some(a), Some(b)) => Some(a.min(b)),
        (Some(a), None) => Some(a),
        (None, other) => other,
    }
}

// The bounds, where each variable has both.
fn sides(alloc: Global, spans: &[Span]) -> Result<Option<Bounds>, AllocError>
    ensures { IfOk result (λ found. found ≡ option_map bounds_of (sides_in spans.now)) }
{
    let mut low = Vec::with_capacity(alloc, spans.len())?;
    let mut high = Vec::with_capacity(alloc, spans.len())?;
    for span in spans {
        let Some((least, greatest)) = ends(span) else {
            return Ok(None);
        };
        low.push(least)?;
        high.push(greatest)?;
    }
    Ok(Some(Bounds {
        low: Items::from_vec(low),
        high: Items::from_vec(high),
    }))
}

// The least and the greatest value, where there are both.
fn ends(span: &Span) -> Option<(i128, i128)>
    ensures { option_map side_between result ≡ side_in span.now }
{
    match (span.low, span.high) {
        (Some(low), Some(high)) => Some((low, high)),
        _ => None,
    }
}
