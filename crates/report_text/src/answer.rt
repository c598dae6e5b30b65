//! What is said of a goal.

ghost use Rattle.std.specs.Prelude.{◌≡◌};
ghost use Rattle.std.specs.Option.{option_map};
ghost use Rattle.report_text.specs.machine.Reading.{proved_at, refuted_at, why_at, unsettled_at, kind_at, oversize_at, answer_at, place_at};

use crate::lines::Line;
use crate::number::number_after;
use crate::word::strip;
use clause_engine::Why;
use goal_serve::Kind;

fn proved(bytes: &[u8]) -> Option<(Line, &[u8])>
    ensures { option_map (λ x. (x.0, x.1.now)) result ≡ proved_at bytes.now }
{
    let (clauses, rest) = number_after(bytes, b"proved ")?;
    let rest = strip(rest, b"\n")?;
    Some((Line::Proved(clauses), rest))
}

fn refuted(bytes: &[u8]) -> Option<(Line, &[u8])>
    ensures { option_map (λ x. (x.0, x.1.now)) result ≡ refuted_at bytes.now }
{
    let rest = strip(bytes, b"refuted\n")?;
    Some((Line::Refuted, rest))
}

fn why(bytes: &[u8]) -> Option<(Why, &[u8])>
    ensures { option_map (λ x. (x.0, x.1.now)) result ≡ why_at bytes.now }
{
    if let Some(rest) = strip(bytes, b"grey") {
        return Some((Why::Grey, rest));
    }
    let rest = strip(bytes, b"over")?;
    Some((Why::Over, rest))
}

fn unsettled(bytes: &[u8]) -> Option<(Line, &[u8])>
    ensures { option_map (λ x. (x.0, x.1.now)) result ≡ unsettled_at bytes.now }
{
    let (clause, rest) = number_after(bytes, b"unsettled ")?;
    let rest = strip(rest, b" ")?;
    let (why, rest) = why(rest)?;
    let rest = strip(rest, b"\n")?;
    Some((Line::Unsettled { clause, why }, rest))
}

fn kind(bytes: &[u8]) -> Option<(Kind, &[u8])>
    ensures { option_map (λ x. (x.0, x.1.now)) result ≡ kind_at bytes.now }
{
    if let Some(rest) = strip(bytes, b"weight") {
        return Some((Kind::Weight, rest));
    }
    if let Some(rest) = strip(bytes, b"spread") {
        return Some((Kind::Spread, rest));
    }
    if let Some(rest) = strip(bytes, b"degree") {
        return Some((Kind::Degree, rest));
    }
    let (clauses, rest) = number_after(bytes, b"splits ")?;
    Some((Kind::Splits(clauses), rest))
}

fn oversize(bytes: &[u8]) -> Option<(Line, &[u8])>
    ensures { option_map (λ x. (x.0, x.1.now)) result ≡ oversize_at bytes.now }
{
    let rest = strip(bytes, b"oversize ")?;
    let (kind, rest) = kind(rest)?;
    let rest = strip(rest, b"\n")?;
    Some((Line::Oversize(kind), rest))
}

/// The line that says whether a goal is proved, refuted or neither, and what follows it.
#[tactic(auto, unfolding(crate::specs::machine::Reading::answer_at))]
pub fn answer(bytes: &[u8]) -> Option<(Line, &[u8])>
    ensures { option_map (λ x. (x.0, x.1.now)) result ≡ answer_at bytes.now }
{
    if let Some(found) = proved(bytes) {
        return Some(found);
    }
    if let Some(found) = refuted(bytes) {
        return Some(found);
    }
    if let Some(found) = unsettled(bytes) {
        return Some(found);
    }
    oversize(bytes)
}

/// The line with the place where a goal has no sorts, and what follows it.
#[tactic(auto, unfolding(crate::specs::machine::Reading::place_at))]
pub fn place(bytes: &[u8]) -> Option<(Line, &[u8])>
    ensures { option_map (λ x. (x.0, x.1.now)) result ≡ place_at bytes.now }
{
    let (at, rest) = number_after(bytes, b"ill-sorted ")?;
    let rest = strip(rest, b"\n")?;
    Some((Line::IllSorted { at }, rest))
}
