//! Values of variables.

ghost use Rattle.std.specs.Prelude.{◌≡◌};
ghost use Rattle.std.specs.Option.{option_map};
ghost use Rattle.report_text.specs.machine.Reading.{truth_at, sorted_value_at, value_at};

use crate::lines::Line;
use crate::number::small;
use crate::word::strip;
use goal_ast::{Bound, Sort};

fn truth(bytes: &[u8]) -> Option<(i128, &[u8])>
    ensures { option_map (λ x. (x.0, x.1.now)) result ≡ truth_at bytes.now }
{
    if let Some(rest) = strip(bytes, b"true") {
        return Some((1, rest));
    }
    let rest = strip(bytes, b"false")?;
    Some((0, rest))
}

fn sorted_value(sort: Sort, bytes: &[u8]) -> Option<(i128, &[u8])>
    ensures { option_map (λ x. (x.0, x.1.now)) result ≡ sorted_value_at sort bytes.now }
{
    match sort {
        Sort::Bool => truth(bytes),
        Sort::Int | Sort::Bin | Sort::Nat | Sort::Pos => small(bytes),
    }
}

/// The line with the value of the variable, and what follows it.
#[tactic(auto, unfolding(crate::specs::machine::Reading::value_at))]
pub fn value<'a>(bound: &Bound, bytes: &'a [u8]) -> Option<(Line, &'a [u8])>
    ensures { option_map (λ x. (x.0, x.1.now)) result ≡ value_at bound.now bytes.now }
{
    let rest = strip(bytes, bound.name.bytes.as_slice())?;
    let rest = strip(rest, b" := ")?;
    let (value, rest) = sorted_value(bound.sort, rest)?;
    let rest = strip(rest, b"\n")?;
    Some((Line::Value(value), rest))
}
