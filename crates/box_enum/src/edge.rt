ghost use Rattle.std.specs.Prelude.{◌≡◌, ◌^◌, ◌-◌, ℕ, min, max, map, length, IfOk};
ghost use Rattle.std.specs.Prelude.{int_lt};
ghost use Rattle.std.specs.List.{All, list_any};
ghost use Rattle.box_enum.specs.declared.edge.Edge.{Edge as AnEdge};
ghost use Rattle.box_enum.specs.Box.{count_of, size_of, reach_of};
ghost use Rattle.box_enum.specs.machine.Edges.{side_at, sides_at, edges_of, IsSmallEdge};

use crate::bounds::Bounds;
use std::alloc::{AllocError, Global};

/// The least and the greatest value of a variable.
#[derive(Clone, Copy, Debug)]
pub struct Edge {
    pub low: i128,
    pub high: i128,
}

/// The sides of a box.
pub(crate) fn edges(alloc: Global, bounds: &Bounds) -> Result<Vec<Edge>, AllocError>
    ensures { IfOk result (λ edges. edges.items ≡ edges_of bounds.now.low bounds.now.high) }
{
    let low = bounds.low.as_slice();
    let high = bounds.high.as_slice();
    let count = less(low.len(), high.len());
    let mut edges = Vec::with_capacity(alloc, count)?;
    for n in 0..count {
        edges.push(Edge {
            low: low[n],
            high: high[n],
        })?;
    }
    Ok(edges)
}

fn less(first: usize, second: usize) -> usize
    ensures { result ≡ min first second }
{
    if first < second { first } else { second }
}

/// How many points a box has, 2^128 - 1 where there are more.
pub(crate) fn size(edges: &[Edge]) -> u128
    requires { All IsSmallEdge edges.now }
    ensures { result ≡ min (size_of (sides_at edges.now)) (2 ^ 128 - 1) }
{
    let mut size = 1;
    for n in (0..edges.len()).rev() {
        size = count(&edges[n]).saturating_mul(size);
    }
    size
}

// How many values a side has.
fn count(edge: &Edge) -> u128
    requires { IsSmallEdge edge.now }
    ensures { result ≡ count_of (side_at edge.now) }
{
    if edge.high < edge.low {
        0
    } else {
        (edge.high - edge.low + 1).unsigned_abs()
    }
}

/// Whether a side has no value.
pub(crate) fn has_no_value(edges: &[Edge]) -> bool
    ensures { result ≡ list_any (λ (e : AnEdge). int_lt e.high e.low) edges.now }
{
    edges.iter().any(|edge| edge.high < edge.low)
}

/// The greatest magnitude of a bound, 0 without sides.
pub(crate) fn reach(edges: &[Edge]) -> u128
    ensures { result ≡ reach_of (sides_at edges.now) }
{
    let mut reach = 0;
    for n in (0..edges.len()).rev() {
        let edge = edges[n];
        reach = edge
            .low
            .unsigned_abs()
            .max(edge.high.unsigned_abs())
            .max(reach);
    }
    reach
}
