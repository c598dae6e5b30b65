ghost use Rattle.std.specs.Prelude.{◌≡◌, ◌<◌, ◌≤◌, ◌^◌, length, Some, IfOk};
ghost use Rattle.std.specs.Option.{option_map};
ghost use Rattle.std.specs.List.{AllByRecursion};
ghost use Rattle.mm_num.specs.Small.{IsSmall};
ghost use Rattle.mm_poly.specs.Poly.{Fits};
ghost use Rattle.cert_kit.specs.declared.row.PRow.{PRow as Row};
ghost use Rattle.cert_kit.specs.Row.{Solves};
ghost use Rattle.cert_kit.specs.Variables.{variables_of, point_over};
ghost use Rattle.box_enum.specs.Box.{box_of, bounds_of};
ghost use Rattle.cert_kit.specs.Acceptance.{IsGood};
ghost use Rattle.cert_kit.specs.Depth.{cert_depth, MakesCert};
ghost use Rattle.box_enum.specs.Ends.{EndsBox, IfCert, IfPoint};

use crate::bounds::Bounds;
use crate::edge::edges;
use crate::end::BoxEnd;
use crate::modesty::is_box_within;
use crate::searching::search_box;
use crate::trunk::{MOST_ROWS, certificate};
use cert_kit::PRow;
use std::alloc::{AllocError, Global};

/// The first point of a clause's box that solves it, or a certificate that none does; neither where the clause isn't boxed
/// within the turns. Where there is no point and a certificate's rows would have numbers past those of 32 bits, which is
/// hundreds of GiB of rows or of steps, the answer is want of memory.
pub fn settle(
    alloc: Global,
    rows: &[PRow],
    bounds: &Bounds,
    turns: u32,
) -> Result<BoxEnd, AllocError>
    requires few { length rows.now < 2 ^ 32 }
    requires bounds { option_map bounds_of (box_of rows.now) ≡ Some bounds.now }
    ensures ends { IfOk result (EndsBox turns rows.now) }
    ensures good { IfOk result (IfCert (IsGood rows.now)) }
    ensures makes { IfOk result (IfCert (λ c. MakesCert c.steps c.close)) }
    ensures shallow { IfOk result (IfCert (λ c. cert_depth c ≤ 4000)) }
    ensures one_each { IfOk result (IfPoint (λ zs. length zs ≡ length (variables_of rows.now))) }
    ensures small { IfOk result (IfPoint (AllByRecursion IsSmall)) }
    ensures solves { IfOk result (IfPoint (λ zs. Solves (point_over (variables_of rows.now) zs) rows.now)) }
{
    are_rows(rows);
    let edges = edges(alloc, bounds)?;
    if !is_box_within(rows, &edges, turns) {
        return Ok(BoxEnd::TooWide);
    }
    let found = search_box(alloc, rows, &edges)?;
    match found {
        Some(point) => Ok(BoxEnd::Point(point)),
        None => {
            if rows.len() > MOST_ROWS {
                return Err(AllocError);
            }
            let cert = certificate(alloc, rows, &edges)?;
            Ok(BoxEnd::Cert(cert))
        }
    }
}

// Each polynomial is within the limits, since it is a `Poly`.
fn are_rows(rows: &[PRow])
    ensures { AllByRecursion (λ (r : Row). Fits r.poly) rows.now }
{
    for row in rows {
        prove!(row.poly.spread() <= 65_536);
    }
}
