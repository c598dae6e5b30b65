ghost use Rattle.std.specs.Prelude.{◌≡◌, IfOk};
ghost use Rattle.cert_kit.specs.FirstFault.{walk};
ghost use Rattle.cert_check.specs.Checking.{Gives, CoversRow};

use crate::fail::CheckFail;
use crate::node::{
    constant_node, multiple_node, product_node, row_node, square_node, sum_node, zero_node,
};
use crate::rows::Rows;
use crate::walked::Walked;
use cert_kit::Psatz;
use sqlite_items::Boxed;
use std::alloc::Global;

/// The row that an expression means with its bounds, or its first fault. Nodes stand on the heap, so that deep
/// expressions take little of the stack.
pub fn walk_through<'a>(
    alloc: Global,
    rows: &'a Rows<'_>,
    e: &Psatz,
) -> Result<Boxed<Walked<'a>>, CheckFail>
    ensures gives { Gives result (walk e.now rows.now) }
    ensures covers { IfOk result CoversRow }
{
    match e {
        Psatz::Hyp(n) => row_node(alloc, rows, *n),
        Psatz::Square(poly) => square_node(alloc, poly),
        Psatz::MulPoly(poly, part) => {
            let part = walk_through(alloc, rows, part.get())?;
            multiple_node(alloc, poly, part.get())
        }
        Psatz::Mul(first, second) => {
            let first = walk_through(alloc, rows, first.get())?;
            let second = walk_through(alloc, rows, second.get())?;
            product_node(alloc, first.get(), second.get())
        }
        Psatz::Add(first, second) => {
            let first = walk_through(alloc, rows, first.get())?;
            let second = walk_through(alloc, rows, second.get())?;
            sum_node(alloc, first.into_inner(), second.into_inner())
        }
        Psatz::Const(c) => constant_node(alloc, *c),
        Psatz::Zero => zero_node(alloc),
    }
}
