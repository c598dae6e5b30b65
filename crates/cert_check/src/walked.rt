ghost use Rattle.std.specs.Prelude.{◌≡◌, IfOk};
ghost use Rattle.mm_poly.specs.Poly.{plus};
ghost use Rattle.mm_poly.specs.Room.{SumHasRoom};
ghost use Rattle.cert_kit.specs.Cut.{cut_of};
ghost use Rattle.cert_kit.specs.FirstFault.{node_of, bounds_of};
ghost use Rattle.cert_check.specs.Held.{held_row};

use cert_kit::{Bounds, Op, PRow, cut_row};
use mm_poly::Poly;
use std::alloc::{AllocError, Global};
use std::marker::Model;

/// A row of those so far, or one that was made.
#[derive(Drop)]
pub enum Held<'a> {
    Lent(&'a PRow),
    Made(PRow),
}

/// The row that an expression means, which may be lent, with the bounds of the expression.
#[derive(Drop)]
pub struct Walked<'a> {
    held: Held<'a>,
    bounds: Bounds,
}

impl<'a> Model for Walked<'a> {
    ghost use Rattle.cert_kit.specs.declared.node.Node.{Node};
    ghost use Rattle.cert_check.specs.Held.{held_row};

    ghost Value = { Node };

    ghost view = { λ w. record { row = held_row w.held; bounds = w.bounds } };
}

impl<'a> Walked<'a> {
    /// A row of those so far.
    pub fn lent(row: &'a PRow, bounds: Bounds) -> Walked<'a>
        ensures { result ≡ node_of row.now bounds }
    {
        Walked {
            held: Held::Lent(row),
            bounds,
        }
    }

    /// A row that was made.
    pub fn made(poly: Poly, op: Op, bounds: Bounds) -> Walked<'a>
        ensures { result ≡ node_of (record { poly = poly; op = op }) bounds }
    {
        Walked {
            held: Held::Made(PRow { poly, op }),
            bounds,
        }
    }

    /// The row.
    pub fn row(&self) -> &PRow
        ensures { result.now ≡ self.now.row }
    {
        match &self.held {
            Held::Lent(row) => row,
            Held::Made(row) => row,
        }
    }

    /// The bounds.
    pub fn bounds(&self) -> Bounds
        ensures { result ≡ bounds_of self.now }
    {
        self.bounds
    }

    /// The row, copied where it is lent.
    pub fn into_row(self, alloc: Global) -> Result<PRow, AllocError>
        ensures { IfOk result (λ r. r ≡ self.entry.row) }
    {
        match self.held {
            Held::Lent(row) => row.copy(alloc),
            Held::Made(row) => Ok(row),
        }
    }

    /// The cut of the row.
    pub fn into_cut(self, alloc: Global) -> Result<PRow, AllocError>
        ensures { IfOk result (λ r. r ≡ cut_of self.entry.row) }
    {
        match self.held {
            Held::Lent(row) => cut_row(alloc, row),
            Held::Made(row) => row.into_cut(alloc),
        }
    }

    /// The sum of both polynomials: of their own terms, or in one merge where both are lent.
    pub fn into_sum(self, alloc: Global, other: Walked<'a>) -> Result<Poly, AllocError>
        requires { SumHasRoom self.row.poly other.row.poly }
        ensures { IfOk result (λ p. p ≡ plus self.entry.row.poly other.entry.row.poly) }
    {
        match (self.held, other.held) {
            (Held::Lent(first), Held::Lent(second)) => first.poly.sum(alloc, &second.poly),
            (Held::Made(first), Held::Made(second)) => first.poly.into_sum(alloc, second.poly),
            (Held::Lent(first), Held::Made(second)) => {
                first.poly.copy(alloc)?.into_sum(alloc, second.poly)
            }
            (Held::Made(first), Held::Lent(second)) => {
                let second = second.poly.copy(alloc)?;
                first.poly.into_sum(alloc, second)
            }
        }
    }
}
