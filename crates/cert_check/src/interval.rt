ghost use Rattle.std.specs.Prelude.{◌≡◌, ◌≤ℤ◌, OnOk};
ghost use Rattle.mm_num.specs.Small.{IsSmall};
ghost use Rattle.mm_poly.specs.Poly.{Fits};
ghost use Rattle.cert_kit.specs.Acceptance.{range_between, range_of, values_of, value_row, with_row};
ghost use Rattle.cert_check.specs.Checking.{Gives, expected};

use crate::fail::CheckFail;
use crate::rows::Rows;
use cert_kit::{Fault, Op, PRow, cut_row};
use mm_poly::Poly;
use sqlite_items::Boxed;
use std::alloc::{AllocError, Global};
use std::marker::Model;

/// A polynomial without constant term, and the least and the greatest value that it is said to have.
#[derive(Drop)]
pub struct Interval {
    poly: Poly,
    low: i128,
    high: i128,
}

impl Model for Interval {
    ghost use Rattle.cert_kit.specs.Acceptance.{Range};
    ghost use Rattle.cert_check.specs.Room.{ValuesHaveRoom};

    ghost Value = { Range };

    ghost view = { λ r. record { poly = r.poly; low = r.low; high = r.high } };

    ghost invariant = { λ r. ValuesHaveRoom (record { poly = r.poly; low = r.low; high = r.high }) };
}

impl Interval {
    /// The least value.
    pub fn low(&self) -> i128
        ensures value { result ≡ self.now.low }
        ensures small { IsSmall self.now.low }
    {
        self.low
    }

    /// How many values there are.
    pub fn count(&self) -> u128
        ensures { result ≡ values_of self.now }
    {
        if self.high < self.low {
            0
        } else {
            (self.high - self.low + 1).unsigned_abs()
        }
    }

    /// Appends the row that gives the polynomial this value.
    pub fn push_value(&self, alloc: Global, rows: &mut Rows<'_>, v: i128) -> Result<(), AllocError>
        requires low { self.now.low ≤ℤ v }
        requires high { v ≤ℤ self.now.high }
        ensures { OnOk result (rows.new ≡ with_row rows.old (value_row self.now.poly v)) }
    {
        rows.push(PRow {
            poly: self.poly.sum(alloc, &Poly::constant(alloc, -v)?)?,
            op: Op::Eq,
        })
    }

    /// The interval between the bounds that two rows give: both are inequalities, and their cuts have the same
    /// polynomial apart from its sign and the constants.
    pub fn of_rows(alloc: Global, lower: &PRow, upper: &PRow) -> Result<Boxed<Interval>, CheckFail>
        ensures { Gives result (expected (range_of lower.now upper.now)) }
    {
        if lower.op == Op::Eq || upper.op == Op::Eq {
            return Err(CheckFail::Wrong(Fault::Rule));
        }
        let lower = cut_row(alloc, lower)?;
        let upper = cut_row(alloc, upper)?;
        Interval::between(alloc, &lower.poly, &upper.poly)
    }

    // The interval between two polynomials that are at least 0.
    fn between(alloc: Global, lower: &Poly, upper: &Poly) -> Result<Boxed<Interval>, CheckFail>
        requires lower { Fits lower.now }
        requires upper { Fits upper.now }
        ensures { Gives result (expected (range_between lower.now upper.now)) }
    {
        if !lower.has_opposite_unknowns(upper) {
            return Err(CheckFail::Wrong(Fault::Rule));
        }
        let poly = lower.without_constant(alloc)?;
        let interval = Interval {
            poly,
            low: -lower.constant_term(),
            high: upper.constant_term(),
        };
        Ok(Boxed::new(alloc, interval)?)
    }
}
