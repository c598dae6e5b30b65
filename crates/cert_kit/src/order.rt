ghost use Rattle.std.specs.Prelude.{◌≡◌, ◌↔◌, IsTrue, take, length, ◌<◌};
ghost use Rattle.std.specs.declared.cmp.Ordering.TheVariants.{Equal};
ghost use Rattle.std.specs.Cmp.{IsTotalOrder};
ghost use Rattle.cert_kit.specs.declared.row.PRow.{PRow as ARow};
ghost use Rattle.cert_kit.specs.Order.{op_cmp, row_cmp};

use crate::row::{Clause, Op, PRow};
use std::cmp::Ordering;

impl PRow {
    /// How it compares to another one: by the polynomial, and then `>=` before `=`.
    pub fn order(&self, other: &PRow) -> Ordering
        ensures { result ≡ row_cmp self.now other.now }
    {
        let by_polynomial = self.poly.order(&other.poly);
        by_polynomial.then(order_of_ops(self.op, other.op))
    }

    /// Whether it is the same row.
    #[tactic(auto, using(crate::proofs::RowOrderLaws::row_same))]
    pub fn same(&self, other: &PRow) -> bool
        ensures { IsTrue result ↔ (self.now ≡ other.now) }
    {
        self.op == other.op && self.poly.same(&other.poly)
    }
}

fn order_of_ops(op: Op, other: Op) -> Ordering
    ensures { result ≡ op_cmp op other }
{
    match (op, other) {
        (Op::Ge, Op::Eq) => Ordering::Less,
        (Op::Eq, Op::Ge) => Ordering::Greater,
        (Op::Ge, Op::Ge) | (Op::Eq, Op::Eq) => Ordering::Equal,
    }
}

impl Clause {
    /// Whether it has the same rows.
    pub fn same(&self, other: &Clause) -> bool
        ensures { IsTrue result ↔ (self.now ≡ other.now) }
    {
        are_same_rows(self.rows.as_slice(), other.rows.as_slice())
    }
}

fn are_same_rows(rows: &[PRow], others: &[PRow]) -> bool
    ensures { IsTrue result ↔ (rows.now ≡ others.now) }
{
    if rows.len() != others.len() {
        return false;
    }
    for n in 0..rows.len() {
        if !rows[n].same(&others[n]) {
            return false;
        }
    }
    true
}

/// The order of rows is total, and tells different ones apart.
pub fn row_order()
    ensures total { IsTotalOrder row_cmp }
    ensures exact { (r s : ARow) → row_cmp r s ≡ Equal → r ≡ s }
{}
