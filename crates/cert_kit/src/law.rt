ghost use Rattle.std.specs.Prelude.{◌≡◌, ◌↔◌, ℕ, ℤ, List, true, false, Some, None};
ghost use Rattle.cert_kit.specs.declared.row.PRow.{PRow};
ghost use Rattle.cert_kit.specs.declared.cert.Cert.{Cert as Certificate};
ghost use Rattle.cert_kit.specs.Row.{Holds, Solves, row_holds, all_hold, HasNoSolution};
ghost use Rattle.cert_kit.specs.Acceptance.{accepts, is_within, IsGood};
ghost use Rattle.cert_kit.specs.FirstFault.{first_fault};

use crate::node::Fault;

/// The law of soundness: no integer point solves rows over which the rules accept a certificate. A good one is
/// accepted.
pub fn soundness()
    ensures accepted { (c : Certificate) (rows : List PRow) → accepts c rows ≡ true → HasNoSolution rows }
    ensures good { (c : Certificate) (rows : List PRow) → IsGood rows c → HasNoSolution rows }
{}

/// A certificate has no fault exactly where it is good: the rules accept it, and each node that they meet is within
/// its bounds. Where the first fault is one of a rule, the rules don't accept it; where it is one of a bound, some node
/// isn't within its bounds.
pub fn faultless()
    ensures none { (c : Certificate) (rows : List PRow) → (first_fault c rows ≡ None) ↔ IsGood rows c }
    ensures rule { (c : Certificate) (rows : List PRow) → first_fault c rows ≡ Some Fault.Rule → accepts c rows ≡ false }
    ensures bound { (c : Certificate) (rows : List PRow) → first_fault c rows ≡ Some Fault.Bound → is_within c rows ≡ false }
{}

/// The tests of rows at a point are true exactly where the rows hold there.
pub fn solutions()
    ensures row { (x : ℕ → ℤ) (r : PRow) → (row_holds x r ≡ true) ↔ Holds x r }
    ensures rows { (x : ℕ → ℤ) (rows : List PRow) → (all_hold x rows ≡ true) ↔ Solves x rows }
{}
