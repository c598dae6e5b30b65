ghost use Rattle.std.specs.Prelude.{◌≡◌, ◌↔◌, false, IfOk};
ghost use Rattle.cert_kit.specs.Row.{HasNoSolution};
ghost use Rattle.cert_kit.specs.Acceptance.{accepts, is_within, IsGood};
ghost use Rattle.cert_kit.specs.FirstFault.{first_fault};
ghost use Rattle.cert_check.specs.Verdict.{verdict_of};

use crate::close::check_cert;
use crate::fail::CheckFail;
use crate::rows::Rows;
use cert_kit::{Cert, Clause, Fault, PRow};
use std::alloc::{AllocError, Global};

/// What the rules say of a certificate.
#[derive(Clone, Copy, Debug, PartialEq, Eq)]
pub enum Verdict {
    /// It has no fault: no integer point solves the rows.
    Accepted,
    /// Its first fault is one of a rule.
    Rejected,
    /// Its first fault is one of a bound.
    Size,
}

// To find the last uses of rows, each row number that stands in a certificate is looked at once for each certificate
// round it that lets rows go. So those that are nested deeper than this let none go.
const LEVELS: u32 = 16;

/// What the rules say of a certificate over a clause.
pub fn check(alloc: Global, clause: &Clause, cert: &Cert) -> Result<Verdict, AllocError>
    ensures exact { IfOk result (λ verdict. verdict ≡ verdict_of (first_fault cert.now clause.now.rows)) }
    ensures accepted { IfOk result (λ verdict. (verdict ≡ Verdict.Accepted) ↔ IsGood clause.now.rows cert.now) }
    ensures rejected { IfOk result (λ verdict. verdict ≡ Verdict.Rejected → accepts cert.now clause.now.rows ≡ false) }
    ensures size { IfOk result (λ verdict. verdict ≡ Verdict.Size → is_within cert.now clause.now.rows ≡ false) }
    ensures sound { IfOk result (λ verdict. verdict ≡ Verdict.Accepted → HasNoSolution clause.now.rows) }
{
    Ok(verdict_on(fault_of(alloc, clause.rows.as_slice(), cert)?))
}

// The verdict that a first fault, or none, makes.
fn verdict_on(fault: Option<Fault>) -> Verdict
    ensures { result ≡ verdict_of fault }
{
    match fault {
        None => Verdict::Accepted,
        Some(Fault::Rule) => Verdict::Rejected,
        Some(Fault::Bound) => Verdict::Size,
    }
}

// The first fault of a certificate, if it has one.
fn fault_of(alloc: Global, given: &[PRow], cert: &Cert) -> Result<Option<Fault>, AllocError>
    ensures { IfOk result (λ fault. fault ≡ first_fault cert.now given.now) }
{
    let mut rows = Rows::new(alloc, given);
    match check_cert(alloc, &mut rows, LEVELS, cert) {
        Ok(()) => Ok(None),
        Err(CheckFail::Wrong(fault)) => Ok(Some(fault)),
        Err(CheckFail::NoMemory) => Err(AllocError),
    }
}
