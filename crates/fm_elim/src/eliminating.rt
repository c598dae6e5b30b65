ghost use Rattle.std.specs.Prelude.{◌≡◌, ◌<◌, ◌≤◌, ◌^◌, length, true, IfOk};
ghost use Rattle.cert_kit.specs.Acceptance.{ends_false, IsGood};
ghost use Rattle.cert_kit.specs.Depth.{cert_depth, MakesCert};
ghost use Rattle.cert_kit.specs.Row.{Solves};
ghost use Rattle.mm_poly.specs.Point.{point_of as point_by};
ghost use Rattle.fm_elim.specs.Points.{point_of, AreLinear};
ghost use Rattle.fm_elim.specs.machine.Logging.{IsSound, all_rows};
ghost use Rattle.fm_elim.specs.Answers.{Ends, IfContra, IfPoint, AreNumbered, by_unknowns};

use crate::certificate::certificate;
use crate::ended::ended;
use crate::ending::Ending;
use crate::log::Log;
use crate::pruning::pruned;
use cert_kit::{Cert, PRow};
use std::alloc::{AllocError, Global};

/// How the elimination of a clause ends.
#[derive(Debug, Drop)]
pub enum Elim {
    /// No integer point solves the clause: a certificate says so.
    Contra(Cert),
    /// The values of the clause's unknowns, in monomial order.
    Point(Vec<i128>),
    /// The clause may have integer solutions or none.
    Grey,
    /// The limits were passed.
    Over,
}

/// Eliminates the unknowns of a clause.
///
/// A certificate is over the clause's rows. A clause of more than 2^32 rows, given and made, is answered with want of
/// memory.
pub fn eliminate(alloc: Global, clause: &[PRow]) -> Result<Elim, AllocError>
    requires { length clause.now < 2 ^ 32 }
    ensures ends { IfOk result (Ends clause.now) }
    ensures good { IfOk result (IfContra (IsGood clause.now)) }
    ensures makes { IfOk result (IfContra (λ c. MakesCert c.steps c.close)) }
    ensures shallow { IfOk result (IfContra (λ c. cert_depth c ≤ 4000)) }
    ensures values { IfOk result (IfPoint (λ zs. zs ≡ point_of clause.now)) }
    // Every unknown of a linear clause is a variable, which has the unknown's value.
    ensures solves { AreLinear clause.now → IfOk result (IfPoint (λ zs. Solves (by_unknowns clause.now zs) clause.now)) }
    ensures numbered { AreLinear clause.now → AreNumbered clause.now → IfOk result (IfPoint (λ zs. Solves (point_by zs) clause.now)) }
{
    let mut log = Log::new(alloc, clause);
    match ended(alloc, &mut log, clause)? {
        Ending::Contra => {
            let cert = refutation(alloc, &log)?;
            Ok(Elim::Contra(cert))
        }
        Ending::Point(values) => Ok(Elim::Point(values)),
        Ending::Grey => Ok(Elim::Grey),
        Ending::Over => Ok(Elim::Over),
    }
}

// The certificate of a log whose last row is constant and false.
fn refutation(alloc: Global, log: &Log<'_>) -> Result<Cert, AllocError>
    requires sound { IsSound log.now }
    requires ends { ends_false (all_rows log.now) ≡ true }
    ensures good { IfOk result (IsGood log.now.given.now) }
    ensures makes { IfOk result (λ c. MakesCert c.steps c.close) }
    ensures shallow { IfOk result (λ c. cert_depth c ≤ 4000) }
{
    let sources = pruned(alloc, log)?;
    certificate(alloc, log.given, &sources)
}
