ghost use Rattle.std.specs.Prelude.{◌≡◌, ◌<◌, ◌^◌, length, [], IfOk};
ghost use Rattle.fm_elim.specs.Points.{AreRows};
ghost use Rattle.fm_elim.specs.machine.Ending.{IsEnded};
ghost use Rattle.fm_elim.specs.machine.Logging.{all_rows, IsLogged};
ghost use Rattle.fm_elim.specs.machine.Logged.{LogsEnding};

use crate::ending::Ending;
use crate::log::Log;
use crate::point::point;
use crate::run::run;
use crate::state::Ran;
use cert_kit::PRow;
use std::alloc::{AllocError, Global};

/// How the elimination of rows ends.
pub fn ended(alloc: Global, log: &mut Log<'_>, rows: &[PRow]) -> Result<Ending, AllocError>
    requires length { length rows.now < 2 ^ 32 }
    requires logged { IsLogged log.old [] }
    requires fresh { all_rows log.old ≡ rows.now }
    ensures ends { IfOk result (IsEnded rows.now) }
    ensures logged { IfOk result (λ e. LogsEnding e log.old log.new) }
    ensures fits { AreRows rows.now }
{
    are_rows(rows);
    let (removed, top) = match run(alloc, log, rows)? {
        Ran::Point(removed, top) => (removed, top),
        Ran::Contra => return Ok(Ending::Contra),
        Ran::Grey => return Ok(Ending::Grey),
        Ran::Over => return Ok(Ending::Over),
    };
    match point(alloc, rows, &removed, top)? {
        Some(values) => Ok(Ending::Point(values)),
        None => Ok(Ending::Over),
    }
}

// Each polynomial is within the limits, since it is a `Poly`.
fn are_rows(rows: &[PRow])
    ensures { AreRows rows.now }
{
    for row in rows {
        prove!(row.poly.spread() <= 65_536);
    }
}
