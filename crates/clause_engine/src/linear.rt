ghost use Rattle.std.specs.Prelude.{◌↔◌, IsTrue};
ghost use Rattle.fm_elim.specs.Points.{AreLinear, AreRows};

use cert_kit::PRow;

// Whether no row has a degree above 1.
pub(crate) fn are_linear(rows: &[PRow]) -> bool
    ensures { IsTrue result ↔ AreLinear rows.now }
{
    rows.iter().all(|row| row.poly.degree() <= 1)
}

// Each polynomial is within the limits, since it is a `Poly`.
pub(crate) fn are_rows(rows: &[PRow])
    ensures { AreRows rows.now }
{
    for row in rows {
        prove!(row.poly.spread() <= 65_536);
    }
}
