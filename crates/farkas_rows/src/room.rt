ghost use Rattle.std.specs.Prelude.{◌≡◌, ◌↔◌, ◌^◌, ◌-◌, length, min, IsTrue};
ghost use Rattle.farkas_rows.specs.Combining.{norms, spreads, HasRoom};

use cert_kit::PRow;
use mm_poly::{NORM_LIMIT, SPREAD_LIMIT};

/// Whether the sums of norms and of spreads leave room for the combination of the rows.
pub fn has_room(rows: &[PRow], multipliers: &[i128]) -> bool
    requires { length multipliers.now ≡ length rows.now }
    ensures { IsTrue result ↔ HasRoom rows.now multipliers.now }
{
    total_norm(rows, multipliers) < NORM_LIMIT && total_spread(rows) <= u64::from(SPREAD_LIMIT)
}

// The norms, each times its multiplier's magnitude.
fn total_norm(rows: &[PRow], multipliers: &[i128]) -> u128
    requires { length multipliers.now ≡ length rows.now }
    ensures { result ≡ min (norms multipliers.now rows.now) (2 ^ 128 - 1) }
{
    let mut total = 0_u128;
    for (place, row) in rows.iter().enumerate() {
        let times = multipliers[place].unsigned_abs();
        total = total.saturating_add(times.saturating_mul(row.poly.norm().unsigned_abs()));
    }
    total
}

// The spreads of all rows.
fn total_spread(rows: &[PRow]) -> u64
    ensures { result ≡ min (spreads rows.now) (2 ^ 64 - 1) }
{
    let mut total = 0_u64;
    for row in rows {
        total = total.saturating_add(u64::from(row.poly.spread()));
    }
    total
}
