ghost use Rattle.std.specs.Prelude.{◌≡◌, ◌*◌, ◌^◌, ◌<◌, ◌∷◌, [], ◌++◌, map, length, true, nat_lt, IfOk, OnOk};
ghost use Rattle.nia_products.specs.Products.{factors_of, pairs_with, pairs, has_room, pair_has_room, products_of, pair_row, pair_source};
ghost use Rattle.nia_products.specs.machine.Lending.{factor_of, lent_factors};
ghost use Rattle.nia_products.specs.machine.Pairs.{pair_rows, pair_sources};

use crate::enriched::Enriched;
use crate::numbered::Numbered;
use cert_kit::{Op, PRow, Psatz};
use mm_poly::Poly;
use sqlite_items::Boxed;
use std::alloc::{AllocError, Global};

// So many inequalities are multiplied.
const MOST_FACTORS: usize = 20;

// The products of norms are below this one, 2^100.
const NORM_ROOM: u128 = 1 << 100;

// The products of spreads are at most this.
const SPREAD_ROOM: u64 = 4096;

// The sums of degrees are at most this.
const DEGREE_ROOM: u32 = 8;

/// Adds the products of pairs among the first inequalities of rows, where they are within the limits.
pub fn add_products(alloc: Global, enriched: &mut Enriched, rows: &[PRow]) -> Result<(), AllocError>
    requires { length rows.now < 2 ^ 32 }
    ensures rows { OnOk result (enriched.new.clause.rows ≡ enriched.old.clause.rows ++ map pair_row (products_of rows.now)) }
    ensures sources { OnOk result (enriched.new.sources.items ≡ enriched.old.sources.items ++ map pair_source (products_of rows.now)) }
{
    let factors = factors(alloc, rows)?;
    push_products(alloc, enriched, &factors)
}

// The first inequalities of rows, with their numbers.
fn factors(alloc: Global, rows: &[PRow]) -> Result<Vec<Numbered<'_>>, AllocError>
    requires { length rows.now < 2 ^ 32 }
    ensures { IfOk result (λ factors. lent_factors factors.items ≡ factors_of rows.now) }
{
    let mut factors = Vec::with_capacity(alloc, MOST_FACTORS)?;
    for (n, row) in rows.iter().enumerate() {
        if factors.len() == MOST_FACTORS {
            return Ok(factors);
        }
        if row.op == Op::Ge {
            factors.push(Numbered {
                number: n as u32,
                poly: &row.poly,
            })?;
        }
    }
    Ok(factors)
}

// The products of each factor with itself and those after it.
fn push_products(
    alloc: Global,
    enriched: &mut Enriched,
    factors: &[Numbered<'_>],
) -> Result<(), AllocError>
    ensures rows { OnOk result (enriched.new.clause.rows ≡ enriched.old.clause.rows ++ pair_rows (pairs (lent_factors factors.now))) }
    ensures sources { OnOk result (enriched.new.sources.items ≡ enriched.old.sources.items ++ pair_sources (pairs (lent_factors factors.now))) }
{
    for (n, first) in factors.iter().enumerate() {
        push_products_with(alloc, enriched, first, &factors[n..])?;
    }
    Ok(())
}

// The products of a factor with each of others.
fn push_products_with(
    alloc: Global,
    enriched: &mut Enriched,
    first: &Numbered<'_>,
    others: &[Numbered<'_>],
) -> Result<(), AllocError>
    ensures rows { OnOk result (enriched.new.clause.rows ≡ enriched.old.clause.rows ++ pair_rows (pairs_with (factor_of first.now) (lent_factors others.now))) }
    ensures sources { OnOk result (enriched.new.sources.items ≡ enriched.old.sources.items ++ pair_sources (pairs_with (factor_of first.now) (lent_factors others.now))) }
{
    for second in others {
        if has_room(first.poly, second.poly) {
            push_product(alloc, enriched, first, second)?;
        }
    }
    Ok(())
}

// Whether the product is within the limits.
fn has_room(first: &Poly, second: &Poly) -> bool
    ensures { result ≡ has_room first.now second.now }
{
    u64::from(first.spread()) * u64::from(second.spread()) <= SPREAD_ROOM
        && first.degree() + second.degree() <= DEGREE_ROOM
        && is_small_product(first.norm().unsigned_abs(), second.norm().unsigned_abs())
}

fn is_small_product(a: u128, b: u128) -> bool
    ensures { result ≡ nat_lt (a * b) (2 ^ 100) }
{
    match a.checked_mul(b) {
        Some(product) => product < NORM_ROOM,
        None => false,
    }
}

fn push_product(
    alloc: Global,
    enriched: &mut Enriched,
    first: &Numbered<'_>,
    second: &Numbered<'_>,
) -> Result<(), AllocError>
    requires { pair_has_room (factor_of first.now, factor_of second.now) ≡ true }
    ensures rows { OnOk result (enriched.new.clause.rows ≡ enriched.old.clause.rows ++ pair_row (factor_of first.now, factor_of second.now) ∷ []) }
    ensures sources { OnOk result (enriched.new.sources.items ≡ enriched.old.sources.items ++ pair_source (factor_of first.now, factor_of second.now) ∷ []) }
{
    let row = PRow {
        poly: first.poly.product(alloc, second.poly)?,
        op: Op::Ge,
    };
    let source = Psatz::Mul(
        Boxed::new(alloc, Psatz::Hyp(first.number))?,
        Boxed::new(alloc, Psatz::Hyp(second.number))?,
    );
    enriched.push(row, source)
}
