ghost use Rattle.std.specs.Prelude.{◌≡◌, ◌↔◌, ◌^◌, ◌<◌, ℕ, ℤ, map, length, true, Some, IfOk};
ghost use Rattle.std.specs.List.{AllByRecursion};
ghost use Rattle.cert_kit.specs.declared.cert.Step.TheVariants.{Rat};
ghost use Rattle.cert_kit.specs.Row.{Solves};
ghost use Rattle.cert_kit.specs.Meaning.{meaning, measure};
ghost use Rattle.cert_kit.specs.Making.{Makes};
ghost use Rattle.nia_products.specs.Enriching.{added, sources, enriched};

use crate::enriched::Enriched;
use crate::products::add_products;
use crate::squares::add_squares;
use cert_kit::{Clause, have_bounds};
use std::alloc::{AllocError, Global};

/// A clause with the rows that its square monomials and the products of its first 20 inequalities give, and an
/// expression for each added row.
///
/// The added rows are first `m >= 0` for each square monomial, in monomial order, and then the products within the
/// limits: norms whose product is below 2^100, spreads whose product is at most 4,096, and degrees whose sum is at most 8.
pub fn enrich(alloc: Global, clause: &Clause) -> Result<Enriched, AllocError>
    requires rows { length clause.now.rows < 2 ^ 32 }
    ensures clause { IfOk result (λ e. e.clause.rows ≡ enriched clause.now.rows) }
    ensures sources { IfOk result (λ e. e.sources.items ≡ sources clause.now.rows) }
    // Each expression means its row.
    ensures means { IfOk result (λ e. map (λ s. meaning s clause.now.rows) e.sources.items ≡ map Some (added clause.now.rows)) }
    ensures within { IfOk result (λ e. AllByRecursion (λ s. (measure s clause.now.rows).within ≡ true) e.sources.items) }
    ensures makes { IfOk result (λ e. Makes clause.now.rows (map Rat e.sources.items) e.clause.rows) }
    ensures solutions { IfOk result (λ e. (x : ℕ → ℤ) → Solves x clause.now.rows ↔ Solves x e.clause.rows) }
{
    let rows = clause.rows.as_slice();
    have_bounds(rows);
    let mut enriched = Enriched::new(alloc, clause)?;
    add_squares(alloc, &mut enriched, rows)?;
    add_products(alloc, &mut enriched, rows)?;
    Ok(enriched)
}
