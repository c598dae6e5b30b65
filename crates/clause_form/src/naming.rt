ghost use Rattle.std.specs.Prelude.{◌≡◌, ◌++◌, ◌<◌, ◌^◌, map, length, IfOk, OnOk};
ghost use Rattle.std.specs.List.Sorted.{IsStrictlySortedBy};
ghost use Rattle.std.specs.List.{AllByRecursion};
ghost use Rattle.std.specs.Ordering.{nat_cmp};
ghost use Rattle.mm_poly.specs.Poly.{HasPlaces};
ghost use Rattle.mm_poly.specs.Renaming.{by_table};
ghost use Rattle.cert_kit.specs.declared.row.PRow.{PRow as Row};
ghost use Rattle.cert_kit.specs.Order.{row_cmp};
ghost use Rattle.cert_kit.specs.Variables.{in_order, row_variables, variables_of};
ghost use Rattle.clause_form.specs.Naming.{renamed_row};
ghost use Rattle.clause_form.specs.Clauses.{named};
ghost use Rattle.clause_form.specs.machine.Numbering.{IsSetAt, Numbers};
ghost use Rattle.clause_form.specs.machine.Walk.{lent};

use crate::named::Named;
use cert_kit::{Clause, PRow, push_variables};
use sqlite_items::Items;
use std::alloc::{AllocError, Global};
use std::cmp::Ordering;

// The clause of an alternative, where it has fewer than 2^32 rows. The table is written over where the rows' variables
// have their places.
pub(crate) fn named(
    alloc: Global,
    rows: &[&PRow],
    table: &mut Vec<u32>,
) -> Result<Named, AllocError>
    ensures made { IfOk result (λ n. n ≡ named (lent rows.now)) }
    ensures short { IfOk result (λ n. length n.clause.rows < 2 ^ 32) }
{
    let vars = variables(alloc, rows)?;
    write_places(table, &vars)?;
    let rows = in_order(renumbered(alloc, rows, table)?);
    if rows.len() > u32::MAX as usize {
        return Err(AllocError);
    }
    Ok(Named {
        clause: Clause {
            rows: Items::from_vec(rows),
        },
        vars: Items::from_vec(vars),
    })
}

// The variables that occur in rows, rising.
fn variables(alloc: Global, rows: &[&PRow]) -> Result<Vec<u32>, AllocError>
    ensures { IfOk result (λ vars. vars.items ≡ variables_of (lent rows.now)) }
{
    let mut vars = Vec::new(alloc);
    for row in rows {
        push_variables(&mut vars, &row.poly)?;
    }
    vars.sort_unstable();
    vars.dedup();
    Ok(vars)
}

// Writes into a table, at the place of each of these variables, its place among them.
fn write_places(table: &mut Vec<u32>, vars: &[u32]) -> Result<(), AllocError>
    requires { IsStrictlySortedBy nat_cmp vars.now }
    ensures { OnOk result (Numbers table.new.items vars.now (length vars.now)) }
{
    for (place, var) in vars.iter().enumerate() {
        set_at(table, *var, place as u32)?;
    }
    Ok(())
}

fn set_at(table: &mut Vec<u32>, at: u32, number: u32) -> Result<(), AllocError>
    ensures { OnOk result (IsSetAt table.old.items table.new.items at number) }
{
    let at = at as usize;
    if at >= table.len() {
        table.resize(at + 1, 0)?;
    }
    table[at] = number;
    Ok(())
}

// The rows with their variables exchanged by those of a table.
fn renumbered(alloc: Global, rows: &[&PRow], table: &[u32]) -> Result<Vec<PRow>, AllocError>
    requires { AllByRecursion (λ (r : Row). HasPlaces (length table.now) r.poly) (lent rows.now) }
    ensures { IfOk result (λ out. out.items ≡ map (renamed_row (by_table table.now)) (lent rows.now)) }
{
    let mut out = Vec::with_capacity(alloc, rows.len())?;
    for row in rows {
        out.push(PRow {
            poly: row.poly.renamed(alloc, table)?,
            op: row.op,
        })?;
    }
    Ok(out)
}

// The rows in order, each once.
fn in_order(mut rows: Vec<PRow>) -> Vec<PRow>
    ensures { result.items ≡ in_order row_cmp rows.items }
{
    rows.sort_unstable_by(|first, second| first.order(second));
    rows.dedup_by(|next, last| next.order(last) == Ordering::Equal);
    rows
}
