ghost use Rattle.std.specs.Prelude.{◌≡◌, cond, OnOk};
ghost use Rattle.fm_elim.specs.Unknowns.{with_unknown, with_unknowns};
ghost use Rattle.mm_poly.specs.Mono.{is_constant};
ghost use Rattle.fm_elim.specs.machine.Choice.{place_from};

use mm_poly::{Mono, Term};
use std::alloc::AllocError;
use std::cmp::Ordering;

/// Adds the unknowns of terms.
pub fn add_unknowns(found: &mut Vec<Mono>, terms: &[Term]) -> Result<(), AllocError>
    ensures { OnOk result (found.new.items ≡ with_unknowns terms.now found.old.items) }
{
    for n in (0..terms.len()).rev() {
        add_unless_constant(found, &terms[n].mono)?;
    }
    Ok(())
}

fn add_unless_constant(found: &mut Vec<Mono>, mono: &Mono) -> Result<(), AllocError>
    ensures { OnOk result (found.new.items ≡ cond (is_constant mono.now) found.old.items (with_unknown mono.now found.old.items)) }
{
    if mono.is_empty() {
        return Ok(());
    }
    add_unknown(found, mono)?;
    Ok(())
}

// Adds an unknown at its place, where it isn't there yet.
fn add_unknown(found: &mut Vec<Mono>, mono: &Mono) -> Result<(), AllocError>
    ensures { OnOk result (found.new.items ≡ with_unknown mono.now found.old.items) }
{
    match place_of(found, mono) {
        None => Ok(()),
        Some(place) => Ok(found.insert(place, mono.copy()?)?),
    }
}

// The place where a monomial is to be put, none where it is there.
fn place_of(found: &[Mono], mono: &Mono) -> Option<usize>
    ensures { result ≡ place_from found.now mono.now 0 }
{
    for (place, unknown) in found.iter().enumerate() {
        match mono.order(unknown) {
            Ordering::Less => return Some(place),
            Ordering::Equal => return None,
            Ordering::Greater => {}
        }
    }
    Some(found.len())
}
