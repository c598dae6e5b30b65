use crate::expression::within;
use crate::stop::{Stop, push};
use crate::system::System;
use crate::table::{number_at, plus_times};
use crate::tableau::unknown_of;
use mm_num::Frac;
use mm_poly::{Mono, Poly, Term};
use std::alloc::Global;

/// A linear polynomial of the unknowns as one of the variables.
pub fn over_variables(alloc: Global, system: &System, poly: &Poly) -> Result<Poly, Stop> {
    let mut terms = Vec::with_capacity(alloc, system.forms.len())?;
    for (v, form) in system.forms.iter().enumerate() {
        let mut coeff = 0;
        for term in poly.unknowns() {
            coeff = plus_times(coeff, term.coeff, number_at(form, unknown_of(&term.mono)))?;
        }
        let Ok(v) = u32::try_from(v) else {
            return Err(Stop::Lost);
        };
        if coeff != 0 {
            push(
                &mut terms,
                Term {
                    coeff,
                    mono: Mono::var(alloc, v)?,
                },
            )?;
        }
    }
    let constant = poly.constant_term();
    if constant != 0 {
        push(
            &mut terms,
            Term {
                coeff: constant,
                mono: Mono::one(alloc),
            },
        )?;
    }
    within(Poly::joined(alloc, terms))
}

/// The variables' values where these unknowns have whole values, and the others 0.
pub fn values(
    alloc: Global,
    system: &System,
    unknowns: &[u32],
    point: &[Frac],
) -> Result<Vec<i128>, Stop> {
    let mut out = Vec::with_capacity(alloc, system.values.len())?;
    for (v, row) in system.variables.iter().enumerate() {
        let mut value = number_at(&system.values, v);
        for (unknown, at) in unknowns.iter().zip(point) {
            value = plus_times(value, number_at(row, *unknown as usize), at.num())?;
        }
        push(&mut out, value)?;
    }
    Ok(out)
}
