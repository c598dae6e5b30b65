ghost use Rattle.std.specs.Prelude.{◌≡◌, List, [], ◌∷◌, ◌++◌, IfOk, OnOk};
ghost use Rattle.fm_elim.specs.machine.Sides.{IsSizeOf, IsSplit, AreParts};
ghost use Rattle.fm_elim.specs.declared.live.Live.{Live as ALive};

use crate::live::Live;
use crate::room::{Size, size_of};
use mm_poly::Mono;
use std::alloc::{AllocError, Global};

/// A row with an unknown, the magnitude of the unknown's coefficient, and the row's size.
#[derive(Debug, Drop)]
pub struct Side {
    pub live: Live,
    pub coeff: u128,
    pub size: Size,
}

/// Rows without an unknown, its lower rows and its upper rows, in order.
#[derive(Debug, Drop)]
pub struct Parts {
    pub without: Vec<Live>,
    pub lowers: Vec<Side>,
    pub uppers: Vec<Side>,
}

impl Parts {
    fn new(alloc: Global) -> Parts
        ensures without { result.without.items ≡ [] }
        ensures lowers { result.lowers.items ≡ [] }
        ensures uppers { result.uppers.items ≡ [] }
    {
        Parts {
            without: Vec::new(alloc),
            lowers: Vec::new(alloc),
            uppers: Vec::new(alloc),
        }
    }

    // Puts a row with the others of its kind.
    fn push(&mut self, live: Live, unknown: &Mono) -> Result<(), AllocError>
        ensures rows { OnOk result ((lives : List ALive) → IsSplit unknown.now lives self.old → IsSplit unknown.now (lives ++ live ∷ []) self.new) }
        ensures lives { OnOk result ((lives : List ALive) → AreParts unknown.now lives self.old → AreParts unknown.now (lives ++ live ∷ []) self.new) }
    {
        let coeff = live.row.poly.coefficient(unknown);
        if coeff == 0 {
            return Ok(self.without.push(live)?);
        }
        let side = side_of(live, coeff.unsigned_abs());
        if coeff > 0 {
            return Ok(self.lowers.push(side)?);
        }
        Ok(self.uppers.push(side)?)
    }
}

fn side_of(live: Live, coeff: u128) -> Side
    ensures live { result.live ≡ live }
    ensures coeff { result.coeff ≡ coeff }
    ensures size { IsSizeOf result.size live.row.poly }
{
    let size = size_of(&live.row.poly);
    Side { live, coeff, size }
}

/// The rows, split by an unknown.
pub fn split(alloc: Global, rows: Vec<Live>, unknown: &Mono) -> Result<Parts, AllocError>
    ensures rows { IfOk result (IsSplit unknown.now rows.items) }
    ensures lives { IfOk result (AreParts unknown.now rows.items) }
{
    let mut parts = Parts::new(alloc);
    for live in rows {
        parts.push(live, unknown)?;
    }
    Ok(parts)
}
