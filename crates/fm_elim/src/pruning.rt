ghost use Rattle.std.specs.Prelude.{◌≡◌, ◌+◌, ◌<◌, length, true, slice_get, Some, IfOk, OnOk};
ghost use Rattle.std.specs.List.{AllByRecursion};
ghost use Rattle.cert_kit.specs.Acceptance.{ends_false};
ghost use Rattle.fm_elim.specs.machine.Logging.{IsSound, Contradict, all_rows};
ghost use Rattle.fm_elim.specs.machine.Pruning.{new_number, renumbered, names_of, IsPruning, IsMade, IsPlaced, IsPlacedNext};

use crate::log::Log;
use crate::marks::marks;
use crate::pruned::Pruned;
use crate::source::{Combination, Source};
use std::alloc::{AllocError, Global};

/// The sources that the last row needs, over the new numbers of their rows.
pub fn pruned(alloc: Global, log: &Log<'_>) -> Result<Vec<Source>, AllocError>
    requires sound { IsSound log.now }
    requires ends { ends_false (all_rows log.now) ≡ true }
    ensures { IfOk result (λ sources. Contradict log.now.given.now sources.items) }
{
    let count = log.sources.len();
    if count == 0 {
        return Ok(Vec::new(alloc));
    }
    let needed = marks(alloc, log)?;
    let mut pruned = Pruned {
        sources: Vec::new(alloc),
        places: Vec::with_capacity(alloc, count)?,
    };
    for n in 0..count - 1 {
        pruned.keep(log, log.sources[n], needed[n])?;
    }
    let sources = pruned.end(log, log.sources[count - 1])?;
    Ok(sources)
}

impl Pruned {
    // Keeps a source where it is needed.
    fn keep(&mut self, log: &Log<'_>, source: Source, is_needed: bool) -> Result<(), AllocError>
        requires pruning { IsPruning log.now self.old }
        requires made { IsMade log.now source (length self.old.places.items) }
        requires names { is_needed ≡ true → AllByRecursion (IsPlaced (length log.now.given.now) self.old.places.items) (names_of source.combination) }
        ensures pruning { OnOk result (IsPruning log.now self.new) }
        ensures places { OnOk result (IsPlacedNext is_needed self.old.places.items self.new.places.items) }
    {
        if !is_needed {
            self.places.push(None)?;
            return Ok(());
        }
        let combination = self.moved(log.given.len(), source.combination);
        let number = log.given.len() + self.sources.len();
        if number > u32::MAX as usize {
            return Err(AllocError);
        }
        self.sources.push(Source {
            combination,
            is_cut: source.is_cut,
        })?;
        self.places.push(Some(number as u32))?;
        Ok(())
    }

    // The sources with the last one.
    fn end(self, log: &Log<'_>, last: Source) -> Result<Vec<Source>, AllocError>
        requires pruning { IsPruning log.now self }
        requires sound { IsSound log.now }
        requires ends { ends_false (all_rows log.now) ≡ true }
        requires last { slice_get log.now.sources.items (length self.places.items) ≡ Some last }
        requires count { length log.now.sources.items ≡ length self.places.items + 1 }
        requires names { AllByRecursion (IsPlaced (length log.now.given.now) self.places.items) (names_of last.combination) }
        ensures { IfOk result (λ sources. Contradict log.now.given.now sources.items) }
    {
        let combination = self.moved(log.given.len(), last.combination);
        let mut sources = self.sources;
        sources.push(Source {
            combination,
            is_cut: last.is_cut,
        })?;
        Ok(sources)
    }

    // A combination over the new numbers of its rows, each of which has one.
    fn moved(&self, given: usize, combination: Combination) -> Combination
        requires { AllByRecursion (IsPlaced given self.now.places.items) (names_of combination) }
        ensures { renumbered (new_number given self.now.places.items) combination ≡ Some result }
    {
        match self.renumbered(given, combination) {
            Some(moved) => moved,
            None => unreachable!(),
        }
    }

    // A combination over the new numbers of its rows, where each has one.
    fn renumbered(&self, given: usize, combination: Combination) -> Option<Combination>
        ensures { result ≡ renumbered (new_number given self.now.places.items) combination }
    {
        match combination {
            Combination::Given(row) => Some(Combination::Given(self.number(given, row)?)),
            Combination::Sum(row, times, equality) => Some(Combination::Sum(
                self.number(given, row)?,
                times,
                self.number(given, equality)?,
            )),
            Combination::Pair(first, lower, second, upper) => Some(Combination::Pair(
                first,
                self.number(given, lower)?,
                second,
                self.number(given, upper)?,
            )),
            Combination::Half(row) => Some(Combination::Half(self.number(given, row)?)),
            Combination::OtherHalf(row) => Some(Combination::OtherHalf(self.number(given, row)?)),
        }
    }

    // The new number of a row, where it has one.
    fn number(&self, given: usize, row: u32) -> Option<u32>
        ensures { result ≡ new_number given self.now.places.items row }
    {
        let number = row as usize;
        if number < given {
            return Some(row);
        }
        match self.places.get(number - given) {
            Some(place) => *place,
            None => None,
        }
    }
}
