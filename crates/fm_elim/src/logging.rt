ghost use Rattle.std.specs.Prelude.{◌≡◌, ◌+◌, [], ◌∷◌, ◌++◌, length, IfOk, OnOk};
ghost use Rattle.mm_poly.specs.Poly.{Fits};
ghost use Rattle.cert_kit.specs.declared.row.PRow.{PRow as ARow};
ghost use Rattle.fm_elim.specs.machine.Logging.{IsSound, IsOrigin, IsNumbered, IsPushed};

use crate::log::Log;
use crate::source::{Combination, Origin, Source};
use cert_kit::PRow;
use std::alloc::{AllocError, Global};

impl<'a> Log<'a> {
    /// Nothing was made yet.
    pub fn new(alloc: Global, given: &'a [PRow]) -> Log<'a>
        ensures given { result.given.now ≡ given.now }
        ensures sources { result.sources.items ≡ [] }
    {
        Log {
            given,
            sources: Vec::new(alloc),
        }
    }

    // Logs a row, and answers its number. Past 2^32 rows it answers want of memory.
    fn push(&mut self, source: Source) -> Result<u32, AllocError>
        ensures given { OnOk result (self.new.given.now ≡ self.old.given.now) }
        ensures sources { OnOk result (self.new.sources.items ≡ self.old.sources.items ++ source ∷ []) }
        ensures number { IfOk result (λ n. n ≡ length self.old.given.now + length self.old.sources.items) }
    {
        let number = self.given.len() + self.sources.len();
        if number > u32::MAX as usize {
            return Err(AllocError);
        }
        self.sources.push(source)?;
        Ok(number as u32)
    }

    /// The number of a row of this origin.
    pub fn number(&mut self, origin: Origin) -> Result<u32, AllocError>
        requires { IsSound self.old }
        ensures { IfOk result (λ n. (row : ARow) → IsOrigin self.old row origin → IsNumbered self.old self.new row n) }
    {
        match origin {
            Origin::Stands(number) => Ok(number),
            Origin::Made(source) => {
                let number = self.push(source)?;
                Ok(number)
            }
        }
    }

    /// Logs a row as the last one, also where it has a number.
    pub fn close(&mut self, origin: Origin) -> Result<(), AllocError>
        requires { IsSound self.old }
        ensures { OnOk result ((row : ARow) → Fits row.poly → IsOrigin self.old row origin → IsPushed self.old self.new row) }
    {
        match origin {
            Origin::Stands(number) => {
                self.push(Source {
                    combination: Combination::Given(number),
                    is_cut: false,
                })?;
                Ok(())
            }
            Origin::Made(source) => {
                self.push(source)?;
                Ok(())
            }
        }
    }
}
