ghost use Rattle.std.specs.Prelude.{◌≡◌, ◌-◌, [], ◌∷◌, ◌++◌, length, take, slice_get, OnOk, OnErr};
ghost use Rattle.std.specs.Option.{option_copied};
ghost use Rattle.cert_check.specs.Uses.{SameBut};

use cert_kit::PRow;
use mm_poly::Poly;
use std::alloc::{AllocError, Global};
use std::marker::Model;

/// The rows so far: those that were given, and those that steps appended.
#[derive(Drop)]
pub struct Rows<'a> {
    given: &'a [PRow],
    more: Vec<PRow>,
}

impl<'a> Model for Rows<'a> {
    ghost use Rattle.std.specs.Prelude.{List, ◌++◌};
    ghost use Rattle.cert_kit.specs.declared.row.PRow.{PRow};

    ghost Value = { List PRow };

    ghost view = { λ r. r.given.now ++ r.more.items };
}

impl<'a> Rows<'a> {
    /// The given rows alone.
    pub fn new(alloc: Global, given: &'a [PRow]) -> Rows<'a>
        ensures { result ≡ given.now }
    {
        Rows {
            given,
            more: Vec::new(alloc),
        }
    }

    /// The row of this number, from 0.
    pub fn get(&self, n: usize) -> Option<&PRow>
        ensures { option_copied result ≡ slice_get self.now n }
    {
        let given = self.given.len();
        if n < given {
            Some(&self.given[n])
        } else {
            self.more.get(n - given)
        }
    }

    /// The last row.
    pub fn last(&self) -> Option<&PRow>
        ensures { option_copied result ≡ slice_get self.now (length self.now - 1) }
    {
        self.more.last().or(self.given.last())
    }

    /// How many rows there are.
    pub fn len(&self) -> usize
        ensures { result ≡ length self.now }
    {
        self.given.len() + self.more.len()
    }

    /// The first rows alone.
    pub fn truncate(&mut self, len: usize)
        ensures { self.new ≡ take len self.old }
    {
        let given = self.given.len();
        if len < given {
            self.given = &self.given[..len];
            self.more.clear();
        } else {
            self.more.truncate(len - given);
        }
    }

    /// One more row at the end.
    pub fn push(&mut self, row: PRow) -> Result<(), AllocError>
        ensures ok { OnOk result (self.new ≡ self.old ++ row ∷ []) }
        ensures err { OnErr result (self.new ≡ self.old) }
    {
        self.more.push(row)?;
        Ok(())
    }

    /// Lets go of the polynomial of a row that isn't one of the given ones. Its place stays.
    pub fn let_go(&mut self, alloc: Global, n: usize) -> Result<(), AllocError>
        ensures { OnOk result (SameBut n self.old self.new) }
    {
        let given = self.given.len();
        if n < given || n - given >= self.more.len() {
            return Ok(());
        }
        self.more[n - given].poly = Poly::constant(alloc, 0)?;
        Ok(())
    }
}
