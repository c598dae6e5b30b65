ghost use Rattle.std.specs.Prelude.{◌≡◌, List, [], ◌∷◌, ◌++◌, ◌≤◌, length, false, Some, Result, IfOk, OnOk};
ghost use Rattle.cert_kit.specs.declared.row.PRow.{PRow, PRow as ARow};
ghost use Rattle.fm_elim.specs.Tidy.{End, put};
ghost use Rattle.mm_poly.specs.Poly.{Fits};
ghost use Rattle.cert_kit.specs.Cut.{cut_of};
ghost use Rattle.fm_elim.specs.declared.log.Log.{Log as ALog};
ghost use Rattle.fm_elim.specs.machine.Logging.{all_rows, Derives, IsOrigin, IsLive, CanKeep, IsLogged, Logs, LogsStep};
ghost use Rattle.fm_elim.specs.machine.Tidying.{rows_of, parallel_from, Stands, Feeds, IsTidying, StepsTo};

use crate::kept::Kept;
use crate::live::Live;
use crate::log::Log;
use crate::parallel::{is_tighter, parallel_place};
use crate::source::{Combination, Origin, Source};
use crate::stepped::Stepped;
use crate::tidied::Tidied;
use cert_kit::{PRow, false_row};
use std::alloc::{AllocError, Global};

// At most this many rows are left after tidying.
const MOST_ROWS: usize = 512;

impl Kept {
    /// Nothing was taken yet.
    pub fn new(alloc: Global) -> Kept
        ensures stands { Stands result.is_over result.rows.items [] }
        ensures rows { result.rows.items ≡ [] }
    {
        Kept {
            rows: Vec::new(alloc),
            is_over: false,
        }
    }

    /// Tidy rows are kept as they stand.
    pub fn standing(rows: Vec<Live>) -> Kept
        requires { length rows.items ≤ 512 }
        ensures over { result.is_over ≡ false }
        ensures rows { result.rows.items ≡ rows.items }
    {
        Kept {
            rows,
            is_over: false,
        }
    }

    /// Takes a row that stands.
    pub fn keep(&mut self, log: &mut Log<'_>, live: Live) -> Result<(), AllocError>
        requires logged { IsLogged log.old self.old.rows.items }
        requires live { IsLive log.old live }
        ensures feeds { OnOk result (Feeds false self.old self.new (live.row ∷ [])) }
        ensures logged { OnOk result (Logs false log.old log.new self.new.rows.items) }
    {
        if self.is_over {
            return Ok(());
        }
        self.put(log, live.row, Origin::Stands(live.number))?;
        Ok(())
    }

    /// Takes the row that a combination means, and answers whether its cut is constant and false. Such a row is the last
    /// one of the log.
    pub fn take(
        &mut self,
        alloc: Global,
        log: &mut Log<'_>,
        row: PRow,
        combination: Combination,
    ) -> Result<bool, AllocError>
        requires logged { IsLogged log.old self.old.rows.items }
        requires derives { Derives (all_rows log.old) combination row }
        ensures feeds { IfOk result (λ found. Feeds found self.old self.new (row ∷ [])) }
        ensures logged { IfOk result (λ found. Logs found log.old log.new self.new.rows.items) }
    {
        let cut = tidy_cut(alloc, row)?;
        let origin = origin_of(combination, cut.is_cut);
        let row = cut.row;
        if false_row(&row) {
            log.close(origin)?;
            return Ok(true);
        }
        if self.is_over || row.poly.is_constant() {
            return Ok(false);
        }
        self.put(log, row, origin)?;
        Ok(false)
    }

    /// What tidying comes to when nothing more comes.
    pub fn end(self) -> Stepped
        ensures steps { (answer : Result (List PRow) End) → IsTidying answer self [] → StepsTo result answer }
        ensures logged { (before after : ALog) → Logs false before after self.rows.items → LogsStep result before after }
    {
        if self.is_over {
            Stepped::Over
        } else {
            Stepped::Rows(self.rows)
        }
    }

    // Keeps a row, unless a parallel one before it has a constant that isn't greater.
    fn put(&mut self, log: &mut Log<'_>, row: PRow, origin: Origin) -> Result<(), AllocError>
        requires over { self.old.is_over ≡ false }
        requires logged { CanKeep log.old self.old.rows.items row origin }
        ensures stands { OnOk result (Stands self.new.is_over self.new.rows.items (put row (rows_of self.old.rows.items))) }
        ensures logged { OnOk result (Logs false log.old log.new self.new.rows.items) }
    {
        match parallel_place(&self.rows, &row) {
            None => self.append(log, row, origin),
            Some(place) => self.put_at(log, row, origin, place),
        }
    }

    // Keeps a row in place of the one at a place, where it has the lesser constant.
    fn put_at(
        &mut self,
        log: &mut Log<'_>,
        row: PRow,
        origin: Origin,
        place: usize,
    ) -> Result<(), AllocError>
        requires over { self.old.is_over ≡ false }
        requires parallel { parallel_from self.old.rows.items row 0 ≡ Some place }
        requires logged { CanKeep log.old self.old.rows.items row origin }
        ensures stands { OnOk result (Stands self.new.is_over self.new.rows.items (put row (rows_of self.old.rows.items))) }
        ensures logged { OnOk result (Logs false log.old log.new self.new.rows.items) }
    {
        if !is_tighter(&row, &self.rows[place].row) {
            return Ok(());
        }
        self.rows.remove(place);
        self.append(log, row, origin)
    }

    // Keeps a row after the others, where there is room.
    fn append(&mut self, log: &mut Log<'_>, row: PRow, origin: Origin) -> Result<(), AllocError>
        requires over { self.old.is_over ≡ false }
        requires logged { CanKeep log.old self.old.rows.items row origin }
        ensures stands { OnOk result (Stands self.new.is_over self.new.rows.items (rows_of self.old.rows.items ++ row ∷ [])) }
        ensures logged { OnOk result (Logs false log.old log.new self.new.rows.items) }
    {
        if self.rows.len() >= MOST_ROWS {
            self.is_over = true;
            return Ok(());
        }
        let number = log.number(origin)?;
        self.rows.push(Live { row, number })?;
        Ok(())
    }
}

// The cut of a row: the row itself where its content is 0 or 1.
fn tidy_cut(alloc: Global, row: PRow) -> Result<Tidied, AllocError>
    ensures cut { IfOk result (λ t. t.row ≡ cut_of row) }
    ensures changed { IfOk result (λ t. t.is_cut ≡ false → cut_of row ≡ row) }
    ensures itself { IfOk result (λ t. cut_of t.row ≡ t.row) }
    ensures fits { IfOk result (λ t. Fits t.row.poly) }
{
    if row.poly.content() <= 1 {
        return Ok(Tidied { row, is_cut: false });
    }
    let cut = row.into_cut(alloc)?;
    let _ = cut.poly.spread();
    Ok(Tidied {
        row: cut,
        is_cut: true,
    })
}

// A row that was given and is its own cut has a number.
fn origin_of(combination: Combination, is_cut: bool) -> Origin
    ensures { (log : ALog) (whole : ARow) → Derives (all_rows log) combination whole → (is_cut ≡ false → cut_of whole ≡ whole) → IsOrigin log (cut_of whole) result }
{
    match combination {
        Combination::Given(row) if !is_cut => Origin::Stands(row),
        _ => Origin::Made(Source {
            combination,
            is_cut,
        }),
    }
}
