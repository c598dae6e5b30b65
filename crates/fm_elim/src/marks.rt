ghost use Rattle.std.specs.Prelude.{◌≡◌, ◌+◌, ◌<◌, ℕ, length, true, slice_get, Some, [], ◌∷◌, IfOk};
ghost use Rattle.fm_elim.specs.machine.Logging.{IsSound};
ghost use Rattle.fm_elim.specs.machine.Pruning.{names_of, AreClosed, Marks};

use crate::log::Log;
use crate::source::Combination;
use std::alloc::{AllocError, Global};

/// Whether the last row needs each row that was made.
pub fn marks(alloc: Global, log: &Log<'_>) -> Result<Vec<bool>, AllocError>
    requires { IsSound log.now }
    ensures count { IfOk result (λ marks. length marks.items ≡ length log.now.sources.items) }
    ensures last { IfOk result (λ marks. (k : ℕ) → length log.now.sources.items ≡ k + 1 → slice_get marks.items k ≡ Some true) }
    ensures closed { IfOk result (λ marks. AreClosed (length log.now.given.now) log.now.sources.items marks.items 0) }
{
    let count = log.sources.len();
    let mut marks = Vec::new(alloc);
    marks.resize(count, false)?;
    mark_last(&mut marks);
    for n in (0..count).rev() {
        mark_needed(&mut marks, log, n);
    }
    Ok(marks)
}

fn mark_last(marks: &mut [bool])
    ensures count { length marks.new ≡ length marks.old }
    ensures last { (k : ℕ) → length marks.old ≡ k + 1 → slice_get marks.new k ≡ Some true }
{
    let count = marks.len();
    if count == 0 {
        return;
    }
    marks[count - 1] = true;
}

// Marks the rows that the source at a place names, if it is marked.
fn mark_needed(marks: &mut [bool], log: &Log<'_>, n: usize)
    requires sound { IsSound log.now }
    requires place { n < length log.now.sources.items }
    requires count { length marks.old ≡ length log.now.sources.items }
    requires closed { AreClosed (length log.now.given.now) log.now.sources.items marks.old (n + 1) }
    ensures count { length marks.new ≡ length marks.old }
    ensures grows { (j : ℕ) → slice_get marks.old j ≡ Some true → slice_get marks.new j ≡ Some true }
    ensures closed { AreClosed (length log.now.given.now) log.now.sources.items marks.new n }
{
    let is_needed = marks[n];
    if !is_needed {
        return;
    }
    mark_rows(marks, log.given.len(), log.sources[n].combination);
}

// Marks the rows that a combination names.
fn mark_rows(marks: &mut [bool], given: usize, combination: Combination)
    ensures { Marks given (names_of combination) marks.old marks.new }
{
    match combination {
        Combination::Given(row) => mark(marks, given, row),
        Combination::Sum(first, _, second) => mark_both(marks, given, first, second),
        Combination::Pair(_, first, _, second) => mark_both(marks, given, first, second),
        Combination::Half(row) => mark(marks, given, row),
        Combination::OtherHalf(row) => mark(marks, given, row),
    }
}

fn mark_both(marks: &mut [bool], given: usize, first: u32, second: u32)
    ensures { Marks given (first ∷ second ∷ []) marks.old marks.new }
{
    mark(marks, given, first);
    mark(marks, given, second);
}

// Marks a row, if it was made.
fn mark(marks: &mut [bool], given: usize, row: u32)
    ensures { Marks given (row ∷ []) marks.old marks.new }
{
    let row = row as usize;
    if row < given {
        return;
    }
    let place = row - given;
    if place >= marks.len() {
        return;
    }
    marks[place] = true;
}
