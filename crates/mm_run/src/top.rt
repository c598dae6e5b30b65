ghost use Rattle.std.specs.Prelude.{◌≡◌, ◌+◌, ◌<◌, ◌≤◌, ◌⊎◌, ℕ, [], map, length, IfSome, IsSomeAnd, string_bytes};
ghost use Rattle.std.specs.Io.KnownBytes.{Appends, IsAtEnd};
ghost use Rattle.mm_io.specs.Cause.{HasRisen};
ghost use Rattle.mm_io.specs.Reading.{TakesAtMost};
ghost use Rattle.mm_io.specs.Writing.{AppendsPrefix};
ghost use Rattle.mm_run.specs.declared.words.Command.{Command as ACommand};
ghost use Rattle.mm_run.specs.Words.{Asks, input_limit};
ghost use Rattle.mm_run.specs.Ending.{Ends, WritesPrefix, WritesAccepted, IsWhole, IsSettledBy, IsRefusal, IsEndingStatus, text_of, status_of};

use crate::called::{Called, called_for};
use crate::ending::{Ending, status, text};
use crate::fail::RunFail;
use mm_io::{Disk, Gate, Sink, Source, write_all};
use report_check::good_goals_are_right;
use session_serve::{Caches, proved_sessions_are_valid};
use std::alloc::Global;
use std::thread::Threads;

/// The status for want of memory.
pub const OUT_OF_MEMORY: u8 = 3;

const DEVICE_FAILED: u8 = 5;

/// The status of a run, and the disks that were handed in.
#[derive(Drop)]
pub struct Ended<D> {
    pub status: u8,
    pub caches: Caches<D>,
}

/// Runs the program. With the one word `check` it reads rows and a certificate from `goals`, and writes the verdict to
/// `out`. With `prove`, or `prove --turns N`, it reads a goal file and writes the report on it: for each goal the
/// certificates of its clauses, an assignment that makes it false, or why neither is given. With `recheck` it reads such a
/// report, and writes `accepted`, or `rejected` with the numbers of the first session and goal that isn't good. Status 0
/// is for `accepted`, or a report on which each goal is proved, 1 for the other verdicts and reports, 2 for a refusal, 3 for
/// want of memory, and 5 for a device that failed.
pub fn run<R: Threads + Sync, S: Source, K: Sink, D: Disk + Send, G: Gate + Sync>(
    rt: &R,
    alloc: Global,
    words: &[String],
    goals: &mut S,
    out: &mut K,
    caches: Caches<D>,
    gate: &G,
) -> Ended<D>
    // The whole text was written that the words and the bytes call for, and the status is that of the text.
    ensures ended { IsWhole result.status → Ends (map string_bytes words.now) (S.left goals.old) (K.written out.old) (K.written out.new) result.status }
    // Status 0 comes only where no integer point solves the rows, or each goal of the file holds for all values, or each
    // goal of the report that it says is proved does, and each that it says is refuted is false at its assignment.
    ensures sound { result.status ≡ 0 → (c : ACommand) × Asks (map string_bytes words.now) c × IfSome (S.left goals.old) (IsSettledBy c) }
    // The report that is written on goals is accepted when it is checked.
    ensures accepted { result.status < 2 → (turns : ℕ) → Asks (map string_bytes words.now) (ACommand.Prove turns) → IfSome (S.left goals.old) (λ bytes. WritesAccepted (K.written out.old) (K.written out.new)) }
    // A refusal comes wherever it should.
    ensures refused { IsWhole result.status → IsRefusal (map string_bytes words.now) (S.left goals.old) → result.status ≡ 2 }
    // A verdict or a report is written after the input was read to its end; so is a place, where the input is known not
    // to be too long.
    ensures read { result.status < 2 → IsAtEnd (S.left goals.new) }
    ensures whole { IsWhole result.status → (c : ACommand) → Asks (map string_bytes words.now) c → IsSomeAnd (S.left goals.old) (λ bytes. length bytes ≤ input_limit c) → IsAtEnd (S.left goals.new) }
    // At most one byte past the command's limit is taken, and none for the usage line.
    ensures taken { (c : ACommand) → Asks (map string_bytes words.now) c → TakesAtMost (input_limit c + 1) (S.left goals.old) (S.left goals.new) }
    ensures untouched { ((c : ACommand) → Asks (map string_bytes words.now) c → ⊥) → S.left goals.new ≡ S.left goals.old }

    ensures memory { result.status ≡ 3 → Appends (K.written out.old) (K.written out.new) [] }
    ensures fault { result.status ≡ 5 → HasRisen (S.faults goals.old) (S.faults goals.new) ⊎ HasRisen (K.faults out.old) (K.faults out.new) }
    // Where a device failed, a prefix of the text was written; nothing, where it wasn't the sink.
    ensures prefix { result.status ≡ 5 → WritesPrefix (map string_bytes words.now) (S.left goals.old) (K.written out.old) (K.written out.new) }
    ensures source { result.status ≡ 5 → (HasRisen (K.faults out.old) (K.faults out.new) → ⊥) → Appends (K.written out.old) (K.written out.new) [] }

    // The disks are given back as they were handed in.
    ensures caches { result.caches ≡ caches }
    ensures source_kept { S.faults goals.old ≤ S.faults goals.new }
    ensures sink_kept { K.faults out.old ≤ K.faults out.new }
{
    proved_sessions_are_valid();
    good_goals_are_right();
    let Called { ending, caches } = called_for(rt, alloc, words, goals, caches, gate);
    let status = match ending {
        Ok(ending) => finish(alloc, out, ending),
        Err(RunFail::NoMemory) => OUT_OF_MEMORY,
        Err(RunFail::Device) => DEVICE_FAILED,
    };
    Ended { status, caches }
}

// Writes the text, and answers the status.
fn finish<K: Sink>(alloc: Global, out: &mut K, ending: Ending) -> u8
    ensures written { result ≡ status_of ending → Appends (K.written out.old) (K.written out.new) (text_of ending) }
    ensures status { IsEndingStatus ending result }
    ensures memory { result ≡ 3 → Appends (K.written out.old) (K.written out.new) [] }
    ensures fault { result ≡ 5 → HasRisen (K.faults out.old) (K.faults out.new) }
    ensures prefix { result ≡ 5 → AppendsPrefix (K.written out.old) (K.written out.new) (text_of ending) }
    ensures kept { K.faults out.old ≤ K.faults out.new }
{
    let status = status(&ending);
    let Ok(text) = text(alloc, ending) else {
        return OUT_OF_MEMORY;
    };
    match write_all(out, &text) {
        Ok(()) => status,
        Err(_) => DEVICE_FAILED,
    }
}
