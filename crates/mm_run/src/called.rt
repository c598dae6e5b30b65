//! What the words and the input call for.

ghost use Rattle.std.specs.Prelude.{◌≡◌, ◌+◌, ◌^◌, ◌<◌, ◌≤◌, ℕ, map, length, IsOk, IfOk, IsSomeAnd, IsErrOf, string_bytes};
ghost use Rattle.std.specs.Io.KnownBytes.{IsAtEnd};
ghost use Rattle.mm_io.specs.Cause.{HasRisen};
ghost use Rattle.mm_io.specs.Reading.{TakesAtMost};
ghost use Rattle.goal_text.specs.GoalsRead.{AreReadable};
ghost use Rattle.session_serve.specs.Report.{AreReplies};
ghost use Rattle.mm_run.specs.declared.words.Command.{Command as ACommand};
ghost use Rattle.mm_run.specs.Words.{Asks, input_limit};
ghost use Rattle.mm_run.specs.machine.Calling.{refusal_of, Tells};
ghost use Rattle.mm_run.specs.Ending.{InputCallsFor, CallsFor, status_of};

use crate::ending::Ending;
use crate::fail::RunFail;
use crate::words::{Command, command_of};
use cert_check::check;
use cert_text::{CheckText, read_check};
use goal_text::{RawSession, TextFail, read_file, readable};
use mm_io::{Disk, Gate, ReadFail, Source, read_all};
use report_check::{Recheck, recheck, served_reports_are_accepted};
use session_serve::{
    Caches, Served, all_proved, good_answers_are_replies, good_answers_are_right, print_report,
    serve_all,
};
use std::alloc::Global;
use std::thread::Threads;

/// An ending, where there is one, and the disks that were handed in.
#[derive(Drop)]
pub struct Called<D> {
    pub ending: Result<Ending, RunFail>,
    pub caches: Caches<D>,
}

/// What the words and the input call for.
pub fn called_for<R: Threads + Sync, S: Source, D: Disk + Send, G: Gate + Sync>(
    rt: &R,
    alloc: Global,
    words: &[String],
    goals: &mut S,
    caches: Caches<D>,
    gate: &G,
) -> Called<D>
    ensures due { IfOk result.ending (CallsFor (map string_bytes words.now) (S.left goals.old)) }
    ensures read { IfOk result.ending (λ ending. status_of ending < 2 → IsAtEnd (S.left goals.new)) }
    ensures whole { IsOk result.ending → (c : ACommand) → Asks (map string_bytes words.now) c → IsSomeAnd (S.left goals.old) (λ bytes. length bytes ≤ input_limit c) → IsAtEnd (S.left goals.new) }
    ensures taken { (c : ACommand) → Asks (map string_bytes words.now) c → TakesAtMost (input_limit c + 1) (S.left goals.old) (S.left goals.new) }
    ensures untouched { ((c : ACommand) → Asks (map string_bytes words.now) c → ⊥) → S.left goals.new ≡ S.left goals.old }
    ensures fault { IsErrOf result.ending RunFail.Device → HasRisen (S.faults goals.old) (S.faults goals.new) }
    ensures kept { S.faults goals.old ≤ S.faults goals.new }
    ensures caches { result.caches ≡ caches }
{
    let Some(command) = command_of(words) else {
        return Called {
            ending: Ok(Ending::Usage),
            caches,
        };
    };
    match read_all(alloc, goals, limit_of(command)) {
        Ok(bytes) => on_input(rt, alloc, command, &bytes, caches, gate),
        Err(ReadFail::TooLong) => Called {
            ending: Ok(Ending::TooLong),
            caches,
        },
        Err(ReadFail::Fault) => Called {
            ending: Err(RunFail::Device),
            caches,
        },
        Err(ReadFail::NoMemory) => Called {
            ending: Err(RunFail::NoMemory),
            caches,
        },
    }
}

// The most input that a command reads.
fn limit_of(command: Command) -> u64
    ensures { result ≡ input_limit command }
{
    match command {
        Command::Check => 1 << 28,
        Command::Prove(_) => 1 << 24,
        Command::Recheck => 1 << 28,
    }
}

// What input that isn't too long calls for.
fn on_input<R: Threads + Sync, D: Disk + Send, G: Gate + Sync>(
    rt: &R,
    alloc: Global,
    command: Command,
    bytes: &[u8],
    caches: Caches<D>,
    gate: &G,
) -> Called<D>
    ensures due { IfOk result.ending (InputCallsFor command bytes.now) }
    ensures no_fault { IsErrOf result.ending RunFail.Device → ⊥ }
    ensures caches { result.caches ≡ caches }
{
    match command {
        Command::Check => Called {
            ending: on_check(alloc, bytes),
            caches,
        },
        Command::Prove(turns) => on_goals(rt, alloc, bytes, turns, caches, gate),
        Command::Recheck => Called {
            ending: on_report(alloc, bytes),
            caches,
        },
    }
}

// What the bytes of a check call for.
fn on_check(alloc: Global, bytes: &[u8]) -> Result<Ending, RunFail>
    ensures due { IfOk result (InputCallsFor Command.Check bytes.now) }
    ensures no_fault { IsErrOf result RunFail.Device → ⊥ }
{
    match read_check(alloc, bytes) {
        Ok((clause, cert)) => match check(alloc, &clause, &cert) {
            Ok(verdict) => Ok(Ending::Checked(verdict)),
            Err(_) => Err(RunFail::NoMemory),
        },
        Err(CheckText::Bad { at }) => Ok(Ending::Bad(at)),
        Err(CheckText::NoMemory) => Err(RunFail::NoMemory),
    }
}

// What the bytes of a report call for.
fn on_report(alloc: Global, bytes: &[u8]) -> Result<Ending, RunFail>
    ensures due { IfOk result (InputCallsFor Command.Recheck bytes.now) }
    ensures no_fault { IsErrOf result RunFail.Device → ⊥ }
{
    match recheck(alloc, bytes) {
        Ok(Recheck::Accepted) => Ok(Ending::AllGood),
        Ok(Recheck::Rejected { session, goal }) => Ok(Ending::NotGood { session, goal }),
        Ok(Recheck::Bad { at }) => Ok(Ending::Bad(at)),
        Err(_) => Err(RunFail::NoMemory),
    }
}

// What the bytes of a goal file call for.
fn on_goals<R: Threads + Sync, D: Disk + Send, G: Gate + Sync>(
    rt: &R,
    alloc: Global,
    bytes: &[u8],
    turns: u32,
    caches: Caches<D>,
    gate: &G,
) -> Called<D>
    ensures due { IfOk result.ending (InputCallsFor (Command.Prove turns) bytes.now) }
    ensures no_fault { IsErrOf result.ending RunFail.Device → ⊥ }
    ensures caches { result.caches ≡ caches }
{
    let sessions = match read_file(alloc, bytes) {
        Ok(sessions) => sessions,
        Err(fail) => return Called {
            ending: on_refusal(fail),
            caches,
        },
    };
    readable();
    match serve_all(rt, alloc, sessions.as_slice(), caches, turns, gate) {
        Ok(served) => {
            good_answers_are_replies();
            good_answers_are_right();
            served_reports_are_accepted();
            let ending = reported(alloc, sessions.as_slice(), &served);
            Called {
                ending,
                caches: served.caches,
            }
        }
        Err(unserved) => Called {
            ending: Err(RunFail::NoMemory),
            caches: unserved.caches,
        },
    }
}

// The ending of goals that can't be read.
fn on_refusal(fail: TextFail) -> Result<Ending, RunFail>
    ensures { result ≡ refusal_of fail }
{
    match fail {
        TextFail::Bad { at } => Ok(Ending::Bad(at)),
        TextFail::Long { at } => Ok(Ending::Long(at)),
        TextFail::Many { at } => Ok(Ending::Many(at)),
        TextFail::NoMemory => Err(RunFail::NoMemory),
    }
}

// The report on goals that were answered.
fn reported<D: Disk + Send>(
    alloc: Global,
    sessions: &[RawSession],
    served: &Served<D>,
) -> Result<Ending, RunFail>
    requires readable { AreReadable sessions.now }
    requires replies { AreReplies sessions.now served.now.answers }
    ensures told { IfOk result (Tells sessions.now served.now.answers) }
    ensures no_fault { IsErrOf result RunFail.Device → ⊥ }
{
    let proved = all_proved(served.answers.as_slice());
    match print_report(alloc, sessions, served) {
        Ok(report) => Ok(Ending::Reported(report, proved)),
        Err(_) => Err(RunFail::NoMemory),
    }
}
