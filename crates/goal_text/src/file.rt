//! The call that reads a goal file, and its law.

ghost use Rattle.std.specs.Prelude.{◌≡◌, ◌≢◌, ℕ, List, IfOk, IfErr};
ghost use Rattle.goal_token.specs.Tokens.{tokens_of};
ghost use Rattle.goal_sort.specs.declared.raw.RawSession.{RawSession};
ghost use Rattle.goal_text.specs.Files.{Reads};
ghost use Rattle.goal_text.specs.GoalsRead.{AreGoalsOfFile, AreReadable, AreWithin};
ghost use Rattle.goal_text.specs.Refusals.{IsWithin, IsRefused};

use crate::fail::TextFail;
use crate::raw::RawSession;
use crate::read::sessions;
use sqlite_items::Items;
use std::alloc::Global;

/// The sessions of a goal file.
pub fn read_file(alloc: Global, bytes: &[u8]) -> Result<Items<RawSession>, TextFail>
    ensures found { IfOk result (λ sessions. Reads bytes.now sessions × IsWithin (tokens_of bytes.now)) }
    ensures goals { IfOk result AreGoalsOfFile }
    ensures refused { IfErr result (IsRefused bytes.now) }
    ensures exact { IfErr result (λ fail. fail ≢ TextFail.NoMemory → (ss : List RawSession) → Reads bytes.now ss → IsWithin (tokens_of bytes.now) → ⊥) }
{
    sessions(alloc, bytes)
}

/// Bytes are a goal file of these sessions, and of no others.
pub fn one_reading()
    ensures { (bytes : List ℕ) (ss others : List RawSession) → Reads bytes ss → Reads bytes others → ss ≡ others }
{}

/// Each goal of a file can be sorted.
pub fn readable()
    ensures { (ss : List RawSession) → AreGoalsOfFile ss → AreReadable ss }
{}

/// A file within the limits has at most 64 sessions and 1,024 goals, and its sessions have names.
pub fn within_limits()
    ensures { (bytes : List ℕ) (ss : List RawSession) → Reads bytes ss → IsWithin (tokens_of bytes) → AreWithin ss }
{}
