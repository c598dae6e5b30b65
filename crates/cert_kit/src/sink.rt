ghost use Rattle.std.specs.Prelude.{◌≡◌, ℕ, List, [], ◌++◌, OnOk, OnErr, MatchOption, ⊤, refl};
ghost use Rattle.cert_kit.specs.machine.Sinks.{DoesNotBegin, appends_nothing, appends_both, begins_both, not_begun, not_begun_later};

use std::alloc::AllocError;

/// What takes bytes piece by piece, up to those that it refuses: a list that they are appended to, bytes that they are
/// compared with, or the state of a digest.
pub trait ByteSink {
    /// Why it takes no more.
    type Stop;

    // It took these bytes, and became that.
    ghost took: { Self → List ℕ → Self → Type 0 };

    // It doesn't take all of these bytes.
    ghost refuses: { Self → List ℕ → Type 0 };

    /// Takes the next bytes.
    fn put(&mut self, piece: &[u8]) -> Result<(), Self::Stop>
        ensures taken { OnOk result (took self.old piece.now self.new) }
        ensures refused { OnErr result (refuses self.old piece.now) };

    // No bytes change nothing.
    ghost nothing: { (sink : Self) → took sink [] sink };

    // One piece after another is both of them.
    ghost both: { (a b c : Self) (x y : List ℕ) → took a x b → took b y c → took a (x ++ y) c };

    // Where a piece is refused, so are the bytes that begin with it.
    ghost at_once: { (a : Self) (x y : List ℕ) → refuses a x → refuses a (x ++ y) };

    // And those that end with it.
    ghost later: { (a b : Self) (x y : List ℕ) → took a x b → refuses b y → refuses a (x ++ y) };
}

/// The bytes are appended.
impl ByteSink for Vec<u8> {
    type Stop = AllocError;

    ghost took = { λ v bytes w. w.items ≡ v.items ++ bytes };

    ghost refuses = { λ _ _. ⊤ };

    fn put(&mut self, piece: &[u8]) -> Result<(), AllocError> {
        self.extend_from_slice(piece)
    }

    ghost nothing = { λ v. appends_nothing v.items };

    ghost both = { λ a b c x y. appends_both a.items b.items c.items x y };

    ghost at_once = { λ _ _ _ _. tt };

    ghost later = { λ _ _ _ _ _ _. tt };
}

// The rest of bytes that those to come are compared with.
#[derive(Drop)]
pub(crate) struct Comparison<'a> {
    pub(crate) rest: &'a [u8],
}

// They aren't the same.
#[derive(Clone, Copy, Debug, PartialEq, Eq)]
pub(crate) struct Differs;

impl<'a> ByteSink for Comparison<'a> {
    type Stop = Differs;

    ghost took = { λ a bytes b. a.rest.now ≡ bytes ++ b.rest.now };

    ghost refuses = { λ a bytes. DoesNotBegin a.rest.now bytes };

    fn put(&mut self, piece: &[u8]) -> Result<(), Differs> {
        match after(self.rest, piece) {
            Some(rest) => {
                self.rest = rest;
                Ok(())
            }
            None => Err(Differs),
        }
    }

    ghost nothing = { λ a. refl };

    ghost both = { λ a b c x y. begins_both a.rest.now b.rest.now c.rest.now x y };

    ghost at_once = { λ a x y. not_begun a.rest.now x y };

    ghost later = { λ a b x y. not_begun_later a.rest.now b.rest.now x y };
}

// What follows these bytes at the front.
#[tactic(auto, using(crate::proofs::FrontLaws::stripped))]
fn after<'a>(bytes: &'a [u8], front: &[u8]) -> Option<&'a [u8]>
    ensures { MatchOption result (DoesNotBegin bytes.now front.now) (λ rest. bytes.now ≡ front.now ++ rest.now) }
{
    bytes.strip_prefix(front)
}
