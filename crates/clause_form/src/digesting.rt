ghost use Rattle.std.specs.Prelude.{◌≡◌, ℕ, ◌<◌, ◌^◌, List, ◌++◌, length};
ghost use Rattle.sha2.specs.Sha256.{sha256};
ghost use Rattle.sha2.specs.Hashers.{Holds256};
ghost use Rattle.cert_kit.specs.Bytes.{rows_bytes};
ghost use Rattle.clause_form.specs.machine.Digesting.{digests_nothing, digests_both};

use cert_kit::{ByteSink, PRow, put_rows};
use sha2::{Digest, Sha256};

// The state of a SHA-256 digest, which takes each piece of bytes.
#[derive(Drop)]
struct Digesting {
    hasher: Sha256,
}

// It takes whatever comes.
enum Never {}

impl ByteSink for Digesting {
    type Stop = Never;

    ghost took = { λ a bytes b. (m : List ℕ) → Holds256 a.hasher m → Holds256 b.hasher (m ++ bytes) };

    ghost refuses = { λ _ _. ⊥ };

    fn put(&mut self, piece: &[u8]) -> Result<(), Never> {
        self.hasher.update(piece);
        Ok(())
    }

    ghost nothing = { λ a. digests_nothing a.hasher };

    ghost both = { λ a b c x y. digests_both a.hasher b.hasher c.hasher x y };

    ghost at_once = { λ _ _ _ h. h };

    ghost later = { λ _ _ _ _ _ h. h };
}

/// The SHA-256 digest of the bytes of rows, of which there is never more than a piece.
pub(crate) fn digest_of_rows(rows: &[PRow]) -> [u8; 32]
    requires { length rows.now < 2 ^ 32 }
    ensures { result ≡ sha256 (rows_bytes rows.now) }
{
    let mut digesting = Digesting {
        hasher: Sha256::new(),
    };
    match put_rows(&mut digesting, rows) {
        Ok(()) => digesting.hasher.finalize(),
        Err(never) => match never {},
    }
}
