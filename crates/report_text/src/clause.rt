//! Clauses and the names of their keys.

ghost use Rattle.std.specs.Prelude.{◌≡◌};
ghost use Rattle.std.specs.List.{list_all};
ghost use Rattle.std.specs.Option.{option_map};
ghost use Rattle.report_text.specs.Line.{is_hex};
ghost use Rattle.report_text.specs.machine.Reading.{key_name_at, clause_at};

use crate::lines::Line;
use crate::number::number_after;
use crate::word::strip;
use goal_serve::Origin;

fn is_hex(c: u8) -> bool
    ensures { result ≡ is_hex c }
{
    c.is_ascii_digit() || (b'a'..=b'f').contains(&c)
}

fn are_hex(bytes: &[u8]) -> bool
    ensures { result ≡ list_all is_hex bytes.now }
{
    bytes.iter().all(|c| is_hex(*c))
}

// The name of a key, and what follows it.
fn key_name(bytes: &[u8]) -> Option<([u8; 16], &[u8])>
    ensures { option_map (λ x. (x.0, x.1.now)) result ≡ key_name_at bytes.now }
{
    if bytes.len() < 16 {
        return None;
    }
    let (front, rest) = bytes.split_at(16);
    if !are_hex(front) {
        return None;
    }
    let mut name = [0; 16];
    name.copy_from_slice(front);
    Some((name, rest))
}

/// The line of the clause of this number, and what follows it.
#[tactic(auto, unfolding(crate::specs::machine::Reading::clause_at))]
pub fn clause(number: u64, bytes: &[u8]) -> Option<(Line, &[u8])>
    ensures { option_map (λ x. (x.0, x.1.now)) result ≡ clause_at number bytes.now }
{
    let (read, rest) = number_after(bytes, b"clause ")?;
    let rest = strip(rest, b" ")?;
    let (name, rest) = key_name(rest)?;
    let rest = strip(rest, b" new\n")?;
    if read != number {
        return None;
    }
    let origin = Origin::New;
    Some((
        Line::Clause {
            number: read,
            name,
            origin,
        },
        rest,
    ))
}
