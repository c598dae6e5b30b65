//! Caches and their histories.

ghost use Rattle.std.specs.Prelude.{◌≡◌, codes};
ghost use Rattle.std.specs.Option.{option_map};
ghost use Rattle.goal_print.specs.ReadsBack.{mode_text};
ghost use Rattle.report_text.specs.machine.Reading.{cache_at, asker_at, hit_at, find_at, store_at, called, after_calls_at, call_at, word_at};
ghost use Rattle.report_text.specs.declared.lines.Line.TheVariants.{End};

use crate::call::Call;
use crate::lines::Line;
use crate::number::number_after;
use crate::word::strip;
use goal_ast::Mode;

/// The word of a mode.
pub fn mode_text(mode: Mode) -> &'static [u8]
    ensures { result.now ≡ mode_text mode }
{
    match mode {
        Mode::Lia => b"lia",
        Mode::Nia => b"nia",
    }
}

/// The line of the cache of a mode, and what follows it.
#[tactic(auto, unfolding(crate::specs::machine::Reading::cache_at))]
pub fn cache(mode: Mode, bytes: &[u8]) -> Option<(Line, &[u8])>
    ensures { option_map (λ x. (x.0, x.1.now)) result ≡ cache_at mode bytes.now }
{
    let rest = strip(bytes, b"cache ")?;
    let rest = strip(rest, mode_text(mode))?;
    let (opened, rest) = number_after(rest, b" opened ")?;
    let (stored, rest) = number_after(rest, b" stored ")?;
    let (saved, rest) = number_after(rest, b" saved ")?;
    let rest = strip(rest, b"\n")?;
    Some((
        Line::Cache {
            mode,
            opened,
            stored,
            saved,
        },
        rest,
    ))
}

// A session, a goal and a clause by their numbers, after the word, and what follows them.
fn asker<'a>(bytes: &'a [u8], word: &[u8]) -> Option<((u64, u64, u64), &'a [u8])>
    ensures { option_map (λ x. (x.0, x.1.now)) result ≡ asker_at word.now bytes.now }
{
    let (session, rest) = number_after(bytes, word)?;
    let (goal, rest) = number_after(rest, b" ")?;
    let (clause, rest) = number_after(rest, b" ")?;
    Some(((session, goal, clause), rest))
}

// Where a clause was found, and what follows it.
fn hit(bytes: &[u8]) -> Option<(Option<u64>, &[u8])>
    ensures { option_map (λ x. (x.0, x.1.now)) result ≡ hit_at bytes.now }
{
    if let Some(rest) = strip(bytes, b" miss") {
        return Some((None, rest));
    }
    let (place, rest) = number_after(bytes, b" hit ")?;
    Some((Some(place), rest))
}

#[tactic(auto, unfolding(crate::specs::machine::Reading::find_at))]
fn find(bytes: &[u8]) -> Option<(Call, &[u8])>
    ensures { option_map (λ x. (x.0, x.1.now)) result ≡ find_at bytes.now }
{
    let ((session, goal, clause), rest) = asker(bytes, b"find ")?;
    let (front, rest) = number_after(rest, b" front ")?;
    let (hit, rest) = hit(rest)?;
    let rest = strip(rest, b"\n")?;
    let call = Call::Find {
        session,
        goal,
        clause,
        front,
        hit,
    };
    Some((call, rest))
}

#[tactic(auto, unfolding(crate::specs::machine::Reading::store_at))]
fn store(bytes: &[u8]) -> Option<(Call, &[u8])>
    ensures { option_map (λ x. (x.0, x.1.now)) result ≡ store_at bytes.now }
{
    let ((session, goal, clause), rest) = asker(bytes, b"store ")?;
    let (place, rest) = number_after(rest, b" place ")?;
    let rest = strip(rest, b"\n")?;
    let call = Call::Store {
        session,
        goal,
        clause,
        place,
    };
    Some((call, rest))
}

fn end(bytes: &[u8]) -> Option<(Line, &[u8])>
    ensures { option_map (λ x. (x.0, x.1.now)) result ≡ word_at (codes "end\n") End bytes.now }
{
    let rest = strip(bytes, b"end\n")?;
    Some((Line::End, rest))
}

// The line that follows all calls of the cache of a mode, and what follows it.
fn after_calls(mode: Mode, bytes: &[u8]) -> Option<(Line, &[u8])>
    ensures { option_map (λ x. (x.0, x.1.now)) result ≡ after_calls_at mode bytes.now }
{
    match mode {
        Mode::Lia => cache(Mode::Nia, bytes),
        Mode::Nia => end(bytes),
    }
}

// The line of a call that stores nothing, and what follows it.
fn find_line(bytes: &[u8]) -> Option<(Line, &[u8])>
    ensures { option_map (λ x. (x.0, x.1.now)) result ≡ called (find_at bytes.now) }
{
    let (call, rest) = find(bytes)?;
    Some((Line::Called(call), rest))
}

// The line of a call that stores, and what follows it.
fn store_line(bytes: &[u8]) -> Option<(Line, &[u8])>
    ensures { option_map (λ x. (x.0, x.1.now)) result ≡ called (store_at bytes.now) }
{
    let (call, rest) = store(bytes)?;
    Some((Line::Called(call), rest))
}

/// The line of a call of the cache of a mode, of which so many still store; where there are none, also the line that
/// follows all calls; and what follows it.
#[tactic(auto, unfolding(crate::specs::machine::Reading::call_at))]
pub fn call(mode: Mode, stores: u64, bytes: &[u8]) -> Option<(Line, &[u8])>
    ensures { option_map (λ x. (x.0, x.1.now)) result ≡ call_at mode stores bytes.now }
{
    if let Some(found) = find_line(bytes) {
        return Some(found);
    }
    if stores == 0 {
        after_calls(mode, bytes)
    } else {
        store_line(bytes)
    }
}
