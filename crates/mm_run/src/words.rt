//! The words of the command line.

ghost use Rattle.std.specs.Prelude.{◌≡◌, ◌∷◌, [], ℕ, List, map, string_bytes, codes, IfSome, IsNone, IsTrue, ◌↔◌};
ghost use Rattle.mm_run.specs.declared.words.Command.{Command as ACommand};
ghost use Rattle.mm_run.specs.Words.{Asks, NamesTurns};

/// What a user asks for.
#[derive(Clone, Copy, Debug, PartialEq, Eq)]
pub enum Command {
    /// Judge a certificate of rows.
    Check,
    /// Answer the goals of a file, with so many turns for each clause.
    Prove(u32),
    /// Check a report.
    Recheck,
}

/// The turns where the words name none.
pub const TURNS: u32 = 20_000;

/// The most turns that the words may name.
pub const MOST_TURNS: u32 = 65_536;

/// What the words ask for, where they are the words of a command.
pub fn command_of(words: &[String]) -> Option<Command>
    ensures asked { IfSome result (Asks (map string_bytes words.now)) }
    ensures other { IsNone result → (c : ACommand) → Asks (map string_bytes words.now) c → ⊥ }
{
    match words {
        [word] => command_of_one(word.as_str()),
        [word, option, number] => command_of_three(word.as_str(), option.as_str(), number.as_str()),
        _ => None,
    }
}

fn command_of_one(word: &str) -> Option<Command>
    ensures asked { IfSome result (Asks (word.now ∷ [])) }
    ensures other { IsNone result → (c : ACommand) → Asks (word.now ∷ []) c → ⊥ }
{
    match word {
        "check" => Some(Command::Check),
        "prove" => Some(Command::Prove(TURNS)),
        "recheck" => Some(Command::Recheck),
        _ => None,
    }
}

fn command_of_three(word: &str, option: &str, number: &str) -> Option<Command>
    ensures asked { IfSome result (Asks (word.now ∷ option.now ∷ number.now ∷ [])) }
    ensures other { IsNone result → (c : ACommand) → Asks (word.now ∷ option.now ∷ number.now ∷ []) c → ⊥ }
{
    if word == "prove" && option == "--turns" {
        turns_of(number).map(Command::Prove)
    } else {
        None
    }
}

// The number of turns that a word names.
fn turns_of(word: &str) -> Option<u32>
    ensures named { IfSome result (NamesTurns word.now) }
    ensures other { IsNone result → (n : ℕ) → NamesTurns word.now n → ⊥ }
{
    let Ok(turns) = word.parse::<u32>() else {
        return None;
    };
    if names(word, turns) {
        Some(turns)
    } else {
        None
    }
}

// Whether the word is the number's digits, and it is a number of turns.
fn names(word: &str, turns: u32) -> bool
    ensures { IsTrue result ↔ NamesTurns word.now turns }
{
    let mut digits = itoa::Buffer::new();
    turns >= 1 && turns <= MOST_TURNS && digits.format(turns) == word
}
