ghost use Rattle.std.specs.Prelude.{◌≡◌, ◌+◌, ◌-◌, ℕ, List, [], ◌∷◌, length, drop, Some, None, true, false};
ghost use Rattle.goal_token.specs.declared.token.Token.TheVariants.{Wrong};
ghost use Rattle.goal_token.specs.Tokens.{is_blank, after_comment, begins_comment, token_at, placed, tokens_at, tokens_of, PlacesRise, AreSmall};

/// The tokens of bytes, step by step: a blank counts for nothing, and so does a comment that is closed; one that isn't
/// is no token, at the end of the input; a token is followed by the tokens of what follows it.
pub fn tokens_unfold()
    ensures nothing { (place : ℕ) → tokens_at place [] ≡ [] }
    ensures blank { (place c : ℕ) (bytes : List ℕ) → is_blank c ≡ true → tokens_at place (c ∷ bytes) ≡ tokens_at (place + 1) bytes }
    ensures comment { (place c : ℕ) (bytes rest : List ℕ) → is_blank c ≡ false → begins_comment (c ∷ bytes) ≡ true → after_comment 1 (drop 1 bytes) ≡ Some rest
        → tokens_at place (c ∷ bytes) ≡ tokens_at (place + (length (c ∷ bytes) - length rest)) rest }
    ensures open_comment { (place c : ℕ) (bytes : List ℕ) → is_blank c ≡ false → begins_comment (c ∷ bytes) ≡ true → after_comment 1 (drop 1 bytes) ≡ None
        → tokens_at place (c ∷ bytes) ≡ placed Wrong (place + length (c ∷ bytes)) ∷ [] }
    ensures token { (place c : ℕ) (bytes : List ℕ) → is_blank c ≡ false → begins_comment (c ∷ bytes) ≡ false
        → tokens_at place (c ∷ bytes) ≡ placed (token_at c bytes).0 place ∷ tokens_at (place + (token_at c bytes).1) (drop (token_at c bytes).1 (c ∷ bytes)) }
{}

/// Places rise, each above the one before, and lie below the end of the input; what is at the end itself is no token.
pub fn places_rise()
    ensures { (bytes : List ℕ) → PlacesRise 0 (length bytes) (tokens_of bytes) }
{}

/// A literal is from 0 and below 2^126.
pub fn literals_are_small()
    ensures { (bytes : List ℕ) → AreSmall (tokens_of bytes) }
{}
