ghost use Rattle.std.specs.Prelude.{◌≡◌, IfOk, IfSome, OnErr};
ghost use Rattle.goal_token.specs.Tokens.{tokens_of, IsTaken, IsSmallToken};

use crate::comment::skip_blanks;
use crate::read::token_at;
use crate::token::{Placed, Token};
use std::alloc::{AllocError, Global};
use std::marker::Model;

/// The tokens of bytes, one by one. It is seen as the tokens that are left.
#[derive(Drop)]
pub struct Lexer<'a> {
    bytes: &'a [u8],
    place: usize,
}

impl<'a> Model for Lexer<'a> {
    ghost use Rattle.std.specs.Prelude.{List, drop, length, ◌≤◌};
    ghost use Rattle.goal_token.specs.declared.token.Placed.{Placed};
    ghost use Rattle.goal_token.specs.Tokens.{tokens_at};

    ghost Value = { List Placed };

    ghost view = { λ l. tokens_at l.place (drop l.place l.bytes.now) };

    ghost invariant = { λ l. l.place ≤ length l.bytes.now };
}

impl<'a> Lexer<'a> {
    /// All tokens of these bytes.
    pub fn new(bytes: &'a [u8]) -> Lexer<'a>
        ensures { result ≡ tokens_of bytes.now }
    {
        Lexer { bytes, place: 0 }
    }

    /// The next token, if there is one. It takes memory for a name's bytes alone.
    pub fn next_token(&mut self, alloc: Global) -> Result<Option<Placed>, AllocError>
        ensures next { IfOk result (λ t. IsTaken t self.old self.new) }
        ensures small { IfOk result (λ t. IfSome t (λ found. IsSmallToken found.token)) }
        ensures kept { OnErr result (self.new ≡ self.old) }
    {
        let Some(start) = skip_blanks(self.bytes, self.place) else {
            self.place = self.bytes.len();
            let at = self.place as u64;
            return Ok(Some(Placed {
                token: Token::Wrong,
                at,
            }));
        };
        if start == self.bytes.len() {
            return Ok(None);
        }
        let (_, rest) = self.bytes.split_at(start);
        let (token, length) = token_at(alloc, rest)?;
        self.place = start + length;
        let at = start as u64;
        Ok(Some(Placed { token, at }))
    }
}
