//! Names.

ghost use Rattle.std.specs.Prelude.{◌≡◌, IfOk, IsTrue, ◌↔◌};
ghost use Rattle.goal_token.specs.Tokens.{tokens_of};
ghost use Rattle.report_text.specs.machine.Parts.{name_in, first_name, ReadsName};

use goal_ast::Name;
use goal_token::{Lexer, Token};
use std::alloc::{AllocError, Global};

fn name_in(token: Token) -> Option<Name>
    ensures { result ≡ name_in token }
{
    match token {
        Token::Name(name) => Some(name),
        _ => None,
    }
}

// The name that is the first token of the text.
fn first_name(alloc: Global, text: &[u8]) -> Result<Option<Name>, AllocError>
    ensures { IfOk result (λ name. name ≡ first_name (tokens_of text.now)) }
{
    let mut lexer = Lexer::new(text);
    match lexer.next_token(alloc)? {
        Some(placed) => Ok(name_in(placed.token)),
        None => Ok(None),
    }
}

/// Whether two texts are the same.
pub fn same(text: &[u8], other: &[u8]) -> bool
    ensures { IsTrue result ↔ (text.now ≡ other.now) }
{
    text == other
}

/// The name with this text, or none where the text is no name.
pub fn name(alloc: Global, text: &[u8]) -> Result<Option<Name>, AllocError>
    ensures { IfOk result (ReadsName text.now) }
{
    let Some(name) = first_name(alloc, text)? else {
        return Ok(None);
    };
    if same(name.bytes.as_slice(), text) {
        Ok(Some(name))
    } else {
        Ok(None)
    }
}
