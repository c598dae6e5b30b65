use crate::spelling::spelling;
use goal_token::{Lexer, Placed, Token};
use std::alloc::{AllocError, Global};

// A token's word: what it spells, with a mark before all but names, signs and functions: ! before a keyword, : before a
// sort, = before a constant, # before a literal.
fn word_of(alloc: Global, token: &Token) -> Result<String, AllocError> {
    match token {
        Token::Keyword(keyword) => format!(in alloc; "!{keyword:?}"),
        Token::Sort(sort) => format!(in alloc; ":{sort:?}"),
        Token::Constant(constant) => format!(in alloc; "={constant:?}"),
        Token::Function(function) => String::from_str(alloc, spelling(function.number())),
        Token::Sign(sign) => String::from_str(alloc, spelling(sign.number())),
        Token::Name(name) => String::from_utf8_lossy(alloc, name.bytes.as_slice()),
        Token::Literal(value) => format!(in alloc; "#{value}"),
        Token::Wrong => String::from_str(alloc, "wrong"),
    }
}

/// The tokens of bytes, each with its place.
pub fn answer(alloc: Global, bytes: &[u8]) -> Result<Vec<u8>, AllocError> {
    let mut out = Vec::new(alloc);
    let mut lexer = Lexer::new(bytes);
    while let Some(Placed { token, at }) = lexer.next_token(alloc)? {
        if !out.is_empty() {
            out.push(b' ')?;
        }
        let word = word_of(alloc, &token)?;
        out.extend_from_slice(format!(in alloc; "{word}@{at}")?.as_bytes())?;
    }
    Ok(out)
}
