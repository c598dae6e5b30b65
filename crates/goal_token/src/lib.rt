//! The tokens of files of goals.
//!
//! Blanks and comments stand between tokens. A comment begins with `(*`, ends with `*)`, nests and holds any byte.
#![tactic(auto)]

mod class;
mod comment;
mod law;
mod lexer;
mod literal;
mod number;
mod read;
mod sign;
mod token;
mod word;

pub use law::{literals_are_small, places_rise, tokens_unfold};
pub use lexer::Lexer;
pub use token::{Constant, Function, Keyword, Placed, Sign, Token};
