ghost use Rattle.std.specs.Prelude.{◌≡◌};
ghost use Rattle.goal_text.specs.Steps.{sign_kind, kind_of};

use goal_ast::{Name, Sort};
use goal_token::{Keyword, Sign, Token};

/// What a token is outside an expression.
#[derive(Debug, Drop)]
pub enum Kind {
    Keyword(Keyword),
    Sort(Sort),
    Name(Name),
    Dot,
    Comma,
    Colon,
    Open,
    Close,
    /// It stands in expressions alone, or nowhere.
    Other,
}

fn sign_kind(sign: Sign) -> Kind
    ensures { result ≡ sign_kind sign }
{
    match sign {
        Sign::Dot => Kind::Dot,
        Sign::Comma => Kind::Comma,
        Sign::Colon => Kind::Colon,
        Sign::Open => Kind::Open,
        Sign::Close => Kind::Close,
        _ => Kind::Other,
    }
}

/// What a token is outside an expression.
pub fn kind_of(token: Token) -> Kind
    ensures { result ≡ kind_of token }
{
    match token {
        Token::Keyword(keyword) => Kind::Keyword(keyword),
        Token::Sort(sort) => Kind::Sort(sort),
        Token::Name(name) => Kind::Name(name),
        Token::Sign(sign) => sign_kind(sign),
        Token::Constant(_) | Token::Function(_) | Token::Literal(_) | Token::Wrong => Kind::Other,
    }
}
