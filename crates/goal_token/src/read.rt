//! The token at the front of bytes, and how many bytes it has.

ghost use Rattle.std.specs.Prelude.{◌≡◌, ◌+◌, ◌<◌, ◌≤◌, length, take, drop, None, ◌==◌, if◌then◌else◌, slice_index, IfOk, OnSome};
ghost use Rattle.goal_token.specs.Words.{lookup, words, signs_of_3, signs_of_2, signs_of_1};
ghost use Rattle.goal_token.specs.Tokens.{name_length, dotted_length, joined_length, word, word_at, sign_at, token_at};

use crate::class::{begins_name, is_digit, is_name_byte};
use crate::literal::literal_at;
use crate::sign::{of_one, of_three, of_two};
use crate::token::{Sign, Token};
use crate::word::reserved;
use goal_ast::Name;
use sqlite_items::Items;
use std::alloc::{AllocError, Global};

// How long the name at the front is.
fn name_length(bytes: &[u8]) -> usize
    ensures value { result ≡ name_length bytes.now }
    ensures within { result ≤ length bytes.now }
{
    bytes.iter().take_while(|c| is_name_byte(**c)).count()
}

// How long a dot and the name after it are.
fn dotted_length(bytes: &[u8]) -> usize
    ensures value { result ≡ dotted_length bytes.now }
    ensures within { result ≤ length bytes.now }
{
    match bytes {
        [b'.', rest @ ..] => 1 + name_length(rest),
        _ => 0,
    }
}

// How long two names are that a dot joins, where the first has this length, or the first where no dot follows it.
fn joined_length(bytes: &[u8], single: usize) -> usize
    requires first { single ≡ name_length bytes.now }
    requires within { single ≤ length bytes.now }
    ensures value { result ≡ joined_length bytes.now }
    ensures within { result ≤ length bytes.now }
{
    let (_, rest) = bytes.split_at(single);
    single + dotted_length(rest)
}

// A word that isn't a name, or else a name.
#[tactic(auto, unfolding(crate::specs::Tokens::word))]
fn word(alloc: Global, text: &[u8]) -> Result<Token, AllocError>
    ensures { IfOk result (λ t. t ≡ word text.now) }
{
    if let Some(token) = reserved(text) {
        return Ok(token);
    }
    let bytes = Items::from_slice(alloc, text)?;
    Ok(Token::Name(Name { bytes }))
}

// The word that two names at the front are together, where a dot joins them, so that they are longer than the first.
fn joined_word(bytes: &[u8], single: usize, joined: usize) -> Option<Token>
    requires { joined ≤ length bytes.now }
    ensures { result ≡ (if joined == single then None else lookup (take joined bytes.now) words) }
{
    if joined == single {
        return None;
    }
    reserved(&bytes[..joined])
}

// The two names at the front where they are a function together, or else the name at the front.
#[tactic(auto, using(crate::proofs::NameLaws::one_name, crate::proofs::NameLaws::two_names))]
fn word_at(alloc: Global, bytes: &[u8]) -> Result<(Token, usize), AllocError>
    ensures value { IfOk result (λ t. t ≡ word_at bytes.now) }
    ensures within { IfOk result (λ t. t.1 ≤ length bytes.now) }
{
    let single = name_length(bytes);
    let joined = joined_length(bytes, single);
    if let Some(token) = joined_word(bytes, single, joined) {
        return Ok((token, joined));
    }
    Ok((word(alloc, &bytes[..single])?, single))
}

#[tactic(auto, using(crate::proofs::SignLaws::too_few_for_3))]
fn front_of_three(bytes: &[u8]) -> Option<Sign>
    ensures value { result ≡ lookup (take 3 bytes.now) signs_of_3 }
    ensures within { OnSome result (3 ≤ length bytes.now) }
{
    match bytes {
        [a, b, c, ..] => of_three(*a, *b, *c),
        _ => None,
    }
}

#[tactic(auto, using(crate::proofs::SignLaws::too_few_for_2))]
fn front_of_two(bytes: &[u8]) -> Option<Sign>
    ensures value { result ≡ lookup (take 2 bytes.now) signs_of_2 }
    ensures within { OnSome result (2 ≤ length bytes.now) }
{
    match bytes {
        [a, b, ..] => of_two(*a, *b),
        _ => None,
    }
}

#[tactic(auto, using(crate::proofs::SignLaws::too_few_for_1))]
fn front_of_one(bytes: &[u8]) -> Option<Sign>
    ensures { result ≡ lookup (take 1 bytes.now) signs_of_1 }
{
    match bytes {
        [a, ..] => of_one(*a),
        _ => None,
    }
}

// The longest sign at the front, or one byte that begins no token.
#[tactic(auto, unfolding(crate::specs::Tokens::sign_at))]
fn sign_at(bytes: &[u8]) -> (Token, usize)
    requires { 0 < length bytes.now }
    ensures value { result ≡ sign_at bytes.now }
    ensures within { result.1 ≤ length bytes.now }
{
    if let Some(sign) = front_of_three(bytes) {
        return (Token::Sign(sign), 3);
    }
    if let Some(sign) = front_of_two(bytes) {
        return (Token::Sign(sign), 2);
    }
    match front_of_one(bytes) {
        Some(sign) => (Token::Sign(sign), 1),
        None => (Token::Wrong, 1),
    }
}

/// The token at the front, where neither a blank nor a comment stands there, and how many bytes it has.
#[tactic(auto, unfolding(crate::specs::Tokens::token_at))]
pub(crate) fn token_at(alloc: Global, bytes: &[u8]) -> Result<(Token, usize), AllocError>
    requires { 0 < length bytes.now }
    ensures value { IfOk result (λ t. t ≡ token_at (slice_index bytes.now 0) (drop 1 bytes.now)) }
    ensures within { IfOk result (λ t. t.1 ≤ length bytes.now) }
{
    let first = bytes[0];
    if is_digit(first) {
        Ok(literal_at(bytes))
    } else if begins_name(first) {
        word_at(alloc, bytes)
    } else {
        Ok(sign_at(bytes))
    }
}
