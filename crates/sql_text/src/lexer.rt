//! Texts to tokens.

ghost use Rattle.std.specs.Prelude.{◌≡◌, ◌≤◌, ◌<◌, ◌-◌, ◌^◌, ℕ, min, length, drop, true, false, Some, None, if◌then◌else◌, ◌==◌, ◌+◌, IfOk, IfSome};
ghost use Rattle.std.specs.List.{list_all};
ghost use Rattle.std.specs.Char.{is_ascii_digit};
ghost use Rattle.std.specs.Option.{option_map};
ghost use Rattle.std.specs.Str.{str_to_ascii_lowercase};
ghost use Rattle.std.specs.Str.Parse.{digits_value};
ghost use Rattle.sql_text.specs.Lexing as spec;

use crate::keys::key_of;
use crate::scan::Class;
use crate::tokens::{Placed, Sign, Token};
use sql_base::{List, Name, NoMemory, SqlText};
use std::alloc::Global;

/// The bytes that an identifier may have.
pub const MAX_NAME: usize = 63;

/// The bytes that the value of a text literal may have.
const MAX_TEXT: usize = 4096;

fn number(digits: &[u8]) -> u64
    requires { list_all is_ascii_digit digits.now ≡ true }
    ensures { result ≡ min (digits_value 10 digits.now) (2 ^ 64 - 1) }
{
    let mut n: u64 = 0;
    for digit in digits {
        n = n
            .saturating_mul(10)
            .saturating_add(u64::from(*digit - b'0'));
    }
    n
}

/// The word with ASCII capitals as small letters.
pub fn folded(alloc: Global, word: &[u8]) -> Result<Name, NoMemory>
    ensures { IfOk result (λ name. name ≡ str_to_ascii_lowercase word.now) }
{
    let mut small = Vec::from_slice(alloc, word)?;
    small.make_ascii_lowercase();
    Name::from_slice(alloc, small.as_slice())
}

fn word_token(alloc: Global, word: &[u8]) -> Result<Token, NoMemory>
    ensures { IfOk result (λ token. token ≡ spec.word_token word.now) }
{
    match key_of(word) {
        Some(key) => Ok(Token::Key(key)),
        None if word.len() <= MAX_NAME => Ok(Token::Name(folded(alloc, word)?)),
        None => Ok(Token::Bad),
    }
}

/// Whether small letters, digits and `_` are an identifier.
#[tactic(auto, unfolding(crate::specs::Lexing::is_name))]
pub fn is_name(word: &[u8]) -> bool
    requires { list_all spec.is_small_byte word.now ≡ true }
    ensures { result ≡ spec.is_name word.now }
{
    !word.is_empty() && word.len() <= MAX_NAME && !Class::Digit.begins(word)
}

// Behind the opening quote.
fn quoted_token(alloc: Global, rest: &[u8]) -> Result<(Token, usize), NoMemory>
    requires { length rest.now < 2 ^ 63 - 1 }
    ensures token { IfOk result (λ found. found ≡ spec.quoted_token rest.now) }
    ensures size { IfOk result (λ found. (0 < found.1) × (found.1 ≤ length rest.now + 1)) }
{
    let (word, behind) = rest.split_at(Class::Small.run(rest));
    if is_name(word) && begins_with(b'"', behind) {
        Ok((
            Token::Quoted(Name::from_slice(alloc, word)?),
            word.len() + 2,
        ))
    } else {
        Ok((Token::Bad, 1))
    }
}

fn begins_with(byte: u8, text: &[u8]) -> bool
    ensures { result ≡ spec.begins (λ b. b == byte) text.now }
{
    match text {
        [first, ..] => *first == byte,
        [] => false,
    }
}

// Behind the opening quote of a text literal: its value, and how many bytes it takes with the closing quote.
fn literal(alloc: Global, rest: &[u8]) -> Result<Option<(Vec<u8>, usize)>, NoMemory>
    ensures value { IfOk result (λ found. option_map (λ p. (p.0.items, p.1)) found ≡ spec.literal false rest.now) }
    ensures size { IfOk result (λ found. IfSome found (λ p. p.1 ≤ length rest.now)) }
{
    let mut value = Vec::new(alloc);
    let mut after_quote = false;
    for (at, byte) in rest.iter().enumerate() {
        if *byte != b'\'' {
            if after_quote {
                return Ok(Some((value, at)));
            }
            value.push(*byte)?;
            continue;
        }
        if after_quote {
            value.push(*byte)?;
            after_quote = false;
            continue;
        }
        after_quote = true;
    }
    if after_quote {
        Ok(Some((value, rest.len())))
    } else {
        Ok(None)
    }
}

// The value as a text, if it is one of at most 4,096 bytes.
#[tactic(auto, unfolding(crate::specs::Lexing::is_short_text))]
fn short_text(alloc: Global, value: &[u8]) -> Result<Option<SqlText>, NoMemory>
    ensures { IfOk result (λ found. found ≡ (if spec.is_short_text value.now then Some value.now else None)) }
{
    if value.len() > MAX_TEXT {
        return Ok(None);
    }
    SqlText::read(alloc, value)
}

// Behind the opening quote.
fn text_token(alloc: Global, rest: &[u8]) -> Result<(Token, usize), NoMemory>
    requires { length rest.now < 2 ^ 63 - 1 }
    ensures token { IfOk result (λ found. found ≡ spec.text_token (spec.literal false rest.now)) }
    ensures size { IfOk result (λ found. (0 < found.1) × (found.1 ≤ length rest.now + 1)) }
{
    let Some((value, len)) = literal(alloc, rest)? else {
        return Ok((Token::Bad, 1));
    };
    match short_text(alloc, value.as_slice())? {
        Some(text) => Ok((Token::Text(text), len + 1)),
        None => Ok((Token::Bad, 1)),
    }
}

fn two_bytes(a: u8, b: u8) -> Option<Sign>
    ensures { result ≡ spec.two_bytes a b }
{
    match (a, b) {
        (b'<', b'=') => Some(Sign::Le),
        (b'<', b'>') => Some(Sign::Ne),
        (b'>', b'=') => Some(Sign::Ge),
        (b'!', b'=') => Some(Sign::Ne),
        (b'|', b'|') => Some(Sign::Concat),
        (b':', b':') => Some(Sign::Cast),
        _ => None,
    }
}

fn one_byte(a: u8) -> Option<Sign>
    ensures { result ≡ spec.one_byte a }
{
    match a {
        b'(' => Some(Sign::Open),
        b')' => Some(Sign::Close),
        b',' => Some(Sign::Comma),
        b';' => Some(Sign::Semicolon),
        b'*' => Some(Sign::Star),
        b'/' => Some(Sign::Slash),
        b'%' => Some(Sign::Percent),
        b'+' => Some(Sign::Plus),
        b'=' => Some(Sign::Eq),
        b'<' => Some(Sign::Lt),
        b'>' => Some(Sign::Gt),
        _ => None,
    }
}

fn first_two(text: &[u8]) -> Option<Sign>
    ensures size { IfSome result (λ sign. 2 ≤ length text.now) }
    ensures sign { result ≡ spec.first_two text.now }
{
    match text {
        [a, b, ..] => two_bytes(*a, *b),
        _ => None,
    }
}

fn byte_token(text: &[u8]) -> Token
    ensures { result ≡ spec.byte_token text.now }
{
    match text {
        [] => Token::Bad,
        [b'-', rest @ ..] => Token::Minus(Class::Digit.begins(rest)),
        [a, ..] => match one_byte(*a) {
            Some(sign) => Token::Sign(sign),
            None => Token::Bad,
        },
    }
}

fn sign_token(text: &[u8]) -> (Token, usize)
    requires { 0 < length text.now }
    ensures token { result ≡ spec.sign_token text.now }
    ensures size { (0 < result.1) × (result.1 ≤ length text.now) }
{
    match first_two(text) {
        Some(sign) => (Token::Sign(sign), 2),
        None => (byte_token(text), 1),
    }
}

/// The token that a text begins with, as long as it can be, and how many bytes it takes. An error is want of memory.
#[tactic(auto, unfolding(crate::specs::Lexing::first))]
fn first(alloc: Global, text: &[u8]) -> Result<(Token, usize), NoMemory>
    requires { (0 < length text.now) × (length text.now < 2 ^ 63) }
    ensures token { IfOk result (λ found. found ≡ spec.first text.now) }
    ensures size { IfOk result (λ found. (0 < found.1) × (found.1 ≤ length text.now)) }
{
    if Class::Digit.begins(text) {
        let len = Class::Digit.run(text);
        return Ok((Token::Int(number(&text[..len])), len));
    }
    if Class::Word.begins(text) {
        let len = Class::Word.run(text);
        return Ok((word_token(alloc, &text[..len])?, len));
    }
    match text {
        [b'"', rest @ ..] => quoted_token(alloc, rest),
        [b'\'', rest @ ..] => text_token(alloc, rest),
        _ => Ok(sign_token(text)),
    }
}

/// The tokens of a text with their places, and the end. An error is want of memory.
pub fn lex(alloc: Global, text: &[u8]) -> Result<List<Placed>, NoMemory>
    ensures { IfOk result (λ tokens. tokens ≡ spec.lexed 0 0 text.now) }
{
    let mut tokens = List::new(alloc);
    let mut at = 0;
    while at < text.len() {
        if Class::Blank.has(text[at]) {
            at += 1;
        } else {
            let (token, len) = first(alloc, &text[at..])?;
            tokens.push(Placed { at, token })?;
            at += len;
        }
    }
    tokens.push(Placed {
        at: text.len(),
        token: Token::End,
    })?;
    Ok(tokens)
}
