//! Texts as tokens.

ghost use Rattle.std.specs.Prelude.{◌≡◌, ◌^◌, ◌≤◌, ◌<◌, false, [], length, drop, map, slice_index, IfOk};
ghost use Rattle.std.specs.Char.{is_ascii_digit, is_ascii_lowercase};
ghost use Rattle.std.specs.List.{prefix_len};
ghost use Rattle.std.specs.Option.{SomeIff};
ghost use Rattle.std.specs.Str.Parse.{AllDigits, digits_value};
ghost use Rattle.expr_reader.specs.Tokens.{is_word_byte, meaning_of, further, tokens};
ghost use Rattle.expr_reader.specs.Descent.{kind_of, seen};

use crate::token::{Kind, Mark, Token};
use crate::words::word;
use std::alloc::{AllocError, Global};

/// How many bytes at the front may stand in a word.
fn word_len(bytes: &[u8]) -> usize
    ensures within { result ≤ length bytes.now }
    ensures len { result ≡ prefix_len is_word_byte bytes.now }
{
    let mut len = 0;
    while len < bytes.len() && (bytes[len].is_ascii_lowercase() || bytes[len].is_ascii_digit()) {
        len += 1;
    }
    len
}

/// How many digits stand at the front.
fn digits_len(bytes: &[u8]) -> usize
    ensures within { result ≤ length bytes.now }
    ensures len { result ≡ prefix_len is_ascii_digit bytes.now }
{
    let mut len = 0;
    while len < bytes.len() && bytes[len].is_ascii_digit() {
        len += 1;
    }
    len
}

/// The number that digits stand for, or None above 2^64 - 1 and where a byte is no digit.
#[tactic(auto, using(crate::proofs::TokenRows::digit_rules))]
fn number(digits: &[u8]) -> Option<u64>
    ensures { SomeIff result (AllDigits 10 digits.now × (digits_value 10 digits.now < 2 ^ 64)) (digits_value 10 digits.now) }
{
    let mut value: u64 = 0;
    for digit in digits {
        let units = char::from(*digit).to_digit(10)?;
        value = value.checked_mul(10)?.checked_add(u64::from(units))?;
    }
    Some(value)
}

/// The token that the first byte begins, and how many further bytes it has.
fn token(text: &[u8]) -> (Kind, usize)
    requires { 0 < length text.now }
    ensures kind { result.0 ≡ kind_of (meaning_of (slice_index text.now 0) (drop 1 text.now)) }
    ensures len { result.1 ≡ further (slice_index text.now 0) (drop 1 text.now) }
    ensures within { result.1 < length text.now }
{
    let byte = text[0];
    let rest = &text[1..];
    if byte.is_ascii_lowercase() {
        let len = word_len(rest);
        (Kind::Word(word(&text[..1 + len])), len)
    } else if byte.is_ascii_digit() {
        let len = digits_len(rest);
        (Kind::Number(number(&text[..1 + len])), len)
    } else {
        (mark(byte), 0)
    }
}

/// What a byte is that begins neither a word nor a number.
fn mark(byte: u8) -> Kind
    requires { (is_ascii_lowercase byte ≡ false) × (is_ascii_digit byte ≡ false) }
    ensures { result ≡ kind_of (meaning_of byte []) }
{
    match byte {
        b'(' => Kind::Mark(Mark::Open),
        b',' => Kind::Mark(Mark::Comma),
        b')' => Kind::Mark(Mark::Close),
        _ => Kind::Stray,
    }
}

/// The tokens of a text, in order.
pub fn tokens(alloc: Global, text: &[u8]) -> Result<Vec<Token>, AllocError>
    ensures { IfOk result (λ v. v.items ≡ map seen (tokens text.now)) }
{
    let mut found = Vec::new(alloc);
    let mut at = 0;
    while at < text.len() {
        let here = &text[at..];
        if here[0] == b' ' {
            at += 1;
        } else {
            let (kind, len) = token(here);
            found.push(Token {
                at: at as u64,
                kind,
            })?;
            at += 1 + len;
        }
    }
    Ok(found)
}
