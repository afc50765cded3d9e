// What a field may say: a number, a path or bytes.
ghost use Rattle.std.specs.Prelude.{◌≡◌, ◌≤◌, ◌<◌, ◌+◌, ◌*◌, ◌^◌, ◌∷◌, ◌&&◌, true, nat_le, length, take, None, IfOk, IfNone, IfSome};
ghost use Rattle.std.specs.Char.{digit_value, is_ascii_digit, is_ascii_hexdigit};
ghost use Rattle.std.specs.List.{list_all, position, prefix_len};
ghost use Rattle.std.specs.Option.{SomeIff, option_copied};
ghost use Rattle.std.specs.Str.Parse.{digits_value};
ghost use Rattle.trace_text.specs.Grammar.{has_octets, is_path, alignment_in, count_in, is_alignment, is_numeral, is_point, most_number, number_in, number_to, octets_in, path_in, steps_of};
ghost use Rattle.trace_text.specs.Steps.{steps_left};

use crate::LineFault;
use crate::fields::Field;
use heap_core::{Octets, Path};
use size_round::{PowerOfTwo, Rounding};

// Digits, or nothing.
fn are_digits(text: &[u8]) -> bool
    ensures { result ≡ list_all is_ascii_digit text.now }
{
    text.iter().all(|byte| byte.is_ascii_digit())
}

// Hexadecimal digits, or nothing.
fn are_hexdigits(text: &[u8]) -> bool
    ensures { result ≡ list_all is_ascii_hexdigit text.now }
{
    text.iter().all(|byte| byte.is_ascii_hexdigit())
}

// At least one digit, and nothing else.
fn is_numeral(text: &[u8]) -> bool
    ensures { result ≡ is_numeral text.now }
{
    !text.is_empty() && are_digits(text)
}

// A number with one digit more, unless that or the number itself is too large.
fn with_digit(number: Option<u64>, digit: u8) -> Option<u64>
    requires { is_ascii_digit digit ≡ true }
    ensures more { IfSome number (λ n. SomeIff result (n * 10 + digit_value digit ≤ most_number) (n * 10 + digit_value digit)) }
    ensures none { IfNone number (result ≡ None) }
{
    let value = digit - b'0';
    number?.checked_mul(10)?.checked_add(u64::from(value))
}

// How many digits stand in front, and the number that they stand for, unless it is too large.
fn leading_number(text: &[u8]) -> (usize, Option<u64>)
    ensures len { result.0 ≡ prefix_len is_ascii_digit text.now }
    ensures number { SomeIff result.1 (digits_value 10 (take result.0 text.now) ≤ most_number) (digits_value 10 (take result.0 text.now)) }
{
    let mut len = 0;
    let mut number = Some(0);
    while len < text.len() && text[len].is_ascii_digit() {
        number = with_digit(number, text[len]);
        len += 1;
    }
    (len, number)
}

/// The number that a field says, which is at most so large.
#[tactic(auto, unfolding(crate::specs::Grammar::number_to))]
pub(crate) fn number_to(most: u64, field: Field<'_>) -> Result<u64, LineFault>
    ensures read { result ≡ number_to most field.entry.column field.entry.text.now }
    ensures most { IfOk result (λ n. n ≤ most) }
{
    let column = field.column;
    let (len, number) = leading_number(field.text);
    if len == 0 || len < field.text.len() {
        return Err(LineFault::BadLine { column });
    }
    match number {
        Some(number) if number <= most => Ok(number),
        _ => Err(LineFault::NumberTooLarge { column }),
    }
}

// A power of two up to 4,096.
fn is_alignment(number: u64) -> bool
    ensures { result ≡ is_alignment number }
{
    1 <= number && number <= 4096 && PowerOfTwo.round(number) == number
}

/// The alignment that a field says.
pub(crate) fn read_alignment(field: Field<'_>) -> Result<u64, LineFault>
    ensures { result ≡ alignment_in field.entry.column field.entry.text.now }
{
    let align = number_to(u64::MAX, field)?;
    if is_alignment(align) {
        Ok(align)
    } else {
        Err(LineFault::BadLine {
            column: field.column,
        })
    }
}

/// The count of bytes to be read that a field says.
pub(crate) fn read_count(field: Field<'_>) -> Result<u64, LineFault>
    ensures { result ≡ count_in field.entry.column field.entry.text.now }
{
    let count = number_to(u64::MAX, field)?;
    if 1 <= count && count <= 64 {
        Ok(count)
    } else {
        Err(LineFault::BadLine {
            column: field.column,
        })
    }
}

// Where the first point stands.
fn first_point(text: &[u8]) -> Option<usize>
    ensures { result ≡ position is_point text.now }
{
    text.iter().position(|byte| *byte == b'.')
}

// The first step of a path, and what stands behind the point after it.
#[tactic(auto, using(crate::proofs::Paths::cut_none, crate::proofs::Paths::cut_some))]
fn cut_step(text: &[u8]) -> (&[u8], Option<&[u8]>)
    ensures steps { steps_of text.now ≡ result.0.now ∷ steps_left (option_copied result.1) }
    ensures shorter { IfSome result.1 (λ more. length more.now < length text.now) }
{
    match first_point(text) {
        Some(end) => (&text[..end], Some(&text[end + 1..])),
        None => (text, None),
    }
}

// Up to eight steps, each of digits.
fn is_path(text: &[u8]) -> bool
    ensures { result ≡ is_path text.now }
{
    let mut rest = Some(text);
    let mut count: usize = 0;
    while let Some(text) = rest {
        let (step, more) = cut_step(text);
        count += 1;
        if count > 8 || !is_numeral(step) {
            return false;
        }
        rest = more;
    }
    true
}

/// The path that a field says.
#[tactic(auto, unfolding(crate::specs::Grammar::path_in))]
pub(crate) fn read_path(field: Field<'_>) -> Result<Path, LineFault>
    ensures { result ≡ path_in field.entry.column field.entry.text.now }
{
    let column = field.column;
    if !is_path(field.text) {
        return Err(LineFault::BadLine { column });
    }
    let mut path = Path::new();
    let mut rest = Some(field.text);
    while let Some(text) = rest {
        let (step, more) = cut_step(text);
        let step = number_to(u64::from(u32::MAX), Field { column, text: step })?;
        path.add(step as u32);
        rest = more;
    }
    Ok(path)
}

// The value of a hexadecimal digit, of either case.
fn hex_value(digit: u8) -> u8
    requires { is_ascii_hexdigit digit ≡ true }
    ensures value { result ≡ digit_value digit }
    ensures most { result < 16 }
{
    match digit {
        b'0'..=b'9' => digit - b'0',
        b'a'..=b'f' => digit - b'a' + 10,
        _ => digit - b'A' + 10,
    }
}

// From 1 to 64 bytes, two hexadecimal digits each.
fn has_octets(text: &[u8]) -> bool
    ensures { result ≡ has_octets text.now }
{
    are_hexdigits(text) && text.len() % 2 == 0 && 2 <= text.len() && text.len() <= 128
}

/// The bytes that a field says.
#[tactic(auto, using(crate::proofs::Octets::octet_rules), unfolding(crate::specs::Grammar::octets_in))]
pub(crate) fn read_octets(field: Field<'_>) -> Result<Octets, LineFault>
    ensures { result ≡ octets_in field.entry.column field.entry.text.now }
{
    let mut digits = field.text;
    if !has_octets(digits) {
        return Err(LineFault::BadLine {
            column: field.column,
        });
    }
    let mut octets = Octets::new();
    while digits.len() >= 2 {
        octets.add(16 * hex_value(digits[0]) + hex_value(digits[1]));
        digits = &digits[2..];
    }
    Ok(octets)
}
