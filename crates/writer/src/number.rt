// The numbers of the text: decimals, nan, inf, -inf, or x and the eight hexadecimal digits of the bits.
use crate::problem::{Problem, Word};
use crate::scan::split_once;
use numbers::bits::from_bits;
use numbers::decimal::from_decimal;
use std::{iter, str};

// Why a word is no number.
#[derive(Clone, Copy, Debug)]
enum NumberWhy {
    NoNumber,
    TooLong,
}

// Ten to the power `up`, over ten to the power `down`.
#[derive(Clone, Copy, Debug)]
struct Scale {
    up: usize,
    down: usize,
}

// Whether a word is digits, or empty.
fn is_digits(word: &[u8]) -> bool {
    word.iter().all(u8::is_ascii_digit)
}

// The whole number of one to three digits that a word is.
pub(crate) fn short(word: &[u8]) -> Option<u16> {
    if word.len() > 3 || !is_digits(word) {
        return None;
    }
    str::from_utf8(word).ok()?.parse().ok()
}

// The number whose bits are eight hexadecimal digits.
fn from_hex(word: &[u8]) -> Option<f32> {
    if word.len() != 8 || !word.iter().all(u8::is_ascii_hexdigit) {
        return None;
    }
    let bits = u32::from_str_radix(str::from_utf8(word).ok()?, 16).ok()?;
    Some(from_bits(bits))
}

// Whether a word is digits with at most one point, and at least one digit.
fn is_mantissa(word: &[u8]) -> bool {
    let (whole, fraction) = split_once(word, |b| *b == b'.').unwrap_or((word, &[]));
    let has_digit = !(whole.is_empty() && fraction.is_empty());
    has_digit && is_digits(whole) && is_digits(fraction)
}

// What an exponent multiplies by.
fn exponent(word: &[u8]) -> Option<Scale> {
    let (is_negative, digits) = match word {
        [b'-', digits @ ..] => (true, digits),
        [b'+', digits @ ..] => (false, digits),
        digits => (false, digits),
    };
    let n = usize::from(short(digits)?);
    Some(if is_negative {
        Scale { up: 0, down: n }
    } else {
        Scale { up: n, down: 0 }
    })
}

// The value of a digit.
fn digit(b: &u8) -> Option<u32> {
    char::from(*b).to_digit(10)
}

// The number nearest to what some digits spell, times the scale: at most nine digits and nine places are taken.
fn scaled(digits: &[u8], scale: Scale) -> Option<f32> {
    let zeros = scale.up.saturating_sub(scale.down);
    let places = scale.down.saturating_sub(scale.up);
    let count = digits.iter().filter_map(digit).count();
    if count.saturating_add(zeros) > 9 {
        return None;
    }
    let n = digits
        .iter()
        .filter_map(digit)
        .chain(iter::repeat_n(0, zeros))
        .fold(0u32, |n, value| n.wrapping_mul(10).wrapping_add(value));
    from_decimal(n, u8::try_from(places).ok()?)
}

// The number nearest to a mantissa times the scale. Zeros before its first and behind its last other digit are not counted.
fn decimal(mantissa: &[u8], power: Scale) -> Option<f32> {
    let is_other_digit = |b: &u8| matches!(b, b'1'..=b'9');
    let Some(first) = mantissa.iter().position(is_other_digit) else {
        return Some(0.0);
    };
    let end = mantissa.iter().rposition(is_other_digit)? + 1;
    let point = mantissa
        .iter()
        .position(|b| *b == b'.')
        .unwrap_or(mantissa.len());
    let scale = Scale {
        up: power.up.saturating_add(point.saturating_sub(end)),
        down: power
            .down
            .saturating_add(end.saturating_sub(point).saturating_sub(1)),
    };
    scaled(mantissa.get(first..end)?, scale)
}

// A decimal without sign.
fn unsigned(word: &[u8]) -> Result<f32, NumberWhy> {
    let (mantissa, power) = match split_once(word, |b| matches!(b, b'e' | b'E')) {
        Some((mantissa, digits)) => (mantissa, exponent(digits).ok_or(NumberWhy::NoNumber)?),
        None => (word, Scale { up: 0, down: 0 }),
    };
    if !is_mantissa(mantissa) {
        return Err(NumberWhy::NoNumber);
    }
    decimal(mantissa, power).ok_or(NumberWhy::TooLong)
}

// A word of any length as a number.
fn spelt_number(word: &[u8]) -> Result<f32, NumberWhy> {
    match word {
        b"nan" => Ok(f32::NAN),
        b"inf" => Ok(f32::INFINITY),
        b"-inf" => Ok(f32::NEG_INFINITY),
        [b'x', digits @ ..] => from_hex(digits).ok_or(NumberWhy::NoNumber),
        [b'-', decimal @ ..] => Ok(-unsigned(decimal)?),
        [b'+', decimal @ ..] => unsigned(decimal),
        decimal => unsigned(decimal),
    }
}

// A word as a number, if it is not longer than 100 bytes: oracle/card takes no longer one.
pub(crate) fn read_number(word: &[u8]) -> Result<f32, Problem<'_>> {
    match spelt_number(word) {
        Ok(x) if word.len() <= 100 => Ok(x),
        Ok(_) | Err(NumberWhy::TooLong) => Err(Problem::TooLong(Word(word))),
        Err(NumberWhy::NoNumber) if word.is_empty() => Err(Problem::NoWord),
        Err(NumberWhy::NoNumber) => Err(Problem::NoNumber(Word(word))),
    }
}
