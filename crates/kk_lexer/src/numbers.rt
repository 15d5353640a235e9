ghost use Rattle.std.specs.Prelude.{◌≡◌, ℕ, ◌+◌, ◌*◌, ◌<◌, ◌≤◌, min, Bool, true, length, take, slice_index, MatchOption};
ghost use Rattle.std.specs.Bool.{OnTrue};
ghost use Rattle.std.specs.Char.{IsAsciiDigit, is_ascii_hexdigit};
ghost use Rattle.std.specs.List.{prefix_len};
ghost use Rattle.kk_lexer.specs.FirstLexemes.{IsFirstLexeme};
ghost use Rattle.kk_lexer.specs.Fronts.{HasNoFront, IsLongest};
ghost use Rattle.kk_lexer.specs.Numbers.{is_decimal, value_behind, value_with, IsNumber};
ghost use Rattle.kk_lexer.specs.Scanners.{decimal_goes_on, IsHexadecimalNumber, IsSomeNumber};

use crate::lexeme::Lexeme;
use kk_base::LexError;
use kk_syntax::Token;

/// The greatest number.
const GREATEST: u64 = 2_147_483_647;

/// The greatest size of a number with a `-`.
const GREATEST_NEGATIVE: u64 = GREATEST + 1;

/// More than the size of each number: a greater value is told as this one.
const FAR: u64 = GREATEST_NEGATIVE + 1;

/// A number that a text begins with.
#[derive(Clone, Copy)]
struct Digits {
    /// Its value, or `FAR` where that is less.
    value: u64,
    /// The number of its bytes.
    length: usize,
}

/// The value of digits with one more byte behind them, or `FAR` where that is less. A `_` has none.
fn with_byte(value: u64, base: u64, byte: u8) -> u64
    requires value { value ≤ FAR }
    requires base { base ≤ 16 }
    ensures { result ≡ min (value_with base value byte) FAR }
{
    match char::from(byte).to_digit(16) {
        Some(digit) => (value * base + u64::from(digit)).min(FAR),
        None => value,
    }
}

/// The value of digits in a base, or `FAR` where that is less. A `_` has none.
fn value_of(word: &[u8], base: u64) -> u64
    requires low { 1 ≤ base }
    requires high { base ≤ 16 }
    ensures { result ≡ min (value_behind base 0 word.now) FAR }
{
    let mut value = 0;
    for byte in word {
        value = with_byte(value, base, *byte);
    }
    value
}

/// Whether a decimal number goes on with the first byte of `after`, behind a digit or `_`.
fn goes_on(after: &[u8]) -> bool
    ensures value { result ≡ decimal_goes_on after.now }
    ensures some { OnTrue result (0 < length after.now) }
{
    match after {
        [b'_', next, ..] => next.is_ascii_digit(),
        [byte, ..] => byte.is_ascii_digit(),
        [] => false,
    }
}

/// How many bytes the decimal number has that a text begins with. Its first byte is a digit.
fn decimal_length(text: &[u8]) -> usize
    requires text { 0 < length text.now }
    requires digit { IsAsciiDigit (slice_index text.now 0) }
    ensures { IsLongest (λ w. is_decimal w ≡ true) text.now result }
{
    let mut length = 1;
    while goes_on(&text[length..]) {
        length += 1;
    }
    length
}

/// How many hexadecimal digits a text begins with.
fn hexadecimal_digits(text: &[u8]) -> usize
    ensures value { result ≡ prefix_len is_ascii_hexdigit text.now }
    ensures fits { result ≤ length text.now }
{
    text.iter()
        .take_while(|byte| byte.is_ascii_hexdigit())
        .count()
}

/// The hexadecimal number that a text begins with.
fn hexadecimal(text: &[u8]) -> Option<Digits>
    ensures longest { MatchOption result
        (HasNoFront IsHexadecimalNumber text.now) (λ d. IsLongest IsSomeNumber text.now d.length) }
    ensures value { MatchOption result (Unit {0})
        (λ d. (n : ℕ) × IsNumber (take d.length text.now) n × (d.value ≡ min n FAR)) }
{
    match text {
        [b'0', b'x', digits @ ..] => {
            let length = hexadecimal_digits(digits);
            if length == 0 {
                return None;
            }
            Some(Digits {
                value: value_of(&digits[..length], 16),
                length: length + 2,
            })
        }
        _ => None,
    }
}

/// The number that a text begins with. Its first byte is a digit.
fn magnitude(text: &[u8]) -> Digits
    requires text { 0 < length text.now }
    requires digit { IsAsciiDigit (slice_index text.now 0) }
    ensures longest { IsLongest IsSomeNumber text.now result.length }
    ensures value { (n : ℕ) × IsNumber (take result.length text.now) n × (result.value ≡ min n FAR) }
{
    if let Some(digits) = hexadecimal(text) {
        return digits;
    }
    let length = decimal_length(text);
    Digits {
        value: value_of(&text[..length], 10),
        length,
    }
}

/// The number that a text begins with. Its first byte is a digit.
pub fn number(text: &[u8], at: u32) -> Result<Lexeme, LexError>
    requires text { 0 < length text.now }
    requires digit { IsAsciiDigit (slice_index text.now 0) }
    ensures { (signed : Bool) → IsFirstLexeme signed at text.now result }
{
    let Digits { value, length } = magnitude(text);
    if value > GREATEST {
        return Err(LexError::NumberTooLarge { at });
    }
    Ok(Lexeme::kept(Token::Number(value as i32), length))
}

/// The number that a text begins with whose first bytes are a `-` and a digit.
pub fn negative_number(text: &[u8], at: u32) -> Result<Lexeme, LexError>
    requires text { 1 < length text.now }
    requires dash { slice_index text.now 0 ≡ 45 }
    requires digit { IsAsciiDigit (slice_index text.now 1) }
    ensures { IsFirstLexeme true at text.now result }
{
    let Digits { value, length } = magnitude(&text[1..]);
    if value > GREATEST_NEGATIVE {
        return Err(LexError::NumberTooLarge { at });
    }
    Ok(Lexeme::kept(Token::Number(-(value as i64) as i32), 1 + length))
}
