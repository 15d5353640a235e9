ghost use Rattle.std.specs.Prelude.{◌≡◌, ◌==◌, ℕ, Bool, true, ◌<◌, ◌≤◌, length, IfOk, MatchOption, slice_index, string_bytes};
ghost use Rattle.std.specs.Bool.{OnTrue};
ghost use Rattle.std.specs.Char.{IsAsciiLowercase, IsAsciiUppercase};
ghost use Rattle.std.specs.List.{prefix_len};
ghost use Rattle.std.specs.Str.{IsAscii};
ghost use Rattle.kk_syntax.specs.declared.token.Keyword.{Keyword};
ghost use Rattle.kk_lexer.specs.FirstLexemes.{IsFirstLexeme, IsNameOrKeyword};
ghost use Rattle.kk_lexer.specs.Fronts.{IsLongest};
ghost use Rattle.kk_lexer.specs.Names.{ends_name, is_word_byte, keyword_spelling};
ghost use Rattle.kk_lexer.specs.Scanners.{name_goes_on};

use crate::lexeme::Lexeme;
use kk_base::{LexError, Name};
use kk_syntax::{Keyword, Token};
use std::alloc::{AllocError, Global};

/// Whether a byte stands in a name whatever stands beside it: a letter, a digit or `_`.
fn is_word_byte(byte: u8) -> bool
    ensures { result ≡ is_word_byte byte }
{
    byte.is_ascii_alphanumeric() || byte == b'_'
}

/// Whether a name goes on with the first byte of `after`, behind the byte `before`.
fn goes_on(before: u8, after: &[u8]) -> bool
    ensures value { result ≡ name_goes_on before after.now }
    ensures some { OnTrue result (0 < length after.now) }
{
    match after {
        [b'-', next, ..] => before.is_ascii_alphanumeric() && next.is_ascii_alphabetic(),
        [byte, ..] => is_word_byte(*byte),
        [] => false,
    }
}

/// How many `'` a text begins with.
fn primes(text: &[u8]) -> usize
    ensures value { result ≡ prefix_len (λ b. b == 39) text.now }
    ensures fits { result ≤ length text.now }
{
    text.iter().take_while(|byte| **byte == b'\'').count()
}

/// How many bytes of a text go on with a name behind the byte `before`.
fn name_end(before: u8, text: &[u8]) -> usize
    ensures { IsLongest (λ w. ends_name before w ≡ true) text.now result }
{
    let mut last = before;
    let mut length = 0;
    while goes_on(last, &text[length..]) {
        last = text[length];
        length += 1;
    }
    length + primes(&text[length..])
}

/// The keyword that a word is, if it is one.
fn keyword(word: &str) -> Option<Keyword>
    ensures { MatchOption result
        ((k : Keyword) → keyword_spelling k ≡ word.now → ⊥) (λ k. keyword_spelling k ≡ word.now) }
{
    match word {
        "type" => Some(Keyword::Type),
        "fun" => Some(Keyword::Fun),
        "val" => Some(Keyword::Val),
        "match" => Some(Keyword::Match),
        "if" => Some(Keyword::If),
        "then" => Some(Keyword::Then),
        "elif" => Some(Keyword::Elif),
        "else" => Some(Keyword::Else),
        _ => None,
    }
}

/// The token of a word that is spelled as a name.
fn name_or_keyword(spelling: String) -> Token
    ensures { IsNameOrKeyword (string_bytes spelling) result }
{
    match keyword(spelling.as_str()) {
        Some(keyword) => Token::Keyword(keyword),
        None => Token::Name(Name::new(spelling)),
    }
}

/// Bytes of ASCII as a text.
fn spelled(alloc: Global, word: &[u8]) -> Result<String, AllocError>
    requires { IsAscii word.now }
    ensures { IfOk result (λ spelling. string_bytes spelling ≡ word.now) }
{
    let mut spelling = String::new(alloc);
    for byte in word {
        spelling.push(char::from(*byte))?;
    }
    Ok(spelling)
}

/// The name or keyword that a text begins with. Its first byte is a lower-case letter.
pub fn name(alloc: Global, text: &[u8]) -> Result<Lexeme, LexError>
    requires text { 0 < length text.now }
    requires letter { IsAsciiLowercase (slice_index text.now 0) }
    ensures { (signed : Bool) (at : ℕ) → IsFirstLexeme signed at text.now result }
{
    let length = 1 + name_end(text[0], &text[1..]);
    let Ok(spelling) = spelled(alloc, &text[..length]) else {
        return Err(LexError::NoMemory);
    };
    Ok(Lexeme::kept(name_or_keyword(spelling), length))
}

/// The constructor name that a text begins with. Its first byte is an upper-case letter.
pub fn constructor_name(alloc: Global, text: &[u8]) -> Result<Lexeme, LexError>
    requires text { 0 < length text.now }
    requires letter { IsAsciiUppercase (slice_index text.now 0) }
    ensures { (signed : Bool) (at : ℕ) → IsFirstLexeme signed at text.now result }
{
    let length = 1 + name_end(text[0], &text[1..]);
    let Ok(spelling) = spelled(alloc, &text[..length]) else {
        return Err(LexError::NoMemory);
    };
    Ok(Lexeme::kept(Token::Constructor(Name::new(spelling)), length))
}

/// How many letters, digits and `_` a text begins with.
fn word_bytes(text: &[u8]) -> usize
    ensures value { result ≡ prefix_len is_word_byte text.now }
    ensures fits { result ≤ length text.now }
{
    text.iter().take_while(|byte| is_word_byte(**byte)).count()
}

/// The wildcard that a text begins with. Its first byte is `_`.
pub fn wildcard(text: &[u8]) -> Result<Lexeme, LexError>
    requires text { 0 < length text.now }
    requires underscore { slice_index text.now 0 ≡ 95 }
    ensures { (signed : Bool) (at : ℕ) → IsFirstLexeme signed at text.now result }
{
    let length = 1 + word_bytes(&text[1..]);
    Ok(Lexeme::kept(Token::Wildcard, length))
}
