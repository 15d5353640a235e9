ghost use Rattle.std.specs.Prelude.{◌≡◌, ◌<◌, Bool, true, [], ◌∷◌, length, take, slice_index, MatchOption};
ghost use Rattle.kk_syntax.specs.declared.token.Symbol.{Symbol};
ghost use Rattle.kk_lexer.specs.FirstLexemes.{IsFirstLexeme};
ghost use Rattle.kk_lexer.specs.Fronts.{HasNoFront, IsLongest};
ghost use Rattle.kk_lexer.specs.Symbols.{symbol_spelling};
ghost use Rattle.kk_lexer.specs.Scanners.{begins_other, IsSymbol};

use crate::lexeme::Lexeme;
use crate::numbers::negative_number;
use kk_base::LexError;
use kk_syntax::{Symbol, Token};

/// The symbol of two bytes.
fn symbol_of_two(first: u8, second: u8) -> Option<Symbol>
    ensures { MatchOption result ((s : Symbol) → symbol_spelling s ≡ first ∷ second ∷ [] → ⊥)
        (λ s. symbol_spelling s ≡ first ∷ second ∷ []) }
{
    match (first, second) {
        (b'-', b'>') => Some(Symbol::Arrow),
        (b'=', b'=') => Some(Symbol::EqualEqual),
        (b'!', b'=') => Some(Symbol::NotEqual),
        (b'<', b'=') => Some(Symbol::LessEqual),
        (b'>', b'=') => Some(Symbol::GreaterEqual),
        (b'&', b'&') => Some(Symbol::AndAnd),
        (b'|', b'|') => Some(Symbol::OrOr),
        _ => None,
    }
}

/// The symbol of one byte.
fn symbol_of_one(byte: u8) -> Option<Symbol>
    ensures { MatchOption result ((s : Symbol) → symbol_spelling s ≡ byte ∷ [] → ⊥)
        (λ s. symbol_spelling s ≡ byte ∷ []) }
{
    match byte {
        b'(' => Some(Symbol::OpenParenthesis),
        b')' => Some(Symbol::CloseParenthesis),
        b'{' => Some(Symbol::OpenBrace),
        b'}' => Some(Symbol::CloseBrace),
        b',' => Some(Symbol::Comma),
        b';' => Some(Symbol::Semicolon),
        b':' => Some(Symbol::Colon),
        b'.' => Some(Symbol::Dot),
        b'=' => Some(Symbol::Equals),
        b'+' => Some(Symbol::Plus),
        b'-' => Some(Symbol::Minus),
        b'*' => Some(Symbol::Star),
        b'/' => Some(Symbol::Slash),
        b'%' => Some(Symbol::Percent),
        b'<' => Some(Symbol::Less),
        b'>' => Some(Symbol::Greater),
        b'!' => Some(Symbol::Exclamation),
        b'~' => Some(Symbol::Tilde),
        _ => None,
    }
}

/// The symbol that a text begins with, and the number of its bytes.
fn first_symbol(text: &[u8]) -> Option<(Symbol, usize)>
    requires { 0 < length text.now }
    ensures { MatchOption result (HasNoFront IsSymbol text.now)
        (λ found. IsLongest IsSymbol text.now found.1 × (symbol_spelling found.0 ≡ take found.1 text.now)) }
{
    if text.len() > 1 {
        if let Some(symbol) = symbol_of_two(text[0], text[1]) {
            return Some((symbol, 2));
        }
    }
    match symbol_of_one(text[0]) {
        Some(symbol) => Some((symbol, 1)),
        None => None,
    }
}

/// What a text begins with whose first byte is a `-`. `signed` says whether it belongs to a number directly behind it.
pub fn dash(text: &[u8], at: u32, signed: bool) -> Result<Lexeme, LexError>
    requires text { 0 < length text.now }
    requires dash { slice_index text.now 0 ≡ 45 }
    ensures { IsFirstLexeme signed at text.now result }
{
    if text.len() > 1 {
        if signed && text[1].is_ascii_digit() {
            return negative_number(text, at);
        }
        if text[1] == b'>' {
            return Ok(Lexeme::kept(Token::Symbol(Symbol::Arrow), 2));
        }
    }
    Ok(Lexeme::kept(Token::Symbol(Symbol::Minus), 1))
}

/// The symbol that a text begins with, or a byte that begins no token. Its first byte begins nothing else.
pub fn symbol(text: &[u8], at: u32) -> Result<Lexeme, LexError>
    requires text { 0 < length text.now }
    requires other { begins_other (slice_index text.now 0) ≡ true }
    ensures { (signed : Bool) → IsFirstLexeme signed at text.now result }
{
    match first_symbol(text) {
        Some((symbol, length)) => Ok(Lexeme::kept(Token::Symbol(symbol), length)),
        None => Err(LexError::BadByte { at }),
    }
}
