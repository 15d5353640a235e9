ghost use Rattle.std.specs.Prelude.{◌≡◌, ◌+◌, ◌<◌, ◌≤◌, length};
ghost use Rattle.kk_base.specs.Limits.{greatest_of};
ghost use Rattle.kk_base.specs.declared.limit.LimitKind.TheVariants.{Source};
ghost use Rattle.kk_lexer.specs.FirstLexemes.{IsFirstLexeme};

use crate::comments::slash;
use crate::names::{constructor_name, name, wildcard};
use crate::numbers::number;
use crate::strings::string;
use crate::symbols::{dash, symbol};
use kk_base::LexError;
use kk_syntax::Token;
use std::alloc::Global;

/// A lexeme that can be read.
#[derive(Drop)]
pub struct Lexeme {
    /// The token that it is; none for a blank, a line's end and a comment.
    pub token: Option<Token>,
    /// The number of its bytes.
    pub length: usize,
}

impl Lexeme {
    /// The first bytes of a text, so many, are this token.
    pub fn kept(token: Token, length: usize) -> Self
        ensures { result ≡ record { token = Some token; length = length } }
    {
        Lexeme {
            token: Some(token),
            length,
        }
    }

    /// The first bytes of a text, so many, are passed over.
    pub fn passed(length: usize) -> Self
        ensures { result ≡ record { token = None; length = length } }
    {
        Lexeme {
            token: None,
            length,
        }
    }
}

/// The lexeme that a text begins with. `at` is the place of its first byte; `signed` says whether a `-` belongs to the
/// number behind it.
pub fn first_lexeme(alloc: Global, text: &[u8], at: u32, signed: bool) -> Result<Lexeme, LexError>
    requires text { 0 < length text.now }
    requires end { at + length text.now ≤ greatest_of Source }
    ensures { IsFirstLexeme signed at text.now result }
{
    match text[0] {
        b' ' | b'\t' | b'\r' | b'\n' => Ok(Lexeme::passed(1)),
        b'a'..=b'z' => name(alloc, text),
        b'A'..=b'Z' => constructor_name(alloc, text),
        b'_' => wildcard(text),
        b'0'..=b'9' => number(text, at),
        b'"' => string(alloc, text, at),
        b'/' => slash(text, at),
        b'-' => dash(text, at, signed),
        _ => symbol(text, at),
    }
}
