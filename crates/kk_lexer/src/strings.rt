ghost use Rattle.std.specs.Prelude.{◌≡◌, ◌+◌, ◌<◌, ◌≤◌, Bool, length, slice_index};
ghost use Rattle.kk_base.specs.Limits.{greatest_of};
ghost use Rattle.kk_base.specs.declared.limit.LimitKind.TheVariants.{Source};
ghost use Rattle.kk_lexer.specs.FirstLexemes.{AnswersMeaning, IsFirstLexeme};
ghost use Rattle.kk_lexer.specs.Lexemes.{string_meaning};
ghost use Rattle.kk_lexer.specs.Parts.{IsFirstPart};
ghost use Rattle.kk_lexer.specs.Strings.{escaped};

use crate::lexeme::Lexeme;
use kk_base::{LexError, Text};
use kk_syntax::{StringLiteral, Token};
use std::alloc::Global;

/// The byte that an escape stands for, by the byte behind its `\`.
fn escaped(byte: u8) -> Option<u8>
    ensures { result ≡ escaped byte }
{
    match byte {
        b'n' => Some(b'\n'),
        b'r' => Some(b'\r'),
        b't' => Some(b'\t'),
        b'\\' => Some(b'\\'),
        b'"' => Some(b'"'),
        b'\'' => Some(b'\''),
        _ => None,
    }
}

/// What stands at a place inside of a string.
enum Part {
    /// A byte of the string, spelled by so many bytes.
    Byte { byte: u8, length: usize },
    /// The quote that closes it.
    Quote,
    /// The `\` of an escape that there is not.
    BadEscape,
    /// The end of the line or of the text.
    End,
}

/// What stands at the beginning of a text, inside of a string.
fn first_part(text: &[u8]) -> Part
    ensures { IsFirstPart text.now result }
{
    match text {
        [] | [b'\n', ..] => Part::End,
        [b'"', ..] => Part::Quote,
        [b'\\', next, ..] => match escaped(*next) {
            Some(byte) => Part::Byte { byte, length: 2 },
            None => Part::BadEscape,
        },
        [b'\\'] => Part::BadEscape,
        [byte, ..] => Part::Byte {
            byte: *byte,
            length: 1,
        },
    }
}

/// A closed string of these bytes.
fn closed(bytes: Vec<u8>, length: usize, at: u32) -> Result<Lexeme, LexError>
    ensures { AnswersMeaning length (string_meaning at bytes.items) result }
{
    if bytes.len() > StringLiteral::MOST_BYTES {
        return Err(LexError::StringTooLong { at });
    }
    Ok(Lexeme::kept(
        Token::String(StringLiteral::new(Text::from_vec(bytes))),
        length,
    ))
}

/// The string that a text begins with. Its first byte is a quote.
pub fn string(alloc: Global, text: &[u8], at: u32) -> Result<Lexeme, LexError>
    requires text { 0 < length text.now }
    requires quote { slice_index text.now 0 ≡ 34 }
    requires end { at + length text.now ≤ greatest_of Source }
    ensures { (signed : Bool) → IsFirstLexeme signed at text.now result }
{
    let inside = &text[1..];
    let mut bytes = Vec::new(alloc);
    let mut length = 0;
    loop {
        match first_part(&inside[length..]) {
            Part::Byte { byte, length: more } => {
                let Ok(()) = bytes.push(byte) else {
                    return Err(LexError::NoMemory);
                };
                length += more;
            }
            Part::Quote => return closed(bytes, length + 2, at),
            Part::BadEscape => {
                let at = at + 1 + length as u32;
                return Err(LexError::BadByte { at });
            }
            Part::End => return Err(LexError::OpenString { at }),
        }
    }
}
