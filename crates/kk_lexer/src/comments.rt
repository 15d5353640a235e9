ghost use Rattle.std.specs.Prelude.{◌≡◌, ◌==◌, ◌<◌, ◌≤◌, length, not, slice_index, MatchOption, Bool};
ghost use Rattle.std.specs.List.{prefix_len};
ghost use Rattle.kk_lexer.specs.Comments.{Closes};
ghost use Rattle.kk_lexer.specs.FirstLexemes.{IsFirstLexeme};
ghost use Rattle.kk_lexer.specs.Fronts.{HasNoFront, IsLongest};
ghost use Rattle.kk_lexer.specs.Marks.{IsFirstMark};

use crate::lexeme::Lexeme;
use kk_base::LexError;
use kk_syntax::{Symbol, Token};

/// What stands at a place inside of a comment.
enum Mark {
    /// `/*`
    Open,
    /// `*/`
    Close,
    /// A byte that begins neither.
    Other,
    /// The end of the text.
    End,
}

/// What stands at the beginning of a text, inside of a comment.
fn first_mark(text: &[u8]) -> Mark
    ensures { IsFirstMark text.now result }
{
    match text {
        [b'/', b'*', ..] => Mark::Open,
        [b'*', b'/', ..] => Mark::Close,
        [_, ..] => Mark::Other,
        [] => Mark::End,
    }
}

/// How many bytes a comment has behind its first `/*`, where it is closed.
fn comment_length(text: &[u8]) -> Option<usize>
    ensures { MatchOption result
        (HasNoFront (Closes 1) text.now) (λ n. IsLongest (Closes 1) text.now n) }
{
    let mut depth: usize = 1;
    let mut length = 0;
    while depth > 0 {
        match first_mark(&text[length..]) {
            Mark::Open => {
                depth += 1;
                length += 2;
            }
            Mark::Close => {
                depth -= 1;
                length += 2;
            }
            Mark::Other => length += 1,
            Mark::End => return None,
        }
    }
    Some(length)
}

/// How many bytes of a text stand before the end of the line.
fn line_length(text: &[u8]) -> usize
    ensures value { result ≡ prefix_len (λ b. not (b == 10)) text.now }
    ensures fits { result ≤ length text.now }
{
    text.iter().take_while(|byte| **byte != b'\n').count()
}

/// The comment that a text begins with. Its first bytes are `/*`.
fn comment(text: &[u8], at: u32) -> Result<Lexeme, LexError>
    requires text { 1 < length text.now }
    requires slash { slice_index text.now 0 ≡ 47 }
    requires star { slice_index text.now 1 ≡ 42 }
    ensures { (signed : Bool) → IsFirstLexeme signed at text.now result }
{
    match comment_length(&text[2..]) {
        Some(length) => Ok(Lexeme::passed(2 + length)),
        None => Err(LexError::OpenComment { at }),
    }
}

/// What a text begins with whose first byte is a `/`.
pub fn slash(text: &[u8], at: u32) -> Result<Lexeme, LexError>
    requires text { 0 < length text.now }
    requires slash { slice_index text.now 0 ≡ 47 }
    ensures { (signed : Bool) → IsFirstLexeme signed at text.now result }
{
    if text.len() > 1 {
        if text[1] == b'/' {
            return Ok(Lexeme::passed(2 + line_length(&text[2..])));
        }
        if text[1] == b'*' {
            return comment(text, at);
        }
    }
    Ok(Lexeme::kept(Token::Symbol(Symbol::Slash), 1))
}
