ghost use Rattle.std.specs.Prelude.{◌≡◌, ◌+◌, ◌≤◌, ◌++◌, length, IfOk, OnOk, ◌-◌, ◌*◌, ◌/◌};
ghost use Rattle.kk_base.specs.Limits.{greatest_of};
ghost use Rattle.kk_base.specs.declared.limit.LimitKind.TheVariants.{Source};
ghost use Rattle.kk_lexer.specs.Readings.{ends_operand, is_sign, EachTextIsRead, IsReading, UnlessNoMemory};
ghost use Rattle.kk_lexer.specs.Scanners.{located, IsBounded};
ghost use Rattle.kk_syntax.specs.Places.{start, place_behind};

use crate::lexeme::{Lexeme, first_lexeme};
use kk_base::{LexError, NoMemory, Span};
use kk_syntax::{LocatedToken, Symbol, Token, Tokens};
use std::alloc::Global;

/// Whether a token can end what stands before an operator, so that a `-` behind it is one.
fn ends_operand(token: &Token) -> bool
    ensures { result ≡ ends_operand token.now }
{
    matches!(
        token,
        Token::Name(_)
            | Token::Constructor(_)
            | Token::Wildcard
            | Token::Number(_)
            | Token::String(_)
            | Token::Symbol(Symbol::CloseParenthesis | Symbol::CloseBrace)
    )
}

/// Whether a `-` on a line belongs to a number directly behind it. `before` are the tokens before it.
fn is_sign(before: &[LocatedToken], line: u32) -> bool
    ensures { result ≡ is_sign before.now line }
{
    match before.last() {
        Some(previous) => previous.span.line != line || !ends_operand(&previous.token),
        None => true,
    }
}

/// Adds a token with its place; of what is passed over there is none.
fn keep(items: &mut Vec<LocatedToken>, token: Option<Token>, span: Span) -> Result<(), NoMemory>
    ensures { OnOk result (items.new.items ≡ items.old.items ++ located token span) }
{
    if let Some(token) = token {
        items.push(LocatedToken { token, span })?;
    }
    Ok(())
}

/// The tokens of a text, or why it has none: the first lexeme that cannot be read.
pub fn tokens(alloc: Global, text: &[u8]) -> Result<Tokens, LexError>
    requires { length text.now ≤ greatest_of Source }
    ensures reading { UnlessNoMemory result (IsReading text.now) }
    ensures few { IfOk result (λ list. length list.items ≤ length text.now) }
{
    let mut items = Vec::new(alloc);
    let mut place = start();
    let mut rest = text;
    while !rest.is_empty() {
        let signed = is_sign(items.as_slice(), place.line);
        let Lexeme { token, length } = first_lexeme(alloc, rest, place.at, signed)?;
        let Ok(()) = keep(&mut items, token, place) else {
            return Err(LexError::NoMemory);
        };
        let (word, after) = rest.split_at(length);
        place = behind(place, word);
        rest = after;
    }
    Ok(Tokens::from_vec(items, place))
}

/// Each text has a reading: its tokens, or a first lexeme that cannot be read. It is a law, and does nothing.
pub fn each_text_is_read()
    ensures { EachTextIsRead }
{}

/// The place where a text begins.
pub fn start() -> Span
    ensures place { result ≡ start }
    ensures bounded { IsBounded result }
{
    Span {
        at: 0,
        line: 1,
        column: 1,
    }
}

/// The column behind a tab.
fn behind_tab(column: u32) -> u32
    requires low { 1 ≤ column }
    requires high { column ≤ 8 * greatest_of Source + 1 }
    ensures { result ≡ (column - 1) / 8 * 8 + 9 }
{
    (column - 1) / 8 * 8 + 9
}

/// The place behind these bytes.
pub fn behind(place: Span, bytes: &[u8]) -> Span
    requires end { place.at + length bytes.now ≤ greatest_of Source }
    requires bounded { IsBounded place }
    ensures place { result ≡ place_behind place bytes.now }
    ensures at { result.at ≡ place.at + length bytes.now }
    ensures bounded { IsBounded result }
{
    let Span {
        mut at,
        mut line,
        mut column,
    } = place;
    for byte in bytes {
        at += 1;
        match byte {
            b'\n' => {
                line += 1;
                column = 1;
            }
            b'\t' => column = behind_tab(column),
            _ => column += 1,
        }
    }
    Span { at, line, column }
}
