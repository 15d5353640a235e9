ghost use Rattle.std.specs.Prelude.{◌≡◌};
ghost use Rattle.kk_syntax.specs.TokenList.{TokenList};

use crate::literal::StringLiteral;
use kk_base::{Name, Span};
use std::marker::Model;

/// A word that is no name.
#[derive(Clone, Copy, Debug)]
pub enum Keyword {
    Type,
    Fun,
    Val,
    Match,
    If,
    Then,
    Elif,
    Else,
}

/// A bracket, a sign of punctuation or an operator.
#[derive(Clone, Copy, Debug)]
pub enum Symbol {
    OpenParenthesis,
    CloseParenthesis,
    OpenBrace,
    CloseBrace,
    Comma,
    Semicolon,
    Colon,
    Dot,
    /// `=`
    Equals,
    /// `->`
    Arrow,
    Plus,
    Minus,
    Star,
    Slash,
    Percent,
    /// `==`
    EqualEqual,
    /// `!=`
    NotEqual,
    Less,
    LessEqual,
    Greater,
    GreaterEqual,
    /// `&&`
    AndAnd,
    /// `||`
    OrOr,
    /// `!`
    Exclamation,
    /// `~`
    Tilde,
}

/// A token of a source text.
#[derive(Drop)]
pub enum Token {
    /// A name that begins with a lower-case letter.
    Name(Name),
    /// A name that begins with an upper-case letter: of a constructor.
    Constructor(Name),
    /// `_`, whatever follows it.
    Wildcard,
    /// A number, negative where a `-` belongs to it.
    Number(i32),
    /// A string literal, its escapes read.
    String(StringLiteral),
    Keyword(Keyword),
    Symbol(Symbol),
}

/// A token and the place of its first byte.
#[derive(Drop)]
pub struct LocatedToken {
    pub token: Token,
    pub span: Span,
}

/// The tokens of a text, in order, and the place of the text's end.
#[derive(Drop)]
pub struct Tokens {
    items: Vec<LocatedToken>,
    end: Span,
}

impl Model for Tokens {
    ghost Value = { TokenList };

    ghost view = { λ t. record { items = t.items.items; end = t.end } };
}

impl Tokens {
    /// These tokens. Takes no memory.
    pub fn from_vec(items: Vec<LocatedToken>, end: Span) -> Self
        ensures items { result.items ≡ items.items }
        ensures end { result.end ≡ end }
    {
        Tokens { items, end }
    }

    /// The same tokens, without the place of the text's end. Takes no memory.
    pub fn into_vec(self) -> Vec<LocatedToken>
        ensures { result.items ≡ self.items }
    {
        let Tokens { items, .. } = self;
        items
    }

    /// The tokens, in their order in the text.
    pub fn as_slice(&self) -> &[LocatedToken]
        ensures { result.now ≡ self.now.items }
    {
        self.items.as_slice()
    }

    /// The place of the text's end.
    pub fn end(&self) -> Span
        ensures { result ≡ self.now.end }
    {
        self.end
    }
}
