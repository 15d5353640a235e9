ghost use Rattle.std.specs.Prelude.{◌≡◌};
ghost use Rattle.kk_base.specs.Numbers.{lex_number_of, parse_number_of, name_number_of};
ghost use Rattle.kk_base.specs.declared.error.NoMemory.{NoMemory};

use crate::name::Name;
use std::alloc::{AllocError, AllocFailed};
use thiserror::Error;

/// Memory was wanted and refused. It says nothing else, and is merged with no other error.
#[derive(Clone, Copy, Debug, PartialEq, Eq, Error)]
#[error("no memory")]
pub struct NoMemory;

impl From<AllocError> for NoMemory {
    fn from(_error: AllocError) -> NoMemory {
        NoMemory
    }
}

impl<T: Drop> From<AllocFailed<T>> for NoMemory {
    fn from(_error: AllocFailed<T>) -> NoMemory {
        NoMemory
    }
}

/// Why a text has no list of tokens: the first lexeme that cannot be read. `at` is the byte where it stands, from 0.
#[derive(Clone, Copy, Debug, PartialEq, Eq, Error)]
pub enum LexError {
    /// A byte that begins no token, or the `\` of an escape that there is not.
    #[error("byte {at} begins no token")]
    BadByte { at: u32 },
    /// The outermost `/*` of a comment that is not closed.
    #[error("the comment at byte {at} is not closed")]
    OpenComment { at: u32 },
    /// The quote of a string that its line or the text ends.
    #[error("the string at byte {at} is not closed")]
    OpenString { at: u32 },
    /// The first byte of a number that does not fit in 32 bits.
    #[error("the number at byte {at} does not fit in 32 bits")]
    NumberTooLarge { at: u32 },
    /// The quote of a string of more than 255 bytes.
    #[error("the string at byte {at} has more than 255 bytes")]
    StringTooLong { at: u32 },
    #[error("no memory")]
    NoMemory,
}

impl LexError {
    /// The number that a refusal tells, from 1 in the order of the variants. Want of memory has none.
    pub fn number(&self) -> Option<u8>
        ensures { result ≡ lex_number_of self.now }
    {
        match self {
            LexError::BadByte { .. } => Some(1),
            LexError::OpenComment { .. } => Some(2),
            LexError::OpenString { .. } => Some(3),
            LexError::NumberTooLarge { .. } => Some(4),
            LexError::StringTooLong { .. } => Some(5),
            LexError::NoMemory => None,
        }
    }
}

/// Why tokens are no program. `index` counts tokens from 0 (their number stands for the text's end); line and column
/// are those of that token, from 1.
#[derive(Clone, Copy, Debug, PartialEq, Eq, Error)]
pub enum ParseError {
    /// The first token, or the end, with which no program goes on.
    #[error("line {line} column {column}: unexpected token {index}")]
    Unexpected { index: u32, line: u32, column: u32 },
    /// The token that opens one level of nesting too many.
    #[error("line {line} column {column}: token {index} is nested too deep")]
    TooDeep { index: u32, line: u32, column: u32 },
    #[error("no memory")]
    NoMemory,
}

impl ParseError {
    /// The number that a refusal tells, from 1 in the order of the variants. Want of memory has none.
    pub fn number(&self) -> Option<u8>
        ensures { result ≡ parse_number_of self.now }
    {
        match self {
            ParseError::Unexpected { .. } => Some(1),
            ParseError::TooDeep { .. } => Some(2),
            ParseError::NoMemory => None,
        }
    }
}

/// Why the names of a tree do not resolve. `at` is the byte of the name, from 0.
#[derive(Debug, Drop, Error)]
pub enum NameError {
    /// A second declaration of a name.
    #[error("`{name}` at byte {at} is declared twice")]
    Twice { name: Name, at: u32 },
    /// A name without a meaning there.
    #[error("`{name}` at byte {at} has no meaning")]
    Unknown { name: Name, at: u32 },
    /// A name used with another number of arguments than declared.
    #[error("`{name}` at byte {at} has another number of arguments than declared")]
    Arity { name: Name, at: u32 },
    /// No function `main`; `at` is the length of the text.
    #[error("there is no function `{name}` before byte {at}")]
    NoMain { name: Name, at: u32 },
    /// A `main` with a parameter, or with a result other than `()`.
    #[error("`{name}` at byte {at} has a parameter or a result")]
    MainShape { name: Name, at: u32 },
    #[error("no memory")]
    NoMemory,
}

impl NameError {
    /// The number that a refusal tells, from 1 in the order of the variants. Want of memory has none.
    pub fn number(&self) -> Option<u8>
        ensures { result ≡ name_number_of self.now }
    {
        match self {
            NameError::Twice { .. } => Some(1),
            NameError::Unknown { .. } => Some(2),
            NameError::Arity { .. } => Some(3),
            NameError::NoMain { .. } => Some(4),
            NameError::MainShape { .. } => Some(5),
            NameError::NoMemory => None,
        }
    }
}
