use crate::error::{LexError, NameError, ParseError};
use crate::items::Text;
use crate::limit::Limit;
use crate::name::Name;

/// Why a text is not accepted: its first failure.
#[derive(Drop)]
pub enum Refusal {
    Lex(LexError),
    Parse(ParseError),
    Name(NameError),
    NotTyped { function: Name },
    NotCovered { function: Name, example: Text },
    Over(Limit),
    NoMemory,
}
