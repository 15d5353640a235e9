ghost use Rattle.std.specs.Prelude.{◌≡◌};
ghost use Rattle.kk_layout.specs.Kinds.{is_binary_operator, is_starter, is_ender, opens_bracket, closes_bracket, opens_block, closes_block};

use kk_syntax::{Keyword, Symbol, Token};

/// Whether a symbol is an operator that stands between two operands.
fn is_binary_operator(symbol: Symbol) -> bool
    ensures { result ≡ is_binary_operator symbol }
{
    matches!(
        symbol,
        Symbol::Plus
            | Symbol::Minus
            | Symbol::Star
            | Symbol::Slash
            | Symbol::Percent
            | Symbol::EqualEqual
            | Symbol::NotEqual
            | Symbol::Less
            | Symbol::LessEqual
            | Symbol::Greater
            | Symbol::GreaterEqual
            | Symbol::AndAnd
            | Symbol::OrOr
    )
}

/// Whether a line that begins with a token goes on with the line before.
pub fn is_starter(token: &Token) -> bool
    ensures { result ≡ is_starter token.now }
{
    match token {
        Token::Keyword(Keyword::Then | Keyword::Elif | Keyword::Else) => true,
        Token::Symbol(
            Symbol::CloseParenthesis
            | Symbol::Comma
            | Symbol::OpenBrace
            | Symbol::CloseBrace
            | Symbol::Arrow
            | Symbol::Equals
            | Symbol::Colon
            | Symbol::Dot,
        ) => true,
        Token::Symbol(symbol) => is_binary_operator(*symbol),
        _ => false,
    }
}

/// Whether the line behind a token goes on with the token's line.
pub fn is_ender(token: &Token) -> bool
    ensures { result ≡ is_ender token.now }
{
    match token {
        Token::Symbol(Symbol::OpenParenthesis | Symbol::Comma | Symbol::OpenBrace | Symbol::Dot) =>
            true,
        Token::Symbol(Symbol::Greater) => false,
        Token::Symbol(symbol) => is_binary_operator(*symbol),
        _ => false,
    }
}

/// Whether a token is `(`.
pub fn opens_bracket(token: &Token) -> bool
    ensures { result ≡ opens_bracket token.now }
{
    matches!(token, Token::Symbol(Symbol::OpenParenthesis))
}

/// Whether a token is `)`.
pub fn closes_bracket(token: &Token) -> bool
    ensures { result ≡ closes_bracket token.now }
{
    matches!(token, Token::Symbol(Symbol::CloseParenthesis))
}

/// Whether a token is `{`.
pub fn opens_block(token: &Token) -> bool
    ensures { result ≡ opens_block token.now }
{
    matches!(token, Token::Symbol(Symbol::OpenBrace))
}

/// Whether a token is `}`.
pub fn closes_block(token: &Token) -> bool
    ensures { result ≡ closes_block token.now }
{
    matches!(token, Token::Symbol(Symbol::CloseBrace))
}
