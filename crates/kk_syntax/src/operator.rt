/// An operator on one value.
#[derive(Clone, Copy, PartialEq, Eq)]
pub enum UnaryOperator {
    /// `~`, on a number
    Negate,
    /// `!`, on a `bool`
    Not,
}

/// An operator on two numbers. A comparison gives a `bool`.
#[derive(Clone, Copy, PartialEq, Eq)]
pub enum BinaryOperator {
    Add,
    Subtract,
    Multiply,
    Divide,
    Remainder,
    /// `==`
    Equal,
    /// `!=`
    NotEqual,
    Less,
    LessEqual,
    Greater,
    GreaterEqual,
}

/// How a print ends its piece.
#[derive(Clone, Copy, PartialEq, Eq)]
pub enum PrintForm {
    /// `print`: the piece alone.
    Print,
    /// `println`: the piece and a line feed.
    PrintLine,
}
