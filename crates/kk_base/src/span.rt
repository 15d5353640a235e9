/// A place in a source text.
#[derive(Clone, Copy)]
pub struct Span {
    /// The byte, from 0.
    pub at: u32,
    /// The line, from 1.
    pub line: u32,
    /// The column, from 1: a byte takes one, a tab goes on to the next column of the form 8k + 1.
    pub column: u32,
}
