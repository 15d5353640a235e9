ghost use Rattle.std.specs.Prelude.{◌≡◌, ◌≤◌, length, count_by, reverse};
ghost use Rattle.std.specs.List.{prefix_len};
ghost use Rattle.kk_layout.specs.Blocks.{column_of, is_deeper, is_implicit, innermost_column};

/// A block above the base, with its column.
#[derive(Clone, Copy)]
pub enum Block {
    /// The layout opened it: its braces are inserted.
    Implicit(u32),
    /// A `{` of the text opened it.
    Explicit(u32),
}

impl Block {
    /// The column of its lines.
    pub fn column(self) -> u32
        ensures { result ≡ column_of self }
    {
        match self {
            Block::Implicit(column) | Block::Explicit(column) => column,
        }
    }

    /// Whether layout has opened it.
    pub fn is_implicit(self) -> bool
        ensures { result ≡ is_implicit self }
    {
        match self {
            Block::Implicit(_) => true,
            Block::Explicit(_) => false,
        }
    }

    /// Whether it is implicit and a line at this column is left of it.
    pub fn is_deeper(self, column: u32) -> bool
        ensures { result ≡ is_deeper column self }
    {
        match self {
            Block::Implicit(own) => column < own,
            Block::Explicit(_) => false,
        }
    }
}

/// The column of the innermost block, which stands last; where there is none, that of the base.
pub fn innermost_column(base: u32, blocks: &[Block]) -> u32
    ensures { result ≡ innermost_column base (reverse blocks.now) }
{
    match blocks.last() {
        Some(block) => block.column(),
        None => base,
    }
}

/// How many blocks a line at this column closes, from the innermost on.
pub fn closings(blocks: &[Block], column: u32) -> usize
    ensures value { result ≡ prefix_len (is_deeper column) (reverse blocks.now) }
    ensures fits { result ≤ length blocks.now }
{
    blocks
        .iter()
        .rev()
        .take_while(|block| block.is_deeper(column))
        .count()
}

/// How many blocks stand above the topmost explicit one.
pub fn above_explicit(blocks: &[Block]) -> usize
    ensures value { result ≡ prefix_len is_implicit (reverse blocks.now) }
    ensures fits { result ≤ length blocks.now }
{
    blocks
        .iter()
        .rev()
        .take_while(|block| block.is_implicit())
        .count()
}

/// How many blocks are implicit.
pub fn implicit_count(blocks: &[Block]) -> usize
    ensures { result ≡ count_by is_implicit (reverse blocks.now) }
{
    blocks
        .iter()
        .rev()
        .filter(|block| block.is_implicit())
        .count()
}
