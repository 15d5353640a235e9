use kk_syntax::Pat;

/// What a row asks of a value at a position.
#[derive(Clone, Copy)]
pub enum Slot<'a> {
    /// Nothing: `_` or a variable.
    Any,
    Number(i32),
    /// A constructor by its number, and the patterns of its fields.
    Constructor(u32, &'a [Pat]),
}

/// What is known of the value at a position that was passed.
#[derive(Clone, Copy)]
pub enum Head {
    /// Nothing: no row looks there.
    Free,
    Number(i32),
    /// A constructor by its number, and how many fields it has.
    Constructor(u32, usize),
}

/// What rows ask for at their first position.
#[derive(Clone, Copy)]
pub enum Asked {
    Nothing,
    Number,
    /// A constructor by its number.
    Constructor(u32),
}

/// Rows that are left, once some positions are known.
#[derive(Drop)]
pub struct Problem<'a> {
    /// The positions that are known, outer before inner and left before right.
    pub path: Vec<Head>,
    /// Each row has one slot for each position that is left, in the same order.
    pub rows: Vec<Vec<Slot<'a>>>,
    /// The number of positions that are left.
    pub width: usize,
}
