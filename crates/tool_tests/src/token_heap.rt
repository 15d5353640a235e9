//! The cells of the slow machine, by names in the order in which they were made, and its tokens.

use std::alloc::{AllocError, Global};

/// The greatest number of references that are given up at once.
const REFERENCES: u32 = 1_000_000;

/// No cell has as many fields.
pub(crate) const FIELDS: u32 = 32;

/// A value of a variable or a field.
#[derive(Clone, Copy)]
pub(crate) enum Value {
    Integer(i32),
    /// `()`
    Unit,
    /// A constructor without fields, by its number.
    Constant(u32),
    /// A cell, by its name.
    Place(usize),
}

/// A cell. It is counted where its count is not 0.
#[derive(Clone, Copy)]
pub(crate) struct Cell {
    pub(crate) count: u32,
    pub(crate) made_by: u32,
    /// How many fields it has, and where they begin among those of all cells.
    pub(crate) length: u32,
    first: usize,
}

/// What a name tells that no cell has.
const NO_CELL: Cell = Cell {
    count: 0,
    made_by: 0,
    length: 0,
    first: 0,
};

/// What a slot has.
#[derive(Clone, Copy)]
enum Token {
    Spent,
    Null,
    Cell(usize),
}

/// A slot of a function's frame, both by their numbers.
#[derive(Clone, Copy)]
pub(crate) struct Slot {
    pub(crate) frame: u32,
    pub(crate) number: u32,
}

impl Slot {
    fn is(self, other: Slot) -> bool {
        (self.frame == other.frame) & (self.number == other.number)
    }
}

/// A slot and what it was given.
#[derive(Clone, Copy)]
struct Given {
    slot: Slot,
    token: Token,
}

/// The cells and the tokens.
#[derive(Drop)]
pub(crate) struct Heap {
    alloc: Global,
    /// How many cells are free.
    pub(crate) free: u32,
    pub(crate) cells: Vec<Cell>,
    /// The fields of all cells.
    fields: Vec<Value>,
    /// All that slots were given, the newest one last.
    given: Vec<Given>,
    /// The held slots, the newest one last.
    pub(crate) chain: Vec<Slot>,
    /// Whether each cell was counted where it was used, and each token there where it was spent, and no token was lost.
    pub(crate) is_sound: bool,
}

impl Heap {
    /// No cell yet.
    pub(crate) fn new(alloc: Global, room: u32) -> Self {
        Heap {
            alloc,
            free: room,
            cells: Vec::new(alloc),
            fields: Vec::new(alloc),
            given: Vec::new(alloc),
            chain: Vec::new(alloc),
            is_sound: true,
        }
    }

    /// A cell.
    pub(crate) fn cell(&self, name: usize) -> Cell {
        match self.cells.get(name) {
            Some(cell) => *cell,
            None => NO_CELL,
        }
    }

    /// A field of a cell, `()` where it has none there.
    pub(crate) fn field(&self, name: usize, position: u32) -> Value {
        let cell = self.cell(name);
        match self
            .fields
            .get(cell.first.saturating_add(position as usize))
        {
            Some(field) if position < cell.length => *field,
            _ => Value::Unit,
        }
    }

    fn set_count(&mut self, name: usize, count: u32) {
        if let Some(cell) = self.cells.get_mut(name) {
            cell.count = count;
        }
    }

    /// A value gets a reference more.
    pub(crate) fn dup(&mut self, value: Value) {
        if let Value::Place(name) = value {
            let count = self.cell(name).count;
            self.is_sound &= count > 0;
            self.set_count(name, count.saturating_add(1));
        }
    }

    /// A reference of a cell is given up, and its fields stay. Whether the cell is free then.
    pub(crate) fn lower(&mut self, name: usize) -> bool {
        let count = self.cell(name).count;
        self.is_sound &= count > 0;
        self.set_count(name, count.saturating_sub(1));
        if count < 2 {
            self.free = self.free.saturating_add(1);
        }
        count < 2
    }

    /// A reference of a value is given up, and so are those of the cells that are freed.
    pub(crate) fn drop_value(&mut self, value: Value) -> Result<(), AllocError> {
        let mut left = Vec::new(self.alloc);
        left.push(value)?;
        for _ in 0..REFERENCES {
            let Some(value) = left.pop() else {
                return Ok(());
            };
            self.give_up(value, &mut left)?;
        }
        self.is_sound = false;
        Ok(())
    }

    /// One reference is given up. Those of a cell that is freed are left.
    fn give_up(&mut self, value: Value, left: &mut Vec<Value>) -> Result<(), AllocError> {
        if let Value::Place(name) = value
            && self.lower(name)
        {
            for position in 0..self.cell(name).length {
                left.push(self.field(name, position))?;
            }
        }
        Ok(())
    }

    /// A new cell with one reference. In the cell of a token the fields at the kept positions stay.
    pub(crate) fn make(
        &mut self,
        made_by: u32,
        values: &[Value],
        token: Option<usize>,
        kept: &[u32],
    ) -> Result<Value, AllocError> {
        let name = self.cells.len();
        let first = self.fields.len();
        let mut length = 0;
        for (position, value) in (0..FIELDS).zip(values) {
            let field = self.kept_field(token, kept, position, *value);
            self.fields.push(field)?;
            length = position.saturating_add(1);
        }
        self.cells.push(Cell {
            count: 1,
            made_by,
            length,
            first,
        })?;
        Ok(Value::Place(name))
    }

    /// The field of a token's cell, where its position is kept, and else the value.
    fn kept_field(&self, token: Option<usize>, kept: &[u32], position: u32, value: Value) -> Value {
        match token {
            Some(name) if kept.contains(&position) => self.field(name, position),
            _ => value,
        }
    }

    /// Whether there is room for a cell. A free one comes first, then the first token of the frame's slots, then the newest held
    /// one. A token that is taken leaves its slot null.
    pub(crate) fn request(&mut self, frame: u32, slots: &[u32]) -> Result<bool, AllocError> {
        if self.free > 0 {
            self.free = self.free.saturating_sub(1);
            return Ok(true);
        }
        for number in slots {
            let number = *number;
            if self.take(Slot { frame, number })? {
                return Ok(true);
            }
        }
        match self.chain.pop() {
            Some(slot) => self.take(slot),
            None => Ok(false),
        }
    }

    /// Whether a slot has the token of a cell. The cell is taken, and the slot is null.
    fn take(&mut self, slot: Slot) -> Result<bool, AllocError> {
        let takes = self.has_cell(slot);
        if takes {
            self.give(slot, Token::Null)?;
        }
        Ok(takes)
    }

    /// What a slot has.
    fn token(&self, slot: Slot) -> Token {
        for given in self.given.iter().rev() {
            if slot.is(given.slot) {
                return given.token;
            }
        }
        Token::Spent
    }

    fn give(&mut self, slot: Slot, token: Token) -> Result<(), AllocError> {
        self.given.push(Given { slot, token })?;
        Ok(())
    }

    /// Whether a slot has the token of a cell.
    pub(crate) fn has_cell(&self, slot: Slot) -> bool {
        matches!(self.token(slot), Token::Cell(_))
    }

    /// A spent slot gets the token of a cell, or is null.
    pub(crate) fn gain(&mut self, slot: Slot, name: Option<usize>) -> Result<(), AllocError> {
        self.is_sound &= matches!(self.token(slot), Token::Spent);
        match name {
            Some(name) => self.give(slot, Token::Cell(name)),
            None => self.give(slot, Token::Null),
        }
    }

    /// A spent slot gets a cell that was opened, if it is free.
    pub(crate) fn gain_opened(&mut self, slot: Slot, name: usize) -> Result<(), AllocError> {
        if self.cell(name).count > 0 {
            return self.gain(slot, None);
        }
        self.free = self.free.saturating_sub(1);
        self.gain(slot, Some(name))
    }

    /// The slot is spent. The cell that it had, if it was not null.
    pub(crate) fn spend(&mut self, slot: Slot) -> Result<Option<usize>, AllocError> {
        let token = self.token(slot);
        self.give(slot, Token::Spent)?;
        match token {
            Token::Cell(name) => Ok(Some(name)),
            Token::Null => Ok(None),
            Token::Spent => {
                self.is_sound = false;
                Ok(None)
            }
        }
    }

    /// The slot is spent, and the cell that it had is free.
    pub(crate) fn free_token(&mut self, slot: Slot) -> Result<(), AllocError> {
        if self.spend(slot)?.is_some() {
            self.free = self.free.saturating_add(1);
        }
        Ok(())
    }

    /// The token of a slot is put on the chain, if it is not null.
    pub(crate) fn hold(&mut self, slot: Slot) -> Result<(), AllocError> {
        if self.has_cell(slot) {
            self.chain.push(slot)?;
        }
        Ok(())
    }

    /// The token of a slot, if it is still there, is taken off the top of the chain.
    pub(crate) fn unhold(&mut self, slot: Slot) {
        if self.has_cell(slot) {
            let newest = self.chain.pop();
            self.is_sound &= matches!(newest, Some(newest) if newest.is(slot));
        }
    }
}
