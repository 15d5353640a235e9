ghost use Rattle.std.specs.Prelude.{◌≡◌, ◌↔◌, ◌<◌, ◌^◌, true, IsTrue, IfOk, length, map};
ghost use Rattle.kk_syntax.specs.Covered.{Each};
ghost use Rattle.kk_slots.specs.Narrowing.{narrowed, opened};
ghost use Rattle.kk_slots.specs.Problems.{row_view, has_blank, has_constructor, first_asked, LacksNumber, IsLeastLacking};

use kk_base::NoMemory;
use kk_slots::{Asked, Slot, row};
use std::alloc::Global;

/// The rows for values whose first position is made by a constructor with so many fields.
pub fn narrowed<'a>(
    alloc: Global,
    rows: &[Vec<Slot<'a>>],
    constructor: u32,
    arity: usize,
) -> Result<Vec<Vec<Slot<'a>>>, NoMemory>
    ensures { IfOk result (λ left. map (λ row. row_view row.items) left.items
        ≡ narrowed constructor arity (map (λ row. row_view row.items) rows.now)) }
{
    let mut left = Vec::new(alloc);
    for row in rows {
        if let Some(slots) = row::narrow(alloc, row, constructor, arity)? {
            left.push(slots)?;
        }
    }
    Ok(left)
}

/// The rows that ask nothing at their first position, without it.
pub fn opened<'a>(alloc: Global, rows: &[Vec<Slot<'a>>]) -> Result<Vec<Vec<Slot<'a>>>, NoMemory>
    ensures { IfOk result (λ left. map (λ row. row_view row.items) left.items
        ≡ opened (map (λ row. row_view row.items) rows.now)) }
{
    let mut left = Vec::new(alloc);
    for row in rows {
        if let Some(slots) = row::open_row(alloc, row)? {
            left.push(slots)?;
        }
    }
    Ok(left)
}

/// Whether a row asks nothing.
pub fn has_blank(rows: &[Vec<Slot>]) -> bool
    ensures { result ≡ has_blank (map (λ row. row_view row.items) rows.now) }
{
    for row in rows {
        if row::is_blank(row) {
            return true;
        }
    }
    false
}

/// Whether a row asks for a constructor first.
pub fn has_constructor(rows: &[Vec<Slot>], constructor: u32) -> bool
    ensures { result ≡ has_constructor constructor (map (λ row. row_view row.items) rows.now) }
{
    for row in rows {
        if row::asks_for(row, constructor) {
            return true;
        }
    }
    false
}

/// What the first row that asks for anything first asks for.
pub fn first_asked(rows: &[Vec<Slot>]) -> Asked
    ensures { result ≡ first_asked (map (λ row. row_view row.items) rows.now) }
{
    for row in rows {
        match row::asked(row) {
            Asked::Nothing => {}
            Asked::Number => return Asked::Number,
            Asked::Constructor(constructor) => return Asked::Constructor(constructor),
        }
    }
    Asked::Nothing
}

// Whether no row asks for a number first.
fn lack_number(rows: &[Vec<Slot>], number: i32) -> bool
    ensures { IsTrue result ↔ Each (LacksNumber number) (map (λ row. row_view row.items) rows.now) }
{
    for row in rows {
        if !row::lacks_number(row, number) {
            return false;
        }
    }
    true
}

/// The least number from 0 up that no row asks for first. Rows are fewer than there are numbers from 0 up, so there is one.
pub fn least_number(rows: &[Vec<Slot>]) -> i32
    requires { length rows.now < 2 ^ 31 }
    ensures { IsLeastLacking (map (λ row. row_view row.items) rows.now) result }
{
    let mut count: u32 = 0;
    while !lack_number(rows, count as i32) {
        count += 1;
    }
    count as i32
}
