ghost use Rattle.std.specs.Prelude.{◌≡◌, ◌↔◌, true, IsTrue, IfOk, map, option_map};
ghost use Rattle.kk_slots.specs.Narrowing.{narrow, open_row};
ghost use Rattle.kk_syntax.specs.Outlines.{pattern_outline};
ghost use Rattle.kk_slots.specs.Problems.{slot_outline, row_view, is_blank, asks_for, asked, LacksNumber};
ghost use Rattle.kk_slots.specs.Narrowing.{join, anys};
ghost use Rattle.kk_syntax.specs.Outlines.{outline_list};

use crate::problem::{Asked, Slot};
use kk_base::NoMemory;
use kk_syntax::Pat;
use std::alloc::Global;

/// What a pattern asks.
pub fn slot_of(pattern: &Pat) -> Slot
    ensures { slot_outline result ≡ pattern_outline pattern.now }
{
    match pattern {
        Pat::Wildcard | Pat::Variable(_) => Slot::Any,
        Pat::Number(number) => Slot::Number(*number),
        Pat::Constructor(constructor, parts) => Slot::Constructor(*constructor, parts.as_slice()),
    }
}

/// The row for values whose first position is made by a constructor with so many fields: the fields come first. None
/// where no such value fits the row.
pub fn narrow<'a>(
    alloc: Global,
    row: &[Slot<'a>],
    constructor: u32,
    arity: usize,
) -> Result<Option<Vec<Slot<'a>>>, NoMemory>
    ensures { IfOk result (λ left. option_map (λ slots. row_view slots.items) left ≡ narrow constructor arity (row_view row.now)) }
{
    let Some((first, rest)) = row.split_first() else {
        return Ok(None);
    };
    match *first {
        Slot::Any => Ok(Some(after_wildcards(alloc, arity, rest)?)),
        Slot::Number(_) => Ok(None),
        Slot::Constructor(other, parts) => {
            if other == constructor {
                Ok(Some(after_parts(alloc, parts, rest)?))
            } else {
                Ok(None)
            }
        }
    }
}

// So many wildcards, and then the rest of a row.
fn after_wildcards<'a>(
    alloc: Global,
    count: usize,
    rest: &[Slot<'a>],
) -> Result<Vec<Slot<'a>>, NoMemory>
    ensures { IfOk result (λ slots. row_view slots.items ≡ join (anys count) (row_view rest.now)) }
{
    let mut slots = vec![in alloc; Slot::Any; count]?;
    slots.extend_from_slice(rest)?;
    Ok(slots)
}

// What the parts of a pattern ask, and then the rest of a row.
fn after_parts<'a>(
    alloc: Global,
    parts: &'a [Pat],
    rest: &[Slot<'a>],
) -> Result<Vec<Slot<'a>>, NoMemory>
    ensures { IfOk result (λ slots. row_view slots.items ≡ join (outline_list (map pattern_outline parts.now)) (row_view rest.now)) }
{
    let mut slots = Vec::new(alloc);
    for part in parts {
        slots.push(slot_of(part))?;
    }
    slots.extend_from_slice(rest)?;
    Ok(slots)
}

/// The row without its first position, if it asks nothing there.
pub fn open_row<'a>(alloc: Global, row: &[Slot<'a>]) -> Result<Option<Vec<Slot<'a>>>, NoMemory>
    ensures { IfOk result (λ left. option_map (λ slots. row_view slots.items) left ≡ open_row (row_view row.now)) }
{
    let Some((first, rest)) = row.split_first() else {
        return Ok(None);
    };
    match *first {
        Slot::Any => Ok(Some(after_wildcards(alloc, 0, rest)?)),
        Slot::Number(_) | Slot::Constructor(_, _) => Ok(None),
    }
}

/// Whether a row asks nothing.
pub fn is_blank(row: &[Slot]) -> bool
    ensures { result ≡ is_blank (row_view row.now) }
{
    for slot in row {
        match *slot {
            Slot::Any => {}
            Slot::Number(_) | Slot::Constructor(_, _) => return false,
        }
    }
    true
}

/// What a row asks for at its first position.
pub fn asked(row: &[Slot]) -> Asked
    ensures { result ≡ asked (row_view row.now) }
{
    match row.first() {
        None | Some(Slot::Any) => Asked::Nothing,
        Some(Slot::Number(_)) => Asked::Number,
        Some(Slot::Constructor(constructor, _)) => Asked::Constructor(*constructor),
    }
}

/// Whether a row asks for a constructor at its first position.
pub fn asks_for(row: &[Slot], constructor: u32) -> bool
    ensures { result ≡ asks_for constructor (row_view row.now) }
{
    match row.first() {
        Some(Slot::Constructor(other, _)) => *other == constructor,
        None | Some(Slot::Any | Slot::Number(_)) => false,
    }
}

/// Whether a row does not ask for a number at its first position.
pub fn lacks_number(row: &[Slot], number: i32) -> bool
    ensures { IsTrue result ↔ LacksNumber number (row_view row.now) }
{
    match row.first() {
        Some(Slot::Number(other)) => *other != number,
        None | Some(Slot::Any | Slot::Constructor(_, _)) => true,
    }
}
