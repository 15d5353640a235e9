// The lines of the forms that touch cells.

ghost use Rattle.std.specs.Prelude.{◌≡◌, ◌+◌, ◌*◌, ◌==◌, false, map, not, filter, position, IfOk, IfSome, OnOk};
ghost use Rattle.kk_syntax.specs.Shapes.{is_among};
ghost use Rattle.rv_lower.specs.Written.{short_line, Wrote, WroteLines};
ghost use Rattle.rv_cells.specs.CellLines.{Loads, Stores, AllLoads, AllStores, dup_lines, drop_lines, dups_lines, drops_lines};
ghost use Rattle.rv_cells.specs.CellLines.{SomeStores, SetIf, SomeWords, is_kept, ConstructLines, ReadLines, alone_lines, goes_second, leaving_lines};
ghost use Rattle.rv_tokens.specs.TokenedWritten.{variables_known, StoreLines, PushedStore, is_left};
ghost use Rattle.rv_tokens.specs.Written.{holds_known, IsOnlyPlace, TestsCount, WayLines, LowersCellCount, WroteOpening};
ghost use Rattle.rv_cells.specs.Layout.{first_field};

use crate::known::Known;
use kk_base::NoMemory;
use rv_isa::{Action, Condition, Immediate, ImmediateOperation, Operation, Routine};
use rv_lower::{Lowering, Reads, Short, act, copy, next, set, unary, write_label};
use std::alloc::Global;

/// The word of a cell that has its count.
const COUNT: u32 = 0;

/// The word of a cell that has its header.
pub const HEADER: u32 = 1;

/// The word of a cell that has its first field.
pub const FIELDS: u32 = 2;

/// The offset of a word of a cell. An overflow of the offsets that a line can name is answered as out of memory.
fn offset(index: u32) -> Result<Immediate, NoMemory>
    ensures { IfOk result (λ offset. offset.word ≡ 4 * index) }
{
    let Some(bytes) = index.checked_mul(4) else {
        return Err(NoMemory);
    };
    match Immediate::try_new(bytes) {
        Some(offset) => Ok(offset),
        None => Err(NoMemory),
    }
}

/// The line that loads a word of a cell.
pub fn load(cell: u32, index: u32, into: u32) -> Result<Short, NoMemory>
    ensures { IfOk result (λ line. Loads cell index into (short_line line)) }
{
    let offset = offset(index)?;
    Ok(unary(Operation::Lw(offset), cell, into))
}

/// The line that stores a word of a cell.
fn store(cell: u32, index: u32, from: u32) -> Result<Short, NoMemory>
    ensures { IfOk result (λ line. Stores cell index from (short_line line)) }
{
    let offset = offset(index)?;
    Ok(act(
        Action::Compute(Operation::Sw(offset)),
        Reads::Two(cell, from),
    ))
}

/// The lines that load the fields of a cell.
fn loads(alloc: Global, cell: u32, fields: &[u32]) -> Result<Vec<Short>, NoMemory>
    ensures { IfOk result (λ lines. AllLoads cell first_field fields.now (map short_line lines.items)) }
{
    let mut lines = Vec::new(alloc);
    let mut index = FIELDS;
    for field in fields {
        let line = load(cell, index, *field)?;
        lines.push(line)?;
        index = next(index)?;
    }
    Ok(lines)
}

/// The lines that store the fields of a cell.
fn stores(alloc: Global, cell: u32, fields: &[u32]) -> Result<Vec<Short>, NoMemory>
    ensures { IfOk result (λ lines. AllStores cell first_field fields.now (map short_line lines.items)) }
{
    let mut lines = Vec::new(alloc);
    let mut index = FIELDS;
    for field in fields {
        let line = store(cell, index, *field)?;
        lines.push(line)?;
        index = next(index)?;
    }
    Ok(lines)
}

/// The line that stores a word of a cell behind others, where it is to be stored.
fn push_store(
    lines: &mut Vec<Short>,
    taken: bool,
    cell: u32,
    index: u32,
    from: u32,
) -> Result<(), NoMemory>
    ensures { OnOk result (PushedStore taken cell index from (map short_line lines.old.items) (map short_line lines.new.items)) }
{
    if taken {
        lines.push(store(cell, index, from)?)?;
    }
    Ok(())
}

/// The first place of a field among fields.
fn first_place(fields: &[u32], field: u32) -> Option<usize>
    ensures { result ≡ position (λ other. other == field) fields.now }
{
    fields.iter().position(|other| *other == field)
}

/// Where a field stands, if it stands once among the fields.
fn only_place(fields: &[u32], field: u32) -> Option<usize>
    ensures { IfSome result (IsOnlyPlace fields.now field) }
{
    let place = first_place(fields, field)?;
    if fields[place + 1..].contains(&field) {
        return None;
    }
    Some(place)
}

/// The lines that load the fields of a cell, in their order. But a field that is given comes last, where it stands once among them.
fn reading(
    alloc: Global,
    cell: u32,
    fields: &[u32],
    last: Option<u32>,
) -> Result<Vec<Short>, NoMemory>
    ensures { IfOk result (λ lines. ReadLines cell fields.now (map short_line lines.items)) }
{
    let mut lines = loads(alloc, cell, fields)?;
    let Some(field) = last else {
        return Ok(lines);
    };
    let Some(place) = only_place(fields, field) else {
        return Ok(lines);
    };
    let line = lines.remove(place);
    lines.push(line)?;
    Ok(lines)
}

/// Loads the fields of a cell. A field that the next call takes first may come last: then its load can take the cell's register.
pub fn write_reading(
    lowering: &mut Lowering,
    cell: u32,
    fields: &[u32],
    last: Option<u32>,
) -> Result<(), NoMemory>
    ensures { OnOk result (WroteLines (ReadLines cell fields.now) lowering.old lowering.new) }
{
    let lines = reading(lowering.alloc, cell, fields, last)?;
    lowering.write(&lines)
}

/// A construction with fields.
pub fn write_construction(
    lowering: &mut Lowering,
    into: u32,
    header: u32,
    arguments: &[u32],
) -> Result<(), NoMemory>
    ensures { OnOk result (WroteLines (ConstructLines lowering.old.base into header arguments.now) lowering.old lowering.new) }
{
    lowering.push(Action::Routine(Routine::Take), &[], Some(into))?;
    write_stores(lowering, into, header, arguments)
}

/// Stores the words of a construction in a cell.
pub fn write_stores(
    lowering: &mut Lowering,
    into: u32,
    header: u32,
    arguments: &[u32],
) -> Result<(), NoMemory>
    ensures { OnOk result (WroteLines (StoreLines lowering.old.base into header arguments.now) lowering.old lowering.new) }
{
    let word = lowering.base;
    let (head, count) = (store(into, HEADER, word)?, store(into, COUNT, word)?);
    let fields = stores(lowering.alloc, into, arguments)?;
    lowering.write(&[set(header, word), head])?;
    lowering.write(&fields)?;
    lowering.write(&[set(1, word), count])
}

/// A position is kept, or it is not.
fn is_taken(left: bool, kept: &[u32], position: u32) -> bool
    ensures { result ≡ is_kept left kept.now position }
{
    if left {
        return kept.contains(&position);
    }
    !kept.contains(&position)
}

/// The lines that store the fields of a cell at the positions that are kept, or those at the others.
fn some_stores(
    alloc: Global,
    cell: u32,
    fields: &[u32],
    kept: &[u32],
    left: bool,
) -> Result<Vec<Short>, NoMemory>
    ensures { IfOk result (λ lines. SomeStores (is_kept left kept.now) cell first_field 0 fields.now (map short_line lines.items)) }
{
    let mut lines = Vec::new(alloc);
    let mut index = FIELDS;
    let mut position = 0;
    for field in fields {
        push_store(
            &mut lines,
            is_taken(left, kept, position),
            cell,
            index,
            *field,
        )?;
        index = next(index)?;
        position = next(position)?;
    }
    Ok(lines)
}

/// A construction in the cell of a token, which has some of its words already.
#[derive(Clone, Copy, Drop)]
pub struct Filling<'a> {
    pub header: u32,
    pub arguments: &'a [u32],
    /// The positions of the fields that the cell has.
    pub kept: &'a [u32],
    /// Whether the cell has the header.
    pub head: bool,
    /// Whether the cell has the count.
    pub count: bool,
}

/// What the cell of a token has, or what it has not.
fn is_left(left: bool, has: bool) -> bool
    ensures { result ≡ is_left left has }
{
    if left { has } else { !has }
}

/// Stores a word in a cell, where it is to be stored.
fn write_word(
    lowering: &mut Lowering,
    taken: bool,
    cell: u32,
    index: u32,
    word: u32,
) -> Result<(), NoMemory>
    ensures { OnOk result (WroteLines (SetIf taken lowering.old.base cell index word) lowering.old lowering.new) }
{
    if taken {
        let value = lowering.base;
        let line = store(cell, index, value)?;
        lowering.write(&[set(word, value), line])?;
    }
    Ok(())
}

/// Stores the words of a construction that the cell of its token has, or the others.
pub fn write_words(
    lowering: &mut Lowering,
    into: u32,
    filling: &Filling<'_>,
    left: bool,
) -> Result<(), NoMemory>
    ensures { OnOk result (WroteLines (SomeWords (is_left left filling.now.head) (is_left left filling.now.count)
        (is_kept left filling.now.kept.now) lowering.old.base into filling.now.header filling.now.arguments.now) lowering.old
        lowering.new) }
{
    let fields = some_stores(lowering.alloc, into, filling.arguments, filling.kept, left)?;
    let (head, count) = (is_left(left, filling.head), is_left(left, filling.count));
    write_word(lowering, head, into, HEADER, filling.header)?;
    lowering.write(&fields)?;
    write_word(lowering, count, into, COUNT, 1)
}

/// A reference more of the value of a variable.
pub fn write_dup(lowering: &mut Lowering, known: &Known<'_>, variable: u32) -> Result<(), NoMemory>
    ensures { OnOk result (Wrote (dup_lines (holds_known known.now) variable) lowering.old lowering.new) }
{
    if !known.holds(variable) {
        return Ok(());
    }
    lowering.write(&[act(Action::Compute(Operation::Dup), Reads::One(variable))])
}

/// A reference of the value of a variable is given up.
pub fn write_drop(lowering: &mut Lowering, known: &Known<'_>, variable: u32) -> Result<(), NoMemory>
    ensures { OnOk result (Wrote (drop_lines (holds_known known.now) variable) lowering.old lowering.new) }
{
    if !known.holds(variable) {
        return Ok(());
    }
    lowering.write(&[act(Action::Routine(Routine::Drop), Reads::One(variable))])
}

/// A reference more of each field in use.
fn write_dups(
    lowering: &mut Lowering,
    known: &Known<'_>,
    fields: &[u32],
    used: &[u32],
) -> Result<(), NoMemory>
    ensures { OnOk result (Wrote (dups_lines (holds_known known.now) (filter (is_among used.now) fields.now)) lowering.old
        lowering.new) }
{
    for field in fields {
        if used.contains(field) {
            write_dup(lowering, known, *field)?;
        }
    }
    Ok(())
}

/// A reference of each field that is not in use is given up.
fn write_drops(
    lowering: &mut Lowering,
    known: &Known<'_>,
    fields: &[u32],
    used: &[u32],
) -> Result<(), NoMemory>
    ensures { OnOk result (Wrote (drops_lines (holds_known known.now)
        (filter (λ y. not (is_among used.now y)) fields.now)) lowering.old lowering.new) }
{
    for field in fields {
        if !used.contains(field) {
            write_drop(lowering, known, *field)?;
        }
    }
    Ok(())
}

/// An opening by the count of a cell: its fields, those in use, the lines that load the fields, and the value of the slot.
#[derive(Clone, Copy, Drop)]
struct Opening<'a> {
    cell: u32,
    fields: &'a [u32],
    used: &'a [u32],
    loads: &'a [Short],
    token: u32,
}

/// An opening by the count of the cell: the slot takes one that has no other reference, and else it is null. Where a construction
/// fills the cell of this slot at once, its variable is given.
pub fn write_opening(
    lowering: &mut Lowering,
    known: &Known<'_>,
    cell: u32,
    fields: &[u32],
    used: &[u32],
    slot: u32,
    into: Option<u32>,
) -> Result<(), NoMemory>
    ensures { OnOk result (WroteOpening (holds_known known.now) cell fields.now used.now (variables_known known.now + slot)
        into lowering.old lowering.new) }
{
    let token = known.slot(slot)?;
    let second = lowering.take_label()?;
    let behind = lowering.take_label()?;
    let loads = loads(lowering.alloc, cell, fields)?;
    let opening = Opening {
        cell,
        fields,
        used,
        loads: &loads,
        token,
    };
    let enters = into.is_some();
    write_count_test(lowering, cell, into, second)?;
    write_way(lowering, known, &opening, enters)?;
    write_leaving(lowering, token, into, behind)?;
    write_label(lowering, second)?;
    write_way(lowering, known, &opening, !enters)?;
    write_label(lowering, behind)
}

/// A branch by the count of a cell to the way that stands second.
fn write_count_test(
    lowering: &mut Lowering,
    cell: u32,
    into: Option<u32>,
    second: u32,
) -> Result<(), NoMemory>
    ensures { OnOk result (WroteLines (TestsCount lowering.old.base (goes_second into) second cell) lowering.old lowering.new) }
{
    let condition = match into {
        None => Condition::Equal,
        Some(_) => Condition::NotEqual,
    };
    let (count, one) = (lowering.base, lowering.temporary(1)?);
    let line = load(cell, COUNT, count)?;
    lowering.write(&[
        line,
        set(1, one),
        act(Action::Branch(condition, second), Reads::Two(count, one)),
    ])
}

/// The way of a cell that has no other reference, or that of one that has.
fn write_way(
    lowering: &mut Lowering,
    known: &Known<'_>,
    opening: &Opening<'_>,
    alone: bool,
) -> Result<(), NoMemory>
    ensures { OnOk result (WroteLines (WayLines alone lowering.old.base (holds_known known.now) opening.now.cell
        opening.now.fields.now opening.now.used.now opening.now.token (map short_line opening.now.loads.now))
        lowering.old lowering.new) }
{
    if alone {
        return write_alone(lowering, known, opening);
    }
    write_shared(lowering, known, opening)
}

/// The way of a cell that has no other reference: it becomes the token.
fn write_alone(
    lowering: &mut Lowering,
    known: &Known<'_>,
    opening: &Opening<'_>,
) -> Result<(), NoMemory>
    ensures { OnOk result (Wrote (alone_lines (holds_known known.now) opening.now.cell opening.now.fields.now
        opening.now.used.now opening.now.token (map short_line opening.now.loads.now)) lowering.old lowering.new) }
{
    lowering.write(opening.loads)?;
    write_drops(lowering, known, opening.fields, opening.used)?;
    lowering.write(&[copy(opening.cell, opening.token)])
}

/// The way of a cell that has other references: the count is lowered, and the token is null. It is set where the cell's own value is
/// not read any more.
fn write_shared(
    lowering: &mut Lowering,
    known: &Known<'_>,
    opening: &Opening<'_>,
) -> Result<(), NoMemory>
    ensures { OnOk result (WroteLines (WayLines false lowering.old.base (holds_known known.now) opening.now.cell
        opening.now.fields.now opening.now.used.now opening.now.token (map short_line opening.now.loads.now))
        lowering.old lowering.new) }
{
    lowering.write(opening.loads)?;
    write_less(lowering, opening.cell)?;
    lowering.write(&[set(0, opening.token)])?;
    write_dups(lowering, known, opening.fields, opening.used)
}

/// Goes on at a label; or behind the test of the construction that fills the cell of a token, whose label is the next one.
fn write_leaving(
    lowering: &mut Lowering,
    token: u32,
    into: Option<u32>,
    behind: u32,
) -> Result<(), NoMemory>
    ensures { OnOk result (Wrote (leaving_lines into token behind (behind + 1)) lowering.old lowering.new) }
{
    let Some(into) = into else {
        return lowering.write(&[act(Action::Jump(behind), Reads::Nothing)]);
    };
    let filled = next(behind)?;
    lowering.write(&[copy(token, into), act(Action::Jump(filled), Reads::Nothing)])
}

/// Lowers the count of a cell.
fn write_less(lowering: &mut Lowering, cell: u32) -> Result<(), NoMemory>
    ensures { OnOk result (WroteLines (LowersCellCount lowering.old.base cell) lowering.old lowering.new) }
{
    let count = lowering.base;
    let (first, last) = (load(cell, COUNT, count)?, store(cell, COUNT, count)?);
    let less = Operation::Immediate(ImmediateOperation::Addi, Immediate::new(u32::MAX));
    lowering.write(&[first, unary(less, count, count), last])
}
