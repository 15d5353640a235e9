//! An image goes as the slow machine does: at each form it has put the same bytes, and has the same free, held and counted cells.

use crate::hand_code::{hand_file, hand_program};
use crate::rows::{REVERSE, ROWS, Row};
use crate::token_heap::Value;
use crate::token_machine::{ENDED, HEAP_FULL, STACK_FULL};
use crate::walk::Walk;
use kk_base::{GREATEST_CELLS, GREATEST_DEPTH};
use kk_build::build;
use kk_counted::Tokened;
use kk_front::{accepted_programs_are_typed, read};
use kk_middle::compile;
use rv_sim::Halt;
use std::alloc::Global;
use std::process::Abort;
use std::test::Fail;

/// The code of a text with its tokens.
fn compiled(alloc: Global, text: &str) -> Result<Tokened, Fail> {
    let accepted = match read(alloc, text.as_bytes()) {
        Ok(accepted) => accepted,
        Err(_) => return Err(Fail::new("the text is refused")),
    };
    accepted_programs_are_typed();
    let tokened = compile(alloc, &accepted)?;
    Ok(tokened)
}

/// The slow machine of a text, whose code this is, and beside it the image that is built, at their start.
fn started<'a>(
    alloc: Global,
    text: &str,
    tokened: &'a Tokened,
    cells: u32,
    depth: u32,
) -> Result<Walk<'a>, Fail> {
    if (cells > GREATEST_CELLS) | (depth == 0) | (depth > GREATEST_DEPTH) {
        return Err(Fail::new("no image has such sizes"));
    }
    match build(alloc, text.as_bytes(), cells, depth) {
        Ok(file) => Walk::new(alloc, tokened, file.as_slice(), cells, depth),
        Err(_) => Err(Fail::new("nothing is built")),
    }
}

/// How a text ends with so many cells and open calls, and how many cells are counted then. The image and the slow machine have to
/// agree, at each form too. Forms at which they were compared are added.
fn check_same(
    rt: &impl Abort,
    alloc: Global,
    text: &str,
    tokened: &Tokened,
    (cells, depth): (u32, u32),
    forms: &mut Vec<&'static str>,
) -> Result<Option<(Halt, usize)>, Fail> {
    let mut walk = started(alloc, text, tokened, cells, depth)?;
    let ends = walk.follow(forms)?;
    let form = walk.slow.form();
    assert!(rt;
        ends.is_some(),
        "not alike at {form}: {cells} cells, depth {depth}: {text}"
    );
    Ok(ends)
}

/// With fewer cells the heap is full, and each of them is counted. With fewer open calls the stack is full. At the end of a run no
/// cell is counted.
fn check_row(
    rt: &impl Abort,
    alloc: Global,
    row: &Row,
    forms: &mut Vec<&'static str>,
) -> Result<(), Fail> {
    let tokened = compiled(alloc, row.text)?;
    for cells in 0..row.cells {
        let ends = check_same(rt, alloc, row.text, &tokened, (cells, row.depth), forms)?;
        assert_eq!(rt; ends, Some((HEAP_FULL, cells as usize)));
    }
    for depth in 1..row.depth {
        let ends = check_same(rt, alloc, row.text, &tokened, (row.cells, depth), forms)?;
        assert!(rt; matches!(ends, Some((end, _)) if end == STACK_FULL));
    }
    let ends = check_same(rt, alloc, row.text, &tokened, (row.cells, row.depth), forms)?;
    assert_eq!(rt; ends, Some((ENDED, 0)));
    Ok(())
}

/// The forms of compiled code. Each occurs in a run.
const FORMS: [&str; 18] = [
    "Let",
    "Call",
    "Inside",
    "Read",
    "IfUnique",
    "Dup",
    "Drop",
    "Fill",
    "Fill that keeps fields",
    "Fill of null",
    "Free",
    "Null",
    "Move",
    "Hold",
    "Unhold",
    "Return",
    "TailCall",
    "Case",
];

/// Each of the forms has to be among those that were found.
fn check_forms(rt: &impl Abort, found: &[&'static str], forms: &[&'static str]) {
    for form in forms {
        assert!(rt; found.contains(form), "{form}");
    }
}

#[test]
fn images_have_the_cells_of_the_slow_machine(rt: HostRuntime) -> Result<(), Fail> {
    let mut forms = Vec::new(rt.alloc());
    for row in &ROWS {
        check_row(&rt, rt.alloc(), row, &mut forms)?;
    }
    check_forms(&rt, &forms, &FORMS);
    Ok(())
}

/// The forms that only code by hand has. Each occurs in a run: with two cells the token is taken, and with three it is left.
const HAND_FORMS: [&str; 4] = [
    "Open",
    "Let beside tokens",
    "IfToken there",
    "IfToken absent",
];

#[test]
fn code_by_hand_has_the_cells_of_the_slow_machine(rt: HostRuntime) -> Result<(), Fail> {
    let mut forms = Vec::new(rt.alloc());
    let tokened = hand_program(rt.alloc())?;
    for cells in 0..4 {
        let file = hand_file(rt.alloc(), cells)?;
        let mut walk = Walk::new(rt.alloc(), &tokened, file.as_slice(), cells, 1)?;
        let ends = walk.follow(&mut forms)?;
        let wanted = if cells < 2 { HEAP_FULL } else { ENDED };
        assert!(rt;
            matches!(ends, Some((end, _)) if end == wanted),
            "{cells} cells"
        );
    }
    check_forms(&rt, &forms, &HAND_FORMS);
    Ok(())
}

/// `REVERSE` with two cells ends with the list of 2 and 1. A cell with another count, another constructor or another field is not
/// found in the image.
#[test]
fn other_cells_are_told_apart(rt: HostRuntime) -> Result<(), Fail> {
    let tokened = compiled(rt.alloc(), REVERSE)?;
    let mut walk = started(rt.alloc(), REVERSE, &tokened, 2, 5)?;
    let mut forms = Vec::new(rt.alloc());
    let ends = walk.follow(&mut forms)?;
    assert_eq!(rt; ends, Some((HEAP_FULL, 2)));
    let cons = walk.slow.heap.cell(1).made_by;
    for (references, made_by, number, counted) in [
        (1, cons, 2, Some(2)),
        (2, cons, 2, None),
        (1, 0, 2, None),
        (1, cons, 9, None),
    ] {
        walk.slow.heap.cells.pop();
        let fields = [Value::Integer(number), Value::Place(0)];
        let cell = walk.slow.heap.make(made_by, &fields, None, &[])?;
        if references > 1 {
            walk.slow.heap.dup(cell);
        }
        let found = walk.counted()?;
        assert_eq!(rt; found, counted);
    }
    Ok(())
}
