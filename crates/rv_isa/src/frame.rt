//! How large a program's frames are.

ghost use Rattle.std.specs.Prelude.{◌≡◌, ◌≤◌, map, max};
ghost use Rattle.rv_isa.specs.FrameSizes.{slots_of_place, slots_of_operands, slots_of_line, slots_of_lines, slots_of_functions, frame_size, most_frame_slots};
ghost use Rattle.rv_isa.specs.PlacedCode.{placed_line_of, placed_lines_of, placed_functions, from_of, to_of};

use crate::placed::{Item, Operand, Place, Placed, PlacedFunction, Way};

fn slots_of_place(place: Place) -> u32
    requires { slots_of_place place ≤ most_frame_slots }
    ensures { result ≡ slots_of_place place }
{
    match place {
        Place::Register(_) => 0,
        Place::Slot(slot) => slot + 1,
    }
}

fn slots_of_operands(operands: &[Operand]) -> u32
    requires { slots_of_operands operands.now ≤ most_frame_slots }
    ensures { result ≡ slots_of_operands operands.now }
{
    let mut slots = 0;
    for operand in operands {
        slots = slots.max(slots_of_place(operand.place));
    }
    slots
}

fn slots_of_way(way: Way) -> u32
    requires { max (slots_of_place (from_of way)) (slots_of_place (to_of way)) ≤ most_frame_slots }
    ensures { result ≡ max (slots_of_place (from_of way)) (slots_of_place (to_of way)) }
{
    match way {
        Way::Copy { .. } => 0,
        Way::Load { from, .. } => from + 1,
        Way::Store { to, .. } => to + 1,
    }
}

fn slots_of_item(item: &Item) -> u32
    requires { slots_of_line (placed_line_of item.now) ≤ most_frame_slots }
    ensures { result ≡ slots_of_line (placed_line_of item.now) }
{
    match item {
        Item::Does { args, .. } => slots_of_operands(args),
        Item::Moves { way, .. } => slots_of_way(*way),
    }
}

fn slots_of_items(items: &[Item]) -> u32
    requires { slots_of_lines (map placed_line_of items.now) ≤ most_frame_slots }
    ensures { result ≡ slots_of_lines (map placed_line_of items.now) }
{
    let mut slots = 0;
    for item in items {
        slots = slots.max(slots_of_item(item));
    }
    slots
}

fn slots_of_functions(functions: &[PlacedFunction]) -> u32
    requires { slots_of_functions (map placed_lines_of functions.now) ≤ most_frame_slots }
    ensures { result ≡ slots_of_functions (map placed_lines_of functions.now) }
{
    let mut slots = 0;
    for function in functions {
        slots = slots.max(slots_of_items(&function.code));
    }
    slots
}

/// The bytes of a frame of a program's functions: one word for the way back, and one for each slot up to the last that any
/// of them uses. All functions have frames of one size.
pub fn frame_bytes(program: &Placed) -> u32
    requires { slots_of_functions (placed_functions program.now) ≤ most_frame_slots }
    ensures { result ≡ frame_size (placed_functions program.now) }
{
    4 * slots_of_functions(program.functions()) + 4
}
