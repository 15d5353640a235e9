// Lines and functions as instructions.

ghost use Rattle.std.specs.Prelude.{◌≡◌, ◌+◌, ◌*◌, ◌<◌, ◌≤◌, OnOk, length, map};
ghost use Rattle.elf_image.specs.Program.{text_start};
ghost use Rattle.rv_isa.specs.Costs.{placed_code_length, placed_functions_length};
ghost use Rattle.rv_isa.specs.PlacedCode.{placed_line_of, placed_lines_of};
ghost use Rattle.rv_isa.specs.FrameSizes.{slots_of_operands, slots_of_line, slots_of_lines, slots_of_functions};
ghost use Rattle.rv_place.specs.Addresses.{is_silent, words_of_action, words_of_line, words_of_lines, words_of_function, words_of_functions, most_entry_words, greatest_frame};
ghost use Rattle.rv_place.specs.Texts.{most_text_length, most_functions, most_runtime_words, greatest_address};
ghost use Rattle.rv_place.specs.Emitted.{Grew, ActionBy, LineBy, LinesBy, FunctionBy, FunctionsBy};

use crate::cells::{emit_hold, emit_unhold, token_into};
use crate::chart::Chart;
use crate::emit::{
    emit_branch, emit_call, emit_entry, emit_jump, emit_move, emit_return, emit_test,
};
use crate::labels::Labels;
use crate::operations::{argument, emit_operation};
use crate::reach::Reach;
use crate::routines::emit_routine;
use crate::sizes::{forms_of, is_silent, words_of_function, words_of_item};
use kk_base::NoMemory;
use rv_isa::{Action, Instr, Item, Operand, PlacedFunction, Register};
use std::alloc::Global;

/// An action of a function that has these labels, at the address `at`.
fn emit_action(
    code: &mut Vec<Instr>,
    at: u32,
    chart: &Chart,
    labels: &Labels,
    action: Action,
    args: &[Operand],
    into: Option<Operand>,
) -> Result<(), NoMemory>
    requires at { at ≤ greatest_address }
    requires same { labels.now.forms.jumps ≡ chart.now.jumps }
    requires frame { chart.now.frame ≤ greatest_frame chart.now.jumps }
    requires slots { 4 * slots_of_operands args.now + 4 ≤ chart.now.frame }
    ensures { OnOk result (Grew (words_of_action labels.now.forms action args.now) (ActionBy chart.now labels.now at action args.now into) code.old.items code.new.items) }
{
    let jumps = labels.forms.jumps;
    match action {
        Action::Compute(operation) => emit_operation(code, chart, operation, args, into),
        Action::Label(_) => Ok(()),
        Action::Jump(label) => emit_jump(code, at, jumps, labels.address(label)),
        Action::Branch(condition, label) => {
            let left = argument(args, 0);
            let right = argument(args, 1);
            let target = labels.address(label);
            emit_branch(code, at, labels.forms, condition, left, right, target)
        }
        Action::Call(function) => emit_call(code, at, jumps, chart.entry(function)),
        Action::TailCall(function) => {
            emit_jump(code, at, jumps, chart.tail(function, labels.forms.frame))
        }
        Action::Return => emit_return(code, chart, labels.forms.frame),
        Action::Routine(routine) => {
            emit_routine(code, at, jumps, routine, chart.symbols.routine(routine))
        }
        Action::Hold => emit_hold(code, jumps, args, argument(args, 1)),
        Action::Unhold => emit_unhold(code, jumps, args, token_into(into)),
        Action::Room => emit_test(code, at, chart, Register::RA),
    }
}

/// An item of a function that has these labels, at the address `at`.
fn emit_item(
    code: &mut Vec<Instr>,
    at: u32,
    chart: &Chart,
    labels: &Labels,
    item: &Item,
) -> Result<(), NoMemory>
    requires at { at ≤ greatest_address }
    requires same { labels.now.forms.jumps ≡ chart.now.jumps }
    requires frame { chart.now.frame ≤ greatest_frame chart.now.jumps }
    requires slots { 4 * slots_of_line (placed_line_of item.now) + 4 ≤ chart.now.frame }
    ensures { OnOk result (Grew (words_of_line labels.now.forms (placed_line_of item.now)) (LineBy chart.now labels.now at (placed_line_of item.now)) code.old.items code.new.items) }
{
    match item {
        Item::Does {
            action,
            args,
            into,
            ..
        } => {
            if is_silent(*action, args, *into) {
                Ok(())
            } else {
                emit_action(code, at, chart, labels, *action, args, *into)
            }
        }
        Item::Moves { way, .. } => emit_move(code, chart, *way),
    }
}

/// Items of a function that has these labels, from the address `start` on.
fn emit_items(
    code: &mut Vec<Instr>,
    start: u32,
    chart: &Chart,
    labels: &Labels,
    items: &[Item],
) -> Result<(), NoMemory>
    requires same { labels.now.forms.jumps ≡ chart.now.jumps }
    requires fits { start + 4 * placed_code_length (map placed_line_of items.now) ≤ greatest_address }
    requires frame { chart.now.frame ≤ greatest_frame chart.now.jumps }
    requires slots { 4 * slots_of_lines (map placed_line_of items.now) + 4 ≤ chart.now.frame }
    ensures { OnOk result (Grew (words_of_lines labels.now.forms (map placed_line_of items.now)) (LinesBy chart.now labels.now start (map placed_line_of items.now)) code.old.items code.new.items) }
{
    let mut at = start;
    for item in items {
        emit_item(code, at, chart, labels, item)?;
        at += 4 * words_of_item(labels.forms, item);
    }
    Ok(())
}

/// A function that stands at `entry`.
fn emit_function(
    alloc: Global,
    code: &mut Vec<Instr>,
    chart: &Chart,
    entry: u32,
    function: &PlacedFunction,
) -> Result<(), NoMemory>
    requires fits { entry + 4 * (most_entry_words + placed_code_length (map placed_line_of function.now.code.items)) ≤ greatest_address }
    requires short { placed_code_length (map placed_line_of function.now.code.items) ≤ most_text_length }
    requires some_frame { 4 ≤ chart.now.frame }
    requires frame { chart.now.frame ≤ greatest_frame chart.now.jumps }
    requires slots { 4 * slots_of_lines (map placed_line_of function.now.code.items) + 4 ≤ chart.now.frame }
    ensures { OnOk result (Grew (words_of_function chart.now.jumps (placed_lines_of function.now)) (FunctionBy chart.now entry (placed_lines_of function.now)) code.old.items code.new.items) }
{
    let forms = forms_of(chart.jumps, &function.code);
    emit_entry(code, entry, chart, forms.frame)?;
    let start = entry + 4 * chart.jumps.entry_words();
    let labels = Labels::of(alloc, forms, start, &function.code)?;
    emit_items(code, start, chart, &labels, &function.code)?;
    Ok(())
}

/// Functions that stand one behind the other from `entry` on.
pub fn emit_functions(
    alloc: Global,
    code: &mut Vec<Instr>,
    chart: &Chart,
    entry: u32,
    functions: &[PlacedFunction],
) -> Result<(), NoMemory>
    requires entry { entry ≤ text_start + 4 * most_runtime_words }
    requires few { length functions.now ≤ most_functions }
    requires short { placed_functions_length (map placed_lines_of functions.now) ≤ most_text_length }
    requires some_frame { 4 ≤ chart.now.frame }
    requires frame { chart.now.frame ≤ greatest_frame chart.now.jumps }
    requires slots { 4 * slots_of_functions (map placed_lines_of functions.now) + 4 ≤ chart.now.frame }
    ensures { OnOk result (Grew (words_of_functions chart.now.jumps (map placed_lines_of functions.now)) (FunctionsBy chart.now entry (map placed_lines_of functions.now)) code.old.items code.new.items) }
{
    let mut at = entry;
    for function in functions {
        emit_function(alloc, code, chart, at, function)?;
        at += 4 * words_of_function(chart.jumps, function);
    }
    Ok(())
}
