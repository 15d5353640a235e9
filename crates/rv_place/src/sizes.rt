// How many instructions code is, and how many bytes constants.

ghost use Rattle.std.specs.Prelude.{◌≡◌, ◌+◌, ◌*◌, ◌≤◌, IsFalse, cond, length, map};
ghost use Rattle.rv_place.specs.declared.reach.Reach.TheVariants.{Near};
ghost use Rattle.std.specs.List.{list_any};
ghost use Rattle.rv_isa.specs.Costs.{operation_instructions, action_length, placed_line_length, placed_code_length, placed_functions_length};
ghost use Rattle.rv_isa.specs.PlacedCode.{placed_line_of, placed_lines_of};
ghost use Rattle.cell_runtime.specs.Operations.{all_bytes};
ghost use Rattle.cell_runtime.specs.Lines.{words_of};
ghost use Rattle.rv_place.specs.Instructions.{words_of_operation};
ghost use Rattle.rv_isa.specs.LinePlaces.{is_copy};
ghost use Rattle.rv_place.specs.Addresses.{operation_links, action_needs_frame, has_slot, needs_frame, takes_frame, is_same_register, stands_there, gives_idly, is_silent, words_of_action, words_of_line, words_of_lines, words_of_function, words_of_functions, most_entry_words, forms_of};
ghost use Rattle.rv_place.specs.Texts.{most_text_length, most_functions, most_runtime_words, most_constant_bytes};

use crate::chart::words_of_native;
use crate::reach::{Forms, Reach, WordForm, words_of_routine};
use kk_base::Text;
use rv_isa::{Action, Item, Native, Operand, Operation, Place, PlacedFunction, Way};

/// How many instructions an operation is.
fn words_of_operation(operation: Operation) -> u32
    ensures words { result ≡ words_of_operation operation }
    ensures few { result ≤ operation_instructions operation }
{
    match operation {
        Operation::Li(word) => WordForm::of(word).words(),
        Operation::La(_) => 2,
        Operation::Free => 3,
        Operation::Dup => 5,
        _ => 1,
    }
}

/// How many instructions an action is.
fn words_of_action(forms: Forms, action: Action, args: &[Operand]) -> u32
    ensures words { result ≡ words_of_action forms action args.now }
    ensures few { result ≤ action_length action }
{
    let jump = forms.jumps.words_of_jump();
    match action {
        Action::Compute(operation) => words_of_operation(operation),
        Action::Label(_) => 0,
        Action::Jump(_) | Action::Call(_) | Action::TailCall(_) => jump,
        Action::Routine(routine) => words_of_routine(forms.jumps, routine),
        Action::Branch(_, _) => forms.words_of_branch(),
        Action::Return => forms.words_of_return(),
        Action::Hold => forms.jumps.words_to_hold(args),
        Action::Unhold => 3,
        Action::Room => forms.jumps.test_words(),
    }
}

fn is_same_register(one: Place, other: Place) -> bool
    ensures { result ≡ is_same_register one other }
{
    match (one, other) {
        (Place::Register(one), Place::Register(other)) => one.number == other.number,
        _ => false,
    }
}

fn is_copy(action: Action) -> bool
    ensures { result ≡ is_copy action }
{
    matches!(action, Action::Compute(Operation::Mv))
}

fn stands_there(args: &[Operand], into: Option<Operand>) -> bool
    ensures { result ≡ stands_there args.now into }
{
    match args {
        [arg] => match into {
            Some(into) => is_same_register(arg.place, into.place),
            None => false,
        },
        _ => false,
    }
}

fn gives_idly(action: Action, into: Option<Operand>) -> bool
    ensures { result ≡ gives_idly action into }
{
    match into {
        Some(into) => action.is_idle(into.place),
        None => false,
    }
}

/// Whether the action is no instruction: a copy whose argument stands already where the value goes, a constant for the register
/// that holds it always, or a load whose word is lost.
pub fn is_silent(action: Action, args: &[Operand], into: Option<Operand>) -> bool
    ensures { result ≡ is_silent action args.now into }
{
    is_copy(action) && stands_there(args, into) || gives_idly(action, into)
}

/// How many instructions an action is with its operands: none where it is silent.
fn words_of_statement(forms: Forms, action: Action, args: &[Operand], into: Option<Operand>) -> u32
    ensures words { result ≡ cond (is_silent action args.now into) 0 (words_of_action forms action args.now) }
    ensures few { result ≤ action_length action }
{
    if is_silent(action, args, into) {
        0
    } else {
        words_of_action(forms, action, args)
    }
}

/// How many instructions an item is.
pub fn words_of_item(forms: Forms, item: &Item) -> u32
    ensures words { result ≡ words_of_line forms (placed_line_of item.now) }
    ensures few { result ≤ placed_line_length (placed_line_of item.now) }
{
    match item {
        Item::Does {
            action,
            args,
            into,
            ..
        } => words_of_statement(forms, *action, args, *into),
        Item::Moves { .. } => 1,
    }
}

fn words_of_items(forms: Forms, items: &[Item]) -> u32
    requires { placed_code_length (map placed_line_of items.now) ≤ most_text_length }
    ensures words { result ≡ words_of_lines forms (map placed_line_of items.now) }
    ensures few { result ≤ placed_code_length (map placed_line_of items.now) }
{
    let mut words = 0;
    for item in items {
        words += words_of_item(forms, item);
    }
    words
}

// ---- functions that take a frame

/// Whether an operation writes `ra`.
fn operation_links(operation: Operation) -> bool
    ensures { result ≡ operation_links operation }
{
    match operation {
        Operation::Dup => true,
        _ => false,
    }
}

/// Whether an action writes `ra`, has a slot, or compares the frame of its function.
fn action_needs_frame(action: Action) -> bool
    ensures { result ≡ action_needs_frame action }
{
    match action {
        Action::Compute(operation) => operation_links(operation),
        Action::Call(_) | Action::Routine(_) | Action::Hold | Action::Unhold | Action::Room => true,
        Action::Label(_)
        | Action::Jump(_)
        | Action::Branch(_, _)
        | Action::TailCall(_)
        | Action::Return => false,
    }
}

/// Whether a move has a slot.
fn has_slot(way: Way) -> bool
    ensures { result ≡ has_slot way }
{
    match way {
        Way::Copy { .. } => false,
        Way::Load { .. } | Way::Store { .. } => true,
    }
}

/// Whether an item needs a frame: where it has a slot, or writes `ra`.
fn needs_frame(item: &Item) -> bool
    ensures { result ≡ needs_frame (placed_line_of item.now) }
{
    match item {
        Item::Does { action, .. } => action_needs_frame(*action),
        Item::Moves { way, .. } => has_slot(*way),
    }
}

fn any_needs_frame(items: &[Item]) -> bool
    ensures { result ≡ list_any needs_frame (map placed_line_of items.now) }
{
    let mut needs = false;
    for item in items {
        needs = needs || needs_frame(item);
    }
    needs
}

/// Whether a function takes a frame, in a text whose jumps lead so far.
pub fn takes_frame(jumps: Reach, items: &[Item]) -> bool
    ensures same { result ≡ takes_frame jumps (map placed_line_of items.now) }
    ensures near { IsFalse result → jumps ≡ Near }
{
    match jumps {
        Reach::Near => any_needs_frame(items),
        Reach::Far | Reach::Wide => true,
    }
}

// ---- functions

/// The forms of a function in a text whose jumps lead so far: where its code is short with near branches, they are near.
pub fn forms_of(jumps: Reach, items: &[Item]) -> Forms
    requires { placed_code_length (map placed_line_of items.now) ≤ most_text_length }
    ensures same { result ≡ forms_of jumps (map placed_line_of items.now) }
    ensures near { IsFalse result.frame → jumps ≡ Near }
{
    let near = Forms {
        jumps,
        branches: Reach::Near,
        frame: takes_frame(jumps, items),
    };
    let words = words_of_items(near, items);
    Forms {
        branches: Reach::within(words, BRANCH_WORDS),
        ..near
    }
}

/// How many bytes a branch reaches back.
const BRANCH_REACH: u32 = 1 << 12;

/// How many bytes a jump reaches back.
const JUMP_REACH: u32 = 1 << 20;

/// A near branch leads everywhere within fewer instructions than these.
pub const BRANCH_WORDS: u32 = BRANCH_REACH / 4;

/// A near jump leads everywhere within fewer instructions than these.
pub const JUMP_WORDS: u32 = JUMP_REACH / 4;

/// How many instructions a function is, its entry included.
pub fn words_of_function(jumps: Reach, function: &PlacedFunction) -> u32
    requires { placed_code_length (map placed_line_of function.now.code.items) ≤ most_text_length }
    ensures words { result ≡ words_of_function jumps (placed_lines_of function.now) }
    ensures few { result ≤ most_entry_words + placed_code_length (map placed_line_of function.now.code.items) }
{
    let forms = forms_of(jumps, &function.code);
    jumps.entry_words() + words_of_items(forms, &function.code)
}

/// How many instructions functions are.
pub fn words_of_functions(jumps: Reach, functions: &[PlacedFunction]) -> u32
    requires functions { length functions.now ≤ most_functions }
    requires short { placed_functions_length (map placed_lines_of functions.now) ≤ most_text_length }
    ensures words { result ≡ words_of_functions jumps (map placed_lines_of functions.now) }
    ensures few { result ≤ most_entry_words * length functions.now + placed_functions_length (map placed_lines_of functions.now) }
{
    let mut words = 0;
    for function in functions {
        words += words_of_function(jumps, function);
    }
    words
}

/// How many instructions the lines of a runtime are.
pub fn words_of_natives(natives: &[Native]) -> u32
    requires { words_of natives.now ≤ most_runtime_words }
    ensures { result ≡ words_of natives.now }
{
    let mut words = 0;
    for line in natives {
        words += words_of_native(line);
    }
    words
}

/// How many bytes constants are.
pub fn bytes_of_constants(constants: &[Text]) -> u32
    requires { length (all_bytes constants.now) ≤ most_constant_bytes }
    ensures { result ≡ length (all_bytes constants.now) }
{
    let mut bytes = 0;
    for text in constants {
        bytes += text.len() as u32;
    }
    bytes
}
