// Whether a function with places has few moves, few slots, and is short.

ghost use Rattle.std.specs.Prelude.{◌≤◌, ◌<◌, ◌+◌, ◌*◌, ◌≡◌, ℕ, IsTrue, All, length, map};
ghost use Rattle.kk_base.specs.Limits.{greatest_of};
ghost use Rattle.kk_base.specs.declared.limit.LimitKind.TheVariants.{Parameters};
ghost use Rattle.rv_isa.specs.declared.placed.Listed.{Listed};
ghost use Rattle.rv_isa.specs.declared.placed.Operand.{Operand};
ghost use Rattle.rv_isa.specs.AsmCode.{line_of, lines_of};
ghost use Rattle.rv_isa.specs.PlacedCode.{placed_line_of, placed_lines_of};
ghost use Rattle.rv_isa.specs.Costs.{operation_instructions, move_instructions, tail_call_length, routine_length, action_length, result_moves, line_length, code_length, placed_line_length, placed_code_length};
ghost use Rattle.rv_isa.specs.ValueBounds.{AreValuesBelow, IsWrittenBelow, AreLinesBelow, HasValuesBelow};
ghost use Rattle.rv_regs.specs.Relation.{argument_loads, stores_behind, FunctionFewMoves};
ghost use Rattle.rv_regs.specs.Shape.{IsBelow, IsResultBelow, HasSlotsBelow, AllSlotsBelow, HasOwnSlots, IsModest};

use crate::checking::{from, to};
use kk_base::LimitKind;
use rv_isa::{
    Action, AsmFunction, Item, Listed, Operand, Operation, Place, PlacedFunction, Routine,
    Statement,
};

// One more than a value, or `most` where that is more.
fn behind(most: u32, value: u32) -> u32
    ensures { (limit : ℕ) → most ≤ limit → value < limit → result ≤ limit }
{
    most.max(value.saturating_add(1))
}

// One more than the greatest of some values, or `most` where that is more.
fn values_behind(most: u32, values: &[u32]) -> u32
    ensures { (limit : ℕ) → most ≤ limit → AreValuesBelow limit values.now → result ≤ limit }
{
    let mut greatest = most;
    for value in values {
        greatest = behind(greatest, *value);
    }
    greatest
}

fn written_behind(most: u32, into: Option<u32>) -> u32
    ensures { (limit : ℕ) → most ≤ limit → IsWrittenBelow limit into → result ≤ limit }
{
    match into {
        Some(value) => behind(most, value),
        None => most,
    }
}

fn lines_behind(most: u32, code: &[Statement]) -> u32
    ensures { (limit : ℕ) → most ≤ limit → AreLinesBelow limit (map line_of code.now) → result ≤ limit }
{
    let mut greatest = most;
    for statement in code {
        greatest = values_behind(greatest, &statement.args);
        greatest = written_behind(greatest, statement.into);
    }
    greatest
}

// How many values a function has: one more than the greatest that it names.
fn count_of_values(function: &AsmFunction) -> u32
    ensures { (limit : ℕ) → HasValuesBelow limit (lines_of function.now) → result ≤ limit }
{
    lines_behind(values_behind(0, &function.params), &function.code)
}

fn is_below(most: u32, place: Place) -> bool
    ensures { IsTrue result → IsBelow most place }
{
    match place {
        Place::Register(_) => true,
        Place::Slot(slot) => slot < most,
    }
}

fn are_listed_below(most: u32, alive: &[Listed]) -> bool
    ensures { IsTrue result → All (λ (l : Listed). IsBelow most l.place) alive.now }
{
    alive.iter().all(|listed| is_below(most, listed.place))
}

fn are_read_below(most: u32, args: &[Operand]) -> bool
    ensures { IsTrue result → All (λ (arg : Operand). IsBelow most arg.place) args.now }
{
    args.iter().all(|arg| is_below(most, arg.place))
}

fn is_result_below(most: u32, into: Option<Operand>) -> bool
    ensures { IsTrue result → IsResultBelow most into }
{
    match into {
        Some(into) => is_below(most, into.place),
        None => true,
    }
}

fn has_slots_below(most: u32, item: &Item) -> bool
    ensures { IsTrue result → HasSlotsBelow most (placed_line_of item.now) }
{
    match item {
        Item::Does {
            alive,
            args,
            into,
            ..
        } => {
            are_listed_below(most, alive)
                && are_read_below(most, args)
                && is_result_below(most, *into)
        }
        Item::Moves { alive, way, .. } => {
            are_listed_below(most, alive) && is_below(most, from(*way)) && is_below(most, to(*way))
        }
    }
}

fn all_slots_below(most: u32, code: &[Item]) -> bool
    ensures { IsTrue result → AllSlotsBelow most (map placed_line_of code.now) }
{
    for item in code {
        if !has_slots_below(most, item) {
            return false;
        }
    }
    true
}

// Whether the slots of a function with places are no more than the function has values.
fn has_few_slots(function: &AsmFunction, placed: &PlacedFunction) -> bool
    ensures { IsTrue result → HasOwnSlots (lines_of function.now) (placed_lines_of placed.now) }
{
    all_slots_below(count_of_values(function), &placed.code)
}

fn result_count(into: Option<Operand>) -> usize
    ensures { result ≡ result_moves into }
{
    match into {
        Some(_) => 1,
        None => 0,
    }
}

// The most arguments of a line: as many as a function has parameters.
fn most_arguments() -> usize
    ensures { result ≡ greatest_of Parameters }
{
    LimitKind::Parameters.greatest() as usize
}

// The stores that may stand behind a line with so many arguments.
fn stores_of(action: Action, args: &[Operand], into: Option<Operand>) -> usize
    requires { length args.now ≤ greatest_of Parameters }
    ensures { result ≡ stores_behind action args.now into }
{
    match action {
        Action::Compute(_) => args.len() + result_count(into),
        _ => result_count(into),
    }
}

// The moves that may stand before a line for so many arguments: a token that is taken back is in its slot; before a drop one more may
// stand, with which a value leaves the register that it takes its reference in.
fn loads_of(action: Action, args: &[Operand]) -> usize
    ensures { result ≡ argument_loads action (length args.now) }
{
    match action {
        Action::Unhold => 0,
        Action::Routine(Routine::Drop) => args.len() + 1,
        _ => args.len(),
    }
}

// How many moves are counted at most.
const MOST_COUNT: usize = 100;

fn has_few_moves(placed: &PlacedFunction) -> bool
    ensures { IsTrue result → FunctionFewMoves (placed_lines_of placed.now) }
{
    if placed.params.len() > most_arguments() {
        return false;
    }
    let mut most = placed.params.len();
    let mut count = 0;
    for item in &placed.code {
        match item {
            Item::Does {
                action,
                args,
                into,
                ..
            } => {
                if args.len() > most_arguments() || count > most + loads_of(*action, args) {
                    return false;
                }
                most = stores_of(*action, args, *into);
                count = 0;
            }
            Item::Moves { .. } => {
                if count == MOST_COUNT {
                    return false;
                }
                count += 1;
            }
        }
    }
    count <= most
}

fn length_of_operation(operation: Operation) -> u32
    ensures { result ≡ operation_instructions operation }
{
    match operation {
        Operation::Li(_) | Operation::La(_) => 2,
        Operation::Dup => 5,
        Operation::Free => 3,
        _ => 1,
    }
}

// What may be written in place of a tail call where a function calls itself.
const TAIL_CALL_LENGTH: u32 = 11;

fn length_of_routine(routine: Routine) -> u32
    ensures { result ≡ routine_length routine }
{
    match routine {
        Routine::Drop => 8,
        Routine::Take | Routine::PrintInt | Routine::PrintText | Routine::ReadByte => 2,
    }
}

fn length_of_action(action: Action) -> u32
    ensures { result ≡ action_length action }
{
    match action {
        Action::Compute(operation) => length_of_operation(operation),
        Action::Label(_) => 0,
        Action::Jump(_) => 2,
        Action::Branch(..) => 3,
        Action::Call(_) => 7,
        Action::TailCall(_) => TAIL_CALL_LENGTH,
        Action::Return => 4,
        Action::Routine(routine) => length_of_routine(routine),
        Action::Hold => 5,
        Action::Unhold => 3,
        Action::Room => 4,
    }
}

// The most instructions of a statement with its moves, or fewer than that where it has too many arguments.
fn length_of(statement: &Statement) -> u32
    ensures most { result ≤ line_length (line_of statement.now) }
    ensures few { result ≤ 2 * greatest_of Parameters + 1 + tail_call_length }
{
    let results = match statement.into {
        Some(_) => 1,
        None => 0,
    };
    let action = length_of_action(statement.action);
    if statement.args.len() > most_arguments() {
        return action + results;
    }
    let args = statement.args.len() as u32;
    match statement.action {
        Action::Compute(_) | Action::Call(_) | Action::TailCall(_) => 2 * args + results + action,
        Action::Unhold => results + action,
        _ => args + results + action,
    }
}

// A sum of instructions that is as large grows no more: its numbers stay numbers of 32 bits.
const MOST_SUM: u32 = 1 << 30;

// At most as many instructions as the function is with its moves.
fn least_length(function: &AsmFunction) -> u32
    ensures { result ≤ length function.now.params.items * move_instructions + code_length (lines_of function.now).code }
{
    let mut sum = 0;
    if function.params.len() <= most_arguments() {
        sum = function.params.len() as u32;
    }
    for statement in &function.code {
        if sum < MOST_SUM {
            sum += length_of(statement);
        }
    }
    sum
}

fn placed_length(item: &Item) -> u32
    ensures { result ≡ placed_line_length (placed_line_of item.now) }
{
    match item {
        Item::Does { action, .. } => length_of_action(*action),
        Item::Moves { .. } => 1,
    }
}

fn is_short(code: &[Item], most: u32) -> bool
    ensures { IsTrue result → placed_code_length (map placed_line_of code.now) ≤ most }
{
    let mut left = most;
    for item in code {
        let length = placed_length(item);
        if length > left {
            return false;
        }
        left -= length;
    }
    true
}

/// Whether a function with places has few moves and slots, and is short. Where it has very many instructions, it may be said not to
/// be.
pub fn is_modest(function: &AsmFunction, placed: &PlacedFunction) -> bool
    ensures { IsTrue result → IsModest (lines_of function.now) (placed_lines_of placed.now) }
{
    has_few_moves(placed)
        && has_few_slots(function, placed)
        && is_short(&placed.code, least_length(function))
}
