// The check of a placed form against its assembler form.

ghost use Rattle.std.specs.Prelude.{◌≡◌, ◌↔◌, ◌==◌, ℕ, IsTrue, All, map, option_map};
ghost use Rattle.std.specs.List.{position_from};
ghost use Rattle.rv_isa.specs.AsmCode.{line_of, lines_of};
ghost use Rattle.rv_isa.specs.PlacedCode.{placed_line_of, placed_lines_of, from_of, to_of};
ghost use Rattle.rv_regs.specs.Listings.{first_alive, alive_before, alive_behind, alive_at_label, both_of};
ghost use Rattle.rv_regs.specs.Conditions.{value_of, without_moves, IsPassed, IsPlacing, ArePlacings, Fits, LineFits, AllFit};
ghost use Rattle.rv_regs.specs.Valid.{IsValid};
ghost use Rattle.rv_regs.specs.Views.{line_with, point_of};
ghost use Rattle.rv_isa.specs.Frames.{found};
ghost use Rattle.rv_isa.specs.PlacedMachine.{is_label_line};

use crate::conventions::{is_argument, stand_as_taken};
use crate::keeping::{all_allowed, all_needed, all_stay_held, keeps_all_at_each, write_allowed};
use crate::places::{all_apart, all_at_place, same_action};
use kk_base::Text;
use rv_isa::{
    Action, Asm, AsmFunction, Item, Listed, Operand, Place, Placed, PlacedFunction, Statement, Way,
};

fn same_values(operands: &[Operand], values: &[u32]) -> bool
    ensures { IsTrue result ↔ (map value_of operands.now ≡ values.now) }
{
    if operands.len() != values.len() {
        return false;
    }
    for (index, operand) in operands.iter().enumerate() {
        if operand.value != values[index] {
            return false;
        }
    }
    true
}

fn same_value(operand: Option<Operand>, value: Option<u32>) -> bool
    ensures { IsTrue result ↔ (option_map value_of operand ≡ value) }
{
    match (operand, value) {
        (Some(operand), Some(value)) => operand.value == value,
        (None, None) => true,
        _ => false,
    }
}

fn is_line(action: Action, args: &[Operand], into: Option<Operand>, statement: &Statement) -> bool
    ensures { IsTrue result ↔ (line_with action args.now into ≡ line_of statement.now) }
{
    same_action(action, statement.action)
        && same_values(args, &statement.args)
        && same_value(into, statement.into)
}

/// Whether the code is these statements, without its moves and places.
fn is_code(code: &[Item], statements: &[Statement]) -> bool
    ensures { IsTrue result ↔ (without_moves (map placed_line_of code.now) ≡ map line_of statements.now) }
{
    let mut at = 0;
    for item in code {
        if let Item::Does {
            action,
            args,
            into,
            ..
        } = item
        {
            if at >= statements.len() || !is_line(*action, args, *into, &statements[at]) {
                return false;
            }
            at += 1;
        }
    }
    at == statements.len()
}

fn index_of(params: &[u32], value: u32) -> Option<usize>
    ensures { result ≡ position_from (λ (param : ℕ). param == value) 0 params.now }
{
    for (index, param) in params.iter().enumerate() {
        if *param == value {
            return Some(index);
        }
    }
    None
}

#[tactic(auto, unfolding(crate::specs::Conditions::IsPassed))]
fn is_passed(params: &[u32], listed: Listed) -> bool
    ensures { IsTrue result ↔ IsPassed params.now listed }
{
    match index_of(params, listed.value) {
        Some(index) => { is_argument(index, listed.place) && !listed.held && listed.copy.is_none() }
        None => false,
    }
}

fn all_passed(params: &[u32], alive: &[Listed]) -> bool
    ensures { IsTrue result ↔ All (IsPassed params.now) alive.now }
{
    alive.iter().all(|listed| is_passed(params, *listed))
}

fn same_words(a: &[u32], b: &[u32]) -> bool
    ensures { IsTrue result ↔ (a.now ≡ b.now) }
{
    a == b
}

/// Whether a function with places is one over values, as `IsPlacing` says. Takes no memory.
pub fn is_placing(function: &AsmFunction, placed: &PlacedFunction) -> bool
    ensures { IsTrue result ↔ IsPlacing (lines_of function.now) (placed_lines_of placed.now) }
{
    same_words(&placed.params, &function.params)
        && is_code(&placed.code, &function.code)
        && all_passed(&function.params, alive_first(&placed.code))
        && all_fit(&placed.code)
}

fn are_placings(functions: &[AsmFunction], placed: &[PlacedFunction]) -> bool
    ensures { IsTrue result ↔ ArePlacings (map lines_of functions.now) (map placed_lines_of placed.now) }
{
    if functions.len() != placed.len() {
        return false;
    }
    for (index, function) in functions.iter().enumerate() {
        if !is_placing(function, &placed[index]) {
            return false;
        }
    }
    true
}

fn same_bytes(a: &[u8], b: &[u8]) -> bool
    ensures { IsTrue result ↔ (a.now ≡ b.now) }
{
    a == b
}

fn same_constants(a: &[Text], b: &[Text]) -> bool
    ensures { IsTrue result ↔ (a.now ≡ b.now) }
{
    if a.len() != b.len() {
        return false;
    }
    for (index, text) in a.iter().enumerate() {
        if !same_bytes(text.as_slice(), b[index].as_slice()) {
            return false;
        }
    }
    true
}

/// Whether the placed form is one of the assembler form, as `IsValid` says. Takes no memory.
pub fn valid(asm: &Asm, placed: &Placed) -> bool
    ensures { IsTrue result ↔ IsValid asm.now placed.now }
{
    are_placings(&asm.functions, placed.functions())
        && same_constants(placed.constants(), &asm.constants)
        && placed.natives().is_empty()
}

fn alive_of(item: &Item) -> &[Listed]
    ensures { result.now ≡ alive_before (placed_line_of item.now) }
{
    match item {
        Item::Does { alive, .. } => alive,
        Item::Moves { alive, .. } => alive,
    }
}

/// What is alive at the begin of code; behind the end, nothing.
pub fn alive_first(code: &[Item]) -> &[Listed]
    ensures { result.now ≡ first_alive (map placed_line_of code.now) }
{
    match code.first() {
        Some(item) => alive_of(item),
        None => &[],
    }
}

fn is_label(item: &Item, label: u32) -> bool
    ensures { result ≡ is_label_line label (placed_line_of item.now) }
{
    match item {
        Item::Does {
            action: Action::Label(other),
            ..
        } => *other == label,
        _ => false,
    }
}

fn alive_at(code: &[Item], label: u32) -> Option<&[Listed]>
    ensures { point_of result ≡ option_map first_alive (found (is_label_line label) (map placed_line_of code.now)) }
{
    for item in code {
        if is_label(item, label) {
            return Some(alive_of(item));
        }
    }
    None
}

fn point_behind(rest: &[Item], action: Action) -> Option<&[Listed]>
    ensures { point_of result ≡ alive_behind (map placed_line_of rest.now) action }
{
    match action {
        Action::Jump(_) | Action::TailCall(_) | Action::Return => None,
        _ => Some(alive_first(rest)),
    }
}

fn point_at_label(whole: &[Item], action: Action) -> Option<&[Listed]>
    ensures { point_of result ≡ alive_at_label (map placed_line_of whole.now) action }
{
    match action {
        Action::Jump(label) => alive_at(whole, label),
        Action::Branch(_, label) => alive_at(whole, label),
        _ => None,
    }
}

/// Where a move takes its value.
pub fn from(way: Way) -> Place
    ensures { result ≡ from_of way }
{
    match way {
        Way::Copy { from, .. } | Way::Store { from, .. } => Place::Register(from),
        Way::Load { from, .. } => Place::Slot(from),
    }
}

/// Where a move puts its value.
pub fn to(way: Way) -> Place
    ensures { result ≡ to_of way }
{
    match way {
        Way::Copy { to, .. } | Way::Load { to, .. } => Place::Register(to),
        Way::Store { to, .. } => Place::Slot(to),
    }
}

fn fits(
    alive: &[Listed],
    reads: &[Operand],
    write: Option<Operand>,
    action: Option<Action>,
    behind: Option<&[Listed]>,
    at_label: Option<&[Listed]>,
) -> bool
    ensures { IsTrue result ↔ Fits alive.entry.now reads.entry.now write action (both_of (point_of behind.entry) (point_of at_label.entry)) }
{
    all_needed(alive, reads, write, behind, at_label)
        && all_apart(alive)
        && all_at_place(alive, reads)
        && keeps_all_at_each(alive, reads, write, action, behind, at_label)
        && all_allowed(alive)
        && write_allowed(action, write)
        && all_stay_held(alive, reads, action, behind, at_label)
}

fn line_fits(whole: &[Item], rest: &[Item], item: &Item) -> bool
    ensures { IsTrue result ↔ LineFits (map placed_line_of whole.now) (map placed_line_of rest.now) (placed_line_of item.now) }
{
    match item {
        Item::Does {
            alive,
            action,
            args,
            into,
        } => {
            let behind = point_behind(rest, *action);
            let at_label = point_at_label(whole, *action);
            stand_as_taken(*action, args, *into)
                && fits(alive, args, *into, Some(*action), behind, at_label)
        }
        Item::Moves { alive, value, way } => {
            let read = Operand {
                value: *value,
                place: from(*way),
            };
            let write = Operand {
                value: *value,
                place: to(*way),
            };
            fits(
                alive,
                &[read],
                Some(write),
                None,
                Some(alive_first(rest)),
                None,
            )
        }
    }
}

/// Whether each line of a function fits.
pub fn all_fit(code: &[Item]) -> bool
    ensures { IsTrue result ↔ AllFit (map placed_line_of code.now) (map placed_line_of code.now) }
{
    for (index, item) in code.iter().enumerate() {
        if !line_fits(code, &code[index + 1..], item) {
            return false;
        }
    }
    true
}
