// The listings of a point: which values are alive, and where they stand.

ghost use Rattle.std.specs.Prelude.{◌≡◌, ◌↔◌, IsTrue, All};
ghost use Rattle.rv_isa.specs.declared.placed.Listed.{Listed};
ghost use Rattle.rv_regs.specs.Listings.{is_read_in};
ghost use Rattle.rv_regs.specs.Conditions.{IsWritten, IsListed, IsCopyAt, StandsAt, IsAtPlace, AreApart, Apart};

use rv_isa::{
    Action, Condition, Immediate, ImmediateOperation, Listed, Operand, Operation, Place, Register,
    RegisterOperation, Routine, ShiftAmount, ShiftOperation,
};
use rv_propose::listing;

/// Whether an operand is of the value.
pub fn is_read(reads: &[Operand], value: u32) -> bool
    ensures { result ≡ is_read_in reads.now value }
{
    for read in reads {
        if read.value == value {
            return true;
        }
    }
    false
}

/// Whether the value is the one that is written.
pub fn is_written(write: Option<Operand>, value: u32) -> bool
    ensures { IsTrue result ↔ IsWritten write value }
{
    match write {
        Some(into) => into.value == value,
        None => false,
    }
}

/// Whether the value is listed.
pub fn is_listed(alive: &[Listed], value: u32) -> bool
    ensures { IsTrue result ↔ IsListed alive.now value }
{
    listing(alive, value).is_some()
}

/// Whether the copy is at the place.
pub fn is_copy_at(copy: Option<Register>, place: Place) -> bool
    ensures { IsTrue result ↔ IsCopyAt copy place }
{
    match copy {
        Some(register) => same_place(Place::Register(register), place),
        None => false,
    }
}

fn stands_at(place: Place, listed: Listed) -> bool
    ensures { IsTrue result ↔ StandsAt place listed }
{
    same_place(listed.place, place) || is_copy_at(listed.copy, place)
}

fn is_at_place(alive: &[Listed], read: Operand) -> bool
    ensures { IsTrue result ↔ IsAtPlace alive.now read }
{
    match listing(alive, read.value) {
        Some(listed) => stands_at(read.place, listed),
        None => false,
    }
}

/// Whether what is read stands at the listed places, or in the registers of copies.
pub fn all_at_place(alive: &[Listed], reads: &[Operand]) -> bool
    ensures { IsTrue result ↔ All (IsAtPlace alive.now) reads.now }
{
    reads.iter().all(|read| is_at_place(alive, *read))
}

fn are_apart(listed: Listed, other: Listed) -> bool
    ensures { IsTrue result ↔ AreApart listed other }
{
    listed.value != other.value && !same_place(listed.place, other.place)
}

fn is_apart_from_all(listed: Listed, others: &[Listed]) -> bool
    ensures { IsTrue result ↔ All (AreApart listed) others.now }
{
    others.iter().all(|other| are_apart(listed, *other))
}

/// Whether the listed values, and their places, are different.
pub fn all_apart(alive: &[Listed]) -> bool
    ensures { IsTrue result ↔ Apart alive.now }
{
    for (index, listed) in alive.iter().enumerate() {
        if !is_apart_from_all(*listed, &alive[index + 1..]) {
            return false;
        }
    }
    true
}

/// Whether two registers are the same.
pub fn same_register(a: Register, b: Register) -> bool
    ensures { IsTrue result ↔ (a ≡ b) }
{
    a == b
}

fn same_immediate(a: Immediate, b: Immediate) -> bool
    ensures { IsTrue result ↔ (a ≡ b) }
{
    a == b
}

fn same_amount(a: ShiftAmount, b: ShiftAmount) -> bool
    ensures { IsTrue result ↔ (a ≡ b) }
{
    a == b
}

fn same_register_operation(a: RegisterOperation, b: RegisterOperation) -> bool
    ensures { IsTrue result ↔ (a ≡ b) }
{
    a == b
}

fn same_immediate_operation(a: ImmediateOperation, b: ImmediateOperation) -> bool
    ensures { IsTrue result ↔ (a ≡ b) }
{
    a == b
}

fn same_shift_operation(a: ShiftOperation, b: ShiftOperation) -> bool
    ensures { IsTrue result ↔ (a ≡ b) }
{
    a == b
}

fn same_condition(a: Condition, b: Condition) -> bool
    ensures { IsTrue result ↔ (a ≡ b) }
{
    a == b
}

fn same_routine(a: Routine, b: Routine) -> bool
    ensures { IsTrue result ↔ (a ≡ b) }
{
    a == b
}

/// Whether two places are the same.
pub fn same_place(a: Place, b: Place) -> bool
    ensures { IsTrue result ↔ (a ≡ b) }
{
    match (a, b) {
        (Place::Register(r), Place::Register(s)) => same_register(r, s),
        (Place::Slot(j), Place::Slot(k)) => j == k,
        _ => false,
    }
}

fn same_operation(a: Operation, b: Operation) -> bool
    ensures { IsTrue result ↔ (a ≡ b) }
{
    match (a, b) {
        (Operation::Register(p), Operation::Register(q)) => same_register_operation(p, q),
        (Operation::Immediate(p, i), Operation::Immediate(q, j)) => {
            same_immediate_operation(p, q) && same_immediate(i, j)
        }
        (Operation::Shift(p, i), Operation::Shift(q, j)) => {
            same_shift_operation(p, q) && same_amount(i, j)
        }
        (Operation::Li(v), Operation::Li(w)) => v == w,
        (Operation::Mv, Operation::Mv) => true,
        (Operation::La(v), Operation::La(w)) => v == w,
        (Operation::Lw(i), Operation::Lw(j)) => same_immediate(i, j),
        (Operation::Sw(i), Operation::Sw(j)) => same_immediate(i, j),
        (Operation::Dup, Operation::Dup) => true,
        (Operation::Free, Operation::Free) => true,
        _ => false,
    }
}

/// Whether two actions are the same.
pub fn same_action(a: Action, b: Action) -> bool
    ensures { IsTrue result ↔ (a ≡ b) }
{
    match (a, b) {
        (Action::Compute(p), Action::Compute(q)) => same_operation(p, q),
        (Action::Label(l), Action::Label(m)) => l == m,
        (Action::Jump(l), Action::Jump(m)) => l == m,
        (Action::Branch(p, l), Action::Branch(q, m)) => same_condition(p, q) && l == m,
        (Action::Call(f), Action::Call(g)) => f == g,
        (Action::TailCall(f), Action::TailCall(g)) => f == g,
        (Action::Return, Action::Return) => true,
        (Action::Routine(p), Action::Routine(q)) => same_routine(p, q),
        (Action::Hold, Action::Hold) => true,
        (Action::Unhold, Action::Unhold) => true,
        (Action::Room, Action::Room) => true,
        _ => false,
    }
}

/// Whether two copies are the same.
pub fn same_copy(a: Option<Register>, b: Option<Register>) -> bool
    ensures { IsTrue result ↔ (a ≡ b) }
{
    match (a, b) {
        (Some(r), Some(s)) => same_register(r, s),
        (None, None) => true,
        _ => false,
    }
}

/// Whether two listings are the same.
pub fn same_listing(a: Listed, b: Listed) -> bool
    ensures { IsTrue result ↔ (a ≡ b) }
{
    a.value == b.value
        && same_place(a.place, b.place)
        && a.held == b.held
        && same_copy(a.copy, b.copy)
}
