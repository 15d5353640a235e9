// Whether operands stand where their action takes and gives them.

ghost use Rattle.std.specs.Prelude.{◌≡◌};
ghost use Rattle.rv_regs.specs.Conditions.{may_set};
ghost use Rattle.rv_isa.specs.Conventions.{is_handed_out, is_in, is_register, is_slot, argument, takes_at, gives_at, take_from, gives_into, conforms};

use rv_isa::{Action, Operand, Operation, Place};

/// Whether the register of this number is one that values may have.
pub fn may_have_value(register: u8) -> bool
    ensures { result ≡ is_handed_out register }
{
    matches!(register, 0 | 3..=7 | 10..=17 | 20..=31)
}

/// Whether an action, or a move, may write at the place: at a register that holds a word always, only an action that gives that.
pub fn may_set(action: Option<Action>, place: Place) -> bool
    ensures { result ≡ may_set action place }
{
    match action {
        Some(action) => action.may_write(place),
        None => !place.is_of_constant(),
    }
}

fn is_any_register(place: Place) -> bool
    ensures { result ≡ is_register place }
{
    matches!(place, Place::Register(_))
}

/// Whether the place is the register of the call's argument of this index.
pub fn is_argument(index: usize, place: Place) -> bool
    ensures { result ≡ is_in (argument index) place }
{
    index < 22 && place.is_in(10 + index)
}

fn is_any_slot(place: Place) -> bool
    ensures { result ≡ is_slot place }
{
    matches!(place, Place::Slot(_))
}

fn takes(action: Action, index: usize, place: Place) -> bool
    ensures { result ≡ takes_at action index place }
{
    match action {
        Action::Compute(_) | Action::Branch(..) => is_any_register(place),
        Action::Label(_) | Action::Jump(_) | Action::Room => false,
        Action::Call(_) | Action::TailCall(_) | Action::Return => { is_argument(index, place) }
        Action::Routine(routine) => place.is_in_any(routine.takes(index)),
        Action::Hold if index > 0 => is_any_register(place),
        Action::Hold | Action::Unhold => is_any_slot(place),
    }
}

fn gives(action: Action, place: Place) -> bool
    ensures { result ≡ gives_at action place }
{
    match action {
        Action::Compute(Operation::Sw(_) | Operation::Dup | Operation::Free) => false,
        Action::Compute(_) => is_any_register(place),
        Action::Call(_) => place.is_in(10),
        Action::Routine(routine) => place.is_in_any(routine.gives()),
        Action::Unhold => is_any_register(place),
        _ => false,
    }
}

fn takes_all(action: Action, args: &[Operand]) -> bool
    ensures { result ≡ take_from action 0 args.now }
{
    for (index, arg) in args.iter().enumerate() {
        if !takes(action, index, arg.place) {
            return false;
        }
    }
    true
}

fn gives_to(action: Action, into: Option<Operand>) -> bool
    ensures { result ≡ gives_into action into }
{
    match into {
        Some(into) => gives(action, into.place),
        None => true,
    }
}

/// Whether the operands stand where the action takes and gives them.
pub fn stand_as_taken(action: Action, args: &[Operand], into: Option<Operand>) -> bool
    ensures { result ≡ conforms action args.now into }
{
    takes_all(action, args) && gives_to(action, into)
}
