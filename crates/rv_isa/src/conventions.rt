// Where words stand from the start of a run to its end.

ghost use Rattle.std.specs.Prelude.{◌≡◌, option_map};
ghost use Rattle.rv_isa.specs.declared.register.Register.{Register};
ghost use Rattle.rv_isa.specs.Conventions.{home, is_constant_register, is_of_constant, is_in, is_in_any, is_lost, is_idle, may_write};

use crate::{Action, Operation, Place, Register};

/// The header of a cell of tag 1 whose second field alone refers to a cell, as `Cons(head, tail)` of a list of numbers. No header is
/// more common in the programs of examples/ and bench/, so `s4` holds it from the start of a run to its end.
pub const LIST_HEADER: u32 = 1 + 256 * 2;

impl Register {
    /// Whether the register always holds the same word.
    pub fn is_of_constant(self) -> bool
        ensures { result ≡ is_constant_register self.number }
    {
        matches!(self.number, 0 | 3 | 20)
    }
}

impl Place {
    /// Whether the place is the register of this number.
    pub fn is_in(self, register: usize) -> bool
        ensures { result ≡ is_in register self }
    {
        match self {
            Place::Register(other) => usize::from(other.number) == register,
            Place::Slot(_) => false,
        }
    }

    /// Whether the place is the register of this number, if there is one.
    pub fn is_in_any(self, register: Option<u8>) -> bool
        ensures { result ≡ is_in_any register self }
    {
        match register {
            Some(register) => self.is_in(usize::from(register)),
            None => false,
        }
    }

    /// Whether the place is a register that always holds the same word.
    pub fn is_of_constant(self) -> bool
        ensures { result ≡ is_of_constant self }
    {
        match self {
            Place::Register(register) => register.is_of_constant(),
            Place::Slot(_) => false,
        }
    }
}

impl Action {
    /// The register that always holds the word that the action gives, if one does.
    pub fn home(self) -> Option<Register>
        ensures { option_map (λ (register : Register). register.number) result ≡ home self }
    {
        match self {
            Action::Compute(Operation::Li(0)) => Some(Register::ZERO),
            Action::Compute(Operation::Li(1)) => Some(Register::GP),
            Action::Compute(Operation::Li(LIST_HEADER)) => Some(Register::S4),
            _ => None,
        }
    }

    /// Whether that is the place.
    fn is_home(self, place: Place) -> bool
        ensures { result ≡ is_in_any (home self) place }
    {
        match self.home() {
            Some(register) => place.is_in(usize::from(register.number)),
            None => false,
        }
    }

    /// Whether the action loads a word into the zero register, where it is lost.
    pub fn is_lost(self, place: Place) -> bool
        ensures { result ≡ is_lost self place }
    {
        match self {
            Action::Compute(Operation::Lw(_)) => place.is_in(0),
            _ => false,
        }
    }

    /// Whether the action, which writes at the place, is no instruction: it gives its word to the register that always holds that,
    /// or loses it.
    pub fn is_idle(self, place: Place) -> bool
        ensures { result ≡ is_idle self place }
    {
        self.is_home(place) || self.is_lost(place)
    }

    /// Whether the action may write at the place: at a register that always holds the same word, only where it is no instruction.
    pub fn may_write(self, place: Place) -> bool
        ensures { result ≡ may_write self place }
    {
        self.is_idle(place) || !place.is_of_constant()
    }
}
