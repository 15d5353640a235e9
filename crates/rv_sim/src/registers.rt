ghost use Rattle.std.specs.Prelude.{◌≡◌};
ghost use Rattle.rv_isa.specs.Processor.{value, put};
ghost use Rattle.rv_sim.specs.Registers.{registers_of};

use rv_isa::Register;
use std::marker::Model;

/// The integer registers, x0 to x31, by their number. x0 is zero.
#[derive(Drop)]
pub struct Registers {
    words: [u32; 32],
}

impl Model for Registers {
    ghost use Rattle.std.specs.Prelude.{◌≡◌, ℕ, List, slice_index};

    ghost Value = { List ℕ };

    ghost view = { λ r. r.words };

    ghost invariant = { λ r. slice_index r.words 0 ≡ 0 };
}

impl Registers {
    /// All registers are zero.
    pub fn new() -> Self
        ensures { registers_of result ≡ (λ _. 0) }
    {
        Registers { words: [0; 32] }
    }

    /// The word in a register.
    pub fn get(&self, register: Register) -> u32
        ensures { result ≡ value (registers_of self.now) register.number }
    {
        self.words[usize::from(register.number)]
    }

    /// Changes a register. A write to x0 is lost.
    pub fn set(&mut self, register: Register, word: u32)
        ensures { registers_of self.new ≡ put register.number word (registers_of self.old) }
    {
        if register.number != 0 {
            self.words[usize::from(register.number)] = word;
        }
    }
}
