ghost use Rattle.std.specs.Prelude.{◌≡◌, ℕ, ◌+◌, ◌≤◌, List, []};
ghost use Rattle.kk_base.specs.Trace.{Event as OutsideEvent};
ghost use Rattle.kk_base.specs.Machines.{Machine, weight_of, mapped};
ghost use Rattle.kk_base.specs.Agreements.{Agree};
ghost use Rattle.rv_isa.specs.Processor.{Processor, exited, goes};
ghost use Rattle.rv_isa.specs.InstructionSet.{InstructionSet, run_over};
ghost use Rattle.rv_isa.specs.ProcessorMachine.{processor_machine, ImageAgrees, ImageKeepsUp};

/// A machine with which the processor's machine agrees, from a state of its own and from a processor that has done nothing
/// on the outside yet. `told` is what is seen of an event on the outside, and `exit_of` has a number for each ending, with
/// which the processor exits; no two endings have the same.
pub trait AgreedImage {
    ghost Instruction: { Type 0 };

    ghost State: { Type 0 };

    ghost Event: { Type 0 };

    ghost Ending: { Type 0 };

    ghost instruction_set: { InstructionSet Instruction };

    ghost machine: { Machine State Event Ending };

    ghost told: { Event → List OutsideEvent };

    ghost exit_of: { Ending → ℕ };

    ghost differ: { (a b : Ending) → exit_of a ≡ exit_of b → a ≡ b };

    ghost first: { State };

    ghost processor: { Processor };

    ghost silent: { processor.trace ≡ [] };

    ghost credit: { ℕ };

    ghost up: { ℕ → ℕ };

    ghost agree: { Agree (mapped told (λ end. exited (exit_of end)) machine) (processor_machine instruction_set) credit up first (goes processor) };
}

/// Where the processor's machine agrees with a machine, the processor's run agrees with it too: it never traps, has done on
/// the outside what the machine has done, and exits exactly when and as the machine ends. Each instruction weighs 1, so
/// what the machine does in some steps the processor does within as many instructions as these weigh, and the credit. It is
/// a law, and does nothing.
pub fn agreed_image_agrees<A: AgreedImage>()
    ensures agrees { ImageAgrees A.machine A.told A.exit_of A.first (λ m. run_over A.instruction_set m A.processor) }
    ensures keeps_up { (within : ℕ → ℕ) → ((n : ℕ) → weight_of A.machine n A.first + A.credit ≤ within n) → ImageKeepsUp A.machine A.told A.exit_of within A.first (λ m. run_over A.instruction_set m A.processor) }
{}
