ghost use Rattle.std.specs.Prelude.{◌≡◌, ℕ, [], Some, slice_get};
ghost use Rattle.kk_base.specs.Machines.{trace, state};
ghost use Rattle.rv_isa.specs.declared.asm.Asm.{Asm};
ghost use Rattle.rv_isa.specs.declared.placed.Placed.{Placed};
ghost use Rattle.rv_isa.specs.AsmCode.{Lines, asm_functions};
ghost use Rattle.rv_isa.specs.PlacedCode.{PlacedLines, placed_functions};
ghost use Rattle.rv_isa.specs.Primitives.{go};
ghost use Rattle.rv_isa.specs.AsmMachine.{AsmState, asm_machine, asm_start};
ghost use Rattle.rv_isa.specs.PlacedMachine.{PlacedState, placed_machine, placed_start};
ghost use Rattle.rv_isa.specs.LinePlaces.{AsmIsAt, PlacedIsAt, AsmHasLine, PlacedHasLine, AsmHasOwnLine, PlacedHasOwnLine};
ghost use Rattle.rv_regs.specs.Valid.{IsValid};
ghost use Rattle.rv_regs.specs.Relation.{FramesStand, NeverStuck};
ghost use Rattle.rv_regs.specs.StatementLines.{line_of};

use crate::keeps::Execution;

/// A valid placed form comes to each line of its assembler form.
///
/// Each statement that is always an instruction has a line of its own in the placed form, which is one too, and is an own line where
/// the statement is one. Where the machine of the assembler form comes to the statement, that of the placed form comes to its line,
/// with the same events before, and their primitives share the same. For each state that goes on it comes to one that has the same
/// events before and shares the same, and whose frames stand for those of that state, with their values and what they hold. It is a
/// law, and does nothing.
pub fn placed_forms_come_to_each_line<M: Execution>()
    ensures has { (asm : Asm) (placed : Placed) → IsValid asm placed
        → (f k : ℕ) → AsmHasLine (asm_functions asm) f k
        → PlacedHasLine (placed_functions placed) f (line_of (placed_functions placed) f k) }
    ensures own { (asm : Asm) (placed : Placed) → IsValid asm placed
        → (f k : ℕ) → AsmHasOwnLine (asm_functions asm) f k
        → PlacedHasOwnLine (placed_functions placed) f (line_of (placed_functions placed) f k) }
    ensures apart { (asm : Asm) (placed : Placed) → IsValid asm placed
        → (f k j : ℕ) → AsmHasLine (asm_functions asm) f k → AsmHasLine (asm_functions asm) f j
        → line_of (placed_functions placed) f k ≡ line_of (placed_functions placed) f j → k ≡ j }
    ensures comes { (asm : Asm) (placed : Placed) (depth : ℕ) (main : Lines) (shared : M.Shared) → IsValid asm placed
        → slice_get (asm_functions asm) 0 ≡ Some main → main.params ≡ []
        → NeverStuck M.primitives depth (asm_functions asm) (asm_start main shared)
        → (placed_main : PlacedLines) × ((slice_get (placed_functions placed) 0 ≡ Some placed_main)
        × ((n f k : ℕ) (now : M.Shared) → AsmHasLine (asm_functions asm) f k
        → AsmIsAt (asm_functions asm) f k now (state (asm_machine M.primitives depth (asm_functions asm)) n (asm_start main shared))
        → (m : ℕ) × ((trace (placed_machine M.primitives depth (placed_functions placed)) m (placed_start placed_main shared)
        ≡ trace (asm_machine M.primitives depth (asm_functions asm)) n (asm_start main shared))
        × PlacedIsAt (placed_functions placed) f (line_of (placed_functions placed) f k) now
        (state (placed_machine M.primitives depth (placed_functions placed)) m (placed_start placed_main shared))))) }
    ensures follows { (asm : Asm) (placed : Placed) (depth : ℕ) (main : Lines) (shared : M.Shared) → IsValid asm placed
        → slice_get (asm_functions asm) 0 ≡ Some main → main.params ≡ []
        → NeverStuck M.primitives depth (asm_functions asm) (asm_start main shared)
        → (placed_main : PlacedLines) × ((slice_get (placed_functions placed) 0 ≡ Some placed_main)
        × ((n : ℕ) (s : AsmState M.Shared)
        → state (asm_machine M.primitives depth (asm_functions asm)) n (asm_start main shared) ≡ go s
        → (m : ℕ) × ((t : PlacedState M.Shared)
        × ((state (placed_machine M.primitives depth (placed_functions placed)) m (placed_start placed_main shared) ≡ go t)
        × ((trace (placed_machine M.primitives depth (placed_functions placed)) m (placed_start placed_main shared)
        ≡ trace (asm_machine M.primitives depth (asm_functions asm)) n (asm_start main shared))
        × ((t.shared ≡ s.shared) × FramesStand t.registers s.frames t.frames)))))) }
{}
