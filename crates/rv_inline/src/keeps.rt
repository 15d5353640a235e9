ghost use Rattle.std.specs.Prelude.{◌≡◌, ◌+◌, ◌*◌, ◌⊎◌, ℕ, List, Some, slice_get};
ghost use Rattle.kk_base.specs.Machines.{state, trace};
ghost use Rattle.kk_base.specs.Simulations.{Simulates};
ghost use Rattle.kk_base.specs.Agreements.{Agree};
ghost use Rattle.rv_isa.specs.AsmCode.{Lines};
ghost use Rattle.rv_isa.specs.AsmMachine.{AsmState, asm_machine, asm_start};
ghost use Rattle.rv_isa.specs.LinePlaces.{AsmIsAt, AsmHasOwnLine};
ghost use Rattle.rv_isa.specs.Primitives.{Primitives, go};
ghost use Rattle.rv_isa.specs.ValueBounds.{HaveValuesBelow};
ghost use Rattle.rv_isa.specs.WellFormed.{AreWellFormed};
ghost use Rattle.rv_inline.specs.InLine.{most_fresh, HasInLine};
ghost use Rattle.rv_inline.specs.InLineLines.{line_in_line};
ghost use Rattle.rv_inline.specs.Relation.{Copies, FramesStand, FramesInCall, NeverStuck, Related, IsNotStuck};

/// What the machine of assembler code leaves open: operations, conditions and routines over what it shares. A copy gives its word, and
/// leaves alone what is shared.
pub trait Execution {
    ghost Shared: { Type 0 };

    ghost Event: { Type 0 };

    ghost Ending: { Type 0 };

    ghost primitives: { Primitives Shared Event Ending };

    ghost copies: { Copies primitives };
}

/// Code with calls in line means what the code means.
///
/// Its machine simulates that of the code step by step, and no step weighs more. From the start of the first function on both tell the
/// same events and end alike. The code must never come to a state in which it can do nothing more. Then the code with calls in line comes
/// to none either.
///
/// For each state in which the code goes on, the other code comes to a state with the same events told and the same shared. Its frames
/// stand for those of that state, with their values and what they hold: a leaf that runs in a frame of its own in the one runs in the
/// frame of its caller in the other. Each own line of the code has an own line in the other code; of a call in line it is the line that
/// asks for the room of a frame. Where the code is at an own line, the other code comes to that line, with the same told and shared.
///
/// Where code is well formed, so is that with calls in line, and a function names at most `most_fresh` values more. It is a law, and does
/// nothing.
pub fn calls_in_line_keep_meaning<M: Execution>()
    ensures simulates { (q q' : List Lines) (depth : ℕ) → HasInLine q q'
        → Simulates (asm_machine M.primitives depth q) (asm_machine M.primitives depth q')
        (Related M.primitives depth q q') IsNotStuck 1 }
    ensures starts { (q q' : List Lines) (depth : ℕ) (main : Lines) (shared : M.Shared) → HasInLine q q'
        → slice_get q 0 ≡ Some main → NeverStuck M.primitives depth q (asm_start main shared)
        → (main' : Lines) × (slice_get q' 0 ≡ Some main') × (main'.params ≡ main.params)
        × Related M.primitives depth q q' 0 0 (asm_start main shared) (asm_start main' shared) }
    ensures agrees { (q q' : List Lines) (depth : ℕ) (main : Lines) (shared : M.Shared) → HasInLine q q'
        → slice_get q 0 ≡ Some main → NeverStuck M.primitives depth q (asm_start main shared)
        → (main' : Lines) × (slice_get q' 0 ≡ Some main')
        × Agree (asm_machine M.primitives depth q) (asm_machine M.primitives depth q') 0 (λ steps. steps * 1 + 0 + 1)
        (asm_start main shared) (asm_start main' shared) }
    ensures never_stuck { (q q' : List Lines) (depth : ℕ) (main : Lines) (shared : M.Shared) → HasInLine q q'
        → slice_get q 0 ≡ Some main → NeverStuck M.primitives depth q (asm_start main shared)
        → (main' : Lines) × (slice_get q' 0 ≡ Some main') × NeverStuck M.primitives depth q' (asm_start main' shared) }
    ensures follows { (q q' : List Lines) (depth : ℕ) (main : Lines) (shared : M.Shared) → HasInLine q q'
        → slice_get q 0 ≡ Some main → NeverStuck M.primitives depth q (asm_start main shared)
        → (main' : Lines) × ((slice_get q' 0 ≡ Some main')
        × ((n : ℕ) (s : AsmState M.Shared) → state (asm_machine M.primitives depth q) n (asm_start main shared) ≡ go s
        → (count : ℕ) × ((t : AsmState M.Shared)
        × ((state (asm_machine M.primitives depth q') count (asm_start main' shared) ≡ go t)
        × ((trace (asm_machine M.primitives depth q') count (asm_start main' shared)
        ≡ trace (asm_machine M.primitives depth q) n (asm_start main shared))
        × ((t.shared ≡ s.shared)
        × (FramesStand q q' s.frames t.frames ⊎ FramesInCall q q' s.frames t.frames))))))) }
    ensures has { (q q' : List Lines) → HasInLine q q' → (f k : ℕ) → AsmHasOwnLine q f k
        → AsmHasOwnLine q' f (line_in_line q q' f k) }
    ensures apart { (q q' : List Lines) → HasInLine q q' → (f j k : ℕ) → AsmHasOwnLine q f j → AsmHasOwnLine q f k
        → line_in_line q q' f j ≡ line_in_line q q' f k → j ≡ k }
    ensures comes { (q q' : List Lines) (depth : ℕ) (main : Lines) (shared : M.Shared) → HasInLine q q'
        → slice_get q 0 ≡ Some main → NeverStuck M.primitives depth q (asm_start main shared)
        → (main' : Lines) × ((slice_get q' 0 ≡ Some main')
        × ((n f k : ℕ) (now : M.Shared) → AsmHasOwnLine q f k
        → AsmIsAt q f k now (state (asm_machine M.primitives depth q) n (asm_start main shared))
        → (count : ℕ) × ((trace (asm_machine M.primitives depth q') count (asm_start main' shared)
        ≡ trace (asm_machine M.primitives depth q) n (asm_start main shared))
        × AsmIsAt q' f (line_in_line q q' f k) now
        (state (asm_machine M.primitives depth q') count (asm_start main' shared))))) }
    ensures formed { (q q' : List Lines) → HasInLine q q' → AreWellFormed q → AreWellFormed q' }
    ensures values { (q q' : List Lines) (most : ℕ) → HasInLine q q' → HaveValuesBelow most q
        → HaveValuesBelow (most + most_fresh) q' }
{}
