ghost use Rattle.std.specs.Prelude.{◌≡◌, ◌⊎◌, ◌+◌, ◌*◌, ℕ, List, Some, slice_get};
ghost use Rattle.kk_base.specs.Machines.{state, trace};
ghost use Rattle.kk_base.specs.Simulations.{Simulates};
ghost use Rattle.kk_base.specs.Agreements.{Agree};
ghost use Rattle.rv_isa.specs.LinePlaces.{PlacedIsAt, PlacedHasLine, PlacedHasOwnLine};
ghost use Rattle.rv_isa.specs.PlacedCode.{PlacedLines};
ghost use Rattle.rv_isa.specs.PlacedMachine.{PlacedState, placed_machine, placed_start};
ghost use Rattle.rv_isa.specs.Primitives.{Primitives, go};
ghost use Rattle.rv_loops.specs.Rotation.{HasOpposites, ComputesAlone, AreRotated};
ghost use Rattle.rv_loops.specs.RotatedLines.{rotated_line_of};
ghost use Rattle.rv_loops.specs.Relation.{IsAtSame, IsInTurn, FramesStand, NeverStuck, Related, IsNotStuck};

/// What the machine of placed code leaves open: operations, conditions and routines over what it shares. The opposite of a
/// condition holds exactly where the condition does not, and a computation that may be no instruction leaves alone what is shared.
pub trait Execution {
    ghost Shared: { Type 0 };

    ghost Event: { Type 0 };

    ghost Ending: { Type 0 };

    ghost primitives: { Primitives Shared Event Ending };

    ghost opposes: { HasOpposites primitives };

    ghost alone: { ComputesAlone primitives };
}

/// Code whose loops are rotated means what the code means.
///
/// Its machine simulates that of the code, and weighs no more on the whole. From the start of the first function on both tell the
/// same events and end alike. A run of the code must never come to a state in which it can do nothing more; then one of the rotated
/// code comes to none either. For each state of the one that goes on the other comes to one that has told the same and shares the
/// same, and whose frames stand for those of that state, with their values and what they hold. Each own line of the code, which does
/// more than compute a value or give one back, and is no test, has a line of its own in the rotated code, which is an instruction.
/// Where the one is at such a line, the other comes to that, with the same told and shared. It is a law, and does nothing.
pub fn rotated_code_keeps_meaning<M: Execution>()
    ensures simulates { (q q' : List PlacedLines) (depth : ℕ) → AreRotated 0 q q'
        → Simulates (placed_machine M.primitives depth q) (placed_machine M.primitives depth q')
        (Related M.primitives depth q q') IsNotStuck 2 }
    ensures starts { (q q' : List PlacedLines) (depth : ℕ) (main : PlacedLines) (shared : M.Shared) → AreRotated 0 q q'
        → slice_get q 0 ≡ Some main → NeverStuck M.primitives depth q (placed_start main shared)
        → (main' : PlacedLines) × (slice_get q' 0 ≡ Some main')
        × Related M.primitives depth q q' 0 1 (placed_start main shared) (placed_start main' shared) }
    ensures agrees { (q q' : List PlacedLines) (depth : ℕ) (main : PlacedLines) (shared : M.Shared) → AreRotated 0 q q'
        → slice_get q 0 ≡ Some main → NeverStuck M.primitives depth q (placed_start main shared)
        → (main' : PlacedLines) × (slice_get q' 0 ≡ Some main')
        × Agree (placed_machine M.primitives depth q) (placed_machine M.primitives depth q') 0 (λ steps. steps * 2 + 1 + 1)
        (placed_start main shared) (placed_start main' shared) }
    ensures never_stuck { (q q' : List PlacedLines) (depth : ℕ) (main : PlacedLines) (shared : M.Shared) → AreRotated 0 q q'
        → slice_get q 0 ≡ Some main → NeverStuck M.primitives depth q (placed_start main shared)
        → (main' : PlacedLines) × (slice_get q' 0 ≡ Some main') × NeverStuck M.primitives depth q' (placed_start main' shared) }
    ensures follows { (q q' : List PlacedLines) (depth : ℕ) (main : PlacedLines) (shared : M.Shared) → AreRotated 0 q q'
        → slice_get q 0 ≡ Some main → NeverStuck M.primitives depth q (placed_start main shared)
        → (main' : PlacedLines) × ((slice_get q' 0 ≡ Some main')
        × ((n : ℕ) (s : PlacedState M.Shared) → state (placed_machine M.primitives depth q) n (placed_start main shared) ≡ go s
        → (count : ℕ) × ((t : PlacedState M.Shared)
        × ((state (placed_machine M.primitives depth q') count (placed_start main' shared) ≡ go t)
        × ((trace (placed_machine M.primitives depth q') count (placed_start main' shared)
        ≡ trace (placed_machine M.primitives depth q) n (placed_start main shared))
        × ((t.shared ≡ s.shared)
        × (FramesStand q q' IsAtSame s.frames t.frames ⊎ FramesStand q q' IsInTurn s.frames t.frames))))))) }
    ensures has { (q q' : List PlacedLines) → AreRotated 0 q q' → (f k : ℕ) → PlacedHasOwnLine q f k
        → PlacedHasLine q' f (rotated_line_of q q' f k) }
    ensures apart { (q q' : List PlacedLines) → AreRotated 0 q q' → (f j k : ℕ) → PlacedHasOwnLine q f j → PlacedHasOwnLine q f k
        → rotated_line_of q q' f j ≡ rotated_line_of q q' f k → j ≡ k }
    ensures comes { (q q' : List PlacedLines) (depth : ℕ) (main : PlacedLines) (shared : M.Shared) → AreRotated 0 q q'
        → slice_get q 0 ≡ Some main → NeverStuck M.primitives depth q (placed_start main shared)
        → (main' : PlacedLines) × ((slice_get q' 0 ≡ Some main')
        × ((n f k : ℕ) (now : M.Shared) → PlacedHasOwnLine q f k
        → PlacedIsAt q f k now (state (placed_machine M.primitives depth q) n (placed_start main shared))
        → (count : ℕ) × ((trace (placed_machine M.primitives depth q') count (placed_start main' shared)
        ≡ trace (placed_machine M.primitives depth q) n (placed_start main shared))
        × PlacedIsAt q' f (rotated_line_of q q' f k) now
        (state (placed_machine M.primitives depth q') count (placed_start main' shared))))) }
{}
