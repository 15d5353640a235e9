ghost use Rattle.std.specs.Prelude.{◌≡◌, ◌≢◌, ◌≤◌, ◌+◌, ◌*◌, ℕ, List, [], Some, slice_get};
ghost use Rattle.kk_base.specs.Machines.{state, weight_of};
ghost use Rattle.kk_base.specs.Simulations.{Simulates};
ghost use Rattle.kk_base.specs.Agreements.{Agree};
ghost use Rattle.rv_isa.specs.declared.asm.Asm.{Asm};
ghost use Rattle.rv_isa.specs.declared.placed.Placed.{Placed};
ghost use Rattle.rv_isa.specs.AsmCode.{Lines, asm_functions};
ghost use Rattle.rv_isa.specs.PlacedCode.{PlacedLines, placed_functions};
ghost use Rattle.rv_isa.specs.Primitives.{Primitives, stuck};
ghost use Rattle.rv_isa.specs.Costs.{move_instructions};
ghost use Rattle.rv_isa.specs.AsmMachine.{AsmTurn, asm_machine, asm_start};
ghost use Rattle.rv_isa.specs.PlacedMachine.{placed_machine, placed_start};
ghost use Rattle.rv_regs.specs.Valid.{IsValid};
ghost use Rattle.rv_regs.specs.Relation.{NeverStuck, AllFewMoves, most_extra, asm_machine_with, Related, IsNotStuck};

/// What the machines of the assembler form and of its placed form leave open: operations, conditions and routines over
/// what they share.
pub trait Execution {
    ghost Shared: { Type 0 };

    ghost Event: { Type 0 };

    ghost Ending: { Type 0 };

    ghost primitives: { Primitives Shared Event Ending };
}

/// A valid placed form means what its assembler form means, whatever gave the values their places.
///
/// Its machine simulates that of the assembler form, which weighs each statement with the stores behind it and the loads before
/// it: the moves before a statement, and then the statement. Where more moves stand before a statement than these, each step of
/// the assembler form weighs the most of the extra ones besides. The start of a function without parameters stands for that of
/// the same function, and from there on the machines agree: they tell the same events and end alike. Code with few moves has no
/// extra one, and weighs no more than the assembler form. A run of the assembler form must never come to a state in which it can
/// do nothing more; then the placed form comes to none either. It is a law, and does nothing.
pub fn valid_forms_keep_meaning<M: Execution>()
    ensures simulates { (asm : Asm) (placed : Placed) (depth : ℕ) → IsValid asm placed
        → Simulates (asm_machine_with (most_extra (placed_functions placed)) M.primitives depth (asm_functions asm))
        (placed_machine M.primitives depth (placed_functions placed))
        (Related (most_extra (placed_functions placed)) M.primitives depth (asm_functions asm)) IsNotStuck 1 }
    ensures starts { (asm : Asm) (placed : Placed) (depth n : ℕ) (main : Lines) (shared : M.Shared) → IsValid asm placed
        → slice_get (asm_functions asm) n ≡ Some main → main.params ≡ []
        → NeverStuck M.primitives depth (asm_functions asm) (asm_start main shared)
        → (placed_main : PlacedLines) × (slice_get (placed_functions placed) n ≡ Some placed_main)
        × Related (most_extra (placed_functions placed)) M.primitives depth (asm_functions asm) 0 0 (asm_start main shared)
        (placed_start placed_main shared) }
    ensures agrees { (asm : Asm) (placed : Placed) (depth n : ℕ) (main : Lines) (shared : M.Shared) → IsValid asm placed
        → slice_get (asm_functions asm) n ≡ Some main → main.params ≡ []
        → NeverStuck M.primitives depth (asm_functions asm) (asm_start main shared)
        → (placed_main : PlacedLines) × (slice_get (placed_functions placed) n ≡ Some placed_main)
        × Agree (asm_machine_with (most_extra (placed_functions placed)) M.primitives depth (asm_functions asm))
        (placed_machine M.primitives depth (placed_functions placed)) 0 (λ steps. steps * 1 + 0 + 1) (asm_start main shared)
        (placed_start placed_main shared) }
    ensures agrees_exactly { (asm : Asm) (placed : Placed) (depth n : ℕ) (main : Lines) (shared : M.Shared) → IsValid asm placed
        → AllFewMoves (placed_functions placed) → slice_get (asm_functions asm) n ≡ Some main → main.params ≡ []
        → NeverStuck M.primitives depth (asm_functions asm) (asm_start main shared)
        → (placed_main : PlacedLines) × (slice_get (placed_functions placed) n ≡ Some placed_main)
        × Agree (asm_machine M.primitives depth (asm_functions asm)) (placed_machine M.primitives depth (placed_functions placed))
        0 (λ steps. steps * 1 + 0 + 1) (asm_start main shared) (placed_start placed_main shared) }
    ensures never_stuck { (asm : Asm) (placed : Placed) (depth n : ℕ) (main : Lines) (shared : M.Shared) → IsValid asm placed
        → slice_get (asm_functions asm) n ≡ Some main → main.params ≡ []
        → NeverStuck M.primitives depth (asm_functions asm) (asm_start main shared)
        → (placed_main : PlacedLines) × (slice_get (placed_functions placed) n ≡ Some placed_main)
        × ((steps : ℕ) → state (placed_machine M.primitives depth (placed_functions placed)) steps
        (placed_start placed_main shared) ≢ stuck) }
    ensures weighs { (functions : List Lines) (depth extra n : ℕ) (s : AsmTurn M.Shared M.Ending)
        → weight_of (asm_machine_with extra M.primitives depth functions) n s
        ≤ weight_of (asm_machine M.primitives depth functions) n s + n * (extra * move_instructions) }
    ensures few { (placed : Placed) → AllFewMoves (placed_functions placed) → most_extra (placed_functions placed) ≡ 0 }
{}
