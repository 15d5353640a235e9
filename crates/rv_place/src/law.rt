ghost use Rattle.std.specs.Prelude.{ℕ, ◌≤◌, suc, List, length};
ghost use Rattle.kk_base.specs.Memory.{Part};
ghost use Rattle.kk_base.specs.Simulations.{Simulates};
ghost use Rattle.rv_isa.specs.declared.placed.Placed.{Placed};
ghost use Rattle.rv_isa.specs.PlacedCode.{PlacedLines};
ghost use Rattle.rv_isa.specs.PlacedMachine.{placed_machine};
ghost use Rattle.rv_isa.specs.Execution.{rv32im};
ghost use Rattle.rv_isa.specs.ProcessorMachine.{processor_machine};
ghost use Rattle.rv_isa.specs.Standing.{Code};
ghost use Rattle.cell_heap.specs.Pool.{Pool};
ghost use Rattle.cell_runtime.specs.World.{primitives};
ghost use Rattle.rv_place.specs.declared.words.Words.{Words};
ghost use Rattle.rv_place.specs.Bytes.{IsTextOf};
ghost use Rattle.rv_place.specs.Lines.{Map};
ghost use Rattle.rv_place.specs.Grounds.{Ground};
ghost use Rattle.rv_place.specs.ProcessorStates.{AllPlain, most_lines, Related, Passing};
ghost use Rattle.rv_place.specs.Texts.{ArePlacedWords, most_bytes};

/// Placed code means, as instructions, what its machine says.
///
/// Where the code of functions, the runtime and the data stand as they must, the processor simulates the machine of the
/// placed form: each line is a few instructions, within its weight, with the same events, and both end alike. The functions
/// write only registers that values may have, and branch only to labels of their own. A run must never come to a state in
/// which it can do nothing more. At the end the memory has the cells of the world. It is a law, and does nothing.
pub fn placed_code_keeps_meaning()
    ensures { (map : Map) (pool : Pool) (functions : List PlacedLines) (depth buffer stop : ℕ) (code : Code) (parts : List Part) → Ground map pool functions depth buffer stop code parts → AllPlain functions
        → Simulates (placed_machine (primitives map.constants pool) depth functions) (processor_machine rv32im) (Related map pool functions depth stop code parts) (Passing map pool) (suc (most_lines functions)) }
{}

/// The bytes of a placed text are no more than four for each instruction of the runtime, of each function's entry, which has at
/// most seven, and of the functions' lines, and the bytes of the constants. It is a law, and does nothing.
pub fn placed_text_takes_few_bytes()
    ensures { (runtime program : Placed) (words : Words) (text : List ℕ) → ArePlacedWords runtime program words
        → IsTextOf words text → length text ≤ most_bytes runtime program }
{}
