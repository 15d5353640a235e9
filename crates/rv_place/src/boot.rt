// What the image of a placed text does from its first instruction on.

ghost use Rattle.std.specs.Prelude.{◌≡◌, ℕ, ◌<◌, List, All};
ghost use Rattle.kk_base.specs.Machines.{state};
ghost use Rattle.kk_base.specs.Agreements.{Agree};
ghost use Rattle.rv_isa.specs.declared.placed.Placed.{Placed};
ghost use Rattle.rv_isa.specs.Execution.{rv32im, run};
ghost use Rattle.rv_isa.specs.FreeTouches.{TouchesNoFreeCell};
ghost use Rattle.rv_isa.specs.Primitives.{ended};
ghost use Rattle.rv_isa.specs.PlacedCode.{PlacedLines, placed_functions, placed_memory};
ghost use Rattle.rv_isa.specs.PlacedMachine.{placed_machine, placed_start};
ghost use Rattle.rv_isa.specs.Processor.{Ending, goes};
ghost use Rattle.rv_isa.specs.ProcessorMachine.{processor_machine};
ghost use Rattle.elf_image.specs.Program.{text_start};
ghost use Rattle.cell_runtime.specs.Sizes.{runtime_words};
ghost use Rattle.cell_runtime.specs.World.{World, first_world, primitives};
ghost use Rattle.rv_place.specs.declared.words.Words.{Words};
ghost use Rattle.rv_place.specs.Images.{first_processor, outside_lines, IsPlacedImage, EndsWithCells};
ghost use Rattle.rv_place.specs.ProcessorStates.{NeverStuck};
ghost use Rattle.rv_place.specs.Texts.{pool_in, constants_of, map_of};

/// The image of a placed text does what the machine of the placed form does from `main` on: each trace of one is a prefix
/// of one of the other, and one ends if and only if the other does, alike. It executes no more instructions than the lines
/// weigh, and those of the start, of `main`'s entry and of the exit. A run of the placed form must never come to a state in
/// which it can do nothing more. It is a law, and does nothing.
pub fn placed_text_agrees()
    ensures { (cells depth : ℕ) (runtime program : Placed) (words : Words) (text input : List ℕ) (main : PlacedLines)
        → IsPlacedImage cells depth runtime program words text main → All (λ byte. byte < 256) input
        → NeverStuck (map_of runtime program) (pool_in cells runtime program) (placed_functions program) depth (placed_start main (first_world (pool_in cells runtime program) input))
        → (up : ℕ → ℕ) × Agree (placed_machine (primitives (constants_of runtime program) (pool_in cells runtime program)) depth (placed_functions program)) (processor_machine rv32im) outside_lines up (placed_start main (first_world (pool_in cells runtime program) input)) (goes (first_processor text (placed_memory runtime).size input)) }
{}

/// Where the machine of the placed form comes to an end, the image exits alike, with the same trace, and its free cells are
/// exactly those of the machine's world, each once. It is a law, and does nothing.
pub fn placed_text_ends_with_its_cells()
    ensures { (cells depth : ℕ) (runtime program : Placed) (words : Words) (text input : List ℕ) (main : PlacedLines)
        → IsPlacedImage cells depth runtime program words text main → All (λ byte. byte < 256) input
        → NeverStuck (map_of runtime program) (pool_in cells runtime program) (placed_functions program) depth (placed_start main (first_world (pool_in cells runtime program) input))
        → (steps : ℕ) (how : Ending) (world : World)
        → state (placed_machine (primitives (constants_of runtime program) (pool_in cells runtime program)) depth (placed_functions program)) steps (placed_start main (first_world (pool_in cells runtime program) input)) ≡ ended how world
        → (count : ℕ) × EndsWithCells (pool_in cells runtime program) how world (run count (first_processor text (placed_memory runtime).size input)) }
{}

/// At each moment of a run of the image of a placed text, before its end, at which the program counter is outside of the
/// runtime's words, which are the first ones, the instruction that is executed next loads and stores no byte of a free cell. A
/// run of the placed form must never come to a state in which it can do nothing more. It is a law, and does nothing.
pub fn placed_text_touches_no_free_cell()
    ensures { (cells depth : ℕ) (runtime program : Placed) (words : Words) (text input : List ℕ) (main : PlacedLines)
        → IsPlacedImage cells depth runtime program words text main → All (λ byte. byte < 256) input
        → NeverStuck (map_of runtime program) (pool_in cells runtime program) (placed_functions program) depth (placed_start main (first_world (pool_in cells runtime program) input))
        → (count : ℕ) → TouchesNoFreeCell text_start runtime_words cells (run count (first_processor text (placed_memory runtime).size input)) }
{}
