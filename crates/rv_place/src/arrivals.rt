// The lines of a program have addresses of their own in the image of a placed text, and the image comes to them.

ghost use Rattle.std.specs.Prelude.{◌≡◌, ℕ, ◌+◌, ◌*◌, ◌%◌, ◌≤◌, ◌<◌, List, length, All};
ghost use Rattle.kk_base.specs.Machines.{state, trace};
ghost use Rattle.rv_isa.specs.declared.placed.Placed.{Placed};
ghost use Rattle.rv_isa.specs.Execution.{rv32im, run};
ghost use Rattle.rv_isa.specs.LinePlaces.{PlacedIsAt, PlacedHasLine};
ghost use Rattle.rv_isa.specs.PlacedCode.{PlacedLines, placed_functions, placed_memory};
ghost use Rattle.rv_isa.specs.PlacedMachine.{PlacedState, placed_machine, placed_start};
ghost use Rattle.rv_isa.specs.Primitives.{go};
ghost use Rattle.rv_isa.specs.Processor.{Processor, goes};
ghost use Rattle.rv_isa.specs.ProcessorMachine.{processor_machine};
ghost use Rattle.elf_image.specs.Program.{text_start};
ghost use Rattle.cell_runtime.specs.Sizes.{runtime_words};
ghost use Rattle.cell_runtime.specs.World.{World, first_world, primitives};
ghost use Rattle.rv_place.specs.declared.words.Words.{Words};
ghost use Rattle.rv_place.specs.HeldSlots.{HasHeldTokens};
ghost use Rattle.rv_place.specs.Images.{first_processor, IsPlacedImage};
ghost use Rattle.rv_place.specs.LineAddresses.{line_address};
ghost use Rattle.rv_place.specs.ProcessorStates.{HasCells, NeverStuck};
ghost use Rattle.rv_place.specs.Texts.{pool_in, constants_of, map_of};

/// The image of a placed text comes to the lines of its program.
///
/// Where the machine of the placed form is at a line that is always an instruction, there is a number of instructions behind which
/// the program counter is at the address of the line, the run goes on there, the image has told the same events, and memory has the
/// cells of the machine's world. For each state that goes on there is such a number, where the program counter is left open; there
/// the chain of held tokens in memory has those that the frames hold, in their order, each in a slot of its frame. No two such
/// lines have the same address, each address is that of a word of the text, and none is among the runtime's words. A run of the
/// placed form must never come to a state in which it can do nothing more. It is a law, and does nothing.
pub fn placed_text_comes_to_its_lines()
    ensures comes { (cells depth : ℕ) (runtime program : Placed) (words : Words) (text input : List ℕ) (main : PlacedLines)
        → IsPlacedImage cells depth runtime program words text main → All (λ byte. byte < 256) input
        → NeverStuck (map_of runtime program) (pool_in cells runtime program) (placed_functions program) depth
        (placed_start main (first_world (pool_in cells runtime program) input))
        → (n f j : ℕ) (shared : World) → PlacedHasLine (placed_functions program) f j
        → PlacedIsAt (placed_functions program) f j shared
        (state (placed_machine (primitives (constants_of runtime program) (pool_in cells runtime program)) depth
        (placed_functions program)) n (placed_start main (first_world (pool_in cells runtime program) input)))
        → (count : ℕ) × ((s : Processor) × ((run count (first_processor text (placed_memory runtime).size input) ≡ goes s)
        × ((s.pc ≡ line_address (map_of runtime program) (placed_functions program) f j)
        × ((trace (processor_machine rv32im) count (goes (first_processor text (placed_memory runtime).size input))
        ≡ trace (placed_machine (primitives (constants_of runtime program) (pool_in cells runtime program)) depth
        (placed_functions program)) n (placed_start main (first_world (pool_in cells runtime program) input)))
        × HasCells (pool_in cells runtime program) shared.cells s)))) }
    ensures follows { (cells depth : ℕ) (runtime program : Placed) (words : Words) (text input : List ℕ) (main : PlacedLines)
        → IsPlacedImage cells depth runtime program words text main → All (λ byte. byte < 256) input
        → NeverStuck (map_of runtime program) (pool_in cells runtime program) (placed_functions program) depth
        (placed_start main (first_world (pool_in cells runtime program) input))
        → (n : ℕ) (t : PlacedState World)
        → state (placed_machine (primitives (constants_of runtime program) (pool_in cells runtime program)) depth
        (placed_functions program)) n (placed_start main (first_world (pool_in cells runtime program) input)) ≡ go t
        → (count : ℕ) × ((s : Processor) × ((run count (first_processor text (placed_memory runtime).size input) ≡ goes s)
        × ((trace (processor_machine rv32im) count (goes (first_processor text (placed_memory runtime).size input))
        ≡ trace (placed_machine (primitives (constants_of runtime program) (pool_in cells runtime program)) depth
        (placed_functions program)) n (placed_start main (first_world (pool_in cells runtime program) input)))
        × HasHeldTokens (map_of runtime program) (pool_in cells runtime program) depth t s))) }
    ensures apart { (cells depth : ℕ) (runtime program : Placed) (words : Words) (text : List ℕ) (main : PlacedLines)
        → IsPlacedImage cells depth runtime program words text main
        → (f j g i : ℕ) → PlacedHasLine (placed_functions program) f j → PlacedHasLine (placed_functions program) g i
        → line_address (map_of runtime program) (placed_functions program) f j
        ≡ line_address (map_of runtime program) (placed_functions program) g i → (f ≡ g) × (j ≡ i) }
    ensures outside { (cells depth : ℕ) (runtime program : Placed) (words : Words) (text : List ℕ) (main : PlacedLines)
        → IsPlacedImage cells depth runtime program words text main
        → (f j : ℕ) → PlacedHasLine (placed_functions program) f j
        → text_start + 4 * runtime_words ≤ line_address (map_of runtime program) (placed_functions program) f j }
    ensures inside { (cells depth : ℕ) (runtime program : Placed) (words : Words) (text : List ℕ) (main : PlacedLines)
        → IsPlacedImage cells depth runtime program words text main
        → (f j : ℕ) → PlacedHasLine (placed_functions program) f j
        → (line_address (map_of runtime program) (placed_functions program) f j % 4 ≡ 0)
        × (line_address (map_of runtime program) (placed_functions program) f j + 4
        ≤ text_start + 4 * length words.instructions.items) }
{}
