//! Laws of cells. Each is a function that does nothing; what its contract says is proved.

ghost use Rattle.std.specs.Prelude.{◌≡◌, ◌↔◌, ◌<◌, ℕ, ◌+◌, ◌*◌, ◌^◌, List, [], Some, length};
ghost use Rattle.cell_heap.specs.Cells.{Heap, occurs};
ghost use Rattle.cell_heap.specs.Turns.{Turns, Work, work_of, turns};
ghost use Rattle.cell_heap.specs.Pool.{Pool, places};
ghost use Rattle.cell_heap.specs.DropMeaning.{GivesUp};
ghost use Rattle.cell_heap.specs.Counts.{credit};
ghost use Rattle.cell_heap.specs.Sound.{ArePlaced, IsSound};
ghost use Rattle.cell_heap.specs.View.{Link, View};
ghost use Rattle.cell_heap.specs.Memory.{word, Memory, IsNoCount};
ghost use Rattle.cell_heap.specs.Blocks.{Cells, load, store, view_of, seen_cells, drop_cells, merged_cells};
ghost use Rattle.cell_heap.specs.ProgramMemory.{HoldsCells, SameRoots, IsOwnWord};
ghost use Rattle.rv_isa.specs.Bytes.{with_number};
ghost use Rattle.cell_heap.specs.FreeCells.{ListsFree};
ghost use Rattle.rv_isa.specs.FreeCells.{free_list};
ghost use Rattle.rv_isa.specs.Processor.{Processor};

/// References of a sound heap can all be given up.
pub fn giving_up_comes_to_an_end()
    ensures { (pool : Pool) (roots : ℕ → ℕ) (given : List ℕ) (heap : Heap) → IsSound pool roots given heap → (gave freed : ℕ) × (end : Heap) × GivesUp given heap gave freed end }
{}

/// What is left is a sound heap, in which nothing is to be given up.
pub fn giving_up_keeps_heaps_sound()
    ensures { (pool : Pool) (roots : ℕ → ℕ) (given : List ℕ) (heap end : Heap) (gave freed : ℕ) → IsSound pool roots given heap → GivesUp given heap gave freed end → IsSound pool roots [] end }
{}

/// The order in which references are given up matters neither for the heap that is left nor for how many are given up and
/// how many cells are freed, whatever the counts of cells are.
pub fn giving_up_has_one_end()
    ensures { (given others : List ℕ) (heap end other : Heap) (gave freed gave_others freed_others : ℕ) → ((x : ℕ) → occurs x given ≡ occurs x others) → GivesUp given heap gave freed end → GivesUp others heap gave_others freed_others other → (end ≡ other) × (gave ≡ gave_others) × (freed ≡ freed_others) }
{}

/// The turns of the routine that gives up references come to the same: they can be taken just where references can be given
/// up.
pub fn turns_give_up()
    ensures { (given frees : List ℕ) (heap end : Heap) (gave freed : ℕ) → GivesUp given heap gave freed end ↔ ((left : List ℕ) × Turns given [] frees heap gave freed left end) }
{}

/// As a function they are the same turns, where it may take more than there are.
pub fn turns_are_computed()
    ensures taken { (fuel : ℕ) (given frees left : List ℕ) (heap end : Heap) (gave freed : ℕ) → Turns given [] frees heap gave freed left end → gave + freed < fuel → turns fuel (work_of given frees heap) ≡ Some (record { refs = []; waits = []; frees = left; heap = end; gave = gave; freed = freed }) }
    ensures no_other { (fuel : ℕ) (given frees : List ℕ) (heap : Heap) (after : Work) → turns fuel (work_of given frees heap) ≡ Some after → Turns given [] frees heap after.gave after.freed after.frees after.heap }
{}

/// The credit of cells, whatever is counted for a cell and for a reference, pays for each cell that is freed and each reference that is given up:
/// what was saved before and not after, and that of the first references, is exactly their cost. So with a credit of 1 for each it bounds how many
/// turns there are.
pub fn giving_up_is_paid()
    ensures { (pool : Pool) (given : List ℕ) (heap end : Heap) (gave freed a_cell a_reference : ℕ) → ArePlaced pool heap → GivesUp given heap gave freed end → credit a_cell a_reference (places pool) end + a_cell * freed + a_reference * gave ≡ credit a_cell a_reference (places pool) heap + a_reference * length given }
{}

/// Where memory has the cells of a view, the free cells of the image are exactly the view's free cells, each once.
pub fn free_cells_are_listed()
    ensures { (pool : Pool) (view : View) (s : Processor) → Memory pool view s → ListsFree view.heap (free_list pool.cells s) }
{}

/// A word that a program loads of a block of its own is there, and may be loaded.
pub fn loads_are_in_memory()
    ensures { (pool : Pool) (cells : Cells) (links : List Link) (s : Processor) (at offset loaded : ℕ) → HoldsCells pool cells links s → load at offset cells ≡ Some loaded → IsOwnWord cells at offset s × (word s.memory (at + offset) ≡ loaded) × (loaded < 2 ^ 32) }
{}

/// Where a program stores a word in a block of its own it may be stored, and memory has the blocks then.
pub fn stores_keep_blocks()
    ensures may { (pool : Pool) (cells next : Cells) (links : List Link) (s : Processor) (at offset stored : ℕ) → HoldsCells pool cells links s → store at offset stored cells ≡ Some next → IsOwnWord cells at offset s }
    ensures keeps { (pool : Pool) (cells next : Cells) (links : List Link) (s t : Processor) (at offset stored : ℕ) → HoldsCells pool cells links s → SameRoots s t → store at offset stored cells ≡ Some next → stored < 2 ^ 32 → t.memory ≡ with_number (at + offset) 4 stored s.memory → HoldsCells pool next links t }
{}

/// Where a reference was given up by the routine's turns, and counts alone have changed, memory has the blocks that are left.
pub fn drops_keep_blocks()
    ensures { (pool : Pool) (cells : Cells) (links : List Link) (s t : Processor) (reference : ℕ) (work : Work) → HoldsCells pool cells links s → drop_cells pool reference cells ≡ Some work → Memory pool (record (view_of cells links) { heap = work.heap; frees = work.frees }) t → ((x : ℕ) → IsNoCount (seen_cells cells) x → t.memory x ≡ s.memory x) → HoldsCells pool (merged_cells work cells) links t }
{}
