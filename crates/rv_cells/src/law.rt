ghost use Rattle.std.specs.Prelude.{◌≡◌, ◌<◌, ◌≤◌, ℕ, suc, ◌+◌, ◌%◌, ◌^◌, Bool, List, [], ◌∷◌, length};
ghost use Rattle.std.specs.Prelude.{All, Option, Some, None, true};
ghost use Rattle.kk_base.specs.Sizes.{greatest_cells, greatest_depth};
ghost use Rattle.kk_base.specs.Limits.{greatest_of};
ghost use Rattle.kk_base.specs.declared.limit.LimitKind.TheVariants.{Fields};
ghost use Rattle.cell_heap.specs.Pool.{Pool};
ghost use Rattle.cell_heap.specs.Blocks.{Cells, own, with_block, with_word, request, unused_cells};
ghost use Rattle.kk_source.specs.State.{Value, Cell};
ghost use Rattle.kk_source.specs.Sound.{AllWithin};
ghost use Rattle.kk_counted.specs.CountBounds.{AllSpendAtMost};
ghost use Rattle.kk_counted.specs.CountedStates.{CountedSetting, CountedState};
ghost use Rattle.kk_counted.specs.Int32.{AllHaveInt32};
ghost use Rattle.kk_counted.specs.Kinds.{HasKindsAlways};
ghost use Rattle.kk_counted.specs.Keeping.{counted_after, FitsAlways, HasShapeAlways};
ghost use Rattle.kk_counted.specs.Spending.{IsSpent};
ghost use Rattle.kk_syntax.specs.PositionsOf.{PositionTable};
ghost use Rattle.kk_counted.specs.Marks.{CellMarks, field_marks, AreMarked};
ghost use Rattle.kk_counted.specs.Heaps.{Heap, count_at, set_count, fields_held, busy, dup_value, drop_value};
ghost use Rattle.rv_cells.specs.Laws.{RunTheSame, ComeToTheirLines, AreWellLowered, AreShortLowered, TakeFewWords};
ghost use Rattle.rv_cells.specs.Laws.{HaveFewValues};
ghost use Rattle.rv_cells.specs.Layout.{Layout, IsNarrow, FitsField};
ghost use Rattle.rv_cells.specs.CountedCells.{IsBlockOf, Owner, nobody, cell_of, in_hand, kept_aside, Follows, with_owner, assign, set_aside};
ghost use Rattle.rv_cells.specs.Fitting.{AreTagged, count_of_fields, IsFit};
ghost use Rattle.rv_cells.specs.Steps.{Served, ServedByHeld, PutAside, TakenBack, Dupped, Dropped, IsPaid, Released};
ghost use Rattle.kk_counted.specs.CountLimits.{greatest_spent};
ghost use Rattle.rv_isa.specs.Numbers.{cell_size};

/// At the start the cells of a pool hold the empty heap. It is a law, and does nothing.
pub fn unused_cells_hold_no_heap()
    ensures { (pool : Pool) (layout : Layout) (address : ℕ → ℕ) → pool.first % cell_size ≡ 0
        → Follows pool layout address (λ at. nobody) [] (unused_cells pool) }
{}

/// A request is served by a free cell exactly where fewer cells are counted and set aside than there are; else by the newest held
/// token that it names, and where it names none the heap is full. It is a law, and does nothing.
pub fn requests_find_free_cells()
    ensures served { (pool : Pool) (layout : Layout) (address : ℕ → ℕ) (owners : ℕ → Owner) (heap : Heap) (cells : Cells)
        → pool.first % cell_size ≡ 0 → Follows pool layout address owners heap cells
        → (top : Option ℕ) → busy heap + set_aside pool owners < pool.cells
        → Served pool layout address owners heap cells top }
    ensures from_held { (pool : Pool) (layout : Layout) (address : ℕ → ℕ) (owners : ℕ → Owner) (heap : Heap) (cells : Cells)
        → pool.first % cell_size ≡ 0 → Follows pool layout address owners heap cells
        → (at : ℕ) (words : ℕ → Option ℕ) → owners at ≡ kept_aside words → pool.cells ≤ busy heap + set_aside pool owners
        → ServedByHeld pool layout address owners heap cells at }
    ensures full { (pool : Pool) (layout : Layout) (address : ℕ → ℕ) (owners : ℕ → Owner) (heap : Heap) (cells : Cells)
        → pool.first % cell_size ≡ 0 → Follows pool layout address owners heap cells
        → pool.cells ≤ busy heap + set_aside pool owners → request pool None cells ≡ None }
{}

/// The cells that are counted and those that are set aside are together no more than there are. It is a law, and does nothing.
pub fn cells_are_counted_or_set_aside()
    ensures { (pool : Pool) (layout : Layout) (address : ℕ → ℕ) (owners : ℕ → Owner) (heap : Heap) (cells : Cells)
        → pool.first % cell_size ≡ 0 → Follows pool layout address owners heap cells
        → busy heap + set_aside pool owners ≤ pool.cells }
{}

/// A cell in hand is put on the chain of held tokens, and taken back. It is a law, and does nothing.
pub fn cells_in_hand_are_held()
    ensures put_aside { (pool : Pool) (layout : Layout) (address : ℕ → ℕ) (owners : ℕ → Owner) (heap : Heap) (cells : Cells)
        → Follows pool layout address owners heap cells
        → (at : ℕ) (words : ℕ → Option ℕ) → owners at ≡ in_hand words
        → PutAside pool layout address owners heap cells at words }
    ensures taken_back { (pool : Pool) (layout : Layout) (address : ℕ → ℕ) (owners : ℕ → Owner) (heap : Heap) (cells : Cells)
        → Follows pool layout address owners heap cells
        → (at : ℕ) (words : ℕ → Option ℕ) → owners at ≡ kept_aside words
        → TakenBack pool layout address owners heap cells at words }
{}

/// A word of a cell in hand is stored. It is a law, and does nothing.
pub fn words_in_hand_are_stored()
    ensures { (pool : Pool) (layout : Layout) (address : ℕ → ℕ) (owners : ℕ → Owner) (heap : Heap) (cells : Cells)
        → Follows pool layout address owners heap cells
        → (at index word : ℕ) (words : ℕ → Option ℕ) → owners at ≡ in_hand words
        → Follows pool layout address (with_owner at (in_hand (with_word index word words)) owners) heap
        (with_block at (own (with_word index word words)) cells) }
{}

/// A cell in hand that has the words of a counted cell is that cell, under the next name. It is a law, and does nothing.
pub fn cells_in_hand_are_counted()
    ensures { (pool : Pool) (layout : Layout) (address : ℕ → ℕ) (owners : ℕ → Owner) (heap : Heap) (cells : Cells)
        → Follows pool layout address owners heap cells
        → (at : ℕ) (words : ℕ → Option ℕ) (cell : Cell) → owners at ≡ in_hand words
        → ((name : ℕ) → AllWithin name (fields_held heap name)) → AllWithin (length heap) cell.fields
        → IsBlockOf layout address (record { count = 1; cell = cell }) words
        → Follows pool layout (assign (length heap) at address) (with_owner at (cell_of (length heap)) owners)
        (record { count = 1; cell = cell } ∷ heap) cells }
{}

/// A reference more is one in the cells, where counts are below 2^32. It is a law, and does nothing.
pub fn references_are_duplicated()
    ensures { (pool : Pool) (layout : Layout) (address : ℕ → ℕ) (owners : ℕ → Owner) (heap next : Heap) (cells : Cells) (v : Value)
        → Follows pool layout address owners heap cells → FitsField true v → dup_value v heap ≡ Some next
        → ((name : ℕ) → suc (count_at heap name) < 2 ^ 32) → Dupped pool layout address owners next cells v }
{}

/// A drop with all that it frees is done by the turns of the runtime's routine, and what the heap has saved pays for it. It is a
/// law, and does nothing.
pub fn references_are_dropped()
    ensures { (pool : Pool) (layout : Layout) (address : ℕ → ℕ) (owners : ℕ → Owner) (heap next : Heap) (cells : Cells) (v : Value)
        → pool.first % cell_size ≡ 0 → IsNarrow layout → Follows pool layout address owners heap cells
        → FitsField true v → drop_value v heap ≡ Some next
        → (dropped : Dropped pool layout address owners heap next cells v) × IsPaid heap next dropped.work }
{}

/// A count is lowered by a store, where it is not the last one. It is a law, and does nothing.
pub fn counts_are_stored()
    ensures { (pool : Pool) (layout : Layout) (address : ℕ → ℕ) (owners : ℕ → Owner) (heap : Heap) (cells : Cells)
        → Follows pool layout address owners heap cells
        → (name count : ℕ) (words : ℕ → Option ℕ) → 1 ≤ count_at heap name → cells.blocks (address name) ≡ own words
        → Follows pool layout address owners (set_count name (suc count) heap)
        (with_block (address name) (own (with_word 0 (suc count) words)) cells) }
{}

/// A cell whose only reference is given up is in hand, with the words that it had. It is a law, and does nothing.
pub fn unique_cells_are_opened()
    ensures { (pool : Pool) (layout : Layout) (address : ℕ → ℕ) (owners : ℕ → Owner) (heap : Heap) (cells : Cells)
        → Follows pool layout address owners heap cells
        → (name : ℕ) (words : ℕ → Option ℕ) → count_at heap name ≡ 1 → cells.blocks (address name) ≡ own words
        → Follows pool layout address (with_owner (address name) (in_hand words) owners) (set_count name 0 heap) cells }
{}

/// A cell in hand is given back. It is a law, and does nothing.
pub fn cells_in_hand_are_released()
    ensures { (pool : Pool) (layout : Layout) (address : ℕ → ℕ) (owners : ℕ → Owner) (heap : Heap) (cells : Cells)
        → Follows pool layout address owners heap cells
        → (at : ℕ) (words : ℕ → Option ℕ) → owners at ≡ in_hand words → Released pool layout address owners heap cells at }
{}

/// A program with tokens whose bare form can be lowered, which spends its tokens and holds them around rows of calls alone, and is lowered, is
/// one whose assembler code is well formed: where its shape has tags of a byte, six fields a constructor at most, and `False` and
/// `True` first, and `main`, which has no parameters, is there. It is a law, and does nothing.
pub fn lowered_tokened_programs_are_well_formed()
    ensures { AreWellLowered }
{}

/// The assembler code of a program with tokens whose bare form can be lowered, which spends its tokens, and is lowered, is no longer
/// than its code with tokens tells, and has at most the bytes of one print for each form on values: where constructors have at most six
/// fields. It is a law, and does nothing.
pub fn lowered_tokened_programs_are_short()
    ensures { AreShortLowered }
{}

/// The assembler code of such a program takes no more words than its code with tokens tells, and eight for each function, where each
/// string that it prints has 64 of them; and it has at most the bytes of one print for each string. It is a law, and does nothing.
pub fn lowered_tokened_programs_take_few_words()
    ensures { TakeFewWords }
{}

/// The assembler code of a program with tokens whose bare form can be lowered, which spends its tokens, and is lowered, names no more
/// values in a function than the program has variables and slots, and eight temporaries. It is a law, and does nothing.
pub fn lowered_tokened_programs_have_few_values()
    ensures { HaveFewValues }
{}

/// A program with tokens whose functions are all lowered runs the same as its assembler code, where its bare form has room for the
/// work on tokens and each state of the bare run is fit: the same events, the same end, no more instructions than the steps of the
/// bare form weigh with this room, which is there once more at the start, and all cells free where the program ends by itself with
/// an empty heap. It is a law, and does nothing.
pub fn lowered_tokened_programs_run_the_same()
    ensures { RunTheSame }
{}

/// Each call, print and construction with fields of a program with tokens, whose functions are all lowered, has lines of its own in
/// the assembler code of its function. Where the counted machine of the bare form is at such a form, the assembler's machine comes to
/// one of these lines, when it has told the same events and its cells are those of the counted heap. It comes to such a moment for
/// each state in which the counted machine is at a form. The first function must be `main`, and the bare form one that can be
/// lowered. It is a law, and does nothing.
pub fn lowered_tokened_programs_come_to_their_lines()
    ensures { ComeToTheirLines }
{}

/// Code that spends its references and is marked by types is fit in each state of its run, within the limits of cells, call frames
/// and code: where its values are of the kinds that its types tell, tags tell the constructors of a type apart, its numbers are of
/// 32 bits, and its input is of bytes. It is a law, and does nothing.
pub fn judged_programs_are_fit()
    ensures { (positions : PositionTable) (marks : CellMarks) (holds : ℕ → ℕ → Bool) (setting : CountedSetting) (layout : Layout)
        (weight : CountedState → ℕ) (input : List ℕ) (most : ℕ)
        → IsSpent positions setting.program → FitsAlways weight setting input → HasShapeAlways weight setting input
        → AreMarked marks holds setting.program → AllSpendAtMost setting.program most → most ≤ greatest_spent
        → ((c : ℕ) → length (field_marks marks c) ≤ greatest_of Fields) → 1 ≤ setting.depth → setting.depth ≤ greatest_depth
        → setting.cells ≤ greatest_cells
        → HasKindsAlways (AreTagged layout) (count_of_fields layout) weight setting input → AllHaveInt32 setting.program.functions
        → All (λ byte. byte < 256) input → (n : ℕ) → IsFit layout (counted_after weight setting input n) }
{}
