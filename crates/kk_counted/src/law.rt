ghost use Rattle.std.specs.Prelude.{◌≡◌, ◌↔◌, ◌+◌, ◌*◌, ◌^◌, ◌≤◌, ◌<◌, ℕ, suc, Bool, true, false, List, [], ◌∷◌, map, length, All, Some, slice_get};
ghost use Rattle.kk_base.specs.Agreements.{Agree};
ghost use Rattle.kk_base.specs.Limits.{greatest_of};
ghost use Rattle.kk_base.specs.declared.limit.LimitKind.TheVariants.{Fields};
ghost use Rattle.kk_base.specs.Sizes.{greatest_cells, greatest_depth};
ghost use Rattle.kk_syntax.specs.Shapes.{is_among};
ghost use Rattle.kk_syntax.specs.PositionsOf.{PositionTable};
ghost use Rattle.kk_source.specs.State.{Value, place, Cell, Environment};
ghost use Rattle.kk_source.specs.Live.{value_of, Reached, live};
ghost use Rattle.kk_source.specs.Sound.{AllWithin};
ghost use Rattle.kk_core.specs.Decisions.{NodeTree, chosen};
ghost use Rattle.kk_counted.specs.CountedCodes.{Counted, CountedArms, CountedFunction, give, case};
ghost use Rattle.kk_counted.specs.CountedCosts.{roomy_cost};
ghost use Rattle.kk_counted.specs.CountedMachine.{opened_heap, unique_heap, counted_code_step, counted_step, counted_machine, NotStuck};
ghost use Rattle.kk_counted.specs.CountedStates.{CountedSetting, CountedJoin, CountedState, running, counted_start, counted_first_state};
ghost use Rattle.kk_counted.specs.Heaps.{Heap, forwards, count_at, cell_at, fields_held, busy, weight, dup_value, drop_value};
ghost use Rattle.kk_counted.specs.Int32.{AllHaveInt32, IsStateInt32};
ghost use Rattle.kk_counted.specs.KeptFields.{LeavesKnown};
ghost use Rattle.kk_counted.specs.Keeping.{HasNoCell, uses, IsKept, counted_after, FitsAlways, HasShapeAlways};
ghost use Rattle.kk_counted.specs.References.{refs, IsSound, IsCounted, cells_of, AreOlder, counted};
ghost use Rattle.kk_counted.specs.Spending.{AreEven, SpendsParameters, IsSpent};
ghost use Rattle.kk_counted.specs.Cost.{drop_turns, saved, opening_turns};
ghost use Rattle.kk_source.specs.Actions.{builds};
ghost use Rattle.kk_counted.specs.TokenedCodes.{Tokened, TokenedFunction};
ghost use Rattle.kk_counted.specs.BareForms.{bare};
ghost use Rattle.kk_counted.specs.Tokens.{token, Tokens, no_tokens};
ghost use Rattle.kk_counted.specs.TokenStates.{TokenSetting, TokenJoin, TokenControl, TokenConfiguration, TokenState, token_first_state, bare_join, bare_configuration, bare_setting};
ghost use Rattle.kk_counted.specs.TokenMachine.{at_code, token_code_step, token_machine};
ghost use Rattle.kk_counted.specs.TokenSpending.{AreTokensSpent};
ghost use Rattle.kk_counted.specs.TokenKeeping.{ArePooled, IsJudged, AreKeptAt, AreKept, Lists, ListsAfter, FillsAt, FillsAlways, token_after};
ghost use Rattle.kk_counted.specs.CountBounds.{SpendsAtMost, AllSpendAtMost, EachHasAnArm, gains};
ghost use Rattle.kk_counted.specs.Marks.{CellMarks, field_marks, AreMarked};
ghost use Rattle.kk_counted.specs.MarkKeeping.{FitsMark, RunFits, StateFits, numbers_after, numbers_in};
ghost use Rattle.kk_counted.specs.NumberedPool.{IsPlaced, IsPool, Growth, Placing};
ghost use Rattle.kk_counted.specs.TokenCosts.{token_cost, HasRoom, AreStatesKept};
ghost use Rattle.kk_counted.specs.TokenRuns.{is_quiet, bare_weight, AllLead, IsFollowed, IsUnseen, IsSameRun, ComesTo, TakesNoCell};
ghost use Rattle.kk_counted.specs.CountLimits.{greatest_spent};

/// Code that spends each reference that it owns keeps its heap sound: in each state of a run the count of each cell is the
/// number of the references that own it, fields name older cells, and the cell of each lent variable is reached from what an
/// older function owns. Operators and prints must take values without cells, as in a typed program. It is a law, and does
/// nothing.
pub fn judged_code_keeps_its_heap_sound()
    ensures { (positions : PositionTable) (setting : CountedSetting) (weight : CountedState → ℕ) (input : List ℕ)
        → IsSpent positions setting.program
        → FitsAlways weight setting input
        → (n : ℕ) → IsKept positions setting.program.functions (counted_after weight setting input n) }
{}

/// The cell that such code is about to test, to read, to open, to duplicate or to drop is counted: so it is not stuck for
/// want of a count. A case chooses the row that the store of all cells shows. It is a law, and does nothing.
pub fn judged_code_uses_counted_cells()
    ensures used { (positions : PositionTable) (setting : CountedSetting) (weight : CountedState → ℕ) (input : List ℕ)
        → IsSpent positions setting.program
        → FitsAlways weight setting input
        → (n : ℕ) (code : Counted) (environment : Environment) (joins : List CountedJoin) (x : ℕ)
        → (counted_after weight setting input n).control ≡ running code environment joins
        → is_among (uses code) x ≡ true
        → IsCounted (counted_after weight setting input n).heap (value_of environment x) }
    ensures chosen { (positions : PositionTable) (setting : CountedSetting) (weight : CountedState → ℕ) (input : List ℕ)
        → IsSpent positions setting.program
        → FitsAlways weight setting input
        → (n x : ℕ) (decisions : List NodeTree) (arms : CountedArms) (environment : Environment) (joins : List CountedJoin)
        → (counted_after weight setting input n).control ≡ running (case x decisions arms) environment joins
        → chosen (cell_at (counted_after weight setting input n).heap) (value_of environment x) decisions
        ≡ chosen (slice_get (forwards (counted_after weight setting input n).heap)) (value_of environment x) decisions }
{}

/// Such code is never stuck, where it has the shape that a typed program has: calls are of functions that are there, a case
/// has an arm for its value, and readings and openings are of cells of their constructor. It is a law, and does nothing.
pub fn judged_code_is_never_stuck()
    ensures { (positions : PositionTable) (setting : CountedSetting) (weight : CountedState → ℕ) (input : List ℕ)
        → IsSpent positions setting.program
        → FitsAlways weight setting input
        → HasShapeAlways weight setting input
        → (n : ℕ) → NotStuck (counted_after weight setting input n).control }
{}

/// Where the first function, with no other waiting, gives a value without cells, no cell is counted any more. It is a law,
/// and does nothing.
pub fn judged_code_leaves_no_cell()
    ensures { (positions : PositionTable) (setting : CountedSetting) (weight : CountedState → ℕ) (input : List ℕ)
        → IsSpent positions setting.program
        → FitsAlways weight setting input
        → (n x : ℕ) (environment : Environment)
        → (counted_after weight setting input n).control ≡ running (give x) environment []
        → (counted_after weight setting input n).frames ≡ []
        → HasNoCell (value_of environment x)
        → busy (counted_after weight setting input n).heap ≡ 0 }
{}

/// A sound heap is a function of its cells and of the references that own it from outside, and where cells name older ones
/// that function gives a sound heap. So both ways to open a cell lead to the same heap. It is a law, and does nothing.
pub fn sound_heaps_are_functions()
    ensures function { (owned : List Value) (heap : Heap) → IsSound owned heap → heap ≡ counted (refs owned) (cells_of heap) }
    ensures sound { (owned : List Value) (cells : List Cell) → AreOlder cells → AllWithin (length cells) owned
        → IsSound owned (counted (refs owned) cells) }
    ensures openings { (at : ℕ) (used others kept : List Value) (heap : Heap) → IsSound (place at ∷ kept) heap
        → ((q : ℕ) → refs (fields_held heap at) q ≡ refs used q + refs others q)
        → unique_heap (count_at heap at) at used others heap ≡ opened_heap at used heap }
{}

/// In a sound heap the counted cells are those that can be reached from what is owned: so they are as many as the live places
/// of its store. It is a law, and does nothing.
pub fn counted_cells_are_live()
    ensures reached { (owned : List Value) (heap : Heap) → IsSound owned heap
        → (at : ℕ) → (1 ≤ count_at heap at) ↔ Reached (forwards heap) owned at }
    ensures number { (owned : List Value) (heap : Heap) → IsSound owned heap → busy heap ≡ live (forwards heap) owned }
{}

/// What a drop costs: one turn for its reference, and one for each field of a cell that it frees. So with 32 saved for each
/// owned variable and 16 for each field of a counted cell, a drop pays for itself exactly. A dup leaves what is saved for
/// fields, and an opening's drop costs no more than any. It is a law, and does nothing.
pub fn drops_pay_for_themselves()
    ensures turns { (v : Value) (heap after : Heap) → drop_value v heap ≡ Some after
        → drop_turns v heap + weight after ≡ 1 + weight heap }
    ensures pays { (v : Value) (heap after : Heap) (x : ℕ) (owned kept : List ℕ) → AreEven owned (x ∷ kept)
        → drop_value v heap ≡ Some after
        → (16 + 16 * drop_turns v heap) + saved kept after ≡ saved owned heap }
    ensures dups { (v : Value) (heap after : Heap) → dup_value v heap ≡ Some after → weight after ≡ weight heap }
    ensures openings { (at : ℕ) (used : List Value) (heap after : Heap) → opened_heap at used heap ≡ Some after
        → opening_turns at used heap + weight after ≡ 1 + weight heap }
{}

/// Code that spends its tokens does what its bare form does: it tells the same notes and ends alike, so with a full heap exactly
/// where the counted cells fill it. In each state of its run each cell is free, a token or counted, a token belongs to one slot,
/// and the chain lists the held slots that are not null; and it is never stuck. Without its tokens the state is one of the bare
/// run, so that what is true of each state of the bare run is true of it. The bare run must not be stuck, and a construction may
/// leave only fields that it would write as they are; one that leaves none does. It is a law, and does nothing.
pub fn tokens_keep_runs_the_same()
    ensures same { (weight : CountedState → ℕ) (setting : TokenSetting) (input : List ℕ)
        → AreTokensSpent setting.program
        → FillsAlways (bare_weight weight) setting input
        → ((n : ℕ) → NotStuck (counted_after weight (bare_setting setting) input n).control)
        → IsSameRun weight setting input }
    ensures states { (weight : CountedState → ℕ) (setting : TokenSetting) (input : List ℕ)
        → AreTokensSpent setting.program
        → FillsAlways (bare_weight weight) setting input
        → ((n : ℕ) → NotStuck (counted_after weight (bare_setting setting) input n).control)
        → (n : ℕ) → (m : ℕ)
        × (bare_configuration (token_after (bare_weight weight) setting input n)
        ≡ counted_after weight (bare_setting setting) input m) }
    ensures written { (weight : TokenState → ℕ) (setting : TokenSetting) (input : List ℕ)
        → setting.leaves ≡ false → FillsAlways weight setting input }
{}

/// Code that spends its tokens comes to each state of the run of its bare form: there it is the same without its tokens, has told the
/// same notes, and is at a form that its bare form has too. It is a law, and does nothing.
pub fn tokens_come_to_each_state()
    ensures { (weight : CountedState → ℕ) (setting : TokenSetting) (input : List ℕ)
        → AreTokensSpent setting.program
        → FillsAlways (bare_weight weight) setting input
        → ((n : ℕ) → NotStuck (counted_after weight (bare_setting setting) input n).control)
        → (n : ℕ) → ComesTo weight (bare_weight weight) setting input n }
{}

/// Code with tokens costs no more than its bare form with room for them: each step of the bare form but dups and drops pays so much
/// more, which is at least what the tokens on the way to the next such step cost, at any place of the code. As much more is paid at
/// the start. Both tell the same notes and end alike. Whatever its steps weigh, in each state of the run of the code with tokens these
/// are kept, and it is not stuck; without its tokens it is a state of the bare run. It is a law, and does nothing.
pub fn tokens_cost_what_they_have_room_for()
    ensures costs { (room : ℕ) (setting : TokenSetting) (input : List ℕ)
        → AreTokensSpent setting.program
        → FillsAlways token_cost setting input
        → ((n : ℕ) → NotStuck (counted_after (roomy_cost room) (bare_setting setting) input n).control)
        → HasRoom room setting.program
        → Agree (counted_machine (roomy_cost room) (bare_setting setting)) (token_machine token_cost setting) room (λ m. m + 1)
        (counted_first_state (bare_setting setting) input) (token_first_state setting input) }
    ensures states { (weight : TokenState → ℕ) (below : CountedState → ℕ) (setting : TokenSetting) (input : List ℕ)
        → AreTokensSpent setting.program
        → FillsAlways weight setting input
        → ((n : ℕ) → NotStuck (counted_after below (bare_setting setting) input n).control)
        → AreStatesKept weight below setting input }
{}

/// Each step of code that spends its tokens does what its bare form does, or what the bare form does not see; and the lists by
/// which it is judged become those that its form says: the slots that are unspent, those that are held, and those that older
/// frames hold. It is a law, and does nothing.
pub fn tokens_follow_their_forms()
    ensures follows { (setting : TokenSetting) → AreTokensSpent setting.program
        → (lists : Lists) (code : Tokened) (environment : Environment) (joins : List TokenJoin) (from : TokenConfiguration)
        → IsJudged setting.cells lists.left lists.unspent lists.held lists.older code joins from.frames from.heap from.tokens
        → FillsAt setting.leaves from (TokenControl.running code environment joins)
        → is_quiet code ≡ false
        → IsFollowed setting.cells (ListsAfter code joins lists) (token_code_step setting code environment joins from)
        (counted_code_step (bare_setting setting) (bare code) environment (map bare_join joins) (bare_configuration from)) }
    ensures unseen { (setting : TokenSetting) (lists : Lists) (environment : Environment) (joins : List TokenJoin)
        (from : TokenConfiguration) (code : Tokened)
        → IsJudged setting.cells lists.left lists.unspent lists.held lists.older code joins from.frames from.heap from.tokens
        → is_quiet code ≡ true
        → IsUnseen setting.cells (ListsAfter code joins lists) (token_code_step setting code environment joins from)
        (bare_configuration (at_code code environment joins from)) }
{}

/// A construction whose own token is there takes no cell from anywhere else: the free cells, the other tokens and the chain are as
/// they were. It is a law, and does nothing.
pub fn reuse_takes_no_cell()
    ensures { (setting : TokenSetting) (x y c first p : ℕ) (arguments kept others : List ℕ) (rest : Tokened)
        (environment : Environment) (joins : List TokenJoin) (from : TokenConfiguration)
        → AreKeptAt setting.cells from
        (TokenControl.running (Tokened.fill x y c first arguments kept others rest) environment joins)
        → from.tokens.slots (length from.frames) y ≡ token p
        → (to : TokenConfiguration)
        × ((token_code_step setting (Tokened.fill x y c first arguments kept others rest) environment joins from
        ≡ builds (busy from.heap) to)
        × TakesNoCell (length from.frames) y from to) }
{}

/// A name in use, which is that of a counted cell or of a token, has a cell of the pool of its own; the other cells are free. The
/// cells that are not free are as many as are counted or are tokens. A step leaves each name its cell; a new one may have any cell
/// that is free when the step has spent or taken its token, and there is one. So a whole run has one assignment, which grows: in
/// each state all names in use are placed, and a name that is there keeps its cell. It is a law, and does nothing.
pub fn names_have_cells_of_a_pool()
    ensures pool { (cells : ℕ) (assigned : ℕ → ℕ) (heap : Heap) (tokens : Tokens) → ArePooled cells heap tokens
        → IsPlaced cells assigned heap tokens.marks → IsPool cells assigned heap tokens.marks }
    ensures start { (cells : ℕ) (assigned : ℕ → ℕ) → IsPlaced cells assigned [] no_tokens.marks }
    ensures steps { (setting : TokenSetting) (environment : Environment) (joins : List TokenJoin) (from : TokenConfiguration)
        (lists : Lists) (code : Tokened)
        → IsJudged setting.cells lists.left lists.unspent lists.held lists.older code joins from.frames from.heap from.tokens
        → AllLead (Growth setting.cells from) (token_code_step setting code environment joins from) }
    ensures placing { (cells : ℕ) (assigned : ℕ → ℕ) (from to : TokenConfiguration) → ArePooled cells to.heap to.tokens
        → IsPlaced cells assigned from.heap from.tokens.marks → Growth cells from to → Placing cells assigned from to }
    ensures runs { (weight : TokenState → ℕ) (setting : TokenSetting) (input : List ℕ)
        → ((k : ℕ) → AreKept setting.cells (token_after weight setting input k))
        → (assigned : ℕ → ℕ → ℕ)
        × (((n : ℕ) → IsPlaced setting.cells (assigned n) (token_after weight setting input n).heap
        (token_after weight setting input n).tokens.marks)
        × ((n p : ℕ) → p < length (token_after weight setting input n).heap → assigned (suc n) p ≡ assigned n p)) }
{}

/// Code that is marked by types keeps each value fit for its mark: in each state of a run a marked variable that is bound holds no
/// number and no `()`, one that is not marked holds no place, and so it is of the fields of each cell. So a value is a place
/// or not as the code shows, and nothing at run time has to tell a place from a number. It is a law, and does nothing.
pub fn marked_code_keeps_its_marks()
    ensures start { (marks : CellMarks) (holds : ℕ → ℕ → Bool) (setting : CountedSetting) → AreMarked marks holds setting.program
        → StateFits marks holds (setting.program.main ∷ []) (counted_start setting) }
    ensures steps { (marks : CellMarks) (holds : ℕ → ℕ → Bool) (setting : CountedSetting) → AreMarked marks holds setting.program
        → (numbers : List ℕ) (s : CountedState) → StateFits marks holds numbers s.machine
        → StateFits marks holds (numbers_after s.machine.control numbers) (counted_step setting s).1.machine }
    ensures runs { (marks : CellMarks) (holds : ℕ → ℕ → Bool) (setting : CountedSetting) → AreMarked marks holds setting.program
        → (weight : CountedState → ℕ) (input : List ℕ) (n : ℕ)
        → StateFits marks holds (numbers_in weight setting input n) (counted_after weight setting input n) }
    ensures bound { (marks : CellMarks) (holds : ℕ → Bool) (result : Bool) (code : Counted) (environment : Environment)
        (joins : List CountedJoin) (fits : RunFits marks holds result code environment joins)
        → (x : ℕ) → is_among fits.bound x ≡ true → FitsMark (holds x) (value_of environment x) }
    ensures unmarked { (marks : CellMarks) (holds : ℕ → Bool) (result : Bool) (code : Counted) (environment : Environment)
        (joins : List CountedJoin) → RunFits marks holds result code environment joins
        → (x : ℕ) → holds x ≡ false → FitsMark false (value_of environment x) }
{}

/// Counts are narrow: where each function spends at most so many references on a path, no more functions stand than the stack has
/// call frames, so a count is at most what all of them own and what the fields of counted cells name. In each state of a run that
/// has not ended, within the limits of cells, call frames and code, a count and one more are below 2 ^ 32. It is a law, and does
/// nothing.
pub fn judged_code_keeps_counts_narrow()
    ensures bounded { (positions : PositionTable) (marks : CellMarks) (holds : ℕ → ℕ → Bool) (setting : CountedSetting)
        (weight : CountedState → ℕ) (input : List ℕ) (most fields : ℕ) → IsSpent positions setting.program
        → FitsAlways weight setting input → AreMarked marks holds setting.program → AllSpendAtMost setting.program most
        → ((c : ℕ) → length (field_marks marks c) ≤ fields) → 1 ≤ setting.depth
        → (n : ℕ) (code : Counted) (environment : Environment) (joins : List CountedJoin)
        → (counted_after weight setting input n).control ≡ running code environment joins
        → (at : ℕ)
        → count_at (counted_after weight setting input n).heap at ≤ setting.depth * most + fields * setting.cells }
    ensures narrow { (positions : PositionTable) (marks : CellMarks) (holds : ℕ → ℕ → Bool) (setting : CountedSetting)
        (weight : CountedState → ℕ) (input : List ℕ) (most : ℕ) → IsSpent positions setting.program
        → FitsAlways weight setting input → AreMarked marks holds setting.program → AllSpendAtMost setting.program most
        → most ≤ greatest_spent → ((c : ℕ) → length (field_marks marks c) ≤ greatest_of Fields) → 1 ≤ setting.depth
        → setting.depth ≤ greatest_depth → setting.cells ≤ greatest_cells
        → (n : ℕ) (code : Counted) (environment : Environment) (joins : List CountedJoin)
        → (counted_after weight setting input n).control ≡ running code environment joins
        → (at : ℕ) → count_at (counted_after weight setting input n).heap at + 1 < 2 ^ 32 }
    ensures spends { (positions : PositionTable) (functions : List CountedFunction) (f : ℕ) (function : CountedFunction)
        → SpendsParameters positions functions f function → EachHasAnArm function.body
        → SpendsAtMost function.body (function.parameters + gains function.body) }
{}

/// Where the numbers of a program's code are numbers of 32 bits, and its input is of bytes, the numbers of each state of its run
/// are such numbers: those of variables, of cells, and of the code that is still to run. It is a law, and does nothing.
pub fn numbers_stay_in_32_bits()
    ensures { (weight : CountedState → ℕ) (setting : CountedSetting) (input : List ℕ)
        → All (λ byte. byte < 256) input
        → AllHaveInt32 setting.program.functions
        → (n : ℕ) → IsStateInt32 (counted_after weight setting input n) }
{}

/// A construction in a token's cell may leave the fields that are known to be its arguments: in each state of a run of code that
/// spends its tokens, and leaves no other field, leaving them gives what writing all of them gives. So the machine that leaves them
/// comes to the same states as the one that writes them. It is a law, and does nothing.
pub fn known_fields_may_be_left()
    ensures fills { (weight : TokenState → ℕ) (setting : TokenSetting) (input : List ℕ)
        → AreTokensSpent setting.program
        → ((f : ℕ) (function : TokenedFunction) → slice_get setting.program.functions f ≡ Some function
        → LeavesKnown [] function.body)
        → FillsAlways weight setting input }
    ensures exact { (weight : TokenState → ℕ) (setting : TokenSetting) (input : List ℕ)
        → AreTokensSpent setting.program
        → ((f : ℕ) (function : TokenedFunction) → slice_get setting.program.functions f ≡ Some function
        → LeavesKnown [] function.body)
        → (n : ℕ) → token_after weight (record setting { leaves = true }) input n
        ≡ token_after weight (record setting { leaves = false }) input n }
{}
