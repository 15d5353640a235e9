ghost use Rattle.std.specs.Prelude.{◌≡◌, ℕ, List};
ghost use Rattle.kk_base.specs.Machines.{trace};
ghost use Rattle.kk_syntax.specs.PositionsOf.{PositionTable};
ghost use Rattle.kk_syntax.specs.Programs.{ConstructorTree};
ghost use Rattle.kk_source.specs.State.{Environment, ended};
ghost use Rattle.kk_core.specs.Kinds.{MakeOneType, field_count};
ghost use Rattle.kk_counted.specs.CountedCodes.{Counted, CountedProgram, if_unique};
ghost use Rattle.kk_counted.specs.CountedMachine.{counted_machine};
ghost use Rattle.kk_counted.specs.CountedStates.{CountedSetting, CountedJoin, CountedState, counted_first_state, running, stopped};
ghost use Rattle.kk_counted.specs.Heaps.{busy};
ghost use Rattle.kk_counted.specs.Keeping.{counted_after, FitsAlways, HasShapeAlways};
ghost use Rattle.kk_counted.specs.Kinds.{HasKindsAlways};
ghost use Rattle.kk_counted.specs.Lengths.{most_length, AreShort};
ghost use Rattle.kk_counted.specs.Spending.{IsSpent};
ghost use Rattle.kk_fuse.specs.Fused.{fused_setting};
ghost use Rattle.kk_fuse.specs.FusedRuns.{HasFewSteps, IsSameTest, IsFusedRun};

/// Fused code tells the same notes as the code that it is made of, at no higher cost, with any room; and it ends where that ends,
/// and alike. In each state of its run it stands for a state of that code. Where that leaves no cell at its end, neither does fused
/// code; and where it tests a count, that code does too, with the same counts and behind the same notes. The code must spend each
/// reference that it owns, operators and prints must take values without cells, and it must have the shape of a typed program. It
/// is a law, and does nothing.
pub fn fused_code_runs_the_same()
    ensures run { (positions : PositionTable) (setting : CountedSetting) (most : ℕ) (input : List ℕ)
        → IsSpent positions setting.program
        → ((weight : CountedState → ℕ) → FitsAlways weight setting input)
        → ((weight : CountedState → ℕ) → HasShapeAlways weight setting input)
        → HasFewSteps most setting.program
        → IsFusedRun setting most input }
    ensures clean { (positions : PositionTable) (setting : CountedSetting) (most : ℕ) (input : List ℕ)
        → IsSpent positions setting.program
        → ((weight : CountedState → ℕ) → FitsAlways weight setting input)
        → ((weight : CountedState → ℕ) → HasShapeAlways weight setting input)
        → HasFewSteps most setting.program
        → ((weight : CountedState → ℕ) (n : ℕ) → (counted_after weight setting input n).control ≡ stopped ended
        → busy (counted_after weight setting input n).heap ≡ 0)
        → (weight : CountedState → ℕ) (n : ℕ)
        → (counted_after weight (fused_setting setting) input n).control ≡ stopped ended
        → busy (counted_after weight (fused_setting setting) input n).heap ≡ 0 }
    ensures counts { (positions : PositionTable) (setting : CountedSetting) (most : ℕ) (input : List ℕ)
        → IsSpent positions setting.program
        → ((weight : CountedState → ℕ) → FitsAlways weight setting input)
        → ((weight : CountedState → ℕ) → HasShapeAlways weight setting input)
        → HasFewSteps most setting.program
        → (weight : CountedState → ℕ) (n x c : ℕ) (fields used : List ℕ) (rest : Counted) (environment : Environment)
        (joins : List CountedJoin)
        → (counted_after weight (fused_setting setting) input n).control
        ≡ running (if_unique x c fields used rest) environment joins
        → (m : ℕ) × ((trace (counted_machine weight (fused_setting setting)) n (counted_first_state (fused_setting setting) input)
        ≡ trace (counted_machine weight setting) m (counted_first_state setting input))
        × IsSameTest (counted_after weight setting input m).heap
        (counted_after weight (fused_setting setting) input n).heap (counted_after weight setting input m).control
        x c fields used environment) }
{}

/// In each state of its run fused code takes values of the kinds that it asks for, where the code does that it is made of. It is a
/// law, and does nothing.
pub fn fused_code_has_its_kinds()
    ensures { (constructors : List ConstructorTree) (positions : PositionTable) (setting : CountedSetting) (most : ℕ)
        (weight other : CountedState → ℕ) (input : List ℕ)
        → IsSpent positions setting.program
        → ((weights : CountedState → ℕ) → FitsAlways weights setting input)
        → ((weights : CountedState → ℕ) → HasShapeAlways weights setting input)
        → HasFewSteps most setting.program
        → HasKindsAlways (MakeOneType constructors) (field_count constructors) weight setting input
        → HasKindsAlways (MakeOneType constructors) (field_count constructors) other (fused_setting setting) input }
{}

/// No body of a program within the limits has more forms than such a program has instructions. It is a law, and does nothing.
pub fn short_code_has_few_steps()
    ensures { (program : CountedProgram) → AreShort program.functions → HasFewSteps most_length program }
{}
