ghost use Rattle.std.specs.Prelude.{ℕ, List};
ghost use Rattle.kk_syntax.specs.GroundTyping.{Table};
ghost use Rattle.kk_core.specs.CoreStates.{CoreSetting, CoreState};
ghost use Rattle.kk_core.specs.CoreTyping.{IsCoreTyped};
ghost use Rattle.kk_core.specs.Kinds.{MakeOneType, field_count, AllAskTyped, HasKindsAlways};
ghost use Rattle.kk_core.specs.NeverStuck.{NeverStuck};

/// A typed program is never stuck: in each state of each run, the variables that the step reads are bound, decisions choose a row
/// that has an arm, an opening finds a cell of its constructor with as many fields, a call finds a function with as many
/// parameters, and the other forms find arguments of their types. It is a law, and does nothing.
pub fn typed_code_is_never_stuck()
    ensures { (table : Table) (setting : CoreSetting) (weight : CoreState → ℕ) (input : List ℕ)
        → IsCoreTyped table setting.code → NeverStuck table.constructors weight setting input }
{}

/// In each state of a run of a typed program, whose cases ask what types tell, values are of the kinds that the code takes: operators
/// and prints find numbers and truths, and each answer that a test of a case finds is of the type of its edges. It is a law, and does nothing.
pub fn typed_code_has_its_kinds()
    ensures { (table : Table) (setting : CoreSetting) (weight : CoreState → ℕ) (input : List ℕ)
        → IsCoreTyped table setting.code → AllAskTyped table.constructors setting.code
        → HasKindsAlways (MakeOneType table.constructors) (field_count table.constructors) weight setting input }
{}
