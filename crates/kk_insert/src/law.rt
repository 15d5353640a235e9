ghost use Rattle.std.specs.Prelude.{◌≡◌, ℕ, Bool, List};
ghost use Rattle.kk_syntax.specs.PositionsOf.{PositionTable};
ghost use Rattle.kk_syntax.specs.Programs.{ConstructorTree, ProgramTree};
ghost use Rattle.kk_syntax.specs.GroundTyping.{Table, table_of};
ghost use Rattle.kk_syntax.specs.GroundPrograms.{ground_program};
ghost use Rattle.kk_syntax.specs.declared.ground.Ground.{Ground};
ghost use Rattle.kk_core.specs.CellTypes.{TellsCells};
ghost use Rattle.kk_core.specs.declared.form.Core.{Core};
ghost use Rattle.kk_core.specs.Codes.{ProgramCode};
ghost use Rattle.kk_core.specs.CoreStates.{CoreSetting, CoreState};
ghost use Rattle.kk_core.specs.CoreTyping.{IsCoreTyped, IsSmall};
ghost use Rattle.kk_core.specs.VariableBounds.{HaveVariablesAtMost};
ghost use Rattle.kk_core.specs.Kinds as Core;
ghost use Rattle.kk_core.specs.Kinds.{MakeOneType, field_count};
ghost use Rattle.kk_core.specs.NeverStuck.{NeverStuck};
ghost use Rattle.kk_core.specs.Unpackings.{UnpackAtMost};
ghost use Rattle.kk_counted.specs.CountedStates.{CountedState};
ghost use Rattle.kk_counted.specs.Keeping.{FitsAlways, HasShapeAlways};
ghost use Rattle.kk_counted.specs.Kinds.{HasKindsAlways};
ghost use Rattle.kk_counted.specs.BlockEnds.{AllEndWell};
ghost use Rattle.kk_counted.specs.CountBounds.{AllSpendAtMost};
ghost use Rattle.kk_counted.specs.Lengths.{AreShort};
ghost use Rattle.kk_counted.specs.FunctionSizes.{AllHaveVariablesBelow};
ghost use Rattle.kk_counted.specs.Lowerable.{AreLowerable};
ghost use Rattle.kk_counted.specs.Marks.{AreMarked};
ghost use Rattle.kk_counted.specs.Spending.{IsSpent};
ghost use Rattle.kk_counted.specs.TokenCosts.{OpenAtMost};
ghost use Rattle.kk_insert.specs.InsertedWords.{TakeFewWords};
ghost use Rattle.kk_insert.specs.Insertion.{inserted};
ghost use Rattle.kk_insert.specs.Limits.{HaveFewFields, most_spent};
ghost use Rattle.kk_insert.specs.MarkTables.{marks_of_types, marks_of_core, AreGround};
ghost use Rattle.kk_insert.specs.Meaning.{inserted_setting, KeepsMeaning, FindsAsMany};
ghost use Rattle.kk_insert.specs.Promise.{IsInsertable, TailsLendOn, AllHaveRows};

/// A typed program within the limits, whose tail calls lend on only what is lent, may be inserted. It is a law, and does nothing.
pub fn typed_code_is_insertable()
    ensures { (positions : PositionTable) (table : Table) (code : ProgramCode)
        → IsCoreTyped table code → IsSmall code → TailsLendOn positions code → IsInsertable positions code }
{}

/// Inserted code spends what it owns: so the laws of counted code hold of it, and its heap is sound in each state. It is a law,
/// and does nothing.
pub fn inserted_code_is_spent()
    ensures { (positions : PositionTable) (code : ProgramCode) → IsInsertable positions code
        → IsSpent positions (inserted positions code) }
{}

/// An inserted program keeps the meaning of a core program that is never stuck: both machines tell the same notes and end alike,
/// and the counted steps cost no more than the core's. The counted machine is never stuck, its heap is sound in each state, and no
/// cell is left where it ends by itself. It is a law, and does nothing.
pub fn inserted_code_keeps_meaning()
    ensures { (setting : CoreSetting) (constructors : List ConstructorTree) (weight : CoreState → ℕ) (input : List ℕ)
        → IsInsertable setting.positions setting.code
        → NeverStuck constructors weight setting input
        → KeepsMeaning setting input }
{}

/// The code of an inserted program has the shape of a typed program in each state, its operators and prints take values without
/// cells, and it takes values of the kinds that it asks for where core code does: operators and prints find
/// numbers and truths, and each answer that a test of a case finds is of the type of its edges. The core program must never be
/// stuck. It is a law, and does nothing.
pub fn inserted_code_has_its_kinds()
    ensures shape { (setting : CoreSetting) (constructors : List ConstructorTree) (weight : CoreState → ℕ) (weights : CountedState → ℕ)
        (input : List ℕ) → IsInsertable setting.positions setting.code
        → NeverStuck constructors weight setting input
        → HasShapeAlways weights (inserted_setting setting) input }
    ensures fits { (setting : CoreSetting) (constructors : List ConstructorTree) (weight : CoreState → ℕ) (weights : CountedState → ℕ)
        (input : List ℕ) → IsInsertable setting.positions setting.code
        → NeverStuck constructors weight setting input
        → FitsAlways weights (inserted_setting setting) input }
    ensures kinds { (setting : CoreSetting) (constructors : List ConstructorTree) (weight : CoreState → ℕ) (weights : CountedState → ℕ)
        (input : List ℕ) → IsInsertable setting.positions setting.code
        → NeverStuck constructors weight setting input
        → Core.HasKindsAlways (MakeOneType constructors) (field_count constructors) weight setting input
        → HasKindsAlways (MakeOneType constructors) (field_count constructors) weights (inserted_setting setting) input }
{}

/// The k-th note of either machine is the k-th of the other: so at each construction the cells that are counted are as many as the
/// places that are live, and at each call as many call frames stand. It is a law, and does nothing.
pub fn counted_cells_are_the_live_places()
    ensures { (setting : CoreSetting) (constructors : List ConstructorTree) (weight : CoreState → ℕ) (input : List ℕ)
        → IsInsertable setting.positions setting.code
        → NeverStuck constructors weight setting input
        → FindsAsMany setting input }
{}

/// The insertion of a typed program of ground types is marked: a variable is marked exactly where its type has cells. So no
/// variable that is left unmarked ever names a cell. The marks that a core form tells are those of its types. It is a law,
/// and does nothing.
pub fn typed_code_is_marked()
    ensures marked { (positions : PositionTable) (table : Table) (code : ProgramCode)
        → IsCoreTyped table code → AreGround table.constructors
        → (holds : ℕ → ℕ → Bool) × AreMarked (marks_of_types table) holds (inserted positions code) }
    ensures tables { (program : ProgramTree) (core : Core) → TellsCells program core
        → marks_of_core core ≡ marks_of_types (table_of program) }
    ensures ground { (given : Ground) → AreGround (ground_program given).constructors }
{}

/// The insertion of a typed program within the limits can be lowered: its variables are few and numbered in order, each case has an
/// arm for each row, each block inside gives a value, and each form has as many arguments as it takes. And each function spends few
/// references on a path. It has no more variables than the core code. It is a law, and does nothing.
pub fn inserted_code_can_be_lowered()
    ensures lowerable { (positions : PositionTable) (table : Table) (code : ProgramCode) → IsCoreTyped table code → IsSmall code
        → AllHaveRows code → AreGround table.constructors → HaveFewFields table.constructors
        → AreLowerable (marks_of_types table) (inserted positions code).functions }
    ensures little { (positions : PositionTable) (table : Table) (code : ProgramCode) → IsCoreTyped table code → IsSmall code
        → HaveFewFields table.constructors → IsSpent positions (inserted positions code)
        → AllSpendAtMost (inserted positions code) most_spent }
    ensures variables { (positions : PositionTable) (table : Table) (code : ProgramCode) → IsCoreTyped table code
        → (most : ℕ) → HaveVariablesAtMost most code → AllHaveVariablesBelow most (inserted positions code).functions }
{}

/// The insertion of a typed program within the limits is short, and has few forms on values: before and behind each form of the
/// core form there are no more dups and drops than the function may have variables, and some for the form's arguments. It is a law,
/// and does nothing.
pub fn inserted_code_is_short()
    ensures { (positions : PositionTable) (table : Table) (code : ProgramCode) → IsCoreTyped table code → IsSmall code
        → HaveFewFields table.constructors → AreShort (inserted positions code).functions }
{}

/// Inserted code has no more openings on a path than the core code that it is made of. It is a law, and does nothing.
pub fn inserted_code_opens_no_more()
    ensures { (positions : PositionTable) (most : ℕ) (code : ProgramCode) → UnpackAtMost most code
        → OpenAtMost most (inserted positions code) }
{}

/// The words of an inserted function grow with pairs of the nodes that its body stands for, four for each pair at most, and besides
/// with its forms: for all that the insertion puts between them, for tokens and for tests. It is a law, and does nothing.
pub fn inserted_code_takes_few_words()
    ensures { (positions : PositionTable) (table : Table) (code : ProgramCode) → IsCoreTyped table code → IsSmall code
        → TakeFewWords code.functions (inserted positions code).functions }
{}

/// In the insertion of a typed program each case has an arm, and a block inside ends with values alone: a tail call stands only where
/// a function ends. It is a law, and does nothing.
pub fn inserted_code_ends_well()
    ensures { (positions : PositionTable) (table : Table) (code : ProgramCode) → IsCoreTyped table code
        → AllEndWell (inserted positions code).functions }
{}
