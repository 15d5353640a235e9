ghost use Rattle.std.specs.Prelude.{◌≡◌, ◌+◌, ℕ, Bool, List, map};
ghost use Rattle.kk_syntax.specs.PositionsOf.{PositionTable};
ghost use Rattle.kk_syntax.specs.Programs.{ConstructorTree};
ghost use Rattle.kk_core.specs.Kinds.{MakeOneType, field_count};
ghost use Rattle.kk_counted.specs.BlockEnds.{EndsWell};
ghost use Rattle.kk_counted.specs.CountedCodes.{Counted, CountedProgram, CountedFunction};
ghost use Rattle.kk_counted.specs.CountBounds.{AllSpendAtMost};
ghost use Rattle.kk_counted.specs.CountedStates.{CountedSetting, CountedState};
ghost use Rattle.kk_counted.specs.Keeping.{FitsAlways, HasShapeAlways};
ghost use Rattle.kk_counted.specs.Kinds.{HasKindsAlways};
ghost use Rattle.kk_counted.specs.Lengths.{AreShort};
ghost use Rattle.kk_counted.specs.Lowerable.{AreLowerable, AllOpenByCount};
ghost use Rattle.kk_counted.specs.FunctionSizes.{AllHaveVariablesBelow};
ghost use Rattle.kk_counted.specs.Marks.{CellMarks, IsMarked};
ghost use Rattle.kk_counted.specs.Spending.{IsSpent};
ghost use Rattle.kk_counted.specs.TokenCosts.{OpenAtMost};
ghost use Rattle.kk_counted.specs.TokenWords.{code_words, token_words};
ghost use Rattle.kk_counted.specs.TokenedCodes.{Tokened};
ghost use Rattle.kk_counted.specs.BareForms.{bare};
ghost use Rattle.kk_counted.specs.TokenSpending.{SpendsTokens};
ghost use Rattle.kk_dropspec.specs.Specialised.{special, special_program, special_setting, special_function};
ghost use Rattle.kk_dropspec.specs.SpecialTokens.{special_tokened};
ghost use Rattle.kk_dropspec.specs.SameRuns.{AreSameAfter};

/// Specialised code spends what the code spends that it is made of. It is a law, and does nothing.
pub fn specialised_code_is_spent()
    ensures { (positions : PositionTable) (program : CountedProgram) → IsSpent positions program
        → IsSpent positions (special_program program) }
{}

/// After each number of steps specialised code is in the state of the code that it is made of, its heap and its environments the
/// same, and has told the same notes, at the same cost; and it has ended where that has, and alike. The code must spend each
/// reference that it owns, and operators and prints must take values without cells. It is a law, and does nothing.
pub fn specialised_code_runs_the_same()
    ensures { (positions : PositionTable) (setting : CountedSetting) (weight other : CountedState → ℕ) (input : List ℕ)
        → IsSpent positions setting.program
        → FitsAlways weight setting input
        → (n : ℕ) → AreSameAfter n weight other setting input }
{}

/// In each state of its run specialised code has the shape of a typed program, and takes values of the kinds that it asks for, where
/// the code does that it is made of. It is a law, and does nothing.
pub fn specialised_code_has_its_kinds()
    ensures shape { (positions : PositionTable) (setting : CountedSetting) (weight other : CountedState → ℕ) (input : List ℕ)
        → IsSpent positions setting.program
        → FitsAlways weight setting input
        → HasShapeAlways weight setting input → HasShapeAlways other (special_setting setting) input }
    ensures kinds { (constructors : List ConstructorTree) (positions : PositionTable) (setting : CountedSetting)
        (weight other : CountedState → ℕ) (input : List ℕ)
        → IsSpent positions setting.program
        → FitsAlways weight setting input
        → HasKindsAlways (MakeOneType constructors) (field_count constructors) weight setting input
        → HasKindsAlways (MakeOneType constructors) (field_count constructors) other (special_setting setting) input }
{}

/// Specialised code with tokens has the specialised code as its bare form, and spends each token that the code spends that it
/// is made of. It is a law, and does nothing.
pub fn specialised_code_spends_its_tokens()
    ensures form { (code : Tokened) → bare (special_tokened code) ≡ special (bare code) }
    ensures spends { (code : Tokened) (left unspent held : List ℕ) → SpendsTokens left unspent held code
        → SpendsTokens left unspent held (special_tokened code) }
{}

/// Specialised code is marked as the code is that it is made of, can be lowered where that can, spends as few references, is as
/// short, and has as few variables. It is a law, and does nothing.
pub fn specialised_code_can_be_lowered()
    ensures marked { (marks : CellMarks) (holds : ℕ → Bool) (f : ℕ) (function : CountedFunction) → IsMarked marks holds f function
        → IsMarked marks holds f (special_function function) }
    ensures lowerable { (table : CellMarks) (functions : List CountedFunction) → AreLowerable table functions
        → AreLowerable table (map special_function functions) }
    ensures little { (program : CountedProgram) (n : ℕ) → AllSpendAtMost program n → AllSpendAtMost (special_program program) n }
    ensures short { (functions : List CountedFunction) → AreShort functions → AreShort (map special_function functions) }
    ensures variables { (most : ℕ) (functions : List CountedFunction) → AllHaveVariablesBelow most functions
        → AllHaveVariablesBelow most (map special_function functions) }
{}

/// Specialised code has no more openings on a path than the code that it is made of. It is a law, and does nothing.
pub fn specialised_code_opens_no_more()
    ensures { (most : ℕ) (program : CountedProgram) → OpenAtMost most program → OpenAtMost most (special_program program) }
{}

/// In specialised code each opening goes by the count of the cell, whatever the code is that it is made of. It is a law, and does
/// nothing.
pub fn specialised_code_opens_by_count()
    ensures { (functions : List CountedFunction) → AllOpenByCount (map special_function functions) }
{}

/// Specialised code takes as many words of an image as the code that it is made of, with those for its tokens. It is a law, and does
/// nothing.
pub fn specialised_code_takes_as_many_words()
    ensures { (tokens : ℕ) (code : Counted) → code_words (special code) + token_words tokens (special code)
        ≡ code_words code + token_words tokens code }
{}

/// Specialised code ends as well as the code that it is made of: its cases have arms, and its blocks end with values alone. It is a
/// law, and does nothing.
pub fn specialised_code_ends_as_well()
    ensures { (inner : Bool) (code : Counted) → EndsWell inner code → EndsWell inner (special code) }
{}
