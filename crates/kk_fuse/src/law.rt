ghost use Rattle.std.specs.Prelude.{◌≡◌, ◌≤◌, ◌+◌, ℕ, Bool, List, map, Some, slice_get};
ghost use Rattle.kk_syntax.specs.PositionsOf.{PositionTable};
ghost use Rattle.kk_counted.specs.CountBounds.{AllSpendAtMost};
ghost use Rattle.kk_counted.specs.BlockEnds.{EndsWell};
ghost use Rattle.kk_counted.specs.CountedCodes.{Counted, CountedProgram, CountedFunction};
ghost use Rattle.kk_counted.specs.Lengths.{AreShort};
ghost use Rattle.kk_counted.specs.Lowerable.{AreLowerable, AllOpenByCount};
ghost use Rattle.kk_counted.specs.FunctionSizes.{AllHaveVariablesBelow};
ghost use Rattle.kk_counted.specs.Marks.{CellMarks, IsMarked};
ghost use Rattle.kk_counted.specs.Spending.{IsSpent};
ghost use Rattle.kk_counted.specs.TokenCosts.{OpenAtMost};
ghost use Rattle.kk_counted.specs.TokenWords.{code_words, token_words};
ghost use Rattle.kk_fuse.specs.Fused.{fuse, fused_program, fused_function};
ghost use Rattle.kk_fuse.specs.NoPairs.{HasNoPair};

/// Fused code spends what the code spends that it is made of. It is a law, and does nothing.
pub fn fused_code_is_spent()
    ensures { (positions : PositionTable) (program : CountedProgram) → IsSpent positions program
        → IsSpent positions (fused_program program) }
{}

/// Fused code is marked as the code is that it is made of, can be lowered where that can, spends no more references, is short where
/// that is, and has no more variables. It is a law, and does nothing.
pub fn fused_code_can_be_lowered()
    ensures marked { (marks : CellMarks) (holds : ℕ → Bool) (f : ℕ) (function : CountedFunction) → IsMarked marks holds f function
        → IsMarked marks holds f (fused_function function) }
    ensures lowerable { (table : CellMarks) (functions : List CountedFunction) → AreLowerable table functions
        → AreLowerable table (map fused_function functions) }
    ensures little { (program : CountedProgram) (n : ℕ) → AllSpendAtMost program n → AllSpendAtMost (fused_program program) n }
    ensures short { (functions : List CountedFunction) → AreShort functions → AreShort (map fused_function functions) }
    ensures variables { (most : ℕ) (functions : List CountedFunction) → AllHaveVariablesBelow most functions
        → AllHaveVariablesBelow most (map fused_function functions) }
{}

/// Fused code has no more openings on a path than the code that it is made of. It is a law, and does nothing.
pub fn fused_code_opens_no_more()
    ensures { (most : ℕ) (program : CountedProgram) → OpenAtMost most program → OpenAtMost most (fused_program program) }
{}

/// In fused code each opening goes by the count of the cell, where it does in the code that it is made of. It is a law, and does
/// nothing.
pub fn fused_code_opens_by_count()
    ensures { (functions : List CountedFunction) → AllOpenByCount functions → AllOpenByCount (map fused_function functions) }
{}

/// In fused code no dup is left that cancels with a drop. It is a law, and does nothing.
pub fn fused_code_has_no_pair_left()
    ensures { (program : CountedProgram) (f : ℕ) (function : CountedFunction)
        → slice_get (fused_program program).functions f ≡ Some function → HasNoPair function.body }
{}

/// Fused code takes no more words of an image than the code that it is made of, with those for its tokens. It is a law, and does
/// nothing.
pub fn fused_code_takes_no_more_words()
    ensures { (tokens : ℕ) (code : Counted) → code_words (fuse code) + token_words tokens (fuse code)
        ≤ code_words code + token_words tokens code }
{}

/// Fused code ends as well as the code that it is made of: its cases have arms, and its blocks end with values alone. It is a law,
/// and does nothing.
pub fn fused_code_ends_as_well()
    ensures { (inner : Bool) (code : Counted) → EndsWell inner code → EndsWell inner (fuse code) }
{}
