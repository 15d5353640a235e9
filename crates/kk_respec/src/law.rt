ghost use Rattle.std.specs.Prelude.{◌≡◌, Bool, true, false, ℕ, List, [], Some, slice_get};
ghost use Rattle.kk_counted.specs.BareForms.{bare_program};
ghost use Rattle.kk_counted.specs.CountedMachine.{NotStuck};
ghost use Rattle.kk_counted.specs.CountedStates.{CountedState};
ghost use Rattle.kk_counted.specs.FunctionSizes.{AllHaveSlotsBelow};
ghost use Rattle.kk_counted.specs.Keeping.{counted_after};
ghost use Rattle.kk_counted.specs.TokenCosts.{HasRoom};
ghost use Rattle.kk_counted.specs.TokenKeeping.{FillsAlways, token_after};
ghost use Rattle.kk_counted.specs.TokenLengths.{AreTokensShort};
ghost use Rattle.kk_counted.specs.TokenLowerable.{AreTokensLowerable};
ghost use Rattle.kk_counted.specs.TokenRuns.{IsSameRun};
ghost use Rattle.kk_counted.specs.TokenSpending.{AreTokensSpent};
ghost use Rattle.kk_counted.specs.TokenStates.{TokenSetting, TokenState, bare_setting};
ghost use Rattle.kk_counted.specs.TokenedCodes.{TokenedFunction, TokenedProgram};
ghost use Rattle.kk_counted.specs.TokenedWords.{tokened_words};
ghost use Rattle.kk_reuse.specs.Paired.{AllPaired};
ghost use Rattle.kk_respec.specs.AllKnown.{LeavesAllKnown};
ghost use Rattle.kk_respec.specs.Respecialised.{respecialised_function, respecialised_program, respecialised_setting};

use kk_counted::{known_fields_may_be_left, tokens_keep_runs_the_same};

/// Respecialised code without its tokens is the code without them that it is made of. It spends its tokens, is paired and has room
/// for them where that does. It is a law, and does nothing.
pub fn respecialised_code_has_its_form()
    ensures form { (program : TokenedProgram) → bare_program (respecialised_program program) ≡ bare_program program }
    ensures spends { (program : TokenedProgram) → AreTokensSpent program → AreTokensSpent (respecialised_program program) }
    ensures paired { (program : TokenedProgram) → AllPaired program → AllPaired (respecialised_program program) }
    ensures room { (room : ℕ) (program : TokenedProgram) → HasRoom room program → HasRoom room (respecialised_program program) }
{}

/// Respecialised code can be lowered where the code can that it is made of, is short where that is, and has no more slots. It is a
/// law, and does nothing.
pub fn respecialised_code_can_be_lowered()
    ensures lowerable { (program : TokenedProgram) → AreTokensLowerable program.functions
        → AreTokensLowerable (respecialised_program program).functions }
    ensures short { (program : TokenedProgram) → AreTokensShort program.functions
        → AreTokensShort (respecialised_program program).functions }
    ensures slots { (most : ℕ) (program : TokenedProgram) → AllHaveSlotsBelow most program.functions
        → AllHaveSlotsBelow most (respecialised_program program).functions }
{}

/// Respecialised code takes as many words of an image as the code that it is made of. It is a law, and does nothing.
pub fn respecialised_code_takes_as_many_words()
    ensures { (function : TokenedFunction)
        → tokened_words (respecialised_function function).body ≡ tokened_words function.body }
{}

/// Each construction of respecialised code in a token's cell leaves all fields that are known to be its arguments. It is a law, and
/// does nothing.
pub fn respecialised_code_leaves_all_that_is_known()
    ensures { (program : TokenedProgram) (f : ℕ) (function : TokenedFunction)
        → slice_get (respecialised_program program).functions f ≡ Some function → LeavesAllKnown [] function.body }
{}

/// Of respecialised code the machine that leaves the kept fields comes to the same states as the one that writes all of them, since
/// leaving them gives what writing them gives. Where the code without tokens is never stuck, both do what that does. It is a law,
/// and does nothing.
pub fn respecialised_code_runs_the_same()
    ensures fills { (leaves : Bool) (weight : TokenState → ℕ) (setting : TokenSetting) (input : List ℕ)
        → AreTokensSpent setting.program
        → FillsAlways weight (respecialised_setting leaves setting) input }
    ensures exact { (weight : TokenState → ℕ) (setting : TokenSetting) (input : List ℕ)
        → AreTokensSpent setting.program
        → (n : ℕ) → token_after weight (respecialised_setting true setting) input n
        ≡ token_after weight (respecialised_setting false setting) input n }
    ensures same { (leaves : Bool) (weight : CountedState → ℕ) (setting : TokenSetting) (input : List ℕ)
        → AreTokensSpent setting.program
        → ((n : ℕ) → NotStuck (counted_after weight (bare_setting setting) input n).control)
        → IsSameRun weight (respecialised_setting leaves setting) input }
{
    known_fields_may_be_left();
    tokens_keep_runs_the_same();
}
