ghost use Rattle.std.specs.Prelude.{◌≡◌, ◌≤◌, ◌+◌, ◌*◌, ℕ, List, false};
ghost use Rattle.kk_base.specs.Agreements.{Agree};
ghost use Rattle.kk_counted.specs.BareForms.{bare_program};
ghost use Rattle.kk_counted.specs.BlockEnds.{EndsWell};
ghost use Rattle.kk_counted.specs.CountedCodes.{CountedFunction, CountedProgram};
ghost use Rattle.kk_counted.specs.CountedCosts.{roomy_cost};
ghost use Rattle.kk_counted.specs.CountedMachine.{counted_machine, NotStuck};
ghost use Rattle.kk_counted.specs.CountedStates.{CountedSetting, CountedState, counted_first_state};
ghost use Rattle.kk_counted.specs.FunctionSizes.{AllHaveSlotsBelow};
ghost use Rattle.kk_counted.specs.Keeping.{counted_after};
ghost use Rattle.kk_counted.specs.Lengths.{AreShort};
ghost use Rattle.kk_counted.specs.TokenCosts.{token_cost, HasRoom, OpenAtMost, AreStatesKept};
ghost use Rattle.kk_counted.specs.TokenLengths.{AreTokensShort};
ghost use Rattle.kk_counted.specs.TokenLowerable.{most_slots, AreTokensLowerable};
ghost use Rattle.kk_counted.specs.TokenMachine.{token_machine};
ghost use Rattle.kk_counted.specs.TokenRuns.{IsSameRun};
ghost use Rattle.kk_counted.specs.TokenSpending.{AreTokensSpent};
ghost use Rattle.kk_counted.specs.TokenWords.{code_words, token_words};
ghost use Rattle.kk_counted.specs.TokenedWords.{tokened_words};
ghost use Rattle.kk_counted.specs.TokenStates.{TokenState, token_first_state};
ghost use Rattle.kk_reuse.specs.Paired.{AllPaired};
ghost use Rattle.kk_reuse.specs.Pairing.{paired_function, paired_program, paired_setting};

use kk_counted::{tokens_cost_what_they_have_room_for, tokens_keep_runs_the_same};

/// Paired code without its tokens is the code that it is made of, and spends each token once on each path. On each path a
/// construction with fields takes the newest token, if there is one; the others are freed where none can follow. A token whose slot is
/// null counts, and a construction that takes it asks for a cell. It is a law, and does nothing.
pub fn paired_code_spends_its_tokens()
    ensures form { (program : CountedProgram) → bare_program (paired_program program) ≡ program }
    ensures spends { (program : CountedProgram) → AreTokensSpent (paired_program program) }
    ensures paired { (program : CountedProgram) → AllPaired (paired_program program) }
{}

/// Paired code does what the code does that it is made of, where that is not stuck: it tells the same notes, so as many counted cells
/// at each construction and as many frames at each call, and ends alike. In each state of its run each cell is free, a token or
/// counted, and it is never stuck. It is a law, and does nothing.
pub fn paired_code_runs_the_same()
    ensures { (weight : CountedState → ℕ) (setting : CountedSetting) (input : List ℕ)
        → ((n : ℕ) → NotStuck (counted_after weight setting input n).control)
        → IsSameRun weight (paired_setting setting) input }
{
    tokens_keep_runs_the_same();
}

/// Paired code has room for its tokens, where a step pays 36 for each opening of the function that has most of them. So it costs no
/// more than the code that it is made of costs with this room, and with as much more at the start. In each state of its run,
/// whatever its steps weigh, the tokens are kept, and it is not stuck; without its tokens it is a state of the run of that code. It
/// is a law, and does nothing.
pub fn paired_code_costs_what_it_has_room_for()
    ensures room { (most : ℕ) (program : CountedProgram) → OpenAtMost most program → HasRoom (36 * most) (paired_program program) }
    ensures costs { (most : ℕ) (setting : CountedSetting) (input : List ℕ)
        → OpenAtMost most setting.program
        → ((n : ℕ) → NotStuck (counted_after (roomy_cost (36 * most)) setting input n).control)
        → Agree (counted_machine (roomy_cost (36 * most)) setting) (token_machine token_cost (paired_setting setting)) (36 * most)
        (λ m. m + 1) (counted_first_state setting input) (token_first_state (paired_setting setting) input) }
    ensures states { (weight : TokenState → ℕ) (below : CountedState → ℕ) (setting : CountedSetting) (input : List ℕ)
        → ((n : ℕ) → NotStuck (counted_after below setting input n).control)
        → AreStatesKept weight below (paired_setting setting) input }
{
    tokens_keep_runs_the_same();
    tokens_cost_what_they_have_room_for();
}

/// Paired code can be lowered where the code has few openings on a path: a function has few slots, tokens are held around rows
/// of calls alone, and no construction leaves a field. It is a law, and does nothing.
pub fn paired_code_can_be_lowered()
    ensures { (most : ℕ) (program : CountedProgram) → OpenAtMost most program → most ≤ most_slots
        → AreTokensLowerable (paired_program program).functions }
{}

/// Paired code has no more slots in a function than the code has openings on a path. It is a law, and does nothing.
pub fn paired_code_has_few_slots()
    ensures { (most : ℕ) (program : CountedProgram) → OpenAtMost most program
        → AllHaveSlotsBelow most (paired_program program).functions }
{}

/// Paired code is short where the code is that it is made of, which has few openings on a path: in all, its tokens add no more than
/// the limits make of eleven instructions for each slot at each form but a dup and a drop. It has no more forms on values. It is a
/// law, and does nothing.
pub fn paired_code_is_short()
    ensures { (most : ℕ) (program : CountedProgram) → OpenAtMost most program → most ≤ most_slots
        → AreShort program.functions → AreTokensShort (paired_program program).functions }
{}

/// Paired code takes few words of an image, where each case has an arm and no block inside ends with a tail call: as many as the code
/// that it is made of, and those for its tokens. It is a law, and does nothing.
pub fn paired_code_takes_few_words()
    ensures { (function : CountedFunction) → EndsWell false function.body
        → tokened_words (paired_function function).body ≤ code_words function.body + token_words 0 function.body }
{}
