ghost use Rattle.std.specs.Prelude.{◌≡◌, ◌≤◌, ◌↔◌, ℕ, List, true, Some};
ghost use Rattle.kk_base.specs.Trace.{IsPrefix, TakesFrom};
ghost use Rattle.kk_base.specs.Machines.{state};
ghost use Rattle.kk_syntax.specs.GroundTyping.{IsGroundTyped};
ghost use Rattle.kk_syntax.specs.Programs.{ProgramTree};
ghost use Rattle.kk_source.specs.Settings.{IsRun};
ghost use Rattle.kk_source.specs.State.{Setting, Value, ended};
ghost use Rattle.kk_source.specs.Live.{is_live, Reached};
ghost use Rattle.kk_source.specs.NeverStuck.{NeverStuck};
ghost use Rattle.kk_source.specs.Sound.{Sound};
ghost use Rattle.kk_source.specs.SourceAfter.{store_machine, first_state, source_after, unlimited_after, HasRoom};

/// In each state of a run, values name cells that are there, and fields name older cells; and a place is live exactly where
/// it can be reached, by a way through fields, from what is held. It is a law, and does nothing.
pub fn runs_are_sound()
    ensures sound { (setting : Setting) (input : List ℕ) (n : ℕ)
        → Sound (state (store_machine setting) n (first_state setting input)).machine }
    ensures live { (setting : Setting) (input : List ℕ) (n : ℕ) (held : List Value) (at : ℕ)
        → (is_live (state (store_machine setting) n (first_state setting input)).machine.store held at ≡ true)
        ↔ Reached (state (store_machine setting) n (first_state setting input)).machine.store held at }
{}

/// A run with more cells and a greater depth has the same trace as far as the smaller one goes; and it is the same where
/// the smaller one has not found its heap or its stack full. It is a law, and does nothing.
pub fn more_room_goes_further()
    ensures prefix { (setting : Setting) (input : List ℕ) (cells depth : ℕ)
        → setting.cells ≤ cells → setting.depth ≤ depth → (n : ℕ)
        → IsPrefix (source_after setting input n).trace
        (source_after (record setting { cells = cells; depth = depth }) input n).trace }
    ensures same { (setting : Setting) (input : List ℕ) (cells depth : ℕ)
        → setting.cells ≤ cells → setting.depth ≤ depth → (n : ℕ)
        → HasRoom (source_after setting input n).ending
        → source_after (record setting { cells = cells; depth = depth }) input n ≡ source_after setting input n }
{}

/// A run goes as far as the run without limits, and does the same: its trace is the beginning of one of that run; and where it ends by
/// itself, so does that run, with the same trace. The run without limits finds neither its heap nor its stack full. It is a law, and
/// does nothing.
pub fn runs_follow_without_limits()
    ensures prefix { (setting : Setting) (input : List ℕ) (n : ℕ)
        → (m : ℕ) × IsPrefix (source_after setting input n).trace (unlimited_after setting input m).trace }
    ensures whole { (setting : Setting) (input : List ℕ) (n : ℕ) → (source_after setting input n).ending ≡ Some ended
        → (m : ℕ) × (unlimited_after setting input m ≡ source_after setting input n) }
    ensures room { (setting : Setting) (input : List ℕ) (n : ℕ) → HasRoom (unlimited_after setting input n).ending }
{}

/// What a run does depends on that part of the input alone that it has taken: with any other input from which its events
/// can have been taken it is the same. It is a law, and does nothing.
pub fn only_taken_input_counts()
    ensures { (setting : Setting) (input other rest : List ℕ) (n : ℕ)
        → TakesFrom (source_after setting input n).trace other rest
        → source_after setting other n ≡ source_after setting input n }
{}

/// A program that is typed, and whose matches are covered, is never stuck: in each state of each of its runs the step finds
/// what it asks for. A row of a match is chosen, a variable is bound, a form has arguments of its types, and what it names is
/// there. It is a law, and does nothing.
pub fn typed_programs_are_never_stuck()
    ensures { (setting : Setting) (input : List ℕ) → IsGroundTyped setting.program → NeverStuck setting input }
{}

/// A program is run in exactly one way, for so many cells and such a depth: it has exactly one least set of owned positions.
/// It is a law, and does nothing.
pub fn programs_are_run_in_one_way()
    ensures some { (program : ProgramTree) (cells depth : ℕ) → (setting : Setting) × IsRun program cells depth setting }
    ensures one { (program : ProgramTree) (cells depth : ℕ) (one other : Setting)
        → IsRun program cells depth one → IsRun program cells depth other → one ≡ other }
{}
