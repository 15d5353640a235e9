//! The run of a program by its definition: the store machine over the devices.
ghost use Rattle.std.specs.Prelude.{◌≡◌, Some, None};
ghost use Rattle.kk_base.specs.Faults.{Rises};
ghost use Rattle.kk_meaning.specs.Machines.{setting_of, configuration_of};
ghost use Rattle.kk_meaning.specs.Turns.{TakesByte};
ghost use Rattle.kk_source.specs.State.{end_at};
ghost use Rattle.kk_source.specs.Step.{step_of};
ghost use Rattle.kk_eval.specs.EvaluationStates.{HasEvaluated, HasTurned, HasPrinted, HasRead, asks_input, asks_output, outcome_of};

use kk_answer::RunEnd;
use kk_base::{Next, NoMemory, Put, Sink, Source};
use kk_meaning::{Meaning, Turn};

/// Makes at most so many steps, with the bytes of the source and the pieces of the sink.
pub fn evaluate<I: Source, O: Sink>(
    meaning: &mut Meaning<'_>,
    steps: u64,
    input: &mut I,
    out: &mut O,
) -> Result<RunEnd, NoMemory>
    requires going { end_at (configuration_of meaning.old.machine).control ≡ None }
    ensures input_faults { Rises (asks_input result) (I.state input.old).faults (I.state input.new).faults }
    ensures output_faults { Rises (asks_output result) (O.state out.old).faults (O.state out.new).faults }
    ensures ran { HasEvaluated (setting_of meaning.old.machine) steps result (configuration_of meaning.old.machine)
        (I.state input.old) (I.state input.new) (O.state out.old) (O.state out.new) }
{
    let mut left = steps;
    while left > 0 {
        match turn(meaning, input, out)? {
            None => left -= 1,
            Some(end) => return Ok(end),
        }
    }
    Ok(RunEnd::StepsSpent)
}

/// Makes a step. Answers how the run ends there, if it does.
fn turn<I: Source, O: Sink>(
    meaning: &mut Meaning<'_>,
    input: &mut I,
    out: &mut O,
) -> Result<Option<RunEnd>, NoMemory>
    requires going { end_at (configuration_of meaning.old.machine).control ≡ None }
    ensures setting { setting_of meaning.new.machine ≡ setting_of meaning.old.machine }
    ensures input_faults { Rises (asks_input (outcome_of result)) (I.state input.old).faults (I.state input.new).faults }
    ensures output_faults { Rises (asks_output (outcome_of result)) (O.state out.old).faults (O.state out.new).faults }
    ensures ran { HasTurned (setting_of meaning.old.machine) result (configuration_of meaning.old.machine) (configuration_of meaning.new.machine)
        (I.state input.old) (I.state input.new) (O.state out.old) (O.state out.new) }
{
    match meaning.step()? {
        Turn::Went => Ok(None),
        Turn::Printed(piece) => Ok(print(piece.as_slice(), out)),
        Turn::WantsInput => Ok(read(meaning, input)),
        Turn::Ended => Ok(Some(RunEnd::Ended)),
        Turn::HeapFull => Ok(Some(RunEnd::HeapFull)),
        Turn::StackFull => Ok(Some(RunEnd::StackFull)),
    }
}

/// Puts a piece that was printed. Answers how the run ends there, if it does.
fn print<O: Sink>(piece: &[u8], out: &mut O) -> Option<RunEnd>
    ensures { HasPrinted piece.now result (O.state out.old) (O.state out.new) }
{
    match out.put(piece) {
        Put::All => None,
        Put::Failed(_) => Some(RunEnd::OutputFault),
    }
}

/// Makes the step that takes a byte of the input. Answers how the run ends there, if it does.
fn read<I: Source>(meaning: &mut Meaning<'_>, input: &mut I) -> Option<RunEnd>
    requires going { end_at (configuration_of meaning.old.machine).control ≡ None }
    requires wanted { TakesByte (step_of (setting_of meaning.old.machine) (configuration_of meaning.old.machine)) }
    ensures setting { setting_of meaning.new.machine ≡ setting_of meaning.old.machine }
    ensures read { HasRead (setting_of meaning.old.machine) result (configuration_of meaning.old.machine) (configuration_of meaning.new.machine)
        (I.state input.old) (I.state input.new) }
{
    match input.next() {
        Next::Byte(byte) => {
            meaning.give(Some(byte));
            None
        }
        Next::End => {
            meaning.give(None);
            None
        }
        Next::Failed => Some(RunEnd::InputFault),
    }
}
