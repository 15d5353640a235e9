//! The command `bench`: what the run of a generated program takes.
ghost use Rattle.std.specs.Prelude.{◌≡◌, length};
ghost use Rattle.kk_base.specs.Store.{StoreState};
ghost use Rattle.kk_build.specs.SourceMeaning.{exit_of};
ghost use Rattle.kk_build.specs.ImageAfter.{ExitsWell};
ghost use Rattle.kk_command.specs.Requests.{bench};
ghost use Rattle.kk_perform.specs.Answers.{Answers, told_end};
ghost use Rattle.kk_perform.specs.Internal.{AnswersBench};
ghost use Rattle.kk_perform.specs.Outside.{outside};
ghost use Rattle.rv_sim.specs.Devices.{ending_at};

use crate::perform::{Stopped, refusal_answer, run_built, run_end, tells_statistics};
use kk_answer::{Answer, RunEnd, put_summary};
use kk_base::{Bytes, NoMemory, Sink, Source};
use kk_build::build;
use kk_command::{Generation, Sizes};
use kk_gen::program;
use std::alloc::Global;

/// Builds the image of a generated program and runs it. Where the program ends by itself, the line that tells what its run
/// took is put behind its output.
pub fn bench_program<'a, I: Source, O: Sink>(
    alloc: Global,
    generation: Generation,
    sizes: Sizes,
    steps: u64,
    input: &mut I,
    out: &mut O,
    image: &mut Bytes,
) -> Answer<'a>
    ensures { (files : StoreState) → Answers
        (outside files (I.state input.old) (O.state out.old) image.old) (outside files (I.state input.new) (O.state out.new) image.new)
        (Some (bench generation.seed generation.size sizes.cells sizes.depth steps)) result }
{
    let text = match program(alloc, generation.seed, generation.size) {
        Ok(text) => text,
        Err(NoMemory) => return Answer::NoMemory,
    };
    match build(alloc, text.as_slice(), sizes.cells, sizes.depth) {
        Ok(bytes) => *image = bytes,
        Err(refusal) => return refusal_answer(refusal),
    }
    match run_built(alloc, image.as_slice(), steps, input, out) {
        Ok(stopped) => {
            let source = text.as_slice().len() as u64;
            let length = image.as_slice().len() as u64;
            bench_answer(&stopped, sizes, steps, source, length, out)
        }
        Err(NoMemory) => Answer::NoMemory,
    }
}

/// The answer to a run of a generated program, by what became of its image.
fn bench_answer<'a, O: Sink>(
    stopped: &Stopped,
    sizes: Sizes,
    steps: u64,
    source: u64,
    image: u64,
    out: &mut O,
) -> Answer<'a>
    requires { ExitsWell exit_of (ending_at stopped.now.halt) }
    ensures { AnswersBench stopped.now.halt stopped.now.machine sizes.cells sizes.depth steps source image
        (O.state out.old) (O.state out.new) result }
{
    let end = run_end(stopped.halt);
    let cells = sizes.cells;
    let depth = sizes.depth;
    let is_measured = tells_statistics(true, end);
    if is_measured {
        let instructions = stopped.machine.executed();
        let free = stopped.machine.free_cells(cells);
        let is_told = put_summary(out, source, image, instructions, free);
        Answer::Ran {
            end: told_end(is_told),
            cells,
            depth,
            steps,
        }
    } else {
        Answer::Ran {
            end,
            cells,
            depth,
            steps,
        }
    }
}

/// How a run ends whose program ended by itself, by whether its line was put.
fn told_end(is_told: bool) -> RunEnd
    ensures { result ≡ told_end is_told }
{
    if is_told {
        RunEnd::Ended
    } else {
        RunEnd::OutputFault
    }
}
