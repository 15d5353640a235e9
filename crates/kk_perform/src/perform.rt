//! What the commands do.
ghost use Rattle.std.specs.Prelude.{◌≡◌, ℕ, List, true, Some, None, IfOk, IfErr, OnOk, OnErr};
ghost use Rattle.elf_image.specs.Loaded.{IsLoaded, reason_of};
ghost use Rattle.elf_image.specs.Reasons.{reason_number_of};
ghost use Rattle.kk_base.specs.Sink.{SinkState};
ghost use Rattle.kk_base.specs.Source.{SourceState};
ghost use Rattle.kk_build.specs.SourceMeaning.{exit_of};
ghost use Rattle.kk_build.specs.ImageAfter.{exited, ExitsWell};
ghost use Rattle.kk_syntax.specs.Programs.{program_tree};
ghost use Rattle.rv_sim.specs.Devices.{ending_at};
ghost use Rattle.rv_sim.specs.declared.halt.Halt.TheVariants.{Exit};
ghost use Rattle.kk_perform.specs.Answers.{Answers, BeginsFile, HasText, HasImage, IsImageOfFile, tells_statistics};
ghost use Rattle.kk_eval.specs.EvaluationStates.{HasRun};
ghost use Rattle.kk_perform.specs.Internal.{answer_of_refusal, answer_of_condition, builds, AnswersRun, HasStopped};
ghost use Rattle.kk_command.specs.Requests.{Request, check, build, run, sim, eval, file_of};
ghost use Rattle.kk_command.specs.Commands.{request_read};
ghost use Rattle.kk_perform.specs.SourceRuns.{halt_for};
ghost use Rattle.kk_perform.specs.Outside.{KeepsFiles, outside};

use crate::bench::bench_program;
use elf_image::{BadImage, GREATEST_FILE, Image};
use kk_answer::{Answer, RunEnd, wants_memory};
use kk_base::{Bytes, LimitKind, NoMemory, Read, Refusal, Sink, Source, Store, Wrote};
use kk_build::{Ending, build};
use kk_command::{Command, RunOptions, Sizes};
use kk_eval::evaluate;
use kk_front::read;
use kk_meaning::Meaning;
use kk_syntax::Accepted;
use rv_sim::{Halt, Machine};
use std::alloc::Global;

/// How many bytes of an image are read: one more than it may have.
const MOST_OF_IMAGE: usize = GREATEST_FILE + 1;

/// An image that was run.
#[derive(Drop)]
pub struct Stopped {
    /// The machine as the run left it.
    pub machine: Machine,
    /// Why it stopped.
    pub halt: Halt,
}

/// Does a command.
pub fn perform<'a, F: Store, I: Source, O: Sink>(
    alloc: Global,
    command: Command<'a>,
    files: &mut F,
    input: &mut I,
    out: &mut O,
    image: &mut Bytes,
) -> Answer<'a>
    ensures { Answers (outside (F.state files.old) (I.state input.old) (O.state out.old) image.old) (outside (F.state files.new) (I.state input.new) (O.state out.new) image.new) (Some (request_read command.entry)) result }
{
    match command {
        Command::Check { file } => check_file(alloc, file, files),
        Command::Build { file, out, sizes } => build_file(alloc, file, out, sizes, files, image),
        Command::Run { file, options } => run_file(alloc, file, options, files, input, out, image),
        Command::Sim { image: file, steps } => {
            simulate_file(alloc, file, steps, files, input, out, image)
        }
        Command::Eval { file, sizes, steps } => {
            evaluate_file(alloc, file, sizes, steps, files, input, out)
        }
        Command::Bench {
            generation,
            sizes,
            steps,
        } => bench_program(alloc, generation, sizes, steps, input, out, image),
    }
}

/// Judges the text in a file.
fn check_file<'a, F: Store>(alloc: Global, file: &'a str, files: &mut F) -> Answer<'a>
    ensures { (input : SourceState) (out : SinkState) (image : List ℕ) → Answers (outside (F.state files.old) input out image) (outside (F.state files.new) input out image) (Some (check file.now)) result }
{
    let text = match read_text(alloc, file, files) {
        Ok(text) => text,
        Err(answer) => return answer,
    };
    match read(alloc, text.as_slice()) {
        Ok(_) => Answer::Done,
        Err(refusal) => refusal_answer(refusal),
    }
}

/// Builds the image of the text in a file, and writes it to another.
fn build_file<'a, F: Store>(
    alloc: Global,
    file: &'a str,
    out: &'a str,
    sizes: Sizes,
    files: &mut F,
    image: &mut Bytes,
) -> Answer<'a>
    ensures { (input : SourceState) (output : SinkState) → Answers (outside (F.state files.old) input output image.old) (outside (F.state files.new) input output image.new) (Some (build file.now out.now sizes.cells sizes.depth)) result }
{
    match build_image(alloc, file, sizes, files, image) {
        Ok(()) => match files.write(out, image.as_slice()) {
            Wrote::Done => Answer::Done,
            Wrote::Failed => Answer::FileFault { name: out },
            Wrote::NoMemory => Answer::NoMemory,
        },
        Err(answer) => answer,
    }
}

/// Builds the image of the text in a file, and runs it.
fn run_file<'a, F: Store, I: Source, O: Sink>(
    alloc: Global,
    file: &'a str,
    options: RunOptions,
    files: &mut F,
    input: &mut I,
    out: &mut O,
    image: &mut Bytes,
) -> Answer<'a>
    ensures { Answers (outside (F.state files.old) (I.state input.old) (O.state out.old) image.old) (outside (F.state files.new) (I.state input.new) (O.state out.new) image.new) (Some (run file.now options.sizes.cells options.sizes.depth options.steps options.stats)) result }
{
    match build_image(alloc, file, options.sizes, files, image) {
        Ok(()) => match run_built(alloc, image.as_slice(), options.steps, input, out) {
            Ok(stopped) => run_answer(&stopped, options),
            Err(NoMemory) => Answer::NoMemory,
        },
        Err(answer) => answer,
    }
}

/// Runs the image in a file.
fn simulate_file<'a, F: Store, I: Source, O: Sink>(
    alloc: Global,
    file: &'a str,
    steps: u64,
    files: &mut F,
    input: &mut I,
    out: &mut O,
    image: &mut Bytes,
) -> Answer<'a>
    ensures { Answers (outside (F.state files.old) (I.state input.old) (O.state out.old) image.old) (outside (F.state files.new) (I.state input.new) (O.state out.new) image.new) (Some (sim file.now steps)) result }
{
    let bytes = match read_image(alloc, file, files) {
        Ok(bytes) => bytes,
        Err(answer) => return answer,
    };
    *image = bytes;
    let loaded = match elf_image::read(alloc, image.as_slice()) {
        Ok(loaded) => loaded,
        Err(error) => return bad_image_answer(&error),
    };
    match run_image(alloc, &loaded, steps, input, out) {
        Ok(stopped) => Answer::Simulated {
            halt: stopped.halt,
            steps,
        },
        Err(NoMemory) => Answer::NoMemory,
    }
}

/// Runs the text in a file by its definition.
fn evaluate_file<'a, F: Store, I: Source, O: Sink>(
    alloc: Global,
    file: &'a str,
    sizes: Sizes,
    steps: u64,
    files: &mut F,
    input: &mut I,
    out: &mut O,
) -> Answer<'a>
    ensures { (image : List ℕ) → Answers (outside (F.state files.old) (I.state input.old) (O.state out.old) image) (outside (F.state files.new) (I.state input.new) (O.state out.new) image) (Some (eval file.now sizes.cells sizes.depth steps)) result }
{
    let text = match read_text(alloc, file, files) {
        Ok(text) => text,
        Err(answer) => return answer,
    };
    let accepted = match read(alloc, text.as_slice()) {
        Ok(accepted) => accepted,
        Err(refusal) => return refusal_answer(refusal),
    };
    match run_accepted(alloc, &accepted, sizes, steps, input, out) {
        Ok(end) => Answer::Ran {
            end,
            cells: sizes.cells,
            depth: sizes.depth,
            steps,
        },
        Err(NoMemory) => Answer::NoMemory,
    }
}

/// Runs an accepted program by its definition, for at most so many steps.
fn run_accepted<I: Source, O: Sink>(
    alloc: Global,
    accepted: &Accepted,
    sizes: Sizes,
    steps: u64,
    input: &mut I,
    out: &mut O,
) -> Result<RunEnd, NoMemory>
    ensures { HasRun (program_tree accepted.now.typed.program) sizes.cells sizes.depth steps result (I.state input.old) (I.state input.new) (O.state out.old) (O.state out.new) }
{
    let mut meaning = Meaning::start(alloc, accepted, sizes.cells, sizes.depth)?;
    evaluate(&mut meaning, steps, input, out)
}

/// The text in a file, of which no more is read than tells whether it is too long; or the answer where it cannot be had.
fn read_text<'a, F: Store>(alloc: Global, file: &'a str, files: &mut F) -> Result<Bytes, Answer<'a>>
    ensures text { IfOk result (λ text. HasText file.now text (F.state files.old)) }
    ensures kept { OnOk result (KeepsFiles (F.state files.old) (F.state files.new)) }
    ensures err { IfErr result (λ answer. (input : SourceState) (out : SinkState) (image : List ℕ) (request : Request) → file_of request ≡ Some file.now → Answers (outside (F.state files.old) input out image) (outside (F.state files.new) input out image) (Some request) answer) }
{
    let most_of_text = LimitKind::Source.greatest() as usize + 1;
    read_first(alloc, file, most_of_text, files)
}

/// The bytes of the image in a file, of which no more are read than tell whether they are too many; or the answer where they
/// cannot be had.
fn read_image<'a, F: Store>(
    alloc: Global,
    file: &'a str,
    files: &mut F,
) -> Result<Bytes, Answer<'a>>
    ensures image { IfOk result (λ image. HasImage file.now image (F.state files.old)) }
    ensures kept { OnOk result (KeepsFiles (F.state files.old) (F.state files.new)) }
    ensures err { IfErr result (λ answer. (input : SourceState) (out : SinkState) (image : List ℕ) (request : Request) → file_of request ≡ Some file.now → Answers (outside (F.state files.old) input out image) (outside (F.state files.new) input out image) (Some request) answer) }
{
    read_first(alloc, file, MOST_OF_IMAGE, files)
}

/// The first `at_most` bytes of a file; or the answer where they cannot be had.
fn read_first<'a, F: Store>(
    alloc: Global,
    file: &'a str,
    at_most: usize,
    files: &mut F,
) -> Result<Bytes, Answer<'a>>
    ensures first { IfOk result (λ bytes. BeginsFile at_most file.now bytes (F.state files.old)) }
    ensures kept { OnOk result (KeepsFiles (F.state files.old) (F.state files.new)) }
    ensures err { IfErr result (λ answer. (input : SourceState) (out : SinkState) (image : List ℕ) (request : Request) → file_of request ≡ Some file.now → Answers (outside (F.state files.old) input out image) (outside (F.state files.new) input out image) (Some request) answer) }
{
    match files.read(alloc, file, at_most) {
        Read::Bytes(bytes) => Ok(bytes),
        Read::Failed => Err(Answer::FileFault { name: file }),
        Read::NoMemory => Err(Answer::NoMemory),
    }
}

/// Makes `image` the image of the text in a file, or gives the answer where there is none.
fn build_image<'a, F: Store>(
    alloc: Global,
    file: &'a str,
    sizes: Sizes,
    files: &mut F,
    image: &mut Bytes,
) -> Result<(), Answer<'a>>
    ensures built { OnOk result (IsImageOfFile file.now sizes.cells sizes.depth (F.state files.old) image.new) }
    ensures kept { OnOk result (KeepsFiles (F.state files.old) (F.state files.new)) }
    ensures err { IfErr result (λ answer. (input : SourceState) (out : SinkState) (request : Request) → builds request ≡ true → file_of request ≡ Some file.now → Answers (outside (F.state files.old) input out image.old) (outside (F.state files.new) input out image.new) (Some request) answer) }
{
    let text = match read_text(alloc, file, files) {
        Ok(text) => text,
        Err(answer) => return Err(answer),
    };
    match build(alloc, text.as_slice(), sizes.cells, sizes.depth) {
        Ok(bytes) => {
            *image = bytes;
            Ok(())
        }
        Err(refusal) => Err(refusal_answer(refusal)),
    }
}

/// The answer to a text that is refused, or that was not judged for want of memory.
pub fn refusal_answer<'a>(refusal: Refusal) -> Answer<'a>
    ensures { result ≡ answer_of_refusal refusal }
{
    if wants_memory(&refusal) {
        Answer::NoMemory
    } else {
        Answer::Refused(refusal)
    }
}

/// The answer to a file that is no image, or that was not judged for want of memory.
fn bad_image_answer<'a>(error: &BadImage) -> Answer<'a>
    ensures { result ≡ answer_of_condition (reason_number_of error.now) }
{
    match error.number() {
        Some(condition) => Answer::BadImage { condition },
        None => Answer::NoMemory,
    }
}

/// Runs the image that a file loads, for at most so many instructions.
pub fn run_built<I: Source, O: Sink>(
    alloc: Global,
    file: &[u8],
    steps: u64,
    input: &mut I,
    out: &mut O,
) -> Result<Stopped, NoMemory>
    requires { reason_of file.now ≡ None }
    ensures ran { IfOk result (λ stopped. HasStopped file.now steps stopped.halt stopped.machine (I.state input.old) (I.state input.new) (O.state out.old) (O.state out.new)) }
    ensures input_kept { OnErr result (I.state input.new ≡ I.state input.old) }
    ensures out_kept { OnErr result (O.state out.new ≡ O.state out.old) }
{
    match elf_image::read(alloc, file) {
        Ok(image) => run_image(alloc, &image, steps, input, out),
        Err(BadImage::NoMemory) => Err(NoMemory),
        Err(_) => unreachable!(),
    }
}

/// Loads an image, and runs it for at most so many instructions.
fn run_image<I: Source, O: Sink>(
    alloc: Global,
    image: &Image,
    steps: u64,
    input: &mut I,
    out: &mut O,
) -> Result<Stopped, NoMemory>
    ensures ran { IfOk result (λ stopped. (file : List ℕ) → IsLoaded file image.now.entry image.now.parts → HasStopped file steps stopped.halt stopped.machine (I.state input.old) (I.state input.new) (O.state out.old) (O.state out.new)) }
    ensures input_kept { OnErr result (I.state input.new ≡ I.state input.old) }
    ensures out_kept { OnErr result (O.state out.new ≡ O.state out.old) }
{
    let mut machine = Machine::load(alloc, image)?;
    let halt = machine.run(steps, input, out);
    Ok(Stopped { machine, halt })
}

/// The answer to a run of a program, by what became of its image.
fn run_answer<'a>(stopped: &Stopped, options: RunOptions) -> Answer<'a>
    requires { ExitsWell exit_of (ending_at stopped.now.halt) }
    ensures { AnswersRun stopped.now.halt stopped.now.machine options.sizes.cells options.sizes.depth options.steps options.stats result }
{
    let end = run_end(stopped.halt);
    let cells = options.sizes.cells;
    let is_measured = tells_statistics(options.stats, end);
    if is_measured {
        Answer::Measured {
            instructions: stopped.machine.executed(),
            free: stopped.machine.free_cells(cells),
            cells,
        }
    } else {
        Answer::Ran {
            end,
            cells,
            depth: options.sizes.depth,
            steps: options.steps,
        }
    }
}

/// Whether the statistics of a run that ended so are told.
pub fn tells_statistics(stats: bool, end: RunEnd) -> bool
    ensures { result ≡ tells_statistics stats end }
{
    match end {
        RunEnd::Ended => stats,
        _ => false,
    }
}

/// How a run ended, by why the image stopped.
pub fn run_end(halt: Halt) -> RunEnd
    requires { ExitsWell exit_of (ending_at halt) }
    ensures { halt_for result ≡ halt }
{
    match halt {
        Halt::Exit(number) => program_end(u32::from(number)),
        Halt::StepsSpent => RunEnd::StepsSpent,
        Halt::Trap { .. } => unreachable!(),
        Halt::InputFault => RunEnd::InputFault,
        Halt::OutputFault => RunEnd::OutputFault,
    }
}

/// How the program ended, by the number that its image exited with.
fn program_end(number: u32) -> RunEnd
    requires { ExitsWell exit_of (exited number) }
    ensures { halt_for result ≡ Exit number }
{
    if number == Ending::Ended.number() {
        RunEnd::Ended
    } else if number == Ending::HeapFull.number() {
        RunEnd::HeapFull
    } else {
        RunEnd::StackFull
    }
}
