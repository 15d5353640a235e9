ghost use Rattle.std.specs.Prelude.{◌≡◌};
ghost use Rattle.kk_front.specs.Judgement.{wants_memory};
ghost use Rattle.kk_answer.specs.Answer.{fault_status, refusal_status, run_status, halt_status, status_of};
ghost use Rattle.kk_answer.specs.Ending.{EndsWith};

use kk_base::{LexError, NameError, ParseError, Refusal, Sink, Status};
use rv_sim::Halt;

/// How a command came to its end, with all that its line tells.
#[derive(Drop)]
pub enum Answer<'a> {
    /// The command did its work.
    Done,
    /// The words are no command.
    Usage,
    /// The text is not accepted.
    Refused(Refusal),
    /// Memory was refused.
    NoMemory,
    /// The file of this name could not be read or written.
    FileFault {
        name: &'a str,
    },
    /// The image, with so many cells and such a depth, was run for at most so many instructions, or the program by its
    /// definition for at most so many steps, and the run ended so.
    Ran {
        end: RunEnd,
        cells: u32,
        depth: u32,
        steps: u64,
    },
    /// The program ended by itself, after so many instructions of its image, and so many of its cells are free.
    Measured {
        instructions: u64,
        free: u32,
        cells: u32,
    },
    /// The file is no image that can be loaded: the first condition that it fails has this number.
    BadImage {
        condition: u8,
    },
    /// The image in the file was run for at most so many instructions, and stopped so.
    Simulated {
        halt: Halt,
        steps: u64,
    },
}

/// How the run of a program ended.
#[derive(Clone, Copy)]
pub enum RunEnd {
    /// The program ended by itself.
    Ended,
    /// The program ended at a construction that found the heap full.
    HeapFull,
    /// The program ended at a call that found the stack full.
    StackFull,
    /// All instructions or steps of the budget were made, and the program has not ended.
    StepsSpent,
    /// Reading the input failed.
    InputFault,
    /// Writing the output failed.
    OutputFault,
}

impl Answer<'_> {
    /// The status that the answer ends the command with.
    pub fn status(&self) -> Status
        ensures { result ≡ status_of self.now }
    {
        match self {
            Answer::Done => Status::Done,
            Answer::Usage => Status::Usage,
            Answer::Refused(refusal) => refusal_status(refusal),
            Answer::NoMemory => Status::NoMemory,
            Answer::FileFault { .. } => Status::FileFault,
            Answer::Ran { end, .. } => end.status(),
            Answer::Measured { .. } => Status::Done,
            Answer::BadImage { .. } => Status::BadImage,
            Answer::Simulated { halt, .. } => halt_status(*halt),
        }
    }
}

impl RunEnd {
    /// The status of a run that ended so.
    pub fn status(self) -> Status
        ensures { result ≡ run_status self }
    {
        match self {
            RunEnd::Ended => Status::Done,
            RunEnd::HeapFull => Status::HeapFull,
            RunEnd::StackFull => Status::StackFull,
            RunEnd::StepsSpent => Status::StepsSpent,
            RunEnd::InputFault => Status::InputFault,
            RunEnd::OutputFault => Status::OutputFault,
        }
    }
}

/// The status of a run of an image that stopped so.
fn halt_status(halt: Halt) -> Status
    ensures { result ≡ halt_status halt }
{
    match halt {
        Halt::Exit(0) => Status::Done,
        Halt::Exit(_) => Status::ImageExit,
        Halt::StepsSpent => Status::StepsSpent,
        Halt::Trap { .. } => Status::Trap,
        Halt::InputFault => Status::InputFault,
        Halt::OutputFault => Status::OutputFault,
    }
}

/// Whether a text was not judged, since memory was refused.
pub fn wants_memory(refusal: &Refusal) -> bool
    ensures { result ≡ wants_memory refusal.now }
{
    matches!(
        refusal,
        Refusal::NoMemory
            | Refusal::Lex(LexError::NoMemory)
            | Refusal::Parse(ParseError::NoMemory)
            | Refusal::Name(NameError::NoMemory)
    )
}

fn refusal_status(refusal: &Refusal) -> Status
    ensures { result ≡ refusal_status refusal.now }
{
    if wants_memory(refusal) {
        Status::NoMemory
    } else {
        fault_status(refusal)
    }
}

fn fault_status(refusal: &Refusal) -> Status
    ensures { result ≡ fault_status refusal.now }
{
    match refusal {
        Refusal::Over(_) => Status::Limit,
        _ => Status::Refused,
    }
}

/// Puts the line of an answer, and gives the status that the command ends with.
pub fn end_with<E: Sink>(answer: &Answer<'_>, err: &mut E) -> Status
    ensures { EndsWith answer.now result (E.state err.old) (E.state err.new) }
{
    let is_told = match answer.line() {
        Some(line) => line.put(err),
        None => true,
    };
    if is_told {
        answer.status()
    } else {
        Status::OutputFault
    }
}
