ghost use Rattle.std.specs.Prelude.{◌≡◌};
ghost use Rattle.kk_base.specs.Numbers.{status_number_of};

/// How a command ended.
#[derive(Clone, Copy, Debug)]
pub enum Status {
    /// The command did its work.
    Done,
    /// The image that was run exited with a number other than 0.
    ImageExit,
    /// The words are no command.
    Usage,
    /// The text is no well typed program.
    Refused,
    /// A counted quantity of the text passes its greatest number.
    Limit,
    /// Memory was refused.
    NoMemory,
    /// A file could not be read or written.
    FileFault,
    /// Reading the input failed.
    InputFault,
    /// Writing the output, or a line for the user, failed.
    OutputFault,
    /// The file is no image.
    BadImage,
    /// The program's live cells fill the heap.
    HeapFull,
    /// The program's calls pass the depth.
    StackFull,
    /// The budget of steps was spent before the end.
    StepsSpent,
    /// The image did what the machine does not allow.
    Trap,
}

impl Status {
    /// The exit status of the process.
    pub fn number(self) -> u8
        ensures { result ≡ status_number_of self }
    {
        match self {
            Status::Done => 0,
            Status::ImageExit => 1,
            Status::Usage => 2,
            Status::Refused => 3,
            Status::Limit => 4,
            Status::NoMemory => 5,
            Status::FileFault => 6,
            Status::InputFault => 7,
            Status::OutputFault => 8,
            Status::BadImage => 9,
            Status::HeapFull => 10,
            Status::StackFull => 11,
            Status::StepsSpent => 12,
            Status::Trap => 13,
        }
    }
}
