//! The lines for the user: how a command ended, and what the run of a generated program took.
ghost use Rattle.std.specs.Prelude.{◌≡◌, ◌≤◌, length, option_map};
ghost use Rattle.kk_answer.specs.Line.{line_of, run_line, halt_line, steps_spent_line, stats_line, summary_line, trap_line, refusal_line, lex_line, lex_place_of, parse_line, parse_line_of, parse_column_of, name_line, name_spelled_of, name_place_of, limit_line, no_memory_line};
ghost use Rattle.kk_answer.specs.Pieces.{bytes_of, joined};
ghost use Rattle.kk_answer.specs.Puts.{Puts};

use crate::answer::{Answer, RunEnd};
use arrayvec::ArrayVec;
use itoa::Buffer;
use kk_base::{LexError, Limit, NameError, ParseError, Put, Refusal, Sink};
use rv_sim::Halt;

const USAGE: &str =
    "usage: kokarv check FILE, build FILE -o OUT, run FILE, sim IMAGE, eval FILE, bench SEED SIZE\n";

/// A part of a line.
#[derive(Clone, Copy)]
pub enum Piece<'a> {
    Text(&'a str),
    Bytes(&'a [u8]),
    /// A number, in decimal.
    Number(u64),
}

impl Default for Piece<'_> {
    fn default() -> Self {
        Piece::Number(0)
    }
}

/// A line, as its parts.
#[derive(Drop)]
pub struct Line<'a> {
    pieces: ArrayVec<Piece<'a>, 9>,
}

impl<'a> Line<'a> {
    /// The line of these parts.
    fn new(pieces: &[Piece<'a>]) -> Self
        requires { length pieces.now ≤ 9 }
        ensures { result.pieces.items ≡ pieces.now }
    {
        let mut line = ArrayVec::new();
        for piece in pieces {
            line.push(*piece);
        }
        Line { pieces: line }
    }

    /// The line that is this text.
    fn text(text: &'a str) -> Self
        ensures { joined result.pieces.items ≡ text.entry.now }
    {
        let mut pieces = ArrayVec::new();
        pieces.push(Piece::Text(text));
        Line { pieces }
    }

    /// Puts the line. False where a put failed, and only the beginning of the line was put.
    pub fn put<E: Sink>(&self, err: &mut E) -> bool
        ensures { Puts result (joined self.now.pieces.items) (E.state err.old) (E.state err.new) }
    {
        put_pieces(err, self.pieces.as_slice())
    }
}

impl Answer<'_> {
    /// The line that tells the answer; none where the command did its work and has nothing to tell.
    pub fn line(&self) -> Option<Line<'_>>
        ensures { option_map (λ line. joined line.pieces.items) result ≡ line_of self.now }
    {
        match self {
            Answer::Done => None,
            Answer::Usage => Some(Line::text(USAGE)),
            Answer::Refused(refusal) => Some(refusal_line(refusal)),
            Answer::NoMemory => Some(no_memory_line()),
            Answer::FileFault { name } => Some(Line::new(&[
                Piece::Text("file fault: "),
                Piece::Text(name),
                Piece::Text("\n"),
            ])),
            Answer::Ran {
                end,
                cells,
                depth,
                steps,
            } => run_line(*end, *cells, *depth, *steps),
            Answer::Measured {
                instructions,
                free,
                cells,
            } => Some(stats_line(*instructions, *free, *cells)),
            Answer::BadImage { condition } => Some(Line::new(&[
                Piece::Text("bad image: "),
                Piece::Number(u64::from(*condition)),
                Piece::Text("\n"),
            ])),
            Answer::Simulated { halt, steps } => halt_line(*halt, *steps),
        }
    }
}

fn no_memory_line<'a>() -> Line<'a>
    ensures { joined result.pieces.items ≡ no_memory_line }
{
    Line::text("no memory\n")
}

fn run_line<'a>(end: RunEnd, cells: u32, depth: u32, steps: u64) -> Option<Line<'a>>
    ensures { option_map (λ line. joined line.pieces.items) result ≡ run_line end cells depth steps }
{
    match end {
        RunEnd::Ended => None,
        RunEnd::HeapFull => Some(Line::new(&[
            Piece::Text("heap full: "),
            Piece::Number(u64::from(cells)),
            Piece::Text(" cells\n"),
        ])),
        RunEnd::StackFull => Some(Line::new(&[
            Piece::Text("stack full: "),
            Piece::Number(u64::from(depth)),
            Piece::Text(" calls\n"),
        ])),
        RunEnd::StepsSpent => Some(steps_spent_line(steps)),
        RunEnd::InputFault => Some(Line::text("input fault\n")),
        RunEnd::OutputFault => Some(Line::text("output fault\n")),
    }
}

fn halt_line<'a>(halt: Halt, steps: u64) -> Option<Line<'a>>
    ensures { option_map (λ line. joined line.pieces.items) result ≡ halt_line halt steps }
{
    match halt {
        Halt::Exit(0) => None,
        Halt::Exit(number) => Some(Line::new(&[
            Piece::Text("image exit: "),
            Piece::Number(u64::from(number)),
            Piece::Text("\n"),
        ])),
        Halt::StepsSpent => Some(steps_spent_line(steps)),
        Halt::Trap { cause, pc, word } => Some(trap_line(cause, pc, word)),
        Halt::InputFault => Some(Line::text("input fault\n")),
        Halt::OutputFault => Some(Line::text("output fault\n")),
    }
}

fn steps_spent_line<'a>(steps: u64) -> Line<'a>
    ensures { joined result.pieces.items ≡ steps_spent_line steps }
{
    Line::new(&[
        Piece::Text("steps spent: "),
        Piece::Number(steps),
        Piece::Text("\n"),
    ])
}

fn stats_line<'a>(instructions: u64, free: u32, cells: u32) -> Line<'a>
    ensures { joined result.pieces.items ≡ stats_line instructions free cells }
{
    Line::new(&[
        Piece::Text("stats: instructions "),
        Piece::Number(instructions),
        Piece::Text(" free "),
        Piece::Number(u64::from(free)),
        Piece::Text(" of "),
        Piece::Number(u64::from(cells)),
        Piece::Text("\n"),
    ])
}

/// Puts the line that tells what the run of a generated program took: the bytes of its text and of its image, the executed
/// instructions and the free cells. False where a put failed, and only the beginning of the line was put.
pub fn put_summary<O: Sink>(
    out: &mut O,
    source: u64,
    image: u64,
    instructions: u64,
    free: u32,
) -> bool
    ensures { Puts result (summary_line source image instructions free) (O.state out.old) (O.state out.new) }
{
    summary_line(source, image, instructions, free).put(out)
}

fn summary_line<'a>(source: u64, image: u64, instructions: u64, free: u32) -> Line<'a>
    ensures { joined result.pieces.items ≡ summary_line source image instructions free }
{
    Line::new(&[
        Piece::Text("source "),
        Piece::Number(source),
        Piece::Text(" image "),
        Piece::Number(image),
        Piece::Text(" instructions "),
        Piece::Number(instructions),
        Piece::Text(" free "),
        Piece::Number(u64::from(free)),
        Piece::Text("\n"),
    ])
}

fn trap_line<'a>(cause: u8, pc: u32, word: u32) -> Line<'a>
    ensures { joined result.pieces.items ≡ trap_line cause pc word }
{
    Line::new(&[
        Piece::Text("trap: cause "),
        Piece::Number(u64::from(cause)),
        Piece::Text(" pc "),
        Piece::Number(u64::from(pc)),
        Piece::Text(" word "),
        Piece::Number(u64::from(word)),
        Piece::Text("\n"),
    ])
}

fn refusal_line(refusal: &Refusal) -> Line<'_>
    ensures { joined result.pieces.items ≡ refusal_line refusal.now }
{
    match refusal {
        Refusal::Lex(error) => lex_line(error),
        Refusal::Parse(error) => parse_line(error),
        Refusal::Name(error) => name_line(error),
        Refusal::NotTyped { function } => Line::new(&[
            Piece::Text("refused: type in "),
            Piece::Text(function.as_str()),
            Piece::Text("\n"),
        ]),
        Refusal::NotCovered { function, example } => Line::new(&[
            Piece::Text("refused: not covered in "),
            Piece::Text(function.as_str()),
            Piece::Text(": "),
            Piece::Bytes(example.as_slice()),
            Piece::Text("\n"),
        ]),
        Refusal::Over(limit) => limit_line(*limit),
        Refusal::NoMemory => no_memory_line(),
    }
}

fn lex_line<'a>(error: &LexError) -> Line<'a>
    ensures { joined result.pieces.items ≡ lex_line error.now }
{
    let Some(number) = error.number() else {
        return no_memory_line();
    };
    Line::new(&[
        Piece::Text("refused: lex "),
        Piece::Number(u64::from(number)),
        Piece::Text(" at "),
        Piece::Number(u64::from(lex_place(error))),
        Piece::Text("\n"),
    ])
}

/// The byte of a lexeme that cannot be read; 0 for want of memory.
fn lex_place(error: &LexError) -> u32
    ensures { result ≡ lex_place_of error.now }
{
    match error {
        LexError::BadByte { at }
        | LexError::OpenComment { at }
        | LexError::OpenString { at }
        | LexError::NumberTooLarge { at }
        | LexError::StringTooLong { at } => *at,
        LexError::NoMemory => 0,
    }
}

fn parse_line<'a>(error: &ParseError) -> Line<'a>
    ensures { joined result.pieces.items ≡ parse_line error.now }
{
    let Some(number) = error.number() else {
        return no_memory_line();
    };
    let (line, column) = parse_place(error);
    Line::new(&[
        Piece::Text("refused: parse "),
        Piece::Number(u64::from(number)),
        Piece::Text(" at line "),
        Piece::Number(u64::from(line)),
        Piece::Text(" column "),
        Piece::Number(u64::from(column)),
        Piece::Text("\n"),
    ])
}

/// The line and the column of the token that fits no program; 0 for want of memory.
fn parse_place(error: &ParseError) -> (u32, u32)
    ensures line { result.0 ≡ parse_line_of error.now }
    ensures column { result.1 ≡ parse_column_of error.now }
{
    match error {
        ParseError::Unexpected { line, column, .. } | ParseError::TooDeep { line, column, .. } => {
            (*line, *column)
        }
        ParseError::NoMemory => (0, 0),
    }
}

fn name_line(error: &NameError) -> Line<'_>
    ensures { joined result.pieces.items ≡ name_line error.now }
{
    let Some(number) = error.number() else {
        return no_memory_line();
    };
    let (name, at) = name_place(error);
    Line::new(&[
        Piece::Text("refused: name "),
        Piece::Number(u64::from(number)),
        Piece::Text(" "),
        Piece::Text(name),
        Piece::Text(" at "),
        Piece::Number(u64::from(at)),
        Piece::Text("\n"),
    ])
}

/// The name that does not resolve, and its byte; no name for want of memory.
fn name_place(error: &NameError) -> (&str, u32)
    ensures name { result.0.now ≡ name_spelled_of error.now }
    ensures at { result.1 ≡ name_place_of error.now }
{
    match error {
        NameError::Twice { name, at }
        | NameError::Unknown { name, at }
        | NameError::Arity { name, at }
        | NameError::NoMain { name, at }
        | NameError::MainShape { name, at } => (name.as_str(), *at),
        NameError::NoMemory => ("", 0),
    }
}

fn limit_line<'a>(limit: Limit) -> Line<'a>
    ensures { joined result.pieces.items ≡ limit_line limit }
{
    Line::new(&[
        Piece::Text("limit: "),
        Piece::Text(limit.kind.word()),
        Piece::Text(" "),
        Piece::Number(limit.count),
        Piece::Text("\n"),
    ])
}

/// Puts the parts of a line in order, up to the first put that fails.
fn put_pieces<E: Sink>(err: &mut E, pieces: &[Piece<'_>]) -> bool
    ensures { Puts result (joined pieces.now) (E.state err.old) (E.state err.new) }
{
    for piece in pieces {
        if !put_piece(err, piece) {
            return false;
        }
    }
    true
}

fn put_piece<E: Sink>(err: &mut E, piece: &Piece<'_>) -> bool
    ensures { Puts result (bytes_of piece.now) (E.state err.old) (E.state err.new) }
{
    match piece {
        Piece::Text(text) => put_bytes(err, text.as_bytes()),
        Piece::Bytes(bytes) => put_bytes(err, bytes),
        Piece::Number(number) => put_bytes(err, Buffer::new().format(*number).as_bytes()),
    }
}

fn put_bytes<E: Sink>(err: &mut E, bytes: &[u8]) -> bool
    ensures { Puts result bytes.now (E.state err.old) (E.state err.new) }
{
    match err.put(bytes) {
        Put::All => true,
        Put::Failed(_) => false,
    }
}
