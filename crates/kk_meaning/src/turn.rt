ghost use Rattle.std.specs.Prelude.{◌≡◌};
ghost use Rattle.kk_meaning.specs.Turns.{print_turn};

use kk_base::Text;

/// What a step was seen to do.
#[derive(Drop)]
pub enum Turn {
    /// Nothing.
    Went,
    /// It put a piece on the output, which is not empty.
    Printed(Text),
    /// There was no step, since the next one takes a byte of the input: `Meaning::give` is that step.
    WantsInput,
    /// The program has ended.
    Ended,
    /// The program has stopped at a construction that finds the heap full.
    HeapFull,
    /// The program has stopped at a call that finds the stack full.
    StackFull,
}

impl Turn {
    /// A print of these bytes. No bytes are not put.
    pub fn of_print(piece: Text) -> Self
        ensures { result ≡ print_turn piece }
    {
        if piece.is_empty() {
            Turn::Went
        } else {
            Turn::Printed(piece)
        }
    }
}
