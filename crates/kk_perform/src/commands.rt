ghost use Rattle.std.specs.Prelude.{◌≡◌, false, map, string_bytes};
ghost use Rattle.kk_perform.specs.Answers.{Answers, Ends, Faultless, is_fault_status};
ghost use Rattle.kk_perform.specs.Outside.{outside};
ghost use Rattle.kk_command.specs.Requests.{request_of};

use crate::perform::perform;
use kk_answer::{Answer, end_with};
use kk_base::{Bytes, NoMemory, Sink, Source, Status, Store};
use kk_command::command_in;
use std::alloc::Global;

/// Does the command that `words` are, over the devices of the outside, and tells how it ended: by its status, and by a
/// line on `err` where the answer has one: where the status is not `Done`, and for `run --stats`.
///
/// The first word is the program's name. At the return `image` holds the bytes of the image that this call built (`build`,
/// `run`, `bench`) or read (`sim`); it is as before where the call came to none. What `run`, `bench` and `sim` load and run,
/// for at most `--steps` instructions, are these bytes.
///
/// `sim` ends with `ImageExit`, `Trap`, `StepsSpent` or `Done` exactly as the image does by the table of instructions, and
/// with `BadImage` exactly where its bytes fail a condition on images. No memory is wanted once an image is loaded.
///
/// `eval` ends with `Done`, `HeapFull`, `StackFull` or `StepsSpent` exactly as the program does by the definition of the
/// language, within `--steps` of its steps. It wants memory as it goes: where there is none, it ends with `NoMemory`.
///
/// `bench` runs the image of a generated program as `run` does. Where the program ends by itself, it puts a line on `out`
/// behind the program's output, and ends with `OutputFault` where that fails.
pub fn kokarv<F: Store, I: Source, O: Sink, E: Sink>(
    alloc: Global,
    words: &[String],
    files: &mut F,
    input: &mut I,
    out: &mut O,
    err: &mut E,
    image: &mut Bytes,
) -> Status
    ensures ends { Ends (request_of (map string_bytes words.now)) result
        (record { files = F.state files.old; input = I.state input.old; out = O.state out.old; image = image.old })
        (record { files = F.state files.new; input = I.state input.new; out = O.state out.new; image = image.new })
        (E.state err.old) (E.state err.new) }
    // Where no count of faults rises, no fault is answered.
    ensures complete { Faultless
        (record { files = F.state files.old; input = I.state input.old; out = O.state out.old; image = image.old })
        (record { files = F.state files.new; input = I.state input.new; out = O.state out.new; image = image.new })
        (E.state err.old) (E.state err.new) → is_fault_status result ≡ false }
{
    let answer = answer_words(alloc, words, files, input, out, image);
    end_with(&answer, err)
}

fn answer_words<'a, F: Store, I: Source, O: Sink>(
    alloc: Global,
    words: &'a [String],
    files: &mut F,
    input: &mut I,
    out: &mut O,
    image: &mut Bytes,
) -> Answer<'a>
    ensures { Answers (outside (F.state files.old) (I.state input.old) (O.state out.old) image.old) (outside (F.state files.new) (I.state input.new) (O.state out.new) image.new) (request_of (map string_bytes words.now)) result }
{
    match command_in(alloc, words) {
        Ok(Some(command)) => perform(alloc, command, files, input, out, image),
        Ok(None) => Answer::Usage,
        Err(NoMemory) => Answer::NoMemory,
    }
}
