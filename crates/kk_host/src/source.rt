ghost use Rattle.std.specs.Prelude.{◌≡◌, None};
ghost use Rattle.kk_base.specs.Source.{KeepsEnd, next_failed};

use kk_base::{FaultCount, Next, Source};
use std::io::Read;

/// A stream that is read, such as standard input, a byte at a time. Behind its first end it is not read again.
#[derive(Drop)]
pub struct StreamSource<R: Drop> {
    stream: R,
    ended: bool,
    faults: FaultCount,
}

impl<R: Read + Drop> StreamSource<R> {
    /// The bytes of the stream from where it stands.
    pub fn new(stream: R) -> Self
        ensures { result.faults ≡ 0 }
    {
        StreamSource {
            stream,
            ended: false,
            faults: FaultCount::new(),
        }
    }

    /// Takes the next byte, where the stream has not ended before.
    fn take(&mut self) -> Next
        ensures ended { KeepsEnd result self.old.ended self.new.ended }
        ensures faults { self.new.faults ≡ self.old.faults }
    {
        if self.ended {
            return Next::End;
        }
        let mut byte = [0];
        match self.stream.read(&mut byte) {
            Ok(0) => {
                self.ended = true;
                Next::End
            }
            Ok(_) => Next::Byte(byte[0]),
            Err(_) => Next::Failed,
        }
    }
}

impl<R: Read + Drop> Source for StreamSource<R> {
    ghost state = { λ source. record { left = None; ended = source.ended; faults = source.faults } };

    fn next(&mut self) -> Next {
        let next = self.take();
        self.faults.count_call(is_failed(next));
        next
    }
}

fn is_failed(next: Next) -> bool
    ensures { result ≡ next_failed next }
{
    match next {
        Next::Byte(_) | Next::End => false,
        Next::Failed => true,
    }
}
