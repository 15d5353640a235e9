ghost use Rattle.std.specs.Prelude.{◌≡◌, ◌<◌, ◌++◌, All, option_map};
ghost use Rattle.kk_base.specs.Faults.{Counts};
ghost use Rattle.kk_base.specs.Source.{SourceState, given, next_failed, EndsAt, KeepsEnd};
ghost use Rattle.kk_base.specs.Sink.{SinkState, taken, put_failed, CutWithin};
ghost use Rattle.kk_base.specs.Store.{StoreState, read_failed, wrote_failed, ReadsFile, SameFiles, WritesFile, Remembers};
ghost use Rattle.kk_base.specs.declared.outside.StoreCall.TheVariants.{Reading, Writing};

use crate::items::Bytes;
use crate::name::Name;
use std::alloc::Global;

/// What a source gives.
#[derive(Clone, Copy, Debug, PartialEq, Eq)]
pub enum Next {
    Byte(u8),
    /// There is no more.
    End,
    /// Reading failed; nothing was taken.
    Failed,
}

/// What came of a piece that was put on a sink.
#[derive(Clone, Copy, Debug, PartialEq, Eq)]
pub enum Put {
    /// All of it was taken.
    All,
    /// Only so many first bytes of it were taken.
    Failed(usize),
}

/// What a store gives for a name.
#[derive(Drop)]
pub enum Read {
    Bytes(Bytes),
    Failed,
    NoMemory,
}

/// What came of writing a file.
#[derive(Clone, Copy, Debug, PartialEq, Eq)]
pub enum Wrote {
    Done,
    /// Writing failed: what this one file holds is unsaid.
    Failed,
    /// Nothing changed.
    NoMemory,
}

/// A call on a store, with the name that it was given.
#[derive(Drop)]
pub enum StoreCall {
    Reading(Name),
    Writing(Name),
}

/// A stream of input bytes.
///
/// Of its state, `left` is what is left of it, where the implementation tells its content. `ended` says that an end was
/// met, behind which no byte comes. `faults` counts the calls that failed, as a u64 that stays at its last value: it never
/// falls, and a call fails only where it rises.
pub trait Source {
    ghost state: { Self → SourceState };

    /// Takes the next byte.
    fn next(&mut self) -> Next
        ensures content { (state self.old).left ≡ option_map (λ rest. given result ++ rest) (state self.new).left }
        ensures bytes { All (λ byte. byte < 256) (given result) }
        ensures end { EndsAt result (state self.old).left }
        ensures keeps { KeepsEnd result (state self.old).ended (state self.new).ended }
        ensures faults { Counts (next_failed result) (state self.old).faults (state self.new).faults };
}

/// A stream of output bytes.
///
/// Of its state, `held` is what it has taken, where the implementation tells its content. `faults` counts the calls that
/// failed, as a u64 that stays at its last value: it never falls, and a call fails only where it rises.
pub trait Sink {
    ghost state: { Self → SinkState };

    /// Puts a piece at the end. To take nothing of a piece that is not empty is a fault.
    fn put(&mut self, piece: &[u8]) -> Put
        ensures content { (state self.new).held ≡ option_map (λ before. before ++ taken result piece.now) (state self.old).held }
        ensures cut { CutWithin result piece.now }
        ensures faults { Counts (put_failed result) (state self.old).faults (state self.new).faults };
}

/// Files by their names.
///
/// Of its state, `files` has the content of each name, where the implementation tells it. `last_failed` is the last call
/// that failed. `faults` counts the calls that failed, as a u64 that stays at its last value: it never falls, and a call
/// fails only where it rises.
pub trait Store {
    ghost state: { Self → StoreState };

    /// The first `at_most` bytes of a file, all if there are fewer.
    fn read(&mut self, alloc: Global, name: &str, at_most: usize) -> Read
        ensures content { ReadsFile result at_most name.now (state self.old).files }
        ensures kept { SameFiles (state self.old).files (state self.new).files }
        ensures faults { Counts (read_failed result) (state self.old).faults (state self.new).faults }
        ensures named { Remembers (read_failed result) (Reading name.now) (state self.old).last_failed (state self.new).last_failed };

    /// Makes a file these bytes; all other files stay.
    fn write(&mut self, name: &str, bytes: &[u8]) -> Wrote
        ensures content { WritesFile result name.now bytes.now (state self.old).files (state self.new).files }
        ensures faults { Counts (wrote_failed result) (state self.old).faults (state self.new).faults }
        ensures named { Remembers (wrote_failed result) (Writing name.now) (state self.old).last_failed (state self.new).last_failed };
}
