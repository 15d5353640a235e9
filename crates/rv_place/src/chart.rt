// Where what the code names stands.

ghost use Rattle.std.specs.Prelude.{◌≡◌, ℕ, ◌+◌, ◌*◌, ◌^◌, ◌<◌, ◌≤◌, Bool, Some, slice_get, ◌↔◌, IsTrue};
ghost use Rattle.rv_place.specs.Addresses.{entry_words, most_entry_words, skipped_words};
ghost use Rattle.elf_image.specs.Program.{text_start};
ghost use Rattle.cell_runtime.specs.Lines.{words_of, words_of_line, labels_of};
ghost use Rattle.rv_place.specs.Texts.{most_runtime_words};
ghost use Rattle.rv_place.specs.Emitted.{IsAddressOf, AreSymbols};
ghost use Rattle.rv_isa.specs.declared.placed.Symbol.TheVariants as symbol;

use crate::reach::Reach;
use elf_image::TEXT_START;
use rv_isa::{Native, Routine, Symbol};

/// Where what the code names stands.
#[derive(Drop)]
pub struct Chart {
    /// How far the jumps of the text lead.
    pub jumps: Reach,
    /// The bytes of a frame.
    pub frame: u32,
    /// The addresses of the functions.
    pub entries: Vec<u32>,
    /// Whether each function takes a frame.
    pub takes: Vec<bool>,
    pub symbols: Symbols,
    /// The addresses of the constants.
    pub constants: Vec<u32>,
}

impl Chart {
    /// The address of a function. Of one that is not there, any number.
    pub fn entry(&self, function: u32) -> u32
        ensures { (entry : ℕ) → slice_get self.now.entries.items function ≡ Some entry → result ≡ entry }
    {
        match self.entries.get(function as usize) {
            Some(entry) => *entry,
            None => 0,
        }
    }

    /// Whether a function takes a frame. Of one that is not there, anything.
    fn takes_frame(&self, function: u32) -> bool
        ensures { (takes : Bool) → slice_get self.now.takes.items function ≡ Some takes → result ≡ takes }
    {
        match self.takes.get(function as usize) {
            Some(takes) => *takes,
            None => true,
        }
    }

    /// How many of a callee's first instructions a tail call leaves out: its entry. Where either the function that calls or the
    /// callee takes a frame and the other does not, the callee takes one there, or gives it back, behind its test.
    fn skipped_words(&self, frame: bool, takes: bool) -> u32
        ensures words { result ≡ skipped_words self.now.jumps frame takes }
        ensures few { result ≤ most_entry_words }
    {
        if frame == takes {
            self.jumps.entry_words()
        } else {
            self.jumps.test_words()
        }
    }

    /// Where a tail call of a function goes, from one that takes a frame or does not.
    pub fn tail(&self, function: u32, frame: bool) -> u32
        ensures { (entry : ℕ) (takes : Bool) → slice_get self.now.entries.items function ≡ Some entry → slice_get self.now.takes.items function ≡ Some takes → entry + 4 * skipped_words self.now.jumps frame takes < 2 ^ 32 → result ≡ entry + 4 * skipped_words self.now.jumps frame takes }
    {
        let skipped = self.skipped_words(frame, self.takes_frame(function));
        self.entry(function).wrapping_add(4 * skipped)
    }

    /// The address of a constant. Of one that is not there, any number.
    pub fn constant(&self, index: u32) -> u32
        ensures { (address : ℕ) → slice_get self.now.constants.items index ≡ Some address → result ≡ address }
    {
        match self.constants.get(index as usize) {
            Some(address) => *address,
            None => 0,
        }
    }
}

/// The addresses of the runtime's symbols. One that the runtime does not have is any number.
#[derive(Clone, Copy)]
pub struct Symbols {
    pub stack_full: u32,
    pub take: u32,
    pub give_up: u32,
    pub print_int: u32,
    pub print_text: u32,
    pub read_byte: u32,
}

impl Symbols {
    /// The addresses in a runtime at the text's begin.
    pub fn of(natives: &[Native]) -> Symbols
        requires { words_of natives.now ≤ most_runtime_words }
        ensures { AreSymbols text_start (labels_of 0 natives.now) result }
    {
        Symbols {
            stack_full: address_of(natives, Symbol::StackFull),
            take: address_of(natives, Symbol::Routine(Routine::Take)),
            give_up: address_of(natives, Symbol::Routine(Routine::Drop)),
            print_int: address_of(natives, Symbol::Routine(Routine::PrintInt)),
            print_text: address_of(natives, Symbol::Routine(Routine::PrintText)),
            read_byte: address_of(natives, Symbol::Routine(Routine::ReadByte)),
        }
    }

    /// The address of a routine.
    pub fn routine(&self, routine: Routine) -> u32
        ensures { (runtime : ℕ) (labels : _) → AreSymbols runtime labels self.now → IsAddressOf runtime labels (symbol.Routine routine) result }
    {
        match routine {
            Routine::Take => self.take,
            Routine::Drop => self.give_up,
            Routine::PrintInt => self.print_int,
            Routine::PrintText => self.print_text,
            Routine::ReadByte => self.read_byte,
        }
    }
}

/// How many instructions a line of the runtime is.
pub fn words_of_native(line: &Native) -> u32
    ensures words { result ≡ words_of_line line.now }
{
    match line {
        Native::Instruction(_) => 1,
        Native::Address { .. } => 2,
        Native::Label(_) | Native::Jump(_) | Native::Branch { .. } | Native::Call(_) => 0,
    }
}

fn same_routine(a: Routine, b: Routine) -> bool
    ensures { IsTrue result ↔ (a ≡ b) }
{
    a == b
}

fn same_symbol(a: Symbol, b: Symbol) -> bool
    ensures { IsTrue result ↔ (a ≡ b) }
{
    match (a, b) {
        (Symbol::Start, Symbol::Start) => true,
        (Symbol::Routine(p), Symbol::Routine(q)) => same_routine(p, q),
        (Symbol::Stop, Symbol::Stop) => true,
        (Symbol::StackFull, Symbol::StackFull) => true,
        (Symbol::Function(f), Symbol::Function(g)) => f == g,
        (Symbol::Local(l), Symbol::Local(m)) => l == m,
        _ => false,
    }
}

fn is_label_of(line: &Native, symbol: Symbol) -> bool
    ensures { IsTrue result ↔ (line.now ≡ Native.Label symbol) }
{
    match line {
        Native::Label(other) => same_symbol(*other, symbol),
        _ => false,
    }
}

/// The address of a symbol, where its label comes first.
fn address_of(natives: &[Native], symbol: Symbol) -> u32
    requires { words_of natives.now ≤ most_runtime_words }
    ensures { IsAddressOf text_start (labels_of 0 natives.now) symbol result }
{
    let mut before = 0;
    for line in natives {
        if is_label_of(line, symbol) {
            return TEXT_START + 4 * before;
        }
        before += words_of_native(line);
    }
    TEXT_START
}
