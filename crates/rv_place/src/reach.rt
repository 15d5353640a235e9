// How far jumps and branches lead, and how large frames are.

ghost use Rattle.std.specs.Prelude.{◌≡◌, ◌≤◌};
ghost use Rattle.rv_isa.specs.Costs.{routine_length};
ghost use Rattle.rv_place.specs.Instructions.{words_of_jump, words_of_branch, words_of_routine, form_of, words_of_form, words_to_name, words_to_hold};
ghost use Rattle.rv_place.specs.Addresses.{entry_words, most_entry_words, test_words, frame_bias, pointer_slot, is_at_pointer, reach_of, words_of_return, words_of_shift};
ghost use Rattle.rv_place.specs.Addresses.{words_to_frame};

use rv_isa::sizes::REACH_DOWN;
use rv_isa::{Operand, Place, Routine};

/// How far a jump or a branch leads; of the jumps of a text also whether its frames are wide.
#[derive(Clone, Copy)]
pub enum Reach {
    /// As far as its own instruction can name.
    Near,
    /// Anywhere.
    Far,
    /// Anywhere, where frames are larger than a load reaches from their first word.
    Wide,
}

/// How many instructions lower a count.
pub const WORDS_TO_LOWER: u32 = 6;

/// How many instructions a call of a routine is, where jumps lead so far.
pub fn words_of_routine(jumps: Reach, routine: Routine) -> u32
    ensures words { result ≡ words_of_routine jumps routine }
    ensures few { result ≤ routine_length routine }
{
    match routine {
        Routine::Drop => WORDS_TO_LOWER + jumps.words_of_jump(),
        Routine::Take | Routine::PrintInt | Routine::PrintText | Routine::ReadByte => {
            jumps.words_of_jump()
        }
    }
}

/// How far the jumps of a function and its branches lead, and whether it takes a frame.
#[derive(Clone, Copy)]
pub struct Forms {
    pub jumps: Reach,
    pub branches: Reach,
    pub frame: bool,
}

impl Reach {
    /// The reach that leads everywhere within so many instructions: near where they are fewer than `limit`.
    pub fn within(words: u32, limit: u32) -> Reach
        ensures { result ≡ reach_of limit words }
    {
        if words < limit {
            Reach::Near
        } else {
            Reach::Far
        }
    }

    /// How many instructions a jump is, or a call.
    pub fn words_of_jump(self) -> u32
        ensures words { result ≡ words_of_jump self }
        ensures some { 1 ≤ result }
        ensures few { result ≤ 2 }
    {
        match self {
            Reach::Near => 1,
            Reach::Far | Reach::Wide => 2,
        }
    }

    /// How many instructions give the stack pointer another frame.
    pub fn words_of_shift(self) -> u32
        ensures words { result ≡ words_of_shift self }
        ensures some { 1 ≤ result }
        ensures few { result ≤ 2 }
    {
        match self {
            Reach::Near | Reach::Far => 1,
            Reach::Wide => 2,
        }
    }

    /// How far above a frame's first word the stack pointer stands.
    pub fn frame_bias(self) -> u32
        ensures { result ≡ frame_bias self }
    {
        match self {
            Reach::Near | Reach::Far => 0,
            Reach::Wide => REACH_DOWN,
        }
    }

    /// The slot whose address is the stack pointer.
    fn pointer_slot(self) -> u32
        ensures { result ≡ pointer_slot self }
    {
        self.frame_bias() / 4
    }

    /// Whether the token that an action holds is in that slot.
    pub fn is_at_pointer(self, args: &[Operand]) -> bool
        ensures { result ≡ is_at_pointer self args.now }
    {
        match args.first() {
            Some(
                Operand {
                    place: Place::Slot(slot),
                    ..
                },
            ) => *slot == self.pointer_slot(),
            _ => false,
        }
    }

    /// How many instructions hold a token: where its slot's address is the stack pointer, one less.
    pub fn words_to_hold(self, args: &[Operand]) -> u32
        ensures words { result ≡ words_to_hold (is_at_pointer self args.now) }
        ensures few { result ≤ 5 }
    {
        3 + words_to_name(self.is_at_pointer(args))
    }

    /// How many instructions give the address of the newest frame: none where the stack pointer is at its first word.
    pub fn words_to_frame(self) -> u32
        ensures words { result ≡ words_to_frame self }
        ensures few { result ≤ 1 }
    {
        match self {
            Reach::Near | Reach::Far => 0,
            Reach::Wide => 1,
        }
    }

    /// How many instructions the entry of a function is.
    pub fn entry_words(self) -> u32
        ensures words { result ≡ entry_words self }
        ensures few { result ≤ most_entry_words }
    {
        self.words_to_frame() + 2 + self.words_of_jump() + self.words_of_shift()
    }

    /// How many instructions of an entry are the test whether a frame is left.
    pub fn test_words(self) -> u32
        ensures words { result ≡ test_words self }
        ensures few { result ≤ 4 }
    {
        self.words_to_frame() + 1 + self.words_of_jump()
    }
}

/// How many instructions store the address of a slot in a token: where it is the stack pointer, one.
pub fn words_to_name(at_pointer: bool) -> u32
    ensures words { result ≡ words_to_name at_pointer }
    ensures few { result ≤ 2 }
{
    if at_pointer { 1 } else { 2 }
}

impl Forms {
    /// How many instructions a return is: where there is no frame to be given back, one.
    pub fn words_of_return(self) -> u32
        ensures words { result ≡ words_of_return self }
        ensures few { result ≤ 4 }
    {
        if self.frame {
            2 + self.jumps.words_of_shift()
        } else {
            1
        }
    }

    /// How many instructions a branch is: a far one leads over a jump.
    pub fn words_of_branch(self) -> u32
        ensures words { result ≡ words_of_branch self.jumps self.branches }
        ensures few { result ≤ 3 }
    {
        match self.branches {
            Reach::Near => 1,
            Reach::Far | Reach::Wide => 1 + self.jumps.words_of_jump(),
        }
    }
}

/// How a word comes to a register.
#[derive(Clone, Copy)]
pub enum WordForm {
    /// By an addition to zero: the word is an immediate.
    Short,
    /// By its upper bits alone: its lower 12 bits are zero.
    Upper,
    /// By its upper bits and an addition.
    Both,
}

impl WordForm {
    /// The form of a word: the shortest that makes it.
    pub fn of(word: u32) -> WordForm
        ensures { result ≡ form_of word }
    {
        if word.wrapping_add(0x800) < 0x1000 {
            WordForm::Short
        } else if word % 0x1000 == 0 {
            WordForm::Upper
        } else {
            WordForm::Both
        }
    }

    /// How many instructions it is.
    pub fn words(self) -> u32
        ensures words { result ≡ words_of_form self }
        ensures few { result ≤ 2 }
    {
        match self {
            WordForm::Short | WordForm::Upper => 1,
            WordForm::Both => 2,
        }
    }
}
