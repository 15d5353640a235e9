// Instructions and rows of instructions, added at the end of code.

ghost use Rattle.std.specs.Prelude.{◌≡◌, ◌+◌, ◌-◌, ◌*◌, ◌%◌, ◌^◌, ◌≤◌, true, false, IsFalse, Some, OnOk, cond, max};
ghost use Rattle.rv_isa.specs.Arithmetic.{sum_word};
ghost use Rattle.rv_isa.specs.PlacedCode.{from_of, to_of};
ghost use Rattle.rv_isa.specs.Sizes.{narrow_frame};
ghost use Rattle.rv_isa.specs.declared.instr.Instr.TheVariants.{Addi};
ghost use Rattle.rv_place.specs.declared.reach.Reach.TheVariants.{Near, Far, Wide};
ghost use Rattle.rv_isa.specs.FrameSizes.{slots_of_place};
ghost use Rattle.rv_place.specs.Addresses.{slot_offset, way_offset, branch_words, jump_words, entry_words, test_words, frame_bias, greatest_frame, words_of_shift, words_to_frame};
ghost use Rattle.rv_place.specs.Registers.{sp};
ghost use Rattle.rv_place.specs.Instructions.{LoadsWord, SetsWord, words_of_constant, words_of_jump, words_of_branch, JumpsBy, JumpsTo, CallsTo, BranchesOn, branch_instruction};
ghost use Rattle.rv_place.specs.Texts.{greatest_address};
ghost use Rattle.rv_place.specs.Lines.{IsFromPointer, ShiftsStack, GoesBack, FindsFrame, frame_register};
ghost use Rattle.rv_place.specs.Emitted.{Grew, AreNear, JumpReaches, BranchReaches, TakesFrame, LeavesFrame, ReturnBy, TestBy, EntryBy, MoveBy};

use crate::chart::Chart;
use crate::reach::{Forms, Reach, WordForm};
use kk_base::NoMemory;
use rv_isa::sizes::REACH_DOWN;
use rv_isa::{
    BranchOffset, Condition, Immediate, Instr, JumpOffset, Register, UpperImmediate, Way,
};

/// Adds an instruction.
pub fn emit(code: &mut Vec<Instr>, instruction: Instr) -> Result<(), NoMemory>
    ensures { OnOk result (Grew 1 (λ c at. c at ≡ Some instruction) code.old.items code.new.items) }
{
    match code.push(instruction) {
        Ok(()) => Ok(()),
        Err(_) => Err(NoMemory),
    }
}

/// The parts of a word: the one that LUI sets or AUIPC adds, and the one that an addition behind it completes.
fn split(word: u32) -> (UpperImmediate, Immediate)
    ensures { sum_word result.0.word result.1.word ≡ word }
{
    let rounded = word.wrapping_add(0x800);
    (
        UpperImmediate::new(rounded - rounded % 0x1000),
        Immediate::new((rounded % 0x1000).wrapping_sub(0x800)),
    )
}

/// Makes a register a word, whatever it is.
pub fn emit_load(code: &mut Vec<Instr>, rd: Register, word: u32) -> Result<(), NoMemory>
    ensures { OnOk result (Grew 2 (λ c at. LoadsWord c at rd word) code.old.items code.new.items) }
{
    let (upper, lower) = split(word);
    emit(code, Instr::Lui { rd, imm: upper })?;
    emit(
        code,
        Instr::Addi {
            rd,
            rs1: rd,
            imm: lower,
        },
    )?;
    Ok(())
}

/// Makes a register a word, by the shortest form.
pub fn emit_constant(code: &mut Vec<Instr>, rd: Register, word: u32) -> Result<(), NoMemory>
    ensures { OnOk result (Grew (words_of_constant word) (λ c at. SetsWord c at rd word) code.old.items code.new.items) }
{
    match WordForm::of(word) {
        WordForm::Short => {
            let imm = Immediate::new(word);
            let rs1 = Register::ZERO;
            emit(code, Instr::Addi { rd, rs1, imm })
        }
        WordForm::Upper => {
            let imm = UpperImmediate::new(word);
            emit(code, Instr::Lui { rd, imm })
        }
        WordForm::Both => emit_load(code, rd, word),
    }
}

// ---- jumps

/// The distance of a jump from one address to another. Where it is too far for a jump, any distance.
fn jump_offset(at: u32, target: u32) -> JumpOffset
    ensures { AreNear (4 * jump_words) at target → sum_word at result.word ≡ target }
{
    match JumpOffset::try_new(target.wrapping_sub(at)) {
        Some(offset) => offset,
        None => JumpOffset::new(0),
    }
}

/// Goes to a near address, from the address `at`; the way back goes to a register.
fn emit_near_jump(
    code: &mut Vec<Instr>,
    at: u32,
    back: Register,
    target: u32,
) -> Result<(), NoMemory>
    ensures { OnOk result (Grew 1 (λ c p. p ≡ at → JumpReaches Near p target → JumpsBy Near c p back target) code.old.items code.new.items) }
{
    let offset = jump_offset(at, target);
    emit(code, Instr::Jal { rd: back, offset })
}

/// Goes to any address, from the address `at`; the way back goes to a register.
fn emit_far_jump(
    code: &mut Vec<Instr>,
    at: u32,
    back: Register,
    target: u32,
) -> Result<(), NoMemory>
    ensures { OnOk result (Grew 2 (λ c p. p ≡ at → JumpsBy Far c p back target) code.old.items code.new.items) }
{
    let (upper, lower) = split(target.wrapping_sub(at));
    emit(
        code,
        Instr::Auipc {
            rd: Register::RA,
            imm: upper,
        },
    )?;
    emit(
        code,
        Instr::Jalr {
            rd: back,
            rs1: Register::RA,
            imm: lower,
        },
    )?;
    Ok(())
}

/// Goes to an address, from the address `at`; the way back goes to a register.
fn emit_jump_by(
    code: &mut Vec<Instr>,
    at: u32,
    reach: Reach,
    back: Register,
    target: u32,
) -> Result<(), NoMemory>
    ensures { OnOk result (Grew (words_of_jump reach) (λ c p. p ≡ at → JumpReaches reach p target → JumpsBy reach c p back target) code.old.items code.new.items) }
{
    match reach {
        Reach::Near => emit_near_jump(code, at, back, target),
        Reach::Far | Reach::Wide => emit_far_jump(code, at, back, target),
    }
}

/// Goes to an address, from the address `at`.
pub fn emit_jump(code: &mut Vec<Instr>, at: u32, reach: Reach, target: u32) -> Result<(), NoMemory>
    ensures { OnOk result (Grew (words_of_jump reach) (λ c p. p ≡ at → JumpReaches reach p target → JumpsTo reach c p target) code.old.items code.new.items) }
{
    emit_jump_by(code, at, reach, Register::ZERO, target)
}

/// Goes to an address, from the address `at`, with the way back in `ra`.
pub fn emit_call(code: &mut Vec<Instr>, at: u32, reach: Reach, target: u32) -> Result<(), NoMemory>
    ensures { OnOk result (Grew (words_of_jump reach) (λ c p. p ≡ at → JumpReaches reach p target → CallsTo reach c p target) code.old.items code.new.items) }
{
    emit_jump_by(code, at, reach, Register::RA, target)
}

// ---- branches

/// The distance of a branch from one address to another. Where it is too far for a branch, any distance.
fn branch_offset(at: u32, target: u32) -> BranchOffset
    ensures { AreNear (4 * branch_words) at target → sum_word at result.word ≡ target }
{
    match BranchOffset::try_new(target.wrapping_sub(at)) {
        Some(offset) => offset,
        None => BranchOffset::new(0),
    }
}

/// The branch that is taken exactly where the condition holds.
fn branch_instruction(
    condition: Condition,
    rs1: Register,
    rs2: Register,
    offset: BranchOffset,
) -> Instr
    ensures { result ≡ branch_instruction condition rs1 rs2 offset }
{
    match condition {
        Condition::Equal => Instr::Beq { rs1, rs2, offset },
        Condition::NotEqual => Instr::Bne { rs1, rs2, offset },
        Condition::Less => Instr::Blt { rs1, rs2, offset },
        Condition::GreaterEqual => Instr::Bge { rs1, rs2, offset },
        Condition::LessUnsigned => Instr::Bltu { rs1, rs2, offset },
        Condition::GreaterEqualUnsigned => Instr::Bgeu { rs1, rs2, offset },
    }
}

/// Over a jump: the distance of a branch that stands right before one.
pub fn over_jump(jumps: Reach) -> BranchOffset
    ensures { result.word ≡ 4 + 4 * words_of_jump jumps }
{
    BranchOffset::new(4 + 4 * jumps.words_of_jump())
}

/// Goes to a near address, from the address `at`, where the condition holds.
fn emit_near_branch(
    code: &mut Vec<Instr>,
    at: u32,
    target: u32,
    condition: Condition,
    left: Register,
    right: Register,
) -> Result<(), NoMemory>
    ensures { OnOk result (Grew 1 (λ c p. p ≡ at → AreNear (4 * branch_words) p target → BranchesOn Near Near c p condition left right target) code.old.items code.new.items) }
{
    let offset = branch_offset(at, target);
    emit(code, branch_instruction(condition, left, right, offset))
}

/// Goes to an address, from the address `at`, where the condition holds: the branch of the opposite condition leads over a
/// jump, since a branch alone does not reach far.
fn emit_far_branch(
    code: &mut Vec<Instr>,
    at: u32,
    target: u32,
    jumps: Reach,
    condition: Condition,
    left: Register,
    right: Register,
) -> Result<(), NoMemory>
    requires at { at ≤ greatest_address + 4 }
    ensures { OnOk result (Grew (1 + words_of_jump jumps) (λ c p. p ≡ at → JumpReaches jumps (p + 4) target → BranchesOn jumps Far c p condition left right target) code.old.items code.new.items) }
{
    let over = over_jump(jumps);
    emit(
        code,
        branch_instruction(condition.opposite(), left, right, over),
    )?;
    emit_jump(code, at + 4, jumps, target)?;
    Ok(())
}

/// Goes to an address, from the address `at`, where the condition holds.
pub fn emit_branch(
    code: &mut Vec<Instr>,
    at: u32,
    forms: Forms,
    condition: Condition,
    left: Register,
    right: Register,
    target: u32,
) -> Result<(), NoMemory>
    requires at { at ≤ greatest_address }
    ensures { OnOk result (Grew (words_of_branch forms.jumps forms.branches) (λ c p. p ≡ at → BranchReaches forms.jumps forms.branches p target → BranchesOn forms.jumps forms.branches c p condition left right target) code.old.items code.new.items) }
{
    match forms.branches {
        Reach::Near => emit_near_branch(code, at, target, condition, left, right),
        Reach::Far | Reach::Wide => {
            emit_far_branch(code, at, target, forms.jumps, condition, left, right)
        }
    }
}

// ---- frames

/// The offset from the stack pointer of what stands so far above the first word of its frame.
fn from_pointer(jumps: Reach, above: u32) -> Immediate
    requires { above ≤ greatest_frame jumps }
    ensures { IsFromPointer jumps above result }
{
    Immediate::new(above.wrapping_sub(jumps.frame_bias()))
}

/// The offset of a slot from the stack pointer.
pub fn slot_offset(jumps: Reach, slot: u32) -> Immediate
    requires { slot_offset slot ≤ greatest_frame jumps }
    ensures { IsFromPointer jumps (slot_offset slot) result }
{
    from_pointer(jumps, 4 * slot)
}

/// Where the last word of a frame of so many bytes stands above the first one: it is the way back.
fn way_offset(frame: u32) -> u32
    ensures { result ≡ way_offset frame }
{
    frame.saturating_sub(4)
}

/// Adds to the stack pointer.
fn emit_addition(code: &mut Vec<Instr>, imm: Immediate) -> Result<(), NoMemory>
    ensures { OnOk result (Grew 1 (λ c at. c at ≡ Some (Addi sp sp imm)) code.old.items code.new.items) }
{
    emit(
        code,
        Instr::Addi {
            rd: Register::SP,
            rs1: Register::SP,
            imm,
        },
    )
}

/// Adds to the stack pointer, in two parts.
fn emit_additions(
    code: &mut Vec<Instr>,
    first: Immediate,
    second: Immediate,
) -> Result<(), NoMemory>
    ensures { OnOk result (Grew 2 (ShiftsStack Wide (sum_word first.word second.word)) code.old.items code.new.items) }
{
    emit_addition(code, first)?;
    emit_addition(code, second)?;
    Ok(())
}

/// Gives a frame back.
fn emit_raising(code: &mut Vec<Instr>, jumps: Reach, frame: u32) -> Result<(), NoMemory>
    requires { frame ≤ greatest_frame jumps }
    ensures { OnOk result (Grew (words_of_shift jumps) (ShiftsStack jumps frame) code.old.items code.new.items) }
{
    match jumps {
        Reach::Near | Reach::Far => emit_addition(code, Immediate::new(frame)),
        Reach::Wide => {
            let half = frame / 2;
            emit_additions(code, Immediate::new(half), Immediate::new(frame - half))
        }
    }
}

/// What takes so many bytes from the stack pointer.
fn negative(number: u32) -> Immediate
    requires some { 1 ≤ number }
    requires few { number ≤ narrow_frame }
    ensures { result.word ≡ 2 ^ 32 - number }
{
    Immediate::new(0u32.wrapping_sub(number))
}

/// Takes a frame.
fn emit_lowering(code: &mut Vec<Instr>, jumps: Reach, frame: u32) -> Result<(), NoMemory>
    requires some { 4 ≤ frame }
    requires few { frame ≤ greatest_frame jumps }
    ensures { OnOk result (Grew (words_of_shift jumps) (ShiftsStack jumps (2 ^ 32 - frame)) code.old.items code.new.items) }
{
    match jumps {
        Reach::Near | Reach::Far => emit_addition(code, negative(frame)),
        Reach::Wide => {
            let half = frame / 2;
            emit_additions(code, negative(half), negative(frame - half))
        }
    }
}

/// Takes the way back from the frame, and gives the frame back.
fn emit_leaving(code: &mut Vec<Instr>, chart: &Chart) -> Result<(), NoMemory>
    requires { chart.now.frame ≤ greatest_frame chart.now.jumps }
    ensures { OnOk result (Grew (1 + words_of_shift chart.now.jumps) (LeavesFrame chart.now.jumps chart.now.frame) code.old.items code.new.items) }
{
    emit(
        code,
        Instr::Lw {
            rd: Register::RA,
            rs1: Register::SP,
            imm: from_pointer(chart.jumps, way_offset(chart.frame)),
        },
    )?;
    emit_raising(code, chart.jumps, chart.frame)?;
    Ok(())
}

/// Goes the way back.
fn emit_going(code: &mut Vec<Instr>) -> Result<(), NoMemory>
    ensures { OnOk result (Grew 1 GoesBack code.old.items code.new.items) }
{
    emit(
        code,
        Instr::Jalr {
            rd: Register::ZERO,
            rs1: Register::RA,
            imm: Immediate::ZERO,
        },
    )
}

/// A return of a function that takes a frame: takes the way back from it, gives it back and goes there.
fn emit_framed_return(code: &mut Vec<Instr>, chart: &Chart) -> Result<(), NoMemory>
    requires { chart.now.frame ≤ greatest_frame chart.now.jumps }
    ensures { OnOk result (Grew (2 + words_of_shift chart.now.jumps) (ReturnBy chart.now true) code.old.items code.new.items) }
{
    emit_leaving(code, chart)?;
    emit_going(code)?;
    Ok(())
}

/// A return, by whether the function takes a frame.
pub fn emit_return(code: &mut Vec<Instr>, chart: &Chart, frame: bool) -> Result<(), NoMemory>
    requires { chart.now.frame ≤ greatest_frame chart.now.jumps }
    ensures { OnOk result (Grew (cond frame (2 + words_of_shift chart.now.jumps) 1) (ReturnBy chart.now frame) code.old.items code.new.items) }
{
    if frame {
        emit_framed_return(code, chart)
    } else {
        emit_going(code)
    }
}

/// Takes a frame, and saves the way back in its last word.
fn emit_taking(code: &mut Vec<Instr>, jumps: Reach, frame: u32) -> Result<(), NoMemory>
    requires some { 4 ≤ frame }
    requires few { frame ≤ greatest_frame jumps }
    ensures { OnOk result (Grew (1 + words_of_shift jumps) (λ c at. TakesFrame jumps frame c at) code.old.items code.new.items) }
{
    emit_lowering(code, jumps, frame)?;
    emit(
        code,
        Instr::Sw {
            rs1: Register::SP,
            rs2: Register::RA,
            imm: from_pointer(jumps, way_offset(frame)),
        },
    )?;
    Ok(())
}

/// The register that has the address of the newest frame, once `emit_finding` has stood before.
fn frame_register(jumps: Reach, free: Register) -> Register
    ensures { result.number ≡ (frame_register jumps free).number }
{
    match jumps {
        Reach::Near | Reach::Far => Register::SP,
        Reach::Wide => free,
    }
}

/// Makes a register the address of the newest frame, where the stack pointer is not at its first word.
fn emit_finding(code: &mut Vec<Instr>, jumps: Reach, free: Register) -> Result<(), NoMemory>
    ensures { OnOk result (Grew (words_to_frame jumps) (FindsFrame jumps free) code.old.items code.new.items) }
{
    match jumps {
        Reach::Near | Reach::Far => Ok(()),
        Reach::Wide => {
            let down = Immediate::new(0u32.wrapping_sub(REACH_DOWN));
            emit(
                code,
                Instr::Addi {
                    rd: free,
                    rs1: Register::SP,
                    imm: down,
                },
            )
        }
    }
}

/// A test whether a frame is left, at the address `at`: where the newest frame is the lowest, at the end of the cells, the stop for
/// a full stack. Nothing stands in the register.
pub fn emit_test(
    code: &mut Vec<Instr>,
    at: u32,
    chart: &Chart,
    free: Register,
) -> Result<(), NoMemory>
    requires at { at ≤ greatest_address }
    ensures { OnOk result (Grew (test_words chart.now.jumps) (TestBy chart.now at free) code.old.items code.new.items) }
{
    emit_finding(code, chart.jumps, free)?;
    emit_far_branch(
        code,
        at + 4 * chart.jumps.words_to_frame(),
        chart.symbols.stack_full,
        chart.jumps,
        Condition::Equal,
        frame_register(chart.jumps, free),
        Register::S3,
    )?;
    Ok(())
}

/// The entry of a function that takes a frame, at the address `at`: where none is left, the stop for a full stack; else one is
/// taken.
fn emit_framed_entry(code: &mut Vec<Instr>, at: u32, chart: &Chart) -> Result<(), NoMemory>
    requires at { at + 4 ≤ greatest_address }
    requires some { 4 ≤ chart.now.frame }
    requires few { chart.now.frame ≤ greatest_frame chart.now.jumps }
    ensures { OnOk result (Grew (entry_words chart.now.jumps) (EntryBy chart.now at true) code.old.items code.new.items) }
{
    emit_test(code, at, chart, Register::T0)?;
    emit_taking(code, chart.jumps, chart.frame)?;
    Ok(())
}

/// Over an entry: the distance of a branch that is its first instruction.
fn behind_entry(jumps: Reach) -> BranchOffset
    ensures { result.word ≡ 4 * entry_words jumps }
{
    BranchOffset::new(4 * jumps.entry_words())
}

/// The entry of a function that takes no frame, where jumps are near, at the address `at`: where the newest frame is the lowest,
/// the stop for a full stack; else a branch leads over what a function with a frame jumps to for a tail call, which gives it back.
fn emit_bare_entry(code: &mut Vec<Instr>, at: u32, chart: &Chart) -> Result<(), NoMemory>
    requires at { at + 4 ≤ greatest_address }
    requires near { chart.now.jumps ≡ Near }
    requires few { chart.now.frame ≤ greatest_frame chart.now.jumps }
    ensures { OnOk result (Grew (entry_words chart.now.jumps) (EntryBy chart.now at false) code.old.items code.new.items) }
{
    let offset = behind_entry(chart.jumps);
    emit(
        code,
        Instr::Bne {
            rs1: Register::SP,
            rs2: Register::S3,
            offset,
        },
    )?;
    emit_jump(code, at + 4, chart.jumps, chart.symbols.stack_full)?;
    emit_leaving(code, chart)?;
    Ok(())
}

/// The entry of a function, at the address `at`, by whether it takes a frame. It does where jumps are not near.
pub fn emit_entry(
    code: &mut Vec<Instr>,
    at: u32,
    chart: &Chart,
    frame: bool,
) -> Result<(), NoMemory>
    requires at { at + 4 ≤ greatest_address }
    requires some { 4 ≤ chart.now.frame }
    requires few { chart.now.frame ≤ greatest_frame chart.now.jumps }
    requires near { IsFalse frame → chart.now.jumps ≡ Near }
    ensures { OnOk result (Grew (entry_words chart.now.jumps) (EntryBy chart.now at frame) code.old.items code.new.items) }
{
    if frame {
        emit_framed_entry(code, at, chart)
    } else {
        emit_bare_entry(code, at, chart)
    }
}

/// A move.
pub fn emit_move(code: &mut Vec<Instr>, chart: &Chart, way: Way) -> Result<(), NoMemory>
    requires frame { chart.now.frame ≤ greatest_frame chart.now.jumps }
    requires slots { 4 * max (slots_of_place (from_of way)) (slots_of_place (to_of way)) + 4 ≤ chart.now.frame }
    ensures { OnOk result (Grew 1 (MoveBy chart.now way) code.old.items code.new.items) }
{
    match way {
        Way::Copy { from, to } => emit(
            code,
            Instr::Addi {
                rd: to,
                rs1: from,
                imm: Immediate::ZERO,
            },
        ),
        Way::Load { from, to } => emit(
            code,
            Instr::Lw {
                rd: to,
                rs1: Register::SP,
                imm: slot_offset(chart.jumps, from),
            },
        ),
        Way::Store { from, to } => emit(
            code,
            Instr::Sw {
                rs1: Register::SP,
                rs2: from,
                imm: slot_offset(chart.jumps, to),
            },
        ),
    }
}
