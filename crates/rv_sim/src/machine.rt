ghost use Rattle.std.specs.Prelude.{◌≡◌, ℕ, ◌+◌, ◌%◌, ◌<◌, ◌≤◌, ◌^◌, List, [], length, true, false, Option, IfOk, Some, None, if◌then◌else◌, ◌&&◌, ◌==◌};
ghost use Rattle.std.specs.Bool.{then_some};
ghost use Rattle.kk_base.specs.Faults.{Rises};
ghost use Rattle.kk_base.specs.Memory.{byte_loaded};
ghost use Rattle.kk_base.specs.Source.{SourceState};
ghost use Rattle.kk_base.specs.Sink.{SinkState};
ghost use Rattle.rv_isa.specs.Processor.{start, going, exited, goes, traps, value, put, can_load, can_store};
ghost use Rattle.rv_isa.specs.Bytes.{number_at};
ghost use Rattle.rv_isa.specs.Environment.{stepped, calls, reads, writes};
ghost use Rattle.rv_isa.specs.Arithmetic.{widened};
ghost use Rattle.rv_isa.specs.Execution.{acts, executes, step};
ghost use Rattle.rv_isa.specs.FreeCells.{free_chain, border_size, free_cells};
ghost use Rattle.elf_image.specs.Parts.{memory_of};
ghost use Rattle.rv_isa.specs.Meaning.{IsWidth};
ghost use Rattle.rv_sim.specs.Turns.{TurnDoes, NextDoes, is_input, is_output, answer_at};
ghost use Rattle.rv_sim.specs.Areas.{MovesWidth};
ghost use Rattle.rv_sim.specs.Devices.{is_input_fault, is_output_fault, halt_of, HasRun};
ghost use Rattle.rv_sim.specs.Registers.{registers_of};
ghost use Rattle.rv_sim.specs.Simulation.{processor_of, progress_of};

use crate::area::Access;
use crate::halt::{Device, Halt, Phase, Turn};
use crate::memory::Memory;
use crate::registers::Registers;
use elf_image::Image;
use kk_base::{Next, NoMemory, Put, Sink, Source};
use rv_isa::environment::{
    ACCESS_FAULT, CELL_SIZE, EXIT, FETCH_FAULT, ILLEGAL_INSTRUCTION, MISALIGNED_ACCESS,
    MISALIGNED_TARGET, READ, STANDARD_INPUT, STANDARD_OUTPUT, UNKNOWN_CALL, WRITE,
};
use rv_isa::{Act, Effect, Instr, Register, decode, effect};
use std::alloc::Global;
use std::marker::Model;

/// A machine that executes an image.
#[derive(Drop)]
pub struct Machine {
    registers: Registers,
    pc: u32,
    memory: Memory,
    executed: u64,
    phase: Phase,
    faulted: bool,
}

impl Model for Machine {
    ghost use Rattle.rv_sim.specs.Simulation.{Simulation};

    ghost Value = { Simulation };

    ghost use Rattle.rv_sim.specs.Simulation.{ending_of};

    ghost view = { λ m. record { registers = m.registers; pc = m.pc; parts = m.memory; executed = m.executed; ending = ending_of m.phase; faulted = m.faulted } };
}

impl Machine {
    /// The machine at the start of an image.
    pub fn load(alloc: Global, image: &Image) -> Result<Machine, NoMemory>
        ensures start { IfOk result
            (λ machine.
            (input : List ℕ)
            → progress_of machine input []
            ≡ goes (start (memory_of image.now.parts) image.now.entry input)) }
        ensures whole { IfOk result (λ machine. machine.faulted ≡ false) }
        ensures fresh { IfOk result (λ machine. machine.executed ≡ 0) }
    {
        Ok(Machine {
            registers: Registers::new(),
            pc: image.entry,
            memory: Memory::from_parts(alloc, &image.parts)?,
            executed: 0,
            phase: Phase::Going,
            faulted: false,
        })
    }

    /// Executes at most so many more instructions, with the bytes of the source and the pieces of the sink.
    ///
    /// A machine that has ended answers its end again, and nothing is executed.
    pub fn run<I: Source, O: Sink>(&mut self, steps: u64, input: &mut I, out: &mut O) -> Halt
        requires whole { self.old.faulted ≡ false }
        requires room { self.old.executed + steps < 2 ^ 64 }
        ensures input_faults { Rises (is_input_fault result) (I.state input.old).faults (I.state input.new).faults }
        ensures output_faults { Rises (is_output_fault result) (O.state out.old).faults (O.state out.new).faults }
        ensures ran { HasRun result steps self.old self.new
            (I.state input.old) (I.state input.new) (O.state out.old) (O.state out.new) }
    {
        let mut left = steps;
        while left > 0 && self.phase == Phase::Going {
            match self.step(input, out) {
                None => left -= 1,
                Some(Device::Input) => return Halt::InputFault,
                Some(Device::Output) => return Halt::OutputFault,
            }
        }
        self.halt()
    }

    /// Why a run stops here.
    fn halt(&self) -> Halt
        ensures { result ≡ halt_of self.now.ending }
    {
        match self.phase {
            Phase::Going => Halt::StepsSpent,
            Phase::Exited(number) => Halt::Exit(number),
            Phase::Trapped { cause, pc, word } => Halt::Trap { cause, pc, word },
        }
    }

    /// How many instructions were executed.
    pub fn executed(&self) -> u64
        ensures { result ≡ self.now.executed }
    {
        self.executed
    }

    /// Whether a device has failed.
    pub fn faulted(&self) -> bool
        ensures { result ≡ self.now.faulted }
    {
        self.faulted
    }

    /// One more instruction is executed, and the next one stands at this address.
    fn finish(&mut self, next: u32)
        requires { self.old.executed + 1 < 2 ^ 64 }
        ensures { self.new ≡ record self.old { pc = next; executed = self.old.executed + 1 } }
    {
        self.pc = next;
        self.executed += 1;
    }

    /// How many free cells the image has: those on the chain from x8 through the first word of each, and those from x18 on
    /// below x19; at most `cells` in all.
    pub fn free_cells(&self, cells: u32) -> u32
        ensures { result ≡ free_cells cells (processor_of self.now [] []) }
    {
        let chained = self.free_chain(cells);
        chained + self.border_size().min(cells - chained)
    }

    /// The word at an address that is a multiple of 4, where it may be loaded.
    pub fn word(&self, at: u32) -> Option<u32>
        ensures { result
            ≡ (if (at % 4 == 0) && can_load self.now.parts at 4 then Some (number_at (byte_loaded self.now.parts) at 4) else None) }
    {
        if at % 4 == 0 && self.memory.can(Access::Load, at, 4) {
            self.memory.word(at)
        } else {
            None
        }
    }

    /// How many cells the chain from x8 through the first word of each has, at most `cells`.
    fn free_chain(&self, cells: u32) -> u32
        ensures value { result ≡ length (free_chain cells (processor_of self.now [] [])) }
        ensures within { result ≤ cells }
    {
        let mut at = self.registers.get(Register::S0);
        let mut count = 0;
        while count < cells && at != 0 {
            let Some(next) = self.memory.word(at) else {
                break;
            };
            at = next;
            count += 1;
        }
        count
    }

    /// How many cells lie from x18 on below x19: none where one of the two is no multiple of a cell's size, or x18 is above
    /// x19.
    fn border_size(&self) -> u32
        ensures { result
            ≡ border_size (value (registers_of self.now.registers) 18) (value (registers_of self.now.registers) 19) }
    {
        let low = self.registers.get(Register::S2);
        let high = self.registers.get(Register::S3);
        if low % CELL_SIZE == 0 && high % CELL_SIZE == 0 && low <= high {
            (high - low) / CELL_SIZE
        } else {
            0
        }
    }

    /// Executes the next instruction. Answers the device that failed, if one did; then nothing was executed.
    fn step<I: Source, O: Sink>(&mut self, input: &mut I, out: &mut O) -> Option<Device>
        requires whole { self.old.faulted ≡ false }
        requires going { self.old.ending ≡ going }
        requires room { self.old.executed + 1 < 2 ^ 64 }
        ensures input_faults { Rises (is_input result) (I.state input.old).faults (I.state input.new).faults }
        ensures output_faults { Rises (is_output result) (O.state out.old).faults (O.state out.new).faults }
        ensures ran { HasRun (answer_at result self.new.ending) 1 self.old self.new
            (I.state input.old) (I.state input.new) (O.state out.old) (O.state out.new) }
    {
        match self.advance() {
            Turn::Over => None,
            Turn::Call { next, word } => self.call(next, word, input, out),
        }
    }

    /// TurnDoes what an ECALL asks for. Answers the device that failed, if one did; then nothing was executed.
    fn call<I: Source, O: Sink>(
        &mut self,
        next: u32,
        word: u32,
        input: &mut I,
        out: &mut O,
    ) -> Option<Device>
        requires whole { self.old.faulted ≡ false }
        requires going { self.old.ending ≡ going }
        requires room { self.old.executed + 1 < 2 ^ 64 }
        requires calls { NextDoes (calls next word) self.old }
        ensures input_faults { Rises (is_input result) (I.state input.old).faults (I.state input.new).faults }
        ensures output_faults { Rises (is_output result) (O.state out.old).faults (O.state out.new).faults }
        ensures ran { HasRun (answer_at result self.new.ending) 1 self.old self.new
            (I.state input.old) (I.state input.new) (O.state out.old) (O.state out.new) }
    {
        let file = self.registers.get(Register::A0);
        let at = self.registers.get(Register::A1);
        let count = self.registers.get(Register::A2);
        match self.registers.get(Register::A7) {
            READ if file == STANDARD_INPUT && self.memory.can(Access::Store, at, count) => {
                self.read(next, input).then_some(Device::Input)
            }
            WRITE if file == STANDARD_OUTPUT && self.memory.can(Access::Load, at, count) => {
                self.write(next, out).then_some(Device::Output)
            }
            EXIT => {
                self.exit(next);
                None
            }
            _ => {
                self.trap(UNKNOWN_CALL, word);
                None
            }
        }
    }

    /// Reads a byte, where some are asked for and there is one. Answers whether the source failed.
    fn read<I: Source>(&mut self, next: u32, input: &mut I) -> bool
        requires whole { self.old.faulted ≡ false }
        requires going { self.old.ending ≡ going }
        requires room { self.old.executed + 1 < 2 ^ 64 }
        requires reads { NextDoes (λ s. goes (reads next s)) self.old }
        requires allowed { can_store self.old.parts (value (registers_of self.old.registers) 11)
            (value (registers_of self.old.registers) 12)
            ≡ true }
        ensures faults { Rises result (I.state input.old).faults (I.state input.new).faults }
        ensures ran { (sink : SinkState)
            → HasRun (answer_at (then_some result Device.Input) self.new.ending) 1 self.old self.new
            (I.state input.old)
            (I.state input.new) sink sink }
    {
        if self.registers.get(Register::A2) == 0 {
            self.set(Register::A0, 0, next);
            return false;
        }
        match input.next() {
            Next::Byte(byte) => {
                let at = self.registers.get(Register::A1);
                self.memory.store_byte(at, byte);
                self.set(Register::A0, 1, next);
                false
            }
            Next::End => {
                self.set(Register::A0, 0, next);
                false
            }
            Next::Failed => {
                self.faulted = true;
                true
            }
        }
    }

    /// Puts bytes of the memory in one piece, where there are some. Answers whether the sink failed.
    fn write<O: Sink>(&mut self, next: u32, out: &mut O) -> bool
        requires whole { self.old.faulted ≡ false }
        requires going { self.old.ending ≡ going }
        requires room { self.old.executed + 1 < 2 ^ 64 }
        requires writes { NextDoes (λ s. goes (writes next s)) self.old }
        requires allowed { can_load self.old.parts (value (registers_of self.old.registers) 11)
            (value (registers_of self.old.registers) 12)
            ≡ true }
        ensures faults { Rises result (O.state out.old).faults (O.state out.new).faults }
        ensures ran { (source : SourceState)
            → HasRun (answer_at (then_some result Device.Output) self.new.ending) 1 self.old self.new
            source source (O.state out.old) (O.state out.new) }
    {
        let at = self.registers.get(Register::A1);
        let count = self.registers.get(Register::A2);
        if count > 0 {
            if let Put::Failed(_) = out.put(self.memory.bytes(at, count)) {
                self.faulted = true;
                return true;
            }
        }
        self.set(Register::A0, count, next);
        false
    }

    /// The run has ended by an exit with the lowest 8 bits of x10.
    fn exit(&mut self, next: u32)
        requires room { self.old.executed + 1 < 2 ^ 64 }
        ensures { TurnDoes
            (λ s. record { processor = stepped next s; ending = exited (value s.registers 10 % 256) })
            Turn.Over self.old self.new }
    {
        self.phase = Phase::Exited((self.registers.get(Register::A0) % 256) as u8);
        self.finish(next);
    }

    /// Executes the next instruction, up to a call of the environment.
    fn advance(&mut self) -> Turn
        requires going { self.old.ending ≡ going }
        requires room { self.old.executed + 1 < 2 ^ 64 }
        ensures { TurnDoes step result self.old self.new }
    {
        let Some(word) = self.memory.fetch(self.pc) else {
            self.trap(FETCH_FAULT, 0);
            return Turn::Over;
        };
        match decode(word) {
            Some(instr) => self.execute(instr, word),
            None => {
                self.trap(ILLEGAL_INSTRUCTION, word);
                Turn::Over
            }
        }
    }

    /// Executes an instruction, whose word this is, up to a call of the environment.
    fn execute(&mut self, instr: Instr, word: u32) -> Turn
        requires going { self.old.ending ≡ going }
        requires room { self.old.executed + 1 < 2 ^ 64 }
        ensures { TurnDoes (λ s. executes s word instr) result self.old self.new }
    {
        let operands = instr.operands();
        let a = self.registers.get(operands.rs1);
        let b = self.registers.get(operands.rs2);
        let effect = effect(instr, self.pc, a, b);
        if effect.next % 4 != 0 {
            self.trap(MISALIGNED_TARGET, word);
            return Turn::Over;
        }
        self.act(effect, operands.rd, word)
    }

    /// TurnDoes what an instruction asks for, up to a call of the environment.
    fn act(&mut self, effect: Effect, rd: Register, word: u32) -> Turn
        requires going { self.old.ending ≡ going }
        requires room { self.old.executed + 1 < 2 ^ 64 }
        requires width { MovesWidth effect.act }
        ensures { TurnDoes (acts effect.act rd.number effect.next word) result self.old self.new }
    {
        let next = effect.next;
        match effect.act {
            Act::Nothing => self.finish(next),
            Act::Set(value) => self.set(rd, value, next),
            Act::Load { at, width, signed } => self.load_number(rd, at, width, signed, next, word),
            Act::Store { at, width, value } => self.store_number(at, width, value, next, word),
            Act::Call => return Turn::Call { next, word },
            Act::Break => self.trap(ILLEGAL_INSTRUCTION, word),
        }
        Turn::Over
    }

    /// The run has ended by a trap at this instruction.
    fn trap(&mut self, cause: u8, word: u32)
        ensures { TurnDoes (traps cause word) Turn.Over self.old self.new }
    {
        self.phase = Phase::Trapped {
            cause,
            pc: self.pc,
            word,
        };
    }

    /// A register becomes a word, and the next instruction stands at `next`.
    fn set(&mut self, register: Register, word: u32, next: u32)
        requires going { self.old.ending ≡ going }
        requires room { self.old.executed + 1 < 2 ^ 64 }
        ensures { TurnDoes (λ s. goes (record (stepped next s) { registers = put register.number word s.registers }))
            Turn.Over self.old self.new }
    {
        self.registers.set(register, word);
        self.finish(next);
    }

    /// Loads a number into a register.
    fn load_number(&mut self, rd: Register, at: u32, width: u8, signed: bool, next: u32, word: u32)
        requires going { self.old.ending ≡ going }
        requires room { self.old.executed + 1 < 2 ^ 64 }
        requires width { IsWidth width }
        ensures { TurnDoes (acts (Act.Load at width signed) rd.number next word) Turn.Over self.old self.new }
    {
        if at % u32::from(width) != 0 {
            self.trap(MISALIGNED_ACCESS, word);
            return;
        }
        match self.memory.load(at, width) {
            Some(number) => self.set(rd, widened(width, signed, number), next),
            None => self.trap(ACCESS_FAULT, word),
        }
    }

    /// Stores the lowest bytes of a word.
    fn store_number(&mut self, at: u32, width: u8, value: u32, next: u32, word: u32)
        requires going { self.old.ending ≡ going }
        requires room { self.old.executed + 1 < 2 ^ 64 }
        requires width { IsWidth width }
        ensures { (rd : ℕ) → TurnDoes (acts (Act.Store at width value) rd next word) Turn.Over self.old self.new }
    {
        if at % u32::from(width) != 0 {
            self.trap(MISALIGNED_ACCESS, word);
            return;
        }
        if self.memory.store(at, width, value) {
            self.finish(next);
        } else {
            self.trap(ACCESS_FAULT, word);
        }
    }
}

/// A number of `width` bytes as a word. Where it is signed, its highest bit is copied into the bits above.
fn widened(width: u8, signed: bool, number: u32) -> u32
    requires width { IsWidth width }
    requires fits { number < 256 ^ width }
    ensures { result ≡ widened width signed number }
{
    if !signed {
        return number;
    }
    match width {
        1 if number >= 0x80 => number + 0xffff_ff00,
        2 if number >= 0x8000 => number + 0xffff_0000,
        _ => number,
    }
}
