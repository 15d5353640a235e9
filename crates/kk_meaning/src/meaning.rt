ghost use Rattle.std.specs.Prelude.{◌≡◌, IfOk, OnErr};
ghost use Rattle.kk_syntax.specs.Programs.{program_tree};
ghost use Rattle.kk_source.specs.State.{start};
ghost use Rattle.kk_source.specs.Sound.{Sound, AllWithin-prop, ControlWithin-prop, FramesWithin-prop};
ghost use Rattle.std.proofs.Props.{props};
ghost use Rattle.kk_source.specs.Settings.{IsRun};
ghost use Rattle.kk_source.specs.Step.{step_of};
ghost use Rattle.kk_meaning.specs.Machines.{setting_of, configuration_of, Fits, ControlFits-prop, FramesFit-prop};
ghost use Rattle.kk_meaning.specs.Turns.{turn_of, TakesByte, Reads};
ghost use Rattle.kk_meaning.specs.declared.turn.Turn.TheVariants.{WantsInput};

use crate::binding::Bindings;
use crate::frame::Frame;
use crate::machine::{Control, Machine};
use crate::turn::Turn;
use crate::value::Value;
use kk_base::NoMemory;
use kk_borrow::owned;
use kk_syntax::{Accepted, Program};
use std::alloc::Global;

/// The store machine of a program, somewhere in a run.
#[derive(Drop)]
pub struct Meaning<'a> {
    machine: Machine<'a>,
    ghost fits: { Fits machine } by { Prim.hlevel (props, ControlFits-prop, FramesFit-prop) },
    ghost sound: { Sound (configuration_of machine) } by { Prim.hlevel (props, AllWithin-prop, ControlWithin-prop, FramesWithin-prop) },
}

impl<'a> Meaning<'a> {
    /// The machine of an accepted program at its start, with so many cells in its heap and call frames in its stack. It runs the
    /// program with its owned positions, which are found here.
    pub fn start(
        alloc: Global,
        accepted: &'a Accepted,
        cells: u32,
        depth: u32,
    ) -> Result<Self, NoMemory>
        ensures setting { IfOk result (λ meaning.
            IsRun (program_tree accepted.now.typed.program) cells depth (setting_of meaning.machine)) }
        ensures start { IfOk result (λ meaning.
            configuration_of meaning.machine ≡ start (setting_of meaning.machine)) }
    {
        Meaning::of_program(alloc, &accepted.typed.program, cells, depth)
    }

    // The same of any program, be it accepted or not.
    fn of_program(
        alloc: Global,
        program: &'a Program,
        cells: u32,
        depth: u32,
    ) -> Result<Self, NoMemory>
        ensures setting { IfOk result (λ meaning.
            IsRun (program_tree program.now) cells depth (setting_of meaning.machine)) }
        ensures start { IfOk result (λ meaning.
            configuration_of meaning.machine ≡ start (setting_of meaning.machine)) }
    {
        let positions = owned(alloc, program)?;
        let mut frames = Vec::new(alloc);
        frames.push(Frame::Call {
            lent: Vec::new(alloc),
            before: 0,
        })?;
        let body = &program.main_function().body;
        let machine = Machine {
            alloc,
            program,
            positions,
            cells,
            depth,
            control: Control::Expression(body, 0),
            frames,
            calls: 1,
            bindings: Bindings::new(alloc),
            store: Vec::new(alloc),
        };
        Ok(Meaning { machine })
    }

    /// One step. At the end there are no more: the same turn comes again. A step that takes a byte of the input is not
    /// done: it is asked for by `WantsInput`, again and again until `give` does it. Where memory is refused the machine
    /// is as it was.
    pub fn step(&mut self) -> Result<Turn, NoMemory>
        ensures setting { setting_of self.new.machine ≡ setting_of self.old.machine }
        ensures ok { IfOk result (λ turn.
            (turn, configuration_of self.new.machine)
            ≡ turn_of (configuration_of self.old.machine)
            (step_of (setting_of self.old.machine) (configuration_of self.old.machine))) }
        ensures err { OnErr result (configuration_of self.new.machine ≡ configuration_of self.old.machine) }
        ensures wanted { IfOk result (λ turn.
            turn ≡ WantsInput
            → TakesByte (step_of (setting_of self.new.machine) (configuration_of self.new.machine))) }
    {
        self.machine.step()
    }

    /// The next byte of the input, or by `None` its end: the step that `WantsInput` asked for. Its value is the byte, or
    /// -1. Takes no memory.
    pub fn give(&mut self, byte: Option<u8>)
        requires wanted { TakesByte (step_of (setting_of self.old.machine) (configuration_of self.old.machine)) }
        ensures setting { setting_of self.new.machine ≡ setting_of self.old.machine }
        ensures step { Reads (setting_of self.old.machine) byte
            (configuration_of self.old.machine) (configuration_of self.new.machine) }
    {
        let older = self.machine.frames_without_read();
        self.machine.give_back(Value::of_byte(byte), older);
    }
}
