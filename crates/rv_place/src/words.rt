ghost use Rattle.std.specs.Prelude.{IfOk};
ghost use Rattle.rv_place.specs.Bytes.{AreWordsOf, IsTextOf};

use byteorder::{ByteOrder, LittleEndian};
use kk_base::NoMemory;
use rv_isa::{Instr, encode};
use std::alloc::Global;

/// The words of a text: its instructions, those of the runtime first, and the constant bytes behind them.
#[derive(Drop)]
pub struct Words {
    pub instructions: Vec<Instr>,
    pub constants: Vec<u8>,
}

impl Words {
    /// The bytes of the text: those of its instructions, the lowest of each word first, and the constants behind them.
    pub fn bytes(&self, alloc: Global) -> Result<Vec<u8>, NoMemory>
        ensures { IfOk result (λ bytes. IsTextOf self.now bytes.items) }
    {
        let constants = self.constants.as_slice();
        let mut text = code_bytes(alloc, self.instructions.as_slice())?;
        text.extend_from_slice(constants)?;
        Ok(text)
    }
}

/// The words of instructions as bytes.
fn code_bytes(alloc: Global, instructions: &[Instr]) -> Result<Vec<u8>, NoMemory>
    ensures { IfOk result (λ bytes. AreWordsOf instructions.now bytes.items) }
{
    let mut bytes = Vec::new(alloc);
    for instruction in instructions {
        let mut word = [0; 4];
        LittleEndian::write_u32(&mut word, encode(*instruction));
        bytes.extend_from_slice(&word)?;
    }
    Ok(bytes)
}
