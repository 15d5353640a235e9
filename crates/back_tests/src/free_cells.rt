//! How many cells are free, with registers that no compiled program leaves.

use elf_image::Image;
use kk_base::Bytes;
use kk_memio::{MemSink, MemSource};
use rv_sim::Machine;
use std::alloc::Global;
use std::process::Abort;

// The words are those of LLVM's assembler.
const NOP: u32 = 0x0000_0013;
/// `lui s0, 0x11`, where the memory begins
const S0_MEMORY: u32 = 0x0001_1437;
/// `addi s0, s0, 1`
const S0_PLUS_1: u32 = 0x0014_0413;
/// `sw s0, 0(s0)`
const OWN: u32 = 0x0084_2023;
/// `lui s2, 0x20` and `lui s2, 0x22`
const S2_LOW: u32 = 0x0002_0937;

const S2_HIGH: u32 = 0x0002_2937;
/// `lui s3, 0x21` and `addi s3, s3, 1`
const S3_END: u32 = 0x0002_19b7;

const S3_PLUS_1: u32 = 0x0019_8993;

/// The words, at most so many cells, and how many are free after them.
static ROWS: [(&[u32], u32, u32); 12] = [
    (&[NOP], 10, 0),
    (&[S0_MEMORY], 10, 1),
    (&[S0_MEMORY], 0, 0),
    (&[S0_MEMORY, OWN], 10, 10),
    // Not aligned; in no part; and with only three bytes in one.
    (&[S0_MEMORY, S0_PLUS_1], 10, 1),
    (&[S0_PLUS_1], 10, 0),
    (
        &[
            S0_MEMORY, S0_PLUS_1, S0_PLUS_1, S0_PLUS_1, S0_PLUS_1, S0_PLUS_1,
        ],
        10,
        0,
    ),
    // Never used: alone, behind a chain, as many as are asked for; and none where x18 is above x19 or one is no cell's.
    (&[S2_LOW, S3_END], 1000, 128),
    (&[S0_MEMORY, S2_LOW, S3_END], 1000, 129),
    (&[S0_MEMORY, S2_LOW, S3_END], 10, 10),
    (&[S2_HIGH, S3_END], 10, 0),
    (&[S2_LOW, S3_END, S3_PLUS_1], 10, 0),
];

/// The machine behind these words, with 8 bytes of memory at 0x11000.
fn behind(rt: &impl Abort, alloc: Global, words: &[u32]) -> Machine {
    let mut text = Vec::new(alloc);
    for word in words {
        text.extend_from_slice(&word.to_le_bytes())
            .expect(rt, "text");
    }
    let size = text.len();
    assert!(rt; (size > 0) & (size < 0x1000));
    let image = Image::program(alloc, Bytes::from_vec(text), 8).expect(rt, "image");
    let mut machine = Machine::load(alloc, &image).expect(rt, "machine");
    let mut input = MemSource::new(alloc, b"", &[]).expect(rt, "input");
    let mut out = MemSink::new(alloc, 0, &[]).expect(rt, "output");
    machine.run(100, &mut input, &mut out);
    machine
}

#[test]
fn free_cells(rt: HostRuntime) {
    for (words, cells, expected) in ROWS {
        let machine = behind(&rt, rt.alloc(), words);
        assert_eq!(rt; machine.free_cells(cells), expected);
    }
}
