// The opcodes by their names in the base opcode map, and the words that are no format's.
// The RISC-V Instruction Set Manual, Volume I: Unprivileged ISA, "RV32/64G Instruction Set Listings".

/// Opcode of loads: LB, LH, LW, LBU and LHU.
pub const LOAD: u32 = 0x03;

/// Opcode of FENCE.
pub const MISC_MEM: u32 = 0x0f;

/// Opcode of operations on a register and an immediate.
pub const OP_IMM: u32 = 0x13;

/// Opcode of AUIPC.
pub const AUIPC: u32 = 0x17;

/// Opcode of stores: SB, SH and SW.
pub const STORE: u32 = 0x23;

/// Opcode of operations on two registers, those of M among them.
pub const OP: u32 = 0x33;

/// Opcode of LUI.
pub const LUI: u32 = 0x37;

/// Opcode of branches.
pub const BRANCH: u32 = 0x63;

/// Opcode of JALR.
pub const JALR: u32 = 0x67;

/// Opcode of JAL.
pub const JAL: u32 = 0x6f;

/// Opcode of ECALL and EBREAK.
pub const SYSTEM: u32 = 0x73;

/// `fence iorw, iorw`: FENCE as it is written.
pub const FENCE: u32 = 0x0ff0_000f;

/// The word of ECALL.
pub const ECALL: u32 = 0x0000_0073;

/// The word of EBREAK.
pub const EBREAK: u32 = 0x0010_0073;
