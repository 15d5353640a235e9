//! Lines whose branches name the labels that they lead to, and the lines that they become.

ghost use Rattle.std.specs.Prelude.{◌≡◌, ◌+◌, ◌*◌, ◌≤◌, ◌++◌, [], OnOk, length};
ghost use Rattle.cell_runtime.specs.Links.{branch_of, distance, size_of_line, is_label, place_of, row_of, with_row, linked, most_lines};

use kk_base::NoMemory;
use rv_isa::{BranchOffset, Condition, Instr, Native, Register, Symbol};

fn branch_of(condition: Condition, rs1: Register, rs2: Register, offset: BranchOffset) -> Instr
    ensures { result ≡ branch_of condition rs1 rs2 offset }
{
    match condition {
        Condition::Equal => Instr::Beq { rs1, rs2, offset },
        Condition::NotEqual => Instr::Bne { rs1, rs2, offset },
        Condition::Less => Instr::Blt { rs1, rs2, offset },
        Condition::GreaterEqual => Instr::Bge { rs1, rs2, offset },
        Condition::LessUnsigned => Instr::Bltu { rs1, rs2, offset },
        Condition::GreaterEqualUnsigned => Instr::Bgeu { rs1, rs2, offset },
    }
}

/// The distance from one instruction to another, by how many stand before each.
fn distance(from: u32, to: u32) -> BranchOffset
    requires from { from ≤ 2 * most_lines }
    requires to { to ≤ 2 * most_lines }
    ensures { result ≡ distance from to }
{
    BranchOffset::new((4 * to).wrapping_sub(4 * from))
}

/// How many instructions a line becomes.
fn size_of_line(line: &Native) -> u32
    ensures size { result ≡ size_of_line line.now }
    ensures few { result ≤ 2 }
{
    match line {
        Native::Instruction(_) | Native::Branch { .. } => 1,
        Native::Address { .. } => 2,
        Native::Label(_) | Native::Jump(_) | Native::Call(_) => 0,
    }
}

fn is_label(line: &Native, label: u32) -> bool
    ensures { result ≡ is_label label line.now }
{
    match line {
        Native::Label(Symbol::Local(other)) => *other == label,
        _ => false,
    }
}

/// How many instructions stand before a label.
fn place_of(lines: &[Native], label: u32) -> u32
    requires { length lines.now ≤ most_lines }
    ensures place { result ≡ place_of label lines.now }
    ensures few { result ≤ 2 * most_lines }
{
    let mut before = 0;
    for line in lines {
        if is_label(line, label) {
            return before;
        }
        before += size_of_line(line);
    }
    before
}

/// What a line becomes that stands behind so many instructions of the lines.
fn row_of(lines: &[Native], at: u32, line: &Native) -> Option<Native>
    requires at { at ≤ 2 * most_lines }
    requires few { length lines.now ≤ most_lines }
    ensures { result ≡ row_of lines.now at line.now }
{
    match line {
        Native::Label(_) => None,
        Native::Branch {
            condition,
            left,
            right,
            target: Symbol::Local(label),
        } => {
            let offset = distance(at, place_of(lines, *label));
            Some(Native::Instruction(branch_of(*condition, *left, *right, offset)))
        }
        other => Some(*other),
    }
}

fn push(rows: &mut Vec<Native>, row: Option<Native>) -> Result<(), NoMemory>
    ensures { OnOk result (rows.new.items ≡ rows.old.items ++ with_row row []) }
{
    match row {
        Some(row) => match rows.push(row) {
            Ok(()) => Ok(()),
            Err(_) => Err(NoMemory),
        },
        None => Ok(()),
    }
}

/// Adds the lines of a routine, each branch to a label of theirs as the instruction that it is, and without these labels.
pub fn link(rows: &mut Vec<Native>, lines: &[Native]) -> Result<(), NoMemory>
    requires { length lines.now ≤ most_lines }
    ensures { OnOk result (rows.new.items ≡ rows.old.items ++ linked lines.now) }
{
    let mut at = 0;
    for line in lines {
        push(rows, row_of(lines, at, line))?;
        at += size_of_line(line);
    }
    Ok(())
}
