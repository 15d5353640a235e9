ghost use Rattle.std.specs.Prelude.{◌≡◌, ◌++◌, IfOk, OnOk, map};
ghost use Rattle.std.specs.Fmt.{signed_decimal};
ghost use Rattle.kk_syntax.specs.Programs.{program_tree};
ghost use Rattle.kk_syntax.specs.Outlines.{outline_list, pattern_outline};
ghost use Rattle.kk_cover.specs.ExampleSpelling.{constructor_name, spelled, spelled_parts};

use kk_base::{NoMemory, Text};
use kk_syntax::{Pat, Program};
use std::alloc::Global;

/// An example as it is written: `_` for wildcards and variables, numbers in decimal, a constructor's name, and its parts, if
/// any, in brackets with `, ` between them.
///
/// The recursion is as deep as the pattern.
pub fn example_text(alloc: Global, program: &Program, example: &Pat) -> Result<Text, NoMemory>
    ensures { IfOk result (λ text. text ≡ spelled (program_tree program.now) (pattern_outline example.now)) }
{
    let mut bytes = Vec::new(alloc);
    spell(alloc, program, example, &mut bytes)?;
    Ok(Text::from_vec(bytes))
}

// Adds a pattern as it is written.
#[cycle(spell)]
fn spell(
    alloc: Global,
    program: &Program,
    pattern: &Pat,
    bytes: &mut Vec<u8>,
) -> Result<(), NoMemory>
    ensures { OnOk result (bytes.new.items ≡ bytes.old.items ++ spelled (program_tree program.now) (pattern_outline pattern.now)) }
{
    match pattern {
        Pat::Wildcard | Pat::Variable(_) => {
            bytes.push(b'_')?;
            Ok(())
        }
        Pat::Number(number) => spell_number(alloc, *number, bytes),
        Pat::Constructor(constructor, parts) => {
            spell_name(program, *constructor, bytes)?;
            spell_parts(alloc, program, parts, bytes)
        }
    }
}

// Adds the parts of a pattern in brackets, if there are any.
#[cycle(spell)]
fn spell_parts(
    alloc: Global,
    program: &Program,
    parts: &[Pat],
    bytes: &mut Vec<u8>,
) -> Result<(), NoMemory>
    ensures { OnOk result (bytes.new.items ≡ bytes.old.items ++ spelled_parts (program_tree program.now) (outline_list (map pattern_outline parts.now))) }
{
    if parts.is_empty() {
        return Ok(());
    }
    let mut separator: &[u8] = b"(";
    for part in parts {
        bytes.extend_from_slice(separator)?;
        spell(alloc, program, part, bytes)?;
        separator = b", ";
    }
    bytes.push(b')')?;
    Ok(())
}

// Adds a number in decimal.
fn spell_number(alloc: Global, number: i32, bytes: &mut Vec<u8>) -> Result<(), NoMemory>
    ensures { OnOk result (bytes.new.items ≡ bytes.old.items ++ signed_decimal number) }
{
    let digits = number.to_string(alloc)?;
    bytes.extend_from_slice(digits.as_bytes())?;
    Ok(())
}

// Adds the name of a constructor; nothing where there is no such constructor.
fn spell_name(program: &Program, constructor: u32, bytes: &mut Vec<u8>) -> Result<(), NoMemory>
    ensures { OnOk result (bytes.new.items ≡ bytes.old.items ++ constructor_name (program_tree program.now) constructor) }
{
    match program.constructors.get(constructor as usize) {
        Some(declared) => {
            bytes.extend_from_slice(declared.name.as_str().as_bytes())?;
            Ok(())
        }
        None => Ok(()),
    }
}
