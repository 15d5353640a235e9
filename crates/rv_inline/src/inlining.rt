// Calls of leaves, put in line.

ghost use Rattle.std.specs.Prelude.{◌≡◌, ◌≤◌, ◌<◌, ◌+◌, ◌++◌, ℕ, List, [], ◌∷◌, IfOk, IfSome, OnOk, length, map, option_map};
ghost use Rattle.rv_isa.specs.AsmCode.{Line, line_of, lines_of, asm_functions, asm_constants};
ghost use Rattle.rv_isa.specs.Costs.{code_length, functions_length};
ghost use Rattle.rv_isa.specs.ValueBounds.{AreValuesBelow, IsWrittenBelow, IsLineBelow, AreLinesBelow};
ghost use Rattle.rv_isa.specs.WellFormed.{most_values};
ghost use Rattle.rv_inline.specs.InLine.{named, named_line, in_line, most_fresh, AreInLine, IsInLine, HasInLine};
ghost use Rattle.rv_inline.specs.Growth.{most_growth, IsCallOf, Becomes};

use crate::counting::count_of_values;
use crate::leaf::{Leaf, leaf_of};
use kk_base::NoMemory;
use rv_isa::{Action, Asm, AsmFunction, Operation, Statement};
use std::alloc::Global;

/// The most instructions that a program's code grows by.
pub const MOST_GROWTH: usize = 4096;

/// The most instructions of a line that computes, with its moves.
const MOST_LINE: usize = 7;

/// The most values of a function in which calls stand in line: a frame has room for those of a leaf too.
const MOST_BASE: usize = 1014;

/// Adds a line.
fn push_line(
    alloc: Global,
    code: &mut Vec<Statement>,
    action: Action,
    args: &[u32],
    into: Option<u32>,
) -> Result<(), NoMemory>
    ensures { OnOk result (map line_of code.new.items
        ≡ map line_of code.old.items ++ (record { action = action; args = args.now; into = into } ∷ [])) }
{
    let args = Vec::from_slice(alloc, args)?;
    code.push(Statement { action, args, into })?;
    Ok(())
}

/// The value of the caller that stands for a value of a leaf.
#[tactic(auto, using(crate::proofs::NamedValues::named_argument, crate::proofs::NamedValues::named_fresh))]
fn named(base: usize, args: &[u32], value: u32) -> u32
    requires fits { base + most_fresh ≤ most_values }
    requires small { value < length args.now + most_fresh }
    ensures { result ≡ named base args.now value }
{
    let index = value as usize;
    if index < args.len() {
        args[index]
    } else {
        (base + (index - args.len())) as u32
    }
}

fn all_named(alloc: Global, base: usize, args: &[u32], values: &[u32]) -> Result<Vec<u32>, NoMemory>
    requires fits { base + most_fresh ≤ most_values }
    requires small { AreValuesBelow (length args.now + most_fresh) values.now }
    ensures { IfOk result (λ new. new.items ≡ map (named base args.now) values.now) }
{
    let mut new = Vec::new(alloc);
    for value in values {
        new.push(named(base, args, *value))?;
    }
    Ok(new)
}

fn written_named(base: usize, args: &[u32], into: Option<u32>) -> Option<u32>
    requires fits { base + most_fresh ≤ most_values }
    requires small { IsWrittenBelow (length args.now + most_fresh) into }
    ensures { result ≡ option_map (named base args.now) into }
{
    match into {
        Some(value) => Some(named(base, args, value)),
        None => None,
    }
}

fn line_named(
    alloc: Global,
    base: usize,
    args: &[u32],
    statement: &Statement,
) -> Result<Statement, NoMemory>
    requires fits { base + most_fresh ≤ most_values }
    requires small { IsLineBelow (length args.now + most_fresh) (line_of statement.now) }
    ensures { IfOk result (λ new. line_of new ≡ named_line base args.now (line_of statement.now)) }
{
    Ok(Statement {
        action: statement.action,
        args: all_named(alloc, base, args, &statement.args)?,
        into: written_named(base, args, statement.into),
    })
}

fn add_named(
    alloc: Global,
    code: &mut Vec<Statement>,
    base: usize,
    args: &[u32],
    body: &[Statement],
) -> Result<(), NoMemory>
    requires fits { base + most_fresh ≤ most_values }
    requires small { AreLinesBelow (length args.now + most_fresh) (map line_of body.now) }
    ensures { OnOk result (map line_of code.new.items
        ≡ map line_of code.old.items ++ map (named_line base args.now) (map line_of body.now)) }
{
    for statement in body {
        code.push(line_named(alloc, base, args, statement)?)?;
    }
    Ok(())
}

/// Adds the lines in place of a call.
fn add_in_line(
    alloc: Global,
    code: &mut Vec<Statement>,
    base: usize,
    args: &[u32],
    leaf: &Leaf<'_>,
    into: u32,
) -> Result<(), NoMemory>
    requires fits { base + most_fresh ≤ most_values }
    requires small { AreLinesBelow (length args.now + most_fresh) (map line_of leaf.now.body.now) }
    requires value { leaf.now.value < length args.now + most_fresh }
    ensures { OnOk result (map line_of code.new.items
        ≡ map line_of code.old.items ++ in_line base args.now (map line_of leaf.now.body.now) leaf.now.value into []) }
{
    push_line(alloc, code, Action::Room, &[], None)?;
    add_named(alloc, code, base, args, leaf.body)?;
    let value = named(base, args, leaf.value);
    let copy = Action::Compute(Operation::Mv);
    push_line(alloc, code, copy, &[value], Some(into))
}

/// A leaf that is called, and where its result goes.
#[derive(Clone, Copy, Drop)]
struct Called<'a> {
    leaf: Leaf<'a>,
    into: u32,
}

/// The leaf that a line calls, with an argument for each parameter, if it does.
fn called_leaf<'a>(functions: &'a [AsmFunction], statement: &Statement) -> Option<Called<'a>>
    ensures { IfSome result (λ called. IsCallOf (map lines_of functions.now) (line_of statement.now)
        (map line_of called.leaf.body.now) called.leaf.value called.into) }
{
    let Action::Call(function) = statement.action else {
        return None;
    };
    let into = statement.into?;
    let callee = functions.get(function as usize)?;
    if statement.args.len() != callee.params.len() {
        return None;
    }
    let leaf = leaf_of(callee)?;
    Some(Called { leaf, into })
}

/// Adds what a line becomes, where the code may grow by so much, and gives how much it may grow behind it.
fn add_line(
    alloc: Global,
    code: &mut Vec<Statement>,
    functions: &[AsmFunction],
    base: usize,
    growth: usize,
    statement: &Statement,
) -> Result<usize, NoMemory>
    ensures { IfOk result (λ left. (lines : List Line)
        × ((map line_of code.new.items ≡ map line_of code.old.items ++ lines)
        × Becomes (map lines_of functions.now) base (line_of statement.now) growth lines left)) }
{
    if base <= MOST_BASE {
        if let Some(called) = called_leaf(functions, statement) {
            let cost = MOST_LINE * called.leaf.body.len();
            if cost <= growth {
                add_in_line(
                    alloc,
                    code,
                    base,
                    &statement.args,
                    &called.leaf,
                    called.into,
                )?;
                return Ok(growth - cost);
            }
        }
    }
    push_line(
        alloc,
        code,
        statement.action,
        &statement.args,
        statement.into,
    )?;
    Ok(growth)
}

/// Code, and how much the code behind it may grow.
#[derive(Drop)]
struct GrownCode {
    code: Vec<Statement>,
    growth: usize,
}

/// A function, and how much the code behind it may grow.
#[derive(Drop)]
struct GrownFunction {
    function: AsmFunction,
    growth: usize,
}

/// The code of a function with so many values, with calls of leaves in line.
fn code_in_line(
    alloc: Global,
    functions: &[AsmFunction],
    base: usize,
    growth: usize,
    code: &[Statement],
) -> Result<GrownCode, NoMemory>
    ensures code { IfOk result (λ grown. AreInLine (map lines_of functions.now) base (map line_of code.now)
        (map line_of grown.code.items)) }
    ensures short { IfOk result (λ grown. code_length (map line_of grown.code.items) + grown.growth
        ≤ code_length (map line_of code.now) + growth) }
{
    let mut new = Vec::new(alloc);
    let mut left = growth;
    for statement in code {
        left = add_line(alloc, &mut new, functions, base, left, statement)?;
    }
    Ok(GrownCode {
        code: new,
        growth: left,
    })
}

fn function_in_line(
    alloc: Global,
    functions: &[AsmFunction],
    growth: usize,
    function: &AsmFunction,
) -> Result<GrownFunction, NoMemory>
    ensures function { IfOk result (λ grown. (base : ℕ) × IsInLine (map lines_of functions.now) base (lines_of function.now)
        (lines_of grown.function)) }
    ensures short { IfOk result (λ grown. functions_length (lines_of grown.function ∷ []) + grown.growth
        ≤ functions_length (lines_of function.now ∷ []) + growth) }
{
    let base = count_of_values(function);
    let params = Vec::from_slice(alloc, &function.params)?;
    let code = code_in_line(alloc, functions, base, growth, &function.code)?;
    let function = AsmFunction {
        params,
        code: code.code,
    };
    Ok(GrownFunction {
        function,
        growth: code.growth,
    })
}

fn functions_in_line(alloc: Global, functions: &[AsmFunction]) -> Result<Vec<AsmFunction>, NoMemory>
    ensures functions { IfOk result (λ new. HasInLine (map lines_of functions.now) (map lines_of new.items)) }
    ensures short { IfOk result (λ new. functions_length (map lines_of new.items)
        ≤ functions_length (map lines_of functions.now) + most_growth) }
{
    let mut new = Vec::new(alloc);
    let mut growth = MOST_GROWTH;
    for function in functions {
        let grown = function_in_line(alloc, functions, growth, function)?;
        growth = grown.growth;
        new.push(grown.function)?;
    }
    Ok(new)
}

/// The program with calls of leaves in line: as many of them as the bound on growth and the numbers of values leave room for. The others
/// stay calls. Its code is at most `MOST_GROWTH` instructions longer.
pub fn in_line(alloc: Global, asm: Asm) -> Result<Asm, NoMemory>
    ensures functions { IfOk result (λ new. HasInLine (asm_functions asm) (asm_functions new)) }
    ensures short { IfOk result (λ new. functions_length (asm_functions new) ≤ functions_length (asm_functions asm) + most_growth) }
    ensures constants { IfOk result (λ new. asm_constants new ≡ asm_constants asm) }
{
    let Asm {
        functions,
        constants,
    } = asm;
    let functions = functions_in_line(alloc, &functions)?;
    Ok(Asm {
        functions,
        constants,
    })
}
