ghost use Rattle.std.specs.Prelude.{◌≡◌, ◌<◌, length, map, None, IfOk, IfSome, IsTrue, ◌↔◌, vec_len};
ghost use Rattle.kk_syntax.specs.Programs.{function_tree, program_tree};
ghost use Rattle.kk_syntax.specs.Surface.{written_declaration, written_tree};
ghost use Rattle.kk_names.specs.Faults.{faults_of};
ghost use Rattle.kk_names.specs.Methods.{parts_of, main_among, first_with, AnswersMain, IsNoMain, IsOtherMain};
ghost use Rattle.kk_names.specs.Names.{parts_meant, program_of, IsMainShaped, AnswersNames, KeepsNodes, KeepsDepth, EachTreeIsResolved, ResolvedProgramsHaveMain, ResolvedProgramsHaveTruthsAndTexts};

use crate::fault::Fault;
use crate::resolver::Resolver;
use crate::types::AllTypes;
use kk_base::{Name, NameError, NoMemory};
use kk_syntax::{Constructor, Declaration, Fun, Program, StringLiteral, Tree, Ty, TypeDecl};
use std::alloc::Global;

/// The program of a tree; or its first fault; or that it has no function `main`, or one with a parameter or a result.
pub fn resolve(alloc: Global, tree: Tree) -> Result<Program, NameError>
    ensures resolved { AnswersNames tree result }
    ensures keeps_nodes { IfOk result (λ program.
        KeepsNodes (written_tree tree).declarations (program_tree program).functions) }
    ensures keeps_depth { IfOk result (λ program. KeepsDepth tree.declarations.items program.functions.items) }
{
    let Ok(resolved) = resolve_all(alloc, tree.declarations.as_slice()) else {
        return Err(NameError::NoMemory);
    };
    let Resolved { parts, fault } = resolved;
    match fault {
        Some(fault) => Err(fault.error()),
        None => with_main(alloc, parts, tree.length),
    }
}

/// Each tree means exactly one program, or has exactly one first error. It is a law, and does nothing.
pub fn each_tree_is_resolved()
    ensures { EachTreeIsResolved }
{}

/// A program that a tree means has a function `main` without parameters and without a result. It is a law, and does
/// nothing.
pub fn resolved_programs_have_main()
    ensures { ResolvedProgramsHaveMain }
{}

/// In a program that a tree means, `bool` has the constructors `False` and `True` alone, which have no fields, and each
/// string literal that a function prints is one of the program's. It is a law, and does nothing.
pub fn resolved_programs_have_truths_and_texts()
    ensures { ResolvedProgramsHaveTruthsAndTexts }
{}

/// A program but for which function is `main`.
#[derive(Drop)]
pub struct ProgramParts {
    pub types: Vec<TypeDecl>,
    pub constructors: Vec<Constructor>,
    pub functions: Vec<Fun>,
    pub texts: Vec<StringLiteral>,
}

// What declarations come to: the parts of their program, and the first fault.
#[derive(Drop)]
struct Resolved {
    parts: ProgramParts,
    fault: Option<Fault>,
}

// What declarations come to.
fn resolve_all(alloc: Global, declarations: &[Declaration]) -> Result<Resolved, NoMemory>
    ensures parts { IfOk result (λ r. parts_of r.parts ≡ parts_meant (map written_declaration declarations.now)) }
    ensures fault { IfOk result (λ r. r.fault ≡ first_with None (faults_of (map written_declaration declarations.now))) }
    ensures depth { IfOk result (λ r. KeepsDepth declarations.now r.parts.functions.items) }
{
    let mut resolver = Resolver::new(alloc)?;
    resolver.declare(declarations)?;
    let all = resolver.all_types(declarations)?;
    let functions = resolver.all_functions(declarations)?;
    let AllTypes {
        types,
        constructors,
    } = all;
    let Resolver { texts, first, .. } = resolver;
    let parts = ProgramParts {
        types,
        constructors,
        functions,
        texts,
    };
    Ok(Resolved {
        parts,
        fault: first,
    })
}

// The program of parts without faults, or what is wrong with their `main`.
fn with_main(alloc: Global, parts: ProgramParts, length: u32) -> Result<Program, NameError>
    ensures answers { AnswersMain (parts_of parts) length result }
    ensures functions { IfOk result (λ program. program.functions.items ≡ parts.functions.items) }
{
    let Some(main) = find_main(parts.functions.as_slice()) else {
        return Err(no_main(alloc, length));
    };
    let function = &parts.functions[main];
    if !is_main_shaped(function) {
        return Err(other_main(alloc, function));
    }
    match program(parts, main) {
        Ok(program) => Ok(program),
        Err(NoMemory) => Err(NameError::NoMemory),
    }
}

// The error that no function is called `main`.
fn no_main(alloc: Global, length: u32) -> NameError
    ensures { IsNoMain length result }
{
    match String::from_str(alloc, "main") {
        Ok(spelling) => NameError::NoMain {
            name: Name::new(spelling),
            at: length,
        },
        Err(_) => NameError::NoMemory,
    }
}

// The error that a function `main` has a parameter or a result.
fn other_main(alloc: Global, function: &Fun) -> NameError
    ensures { IsOtherMain function.now result }
{
    match function.name.copied(alloc) {
        Ok(name) => NameError::MainShape {
            name,
            at: function.at,
        },
        Err(NoMemory) => NameError::NoMemory,
    }
}

// Whether a function takes nothing and gives nothing.
fn is_main_shaped(function: &Fun) -> bool
    ensures { IsTrue result ↔ IsMainShaped (function_tree function.now) }
{
    let gives_unit = match function.result {
        Ty::Unit => true,
        _ => false,
    };
    gives_unit && function.parameters.is_empty()
}

// The number of `main`.
fn find_main(functions: &[Fun]) -> Option<usize>
    ensures value { result ≡ main_among functions.now }
    ensures within { IfSome result (λ main. main < length functions.now) }
{
    functions
        .iter()
        .position(|function| function.name.as_str() == "main")
}

// The program of parts, of whose functions one is `main`. There is no room for more functions than a `u32` can number.
fn program(parts: ProgramParts, main: usize) -> Result<Program, NoMemory>
    requires { main < vec_len parts.functions }
    ensures tree { IfOk result (λ program. program_tree program ≡ program_of (parts_of parts) main) }
    ensures functions { IfOk result (λ program. program.functions.items ≡ parts.functions.items) }
{
    if main > u32::MAX as usize {
        return Err(NoMemory);
    }
    let ProgramParts {
        types,
        constructors,
        functions,
        texts,
    } = parts;
    Ok(Program {
        types,
        constructors,
        functions,
        texts,
        main: main as u32,
    })
}
