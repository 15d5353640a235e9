ghost use Rattle.std.specs.Prelude.{◌≡◌, ◌<◌, ◌^◌, false, All, IfOk, IfErr, OnOk};
ghost use Rattle.kk_base.specs.Exactly.{IsOnly};
ghost use Rattle.kk_syntax.specs.Covered.{Each};
ghost use Rattle.kk_syntax.specs.Outlines.{pattern_outline};
ghost use Rattle.kk_syntax.specs.Programs.{program_tree};
ghost use Rattle.kk_syntax.specs.Shapes.{nodes_of};
ghost use Rattle.kk_syntax.specs.Surface.{WrittenTree};
ghost use Rattle.kk_syntax.specs.Typing.{ArePrincipal, TypesAs};
ghost use Rattle.kk_syntax.specs.TypedPrograms.{typings_of};
ghost use Rattle.kk_syntax.specs.Matches.{IsFunctionCovered};
ghost use Rattle.kk_names.specs.Names.{ResolvesAs};
ghost use Rattle.kk_cover.specs.ExampleSpelling.{spelled};
ghost use Rattle.kk_mono.specs.Grounds.{AreGiven};
ghost use Rattle.kk_front.specs.Judgement.{ChecksTypes, ChecksCover, ChecksProgram, RefusesProgram, wants_memory};
ghost use Rattle.kk_front.specs.Outcome.{IsOutcome};

use kk_base::{NoMemory, Refusal};
use kk_cover::{CoverError, cover, each_typed_program_is_decided, example_text};
use kk_limits::check_declarations;
use kk_mono::{MonoError, instances};
use kk_names::{resolved_programs_have_main, resolved_programs_have_truths_and_texts};
use kk_syntax::{Accepted, Fun, Pat, Program, Typed};
use kk_types::{TypeError, check};
use std::alloc::Global;

/// The program with its types and its instances, if it keeps the limits, is typed and its matches are covered; or its first
/// failure.
pub fn accept(alloc: Global, program: Program) -> Result<Accepted, Refusal>
    requires few { All (λ function. nodes_of function.body < 2 ^ 31) (program_tree program).functions }
    requires resolved { (tree : WrittenTree) × ResolvesAs tree (Ok (program_tree program)) }
    ensures program { IfOk result (λ accepted. program_tree accepted.typed.program ≡ program_tree program) }
    ensures ok { OnOk result (IsOutcome (ChecksProgram (program_tree program)) (Ok (program_tree program))) }
    ensures principal { IfOk result (λ accepted.
        ArePrincipal (program_tree accepted.typed.program) (typings_of accepted.typed)) }
    ensures covered { IfOk result (λ accepted.
        let program = program_tree accepted.typed.program in Each (IsFunctionCovered program) program.functions) }
    ensures instances { IfOk result (λ accepted. AreGiven accepted.typed accepted.instances) }
    ensures err { IfErr result (RefusesProgram (program_tree program)) }
{
    resolved_programs_have_main();
    resolved_programs_have_truths_and_texts();
    if let Err(limit) = check_declarations(&program) {
        return Err(Refusal::Over(limit));
    }
    let typed = typed(alloc, &program)?;
    covered(alloc, &typed)?;
    match instances(alloc, &typed) {
        Ok(instances) => Ok(Accepted { typed, instances }),
        Err(MonoError::Over(limit)) => Err(Refusal::Over(limit)),
        Err(MonoError::NoMemory) => Err(Refusal::NoMemory),
    }
}

// The program with its types; the first function that is not typed is told by its name.
fn typed(alloc: Global, program: &Program) -> Result<Typed, Refusal>
    ensures program { IfOk result (λ typed. program_tree typed.program ≡ program_tree program.now) }
    ensures principal { IfOk result (λ typed. ArePrincipal (program_tree typed.program) (typings_of typed)) }
    ensures ok { OnOk result (IsOnly (ChecksTypes (program_tree program.now)) (Ok tt)) }
    ensures err { IfErr result (λ refusal. wants_memory refusal ≡ false
        → IsOnly (ChecksTypes (program_tree program.now)) (Err refusal)) }
{
    match check(alloc, program) {
        Ok(typed) => Ok(typed),
        Err(TypeError::NotTyped { function }) => {
            Err(not_typed(alloc, &program.functions[function as usize]))
        }
        Err(TypeError::NoMemory) => Err(Refusal::NoMemory),
    }
}

// Checks that each match of a typed program is covered; the first function with another is told by its name, with an
// example.
fn covered(alloc: Global, typed: &Typed) -> Result<(), Refusal>
    requires few { All (λ function. nodes_of function.body < 2 ^ 31) (program_tree typed.now.program).functions }
    requires typed { TypesAs (program_tree typed.now.program) (Ok tt) }
    ensures ok { OnOk result (IsOutcome (ChecksCover (program_tree typed.now.program)) (Ok tt)) }
    ensures err { IfErr result (λ refusal. wants_memory refusal ≡ false
        → IsOutcome (ChecksCover (program_tree typed.now.program)) (Err refusal)) }
{
    each_typed_program_is_decided();
    match cover(alloc, typed) {
        Ok(()) => Ok(()),
        Err(CoverError::NotCovered { function, example }) => {
            let function = &typed.program.functions[function as usize];
            Err(not_covered(alloc, &typed.program, function, &example))
        }
        Err(CoverError::NoMemory) => Err(Refusal::NoMemory),
    }
}

// The refusal of a function with a match that is not covered, for which this is an example.
fn not_covered(alloc: Global, program: &Program, function: &Fun, example: &Pat) -> Refusal
    ensures { wants_memory result ≡ false
        → result ≡ Refusal.NotCovered function.now.name (spelled (program_tree program.now) (pattern_outline example.now)) }
{
    let Ok(function) = function.name.copied(alloc) else {
        return Refusal::NoMemory;
    };
    match example_text(alloc, program, example) {
        Ok(example) => Refusal::NotCovered { function, example },
        Err(NoMemory) => Refusal::NoMemory,
    }
}

// The refusal of a function that is not typed.
fn not_typed(alloc: Global, function: &Fun) -> Refusal
    ensures { wants_memory result ≡ false → result ≡ Refusal.NotTyped function.now.name }
{
    match function.name.copied(alloc) {
        Ok(function) => Refusal::NotTyped { function },
        Err(_) => Refusal::NoMemory,
    }
}
