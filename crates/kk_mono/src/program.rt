ghost use Rattle.std.specs.Prelude.{Ok, ◌≡◌, ◌-◌, ◌^◌, ◌<◌, min, map, option_map, length, All, IfOk, IfErr};
ghost use Rattle.kk_syntax.specs.Programs.{program_tree, function_tree};
ghost use Rattle.kk_syntax.specs.TypedPrograms.{typings_of};
ghost use Rattle.kk_syntax.specs.Typing.{ArePrincipal};
ghost use Rattle.kk_syntax.specs.Declarations.{DeclarationsAs};
ghost use Rattle.kk_mono.specs.Grounds.{AnswersInstances};
ghost use Rattle.kk_mono.specs.InstanceSearch.{IsComplete};
ghost use Rattle.kk_mono.specs.PassedLimits.{IsFound, told, summed_keys, AreFew, PassedBy};
ghost use Rattle.std.specs.Result.{result_err};
ghost use Rattle.kk_syntax.specs.Shapes.{greatest_of as nodes_at_most};
ghost use Rattle.kk_mono.specs.Counts.{EachProgramIsCounted, too_many_nodes};
ghost use Rattle.kk_mono.specs.KeyTrees.{KeyTree, keys_in};

use crate::build::ground;
use crate::error::MonoError;
use crate::keys::Keys;
use crate::search::search;
use kk_base::{Limit, LimitKind};
use kk_syntax::{Fun, Ground, Program, Typed, nodes};
use std::alloc::Global;

/// The instances of a program: `main`, and each function that is called in one, at the types that stand for its type
/// variables there, in the order of first sight; and their ground constructors: those of `bool`, and those of each type with
/// whose constructors one builds or matches, in the order of first sight. Or the limit that the program passes first: on the nodes of a function,
/// on the number of the instances, or on their nodes in all. Required is that no declaration passes a limit.
///
/// At each instance the time is linear in its function's body and types, however large the types are where they are written
/// out. The recursion is as deep as an expression or a written type.
pub fn instances(alloc: Global, typed: &Typed) -> Result<Ground, MonoError>
    requires principal { ArePrincipal (program_tree typed.now.program) (typings_of typed.now) }
    requires declared { DeclarationsAs (program_tree typed.now.program) (Ok tt) }
    ensures { AnswersInstances typed.now result }
{
    instances_as_typed(alloc, typed)
}

/// The same, where the program has some typings, principal or not.
pub fn instances_as_typed(alloc: Global, typed: &Typed) -> Result<Ground, MonoError>
    requires complete { IsComplete typed.now }
    requires declared { DeclarationsAs (program_tree typed.now.program) (Ok tt) }
    ensures { IsFound typed.now result }
{
    let greatest = match check_nodes(&typed.program.functions) {
        Ok(greatest) => greatest,
        Err(limit) => return Err(MonoError::Over(limit)),
    };
    let found = search(alloc, typed)?;
    match check_instances(&typed.program, &found.keys) {
        Ok(summed) => Ok(ground(alloc, &typed.program, found, greatest, summed)?),
        Err(limit) => Err(MonoError::Over(limit)),
    }
}

/// Each program keeps its limits or passes exactly one first. It is a law, and does nothing.
pub fn each_program_is_counted()
    ensures { EachProgramIsCounted }
{}

/// The greatest number of nodes of a function. Or the first number that is larger than the limit allows; it stays at a
/// `u64`'s last value where it is larger. Takes no memory.
pub fn check_nodes(functions: &[Fun]) -> Result<u64, Limit>
    ensures err { result_err result ≡ option_map (told LimitKind.FunctionNodes) (too_many_nodes (map function_tree functions.now)) }
    ensures ok { IfOk result (λ greatest. greatest ≡ nodes_at_most (map function_tree functions.now)) }
{
    let mut greatest = 0;
    for function in functions {
        let count = nodes(&function.body);
        if count > LimitKind::FunctionNodes.greatest() {
            return Err(Limit {
                kind: LimitKind::FunctionNodes,
                count,
            });
        }
        greatest = count.max(greatest);
    }
    Ok(greatest)
}

/// The nodes of the instances in all. Or the limit on the number of the instances, or on their nodes in all, that they pass; a
/// count stays at a `u64`'s last value where it is larger. Takes no memory.
pub fn check_instances(program: &Program, keys: &Keys) -> Result<u64, Limit>
    requires { All (λ (key : KeyTree). key.number < length program.now.functions.items) (keys_in keys.now) }
    ensures ok { IfOk result (λ _. AreFew (program_tree program.now) (keys_in keys.now)) }
    ensures nodes { IfOk result (λ nodes. nodes ≡ summed_keys (program_tree program.now) (keys_in keys.now)) }
    ensures err { IfErr result (λ limit. PassedBy (program_tree program.now) (keys_in keys.now) limit) }
{
    let greatest = LimitKind::Instances.greatest();
    if keys.len() as u64 > greatest {
        return Err(Limit {
            kind: LimitKind::Instances,
            count: greatest + 1,
        });
    }
    let count = nodes_of_instances(program, keys);
    if count > LimitKind::ProgramNodes.greatest() {
        return Err(Limit {
            kind: LimitKind::ProgramNodes,
            count,
        });
    }
    Ok(count)
}

// The nodes of instances, summed.
fn nodes_of_instances(program: &Program, keys: &Keys) -> u64
    requires { All (λ (key : KeyTree). key.number < length program.now.functions.items) (keys_in keys.now) }
    ensures { result ≡ min (summed_keys (program_tree program.now) (keys_in keys.now)) (2 ^ 64 - 1) }
{
    let mut sum: u64 = 0;
    for number in 0..keys.len() {
        let function = keys.get(number).number as usize;
        sum = sum.saturating_add(nodes(&program.functions[function].body));
    }
    sum
}
