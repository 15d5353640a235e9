//! Which names are in scope: variables of expressions, and type variables.

ghost use Rattle.std.specs.Prelude.{◌≡◌, ◌<◌, map, IfOk};
ghost use Rattle.kk_names.specs.Scopes.{number_in};
ghost use Rattle.kk_names.specs.Methods.{newest_first};
ghost use Rattle.kk_syntax.specs.Surface.{types_of, written_type, written_parameter, written_result};
ghost use Rattle.kk_names.specs.TypeNames.{place_of, with_variable_name, with_variables, with_all_variables};
ghost use Rattle.kk_names.specs.TypeNames.{signature_variables};

use kk_base::{Name, NoMemory};
use kk_syntax::{Parameter, SurfaceType};
use std::alloc::Global;

/// A variable that is bound: its name, and its number among the variables of its function.
#[derive(Drop)]
pub struct Bound {
    pub name: Name,
    pub number: u32,
}

/// The number of the last variable of that name.
pub fn number_in(scope: &[Bound], name: &Name) -> Option<u32>
    ensures { result ≡ number_in (newest_first scope.now) name.now }
{
    let mut number = None;
    for bound in scope {
        if bound.name.as_str() == name.as_str() {
            number = Some(bound.number);
        }
    }
    number
}

/// The place of a type variable among those that are seen.
pub fn place_of(variables: &[Name], name: &Name) -> Option<usize>
    ensures { result ≡ place_of variables.now name.now }
{
    variables
        .iter()
        .position(|variable| variable.as_str() == name.as_str())
}

/// The type variables of a function, in the order in which its parameters and its result first name them.
pub fn signature_variables(
    alloc: Global,
    parameters: &[Parameter],
    of_result: &Option<SurfaceType>,
) -> Result<Vec<Name>, NoMemory>
    ensures { IfOk result (λ vs. vs.items ≡ signature_variables (map written_parameter parameters.now) (written_result of_result.now)) }
{
    let mut variables = Vec::new(alloc);
    for parameter in parameters {
        see(alloc, &parameter.of_type, &mut variables)?;
    }
    if let Some(written) = of_result {
        see(alloc, written, &mut variables)?;
    }
    Ok(variables)
}

// Adds the type variables of a type that are not there yet. The recursion is as deep as the type.
#[cycle(see)]
fn see(alloc: Global, written: &SurfaceType, variables: &mut Vec<Name>) -> Result<(), NoMemory>
    ensures { IfOk result (λ _. variables.new.items ≡ with_variables (written_type written.now) variables.old.items) }
{
    match written {
        SurfaceType::Unit => Ok(()),
        SurfaceType::Variable(name) => see_variable(alloc, &name.name, variables),
        SurfaceType::Named(_, arguments) => see_all(alloc, arguments, variables),
    }
}

// Adds those of several types.
#[cycle(see)]
fn see_all(alloc: Global, types: &[SurfaceType], variables: &mut Vec<Name>) -> Result<(), NoMemory>
    ensures { IfOk result (λ _. variables.new.items ≡ with_all_variables (types_of (map written_type types.now)) variables.old.items) }
{
    for written in types {
        see(alloc, written, variables)?;
    }
    Ok(())
}

// Adds a type variable, if it is not there yet.
fn see_variable(alloc: Global, name: &Name, variables: &mut Vec<Name>) -> Result<(), NoMemory>
    ensures { IfOk result (λ _. variables.new.items ≡ with_variable_name variables.old.items name.now) }
{
    if place_of(variables.as_slice(), name).is_some() {
        return Ok(());
    }
    let name = name.copied(alloc)?;
    variables.push(name)?;
    Ok(())
}
