ghost use Rattle.std.specs.Prelude.{◌≡◌, ◌<◌, length, map, All, IfOk};
ghost use Rattle.std.specs.List.{AllZip};
ghost use Rattle.kk_syntax.specs.TypedPrograms.{node_types};
ghost use Rattle.kk_syntax.specs.Types.{type_tree, put, type_at};
ghost use Rattle.kk_mono.specs.Places.{node_at, Renumbers};
ghost use Rattle.kk_mono.specs.Tables.{number_in, Grows, AreNumbers};
ghost use Rattle.kk_mono.specs.Views.{types_in};

use crate::types::Types;
use kk_base::NoMemory;
use kk_syntax::{GroundType, Taken, Ty, TypeNode};
use std::alloc::Global;

// The number at a place; that of `()` where there is none.
fn number_at(numbers: &[u32], place: u32) -> u32
    ensures { result ≡ number_in numbers.now place }
{
    match numbers.get(place as usize) {
        Some(number) => *number,
        None => Types::UNIT,
    }
}

fn numbers_at(alloc: Global, numbers: &[u32], places: &[u32]) -> Result<Vec<u32>, NoMemory>
    ensures { IfOk result (λ found. found.items ≡ map (number_in numbers.now) places.now) }
{
    let mut found = Vec::new(alloc);
    for place in places {
        found.push(number_at(numbers, *place))?;
    }
    Ok(found)
}

/// The numbers of a body's types, where types stand for its function's type variables. A variable that remains open
/// stands for `()`.
pub fn numbers_of_nodes(
    alloc: Global,
    types: &mut Types,
    at: &[u32],
    nodes: &[TypeNode],
) -> Result<Vec<u32>, NoMemory>
    requires { All (λ n. n < length (types_in types.old)) at.now }
    ensures grows { Grows (types_in types.old) (types_in types.new) }
    ensures are { IfOk result (λ numbers. AreNumbers (types_in types.new) numbers.items
        (map (put (type_at (map (type_at (types_in types.old)) at.now))) (node_types nodes.now))) }
{
    let mut numbers = Vec::new(alloc);
    for node in nodes {
        let number = number_of_node(alloc, types, at, &numbers, node)?;
        numbers.push(number)?;
    }
    Ok(numbers)
}

// The number of a node's type, by the numbers of those before it.
fn number_of_node(
    alloc: Global,
    types: &mut Types,
    at: &[u32],
    earlier: &[u32],
    node: &TypeNode,
) -> Result<u32, NoMemory>
    requires at_within { All (λ n. n < length (types_in types.old)) at.now }
    requires earlier_within { All (λ n. n < length (types_in types.old)) earlier.now }
    ensures grows { Grows (types_in types.old) (types_in types.new) }
    ensures within { IfOk result (λ n. n < length (types_in types.new)) }
    ensures is { IfOk result (λ n. type_at (types_in types.new) n
        ≡ node_at (map (type_at (types_in types.old)) at.now) (map (type_at (types_in types.old)) earlier.now) node.now) }
{
    match node {
        TypeNode::Int32 => types.number(GroundType::Int32),
        TypeNode::Unit => Ok(Types::UNIT),
        TypeNode::Variable(of) => Ok(number_at(at, *of)),
        TypeNode::Named(by, arguments) => {
            let arguments = numbers_at(alloc, earlier, arguments)?;
            types.number(GroundType::Named(*by, arguments))
        }
    }
}

/// The number of a written type, where types stand for its type variables. The recursion is as deep as the type.
#[cycle(written)]
pub fn number_of_written(
    alloc: Global,
    types: &mut Types,
    at: &[u32],
    of: &Ty,
) -> Result<u32, NoMemory>
    requires { All (λ n. n < length (types_in types.old)) at.now }
    ensures grows { Grows (types_in types.old) (types_in types.new) }
    ensures within { IfOk result (λ n. n < length (types_in types.new)) }
    ensures is { IfOk result (λ n. type_at (types_in types.new) n
        ≡ put (type_at (map (type_at (types_in types.old)) at.now)) (type_tree of.now)) }
{
    match of {
        Ty::Int32 => types.number(GroundType::Int32),
        Ty::Unit => Ok(Types::UNIT),
        Ty::Variable(variable) => Ok(number_at(at, *variable)),
        Ty::Named(by, arguments) => {
            let arguments = numbers_of_written(alloc, types, at, arguments)?;
            types.number(GroundType::Named(*by, arguments))
        }
    }
}

/// The numbers of written types.
#[cycle(written)]
pub fn numbers_of_written(
    alloc: Global,
    types: &mut Types,
    at: &[u32],
    written: &[Ty],
) -> Result<Vec<u32>, NoMemory>
    requires { All (λ n. n < length (types_in types.old)) at.now }
    ensures grows { Grows (types_in types.old) (types_in types.new) }
    ensures are { IfOk result (λ numbers. AreNumbers (types_in types.new) numbers.items
        (map (put (type_at (map (type_at (types_in types.old)) at.now))) (map type_tree written.now))) }
{
    let mut numbers = Vec::new(alloc);
    for of in written {
        numbers.push(number_of_written(alloc, types, at, of)?)?;
    }
    Ok(numbers)
}

/// What is taken in a body, by the numbers of the body's types.
pub fn taken_at(alloc: Global, numbers: &[u32], taken: &[Taken]) -> Result<Vec<Taken>, NoMemory>
    ensures { IfOk result (λ made. AllZip (Renumbers numbers.now) taken.now made.items) }
{
    let mut made = Vec::new(alloc);
    for choice in taken {
        made.push(choice_at(alloc, numbers, choice)?)?;
    }
    Ok(made)
}

fn choice_at(alloc: Global, numbers: &[u32], choice: &Taken) -> Result<Taken, NoMemory>
    ensures { IfOk result (λ made. Renumbers numbers.now choice.now made) }
{
    match choice {
        Taken::Construct(by, at) => Ok(Taken::Construct(*by, numbers_at(alloc, numbers, at)?)),
        Taken::Call(function, at) => Ok(Taken::Call(*function, numbers_at(alloc, numbers, at)?)),
        Taken::Value(of) => Ok(Taken::Value(number_at(numbers, *of))),
    }
}
