ghost use Rattle.std.specs.Prelude.{◌≡◌, ◌<◌, ◌≤◌, length, map, All, IfOk};
ghost use Rattle.std.specs.List.{AllZip};
ghost use Rattle.kk_base.specs.Limits.{greatest_of};
ghost use Rattle.kk_syntax.specs.Programs.{function_tree, constructor_tree, program_tree};
ghost use Rattle.kk_mono.specs.BuiltInstances.{ArePlaces, IsBuiltOf, AreBuilt, IsMadeAs, IsMadeOf, IsBuilt};
ghost use Rattle.kk_mono.specs.KeyTrees.{KeyTree, key_tree, keys_in};
ghost use Rattle.kk_mono.specs.Tables.{Grows};
ghost use Rattle.kk_mono.specs.PassedLimits.{PassesNone};
ghost use Rattle.kk_mono.specs.Views.{types_in};

use crate::body::{Labels, labelled};
use crate::keys::{Key, Keys};
use crate::numbers::numbers_of_written;
use crate::search::{Found, Looked};
use crate::types::Types;
use kk_base::{LimitKind, NoMemory};
use kk_syntax::{
    Constructor, Fun, Ground, GroundConstructor, GroundType, Instance, Program,
    copied_declarations, copied_texts, count_of_type,
};
use std::alloc::Global;

/// The instances that have been found, as a program, with the numbers of nodes that are told of them.
pub fn ground(
    alloc: Global,
    program: &Program,
    found: Found,
    greatest_nodes: u64,
    summed_nodes: u64,
) -> Result<Ground, NoMemory>
    requires functions { All (λ (key : KeyTree). key.number < length program.now.functions.items) (keys_in found.keys) }
    requires full { length found.looked.items ≡ length (keys_in found.keys) }
    requires constructors { All (λ (key : KeyTree). key.number < length program.now.constructors.items) (keys_in found.constructors) }
    requires types { All (λ (key : KeyTree). All (λ n. n < length (types_in found.types)) key.at) (keys_in found.constructors) }
    requires none { PassesNone (program_tree program.now) found }
    requires greatest { greatest_nodes ≤ greatest_of LimitKind.FunctionNodes }
    requires summed { summed_nodes ≤ greatest_of LimitKind.ProgramNodes }
    ensures built { IfOk result (λ given. IsBuilt program.now found given) }
    ensures greatest { IfOk result (λ given. given.greatest_nodes ≡ greatest_nodes) }
    ensures summed { IfOk result (λ given. given.summed_nodes ≡ summed_nodes) }
{
    let Found {
        mut types,
        keys,
        constructors,
        looked,
    } = found;
    let constructors = ground_constructors(
        alloc,
        &mut types,
        &program.constructors,
        &constructors,
    )?;
    let instances = all_instances(alloc, program, &keys, looked)?;
    Ok(Ground {
        declarations: copied_declarations(alloc, &program.types)?,
        texts: copied_texts(alloc, &program.texts)?,
        types: types.into_nodes(alloc)?,
        constructors,
        instances,
        greatest_nodes,
        summed_nodes,
    })
}

// The instances that have been found, by what has been seen in them.
fn all_instances(
    alloc: Global,
    program: &Program,
    keys: &Keys,
    looked: Vec<Looked>,
) -> Result<Vec<Instance>, NoMemory>
    requires functions { All (λ (key : KeyTree). key.number < length program.now.functions.items) (keys_in keys.now) }
    requires full { length looked.items ≡ length (keys_in keys.now) }
    ensures { IfOk result (λ instances. AreBuilt program.now (keys_in keys.now) looked.items instances.items) }
{
    let mut instances = Vec::new(alloc);
    for seen in looked {
        let key = keys.get(instances.len());
        let function = &program.functions[key.number as usize];
        instances.push(instance(alloc, function, key, seen)?)?;
    }
    Ok(instances)
}

// The ground constructors that are known. The types of their values and fields are added.
fn ground_constructors(
    alloc: Global,
    types: &mut Types,
    constructors: &[Constructor],
    known: &Keys,
) -> Result<Vec<GroundConstructor>, NoMemory>
    requires constructors { All (λ (key : KeyTree). key.number < length constructors.now) (keys_in known.now) }
    requires types { All (λ (key : KeyTree). All (λ n. n < length (types_in types.old)) key.at) (keys_in known.now) }
    ensures grows { Grows (types_in types.old) (types_in types.new) }
    ensures are { IfOk result (λ made. AllZip (IsMadeOf (map constructor_tree constructors.now) (types_in types.new)) (keys_in known.now) made.items) }
{
    let places = places_of(alloc, constructors)?;
    let mut made = Vec::new(alloc);
    for number in 0..known.len() {
        let key = known.get(number);
        let place = key.number as usize;
        made.push(ground_constructor(alloc, types, &constructors[place], key, places[place])?)?;
    }
    Ok(made)
}

// A ground constructor, where its tag is given.
fn ground_constructor(
    alloc: Global,
    types: &mut Types,
    constructor: &Constructor,
    key: &Key,
    tag: u32,
) -> Result<GroundConstructor, NoMemory>
    requires { All (λ n. n < length (types_in types.old)) (key_tree key.now).at }
    ensures grows { Grows (types_in types.old) (types_in types.new) }
    ensures is { IfOk result (λ made. IsMadeAs (constructor_tree constructor.now) (types_in types.new) (key_tree key.now) tag made) }
{
    let arguments = Vec::from_slice(alloc, &key.arguments)?;
    let of_type = types.number(GroundType::Named(constructor.of_type, arguments))?;
    let fields = numbers_of_written(alloc, types, &key.arguments, &constructor.fields)?;
    Ok(GroundConstructor {
        constructor: key.number,
        of_type,
        tag,
        fields,
    })
}

// For each constructor its place among those of its type.
fn places_of(alloc: Global, constructors: &[Constructor]) -> Result<Vec<u32>, NoMemory>
    ensures as_many { IfOk result (λ places. length places.items ≡ length constructors.now) }
    ensures are { IfOk result (λ places. ArePlaces (map constructor_tree constructors.now) places.items) }
{
    let mut places = Vec::new(alloc);
    for number in 0..constructors.len() {
        let of_type = constructors[number].of_type;
        let count = count_of_type(&constructors[..number], of_type);
        let Ok(place) = u32::try_from(count) else {
            return Err(NoMemory);
        };
        places.push(place)?;
    }
    Ok(places)
}

// An instance of a function, by what has been seen in it.
fn instance(alloc: Global, function: &Fun, key: &Key, seen: Looked) -> Result<Instance, NoMemory>
    ensures { IfOk result (λ made. IsBuiltOf (function_tree function.now) (key_tree key.now) seen made) }
{
    let Looked {
        parameters,
        result,
        taken,
        called,
        constructed,
    } = seen;
    let body = labelled(alloc, &mut Labels::new(called, constructed), &function.body)?;
    Ok(Instance {
        function: key.number,
        arguments: Vec::from_slice(alloc, &key.arguments)?,
        parameters,
        result,
        taken,
        body,
    })
}
