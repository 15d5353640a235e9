ghost use Rattle.std.specs.Prelude.{◌≡◌, ◌+◌, ◌<◌, length, map, All, IfOk, OnOk};
ghost use Rattle.kk_syntax.specs.Programs.{constructor_tree};
ghost use Rattle.kk_syntax.specs.TypedPrograms.{typing_of};
ghost use Rattle.kk_mono.specs.KeyTrees.{keys_in};
ghost use Rattle.kk_mono.specs.InstanceUses.{Looks, Uses};
ghost use Rattle.kk_mono.specs.InstanceSearch.{AreConstructionsBelow, IsComplete, known_in, IsSearching, HasSearched};
ghost use Rattle.kk_mono.specs.Siblings.{HaveSiblings};
ghost use Rattle.kk_mono.specs.Views.{types_in};

use crate::keys::{Keys, constructors_of_bool, numbers_of_called, numbers_of_constructed};
use crate::numbers::{number_of_written, numbers_of_nodes, numbers_of_written, taken_at};
use crate::types::Types;
use kk_base::{LimitKind, NoMemory};
use kk_syntax::{BodyTypes, Constructor, Fun, Taken, Typed};
use std::alloc::Global;

/// What has been seen in an instance.
#[derive(Drop)]
pub struct Looked {
    /// The numbers of the types of its parameters.
    pub parameters: Vec<u32>,
    /// The number of the type of its result.
    pub result: u32,
    /// The types that are taken in its body.
    pub taken: Vec<Taken>,
    /// The numbers of the instances that it calls, in the order of the text.
    pub called: Vec<u32>,
    /// The numbers of the ground constructors with which it builds and matches, in the order of the text.
    pub constructed: Vec<u32>,
}

/// The work list of the search for instances: all instances and ground constructors that are known so far. Those instances that
/// have been looked at come first.
#[derive(Drop)]
pub struct Found {
    pub types: Types,
    pub keys: Keys,
    pub constructors: Keys,
    pub looked: Vec<Looked>,
}

/// Looks at `main`, and at each instance that is called in one that has been looked at, until all are known, or more than
/// are allowed.
pub fn search(alloc: Global, typed: &Typed) -> Result<Found, NoMemory>
    requires { IsComplete typed.now }
    ensures { IfOk result (λ found. HasSearched typed.now found) }
{
    let mut found = Found {
        types: Types::new(alloc)?,
        keys: Keys::with_main(alloc, typed.program.main)?,
        constructors: constructors_of_bool(alloc, &typed.program.constructors)?,
        looked: Vec::new(alloc),
    };
    let greatest = LimitKind::Instances.greatest() as usize;
    while found.looked.len() < found.keys.len() && found.keys.len() <= greatest {
        found.look(alloc, typed)?;
    }
    Ok(found)
}

impl Found {
    // Looks at the next instance.
    fn look(&mut self, alloc: Global, typed: &Typed) -> Result<(), NoMemory>
        requires complete { IsComplete typed.now }
        requires searching { IsSearching typed.now self.old }
        requires left { length self.old.looked.items < length (known_in self.old) }
        ensures searching { OnOk result (IsSearching typed.now self.new) }
        ensures more { OnOk result (length self.new.looked.items ≡ length self.old.looked.items + 1) }
    {
        let key = self.keys.get(self.looked.len());
        let function = key.number as usize;
        let at = Vec::from_slice(alloc, &key.arguments)?;
        let looked = looked_at(
            alloc,
            &mut self.types,
            &mut self.keys,
            &mut self.constructors,
            &typed.program.constructors,
            &typed.program.functions[function],
            &typed.bodies[function],
            &at,
        )?;
        self.looked.push(looked)?;
        Ok(())
    }
}

// What is seen in a function and its body, where types stand for its type variables.
fn looked_at(
    alloc: Global,
    types: &mut Types,
    keys: &mut Keys,
    known: &mut Keys,
    constructors: &[Constructor],
    function: &Fun,
    body: &BodyTypes,
    at: &[u32],
) -> Result<Looked, NoMemory>
    requires within { All (λ n. n < length (types_in types.old)) at.now }
    requires whole { HaveSiblings (map constructor_tree constructors.now) (keys_in known.old) }
    requires there { AreConstructionsBelow (length constructors.now) (typing_of body.now) }
    ensures looks { IfOk result (λ looked. Looks (types_in types.old) (types_in types.new) at.now (keys_in keys.old) (keys_in keys.new)
        function.now body.now looked) }
    ensures uses { IfOk result (λ looked. Uses (map constructor_tree constructors.now) (keys_in known.old) (keys_in known.new) looked) }
{
    let numbers = numbers_of_nodes(alloc, types, at, &body.nodes)?;
    let taken = taken_at(alloc, &numbers, &body.taken)?;
    let called = numbers_of_called(alloc, keys, &taken)?;
    let constructed = numbers_of_constructed(alloc, known, constructors, &taken)?;
    let parameters = numbers_of_written(alloc, types, at, &function.parameters)?;
    let result = number_of_written(alloc, types, at, &function.result)?;
    Ok(Looked {
        parameters,
        result,
        taken,
        called,
        constructed,
    })
}
