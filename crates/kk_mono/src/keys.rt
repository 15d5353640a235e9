ghost use Rattle.std.specs.Prelude.{◌≡◌, ◌<◌, ◌↔◌, length, [], ◌∷◌, map, Contains, IsTrue, Some, slice_get, IfOk, OnOk, flat_map};
ghost use Rattle.std.specs.Prelude.{All};
ghost use Rattle.kk_mono.specs.KeyTrees.{Sees, key_tree, keys_in, keys_called, KeyTree, keys_constructed};
ghost use Rattle.kk_syntax.specs.Programs.{constructor_tree};
ghost use Rattle.kk_mono.specs.Siblings.{keys_of, siblings, HaveSiblings};

use indexmap::IndexSet;
use kk_base::NoMemory;
use kk_syntax::{Constructor, Program, Taken};
use std::alloc::Global;

/// An instance or a ground constructor: the number of its function or constructor, and the numbers of the types that stand
/// for its type variables.
#[derive(PartialEq, Eq, Hash, Drop)]
pub struct Key {
    pub number: u32,
    pub arguments: Vec<u32>,
}

/// The instances or the ground constructors that are known, each once, in the order of first sight.
#[derive(Drop)]
pub struct Keys {
    keys: IndexSet<Key>,
}

impl Keys {
    /// None.
    pub fn new(alloc: Global) -> Keys
        ensures { keys_in result ≡ [] }
    {
        Keys {
            keys: IndexSet::new(alloc),
        }
    }

    /// `main` alone.
    pub fn with_main(alloc: Global, main: u32) -> Result<Keys, NoMemory>
        ensures { IfOk result (λ known. keys_in known ≡ record { number = main; at = [] } ∷ []) }
    {
        let mut keys = IndexSet::new(alloc);
        keys.insert(Key {
            number: main,
            arguments: Vec::new(alloc),
        })?;
        Ok(Keys { keys })
    }

    /// How many are known.
    pub fn len(&self) -> usize
        ensures { result ≡ length (keys_in self.now) }
    {
        self.keys.len()
    }

    /// A key by its number.
    pub fn get(&self, number: usize) -> &Key
        requires { number < length (keys_in self.now) }
        ensures { slice_get (keys_in self.now) number ≡ Some (key_tree result.now) }
    {
        &self.keys[number]
    }

    /// Whether a key is known.
    pub fn contains(&self, key: &Key) -> bool
        ensures { IsTrue result ↔ Contains (keys_in self.now) (key_tree key.now) }
    {
        self.keys.contains(key)
    }

    /// The number of a key, which is added where it is not there.
    pub fn number(&mut self, key: Key) -> Result<u32, NoMemory>
        ensures sees { OnOk result (Sees (keys_in self.old) (keys_in self.new) (key_tree key ∷ [])) }
        ensures is { IfOk result (λ n. slice_get (keys_in self.new) n ≡ Some (key_tree key)) }
    {
        let (index, _) = self.keys.insert_full(key)?;
        match u32::try_from(index) {
            Ok(number) => Ok(number),
            Err(_) => Err(NoMemory),
        }
    }
}

/// The numbers of the instances that are called where these types are taken.
pub fn numbers_of_called(
    alloc: Global,
    keys: &mut Keys,
    taken: &[Taken],
) -> Result<Vec<u32>, NoMemory>
    ensures sees { OnOk result (Sees (keys_in keys.old) (keys_in keys.new) (keys_called taken.now)) }
    ensures are { IfOk result (λ numbers. map (slice_get (keys_in keys.new)) numbers.items ≡ map Some (keys_called taken.now)) }
{
    let mut numbers = Vec::new(alloc);
    for choice in taken {
        let Taken::Call(function, at) = choice else {
            continue;
        };
        let arguments = Vec::from_slice(alloc, at)?;
        let number = *function;
        numbers.push(keys.number(Key { number, arguments })?)?;
    }
    Ok(numbers)
}

/// The ground constructors that are known at the start: those of `bool`.
pub fn constructors_of_bool(alloc: Global, constructors: &[Constructor]) -> Result<Keys, NoMemory>
    ensures { IfOk result (λ known. keys_in known ≡ keys_of (map constructor_tree constructors.now) 0 []) }
{
    let mut known = Keys::new(alloc);
    add_type(alloc, &mut known, constructors, Program::BOOL, &[])?;
    Ok(known)
}

// Adds the ground constructors of a type, in the order of their declaration.
fn add_type(
    alloc: Global,
    known: &mut Keys,
    constructors: &[Constructor],
    of_type: u32,
    at: &[u32],
) -> Result<(), NoMemory>
    ensures { OnOk result (Sees (keys_in known.old) (keys_in known.new)
        (keys_of (map constructor_tree constructors.now) of_type at.now)) }
{
    for (place, constructor) in constructors.iter().enumerate() {
        if constructor.of_type == of_type {
            let Ok(number) = u32::try_from(place) else {
                return Err(NoMemory);
            };
            let arguments = Vec::from_slice(alloc, at)?;
            known.number(Key { number, arguments })?;
        }
    }
    Ok(())
}

// Adds the ground constructors of the type of one of them, where that one is not known.
fn add_siblings(
    alloc: Global,
    known: &mut Keys,
    constructors: &[Constructor],
    key: &Key,
) -> Result<(), NoMemory>
    requires whole { HaveSiblings (map constructor_tree constructors.now) (keys_in known.old) }
    requires there { key.now.number < length constructors.now }
    ensures { OnOk result (Sees (keys_in known.old) (keys_in known.new)
        (siblings (map constructor_tree constructors.now) (key_tree key.now))) }
{
    if known.contains(key) {
        return Ok(());
    }
    let of_type = constructors[key.number as usize].of_type;
    add_type(alloc, known, constructors, of_type, &key.arguments)
}

// The number of a ground constructor. Where it is not known, it is added with the others of its type.
fn number_of(
    alloc: Global,
    known: &mut Keys,
    constructors: &[Constructor],
    constructor: u32,
    at: &[u32],
) -> Result<u32, NoMemory>
    requires whole { HaveSiblings (map constructor_tree constructors.now) (keys_in known.old) }
    requires there { constructor < length constructors.now }
    ensures sees { OnOk result (Sees (keys_in known.old) (keys_in known.new)
        (siblings (map constructor_tree constructors.now) (record { number = constructor; at = at.now }))) }
    ensures is { IfOk result (λ n. slice_get (keys_in known.new) n ≡ Some (record { number = constructor; at = at.now })) }
{
    let key = Key {
        number: constructor,
        arguments: Vec::from_slice(alloc, at)?,
    };
    add_siblings(alloc, known, constructors, &key)?;
    known.number(key)
}

/// The numbers of the ground constructors that are used where these types are taken.
pub fn numbers_of_constructed(
    alloc: Global,
    known: &mut Keys,
    constructors: &[Constructor],
    taken: &[Taken],
) -> Result<Vec<u32>, NoMemory>
    requires whole { HaveSiblings (map constructor_tree constructors.now) (keys_in known.old) }
    requires there { All (λ (key : KeyTree). key.number < length constructors.now) (keys_constructed taken.now) }
    ensures sees { OnOk result (Sees (keys_in known.old) (keys_in known.new)
        (flat_map (siblings (map constructor_tree constructors.now)) (keys_constructed taken.now))) }
    ensures are { IfOk result (λ numbers. map (slice_get (keys_in known.new)) numbers.items ≡ map Some (keys_constructed taken.now)) }
{
    let mut numbers = Vec::new(alloc);
    for choice in taken {
        let Taken::Construct(constructor, at) = choice else {
            continue;
        };
        numbers.push(number_of(alloc, known, constructors, *constructor, at)?)?;
    }
    Ok(numbers)
}
