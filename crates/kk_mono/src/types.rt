ghost use Rattle.std.specs.Prelude.{◌≡◌, ◌<◌, [], ◌∷◌, length, All, IfOk, IsTrue};
ghost use Rattle.std.proofs.Props.{props};
ghost use Rattle.kk_syntax.specs.GroundPrograms.{ground_type, ground_types};
ghost use Rattle.kk_syntax.specs.Types.{unit_type, type_at};
ghost use Rattle.kk_mono.specs.Tables.{arguments_of, AreInOrder, begin_with_unit, AreOnce, Grows};

use indexmap::IndexSet;
use kk_base::NoMemory;
use kk_syntax::GroundType;
use std::alloc::Global;

/// Types without variables, each once, by numbers that stay while others are added.
#[derive(Drop)]
pub struct Types {
    nodes: IndexSet<GroundType>,
    ghost begins: { IsTrue (begin_with_unit nodes.keys) },
    ghost in_order: { AreInOrder nodes.keys } by { Prim.hlevel props },
    ghost once: { AreOnce nodes.keys } by { Prim.hlevel props },
}

impl Types {
    /// The number of `()`, which is the first type.
    pub const UNIT: u32 = 0;

    /// `()` alone.
    pub fn new(alloc: Global) -> Result<Types, NoMemory>
        ensures { IfOk result (λ table. ground_types table.nodes.keys ≡ unit_type ∷ []) }
    {
        let mut nodes = IndexSet::new(alloc);
        nodes.insert(GroundType::Unit)?;
        Ok(Types { nodes })
    }

    /// The number of a type, which is added where it is not there.
    pub fn number(&mut self, node: GroundType) -> Result<u32, NoMemory>
        requires { All (λ n. n < length (ground_types self.old.nodes.keys)) (arguments_of node) }
        ensures grows { Grows (ground_types self.old.nodes.keys) (ground_types self.new.nodes.keys) }
        ensures within { IfOk result (λ n. n < length (ground_types self.new.nodes.keys)) }
        ensures is { IfOk result (λ n. type_at (ground_types self.new.nodes.keys) n ≡ ground_type (ground_types self.old.nodes.keys) node) }
    {
        let (index, _) = self.nodes.insert_full(node)?;
        match u32::try_from(index) {
            Ok(number) => Ok(number),
            Err(_) => Err(NoMemory),
        }
    }

    /// The types, by their numbers.
    pub fn into_nodes(self, alloc: Global) -> Result<Vec<GroundType>, NoMemory>
        ensures { IfOk result (λ nodes. nodes.items ≡ self.nodes.keys) }
    {
        let Types { nodes } = self;
        Ok(nodes.into_iter().collect(alloc)?)
    }
}
