ghost use Rattle.std.specs.Prelude.{◌≡◌, ◌<◌, [], length, map, slice_index_or};
ghost use Rattle.kk_counted.specs.InstancePositions.{AreConsistent, positions_in};

use kk_core::ConstructorShape;
use kk_syntax::Ownership;

/// A parameter of an instance. Parameter `i` is variable `i` of its function.
#[derive(Clone, Copy)]
pub struct Parameter {
    pub ownership: Ownership,
    /// Whether its type has cells.
    pub has_cells: bool,
}

/// What is known of an instance: how its parameters are passed, and which of its values can be cells.
#[derive(Drop)]
pub struct InstanceShape {
    pub parameters: Vec<Parameter>,
    /// Whether the type of its result has cells.
    pub result_has_cells: bool,
}

/// What the functions of a program are called with, and what its constructors hold. The constructors of a type have the
/// tags 0, 1, 2 and so on in their order, and a type has cells exactly where one of its constructors has a field.
#[derive(Drop)]
pub struct Shape {
    instances: Vec<InstanceShape>,
    constructors: Vec<ConstructorShape>,
    ghost consistent: { AreConsistent constructors.items },
}

impl Shape {
    /// The shape of these instances and constructors, by their numbers.
    pub fn new(instances: Vec<InstanceShape>, constructors: Vec<ConstructorShape>) -> Self
        requires { AreConsistent constructors.items }
        ensures instances { result.instances ≡ instances }
        ensures constructors { result.constructors ≡ constructors }
    {
        Shape {
            instances,
            constructors,
        }
    }

    /// The instances, each at its number. The first one is that of `main`.
    pub fn instances(&self) -> &[InstanceShape]
        ensures { result.now ≡ self.now.instances.items }
    {
        &self.instances
    }

    /// The parameters of an instance.
    pub fn parameters(&self, instance: u32) -> &[Parameter]
        requires { instance < length self.now.instances.items }
        ensures { map (λ parameter. parameter.ownership) result.now ≡ slice_index_or (positions_in self.now.instances.items) instance [] }
    {
        &self.instances()[instance as usize].parameters
    }

    /// The constructors, each at its number.
    pub fn constructors(&self) -> &[ConstructorShape]
        ensures { result.now ≡ self.now.constructors.items }
    {
        &self.constructors
    }
}
