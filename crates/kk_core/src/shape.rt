/// What is known of a ground constructor: what its cells look like, and which of its values can be cells.
#[derive(Drop)]
pub struct ConstructorShape {
    /// The number of its ground type.
    pub of_type: u32,
    /// Its place among the constructors of that type, from 0.
    pub tag: u32,
    /// Whether its type has cells, which is so where one of the type's constructors has a field.
    pub has_cells: bool,
    /// Of each field, whether its type has cells.
    pub fields: Vec<bool>,
}
