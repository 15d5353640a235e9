ghost use Rattle.std.specs.Prelude.{◌≡◌, map, flat_map, slice_get};
ghost use Rattle.kk_base.specs.Exactly.{IsOnly};
ghost use Rattle.kk_syntax.specs.Programs.{function_tree, program_tree};
ghost use Rattle.kk_syntax.specs.Declarations.{DeclarationsAs, first_over, place_of_type, quantities_of_constructor};
ghost use Rattle.kk_syntax.specs.Declarations.{quantity_of_function, sooner};

use kk_base::{Limit, LimitKind};
use kk_syntax::{Fun, Program, Quantity, TypeDecl, count_of_type};

/// Checks that no declaration passes a limit: no function has too many parameters, no constructor too many fields, and no type
/// too many constructors. The first that does is told, in the order of the text; of a type its constructors come before their
/// fields. Takes no memory.
pub fn check_declarations(program: &Program) -> Result<(), Limit>
    ensures { IsOnly (DeclarationsAs (program_tree program.now)) result }
{
    match sooner(
        first_of_constructors(program),
        first_of_functions(&program.functions),
    ) {
        Some(Quantity { kind, count, .. }) => Err(Limit { kind, count }),
        None => Ok(()),
    }
}

// The first limit that a constructor passes: on the constructors of its type, or on its fields.
fn first_of_constructors(program: &Program) -> Option<Quantity>
    ensures { result ≡ first_over (flat_map (quantities_of_constructor (program_tree program.now)) (program_tree program.now).constructors) }
{
    let mut first = None;
    for constructor in &program.constructors {
        let of_type = Quantity {
            at: place_of_type(&program.types, constructor.of_type),
            kind: LimitKind::Constructors,
            count: count_of_type(&program.constructors, constructor.of_type) as u64,
        };
        let fields = Quantity {
            at: constructor.at,
            kind: LimitKind::Fields,
            count: constructor.fields.len() as u64,
        };
        first = sooner(first, sooner(of_type.if_over(), fields.if_over()));
    }
    first
}

// The first limit that a function passes: on its parameters.
fn first_of_functions(functions: &[Fun]) -> Option<Quantity>
    ensures { result ≡ first_over (map quantity_of_function (map function_tree functions.now)) }
{
    let mut first = None;
    for function in functions {
        let parameters = Quantity {
            at: function.at,
            kind: LimitKind::Parameters,
            count: function.parameters.len() as u64,
        };
        first = sooner(first, parameters.if_over());
    }
    first
}

// The byte at which a type is named; 0 if there is no such type.
fn place_of_type(types: &[TypeDecl], number: u32) -> u32
    ensures { result ≡ place_of_type (slice_get types.now number) }
{
    match types.get(number as usize) {
        Some(declaration) => declaration.at,
        None => 0,
    }
}

// Of two, the one that the text has first; the first one if they are at one byte.
fn sooner(one: Option<Quantity>, other: Option<Quantity>) -> Option<Quantity>
    ensures { result ≡ sooner one other }
{
    match (one, other) {
        (Some(first), Some(second)) => {
            if second.at < first.at {
                Some(second)
            } else {
                Some(first)
            }
        }
        (None, last) => last,
        (first, None) => first,
    }
}
