ghost use Rattle.std.specs.Prelude.{◌≡◌, map, IfOk};
ghost use Rattle.kk_syntax.specs.PositionsOf.{positions_of, is_lent};
ghost use Rattle.kk_source.specs.State.{Environment};
ghost use Rattle.kk_source.specs.Step.{bind_parameters, lent_places};
ghost use Rattle.kk_meaning.specs.View.{value_view, bound_view, pushed};

use crate::binding::Bound;
use crate::value::Value;
use kk_base::NoMemory;
use kk_syntax::{Position, Positions};
use std::alloc::Global;

/// The parameters of a function, from the first on, bound to arguments.
pub fn parameters(alloc: Global, arguments: &[Value]) -> Result<Vec<Bound>, NoMemory>
    ensures { IfOk result (λ bound. (environment : Environment)
        → pushed (map bound_view bound.items) environment
        ≡ bind_parameters 0 (map value_view arguments.now) environment) }
{
    let mut bound = Vec::new(alloc);
    for (variable, value) in arguments.iter().enumerate() {
        bound.push(Bound {
            variable,
            value: *value,
        })?;
    }
    Ok(bound)
}

/// The places among the arguments of a call that are given at lent positions.
pub fn lent(
    alloc: Global,
    positions: &Positions,
    function: u32,
    arguments: &[Value],
) -> Result<Vec<Value>, NoMemory>
    ensures { IfOk result (λ lent.
        map value_view lent.items
        ≡ lent_places (is_lent (positions_of positions.now) function) 0 (map value_view arguments.now)) }
{
    let mut lent = Vec::new(alloc);
    for (parameter, value) in arguments.iter().enumerate() {
        if let Value::Place(_) = value {
            let position = Position {
                function: function as usize,
                parameter,
            };
            if positions.is_lent(position) {
                lent.push(*value)?;
            }
        }
    }
    Ok(lent)
}
