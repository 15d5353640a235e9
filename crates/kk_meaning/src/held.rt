ghost use Rattle.std.specs.Prelude.{◌≡◌, ◌++◌, map, reverse, OnOk};
ghost use Rattle.kk_source.specs.Live.{value_of, held, held_by_all};
ghost use Rattle.kk_meaning.specs.View.{value_view, environment_of};
ghost use Rattle.kk_meaning.specs.Frames.{frame_view};

use crate::binding::Bindings;
use crate::frame::{Block, Frame};
use crate::free::FreeVariables;
use crate::value::Value;
use kk_base::NoMemory;
use std::alloc::Global;

/// Adds what frames hold, of which the newest is the last.
pub fn hold_frames(
    alloc: Global,
    bindings: &Bindings,
    frames: &[Frame],
    values: &mut Vec<Value>,
) -> Result<(), NoMemory>
    ensures { OnOk result (map value_view values.new.items
        ≡ map value_view values.old.items
        ++ held_by_all (map (frame_view bindings.now.links.items) (reverse frames.now))) }
{
    let mut left = frames.len();
    while left > 0 {
        left -= 1;
        hold_frame(alloc, bindings, &frames[left], values)?;
    }
    Ok(())
}

// Adds what a frame holds.
fn hold_frame(
    alloc: Global,
    bindings: &Bindings,
    frame: &Frame,
    values: &mut Vec<Value>,
) -> Result<(), NoMemory>
    ensures { OnOk result (map value_view values.new.items
        ≡ map value_view values.old.items ++ held (frame_view bindings.now.links.items frame.now)) }
{
    let mut free = FreeVariables::new(alloc);
    match frame {
        Frame::Arguments {
            values: computed,
            left,
            environment,
            ..
        } => {
            values.extend_from_slice(computed)?;
            free.of_each(left)?;
            hold_variables(bindings, *environment, &free.found, values)
        }
        Frame::Branches {
            positive,
            negative,
            environment,
        } => {
            free.of_expr(positive)?;
            free.of_expr(negative)?;
            hold_variables(bindings, *environment, &free.found, values)
        }
        Frame::Rows { rows, environment } => {
            free.of_rows(rows)?;
            hold_variables(bindings, *environment, &free.found, values)
        }
        Frame::Statement {
            variable,
            rest,
            environment,
        } => {
            free.of_rest(*variable, *rest)?;
            hold_variables(bindings, *environment, &free.found, values)
        }
        Frame::Call { lent, .. } => {
            values.extend_from_slice(lent)?;
            Ok(())
        }
    }
}

// Adds the values of variables.
fn hold_variables(
    bindings: &Bindings,
    environment: usize,
    variables: &[u32],
    values: &mut Vec<Value>,
) -> Result<(), NoMemory>
    ensures { OnOk result (map value_view values.new.items
        ≡ map value_view values.old.items
        ++ map (value_of (environment_of bindings.now.links.items environment)) variables.now) }
{
    for variable in variables {
        values.push(bindings.value_of(environment, *variable))?;
    }
    Ok(())
}
