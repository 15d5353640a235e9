// The lines of forms on variables, and the labels of cases.

ghost use Rattle.std.specs.Prelude.{length, IfOk, OnOk};
ghost use Rattle.rv_tokens.specs.Written.{facts_of, TookLabels, TookTargets, WroteValue};

use crate::cells::write_construction;
use crate::decide::Targets;
use crate::known::Known;
use kk_base::NoMemory;
use kk_core::Decisions;
use kk_syntax::Form;
use rv_lower::{Lowering, next, set};

/// The lines of a form on variables, whose value a variable takes.
pub fn write_form(
    lowering: &mut Lowering,
    known: &Known<'_>,
    into: u32,
    form: Form,
    arguments: &[u32],
) -> Result<(), NoMemory>
    ensures { OnOk result (WroteValue (facts_of known.now) into form arguments.now lowering.old lowering.new) }
{
    let Form::Construct(constructor) = form else {
        return lowering.form(known.literals, into, form, arguments);
    };
    if arguments.is_empty() {
        lowering.write(&[set(known.constant(constructor)?, into)])
    } else {
        write_construction(lowering, into, known.header(constructor)?, arguments)
    }
}

/// Labels for so many arms of a case, and then for the nodes of its decisions.
pub fn take_targets(
    lowering: &mut Lowering,
    decisions: &Decisions,
    arms: usize,
) -> Result<Targets, NoMemory>
    ensures { IfOk result (λ targets. TookTargets arms (length decisions.now.nodes.items) targets lowering.old lowering.new) }
{
    let first = take_labels(lowering, arms)?;
    let nodes = take_labels(lowering, decisions.nodes().len())?;
    Ok(Targets { nodes, arms: first })
}

/// Takes so many new labels, and answers the first of them. An overflow of `u32` is answered as out of memory.
fn take_labels(lowering: &mut Lowering, count: usize) -> Result<u32, NoMemory>
    ensures { IfOk result (λ label. TookLabels count label lowering.old lowering.new) }
{
    let label = lowering.next_label;
    let Ok(count) = u32::try_from(count) else {
        return Err(NoMemory);
    };
    match label.checked_add(count) {
        Some(next) => {
            lowering.next_label = next;
            Ok(label)
        }
        None => Err(NoMemory),
    }
}
