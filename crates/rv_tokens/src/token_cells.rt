// The lines of the forms that touch tokens.

ghost use Rattle.std.specs.Prelude.{◌≡◌, ◌+◌, [], ◌∷◌, IfOk, OnOk};
ghost use Rattle.rv_isa.specs.declared.asm.Action.TheVariants.{Compute};
ghost use Rattle.rv_isa.specs.declared.asm.Operation.TheVariants.{Free};
ghost use Rattle.rv_lower.specs.Lines.{sets, copies_to, acts};
ghost use Rattle.rv_lower.specs.Written.{Wrote};
ghost use Rattle.rv_cells.specs.CellLines.{hold_line, back_line, hold_lines, unhold_lines};
ghost use Rattle.rv_cells.specs.TokenedLines.{values_of_slots};
ghost use Rattle.rv_tokens.specs.TokenedWritten.{variables_known, request_lines, token_test_lines, WroteFill, WroteAsk};
ghost use Rattle.rv_tokens.specs.Written.{facts_of};

use crate::block::write_form;
use crate::cells::{Filling, write_words};
use crate::known::Known;
use kk_base::NoMemory;
use kk_syntax::Form;
use rv_isa::{Action, Condition, Operation, Routine};
use rv_lower::{Lowering, Reads, act, copy, set, write_label};
use std::alloc::Global;

/// Holds tokens, the first of them last. The recursion is as deep as the tokens are many.
fn write_holds(lowering: &mut Lowering, tokens: &[u32]) -> Result<(), NoMemory>
    ensures { OnOk result (Wrote (hold_lines tokens.now) lowering.old lowering.new) }
{
    let [token, more @ ..] = tokens else {
        return Ok(());
    };
    write_holds(lowering, more)?;
    lowering.write(&[act(Action::Hold, Reads::Two(*token, *token))])
}

/// Takes tokens back, from the first one on.
fn write_unholds(lowering: &mut Lowering, tokens: &[u32]) -> Result<(), NoMemory>
    ensures { OnOk result (Wrote (unhold_lines tokens.now) lowering.old lowering.new) }
{
    for token in tokens {
        lowering.write(&[act(Action::Unhold, Reads::One(*token))])?;
    }
    Ok(())
}

/// Takes a cell while tokens are held.
fn write_request(lowering: &mut Lowering, into: u32, tokens: &[u32]) -> Result<(), NoMemory>
    ensures { OnOk result (Wrote (request_lines into tokens.now) lowering.old lowering.new) }
{
    write_holds(lowering, tokens)?;
    lowering.push(Action::Routine(Routine::Take), &[], Some(into))?;
    write_unholds(lowering, tokens)
}

/// A construction in the cell of a token, which has some of its words. Where the token is null a cell is taken, while the tokens of
/// the other slots are held, and these words are stored too.
pub fn write_fill(
    lowering: &mut Lowering,
    known: &Known<'_>,
    into: u32,
    token: u32,
    filling: &Filling<'_>,
    others: &[u32],
) -> Result<(), NoMemory>
    ensures { OnOk result (WroteFill into token (values_of_slots (variables_known known.now) others.now) filling.now.header
        filling.now.arguments.now filling.now.kept.now filling.now.head filling.now.count lowering.old lowering.new) }
{
    let filled = lowering.take_label()?;
    let tokens = known.slots(lowering.alloc, others)?;
    lowering.write(&[
        copy(token, into),
        act(
            Action::Branch(Condition::NotEqual, filled),
            Reads::One(into),
        ),
    ])?;
    write_request(lowering, into, &tokens)?;
    write_words(lowering, into, filling, true)?;
    write_label(lowering, filled)?;
    write_words(lowering, into, filling, false)
}

/// The lines of a form on variables, whose value a variable takes. A construction with fields holds the tokens of the other slots.
pub fn write_asking(
    lowering: &mut Lowering,
    known: &Known<'_>,
    into: u32,
    form: Form,
    arguments: &[u32],
    others: &[u32],
) -> Result<(), NoMemory>
    ensures { OnOk result (WroteAsk (facts_of known.now) (variables_known known.now) into form arguments.now others.now
        lowering.old lowering.new) }
{
    let Form::Construct(constructor) = form else {
        return write_form(lowering, known, into, form, arguments);
    };
    if arguments.is_empty() {
        return write_form(lowering, known, into, form, arguments);
    }
    if others.is_empty() {
        return write_form(lowering, known, into, form, arguments);
    }
    let header = known.header(constructor)?;
    let filling = Filling {
        header,
        arguments,
        kept: &[],
        head: false,
        count: false,
    };
    lowering.write(&[set(0, into)])?;
    write_fill(lowering, known, into, into, &filling, others)
}

/// A branch to a label where the token of a slot is null.
pub fn write_token_test(
    lowering: &mut Lowering,
    known: &Known<'_>,
    slot: u32,
    label: u32,
) -> Result<(), NoMemory>
    ensures { OnOk result (Wrote (token_test_lines (variables_known known.now + slot) label) lowering.old lowering.new) }
{
    let token = known.slot(slot)?;
    lowering.write(&[act(Action::Branch(Condition::Equal, label), Reads::One(token))])
}

/// The cell of the token of a slot is free.
pub fn write_freed(lowering: &mut Lowering, known: &Known<'_>, slot: u32) -> Result<(), NoMemory>
    ensures { OnOk result (Wrote (acts (Compute Free) ((variables_known known.now + slot) ∷ []) ∷ []) lowering.old lowering.new) }
{
    let token = known.slot(slot)?;
    lowering.write(&[act(Action::Compute(Operation::Free), Reads::One(token))])
}

/// The token of a slot is null.
pub fn write_null(lowering: &mut Lowering, known: &Known<'_>, slot: u32) -> Result<(), NoMemory>
    ensures { OnOk result (Wrote (sets 0 (variables_known known.now + slot) ∷ []) lowering.old lowering.new) }
{
    let token = known.slot(slot)?;
    lowering.write(&[set(0, token)])
}

/// A slot takes the token of another one.
pub fn write_move(
    lowering: &mut Lowering,
    known: &Known<'_>,
    to: u32,
    from: u32,
) -> Result<(), NoMemory>
    ensures { OnOk result (Wrote (copies_to (variables_known known.now + from) (variables_known known.now + to) ∷ []) lowering.old
        lowering.new) }
{
    let (into, token) = (known.slot(to)?, known.slot(from)?);
    lowering.write(&[copy(token, into)])
}

/// The token of a slot is held.
pub fn write_hold(lowering: &mut Lowering, known: &Known<'_>, slot: u32) -> Result<(), NoMemory>
    ensures { OnOk result (Wrote (hold_line (variables_known known.now + slot) ∷ []) lowering.old lowering.new) }
{
    let token = known.slot(slot)?;
    lowering.write(&[act(Action::Hold, Reads::Two(token, token))])
}

/// The token of a slot is taken back, and a register gets it.
pub fn write_unhold(lowering: &mut Lowering, known: &Known<'_>, slot: u32) -> Result<(), NoMemory>
    ensures { OnOk result (Wrote (back_line (variables_known known.now + slot) ∷ []) lowering.old lowering.new) }
{
    let token = known.slot(slot)?;
    lowering.push(Action::Unhold, &[token], Some(token))
}

/// A first variable and others in one list.
pub fn with_first(alloc: Global, first: u32, more: &[u32]) -> Result<Vec<u32>, NoMemory>
    ensures { IfOk result (λ all. all.items ≡ first ∷ more.now) }
{
    let mut all = Vec::new(alloc);
    all.push(first)?;
    for one in more {
        all.push(*one)?;
    }
    Ok(all)
}
