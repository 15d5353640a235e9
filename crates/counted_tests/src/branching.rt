//! A function with a branch: each row frees the cell, and one ends by a tail call.

ghost use Rattle.std.specs.Prelude.{◌≡◌, ◌∷◌, [], true, false, IfOk, OnOk, OnErr};
ghost use Rattle.kk_syntax.specs.declared.positions.Ownership.TheVariants.{Owned};
ghost use Rattle.kk_counted.specs.CountedForms.{decisions_of};
ghost use Rattle.kk_counted.specs.TokenedCodes.{Tokened};
ghost use Rattle.kk_counted.specs.TokenedForms.{TokenedMove, opens_with};
ghost use Rattle.kk_emitter.specs.Drafts.{begun, given, unpacked, forked, outside, ended_by_value, ended_by_call, Writes, Owns};
ghost use Rattle.kk_emitter.specs.TokenDrafts.{no_tokens, gains, spends, tokens_forked, tokens_ended_in};
ghost use Rattle.kk_emitter.specs.Emissions.{counted_of, tokens_of};
ghost use Rattle.kk_emitter.specs.TokenEmitting.{HasSpare, CanEnd, IsTokenedFunctionOf};
ghost use Rattle.kk_emitter.specs.Works.{left_in};
ghost use Rattle.counted_tests.specs.CellTables.{table_of, IsShapeOf};
ghost use Rattle.counted_tests.specs.ArmDebts.{IsArmOf};
ghost use Rattle.counted_tests.specs.TwoRows.{box_row, tokens_box_row};

use crate::ending::{ended, finished, given_without};
use crate::expecting::{calls, opens_by_count, rows_of};
use crate::losing::{abandoned, lose, lose_arms};
use crate::rebuilding::opened_box;
use crate::shapes::shape_of_boxes;
use kk_base::NoMemory;
use kk_core::{Decisions, truth_decisions};
use kk_counted::{Shape, TokenedFun, TokenedLast, TokenedStep};
use kk_emitter::{ArmEnd, Arms, Debts, Emitter, Owed, Spare};
use std::alloc::Global;

/// Opens the parameter, a box, by its count, and begins a branch on what was inside. Each arm is to spend that and the token.
fn opened(emitter: &mut Emitter<'_>, tests: &Decisions) -> Result<Arms, NoMemory>
    requires counted { counted_of emitter.old ≡ begun ((Owned ∷ []) ∷ []) (1 ∷ []) (table_of ((true ∷ []) ∷ [])) 0 }
    requires tokens { tokens_of emitter.old ≡ no_tokens }
    requires rows { tests.now.rows ≡ 2 }
    ensures ok { OnOk result (counted_of emitter.new ≡ forked (unpacked (given (counted_of emitter.old) 0) true 0 0 1) 1 (decisions_of tests.now) (1 ∷ []) 2) }
    ensures tokens { OnOk result (tokens_of emitter.new ≡ tokens_forked (gains no_tokens (opens_with true 0 0 (1 ∷ []) (1 ∷ []) 0)) 1 (decisions_of tests.now) 2) }
    ensures arms { IfOk result (λ arms. (arms.emitter ≡ 0) × (arms.depth ≡ 1)) }
    ensures left { IfOk result (λ arms. left_in arms.left.items ≡ (1 ∷ []) ∷ (1 ∷ []) ∷ []) }
    ensures slots { IfOk result (λ arms. left_in arms.spare.items ≡ (0 ∷ []) ∷ (0 ∷ []) ∷ []) }
{
    let debts = opened_box(emitter)?;
    match emitter.split(1, tests, debts) {
        Ok(arms) => Ok(arms),
        Err(kept) => Err(abandoned(emitter, kept)),
    }
}

/// An arm that frees its token and gives its reference.
fn freed(emitter: &mut Emitter<'_>, mut debts: Debts, arms: Arms) -> Result<Arms, NoMemory>
    requires arm { IsArmOf 1 (0 ∷ []) (counted_of emitter.old) (tokens_of emitter.old) debts }
    requires can { (counted_of emitter.old).failed ≡ false → CanEnd (spends (tokens_of emitter.old) (TokenedMove.frees 0) 0) false (tokens_of emitter.old).splits }
    ensures going { OnOk result ((counted_of emitter.old).failed ≡ false) }
    ensures ok { OnOk result (counted_of emitter.new ≡ ended_by_value (counted_of emitter.old) 1) }
    ensures tokens { OnOk result (tokens_of emitter.new ≡ tokens_ended_in (spends (tokens_of emitter.old) (TokenedMove.frees 0) 0) (Tokened.give 1) false (tokens_of emitter.old).splits) }
    ensures same { IfOk result (λ left. left ≡ arms) }
    ensures failed { OnErr result ((counted_of emitter.new).failed ≡ true) }
{
    let Some(value) = debts.take() else {
        unreachable!();
    };
    let Some(spare) = debts.take_spare() else {
        unreachable!();
    };
    given_without(emitter, value, spare, debts, arms)
}

/// Begins a branch on what is inside of the parameter, a box, which is opened by its count. The first of two rows frees the cell
/// and gives that. The other row is entered, which is to spend both.
fn freed_first(alloc: Global, emitter: &mut Emitter<'_>) -> Result<(Debts, Arms), NoMemory>
    requires counted { counted_of emitter.old ≡ begun ((Owned ∷ []) ∷ []) (1 ∷ []) (table_of ((true ∷ []) ∷ [])) 0 }
    requires tokens { tokens_of emitter.old ≡ no_tokens }
    ensures ok { OnOk result (counted_of emitter.new ≡ box_row) }
    ensures tokens { OnOk result (tokens_of emitter.new ≡ tokens_box_row) }
    ensures variables { IfOk result (λ both. both.0.variables.items ≡ 1 ∷ []) }
    ensures spare { IfOk result (λ both. both.0.spare.items ≡ 0 ∷ []) }
    ensures emitter { IfOk result (λ both. both.0.emitter ≡ 0) }
    ensures arms { IfOk result (λ both. (both.1.depth ≡ 1) × (left_in both.1.left.items ≡ [])) }
{
    let tests = truth_decisions(alloc)?;
    let mut arms = opened(emitter, &tests)?;
    let Some(debts) = emitter.next_arm(&mut arms) else {
        unreachable!();
    };
    let mut arms = freed(emitter, debts, arms)?;
    let Some(debts) = emitter.next_arm(&mut arms) else {
        unreachable!();
    };
    Ok((debts, arms))
}

/// An arm that frees its token, and ends by a tail call of the function on its reference.
fn freed_and_called(
    alloc: Global,
    emitter: &mut Emitter<'_>,
    mut debts: Debts,
    arms: Arms,
) -> Result<Arms, NoMemory>
    requires arm { IsArmOf 1 (0 ∷ []) (counted_of emitter.old) (tokens_of emitter.old) debts }
    requires positions { (counted_of emitter.old).positions ≡ (Owned ∷ []) ∷ [] }
    requires outside { (counted_of emitter.old).failed ≡ false → outside (counted_of emitter.old).uncalled (counted_of emitter.old).splits ≡ [] }
    requires can { (counted_of emitter.old).failed ≡ false → CanEnd (spends (tokens_of emitter.old) (TokenedMove.frees 0) 0) true (tokens_of emitter.old).splits }
    ensures going { OnOk result ((counted_of emitter.old).failed ≡ false) }
    ensures ok { OnOk result (counted_of emitter.new ≡ ended_by_call (counted_of emitter.old) 0 (1 ∷ [])) }
    ensures tokens { OnOk result (tokens_of emitter.new ≡ tokens_ended_in (spends (tokens_of emitter.old) (TokenedMove.frees 0) 0) (Tokened.tail_call 0 (1 ∷ [])) true (tokens_of emitter.old).splits) }
    ensures same { IfOk result (λ left. left ≡ arms) }
{
    let Some(value) = debts.take() else {
        unreachable!();
    };
    let Some(spare) = debts.take_spare() else {
        unreachable!();
    };
    debts.close();
    match freed_for_call(alloc, emitter, value, spare) {
        Ok(arguments) => ended(emitter, ArmEnd::Tail(0, arguments), arms),
        Err(_) => Err(lose_arms(emitter, arms)),
    }
}

/// Frees a token, and hands a reference over.
pub fn freed_for_call(
    alloc: Global,
    emitter: &mut Emitter<'_>,
    value: Owed,
    spare: Spare,
) -> Result<Vec<u32>, NoMemory>
    requires writes { Writes (counted_of emitter.old) }
    requires owns { Owns (counted_of emitter.old) value.emitter value.variable }
    requires has { HasSpare (counted_of emitter.old) (tokens_of emitter.old) spare.emitter spare.slot }
    ensures going { OnOk result ((counted_of emitter.old).failed ≡ false) }
    ensures ok { OnOk result (counted_of emitter.new ≡ counted_of emitter.old) }
    ensures tokens { OnOk result (tokens_of emitter.new ≡ spends (tokens_of emitter.old) (TokenedMove.frees spare.slot) spare.slot) }
    ensures arguments { IfOk result (λ arguments. arguments.items ≡ value.variable ∷ []) }
    ensures failed { OnErr result ((counted_of emitter.new).failed ≡ true) }
{
    if let Err(kept) = emitter.release(spare) {
        let error = abandoned(emitter, kept);
        lose(emitter, value);
        return Err(error);
    }
    let argument = match emitter.hand_over(value) {
        Ok(argument) => argument,
        Err(kept) => return Err(abandoned(emitter, kept)),
    };
    let Ok(arguments) = Vec::from_slice(alloc, &[argument]) else {
        return Err(emitter.fail());
    };
    Ok(arguments)
}

/// The function that opens its box, and by what is inside gives that, or calls itself on it last.
fn innermost(alloc: Global, shape: &Shape) -> Result<TokenedFun, NoMemory>
    requires { IsShapeOf Owned ((true ∷ []) ∷ []) shape.now }
    ensures { IfOk result (λ function. IsTokenedFunctionOf ((Owned ∷ []) ∷ []) 0 function) }
{
    let mut emitter = Emitter::start(alloc, shape, 0)?;
    let (debts, arms) = freed_first(alloc, &mut emitter)?;
    let arms = freed_and_called(alloc, &mut emitter, debts, arms)?;
    finished(emitter, arms)
}

/// Whether a function opens its box by its count and ends by a branch on what was inside, whose first row frees the cell and gives
/// that.
fn frees_first(function: &TokenedFun) -> bool {
    let steps = &function.body.steps;
    let rows = rows_of(&function.body.last, 1);
    steps.len() == 1
        && opens_by_count(&steps[0], &[1], &[1])
        && rows.len() == 2
        && rows[0].steps.len() == 1
        && matches!(rows[0].steps[0], TokenedStep::Free { slot: 0 })
        && matches!(rows[0].last, TokenedLast::Return(1))
}

/// Each row frees the cell. The branch ends the function: by what is inside, or by a tail call on it.
#[test]
fn a_row_ends_by_a_tail_call(rt: HostRuntime) -> Result<(), NoMemory> {
    let shape = shape_of_boxes(rt.alloc())?;
    let function = innermost(rt.alloc(), &shape)?;
    assert!(rt; frees_first(&function));
    let rows = rows_of(&function.body.last, 1);
    assert_eq!(rt; rows.len(), 2);
    assert_eq!(rt; rows[1].steps.len(), 1);
    assert!(rt; matches!(rows[1].steps[0], TokenedStep::Free { slot: 0 }));
    assert!(rt; calls(&rows[1].last, &[1]));
    Ok(())
}
