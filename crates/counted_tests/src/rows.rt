//! Functions on lists and trees with a row for each constructor: the rows of no cell, and those that read, open or fill one.

ghost use Rattle.std.specs.Prelude.{◌≡◌, ◌∷◌, [], false, true, IfOk, OnOk};
ghost use Rattle.kk_syntax.specs.declared.positions.Ownership.TheVariants.{Owned};
ghost use Rattle.kk_counted.specs.CountedForms.{decisions_of};
ghost use Rattle.kk_counted.specs.TokenedCodes.{Tokened};
ghost use Rattle.kk_emitter.specs.Drafts.{begun, given, forked, ended_by_value};
ghost use Rattle.kk_emitter.specs.TokenDrafts.{no_tokens, tokens_forked, tokens_ended_in, tokens_entered};
ghost use Rattle.kk_emitter.specs.Emissions.{counted_of, tokens_of};
ghost use Rattle.kk_emitter.specs.TokenEmitting.{CanEnd, IsTokenedFunctionOf};
ghost use Rattle.kk_emitter.specs.Works.{left_in};
ghost use Rattle.counted_tests.specs.CellTables.{IsShapeOf};
ghost use Rattle.counted_tests.specs.ArmDebts.{IsArmOf};
ghost use Rattle.counted_tests.specs.TwoRows.{behind_first, tokens_first, tokens_given};

use crate::ending::{ended, finished};
use crate::expecting::{computes, fills, opens_by_count, reads, rows_of};
use crate::lists::{increased, with_spine};
use crate::losing::{abandoned, lose_arms};
use crate::shapes::shape_of_rows;
use kk_base::NoMemory;
use kk_core::{Decisions, truth_decisions};
use kk_counted::{Shape, TokenedFun, TokenedLast, TokenedStep};
use kk_emitter::{ArmEnd, Arms, Debts, Emitter, Owed};
use kk_syntax::{BinaryOperator, Form};
use std::alloc::Global;

/// Begins a branch on the parameter. Each arm is to spend that, and no token.
fn matched(alloc: Global, emitter: &mut Emitter<'_>, tests: &Decisions) -> Result<Arms, NoMemory>
    requires counted { counted_of emitter.old ≡ begun ((Owned ∷ []) ∷ []) (counted_of emitter.old).field_counts (counted_of emitter.old).marks 0 }
    requires tokens { tokens_of emitter.old ≡ no_tokens }
    requires rows { tests.now.rows ≡ 2 }
    ensures ok { OnOk result (counted_of emitter.new ≡ forked (given (counted_of emitter.old) 0) 0 (decisions_of tests.now) (0 ∷ []) 2) }
    ensures tokens { OnOk result (tokens_of emitter.new ≡ tokens_forked no_tokens 0 (decisions_of tests.now) 2) }
    ensures arms { IfOk result (λ arms. (arms.emitter ≡ 0) × (arms.depth ≡ 1)) }
    ensures left { IfOk result (λ arms. left_in arms.left.items ≡ (0 ∷ []) ∷ (0 ∷ []) ∷ []) }
    ensures slots { IfOk result (λ arms. left_in arms.spare.items ≡ [] ∷ [] ∷ []) }
{
    let list = emitter.param(0)?;
    let mut debts = Debts::new(alloc);
    if let Err(kept) = debts.put(list) {
        debts.close();
        return Err(abandoned(emitter, kept));
    }
    match emitter.split(0, tests, debts) {
        Ok(arms) => Ok(arms),
        Err(kept) => Err(abandoned(emitter, kept)),
    }
}

/// The row of the constructor without fields: it gives the list as it is.
fn given_back(emitter: &mut Emitter<'_>, mut debts: Debts, arms: Arms) -> Result<Arms, NoMemory>
    requires arm { IsArmOf 0 [] (counted_of emitter.old) (tokens_of emitter.old) debts }
    requires can { (counted_of emitter.old).failed ≡ false → CanEnd (tokens_of emitter.old) false (tokens_of emitter.old).splits }
    ensures going { OnOk result ((counted_of emitter.old).failed ≡ false) }
    ensures ok { OnOk result (counted_of emitter.new ≡ ended_by_value (counted_of emitter.old) 0) }
    ensures tokens { OnOk result (tokens_of emitter.new ≡ tokens_ended_in (tokens_of emitter.old) (Tokened.give 0) false (tokens_of emitter.old).splits) }
    ensures same { IfOk result (λ left. left ≡ arms) }
{
    let Some(list) = debts.take() else {
        unreachable!();
    };
    ended(emitter, ArmEnd::Value(list, debts), arms)
}

/// Begins a branch on the parameter, and writes the row of the constructor without fields: it gives that as it is. The other row
/// is entered, which is to spend it too.
fn given_first(alloc: Global, emitter: &mut Emitter<'_>) -> Result<(Owed, Arms), NoMemory>
    requires counted { counted_of emitter.old ≡ begun ((Owned ∷ []) ∷ []) (counted_of emitter.old).field_counts (counted_of emitter.old).marks 0 }
    requires tokens { tokens_of emitter.old ≡ no_tokens }
    ensures ok { OnOk result (counted_of emitter.new ≡ behind_first (given (counted_of emitter.old) 0) 0 0) }
    ensures tokens { OnOk result (tokens_of emitter.new ≡ tokens_entered (tokens_given (tokens_first no_tokens 0) 0)) }
    ensures cell { IfOk result (λ both. (both.0.emitter ≡ 0) × (both.0.variable ≡ 0)) }
    ensures arms { IfOk result (λ both. (both.1.depth ≡ 1) × (left_in both.1.left.items ≡ [])) }
{
    let tests = truth_decisions(alloc)?;
    let mut arms = matched(alloc, emitter, &tests)?;
    let Some(debts) = emitter.next_arm(&mut arms) else {
        unreachable!();
    };
    let mut arms = given_back(emitter, debts, arms)?;
    let Some(mut debts) = emitter.next_arm(&mut arms) else {
        unreachable!();
    };
    let Some(cell) = debts.take() else {
        unreachable!();
    };
    debts.close();
    Ok((cell, arms))
}

/// The function `fun spine(t: tree): tree { match t { Node(_, right) -> Node(t, spine(right)); Leaf -> t } }`.
fn spine(alloc: Global, shape: &Shape) -> Result<TokenedFun, NoMemory>
    requires { IsShapeOf Owned ((true ∷ true ∷ []) ∷ [] ∷ []) shape.now }
    ensures { IfOk result (λ function. IsTokenedFunctionOf ((Owned ∷ []) ∷ []) 0 function) }
{
    let mut emitter = Emitter::start(alloc, shape, 0)?;
    let (cell, arms) = given_first(alloc, &mut emitter)?;
    let end = match with_spine(alloc, &mut emitter, cell) {
        Ok(value) => ArmEnd::Value(value, Debts::new(alloc)),
        Err(_) => return Err(lose_arms(&mut emitter, arms)),
    };
    let arms = ended(&mut emitter, end, arms)?;
    finished(emitter, arms)
}

/// Where the list has a cell its fields are read, the cell stays, and a new one is built. Else the list is given as it is.
#[test]
fn a_cell_that_is_read_stays(rt: HostRuntime) -> Result<(), NoMemory> {
    let shape = shape_of_rows(rt.alloc(), true)?;
    let function = spine(rt.alloc(), &shape)?;
    assert!(rt; function.body.steps.is_empty());
    let rows = rows_of(&function.body.last, 0);
    assert_eq!(rt; rows.len(), 2);
    assert!(rt; rows[0].steps.is_empty());
    assert!(rt; matches!(rows[0].last, TokenedLast::Return(0)));
    assert_eq!(rt; rows[1].steps.len(), 4);
    assert!(rt; reads(&rows[1].steps[0], 0, &[1, 2]));
    assert!(rt; matches!(rows[1].steps[1], TokenedStep::Dup { variable: 2 }));
    assert!(rt; computes(&rows[1].steps[2], 3, Form::Call(0), &[2], &[]));
    assert!(rt; computes(&rows[1].steps[3], 4, Form::Construct(0), &[0, 3], &[]));
    assert!(rt; matches!(rows[1].last, TokenedLast::Return(4)));
    Ok(())
}

/// The function `fun inc(xs: list): list { match xs { Cons(x, xx) -> Cons(x + 1, inc(xx)); Nil -> xs } }`.
fn inc(alloc: Global, shape: &Shape) -> Result<TokenedFun, NoMemory>
    requires { IsShapeOf Owned ((false ∷ true ∷ []) ∷ [] ∷ []) shape.now }
    ensures { IfOk result (λ function. IsTokenedFunctionOf ((Owned ∷ []) ∷ []) 0 function) }
{
    let mut emitter = Emitter::start(alloc, shape, 0)?;
    let (cell, arms) = given_first(alloc, &mut emitter)?;
    let end = match increased(alloc, &mut emitter, cell) {
        Ok(value) => ArmEnd::Value(value, Debts::new(alloc)),
        Err(_) => return Err(lose_arms(&mut emitter, arms)),
    };
    let arms = ended(&mut emitter, end, arms)?;
    finished(emitter, arms)
}

/// Where the list has a cell the row adds 1, holds the token, calls the function, takes the token back, and builds a cell in its
/// place. Else the list is given as it is.
#[test]
fn a_number_of_a_list_is_increased(rt: HostRuntime) -> Result<(), NoMemory> {
    let shape = shape_of_rows(rt.alloc(), false)?;
    let function = inc(rt.alloc(), &shape)?;
    assert!(rt; function.body.steps.is_empty());
    let rows = rows_of(&function.body.last, 0);
    assert_eq!(rt; rows.len(), 2);
    assert!(rt; rows[0].steps.is_empty());
    assert!(rt; matches!(rows[0].last, TokenedLast::Return(0)));
    let filling = &rows[1].steps;
    assert_eq!(rt; filling.len(), 7);
    assert!(rt; opens_by_count(&filling[0], &[1, 2], &[1, 2]));
    assert!(rt; computes(&filling[1], 3, Form::Number(1), &[], &[0]));
    let addition = Form::Binary(BinaryOperator::Add);
    assert!(rt; computes(&filling[2], 4, addition, &[1, 3], &[0]));
    assert!(rt; matches!(filling[3], TokenedStep::Hold { slot: 0 }));
    assert!(rt; computes(&filling[4], 5, Form::Call(0), &[2], &[0]));
    assert!(rt; matches!(filling[5], TokenedStep::Unhold { slot: 0 }));
    assert!(rt; fills(&filling[6], 6, 4, &[5], &[]));
    assert!(rt; matches!(rows[1].last, TokenedLast::Return(6)));
    Ok(())
}
