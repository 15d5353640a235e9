//! Functions on pairs and lists: each call of an emitter of code with tokens writes the steps that are expected.

ghost use Rattle.std.specs.Prelude.{◌≡◌, ◌∷◌, [], true, false, pos, IfOk, IfSome, OnOk, OnErr};
ghost use Rattle.kk_syntax.specs.Shapes.{without};
ghost use Rattle.kk_syntax.specs.declared.positions.Ownership.TheVariants.{Owned, Lent};
ghost use Rattle.kk_counted.specs.InstancePositions.{positions_in};
ghost use Rattle.kk_emitter.specs.Drafts.{computed, looked, unpacked, Writes, Owns, OwnsAll, HasFields};
ghost use Rattle.kk_emitter.specs.TokenDrafts.{adds, kept_by};
ghost use Rattle.kk_counted.specs.TokenedForms.{TokenedMove};
ghost use Rattle.kk_emitter.specs.Emissions.{counted_of, tokens_of};
ghost use Rattle.kk_emitter.specs.TokenEmitting.{HasKnown, HasSpare, IsTokenedFunctionOf};
ghost use Rattle.counted_tests.specs.CellTables.{IsShapeOf};
ghost use Rattle.counted_tests.specs.ArmDebts.{IsCellRow};

use crate::branching::freed_for_call;
use crate::ending::completed;
use crate::expecting::{calls, computes, fills, opens, opens_by_count, reads};
use crate::losing::{abandoned, lose, lose_only, lose_token};
use crate::rebuilding::called_again;
use crate::shapes::shape_of_pairs;
use kk_base::NoMemory;
use kk_counted::{Shape, TokenedFun, TokenedLast, TokenedStep};
use kk_emitter::{Debts, Emitter, Owed, Spare, give_up};
use kk_syntax::{BinaryOperator, Form, Ownership};
use std::alloc::Global;

/// The references of the two fields of a cell, in their order.
fn two_fields(
    alloc: Global,
    emitter: &mut Emitter<'_>,
    first: Owed,
    second: Owed,
) -> Result<Debts, NoMemory>
    requires { first.emitter ≡ second.emitter }
    ensures same { OnOk result (emitter.new ≡ emitter.old) }
    ensures variables { IfOk result (λ fields. fields.variables.items ≡ first.variable ∷ second.variable ∷ []) }
    ensures emitter { IfOk result (λ fields. fields.emitter ≡ first.emitter) }
    ensures spare { IfOk result (λ fields. fields.spare.items ≡ []) }
    ensures failed { OnErr result ((counted_of emitter.new).failed ≡ true) }
{
    let mut fields = Debts::new(alloc);
    if let Err(kept) = fields.put(first) {
        let error = abandoned(emitter, kept);
        fields.close();
        lose(emitter, second);
        return Err(error);
    }
    if let Err(kept) = fields.put(second) {
        let error = abandoned(emitter, kept);
        lose_only(emitter, fields);
        return Err(error);
    }
    Ok(fields)
}

/// Builds a cell of two fields in the cell of the only token. Where there is a mask the cell has the fields that it names, and else
/// all fields are written.
fn filled(
    alloc: Global,
    emitter: &mut Emitter<'_>,
    spare: Spare,
    keep: Option<u8>,
    first: Owed,
    second: Owed,
) -> Result<Owed, NoMemory>
    requires writes { Writes (counted_of emitter.old) }
    requires has { HasSpare (counted_of emitter.old) (tokens_of emitter.old) spare.emitter spare.slot }
    requires alone { (counted_of emitter.old).failed ≡ false → without (spare.slot ∷ []) (tokens_of emitter.old).spare ≡ [] }
    requires known { IfSome keep (λ mask. HasKnown (counted_of emitter.old) (tokens_of emitter.old) spare.slot (kept_by mask 2) (first.variable ∷ second.variable ∷ [])) }
    requires owns { OwnsAll (counted_of emitter.old) first.emitter (first.variable ∷ second.variable ∷ []) }
    requires of { first.emitter ≡ second.emitter }
    requires fields { HasFields (counted_of emitter.old) 0 2 }
    ensures going { OnOk result ((counted_of emitter.old).failed ≡ false) }
    ensures ok { OnOk result (counted_of emitter.new ≡ computed (counted_of emitter.old) (Form.Construct 0) (first.variable ∷ second.variable ∷ []) (first.variable ∷ second.variable ∷ [])) }
    ensures tokens { OnOk result (tokens_of emitter.new ≡ record (tokens_of emitter.old) { moves = (tokens_of emitter.new).moves; spare = [] }) }
    ensures owed { IfOk result (λ owed. (owed.emitter ≡ (counted_of emitter.old).instance) × (owed.variable ≡ (counted_of emitter.old).next)) }
    ensures failed { OnErr result ((counted_of emitter.new).failed ≡ true) }
{
    let fields = match two_fields(alloc, emitter, first, second) {
        Ok(fields) => fields,
        Err(error) => {
            lose_token(emitter, spare);
            return Err(error);
        }
    };
    let built = match keep {
        Some(mask) => emitter.construct_over(spare, 0, mask, fields),
        None => emitter.construct_in(spare, 0, fields),
    };
    match built {
        Ok(built) => Ok(built),
        Err(kept) => Err(abandoned(emitter, kept)),
    }
}

/// The function `fun keep(p: pair): pair { match p { Pair(x, y) -> { val z = 9; Pair(z, y) } } }`. It leaves the second field,
/// which its cell has already.
fn keep(alloc: Global, shape: &Shape) -> Result<TokenedFun, NoMemory>
    requires { IsShapeOf Owned ((false ∷ true ∷ []) ∷ []) shape.now }
    ensures { IfOk result (λ function. IsTokenedFunctionOf (positions_in shape.now.instances.items) 0 function) }
{
    let mut emitter = Emitter::start(alloc, shape, 0)?;
    let cell = emitter.param(0)?;
    let (mut opened, spare) = match emitter.unpack_unique(cell, 0, 2) {
        Ok(both) => both,
        Err(kept) => return Err(abandoned(&mut emitter, kept)),
    };
    let Some(second) = opened.take() else {
        unreachable!();
    };
    opened.close();
    let number = match emitter.plain(Form::Number(9), Vec::new(alloc)) {
        Ok(number) => number,
        Err(kept) => {
            let error = abandoned(&mut emitter, kept);
            lose(&mut emitter, second);
            lose_token(&mut emitter, spare);
            return Err(error);
        }
    };
    let built = filled(alloc, &mut emitter, spare, Some(2), number, second)?;
    completed(emitter, built)
}

/// It opens the cell and gives its first field up, and builds one in its place that has the second field already.
#[test]
fn a_second_field_is_left(rt: HostRuntime) -> Result<(), NoMemory> {
    let shape = shape_of_pairs(rt.alloc(), Ownership::Owned)?;
    let function = keep(rt.alloc(), &shape)?;
    let steps = &function.body.steps;
    assert_eq!(rt; steps.len(), 3);
    assert!(rt; opens_by_count(&steps[0], &[1, 2], &[2]));
    assert!(rt; computes(&steps[1], 3, Form::Number(9), &[], &[0]));
    assert!(rt; fills(&steps[2], 4, 3, &[2], &[1]));
    assert!(rt; matches!(function.body.last, TokenedLast::Return(4)));
    Ok(())
}

/// Builds a new cell of a constructor with two fields.
fn constructed(
    alloc: Global,
    emitter: &mut Emitter<'_>,
    constructor: u32,
    first: Owed,
    second: Owed,
) -> Result<Owed, NoMemory>
    requires writes { Writes (counted_of emitter.old) }
    requires owns { OwnsAll (counted_of emitter.old) first.emitter (first.variable ∷ second.variable ∷ []) }
    requires of { first.emitter ≡ second.emitter }
    requires fields { HasFields (counted_of emitter.old) constructor 2 }
    ensures going { OnOk result ((counted_of emitter.old).failed ≡ false) }
    ensures ok { OnOk result (counted_of emitter.new ≡ computed (counted_of emitter.old) (Form.Construct constructor) (first.variable ∷ second.variable ∷ []) (first.variable ∷ second.variable ∷ [])) }
    ensures tokens { OnOk result (tokens_of emitter.new ≡ adds (tokens_of emitter.old) (TokenedMove.computes (counted_of emitter.old).next (Form.Construct constructor) (first.variable ∷ second.variable ∷ []) (tokens_of emitter.old).spare ∷ [])) }
    ensures owed { IfOk result (λ owed. (owed.emitter ≡ (counted_of emitter.old).instance) × (owed.variable ≡ (counted_of emitter.old).next)) }
    ensures failed { OnErr result ((counted_of emitter.new).failed ≡ true) }
{
    let fields = two_fields(alloc, emitter, first, second)?;
    match emitter.construct(constructor, fields) {
        Ok(built) => Ok(built),
        Err(kept) => Err(abandoned(emitter, kept)),
    }
}

/// The row of `Node(_, right) -> Node(t, spine(right))`, where `t` is the cell, which stays.
pub fn with_spine(alloc: Global, emitter: &mut Emitter<'_>, cell: Owed) -> Result<Owed, NoMemory>
    requires row { IsCellRow 1 (counted_of emitter.old) (tokens_of emitter.old) cell }
    requires lent { (counted_of emitter.old).failed ≡ false → (counted_of emitter.old).lent ≡ [] }
    ensures going { OnOk result ((counted_of emitter.old).failed ≡ false) }
    ensures ok { OnOk result (counted_of emitter.new ≡ record (counted_of emitter.old) { steps = (counted_of emitter.new).steps; owed = 4 ∷ []; next = 5; lent = [] }) }
    ensures steps { OnOk result ((counted_of emitter.new).steps ≡ (computed (computed (looked (counted_of emitter.old) 0 0 2) (Form.Call 0) (2 ∷ []) (2 ∷ [])) (Form.Construct 0) (0 ∷ 3 ∷ []) (0 ∷ 3 ∷ [])).steps) }
    ensures tokens { OnOk result (tokens_of emitter.new ≡ record (tokens_of emitter.old) { moves = (tokens_of emitter.new).moves; spare = [] }) }
    ensures value { IfOk result (λ owed. (owed.emitter ≡ (counted_of emitter.old).instance) × (owed.variable ≡ 4)) }
    ensures failed { OnErr result ((counted_of emitter.new).failed ≡ true) }
{
    let mut read = match emitter.fields(0, 0, 2) {
        Ok(read) => read,
        Err(error) => {
            lose(emitter, cell);
            return Err(error);
        }
    };
    let Some(rest) = read.take() else {
        unreachable!();
    };
    read.close();
    match called_again(alloc, emitter, rest) {
        Ok(value) => constructed(alloc, emitter, 0, cell, value),
        Err(error) => {
            lose(emitter, cell);
            Err(error)
        }
    }
}

/// The row of `Cons(x, xx) -> Cons(x + 1, inc(xx))`. The cell is held while the function calls itself.
pub fn increased(alloc: Global, emitter: &mut Emitter<'_>, cell: Owed) -> Result<Owed, NoMemory>
    requires row { IsCellRow 1 (counted_of emitter.old) (tokens_of emitter.old) cell }
    ensures going { OnOk result ((counted_of emitter.old).failed ≡ false) }
    ensures ok { OnOk result (counted_of emitter.new ≡ record (counted_of emitter.old) { steps = (counted_of emitter.new).steps; owed = 6 ∷ []; next = 7 }) }
    ensures steps { OnOk result ((counted_of emitter.new).steps ≡ (computed (computed (computed (computed (unpacked (counted_of emitter.old) true 0 0 3) (Form.Number (pos 1)) [] []) (Form.Binary BinaryOperator.Add) (1 ∷ 3 ∷ []) (1 ∷ 3 ∷ [])) (Form.Call 0) (2 ∷ []) (2 ∷ [])) (Form.Construct 0) (4 ∷ 5 ∷ []) (4 ∷ 5 ∷ [])).steps) }
    ensures tokens { OnOk result (tokens_of emitter.new ≡ record (tokens_of emitter.old) { moves = (tokens_of emitter.new).moves; spare = [] }) }
    ensures value { IfOk result (λ owed. (owed.emitter ≡ (counted_of emitter.old).instance) × (owed.variable ≡ 6)) }
    ensures failed { OnErr result ((counted_of emitter.new).failed ≡ true) }
{
    let (mut opened, spare) = match emitter.unpack_unique(cell, 0, 3) {
        Ok(both) => both,
        Err(kept) => return Err(abandoned(emitter, kept)),
    };
    let Some(rest) = opened.take() else {
        unreachable!();
    };
    let Some(number) = opened.take() else {
        unreachable!();
    };
    opened.close();
    match emitter.plain(Form::Number(1), Vec::new(alloc)) {
        Ok(one) => summed(alloc, emitter, spare, number, one, rest),
        Err(kept) => {
            let error = abandoned(emitter, kept);
            lose(emitter, number);
            lose(emitter, rest);
            lose_token(emitter, spare);
            Err(error)
        }
    }
}

/// Goes on with the sum of both numbers.
fn summed(
    alloc: Global,
    emitter: &mut Emitter<'_>,
    spare: Spare,
    number: Owed,
    one: Owed,
    rest: Owed,
) -> Result<Owed, NoMemory>
    requires writes { Writes (counted_of emitter.old) }
    requires positions { (counted_of emitter.old).positions ≡ (Owned ∷ []) ∷ [] }
    requires fields { HasFields (counted_of emitter.old) 0 2 }
    requires owed { (counted_of emitter.old).failed ≡ false → (counted_of emitter.old).owed ≡ 1 ∷ 2 ∷ 3 ∷ [] }
    requires next { (counted_of emitter.old).failed ≡ false → (counted_of emitter.old).next ≡ 4 }
    requires spare { (counted_of emitter.old).failed ≡ false → (tokens_of emitter.old).spare ≡ 0 ∷ [] }
    requires slot { (spare.slot ≡ 0) × (spare.emitter ≡ (counted_of emitter.old).instance) }
    requires number { (number.variable ≡ 1) × (number.emitter ≡ (counted_of emitter.old).instance) }
    requires one { (one.variable ≡ 3) × (one.emitter ≡ (counted_of emitter.old).instance) }
    requires rest { (rest.variable ≡ 2) × (rest.emitter ≡ (counted_of emitter.old).instance) }
    ensures going { OnOk result ((counted_of emitter.old).failed ≡ false) }
    ensures ok { OnOk result (counted_of emitter.new ≡ record (counted_of emitter.old) { steps = (counted_of emitter.new).steps; owed = 6 ∷ []; next = 7 }) }
    ensures steps { OnOk result ((counted_of emitter.new).steps ≡ (computed (computed (computed (counted_of emitter.old) (Form.Binary BinaryOperator.Add) (1 ∷ 3 ∷ []) (1 ∷ 3 ∷ [])) (Form.Call 0) (2 ∷ []) (2 ∷ [])) (Form.Construct 0) (4 ∷ 5 ∷ []) (4 ∷ 5 ∷ [])).steps) }
    ensures tokens { OnOk result (tokens_of emitter.new ≡ record (tokens_of emitter.old) { moves = (tokens_of emitter.new).moves; spare = [] }) }
    ensures value { IfOk result (λ owed. (owed.emitter ≡ (counted_of emitter.old).instance) × (owed.variable ≡ 6)) }
    ensures failed { OnErr result ((counted_of emitter.new).failed ≡ true) }
{
    let arguments = match handed_over(alloc, emitter, number, one) {
        Ok(arguments) => arguments,
        Err(error) => {
            lose(emitter, rest);
            lose_token(emitter, spare);
            return Err(error);
        }
    };
    match emitter.plain(Form::Binary(BinaryOperator::Add), arguments) {
        Ok(sum) => called_and_filled(alloc, emitter, spare, sum, rest),
        Err(kept) => {
            let error = abandoned(emitter, kept);
            lose(emitter, rest);
            lose_token(emitter, spare);
            Err(error)
        }
    }
}

/// Hands two references over.
fn handed_over(
    alloc: Global,
    emitter: &mut Emitter<'_>,
    first: Owed,
    second: Owed,
) -> Result<Vec<u32>, NoMemory>
    requires writes { Writes (counted_of emitter.old) }
    requires first { Owns (counted_of emitter.old) first.emitter first.variable }
    requires second { Owns (counted_of emitter.old) second.emitter second.variable }
    ensures counted { OnOk result (counted_of emitter.new ≡ counted_of emitter.old) }
    ensures tokens { OnOk result (tokens_of emitter.new ≡ tokens_of emitter.old) }
    ensures arguments { IfOk result (λ arguments. arguments.items ≡ first.variable ∷ second.variable ∷ []) }
    ensures failed { OnErr result ((counted_of emitter.new).failed ≡ true) }
{
    let one = match emitter.hand_over(first) {
        Ok(one) => one,
        Err(kept) => {
            let error = abandoned(emitter, kept);
            lose(emitter, second);
            return Err(error);
        }
    };
    let two = match emitter.hand_over(second) {
        Ok(two) => two,
        Err(kept) => return Err(abandoned(emitter, kept)),
    };
    let Ok(arguments) = Vec::from_slice(alloc, &[one, two]) else {
        return Err(emitter.fail());
    };
    Ok(arguments)
}

/// Calls the function on the rest of the list, and builds a cell of the sum and what the call gives.
fn called_and_filled(
    alloc: Global,
    emitter: &mut Emitter<'_>,
    spare: Spare,
    sum: Owed,
    rest: Owed,
) -> Result<Owed, NoMemory>
    requires writes { Writes (counted_of emitter.old) }
    requires positions { (counted_of emitter.old).positions ≡ (Owned ∷ []) ∷ [] }
    requires fields { HasFields (counted_of emitter.old) 0 2 }
    requires owed { (counted_of emitter.old).failed ≡ false → (counted_of emitter.old).owed ≡ 2 ∷ 4 ∷ [] }
    requires next { (counted_of emitter.old).failed ≡ false → (counted_of emitter.old).next ≡ 5 }
    requires spare { (counted_of emitter.old).failed ≡ false → (tokens_of emitter.old).spare ≡ 0 ∷ [] }
    requires slot { (spare.slot ≡ 0) × (spare.emitter ≡ (counted_of emitter.old).instance) }
    requires sum { (sum.variable ≡ 4) × (sum.emitter ≡ (counted_of emitter.old).instance) }
    requires rest { (rest.variable ≡ 2) × (rest.emitter ≡ (counted_of emitter.old).instance) }
    ensures going { OnOk result ((counted_of emitter.old).failed ≡ false) }
    ensures ok { OnOk result (counted_of emitter.new ≡ record (counted_of emitter.old) { steps = (counted_of emitter.new).steps; owed = 6 ∷ []; next = 7 }) }
    ensures steps { OnOk result ((counted_of emitter.new).steps ≡ (computed (computed (counted_of emitter.old) (Form.Call 0) (2 ∷ []) (2 ∷ [])) (Form.Construct 0) (4 ∷ 5 ∷ []) (4 ∷ 5 ∷ [])).steps) }
    ensures tokens { OnOk result (tokens_of emitter.new ≡ record (tokens_of emitter.old) { moves = (tokens_of emitter.new).moves; spare = [] }) }
    ensures value { IfOk result (λ owed. (owed.emitter ≡ (counted_of emitter.old).instance) × (owed.variable ≡ 6)) }
    ensures failed { OnErr result ((counted_of emitter.new).failed ≡ true) }
{
    match called_again(alloc, emitter, rest) {
        Ok(value) => filled(alloc, emitter, spare, None, sum, value),
        Err(error) => {
            lose(emitter, sum);
            lose_token(emitter, spare);
            Err(error)
        }
    }
}

/// The function that duplicates its parameter, drops one of the two references, and gives the other.
fn drops_one_of_two(alloc: Global, shape: &Shape) -> Result<TokenedFun, NoMemory>
    requires { IsShapeOf Owned ((false ∷ true ∷ []) ∷ []) shape.now }
    ensures { IfOk result (λ function. IsTokenedFunctionOf (positions_in shape.now.instances.items) 0 function) }
{
    let mut emitter = Emitter::start(alloc, shape, 0)?;
    let first = emitter.param(0)?;
    let second = match emitter.dup(&first) {
        Ok(second) => second,
        Err(error) => {
            lose(&mut emitter, first);
            return Err(error);
        }
    };
    if let Err(kept) = emitter.drop_ref(second) {
        let error = abandoned(&mut emitter, kept);
        lose(&mut emitter, first);
        return Err(error);
    }
    completed(emitter, first)
}

/// Both steps are written.
#[test]
fn a_dup_and_a_drop_are_written(rt: HostRuntime) -> Result<(), NoMemory> {
    let shape = shape_of_pairs(rt.alloc(), Ownership::Owned)?;
    let function = drops_one_of_two(rt.alloc(), &shape)?;
    let steps = &function.body.steps;
    assert_eq!(rt; steps.len(), 2);
    assert!(rt; matches!(steps[0], TokenedStep::Dup { variable: 0 }));
    assert!(rt; matches!(steps[1], TokenedStep::Drop { variable: 0 }));
    assert!(rt; matches!(function.body.last, TokenedLast::Return(0)));
    Ok(())
}

/// The function of a lent pair that gives its second field.
fn second_of_lent(alloc: Global, shape: &Shape) -> Result<TokenedFun, NoMemory>
    requires { IsShapeOf Lent ((false ∷ true ∷ []) ∷ []) shape.now }
    ensures { IfOk result (λ function. IsTokenedFunctionOf (positions_in shape.now.instances.items) 0 function) }
{
    let mut emitter = Emitter::start(alloc, shape, 0)?;
    let field = emitter.field(0, 0, 1)?;
    let second = emitter.dup_lent(field)?;
    completed(emitter, second)
}

/// It reads both fields, which are lent, and makes a reference of its own of the second one.
#[test]
fn a_lent_field_is_duplicated(rt: HostRuntime) -> Result<(), NoMemory> {
    let shape = shape_of_pairs(rt.alloc(), Ownership::Lent)?;
    let function = second_of_lent(rt.alloc(), &shape)?;
    let steps = &function.body.steps;
    assert_eq!(rt; steps.len(), 2);
    assert!(rt; reads(&steps[0], 0, &[1, 2]));
    assert!(rt; matches!(steps[1], TokenedStep::Dup { variable: 2 }));
    assert!(rt; matches!(function.body.last, TokenedLast::Return(2)));
    Ok(())
}

/// The function `fun last(xs: list): list { match xs { Cons(_, xx) -> last(xx) } }`. It frees the cell that it opens.
fn last(alloc: Global, shape: &Shape) -> Result<TokenedFun, NoMemory>
    requires { IsShapeOf Owned ((false ∷ true ∷ []) ∷ []) shape.now }
    ensures { IfOk result (λ function. IsTokenedFunctionOf (positions_in shape.now.instances.items) 0 function) }
{
    let mut emitter = Emitter::start(alloc, shape, 0)?;
    let cell = emitter.param(0)?;
    let (mut opened, spare) = match emitter.unpack(cell, 0, 2) {
        Ok(both) => both,
        Err(kept) => return Err(abandoned(&mut emitter, kept)),
    };
    let Some(rest) = opened.take() else {
        unreachable!();
    };
    opened.close();
    let arguments = freed_for_call(alloc, &mut emitter, rest, spare)?;
    match emitter.finish_tail(0, arguments) {
        Ok(function) => Ok(function),
        Err(kept) => Err(give_up(kept)),
    }
}

/// It opens the cell and gives its first field up, frees the cell, and calls itself.
#[test]
fn a_cell_is_freed_before_a_tail_call(rt: HostRuntime) -> Result<(), NoMemory> {
    let shape = shape_of_pairs(rt.alloc(), Ownership::Owned)?;
    let function = last(rt.alloc(), &shape)?;
    let steps = &function.body.steps;
    assert_eq!(rt; steps.len(), 2);
    assert!(rt; opens(&steps[0], &[1, 2], &[2]));
    assert!(rt; matches!(steps[1], TokenedStep::Free { slot: 0 }));
    assert!(rt; calls(&function.body.last, &[2]));
    Ok(())
}
