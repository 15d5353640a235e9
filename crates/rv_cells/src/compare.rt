// A comparison in front of a case on its value, which are one branch.

ghost use Rattle.std.specs.Prelude.{◌≡◌, ℕ, Bool, [], ◌∷◌, Some, map, IfSome, IsTrue, false, IsFalse};
ghost use Rattle.kk_core.specs.declared.decisions.Answer.TheVariants.{Constructor};
ghost use Rattle.kk_core.specs.Decisions.{node_tree};
ghost use Rattle.kk_core.specs.Truths.{truth_decisions};
ghost use Rattle.kk_counted.specs.TokenedForms.{tokened_last_code, tokened_move, tokened_code, tokened_arms};
ghost use Rattle.rv_lower.specs.Written.{pair_of};
ghost use Rattle.rv_cells.specs.ComparisonBranch.{branch_unless, IsTested, IsCompared, IsBranchBetween, names, name_arms};
ghost use Rattle.rv_cells.specs.ComparisonBranch.{names_behind};
ghost use Rattle.rv_cells.specs.ComparisonBranch.{arms_name_behind, step_names, steps_name};
ghost use Rattle.kk_syntax.specs.Shapes.{is_among};
ghost use Rattle.kk_counted.specs.BareForms.{bare, bare_arms};

use kk_core::{Answer, Decisions, Edge, Node};
use kk_counted::{TokenedBlock, TokenedLast, TokenedStep};
use kk_syntax::{BinaryOperator, Form};
use rv_isa::Condition;

/// A condition of the values of two variables.
#[derive(Clone, Copy, Drop)]
pub struct Branching {
    pub condition: Condition,
    pub first: u32,
    pub second: u32,
}

/// The branch to `False` that stands for a step and the case behind it: the step is a comparison, and only the case names its
/// variable.
pub fn branch_between(step: &TokenedStep, last: &TokenedLast) -> Option<Branching>
    ensures { IfSome result (λ branch. (holds : ℕ → Bool)
        → IsBranchBetween holds (tokened_move step.now) (tokened_last_code last.now) branch) }
{
    let (variable, branch) = compared(step)?;
    if !is_tested(variable, last) {
        return None;
    }
    Some(branch)
}

/// The variable of a comparison, and the branch that it would be.
fn compared(step: &TokenedStep) -> Option<(u32, Branching)>
    ensures { IfSome result (λ found. IsCompared (tokened_move step.now) found.0 found.1) }
{
    let TokenedStep::Let {
        variable,
        form: Form::Binary(operator),
        arguments,
        ..
    } = step
    else {
        return None;
    };
    let (first, second) = pair(arguments)?;
    let branch = branch_unless(*operator, first, second)?;
    Some((*variable, branch))
}

/// The arguments, where there are two.
fn pair(arguments: &[u32]) -> Option<(u32, u32)>
    ensures { result ≡ pair_of arguments.now }
{
    match arguments {
        [first, second] => Some((*first, *second)),
        _ => None,
    }
}

/// The condition that holds where a comparison of two variables does not.
fn branch_unless(operator: BinaryOperator, first: u32, second: u32) -> Option<Branching>
    ensures { result ≡ branch_unless operator first second }
{
    match operator {
        BinaryOperator::Equal => branch(Condition::NotEqual, first, second),
        BinaryOperator::NotEqual => branch(Condition::Equal, first, second),
        BinaryOperator::Less => branch(Condition::GreaterEqual, first, second),
        BinaryOperator::GreaterEqual => branch(Condition::Less, first, second),
        BinaryOperator::Greater => branch(Condition::GreaterEqual, second, first),
        BinaryOperator::LessEqual => branch(Condition::Less, second, first),
        BinaryOperator::Add
        | BinaryOperator::Subtract
        | BinaryOperator::Multiply
        | BinaryOperator::Divide
        | BinaryOperator::Remainder => None,
    }
}

/// A branch by a condition.
fn branch(condition: Condition, first: u32, second: u32) -> Option<Branching>
    ensures { result ≡ Some (record { condition = condition; first = first; second = second }) }
{
    Some(Branching {
        condition,
        first,
        second,
    })
}

/// Whether a block ends with a case on the truth of a variable, whose arms do not name it.
fn is_tested(variable: u32, last: &TokenedLast) -> bool
    ensures { IsTrue result → (holds : ℕ → Bool) → IsTested holds variable (tokened_last_code last.now) }
{
    match last {
        TokenedLast::Case(tested, decisions, arms) => {
            *tested == variable && are_of_truth(decisions) && !arms_name_behind(arms, variable)
        }
        _ => false,
    }
}

/// Whether decisions are those of a truth.
fn are_of_truth(decisions: &Decisions) -> bool
    ensures { IsTrue result → map node_tree decisions.now.nodes.items ≡ truth_decisions }
{
    match decisions.nodes() {
        [
            Node::Test(at, edges, Some(1)),
            Node::Choose(0),
            Node::Choose(1),
        ] => at.is_empty() && is_false_edge(edges),
        _ => false,
    }
}

/// Whether `False` alone leads to the last node.
fn is_false_edge(edges: &[Edge]) -> bool
    ensures { IsTrue result → edges.now ≡ record { found = Constructor 0; next = 2 } ∷ [] }
{
    let [edge] = edges else {
        return false;
    };
    let Edge { found, next } = *edge;
    match found {
        Answer::Constructor(constructor) => constructor == 0 && next == 2,
        Answer::Number(_) => false,
    }
}

/// Whether a variable is among others.
fn is_one_of(others: &[u32], variable: u32) -> bool
    ensures { result ≡ is_among others.now variable }
{
    for other in others {
        if *other == variable {
            return true;
        }
    }
    false
}

/// Whether a block uses a variable. Where it tests a token both ways use the same. The recursion is as deep as the block.
#[cycle(names)]
fn block_names(block: &TokenedBlock, variable: u32) -> bool
    ensures { result ≡ names variable (bare (tokened_code block.now)) }
{
    if steps_name(&block.steps, variable) {
        return true;
    }
    last_names(&block.last, variable)
}

#[cycle(names)]
fn steps_name(steps: &[TokenedStep], variable: u32) -> bool
    ensures { result ≡ steps_name variable (map tokened_move steps.now) }
{
    for step in steps {
        if step_names(step, variable) {
            return true;
        }
    }
    false
}

#[cycle(names)]
fn step_names(step: &TokenedStep, variable: u32) -> bool
    ensures { result ≡ step_names variable (tokened_move step.now) }
{
    match step {
        TokenedStep::Let { arguments, .. } => is_one_of(arguments, variable),
        TokenedStep::Inside { block, .. } => block_names(block, variable),
        TokenedStep::Read {
            variable: named,
            ..
        } => *named == variable,
        TokenedStep::Open {
            variable: named,
            ..
        } => *named == variable,
        TokenedStep::IfUnique {
            variable: named,
            ..
        } => *named == variable,
        TokenedStep::Dup { variable: named } => *named == variable,
        TokenedStep::Drop { variable: named } => *named == variable,
        TokenedStep::Fill {
            first,
            arguments,
            ..
        } => *first == variable || is_one_of(arguments, variable),
        TokenedStep::Free { .. } | TokenedStep::Null { .. } => false,
        TokenedStep::Move { .. } | TokenedStep::Hold { .. } | TokenedStep::Unhold { .. } => false,
    }
}

#[cycle(names)]
fn last_names(last: &TokenedLast, variable: u32) -> bool
    ensures { result ≡ names variable (bare (tokened_last_code last.now)) }
{
    match last {
        TokenedLast::Return(named) => *named == variable,
        TokenedLast::TailCall(_, arguments) => is_one_of(arguments, variable),
        TokenedLast::Case(named, _, arms) => *named == variable || arms_name(arms, variable),
        TokenedLast::IfToken(_, there, _) => block_names(there, variable),
    }
}

/// Whether one of some arms uses a variable.
#[cycle(names)]
fn arms_name(arms: &[TokenedBlock], variable: u32) -> bool
    ensures { result ≡ name_arms variable (bare_arms (tokened_arms (map tokened_code arms.now))) }
{
    for arm in arms {
        if block_names(arm, variable) {
            return true;
        }
    }
    false
}

/// Whether a block uses a variable, but for a first step that gives a variable up.
fn named_behind(block: &TokenedBlock, variable: u32) -> bool
    ensures { IsFalse result → names_behind variable (tokened_code block.now) ≡ false }
{
    if let Some((TokenedStep::Drop { .. }, steps)) = block.steps.split_first() {
        return steps_name(steps, variable) || last_names(&block.last, variable);
    }
    block_names(block, variable)
}

/// The same of some arms.
pub fn arms_name_behind(arms: &[TokenedBlock], variable: u32) -> bool
    ensures { IsFalse result → arms_name_behind variable (tokened_arms (map tokened_code arms.now)) ≡ false }
{
    for arm in arms {
        if named_behind(arm, variable) {
            return true;
        }
    }
    false
}
