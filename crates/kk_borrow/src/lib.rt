//! Which parameters of a program's functions are owned, and which are lent.
#![tactic(auto)]

mod owned_place;
mod rule;
mod scope;
mod standing;
mod tail_call;

ghost use Rattle.std.specs.Prelude.{◌≡◌, ◌++◌, ◌∷◌, [], ◌<◌, IfOk, OnOk, map};
ghost use Rattle.kk_syntax.specs.PositionsOf.{positions_of};
ghost use Rattle.kk_syntax.specs.Programs.{ProgramTree, function_tree, program_tree};
ghost use Rattle.kk_syntax.specs.OwnedPositions.{IsLeast, Told};
ghost use Rattle.kk_borrow.specs.Rules.{rule_tree, rule_trees};
ghost use Rattle.kk_borrow.specs.Demands.{rules_in, rules_from};
ghost use Rattle.kk_borrow.specs.Standings.{ownerships, waitings, work, Follows};

use kk_base::NoMemory;
use kk_syntax::{Fun, Ownership, Positions, Program};
use owned_place::Place;
use rule::Rule;
use scope::Scope;
use standing::Standings;
use std::alloc::Global;

/// The owned positions of a program: the least set that is closed under the rules of ownership. All others are lent.
///
/// Each node is read twice at most, for rules. From there on each step takes a premise from a rule or ends the rule, so
/// there are as many steps as premises and rules: both are linear in the nodes if each binder of a function has a number
/// of its own. A variable in tail position is looked for among those in scope that hang on parameters. The recursion is
/// as deep as the program.
pub fn owned(alloc: Global, program: &Program) -> Result<Positions, NoMemory>
    ensures { IfOk result (λ positions. IsLeast (program_tree program.now) (positions_of positions)) }
{
    let mut standings = Standings::new(alloc, &program.functions)?;
    let mut rules = read_program(alloc, &program.functions)?;
    'apply: while let Some(rule) = rules.pop() {
        apply(rule, &mut standings, &mut rules)?;
    }
    standings.positions(alloc)
}

// The rules of a program.
fn read_program(alloc: Global, functions: &[Fun]) -> Result<Vec<Rule>, NoMemory>
    ensures { IfOk result (λ rules. rule_trees rules.items ≡ rules_from 0 (map function_tree functions.now)) }
{
    let mut rules = Vec::new(alloc);
    for (number, function) in functions.iter().enumerate() {
        read_function(alloc, number, function, &mut rules)?;
    }
    Ok(rules)
}

// Adds the rules of a function.
fn read_function(
    alloc: Global,
    number: usize,
    function: &Fun,
    rules: &mut Vec<Rule>,
) -> Result<(), NoMemory>
    ensures { OnOk result (rule_trees rules.new.items ≡ rule_trees rules.old.items ++ rules_in number (function_tree function.now)) }
{
    owned_place::read(alloc, number, Place::Always, &function.body, rules)?;
    let mut scope = Scope::new(alloc, function.parameters.len())?;
    tail_call::read_tails(alloc, number, &mut scope, &function.body, rules)
}

// Takes the last premise from a rule, which then waits for it unless that is owned. A rule without premises is done: its
// conclusion is owned.
fn apply(mut rule: Rule, standings: &mut Standings, rules: &mut Vec<Rule>) -> Result<(), NoMemory>
    ensures follows { OnOk result ((program : ProgramTree) → Told program (ownerships standings.old)
        → Follows program (ownerships standings.old) (waitings standings.old) (rule_trees rules.old.items ++ rule_tree rule ∷ [])
        (ownerships standings.new) (waitings standings.new) (rule_trees rules.new.items)) }
    ensures less { OnOk result (work (waitings standings.new) (rule_trees rules.new.items) < work (waitings standings.old) (rule_trees rules.old.items ++ rule_tree rule ∷ [])) }
{
    match rule.premises.pop() {
        Some(premise) => match standings.ownership(premise) {
            Some(Ownership::Owned) => {
                rules.push(rule)?;
                Ok(())
            }
            Some(Ownership::Lent) => standings.wait(premise, rule),
            None => Ok(()),
        },
        None => match standings.ownership(rule.conclusion) {
            Some(Ownership::Lent) => standings.own(rule.conclusion, rules),
            Some(Ownership::Owned) => Ok(()),
            // It is a variable that is no parameter.
            None => Ok(()),
        },
    }
}
