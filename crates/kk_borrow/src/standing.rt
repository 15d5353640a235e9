ghost use Rattle.std.specs.Prelude.{◌≡◌, ◌++◌, ◌∷◌, [], true, IfOk, OnOk, map, replicate};
ghost use Rattle.kk_syntax.specs.PositionsOf.{is_lent, positions_of};
ghost use Rattle.kk_syntax.specs.Programs.{function_tree};
ghost use Rattle.kk_borrow.specs.Rules.{rule_tree, rule_trees};
ghost use Rattle.kk_syntax.specs.OwnedSearch.{each_lent, with_owned};
ghost use Rattle.kk_borrow.specs.Standings.{ownership_of, waiting_of, ownerships, waitings, told_at, waiting_at, none_waiting, with_waiting};

use crate::rule::Rule;
use kk_base::NoMemory;
use kk_syntax::{Fun, Ownership, Position, Positions};
use std::alloc::Global;
use std::mem;

/// How a position stands so far.
#[derive(Drop)]
pub enum Standing {
    Owned,
    /// It is lent, and these rules wait for it to be owned.
    Lent(Vec<Rule>),
}

/// How each position of a program stands so far.
#[derive(Drop)]
pub struct Standings {
    /// By the function's number, and the parameter's.
    pub rows: Vec<Vec<Standing>>,
}

impl Standing {
    fn ownership(&self) -> Ownership
        ensures { result ≡ ownership_of self.now }
    {
        match self {
            Standing::Owned => Ownership::Owned,
            Standing::Lent(_) => Ownership::Lent,
        }
    }
}

impl Standings {
    /// Each parameter is lent, and no rule waits.
    pub fn new(alloc: Global, functions: &[Fun]) -> Result<Standings, NoMemory>
        ensures ownerships { IfOk result (λ standings. ownerships standings ≡ each_lent (map function_tree functions.now)) }
        ensures waitings { IfOk result (λ standings. waitings standings ≡ none_waiting (map function_tree functions.now)) }
    {
        let mut rows = Vec::new(alloc);
        for function in functions {
            rows.push(lent_row(alloc, function.parameters.len())?)?;
        }
        Ok(Standings { rows })
    }

    /// How a position is passed, if the program has it.
    pub fn ownership(&self, position: Position) -> Option<Ownership>
        ensures { result ≡ told_at (ownerships self.now) position }
    {
        let row = self.rows.get(position.function)?;
        let standing = row.get(position.parameter)?;
        Some(standing.ownership())
    }

    /// A rule waits for a position to be owned.
    pub fn wait(&mut self, position: Position, rule: Rule) -> Result<(), NoMemory>
        requires { is_lent (ownerships self.old) position.function position.parameter ≡ true }
        ensures ownerships { OnOk result (ownerships self.new ≡ ownerships self.old) }
        ensures waitings { OnOk result (waitings self.new ≡ with_waiting (waitings self.old) position (waiting_at (waitings self.old) position.function position.parameter ++ rule_tree rule ∷ [])) }
    {
        if let Standing::Lent(waiting) = &mut self.rows[position.function][position.parameter] {
            waiting.push(rule)?;
        }
        Ok(())
    }

    /// Makes a lent position owned. The rules that waited for it are added to others.
    pub fn own(&mut self, position: Position, rules: &mut Vec<Rule>) -> Result<(), NoMemory>
        requires { is_lent (ownerships self.old) position.function position.parameter ≡ true }
        ensures ownerships { OnOk result (ownerships self.new ≡ with_owned (ownerships self.old) position) }
        ensures waitings { OnOk result (waitings self.new ≡ with_waiting (waitings self.old) position []) }
        ensures rules { OnOk result (rule_trees rules.new.items ≡ rule_trees rules.old.items ++ waiting_at (waitings self.old) position.function position.parameter) }
    {
        let standing = &mut self.rows[position.function][position.parameter];
        if let Standing::Lent(mut waiting) = mem::replace(standing, Standing::Owned) {
            rules.append(&mut waiting)?;
        }
        Ok(())
    }

    /// How each position is passed.
    pub fn positions(&self, alloc: Global) -> Result<Positions, NoMemory>
        ensures { IfOk result (λ positions. positions_of positions ≡ ownerships self.now) }
    {
        let mut functions = Vec::new(alloc);
        for row in &self.rows {
            functions.push(ownership_row(alloc, row)?)?;
        }
        Ok(Positions { functions })
    }
}

// So many positions that are lent.
fn lent_row(alloc: Global, count: usize) -> Result<Vec<Standing>, NoMemory>
    ensures ownerships { IfOk result (λ row. map ownership_of row.items ≡ replicate count Ownership.Lent) }
    ensures waitings { IfOk result (λ row. map waiting_of row.items ≡ replicate count []) }
{
    let mut row = Vec::new(alloc);
    for _ in 0..count {
        row.push(Standing::Lent(Vec::new(alloc)))?;
    }
    Ok(row)
}

// How each position of a function is passed.
fn ownership_row(alloc: Global, row: &[Standing]) -> Result<Vec<Ownership>, NoMemory>
    ensures { IfOk result (λ parameters. parameters.items ≡ map ownership_of row.now) }
{
    let mut parameters = Vec::new(alloc);
    for standing in row {
        parameters.push(standing.ownership())?;
    }
    Ok(parameters)
}
