ghost use Rattle.std.specs.Prelude.{◌+◌, ◌<◌, ◌^◌, map, IfOk};
ghost use Rattle.kk_syntax.specs.Patterns.{pattern_tree};
ghost use Rattle.kk_syntax.specs.GroundPrograms.{ground_program};
ghost use Rattle.kk_syntax.specs.Trees.{Tree, expr_tree, trees_of, row_tree, rows_of, statement_tree, block_of};
ghost use Rattle.kk_core.specs.Codes.{block_code, last_code, arm_code, arms_of};
ghost use Rattle.kk_core.specs.Decisions.{node_tree};
ghost use Rattle.kk_norm.specs.MatchDecisions.{AreDecisions};
ghost use Rattle.kk_norm.specs.MatchRows.{MatchesHaveRows, AllMatchesHaveRows, IsSomeRow, BodiesHaveRows};
ghost use Rattle.kk_norm.specs.Normalized.{size, size_all, size_rows, pattern_size, patterns_in};
ghost use Rattle.kk_norm.specs.Written.{WritesValue, WritesValues, WritesStatements, KeepsNames, WritesEnd, WritesChoice, WritesCase, WritesArms, WritesArm, WritesBlock};

use crate::truth::case_by_truth;
use crate::writer::Writer;
use kk_base::NoMemory;
use kk_core::{Arm, Block, Decisions, Last};
use kk_match::{Rows, decide_briefly};
use kk_syntax::{Expr, Ground, Pat, Row, Statement, copied_pattern};
use std::alloc::Global;
use std::mem;

impl Writer {
    /// Writes the steps of an expression, and gives the variable that has its value. The program gives its ground constructors.
    #[cycle(code)]
    pub fn value(&mut self, given: &Ground, expr: &Expr) -> Result<u32, NoMemory>
        requires rows { MatchesHaveRows (expr_tree expr.now) }
        requires room { self.old.next + size (expr_tree expr.now) < 2 ^ 32 }
        ensures { IfOk result (λ x. WritesValue (ground_program given.now).constructors (expr_tree expr.now) self.old self.new x) }
    {
        match expr {
            Expr::Variable(variable) => {
                let name = self.name(*variable);
                self.use_variable(name)?;
                Ok(name)
            }
            Expr::Apply(form, arguments) => {
                let arguments = self.values(given, arguments)?;
                self.compute(*form, arguments)
            }
            Expr::If(condition, positive, negative) => {
                let last = self.choice(given, false, condition, positive, negative)?;
                let steps = Vec::new(self.alloc);
                self.inside(Block { steps, last })
            }
            Expr::Match(scrutinee, rows) => {
                let last = self.case(given, false, rows, scrutinee)?;
                let steps = Vec::new(self.alloc);
                self.inside(Block { steps, last })
            }
            Expr::Block(statements, value) => {
                let bound = self.names.len();
                self.statements(given, statements)?;
                let variable = self.value(given, value)?;
                self.names.truncate(bound);
                Ok(variable)
            }
        }
    }

    /// Writes the steps of expressions from left to right, and gives the variables that have their values.
    #[cycle(code)]
    fn values(&mut self, given: &Ground, exprs: &[Expr]) -> Result<Vec<u32>, NoMemory>
        requires rows { AllMatchesHaveRows (trees_of (map expr_tree exprs.now)) }
        requires room { self.old.next + size_all (trees_of (map expr_tree exprs.now)) < 2 ^ 32 }
        ensures { IfOk result (λ xs. WritesValues (ground_program given.now).constructors (trees_of (map expr_tree exprs.now)) self.old self.new xs.items) }
    {
        let mut variables = Vec::new(self.alloc);
        for expr in exprs {
            let variable = self.value(given, expr)?;
            variables.push(variable)?;
        }
        Ok(variables)
    }

    /// Writes statements. What they bind is named.
    #[cycle(code)]
    fn statements(&mut self, given: &Ground, statements: &[Statement]) -> Result<(), NoMemory>
        requires { (last : Tree) × MatchesHaveRows (block_of (map statement_tree statements.now) last) × (self.old.next + size (block_of (map statement_tree statements.now) last) < 2 ^ 32) }
        ensures statements { IfOk result (λ _. (last : Tree) → WritesStatements (ground_program given.now).constructors (map statement_tree statements.now) last self.old self.new) }
        ensures names { IfOk result (λ _. KeepsNames self.old self.new) }
    {
        for statement in statements {
            let variable = self.value(given, &statement.value)?;
            self.bind(statement.binder, variable)?;
        }
        Ok(())
    }

    /// Writes an expression that ends a block, in tail position or not, and gives the block's end.
    #[cycle(code)]
    fn end(&mut self, given: &Ground, tail: bool, expr: &Expr) -> Result<Last, NoMemory>
        requires rows { MatchesHaveRows (expr_tree expr.now) }
        requires room { self.old.next + size (expr_tree expr.now) < 2 ^ 32 }
        ensures { IfOk result (λ last. WritesEnd (ground_program given.now).constructors tail (expr_tree expr.now) self.old self.new (last_code last)) }
    {
        match expr {
            Expr::Variable(variable) => Ok(Last::Return(self.name(*variable))),
            Expr::Apply(form, arguments) => {
                let arguments = self.values(given, arguments)?;
                self.finish(tail, *form, arguments)
            }
            Expr::If(condition, positive, negative) => {
                let last = self.choice(given, tail, condition, positive, negative)?;
                self.next += 1;
                Ok(last)
            }
            Expr::Match(scrutinee, rows) => {
                let last = self.case(given, tail, rows, scrutinee)?;
                self.next += 1;
                Ok(last)
            }
            Expr::Block(statements, value) => {
                let bound = self.names.len();
                self.statements(given, statements)?;
                let last = self.end(given, tail, value)?;
                self.names.truncate(bound);
                Ok(last)
            }
        }
    }

    /// Writes a condition, and gives the end of a block that goes on by it.
    #[cycle(code)]
    fn choice(
        &mut self,
        given: &Ground,
        tail: bool,
        condition: &Expr,
        positive: &Expr,
        negative: &Expr,
    ) -> Result<Last, NoMemory>
        requires condition { MatchesHaveRows (expr_tree condition.now) }
        requires positive { MatchesHaveRows (expr_tree positive.now) }
        requires negative { MatchesHaveRows (expr_tree negative.now) }
        requires room { self.old.next + size (expr_tree condition.now) + size (expr_tree positive.now) + size (expr_tree negative.now) < 2 ^ 32 }
        ensures { IfOk result (λ last. WritesChoice (ground_program given.now).constructors tail (expr_tree condition.now) (expr_tree positive.now) (expr_tree negative.now) self.old self.new (last_code last)) }
    {
        let on = self.value(given, condition)?;
        let positive = self.block(given, tail, positive)?;
        let negative = self.block(given, tail, negative)?;
        case_by_truth(self.alloc, on, positive, negative)
    }

    /// Writes a scrutinee, and gives the end of a block that goes on by it.
    #[cycle(code)]
    fn case(
        &mut self,
        given: &Ground,
        tail: bool,
        rows: &[Row],
        scrutinee: &Expr,
    ) -> Result<Last, NoMemory>
        requires scrutinee { MatchesHaveRows (expr_tree scrutinee.now) }
        requires some { IsSomeRow (rows_of (map row_tree rows.now)) }
        requires bodies { BodiesHaveRows (rows_of (map row_tree rows.now)) }
        requires room { self.old.next + size (expr_tree scrutinee.now) + size_rows (rows_of (map row_tree rows.now)) < 2 ^ 32 }
        ensures { IfOk result (λ last. WritesCase (ground_program given.now).constructors tail (expr_tree scrutinee.now) (rows_of (map row_tree rows.now)) self.old self.new (last_code last)) }
    {
        let on = self.value(given, scrutinee)?;
        let decisions = decisions(self.alloc, given, rows)?;
        let arms = self.arms(given, tail, on, rows)?;
        Ok(Last::Case(on, decisions, arms))
    }

    /// Writes an arm for each row of a match, also for a row that is never chosen.
    #[cycle(code)]
    fn arms(
        &mut self,
        given: &Ground,
        tail: bool,
        on: u32,
        rows: &[Row],
    ) -> Result<Vec<Arm>, NoMemory>
        requires bodies { BodiesHaveRows (rows_of (map row_tree rows.now)) }
        requires room { self.old.next + size_rows (rows_of (map row_tree rows.now)) < 2 ^ 32 }
        ensures { IfOk result (λ arms. WritesArms (ground_program given.now).constructors tail (rows_of (map row_tree rows.now)) on self.old self.new (arms_of (map arm_code arms.items))) }
    {
        let mut arms = Vec::new(self.alloc);
        for row in rows {
            let pattern = copied_pattern(self.alloc, &row.pattern)?;
            let body = self.arm(given, tail, on, &row.pattern, &row.body)?;
            arms.push(Arm { pattern, body })?;
        }
        Ok(arms)
    }

    /// Writes the arm of a row as a block of its own: it opens what the pattern names, and goes on as the body.
    #[cycle(code)]
    fn arm(
        &mut self,
        given: &Ground,
        tail: bool,
        on: u32,
        pattern: &Pat,
        body: &Expr,
    ) -> Result<Block, NoMemory>
        requires rows { MatchesHaveRows (expr_tree body.now) }
        requires room { self.old.next + pattern_size (pattern_tree pattern.now) + size (expr_tree body.now) < 2 ^ 32 }
        ensures { IfOk result (λ block. WritesArm (ground_program given.now).constructors tail (pattern_tree pattern.now) (expr_tree body.now) on self.old self.new (block_code block)) }
    {
        let outer = mem::replace(&mut self.steps, Vec::new(self.alloc));
        let bound = self.names.len();
        self.open(on, pattern)?;
        let last = self.end(given, tail, body)?;
        self.names.truncate(bound);
        let steps = mem::replace(&mut self.steps, outer);
        Ok(Block { steps, last })
    }

    /// Writes an expression as a block of its own, in tail position or not.
    #[cycle(code)]
    pub fn block(&mut self, given: &Ground, tail: bool, expr: &Expr) -> Result<Block, NoMemory>
        requires rows { MatchesHaveRows (expr_tree expr.now) }
        requires room { self.old.next + size (expr_tree expr.now) < 2 ^ 32 }
        ensures { IfOk result (λ block. WritesBlock (ground_program given.now).constructors tail (expr_tree expr.now) self.old self.new (block_code block)) }
    {
        let outer = mem::replace(&mut self.steps, Vec::new(self.alloc));
        let last = self.end(given, tail, expr)?;
        let steps = mem::replace(&mut self.steps, outer);
        Ok(Block { steps, last })
    }
}

// What decides among the rows of a match.
fn decisions(alloc: Global, given: &Ground, rows: &[Row]) -> Result<Decisions, NoMemory>
    requires { IsSomeRow (rows_of (map row_tree rows.now)) }
    ensures { IfOk result (λ decisions. AreDecisions (ground_program given.now).constructors (patterns_in (rows_of (map row_tree rows.now))) (map node_tree decisions.nodes.items)) }
{
    let mut patterns = Vec::new(alloc);
    for row in rows {
        patterns.push(&row.pattern)?;
    }
    decide_briefly(
        alloc,
        &Rows {
            constructors: &given.constructors,
            patterns,
        },
    )
}
