ghost use Rattle.std.specs.Prelude.{◌<◌, map};
ghost use Rattle.kk_syntax.specs.Programs.{program_tree};
ghost use Rattle.kk_syntax.specs.Trees.{expr_tree, statement_tree, trees_of};
ghost use Rattle.kk_walk.specs.Walks.{AreBelow, AreBoundBelow};

use crate::walk::Walk;
use kk_base::NoMemory;
use kk_syntax::{Expr, Program, Statement};

impl Walk {
    ghost use Rattle.kk_walk.specs.Claims.{expression_at, expressions_at};
    ghost use Rattle.kk_walk.specs.Steps.{size_of, Walked, WalkedInto};

    /// Walks over an expression, and asks that it is of the type of a node. The recursion is as deep as the expression.
    #[cycle(walk)]
    pub fn expression(
        &mut self,
        program: &Program,
        expr: &Expr,
        want: u32,
    ) -> Result<bool, NoMemory>
        requires scope { AreBoundBelow (size_of self.old) self.old.scope.items }
        requires want { want < size_of self.old }
        ensures { Walked self.old self.new
            (expression_at (program_tree program.now) self.old.scope.items (expr_tree expr.now) want) result }
    {
        match expr {
            Expr::Match(scrutinee, rows) => {
                let node = self.take()?;
                let ok = self.expression(program, scrutinee, node)?;
                if !ok {
                    return Ok(false);
                }
                self.rows(program, rows, node, want)
            }
            Expr::Variable(variable) => self.variable(*variable, want),
            Expr::Apply(form, arguments) => {
                let instance = match self.form(program, *form)? {
                    Some(instance) => instance,
                    None => return Ok(false),
                };
                let ok = self.same(want, instance.result)?;
                if !ok {
                    return Ok(false);
                }
                self.arguments(program, arguments, &instance.parameters)
            }
            Expr::If(condition, positive, negative) => {
                let truth = self.truth()?;
                let ok = self.expression(program, condition, truth)?;
                if !ok {
                    return Ok(false);
                }
                let ok = self.expression(program, positive, want)?;
                if !ok {
                    return Ok(false);
                }
                self.expression(program, negative, want)
            }
            Expr::Block(statements, value) => {
                let outer = self.scope.len();
                let ok = self.statements(program, statements)?;
                if !ok {
                    return Ok(false);
                }
                let ok = self.expression(program, value, want)?;
                self.scope.truncate(outer);
                Ok(ok)
            }
        }
    }

    #[cycle(walk)]
    fn arguments(
        &mut self,
        program: &Program,
        arguments: &[Expr],
        wants: &[u32],
    ) -> Result<bool, NoMemory>
        requires scope { AreBoundBelow (size_of self.old) self.old.scope.items }
        requires wants { AreBelow (size_of self.old) wants.now }
        ensures { Walked self.old self.new
            (expressions_at (program_tree program.now) self.old.scope.items (trees_of (map expr_tree arguments.now)) wants.now)
            result }
    {
        if arguments.len() != wants.len() {
            return Ok(false);
        }
        for (index, argument) in arguments.iter().enumerate() {
            let ok = self.expression(program, argument, wants[index])?;
            if !ok {
                return Ok(false);
            }
        }
        Ok(true)
    }

    // Walks over statements, and leaves their variables in the scope.
    #[cycle(walk)]
    fn statements(&mut self, program: &Program, statements: &[Statement]) -> Result<bool, NoMemory>
        requires { AreBoundBelow (size_of self.old) self.old.scope.items }
        ensures { WalkedInto (program_tree program.now) self.old self.new (map statement_tree statements.now) result }
    {
        for statement in statements {
            let node = self.take()?;
            let ok = self.expression(program, &statement.value, node)?;
            if !ok {
                return Ok(false);
            }
            self.enter(statement.binder, node)?;
        }
        Ok(true)
    }
}
