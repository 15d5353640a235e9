ghost use Rattle.std.specs.Prelude.{◌≡◌, [], ◌∷◌, ◌++◌, map, OnOk};
ghost use Rattle.kk_syntax.specs.Patterns.{pattern_tree, patterns_of};
ghost use Rattle.kk_syntax.specs.Trees.{expr_tree, trees_of, row_tree, rows_of, statement_tree};
ghost use Rattle.kk_syntax.specs.Shapes.{bound as bound_in, bound_all, bound_by, without, free, free_all, free_rows};
ghost use Rattle.kk_source.specs.Live.{awaited as awaited_of};
ghost use Rattle.kk_meaning.specs.Frames.{block_tree};
ghost use Rattle.kk_meaning.specs.FreeOf.{free_of_statements, bound_by_statements};

use crate::frame::Block;
use kk_base::NoMemory;
use kk_syntax::{Binder, Expr, Pat, Row, Statement};
use std::alloc::Global;

/// The free variables of expressions, as often as they occur.
#[derive(Drop)]
pub struct FreeVariables {
    pub found: Vec<u32>,
    /// The variables that are bound where the search is.
    bound: Vec<u32>,
}

impl FreeVariables {
    /// Those of no expression. Takes no memory.
    pub fn new(alloc: Global) -> Self
        ensures found { result.found.items ≡ [] }
        ensures bound { result.bound.items ≡ [] }
    {
        FreeVariables {
            found: Vec::new(alloc),
            bound: Vec::new(alloc),
        }
    }

    /// Adds those of an expression. The recursion is as deep as the expression.
    #[cycle(free)]
    pub fn of_expr(&mut self, expr: &Expr) -> Result<(), NoMemory>
        ensures bound { OnOk result (self.new.bound.items ≡ self.old.bound.items) }
        ensures found { OnOk result (self.new.found.items
            ≡ self.old.found.items ++ without self.old.bound.items (free (expr_tree expr.now))) }
    {
        match expr {
            Expr::Variable(variable) => self.of_variable(*variable),
            Expr::Apply(_, arguments) => self.of_each(arguments),
            Expr::If(condition, positive, negative) => {
                self.of_expr(condition)?;
                self.of_expr(positive)?;
                self.of_expr(negative)
            }
            Expr::Match(scrutinee, rows) => {
                self.of_expr(scrutinee)?;
                self.of_rows(rows)
            }
            Expr::Block(statements, value) => {
                let outside = self.bound.len();
                self.of_statements(statements)?;
                self.of_expr(value)?;
                self.bound.truncate(outside);
                Ok(())
            }
        }
    }

    /// Adds those of several expressions.
    #[cycle(free)]
    pub fn of_each(&mut self, exprs: &[Expr]) -> Result<(), NoMemory>
        ensures bound { OnOk result (self.new.bound.items ≡ self.old.bound.items) }
        ensures found { OnOk result (self.new.found.items
            ≡ self.old.found.items ++ without self.old.bound.items (free_all (trees_of (map expr_tree exprs.now)))) }
    {
        for expr in exprs {
            self.of_expr(expr)?;
        }
        Ok(())
    }

    /// Adds those of the rows of a match: those of each body that its pattern does not bind.
    #[cycle(free)]
    pub fn of_rows(&mut self, rows: &[Row]) -> Result<(), NoMemory>
        ensures bound { OnOk result (self.new.bound.items ≡ self.old.bound.items) }
        ensures found { OnOk result (self.new.found.items
            ≡ self.old.found.items ++ without self.old.bound.items (free_rows (rows_of (map row_tree rows.now)))) }
    {
        for row in rows {
            let outside = self.bound.len();
            bind_pattern(&mut self.bound, &row.pattern)?;
            self.of_expr(&row.body)?;
            self.bound.truncate(outside);
        }
        Ok(())
    }

    /// Adds those of what is left of a block, before which a variable, if any, is still to be bound.
    pub fn of_rest(&mut self, awaited: Option<u32>, rest: Block<'_>) -> Result<(), NoMemory>
        ensures bound { OnOk result (self.new.bound.items ≡ self.old.bound.items) }
        ensures found { OnOk result (self.new.found.items
            ≡ self.old.found.items
            ++ without (self.old.bound.items ++ awaited_of awaited) (free (block_tree rest.entry))) }
    {
        let outside = self.bound.len();
        bind_awaited(&mut self.bound, awaited)?;
        self.of_statements(rest.statements)?;
        self.of_expr(rest.value)?;
        self.bound.truncate(outside);
        Ok(())
    }

    // Adds those of statements, and binds their variables.
    #[cycle(free)]
    fn of_statements(&mut self, statements: &[Statement]) -> Result<(), NoMemory>
        ensures bound { OnOk result (self.new.bound.items
            ≡ self.old.bound.items ++ bound_by_statements (map statement_tree statements.now)) }
        ensures found { OnOk result (self.new.found.items
            ≡ self.old.found.items ++ without self.old.bound.items (free_of_statements (map statement_tree statements.now))) }
    {
        for statement in statements {
            self.of_expr(&statement.value)?;
            bind_statement(&mut self.bound, statement.binder)?;
        }
        Ok(())
    }

    // Adds a variable that is not bound.
    fn of_variable(&mut self, variable: u32) -> Result<(), NoMemory>
        ensures bound { self.new.bound.items ≡ self.old.bound.items }
        ensures found { OnOk result (self.new.found.items
            ≡ self.old.found.items ++ without self.old.bound.items (variable ∷ [])) }
    {
        if !self.bound.contains(&variable) {
            self.found.push(variable)?;
        }
        Ok(())
    }
}

// Binds a variable from here on.
fn bind(bound: &mut Vec<u32>, variable: u32) -> Result<(), NoMemory>
    ensures { OnOk result (bound.new.items ≡ bound.old.items ++ variable ∷ []) }
{
    bound.push(variable)?;
    Ok(())
}

// Binds the variable that is still to be bound, if there is one.
fn bind_awaited(bound: &mut Vec<u32>, awaited: Option<u32>) -> Result<(), NoMemory>
    ensures { OnOk result (bound.new.items ≡ bound.old.items ++ awaited_of awaited) }
{
    match awaited {
        None => Ok(()),
        Some(variable) => bind(bound, variable),
    }
}

// Binds the variable of a statement, if it has one.
fn bind_statement(bound: &mut Vec<u32>, binder: Binder) -> Result<(), NoMemory>
    ensures { OnOk result (bound.new.items ≡ bound.old.items ++ bound_by binder) }
{
    match binder {
        Binder::Nothing | Binder::Wildcard => Ok(()),
        Binder::Variable(variable) => bind(bound, variable),
    }
}

// Binds the variables of a pattern.
#[cycle(bind_pattern)]
fn bind_pattern(bound: &mut Vec<u32>, pattern: &Pat) -> Result<(), NoMemory>
    ensures { OnOk result (bound.new.items ≡ bound.old.items ++ bound_in (pattern_tree pattern.now)) }
{
    match pattern {
        Pat::Wildcard | Pat::Number(_) => Ok(()),
        Pat::Variable(variable) => bind(bound, *variable),
        Pat::Constructor(_, parts) => bind_patterns(bound, parts),
    }
}

// Binds the variables of several patterns.
#[cycle(bind_pattern)]
fn bind_patterns(bound: &mut Vec<u32>, patterns: &[Pat]) -> Result<(), NoMemory>
    ensures { OnOk result (bound.new.items ≡ bound.old.items ++ bound_all (patterns_of (map pattern_tree patterns.now))) }
{
    for pattern in patterns {
        bind_pattern(bound, pattern)?;
    }
    Ok(())
}
