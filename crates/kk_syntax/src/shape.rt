ghost use Rattle.std.specs.Prelude.{◌≡◌, ◌-◌, ◌^◌, min, map};
ghost use Rattle.kk_syntax.specs.Patterns.{pattern_tree, patterns_of};
ghost use Rattle.kk_syntax.specs.Trees.{expr_tree, trees_of, row_tree, rows_of, statement_tree};
ghost use Rattle.kk_syntax.specs.Shapes.{nodes_of, nodes_of_all, nodes_of_rows, nodes_of_statements, nodes_of_binder, nodes_of_pattern, nodes_of_patterns, variable_of};

use crate::program::{Binder, Expr, Pat, Row, Statement};

impl Binder {
    /// The variable that is bound, if any.
    pub fn variable(self) -> Option<u32>
        ensures { result ≡ variable_of self }
    {
        match self {
            Binder::Nothing | Binder::Wildcard => None,
            Binder::Variable(variable) => Some(variable),
        }
    }
}

/// The nodes of an expression: 1 for a variable; 1 plus its parts for a form with its arguments, an `if`, a match (its
/// scrutinee, its patterns and its bodies) and a `val`. A block counts its parts alone. Stays at a `u64`'s last value
/// where there are more.
///
/// The recursion is as deep as the expression.
#[cycle(nodes)]
pub fn nodes(expr: &Expr) -> u64
    ensures { result ≡ min (nodes_of (expr_tree expr.now)) (2 ^ 64 - 1) }
{
    match expr {
        Expr::Variable(_) => 1,
        Expr::Apply(_, arguments) => nodes_of_each(arguments).saturating_add(1),
        Expr::If(condition, positive, negative) => nodes(condition)
            .saturating_add(nodes(positive))
            .saturating_add(nodes(negative))
            .saturating_add(1),
        Expr::Match(scrutinee, rows) => nodes(scrutinee)
            .saturating_add(nodes_of_each_row(rows))
            .saturating_add(1),
        Expr::Block(statements, value) => {
            nodes_of_each_statement(statements).saturating_add(nodes(value))
        }
    }
}

// The nodes of several expressions, summed.
#[cycle(nodes)]
fn nodes_of_each(exprs: &[Expr]) -> u64
    ensures { result ≡ min (nodes_of_all (trees_of (map expr_tree exprs.now))) (2 ^ 64 - 1) }
{
    let mut sum: u64 = 0;
    for expr in exprs {
        sum = sum.saturating_add(nodes(expr));
    }
    sum
}

// The nodes of the rows of a match, summed.
#[cycle(nodes)]
fn nodes_of_each_row(rows: &[Row]) -> u64
    ensures { result ≡ min (nodes_of_rows (rows_of (map row_tree rows.now))) (2 ^ 64 - 1) }
{
    let mut sum: u64 = 0;
    for row in rows {
        sum = sum
            .saturating_add(pattern_nodes(&row.pattern))
            .saturating_add(nodes(&row.body));
    }
    sum
}

// The nodes of statements, summed: a `val` is one.
#[cycle(nodes)]
fn nodes_of_each_statement(statements: &[Statement]) -> u64
    ensures { result ≡ min (nodes_of_statements (map statement_tree statements.now)) (2 ^ 64 - 1) }
{
    let mut sum: u64 = 0;
    for statement in statements {
        sum = sum
            .saturating_add(binder_nodes(statement.binder))
            .saturating_add(nodes(&statement.value));
    }
    sum
}

fn binder_nodes(binder: Binder) -> u64
    ensures { result ≡ nodes_of_binder binder }
{
    match binder {
        Binder::Nothing => 0,
        Binder::Wildcard | Binder::Variable(_) => 1,
    }
}

// The nodes of a pattern: 1, and those of its parts.
#[cycle(pattern_nodes)]
fn pattern_nodes(pattern: &Pat) -> u64
    ensures { result ≡ min (nodes_of_pattern (pattern_tree pattern.now)) (2 ^ 64 - 1) }
{
    match pattern {
        Pat::Wildcard | Pat::Variable(_) | Pat::Number(_) => 1,
        Pat::Constructor(_, parts) => nodes_of_each_pattern(parts).saturating_add(1),
    }
}

// The nodes of several patterns, summed.
#[cycle(pattern_nodes)]
fn nodes_of_each_pattern(patterns: &[Pat]) -> u64
    ensures { result ≡ min (nodes_of_patterns (patterns_of (map pattern_tree patterns.now))) (2 ^ 64 - 1) }
{
    let mut sum: u64 = 0;
    for pattern in patterns {
        sum = sum.saturating_add(pattern_nodes(pattern));
    }
    sum
}
