ghost use Rattle.std.specs.Prelude.{◌≡◌, ◌++◌, map, IfOk, OnOk};
ghost use Rattle.kk_syntax.specs.Trees.{expr_tree, trees_of, row_tree, rows_of};
ghost use Rattle.kk_borrow.specs.Rules.{rule_trees};
ghost use Rattle.kk_borrow.specs.Demands.{position, origins_in, passed, passed_by, tail_rules, tail_rules_in};

use crate::rule::Rule;
use crate::scope::{Scope, bind};
use kk_base::NoMemory;
use kk_syntax::{Expr, Form, Position, Row};
use std::alloc::Global;

/// Adds the rules for what the tail calls of an expression are given. The scope stays as it was.
///
/// Each node is read once at most. The recursion is as deep as the expression.
#[cycle(tails)]
pub fn read_tails(
    alloc: Global,
    function: usize,
    scope: &mut Scope,
    expr: &Expr,
    rules: &mut Vec<Rule>,
) -> Result<(), NoMemory>
    ensures rules { OnOk result (rule_trees rules.new.items ≡ rule_trees rules.old.items ++ tail_rules function scope.old.bindings.items (expr_tree expr.now)) }
    ensures scope { OnOk result (scope.new.bindings.items ≡ scope.old.bindings.items) }
{
    match expr {
        Expr::Variable(_) => Ok(()),
        Expr::Apply(form, arguments) => read_form(alloc, function, scope, *form, arguments, rules),
        Expr::If(_, positive, negative) => {
            read_tails(alloc, function, scope, positive, rules)?;
            read_tails(alloc, function, scope, negative, rules)
        }
        Expr::Match(scrutinee, rows) => {
            let origins = origins_in(alloc, scope, scrutinee)?;
            read_rows(alloc, function, scope, &origins, rows, rules)
        }
        Expr::Block(_, value) => read_tails(alloc, function, scope, value, rules),
    }
}

// The same for the rows of a match, whose scrutinee hangs on some parameters.
#[cycle(tails)]
fn read_rows(
    alloc: Global,
    function: usize,
    scope: &mut Scope,
    origins: &[usize],
    rows: &[Row],
    rules: &mut Vec<Rule>,
) -> Result<(), NoMemory>
    ensures rules { OnOk result (rule_trees rules.new.items ≡ rule_trees rules.old.items ++ tail_rules_in function scope.old.bindings.items origins.now (rows_of (map row_tree rows.now))) }
    ensures scope { OnOk result (scope.new.bindings.items ≡ scope.old.bindings.items) }
{
    for row in rows {
        let outer = scope.count();
        bind(scope, &row.pattern, origins)?;
        read_tails(alloc, function, scope, &row.body, rules)?;
        scope.leave(outer);
    }
    Ok(())
}

// The same for a form, which stands in tail position.
fn read_form(
    alloc: Global,
    function: usize,
    scope: &Scope,
    form: Form,
    arguments: &[Expr],
    rules: &mut Vec<Rule>,
) -> Result<(), NoMemory>
    ensures { OnOk result (rule_trees rules.new.items ≡ rule_trees rules.old.items ++ passed_by function scope.now.bindings.items form (trees_of (map expr_tree arguments.now))) }
{
    match form {
        Form::Call(callee) => read_call(alloc, function, scope, callee as usize, arguments, rules),
        _ => Ok(()),
    }
}

// The same for a call.
fn read_call(
    alloc: Global,
    function: usize,
    scope: &Scope,
    callee: usize,
    arguments: &[Expr],
    rules: &mut Vec<Rule>,
) -> Result<(), NoMemory>
    ensures { OnOk result (rule_trees rules.new.items ≡ rule_trees rules.old.items ++ passed function scope.now.bindings.items callee 0 (trees_of (map expr_tree arguments.now))) }
{
    for (parameter, argument) in arguments.iter().enumerate() {
        let origins = origins_in(alloc, scope, argument)?;
        let premises = positions(alloc, function, &origins)?;
        let conclusion = Position {
            function: callee,
            parameter,
        };
        rules.push(Rule {
            premises,
            conclusion,
        })?;
    }
    Ok(())
}

// Parameters of a function, as positions.
fn positions(
    alloc: Global,
    function: usize,
    parameters: &[usize],
) -> Result<Vec<Position>, NoMemory>
    ensures { IfOk result (λ found. found.items ≡ map (position function) parameters.now) }
{
    let mut found = Vec::new(alloc);
    for parameter in parameters {
        found.push(Position {
            function,
            parameter: *parameter,
        })?;
    }
    Ok(found)
}

// The parameters on which an expression hangs. A block without statements is its value.
fn origins_in(alloc: Global, scope: &Scope, expr: &Expr) -> Result<Vec<usize>, NoMemory>
    ensures { IfOk result (λ origins. origins.items ≡ origins_in scope.now.bindings.items (expr_tree expr.now)) }
{
    match expr {
        Expr::Variable(of) => scope.origins(alloc, *of as usize),
        Expr::Block(statements, value) => {
            if statements.is_empty() {
                origins_in(alloc, scope, value)
            } else {
                Ok(Vec::new(alloc))
            }
        }
        _ => Ok(Vec::new(alloc)),
    }
}
