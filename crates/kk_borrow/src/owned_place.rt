ghost use Rattle.std.specs.Prelude.{◌≡◌, ◌++◌, map, IfOk, OnOk};
ghost use Rattle.kk_syntax.specs.Patterns.{pattern_tree};
ghost use Rattle.kk_syntax.specs.Trees.{expr_tree, trees_of, row_tree, rows_of, statement_tree};
ghost use Rattle.kk_syntax.specs.OwnedPositions.{is_val, opens, makes, builds, builds_any, builds_rows, reuses};
ghost use Rattle.kk_syntax.specs.OwnedSearch.{builds_statements};
ghost use Rattle.kk_borrow.specs.Statements.{placed_statements, place_behind};
ghost use Rattle.kk_borrow.specs.Rules.{rule_trees};
ghost use Rattle.kk_borrow.specs.Demands.{place_in, place_if, at_place, placed, placed_all, placed_rows};

use crate::rule::Rule;
use kk_base::NoMemory;
use kk_syntax::{Binder, Expr, Form, Pat, Position, Row, Statement};
use std::alloc::Global;

/// When what stands at a place is owned.
#[derive(Clone, Copy)]
pub enum Place {
    Never,
    Always,
    /// As long as this position is owned.
    With(Position),
}

/// What the rows of a match build.
#[derive(Clone, Copy)]
struct Built {
    /// Whether a row holds a construction with fields.
    any: bool,
    /// Whether such a row opens what it matches.
    opened: bool,
}

/// Adds the rules for the variables of an expression, which stands at a place itself. Tells whether the expression holds
/// a construction with fields, at any depth.
///
/// Each node is read once. The recursion is as deep as the expression.
#[cycle(read)]
pub fn read(
    alloc: Global,
    function: usize,
    place: Place,
    expr: &Expr,
    rules: &mut Vec<Rule>,
) -> Result<bool, NoMemory>
    ensures rules { OnOk result (rule_trees rules.new.items ≡ rule_trees rules.old.items ++ placed function place (expr_tree expr.now)) }
    ensures builds { IfOk result (λ built. built ≡ builds (expr_tree expr.now)) }
{
    match expr {
        Expr::Variable(of) => {
            read_variable(alloc, function, place, *of as usize, rules)?;
            Ok(false)
        }
        Expr::Apply(form, arguments) => {
            let within = read_arguments(alloc, function, *form, arguments, rules)?;
            Ok(makes(*form, arguments) | within)
        }
        Expr::If(condition, positive, negative) => {
            let first = read(alloc, function, Place::Never, condition, rules)?;
            let second = read(alloc, function, Place::Always, positive, rules)?;
            let third = read(alloc, function, Place::Always, negative, rules)?;
            Ok(first | second | third)
        }
        Expr::Match(scrutinee, rows) => {
            let built = read_rows(alloc, function, rows, rules)?;
            let first = read(alloc, function, place_if(built.opened), scrutinee, rules)?;
            Ok(first | built.any)
        }
        Expr::Block(statements, value) => {
            let first = read_statements(alloc, function, statements, rules)?;
            let last = read(
                alloc,
                function,
                place_behind(statements, place),
                value,
                rules,
            )?;
            Ok(first | last)
        }
    }
}

#[cycle(read)]
fn read_arguments(
    alloc: Global,
    function: usize,
    form: Form,
    arguments: &[Expr],
    rules: &mut Vec<Rule>,
) -> Result<bool, NoMemory>
    ensures rules { OnOk result (rule_trees rules.new.items ≡ rule_trees rules.old.items ++ placed_all function form 0 (trees_of (map expr_tree arguments.now))) }
    ensures builds { IfOk result (λ built. built ≡ builds_any (trees_of (map expr_tree arguments.now))) }
{
    let mut any = false;
    for (index, argument) in arguments.iter().enumerate() {
        let built = read(alloc, function, place_in(form, index), argument, rules)?;
        any |= built;
    }
    Ok(any)
}

#[cycle(read)]
fn read_rows(
    alloc: Global,
    function: usize,
    rows: &[Row],
    rules: &mut Vec<Rule>,
) -> Result<Built, NoMemory>
    ensures rules { OnOk result (rule_trees rules.new.items ≡ rule_trees rules.old.items ++ placed_rows function (rows_of (map row_tree rows.now))) }
    ensures builds { IfOk result (λ built. built.any ≡ builds_rows (rows_of (map row_tree rows.now))) }
    ensures reuses { IfOk result (λ built. built.opened ≡ reuses (rows_of (map row_tree rows.now))) }
{
    let mut any = false;
    let mut opened = false;
    for row in rows {
        let built = read(alloc, function, Place::Always, &row.body, rules)?;
        any |= built;
        opened |= opens(&row.pattern) & built;
    }
    Ok(Built { any, opened })
}

#[cycle(read)]
fn read_statements(
    alloc: Global,
    function: usize,
    statements: &[Statement],
    rules: &mut Vec<Rule>,
) -> Result<bool, NoMemory>
    ensures rules { OnOk result (rule_trees rules.new.items ≡ rule_trees rules.old.items ++ placed_statements function (map statement_tree statements.now)) }
    ensures builds { IfOk result (λ built. built ≡ builds_statements (map statement_tree statements.now)) }
{
    let mut any = false;
    for statement in statements {
        let place = place_if(is_val(statement.binder));
        let built = read(alloc, function, place, &statement.value, rules)?;
        any |= built;
    }
    Ok(any)
}

// Adds the rule for a variable that stands at a place.
fn read_variable(
    alloc: Global,
    function: usize,
    place: Place,
    variable: usize,
    rules: &mut Vec<Rule>,
) -> Result<(), NoMemory>
    ensures { OnOk result (rule_trees rules.new.items ≡ rule_trees rules.old.items ++ at_place function place variable) }
{
    let premises = match place {
        Place::Never => return Ok(()),
        Place::Always => Vec::new(alloc),
        Place::With(position) => vec![in alloc; position]?,
    };
    let conclusion = Position {
        function,
        parameter: variable,
    };
    rules.push(Rule {
        premises,
        conclusion,
    })?;
    Ok(())
}

// When the argument of a form at an index stands at an owned place.
fn place_in(form: Form, index: usize) -> Place
    ensures { result ≡ place_in form index }
{
    match form {
        Form::Construct(_) => Place::Always,
        Form::Call(function) => Place::With(Position {
            function: function as usize,
            parameter: index,
        }),
        _ => Place::Never,
    }
}

fn place_if(owned: bool) -> Place
    ensures { result ≡ place_if owned }
{
    if owned { Place::Always } else { Place::Never }
}

// The place of a block's value, where the block stands at a place.
fn place_behind(statements: &[Statement], place: Place) -> Place
    ensures { result ≡ place_behind (map statement_tree statements.now) place }
{
    if statements.is_empty() {
        place
    } else {
        Place::Always
    }
}

fn is_val(binder: Binder) -> bool
    ensures { result ≡ is_val binder }
{
    match binder {
        Binder::Nothing => false,
        Binder::Wildcard | Binder::Variable(_) => true,
    }
}

// Whether a pattern has a constructor with fields.
fn opens(pattern: &Pat) -> bool
    ensures { result ≡ opens (pattern_tree pattern.now) }
{
    match pattern {
        Pat::Wildcard | Pat::Variable(_) | Pat::Number(_) => false,
        Pat::Constructor(_, parts) => !parts.is_empty(),
    }
}

// Whether a form with its arguments is a construction with fields.
fn makes(form: Form, arguments: &[Expr]) -> bool
    ensures { result ≡ makes form (trees_of (map expr_tree arguments.now)) }
{
    match form {
        Form::Construct(_) => !arguments.is_empty(),
        _ => false,
    }
}
