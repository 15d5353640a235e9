ghost use Rattle.std.specs.Prelude.{◌≡◌, map, IfOk, OnOk, drop, slice_index_or};
ghost use Rattle.kk_syntax.specs.Trees.{expr_tree, row_tree, statement_tree};
ghost use Rattle.kk_mono.specs.Labels.{left_in, behind, names, labelled, names_of_each, labelled_each, row_names, labelled_row};
ghost use Rattle.kk_mono.specs.Labels.{statement_names, labelled_statement, labelled_form, names_of_form, only_constructor};
ghost use Rattle.kk_mono.specs.Labels.{names_of_pattern, labelled_pattern};
ghost use Rattle.kk_syntax.specs.Patterns.{pattern_tree};

use kk_base::NoMemory;
use kk_syntax::{Expr, Form, Pat, Row, Statement};
use std::alloc::Global;

/// A copy of an expression whose calls name the instances that they call, and whose constructions and patterns name ground
/// constructors. The recursion is as deep as the expression.
#[cycle(labelled)]
pub fn labelled(alloc: Global, labels: &mut Labels, expr: &Expr) -> Result<Expr, NoMemory>
    ensures tree { IfOk result (λ copy. expr_tree copy ≡ labelled (left_in labels.old) (expr_tree expr.now)) }
    ensures rest { OnOk result (left_in labels.new ≡ behind (left_in labels.old) (names (expr_tree expr.now))) }
{
    match expr {
        Expr::Variable(of) => Ok(Expr::Variable(*of)),
        Expr::Apply(form, arguments) => {
            let form = labels.form(*form);
            let arguments = labelled_each(alloc, labels, arguments)?;
            Ok(Expr::Apply(form, arguments))
        }
        Expr::If(condition, positive, negative) => {
            let condition = labelled_part(alloc, labels, condition)?;
            let positive = labelled_part(alloc, labels, positive)?;
            let negative = labelled_part(alloc, labels, negative)?;
            Ok(Expr::If(condition, positive, negative))
        }
        Expr::Match(scrutinee, rows) => {
            let scrutinee = labelled_part(alloc, labels, scrutinee)?;
            let rows = labelled_rows(alloc, labels, rows)?;
            Ok(Expr::Match(scrutinee, rows))
        }
        Expr::Block(statements, value) => {
            let statements = labelled_statements(alloc, labels, statements)?;
            let value = labelled_part(alloc, labels, value)?;
            Ok(Expr::Block(statements, value))
        }
    }
}

#[cycle(labelled)]
fn labelled_part(alloc: Global, labels: &mut Labels, part: &Expr) -> Result<Box<Expr>, NoMemory>
    ensures tree { IfOk result (λ copy. expr_tree copy.value ≡ labelled (left_in labels.old) (expr_tree part.now)) }
    ensures rest { OnOk result (left_in labels.new ≡ behind (left_in labels.old) (names (expr_tree part.now))) }
{
    Ok(Box::new(alloc, labelled(alloc, labels, part)?)?)
}

#[cycle(labelled)]
fn labelled_each(alloc: Global, labels: &mut Labels, exprs: &[Expr]) -> Result<Vec<Expr>, NoMemory>
    ensures trees { IfOk result (λ copies. map expr_tree copies.items
        ≡ labelled_each names labelled (left_in labels.old) (map expr_tree exprs.now)) }
    ensures rest { OnOk result (left_in labels.new ≡ behind (left_in labels.old) (names_of_each names (map expr_tree exprs.now))) }
{
    let mut copies = Vec::new(alloc);
    for expr in exprs {
        copies.push(labelled(alloc, labels, expr)?)?;
    }
    Ok(copies)
}

#[cycle(labelled)]
fn labelled_rows(alloc: Global, labels: &mut Labels, rows: &[Row]) -> Result<Vec<Row>, NoMemory>
    ensures trees { IfOk result (λ copies. map row_tree copies.items
        ≡ labelled_each row_names labelled_row (left_in labels.old) (map row_tree rows.now)) }
    ensures rest { OnOk result (left_in labels.new ≡ behind (left_in labels.old) (names_of_each row_names (map row_tree rows.now))) }
{
    let mut copies = Vec::new(alloc);
    for row in rows {
        let pattern = labelled_pattern(alloc, labels, &row.pattern)?;
        let body = labelled(alloc, labels, &row.body)?;
        copies.push(Row { pattern, body })?;
    }
    Ok(copies)
}

#[cycle(labelled)]
fn labelled_statements(
    alloc: Global,
    labels: &mut Labels,
    statements: &[Statement],
) -> Result<Vec<Statement>, NoMemory>
    ensures trees { IfOk result (λ copies. map statement_tree copies.items
        ≡ labelled_each statement_names labelled_statement (left_in labels.old) (map statement_tree statements.now)) }
    ensures rest { OnOk result (left_in labels.new
        ≡ behind (left_in labels.old) (names_of_each statement_names (map statement_tree statements.now))) }
{
    let mut copies = Vec::new(alloc);
    for statement in statements {
        copies.push(Statement {
            binder: statement.binder,
            value: labelled(alloc, labels, &statement.value)?,
        })?;
    }
    Ok(copies)
}

/// Numbers of instances, which stand for the functions that a body calls, and of ground constructors, which stand for the
/// constructors that it builds and matches with, each in the order of the text.
#[derive(Drop)]
pub struct Labels {
    functions: Vec<u32>,
    constructors: Vec<u32>,
    /// How many of them have been used.
    next_function: usize,
    next_constructor: usize,
}

impl Labels {
    /// None has been used.
    pub fn new(functions: Vec<u32>, constructors: Vec<u32>) -> Labels
        ensures { left_in result ≡ record { functions = functions.items; constructors = constructors.items } }
    {
        Labels {
            functions,
            constructors,
            next_function: 0,
            next_constructor: 0,
        }
    }

    /// The next label for a function; this function where none is left.
    fn function(&mut self, function: u32) -> u32
        ensures value { result ≡ slice_index_or (left_in self.old).functions 0 function }
        ensures rest { (left_in self.new).functions ≡ drop 1 (left_in self.old).functions }
        ensures others { (left_in self.new).constructors ≡ (left_in self.old).constructors }
    {
        match self.functions.get(self.next_function) {
            Some(label) => {
                self.next_function += 1;
                *label
            }
            None => function,
        }
    }

    /// The next label for a constructor; this constructor where none is left.
    pub fn constructor(&mut self, constructor: u32) -> u32
        ensures value { result ≡ slice_index_or (left_in self.old).constructors 0 constructor }
        ensures rest { left_in self.new ≡ behind (left_in self.old) (only_constructor constructor) }
    {
        match self.constructors.get(self.next_constructor) {
            Some(label) => {
                self.next_constructor += 1;
                *label
            }
            None => constructor,
        }
    }

    /// A form, where a call and a construction take the next label.
    pub fn form(&mut self, form: Form) -> Form
        ensures value { result ≡ labelled_form (left_in self.old) form }
        ensures rest { left_in self.new ≡ behind (left_in self.old) (names_of_form form) }
    {
        match form {
            Form::Call(function) => Form::Call(self.function(function)),
            Form::Construct(constructor) => Form::Construct(self.constructor(constructor)),
            Form::Number(_)
            | Form::Unit
            | Form::ReadByte
            | Form::PrintText(_, _)
            | Form::Unary(_)
            | Form::Binary(_)
            | Form::Print(_) => form,
        }
    }
}

/// A copy of a pattern whose constructors are ground ones. The recursion is as deep as the pattern.
#[cycle(labelled_pattern)]
pub fn labelled_pattern(alloc: Global, labels: &mut Labels, pattern: &Pat) -> Result<Pat, NoMemory>
    ensures tree { IfOk result (λ copy. pattern_tree copy ≡ labelled_pattern (left_in labels.old) (pattern_tree pattern.now)) }
    ensures rest { OnOk result (left_in labels.new ≡ behind (left_in labels.old) (names_of_pattern (pattern_tree pattern.now))) }
{
    match pattern {
        Pat::Wildcard => Ok(Pat::Wildcard),
        Pat::Variable(of) => Ok(Pat::Variable(*of)),
        Pat::Number(value) => Ok(Pat::Number(*value)),
        Pat::Constructor(by, parts) => {
            let by = labels.constructor(*by);
            let parts = labelled_patterns(alloc, labels, parts)?;
            Ok(Pat::Constructor(by, parts))
        }
    }
}

#[cycle(labelled_pattern)]
fn labelled_patterns(
    alloc: Global,
    labels: &mut Labels,
    patterns: &[Pat],
) -> Result<Vec<Pat>, NoMemory>
    ensures trees { IfOk result (λ copies. map pattern_tree copies.items
        ≡ labelled_each names_of_pattern labelled_pattern (left_in labels.old) (map pattern_tree patterns.now)) }
    ensures rest { OnOk result (left_in labels.new
        ≡ behind (left_in labels.old) (names_of_each names_of_pattern (map pattern_tree patterns.now))) }
{
    let mut copies = Vec::new(alloc);
    for pattern in patterns {
        copies.push(labelled_pattern(alloc, labels, pattern)?)?;
    }
    Ok(copies)
}
