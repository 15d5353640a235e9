ghost use Rattle.std.specs.Prelude.{◌≡◌, ◌<◌, ◌^◌, ◌++◌, All, IfOk, OnOk, map};
ghost use Rattle.std.specs.List.{flat_map};
ghost use Rattle.kk_syntax.specs.Matches.{of_matches, matches};
ghost use Rattle.kk_syntax.specs.Programs.{program_tree};
ghost use Rattle.kk_syntax.specs.Shapes.{nodes_of, gathered_all, gathered_rows};
ghost use Rattle.kk_syntax.specs.Trees.{expr_tree, trees_of, row_tree, rows_of, statement_tree};
ghost use Rattle.kk_cover.specs.Matches.{match_rows, AnswersAll, AnswersProgram};

use kk_base::NoMemory;
use kk_rows::uncovered;
use kk_syntax::{Expr, Pat, Program, Row, Statement, Typed};
use std::alloc::Global;

/// Why a program is not covered.
#[derive(Drop)]
pub enum CoverError {
    /// The first function in the text that has a match that is not covered, by its number, and an example for the first
    /// such match in it: a pattern that clashes with each of its rows. Outer matches come before inner ones.
    NotCovered { function: u32, example: Pat },
    NoMemory,
}

/// Whether each match of a typed program is covered. If not, the first function that has another, and an example. It asks that
/// a function has fewer nodes than there are numbers from 0 up, so that an example that is a number can be written.
///
/// The recursion is as deep as the program.
pub fn cover(alloc: Global, typed: &Typed) -> Result<(), CoverError>
    requires { All (λ function. nodes_of function.body < 2 ^ 31) (program_tree typed.now.program).functions }
    ensures { AnswersProgram typed.now.program result }
{
    let program = &typed.program;
    for (number, function) in program.functions.iter().enumerate() {
        match first(alloc, program, &function.body) {
            Ok(None) => {}
            Ok(Some(example)) => {
                return match u32::try_from(number) {
                    Ok(function) => Err(CoverError::NotCovered { function, example }),
                    Err(_) => Err(CoverError::NoMemory),
                };
            }
            Err(NoMemory) => return Err(CoverError::NoMemory),
        }
    }
    Ok(())
}

// An example for the first match of an expression that is not covered.
fn first(alloc: Global, program: &Program, expr: &Expr) -> Result<Option<Pat>, NoMemory>
    requires { nodes_of (expr_tree expr.now) < 2 ^ 31 }
    ensures { IfOk result (λ found. AnswersAll (program_tree program.now) (matches (expr_tree expr.now)) found) }
{
    let mut all = Vec::new(alloc);
    collect(expr, &mut all)?;
    for rows in &all {
        if let Some(example) = uncovered(alloc, program, rows)? {
            return Ok(Some(example));
        }
    }
    Ok(None)
}

// Adds the rows of each match of an expression, in the order of the text, outer before inner.
#[cycle(collect)]
fn collect<'a>(expr: &'a Expr, all: &mut Vec<&'a [Row]>) -> Result<(), NoMemory>
    ensures { OnOk result (match_rows all.new.items ≡ match_rows all.old.items ++ matches (expr_tree expr.now)) }
{
    match expr {
        Expr::Variable(_) => Ok(()),
        Expr::Apply(_, arguments) => collect_each(arguments, all),
        Expr::If(condition, positive, negative) => {
            collect(condition, all)?;
            collect(positive, all)?;
            collect(negative, all)
        }
        Expr::Match(scrutinee, rows) => {
            all.push(rows.as_slice())?;
            collect(scrutinee, all)?;
            collect_rows(rows, all)
        }
        Expr::Block(statements, value) => {
            collect_statements(statements, all)?;
            collect(value, all)
        }
    }
}

// The same for several expressions.
#[cycle(collect)]
fn collect_each<'a>(exprs: &'a [Expr], all: &mut Vec<&'a [Row]>) -> Result<(), NoMemory>
    ensures { OnOk result (match_rows all.new.items ≡ match_rows all.old.items ++ gathered_all of_matches (trees_of (map expr_tree exprs.now))) }
{
    for expr in exprs {
        collect(expr, all)?;
    }
    Ok(())
}

// The same for the bodies of rows.
#[cycle(collect)]
fn collect_rows<'a>(rows: &'a [Row], all: &mut Vec<&'a [Row]>) -> Result<(), NoMemory>
    ensures { OnOk result (match_rows all.new.items ≡ match_rows all.old.items ++ gathered_rows of_matches (rows_of (map row_tree rows.now))) }
{
    for row in rows {
        collect(&row.body, all)?;
    }
    Ok(())
}

// The same for statements.
#[cycle(collect)]
fn collect_statements<'a>(
    statements: &'a [Statement],
    all: &mut Vec<&'a [Row]>,
) -> Result<(), NoMemory>
    ensures { OnOk result (match_rows all.new.items ≡ match_rows all.old.items ++ flat_map (λ s. matches s.value) (map statement_tree statements.now)) }
{
    for statement in statements {
        collect(&statement.value, all)?;
    }
    Ok(())
}
