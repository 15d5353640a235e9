ghost use Rattle.std.specs.Prelude.{◌≡◌, map, IfOk};
ghost use Rattle.kk_syntax.specs.Patterns.{pattern_tree};
ghost use Rattle.kk_syntax.specs.Programs.{constructor_tree, function_tree, program_tree};
ghost use Rattle.kk_syntax.specs.Trees.{expr_tree, row_tree, statement_tree};
ghost use Rattle.kk_syntax.specs.Types.{type_tree};

use crate::literal::StringLiteral;
use crate::program::{Constructor, Expr, Fun, Pat, Program, Row, Statement, Ty, TypeDecl};
use kk_base::NoMemory;
use std::alloc::Global;

/// A copy of a type. The recursion is as deep as the type.
#[cycle(copied_type)]
pub fn copied_type(alloc: Global, of: &Ty) -> Result<Ty, NoMemory>
    ensures { IfOk result (λ copy. type_tree copy ≡ type_tree of.now) }
{
    match of {
        Ty::Int32 => Ok(Ty::Int32),
        Ty::Unit => Ok(Ty::Unit),
        Ty::Variable(variable) => Ok(Ty::Variable(*variable)),
        Ty::Named(by, arguments) => Ok(Ty::Named(*by, copied_types(alloc, arguments)?)),
    }
}

/// A copy of types.
#[cycle(copied_type)]
pub fn copied_types(alloc: Global, types: &[Ty]) -> Result<Vec<Ty>, NoMemory>
    ensures { IfOk result (λ copies. map type_tree copies.items ≡ map type_tree types.now) }
{
    let mut copies = Vec::new(alloc);
    for of in types {
        copies.push(copied_type(alloc, of)?)?;
    }
    Ok(copies)
}

/// A copy of the declared types.
pub fn copied_declarations(
    alloc: Global,
    declarations: &[TypeDecl],
) -> Result<Vec<TypeDecl>, NoMemory>
    ensures { IfOk result (λ copies. copies.items ≡ declarations.now) }
{
    let mut copies = Vec::new(alloc);
    for declaration in declarations {
        copies.push(TypeDecl {
            name: declaration.name.copied(alloc)?,
            at: declaration.at,
            variables: declaration.variables,
            first_constructor: declaration.first_constructor,
            constructor_count: declaration.constructor_count,
        })?;
    }
    Ok(copies)
}

/// A copy of constructors.
pub fn copied_constructors(
    alloc: Global,
    constructors: &[Constructor],
) -> Result<Vec<Constructor>, NoMemory>
    ensures { IfOk result (λ copies. map constructor_tree copies.items ≡ map constructor_tree constructors.now) }
{
    let mut copies = Vec::new(alloc);
    for constructor in constructors {
        copies.push(Constructor {
            name: constructor.name.copied(alloc)?,
            at: constructor.at,
            of_type: constructor.of_type,
            tag: constructor.tag,
            fields: copied_types(alloc, &constructor.fields)?,
        })?;
    }
    Ok(copies)
}

/// A copy of string literals.
pub fn copied_texts(alloc: Global, texts: &[StringLiteral]) -> Result<Vec<StringLiteral>, NoMemory>
    ensures { IfOk result (λ copies. copies.items ≡ texts.now) }
{
    let mut copies = Vec::new(alloc);
    for text in texts {
        copies.push(text.copied(alloc)?)?;
    }
    Ok(copies)
}

/// A copy of a pattern. The recursion is as deep as the pattern.
#[cycle(copied_pattern)]
pub fn copied_pattern(alloc: Global, pattern: &Pat) -> Result<Pat, NoMemory>
    ensures { IfOk result (λ copy. pattern_tree copy ≡ pattern_tree pattern.now) }
{
    match pattern {
        Pat::Wildcard => Ok(Pat::Wildcard),
        Pat::Variable(of) => Ok(Pat::Variable(*of)),
        Pat::Number(value) => Ok(Pat::Number(*value)),
        Pat::Constructor(by, parts) => { Ok(Pat::Constructor(*by, copied_patterns(alloc, parts)?)) }
    }
}

#[cycle(copied_pattern)]
fn copied_patterns(alloc: Global, patterns: &[Pat]) -> Result<Vec<Pat>, NoMemory>
    ensures { IfOk result (λ copies. map pattern_tree copies.items ≡ map pattern_tree patterns.now) }
{
    let mut copies = Vec::new(alloc);
    for pattern in patterns {
        copies.push(copied_pattern(alloc, pattern)?)?;
    }
    Ok(copies)
}

/// A copy of an expression. The recursion is as deep as the expression.
#[cycle(copied_expr)]
pub fn copied_expr(alloc: Global, expr: &Expr) -> Result<Expr, NoMemory>
    ensures { IfOk result (λ copy. expr_tree copy ≡ expr_tree expr.now) }
{
    match expr {
        Expr::Variable(of) => Ok(Expr::Variable(*of)),
        Expr::Apply(form, arguments) => Ok(Expr::Apply(*form, copied_exprs(alloc, arguments)?)),
        Expr::If(condition, positive, negative) => Ok(Expr::If(
            boxed(alloc, condition)?,
            boxed(alloc, positive)?,
            boxed(alloc, negative)?,
        )),
        Expr::Match(scrutinee, rows) => {
            Ok(Expr::Match(boxed(alloc, scrutinee)?, copied_rows(alloc, rows)?))
        }
        Expr::Block(statements, value) => {
            Ok(Expr::Block(copied_statements(alloc, statements)?, boxed(alloc, value)?))
        }
    }
}

#[cycle(copied_expr)]
fn boxed(alloc: Global, expr: &Expr) -> Result<Box<Expr>, NoMemory>
    ensures { IfOk result (λ copy. expr_tree copy.value ≡ expr_tree expr.now) }
{
    Ok(Box::new(alloc, copied_expr(alloc, expr)?)?)
}

#[cycle(copied_expr)]
fn copied_exprs(alloc: Global, exprs: &[Expr]) -> Result<Vec<Expr>, NoMemory>
    ensures { IfOk result (λ copies. map expr_tree copies.items ≡ map expr_tree exprs.now) }
{
    let mut copies = Vec::new(alloc);
    for expr in exprs {
        copies.push(copied_expr(alloc, expr)?)?;
    }
    Ok(copies)
}

#[cycle(copied_expr)]
fn copied_rows(alloc: Global, rows: &[Row]) -> Result<Vec<Row>, NoMemory>
    ensures { IfOk result (λ copies. map row_tree copies.items ≡ map row_tree rows.now) }
{
    let mut copies = Vec::new(alloc);
    for row in rows {
        let pattern = copied_pattern(alloc, &row.pattern)?;
        let body = copied_expr(alloc, &row.body)?;
        copies.push(Row { pattern, body })?;
    }
    Ok(copies)
}

#[cycle(copied_expr)]
fn copied_statements(alloc: Global, statements: &[Statement]) -> Result<Vec<Statement>, NoMemory>
    ensures { IfOk result (λ copies. map statement_tree copies.items ≡ map statement_tree statements.now) }
{
    let mut copies = Vec::new(alloc);
    for statement in statements {
        let value = copied_expr(alloc, &statement.value)?;
        copies.push(Statement {
            binder: statement.binder,
            value,
        })?;
    }
    Ok(copies)
}

fn copied_function(alloc: Global, function: &Fun) -> Result<Fun, NoMemory>
    ensures { IfOk result (λ copy. function_tree copy ≡ function_tree function.now) }
{
    Ok(Fun {
        name: function.name.copied(alloc)?,
        at: function.at,
        variables: function.variables,
        parameters: copied_types(alloc, &function.parameters)?,
        result: copied_type(alloc, &function.result)?,
        body: copied_expr(alloc, &function.body)?,
    })
}

fn copied_functions(alloc: Global, functions: &[Fun]) -> Result<Vec<Fun>, NoMemory>
    ensures { IfOk result (λ copies. map function_tree copies.items ≡ map function_tree functions.now) }
{
    let mut copies = Vec::new(alloc);
    for function in functions {
        copies.push(copied_function(alloc, function)?)?;
    }
    Ok(copies)
}

impl Program {
    /// A copy of the program.
    pub fn copied(&self, alloc: Global) -> Result<Program, NoMemory>
        ensures { IfOk result (λ copy. program_tree copy ≡ program_tree self.now) }
    {
        Ok(Program {
            types: copied_declarations(alloc, &self.types)?,
            constructors: copied_constructors(alloc, &self.constructors)?,
            functions: copied_functions(alloc, &self.functions)?,
            texts: copied_texts(alloc, &self.texts)?,
            main: self.main,
        })
    }
}
