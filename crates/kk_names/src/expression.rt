ghost use Rattle.std.specs.Prelude.{◌≡◌, ◌+◌, ◌≤◌, max, map, option_map, IfOk, [], ◌∷◌};
ghost use Rattle.kk_syntax.specs.Depths.{deepest, surface_depth, surface_row_depth, surface_statement_depth, depth_of};
ghost use Rattle.kk_syntax.specs.Depths.{depth_of_row, depth_of_statement};
ghost use Rattle.kk_syntax.specs.Surface.{Written, dot_call, both, either, match, rows_of as written_rows_of, block_of};
ghost use Rattle.kk_syntax.specs.Surface.{written_expr, written_row, written_statement, writtens_of, written_declaration};
ghost use Rattle.kk_syntax.specs.Trees.{expr_tree, row_tree, statement_tree, rows_of, trees_of, branch};
ghost use Rattle.kk_names.specs.Methods.{Resolves, ResolvesAll, ResolvesRow, ResolvesRows, choice_of, choice_depth};
ghost use Rattle.kk_names.specs.Methods.{ResolvesStatement, ResolvesStatements, KeepsScope, known_of, first_with};
ghost use Rattle.kk_names.specs.Methods.{ResolvesFunction};
ghost use Rattle.kk_syntax.specs.Programs.{function_tree};
ghost use Rattle.kk_names.specs.Faults.{faults_in_functions};
ghost use Rattle.kk_names.specs.Names.{functions_of, with_all_texts, KeepsDepth};
ghost use Rattle.kk_syntax.specs.declared.tree.Declaration.TheVariants as OfDeclaration;

use crate::resolver::{Resolver, alone};
use crate::scope::signature_variables;
use crate::table::meaning_in;
use kk_base::NoMemory;
use kk_syntax::{
    Binder, Declaration, Expr, Form, Fun, FunctionDeclaration, Identifier, Program, Row, Statement,
    SurfaceBinder, SurfaceExpr, SurfaceRow, SurfaceStatement,
};
use std::alloc::Global;

impl Resolver {
    /// What an expression means. The recursion is as deep as the expression.
    #[cycle(expression)]
    pub fn expression(&mut self, expr: &SurfaceExpr) -> Result<Expr, NoMemory>
        ensures resolves { IfOk result (λ e. Resolves (written_expr expr.now) self.old self.new (expr_tree e)) }
        ensures depth { IfOk result (λ e. depth_of e ≤ surface_depth expr.now) }
    {
        match expr {
            SurfaceExpr::Number(value) => Ok(alone(self.alloc, Form::Number(*value))),
            SurfaceExpr::Unit => Ok(alone(self.alloc, Form::Unit)),
            SurfaceExpr::Variable(name) => self.variable(name),
            SurfaceExpr::Call(name, arguments) => {
                let arguments = self.expressions(arguments)?;
                let callee = meaning_in(self.functions.as_slice(), &name.name);
                self.applied(callee, name, arguments)
            }
            SurfaceExpr::DotCall(first, name, others) => self.dot_call(name, others, first),
            SurfaceExpr::Construct(name, arguments) => {
                let arguments = self.expressions(arguments)?;
                let callee = meaning_in(self.constructors.as_slice(), &name.name);
                self.applied(callee, name, arguments)
            }
            SurfaceExpr::Unary(operator, operand) => {
                let operand = self.expression(operand)?;
                let arguments = Vec::from_array(self.alloc, [operand])?;
                Ok(Expr::Apply(Form::Unary(*operator), arguments))
            }
            SurfaceExpr::Binary(operator, left, right) => {
                let left = self.expression(left)?;
                let right = self.expression(right)?;
                let arguments = Vec::from_array(self.alloc, [left, right])?;
                Ok(Expr::Apply(Form::Binary(*operator), arguments))
            }
            SurfaceExpr::And(left, right) => self.both(left, right),
            SurfaceExpr::Or(left, right) => self.either(left, right),
            SurfaceExpr::PrintText(form, text) => self.print_text(*form, text),
            SurfaceExpr::If(condition, positive, negative) => {
                self.choice(condition, positive, negative)
            }
            SurfaceExpr::Match(scrutinee, rows) => self.matching(rows, scrutinee),
            SurfaceExpr::Block(statements, value) => self.block(statements, value),
        }
    }

    /// A call whose first argument stands before the others, in front of a dot.
    #[cycle(expression)]
    fn dot_call(
        &mut self,
        name: &Identifier,
        others: &[SurfaceExpr],
        first: &SurfaceExpr,
    ) -> Result<Expr, NoMemory>
        ensures resolves { IfOk result (λ e. Resolves (dot_call (written_expr first.now) name.now (writtens_of (map written_expr others.now))) self.old self.new (expr_tree e)) }
        ensures depth { IfOk result (λ e. depth_of e ≤ max (surface_depth first.now) (deepest (map surface_depth others.now)) + 1) }
    {
        let first = self.expression(first)?;
        let mut arguments = self.expressions(others)?;
        arguments.insert(0, first)?;
        let callee = meaning_in(self.functions.as_slice(), &name.name);
        self.applied(callee, name, arguments)
    }

    /// `a && b`: `if a then b else False`.
    #[cycle(expression)]
    fn both(&mut self, left: &SurfaceExpr, right: &SurfaceExpr) -> Result<Expr, NoMemory>
        ensures resolves { IfOk result (λ e. Resolves (both (written_expr left.now) (written_expr right.now)) self.old self.new (expr_tree e)) }
        ensures depth { IfOk result (λ e. depth_of e ≤ max (surface_depth left.now) (surface_depth right.now) + 1) }
    {
        let condition = self.expression(left)?;
        let positive = self.expression(right)?;
        let negative = alone(self.alloc, Form::Construct(Program::FALSE));
        conditional(self.alloc, condition, positive, negative)
    }

    /// `a || b`: `if a then True else b`.
    #[cycle(expression)]
    fn either(&mut self, left: &SurfaceExpr, right: &SurfaceExpr) -> Result<Expr, NoMemory>
        ensures resolves { IfOk result (λ e. Resolves (either (written_expr left.now) (written_expr right.now)) self.old self.new (expr_tree e)) }
        ensures depth { IfOk result (λ e. depth_of e ≤ max (surface_depth left.now) (surface_depth right.now) + 1) }
    {
        let condition = self.expression(left)?;
        let negative = self.expression(right)?;
        let positive = alone(self.alloc, Form::Construct(Program::TRUE));
        conditional(self.alloc, condition, positive, negative)
    }

    /// An `if`, whose second branch is `()` where it is left out.
    #[cycle(expression)]
    fn choice(
        &mut self,
        condition: &SurfaceExpr,
        positive: &SurfaceExpr,
        negative: &Option<Box<SurfaceExpr>>,
    ) -> Result<Expr, NoMemory>
        ensures resolves { IfOk result (λ e. Resolves (choice_of (written_expr condition.now) (written_expr positive.now) (option_map (λ b. written_expr b.value) negative.now)) self.old self.new (expr_tree e)) }
        ensures depth { IfOk result (λ e. depth_of e ≤ choice_depth (surface_depth condition.now) (surface_depth positive.now) (option_map (λ b. surface_depth b.value) negative.now)) }
    {
        let condition = self.expression(condition)?;
        let positive = self.expression(positive)?;
        let negative = match negative {
            Some(negative) => self.expression(negative)?,
            None => alone(self.alloc, Form::Unit),
        };
        conditional(self.alloc, condition, positive, negative)
    }

    /// A match.
    #[cycle(expression)]
    fn matching(&mut self, rows: &[SurfaceRow], scrutinee: &SurfaceExpr) -> Result<Expr, NoMemory>
        ensures resolves { IfOk result (λ e. Resolves (match (written_expr scrutinee.now) (written_rows_of (map written_row rows.now))) self.old self.new (expr_tree e)) }
        ensures depth { IfOk result (λ e. depth_of e ≤ max (surface_depth scrutinee.now) (deepest (map surface_row_depth rows.now)) + 1) }
    {
        let scrutinee = self.expression(scrutinee)?;
        let rows = self.rows(rows)?;
        Ok(Expr::Match(Box::new(self.alloc, scrutinee)?, rows))
    }

    /// What the rows of a match mean.
    #[cycle(expression)]
    fn rows(&mut self, rows: &[SurfaceRow]) -> Result<Vec<Row>, NoMemory>
        ensures resolves { IfOk result (λ rs. ResolvesRows (written_rows_of (map written_row rows.now)) self.old self.new (rows_of (map row_tree rs.items))) }
        ensures depth { IfOk result (λ rs. deepest (map depth_of_row rs.items) ≤ deepest (map surface_row_depth rows.now)) }
    {
        let mut resolved = Vec::new(self.alloc);
        for row in rows {
            let r = self.row(row)?;
            resolved.push(r)?;
        }
        Ok(resolved)
    }

    /// What a row means. The variables of its pattern are seen in its body alone.
    #[cycle(expression)]
    fn row(&mut self, row: &SurfaceRow) -> Result<Row, NoMemory>
        ensures resolves { IfOk result (λ r. ResolvesRow (written_row row.now) self.old self.new (row_tree r)) }
        ensures depth { IfOk result (λ r. depth_of_row r ≤ surface_row_depth row.now) }
    {
        let before = self.scope.len();
        let mut bound = Vec::new(self.alloc);
        let pattern = self.pattern(&row.pattern, &mut bound)?;
        self.scope.append(&mut bound)?;
        let body = self.expression(&row.body)?;
        self.scope.truncate(before);
        Ok(Row { pattern, body })
    }

    /// A block. Behind it its variables are seen no more.
    #[cycle(expression)]
    fn block(
        &mut self,
        statements: &[SurfaceStatement],
        value: &SurfaceExpr,
    ) -> Result<Expr, NoMemory>
        ensures resolves { IfOk result (λ e. Resolves (block_of (map written_statement statements.now) (written_expr value.now)) self.old self.new (expr_tree e)) }
        ensures depth { IfOk result (λ e. depth_of e ≤ max (deepest (map surface_statement_depth statements.now)) (surface_depth value.now) + 1) }
    {
        let outer = self.scope.len();
        let statements = self.statements(statements)?;
        let value = self.expression(value)?;
        self.scope.truncate(outer);
        Ok(Expr::Block(statements, Box::new(self.alloc, value)?))
    }

    /// What expressions mean, from left to right.
    #[cycle(expression)]
    fn expressions(&mut self, exprs: &[SurfaceExpr]) -> Result<Vec<Expr>, NoMemory>
        ensures resolves { IfOk result (λ es. ResolvesAll (writtens_of (map written_expr exprs.now)) self.old self.new (trees_of (map expr_tree es.items))) }
        ensures depth { IfOk result (λ es. deepest (map depth_of es.items) ≤ deepest (map surface_depth exprs.now)) }
    {
        let mut resolved = Vec::new(self.alloc);
        for expr in exprs {
            let e = self.expression(expr)?;
            resolved.push(e)?;
        }
        Ok(resolved)
    }

    /// What statements mean. Behind them their variables are seen.
    #[cycle(expression)]
    fn statements(&mut self, statements: &[SurfaceStatement]) -> Result<Vec<Statement>, NoMemory>
        ensures resolves { IfOk result (λ ss. (last : Written)
            → ResolvesStatements (map written_statement statements.now) last self.old self.new (map statement_tree ss.items)) }
        ensures scope { IfOk result (λ _. KeepsScope self.old self.new) }
        ensures depth { IfOk result (λ ss. deepest (map depth_of_statement ss.items) ≤ deepest (map surface_statement_depth statements.now)) }
    {
        let mut resolved = Vec::new(self.alloc);
        for statement in statements {
            let s = self.statement(statement)?;
            resolved.push(s)?;
        }
        Ok(resolved)
    }

    /// What a statement means. A variable is seen behind the statement, and not in its own value.
    #[cycle(expression)]
    fn statement(&mut self, statement: &SurfaceStatement) -> Result<Statement, NoMemory>
        ensures resolves { IfOk result (λ s. ResolvesStatement (written_statement statement.now) self.old self.new (statement_tree s)) }
        ensures depth { IfOk result (λ s. depth_of_statement s ≤ surface_statement_depth statement.now) }
    {
        match &statement.binder {
            SurfaceBinder::Nothing => {
                let binder = Binder::Nothing;
                let value = self.expression(&statement.value)?;
                Ok(Statement { binder, value })
            }
            SurfaceBinder::Wildcard => {
                let binder = Binder::Wildcard;
                let value = self.expression(&statement.value)?;
                Ok(Statement { binder, value })
            }
            SurfaceBinder::Variable(name) => {
                let number = self.number()?;
                let value = self.expression(&statement.value)?;
                self.bind(name, number)?;
                let binder = Binder::Variable(number);
                Ok(Statement { binder, value })
            }
        }
    }
}

/// An `if` with both branches.
fn conditional(
    alloc: Global,
    condition: Expr,
    positive: Expr,
    negative: Expr,
) -> Result<Expr, NoMemory>
    ensures tree { IfOk result (λ e. expr_tree e ≡ branch (expr_tree condition) (expr_tree positive) (expr_tree negative)) }
    ensures depth { IfOk result (λ e. depth_of e ≡ max (depth_of condition) (max (depth_of positive) (depth_of negative)) + 1) }
{
    let condition = Box::new(alloc, condition)?;
    let positive = Box::new(alloc, positive)?;
    let negative = Box::new(alloc, negative)?;
    Ok(Expr::If(condition, positive, negative))
}

impl Resolver {
    /// What the declared functions mean.
    pub fn all_functions(&mut self, declarations: &[Declaration]) -> Result<Vec<Fun>, NoMemory>
        ensures functions { IfOk result (λ functions. map function_tree functions.items
            ≡ functions_of (known_of self.old) self.old.texts.items (map written_declaration declarations.now)) }
        ensures texts { IfOk result (λ _. self.new.texts.items ≡ with_all_texts self.old.texts.items (map written_declaration declarations.now)) }
        ensures first { IfOk result (λ _. self.new.first
            ≡ first_with self.old.first (faults_in_functions (known_of self.old) (map written_declaration declarations.now))) }
        ensures depth { IfOk result (λ functions. KeepsDepth declarations.now functions.items) }
    {
        let mut functions = Vec::new(self.alloc);
        for declaration in declarations {
            if let Declaration::Function(declared) = declaration {
                let function = self.function(declared)?;
                functions.push(function)?;
            }
        }
        Ok(functions)
    }

    /// What a function means.
    fn function(&mut self, declared: &FunctionDeclaration) -> Result<Fun, NoMemory>
        ensures resolves { IfOk result (λ _. ResolvesFunction (written_declaration (OfDeclaration.Function declared.now)) self.old self.new) }
        ensures tree { IfOk result (λ function. function_tree function ∷ []
            ≡ functions_of (known_of self.old) self.old.texts.items (written_declaration (OfDeclaration.Function declared.now) ∷ [])) }
        ensures depth { IfOk result (λ function. depth_of function.body ≤ surface_depth declared.now.body) }
    {
        self.scope.clear();
        self.next = 0;
        let variables = signature_variables(
            self.alloc,
            declared.parameters.as_slice(),
            &declared.result,
        )?;
        if variables.len() > u32::MAX as usize {
            return Err(NoMemory);
        }
        let parameters = self.parameters(declared.parameters.as_slice(), variables.as_slice())?;
        let result = self.result(&declared.result, variables.as_slice())?;
        let body = self.expression(&declared.body)?;
        let name = declared.name.name.copied(self.alloc)?;
        Ok(Fun {
            name,
            at: declared.name.at,
            variables: variables.len() as u32,
            parameters,
            result,
            body,
        })
    }
}
