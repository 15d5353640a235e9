ghost use Rattle.std.specs.Prelude.{◌≡◌, ◌+◌, ◌≤◌, map, length, IfOk, OnOk};
ghost use Rattle.kk_syntax.specs.Surface.{written_statement};
ghost use Rattle.kk_parser.specs.Classes.{is_at};
ghost use Rattle.kk_parser.specs.Depths.{IsNoDeeper, StatementsAreNoDeeper};
ghost use Rattle.kk_parser.specs.Forms.{binding as OfBinding, binding_of, items as OfItems};
ghost use Rattle.kk_parser.specs.Grammar.{binder as OfBinder, binder_of};
ghost use Rattle.kk_parser.specs.Methods.{ReadsPhrase, ReadsFor, ReadsAs, ReadsItems};
ghost use Rattle.kk_parser.specs.Phrases.{rule, block as OfBlock};
ghost use Rattle.kk_parser.specs.Reading.{first};
ghost use Rattle.kk_parser.specs.Views.{binding_view, boxed_expr};

use crate::fault::Fault;
use crate::made::{block_of, put};
use crate::name::Names;
use crate::parser::Parser;
use kk_syntax::{Keyword, SurfaceBinder, SurfaceExpr, SurfaceStatement, Symbol};

impl<'a> Parser<'a> {
    /// `block = "{" ;* { stmt ;+ } expr ;* "}"`
    #[cycle(expr)]
    pub fn block(&mut self) -> Result<Box<SurfaceExpr>, Fault>
        ensures reads { ReadsPhrase (rule OfBlock) boxed_expr result self.old self.new }
        ensures left { length self.new.rest.now ≤ length self.old.rest.now }
        ensures depth { IfOk result (λ e. IsNoDeeper e.value) }
    {
        self.open(Symbol::OpenBrace)?;
        self.skip_semicolons();
        let mut statements = Vec::new(self.alloc);
        let mut value = self.items(&mut statements)?;
        while self.is_at(Symbol::Semicolon) {
            self.advance();
            if self.is_at_item() {
                let statement = SurfaceStatement {
                    binder: SurfaceBinder::Nothing,
                    value: Box::into_inner(value),
                };
                put(&mut statements, statement)?;
                value = self.items(&mut statements)?;
            }
        }
        self.expect(Symbol::CloseBrace)?;
        block_of(self.alloc, statements, value)
    }

    // `{ binding ;+ } expr`: puts the statements behind others, and gives the expression.
    #[cycle(expr)]
    fn items(&mut self, statements: &mut Vec<SurfaceStatement>) -> Result<Box<SurfaceExpr>, Fault>
        ensures reads { ReadsItems (map written_statement statements.old.items) (map written_statement statements.new.items) result self.old self.new }
        ensures left { length self.new.rest.now ≤ length self.old.rest.now }
        ensures depth { StatementsAreNoDeeper statements.old.items → IfOk result (λ value. StatementsAreNoDeeper statements.new.items × IsNoDeeper value.value) }
    {
        while self.is_at_keyword(Keyword::Val) {
            let (binder, value) = self.binding()?;
            self.some_semicolons()?;
            let value = Box::into_inner(value);
            put(statements, SurfaceStatement { binder, value })?;
        }
        self.expr()
    }

    // Whether a statement or an expression begins with the next token.
    fn is_at_item(&self) -> bool
        ensures { result ≡ is_at (first OfItems) self.now.rest.now }
    {
        self.is_at_keyword(Keyword::Val) || self.is_at_expr()
    }

    // `"val" ( name | wildcard ) "=" expr`
    #[cycle(expr)]
    fn binding(&mut self) -> Result<(SurfaceBinder, Box<SurfaceExpr>), Fault>
        ensures reads { ReadsAs OfBinding binding_of binding_view result self.old self.new }
        ensures left { length self.new.rest.now ≤ length self.old.rest.now }
        ensures passed { OnOk result (length self.new.rest.now + 1 ≤ length self.old.rest.now) }
        ensures depth { IfOk result (λ b. IsNoDeeper b.1.value) }
    {
        self.expect_keyword(Keyword::Val)?;
        let binder = self.binder()?;
        self.expect(Symbol::Equals)?;
        let value = self.expr()?;
        Ok((binder, value))
    }

    // `name | wildcard`
    fn binder(&mut self) -> Result<SurfaceBinder, Fault>
        ensures reads { ReadsFor OfBinder binder_of result self.old self.new }
        ensures left { length self.new.rest.now ≤ length self.old.rest.now }
    {
        if self.is_at_name(Names::All) {
            let name = self.identifier(Names::All)?;
            return Ok(SurfaceBinder::Variable(name));
        }
        self.expect_wildcard()?;
        Ok(SurfaceBinder::Wildcard)
    }
}
