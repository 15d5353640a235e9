ghost use Rattle.std.specs.Prelude.{◌≡◌, ◌≤◌, length, map, IfOk, OnOk};
ghost use Rattle.kk_syntax.specs.Surface.{written_pattern, written_row};
ghost use Rattle.kk_parser.specs.Classes.{is_at};
ghost use Rattle.kk_parser.specs.Depths.{IsNoDeeper, RowsAreNoDeeper};
ghost use Rattle.kk_parser.specs.Forms.{separated, separated_of, open_pattern, pattern_of, constructor_of};
ghost use Rattle.kk_parser.specs.Grammar.{bracketed, listed, listed_of, parts as OfParts, parts_of};
ghost use Rattle.kk_parser.specs.Kinds.{constructor};
ghost use Rattle.kk_parser.specs.Methods.{ReadsPhrase, ReadsAs, ReadsRow};
ghost use Rattle.kk_parser.specs.Phrases.{token, ◌▸◌, rule, match_ as OfMatch, row as OfRow, pat as OfPat};
ghost use Rattle.kk_parser.specs.Reading.{pattern_first};
ghost use Rattle.kk_parser.specs.Views.{boxed_expr, boxed_pattern};

use crate::fault::Fault;
use crate::made::{anything, constructor_pattern, exactly, match_of, pattern_variable, put};
use crate::name::Names;
use crate::parser::Parser;
use kk_syntax::{Keyword, SurfaceExpr, SurfacePattern, SurfaceRow, Symbol, Token};

impl<'a> Parser<'a> {
    /// `match = "match" or "{" ;* row { ;+ row } ;* "}"`
    #[cycle(expr)]
    pub fn match_(&mut self) -> Result<Box<SurfaceExpr>, Fault>
        ensures reads { ReadsPhrase (rule OfMatch) boxed_expr result self.old self.new }
        ensures left { length self.new.rest.now ≤ length self.old.rest.now }
        ensures depth { IfOk result (λ e. IsNoDeeper e.value) }
    {
        self.expect_keyword(Keyword::Match)?;
        let scrutinee = self.or()?;
        self.open(Symbol::OpenBrace)?;
        let rows = self.rows()?;
        self.expect(Symbol::CloseBrace)?;
        match_of(self.alloc, scrutinee, rows)
    }

    // `;* row { ;+ row } ;*`
    #[cycle(expr)]
    fn rows(&mut self) -> Result<Vec<SurfaceRow>, Fault>
        ensures reads { ReadsAs (separated (rule OfRow)) separated_of (λ rows. map written_row rows.items) result self.old self.new }
        ensures left { length self.new.rest.now ≤ length self.old.rest.now }
        ensures depth { IfOk result (λ rows. RowsAreNoDeeper rows.items) }
    {
        self.skip_semicolons();
        let mut rows = Vec::new(self.alloc);
        self.row(&mut rows)?;
        while self.is_at(Symbol::Semicolon) {
            self.advance();
            if self.is_at_pattern() {
                self.row(&mut rows)?;
            }
        }
        Ok(rows)
    }

    // `row = pat "->" expr`: puts the row behind others.
    #[cycle(expr)]
    fn row(&mut self, rows: &mut Vec<SurfaceRow>) -> Result<(), Fault>
        ensures reads { ReadsRow (map written_row rows.old.items) (map written_row rows.new.items) result self.old self.new }
        ensures left { length self.new.rest.now ≤ length self.old.rest.now }
        ensures depth { RowsAreNoDeeper rows.old.items → OnOk result (RowsAreNoDeeper rows.new.items) }
    {
        let pattern = self.pattern()?;
        self.expect(Symbol::Arrow)?;
        let body = self.expr()?;
        let pattern = Box::into_inner(pattern);
        let body = Box::into_inner(body);
        put(rows, SurfaceRow { pattern, body })?;
        Ok(())
    }

    // Whether a pattern begins with the next token.
    fn is_at_pattern(&self) -> bool
        ensures { result ≡ is_at pattern_first self.now.rest.now }
    {
        match self.rest.first() {
            Some(next) => match &next.token {
                Token::Wildcard | Token::Name(_) | Token::Number(_) | Token::Constructor(_) => true,
                Token::Symbol(symbol) => *symbol == Symbol::OpenParenthesis,
                _ => false,
            },
            None => false,
        }
    }

    /// `pat = wildcard | name | number | Con [ "(" [ pat { "," pat } ] ")" ] | "(" pat ")"`: the levels end that it
    /// opens.
    #[cycle(patterns)]
    fn pattern(&mut self) -> Result<Box<SurfacePattern>, Fault>
        ensures reads { ReadsPhrase (rule OfPat) boxed_pattern result self.old self.new }
        ensures left { length self.new.rest.now ≤ length self.old.rest.now }
    {
        let depth = self.depth;
        let pattern = self.open_pattern()?;
        self.depth = depth;
        Ok(pattern)
    }

    // The same, the levels left open that it opens.
    #[cycle(patterns)]
    fn open_pattern(&mut self) -> Result<Box<SurfacePattern>, Fault>
        ensures reads { ReadsAs open_pattern pattern_of boxed_pattern result self.old self.new }
        ensures left { length self.new.rest.now ≤ length self.old.rest.now }
    {
        if self.is_at_wildcard() {
            self.advance();
            return anything(self.alloc);
        }
        if self.is_at_name(Names::All) {
            let name = self.identifier(Names::All)?;
            return pattern_variable(self.alloc, name);
        }
        if let Some(value) = self.number() {
            return exactly(self.alloc, value);
        }
        if self.is_at_constructor() {
            return self.constructor_pattern();
        }
        self.bracketed_pattern()
    }

    // `Con [ "(" [ pat { "," pat } ] ")" ]`
    #[cycle(patterns)]
    fn constructor_pattern(&mut self) -> Result<Box<SurfacePattern>, Fault>
        ensures reads { ReadsAs (token constructor ▸ OfParts) constructor_of boxed_pattern result self.old self.new }
        ensures left { length self.new.rest.now ≤ length self.old.rest.now }
    {
        let name = self.constructor()?;
        let parts = self.parts()?;
        constructor_pattern(self.alloc, name, parts)
    }

    // `[ "(" [ pat { "," pat } ] ")" ]`
    #[cycle(patterns)]
    fn parts(&mut self) -> Result<Vec<SurfacePattern>, Fault>
        ensures reads { ReadsAs OfParts parts_of (λ ps. map written_pattern ps.items) result self.old self.new }
        ensures left { length self.new.rest.now ≤ length self.old.rest.now }
    {
        if !self.is_at(Symbol::OpenParenthesis) {
            return Ok(Vec::new(self.alloc));
        }
        self.open(Symbol::OpenParenthesis)?;
        let parts = self.patterns()?;
        self.expect(Symbol::CloseParenthesis)?;
        Ok(parts)
    }

    // `[ pat { "," pat } ]`
    #[cycle(patterns)]
    fn patterns(&mut self) -> Result<Vec<SurfacePattern>, Fault>
        ensures reads { ReadsAs (listed (rule OfPat)) listed_of (λ ps. map written_pattern ps.items) result self.old self.new }
        ensures left { length self.new.rest.now ≤ length self.old.rest.now }
    {
        let mut patterns = Vec::new(self.alloc);
        if !self.is_at_pattern() {
            return Ok(patterns);
        }
        let first = self.pattern()?;
        put(&mut patterns, Box::into_inner(first))?;
        while self.is_at(Symbol::Comma) {
            self.advance();
            let next = self.pattern()?;
            put(&mut patterns, Box::into_inner(next))?;
        }
        Ok(patterns)
    }

    // `"(" pat ")"`
    #[cycle(patterns)]
    fn bracketed_pattern(&mut self) -> Result<Box<SurfacePattern>, Fault>
        ensures reads { ReadsAs (bracketed (rule OfPat)) (λ v. v.1.0) boxed_pattern result self.old self.new }
        ensures left { length self.new.rest.now ≤ length self.old.rest.now }
    {
        self.open(Symbol::OpenParenthesis)?;
        let inner = self.pattern()?;
        self.expect(Symbol::CloseParenthesis)?;
        Ok(inner)
    }
}
