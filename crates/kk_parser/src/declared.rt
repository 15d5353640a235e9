ghost use Rattle.std.specs.Prelude.{◌≤◌, length, map, IfOk};
ghost use Rattle.kk_syntax.specs.Surface.{written_constructor, written_parameter};
ghost use Rattle.kk_parser.specs.Depths.{BodyIsNoDeeper};
ghost use Rattle.kk_parser.specs.Forms.{separated, separated_of, typed, typed_of};
ghost use Rattle.kk_parser.specs.Grammar.{fields as OfFields, fields_of, some_listed, some_listed_of, type_parameters, type_parameters_of};
ghost use Rattle.kk_parser.specs.Kinds.{type_variable_name};
ghost use Rattle.kk_parser.specs.Methods.{ReadsPhrase, ReadsAs};
ghost use Rattle.kk_parser.specs.Phrases.{token, optional, rule, con as OfCon};
ghost use Rattle.kk_parser.specs.Views.{boxed_declaration};

use crate::fault::Fault;
use crate::made::{boxed, put};
use crate::name::Names;
use crate::parser::Parser;
use kk_syntax::{
    ConstructorDeclaration, Declaration, Identifier, Keyword, Parameter, Symbol, TypeDeclaration,
};

impl<'a> Parser<'a> {
    /// `"type" tname [ "<" tvar { "," tvar } ">" ] "{" ;* con { ;+ con } ;* "}"`
    pub fn type_declaration(&mut self) -> Result<Box<Declaration>, Fault>
        ensures reads { ReadsAs typed typed_of boxed_declaration result self.old self.new }
        ensures left { length self.new.rest.now ≤ length self.old.rest.now }
        ensures depth { IfOk result (λ d. BodyIsNoDeeper d.value) }
    {
        self.expect_keyword(Keyword::Type)?;
        let name = self.identifier(Names::OfTypes)?;
        let parameters = self.type_parameters()?;
        self.open(Symbol::OpenBrace)?;
        let constructors = self.constructors()?;
        self.expect(Symbol::CloseBrace)?;
        let declaration = Declaration::Type(TypeDeclaration {
            name,
            parameters,
            constructors,
        });
        boxed(self.alloc, declaration)
    }

    // `[ "<" tvar { "," tvar } ">" ]`
    fn type_parameters(&mut self) -> Result<Vec<Identifier>, Fault>
        ensures reads { ReadsAs (optional type_parameters) type_parameters_of (λ names. names.items) result self.old self.new }
        ensures left { length self.new.rest.now ≤ length self.old.rest.now }
    {
        if !self.is_at(Symbol::Less) {
            return Ok(Vec::new(self.alloc));
        }
        self.expect(Symbol::Less)?;
        let names = self.type_variables()?;
        self.expect(Symbol::Greater)?;
        Ok(names)
    }

    // `tvar { "," tvar }`
    fn type_variables(&mut self) -> Result<Vec<Identifier>, Fault>
        ensures reads { ReadsAs (some_listed (token type_variable_name)) some_listed_of (λ names. names.items) result self.old self.new }
        ensures left { length self.new.rest.now ≤ length self.old.rest.now }
    {
        let mut names = Vec::new(self.alloc);
        let first = self.identifier(Names::TypeVariables)?;
        put(&mut names, first)?;
        while self.is_at(Symbol::Comma) {
            self.advance();
            let next = self.identifier(Names::TypeVariables)?;
            put(&mut names, next)?;
        }
        Ok(names)
    }

    // `;* con { ;+ con } ;*`
    fn constructors(&mut self) -> Result<Vec<ConstructorDeclaration>, Fault>
        ensures reads { ReadsAs (separated (rule OfCon)) separated_of (λ cs. map written_constructor cs.items) result self.old self.new }
        ensures left { length self.new.rest.now ≤ length self.old.rest.now }
    {
        self.skip_semicolons();
        let mut constructors = Vec::new(self.alloc);
        let first = self.constructor_declaration()?;
        put(&mut constructors, first)?;
        while self.is_at(Symbol::Semicolon) {
            self.advance();
            if self.is_at_constructor() {
                let next = self.constructor_declaration()?;
                put(&mut constructors, next)?;
            }
        }
        Ok(constructors)
    }

    /// `con = Con [ "(" param { "," param } ")" ]`: the levels end that it opens.
    fn constructor_declaration(&mut self) -> Result<ConstructorDeclaration, Fault>
        ensures reads { ReadsPhrase (rule OfCon) written_constructor result self.old self.new }
        ensures left { length self.new.rest.now ≤ length self.old.rest.now }
    {
        let depth = self.depth;
        let name = self.constructor()?;
        let fields = self.fields()?;
        self.depth = depth;
        Ok(ConstructorDeclaration { name, fields })
    }

    // `[ "(" param { "," param } ")" ]`
    fn fields(&mut self) -> Result<Vec<Parameter>, Fault>
        ensures reads { ReadsAs OfFields fields_of (λ ps. map written_parameter ps.items) result self.old self.new }
        ensures left { length self.new.rest.now ≤ length self.old.rest.now }
    {
        if !self.is_at(Symbol::OpenParenthesis) {
            return Ok(Vec::new(self.alloc));
        }
        self.open(Symbol::OpenParenthesis)?;
        let fields = self.some_parameters()?;
        self.expect(Symbol::CloseParenthesis)?;
        Ok(fields)
    }
}
