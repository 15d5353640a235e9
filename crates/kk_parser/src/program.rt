ghost use Rattle.std.specs.Prelude.{◌≡◌, ◌-◌, ◌*◌, ◌≤◌, [], length, map, All, IfOk, ◌<◌, ◌∷◌, true, IfSome, OnSome};
ghost use Rattle.std.specs.Prelude.{is_some};
ghost use Rattle.kk_syntax.specs.Surface.{written_declaration, written_expr, written_parameter, written_type, unit_type};
ghost use Rattle.kk_syntax.specs.WrittenNodes.{nodes_in};
ghost use Rattle.kk_syntax.specs.Depths.{body_depth};
ghost use Rattle.kk_parser.specs.Depths.{IsShallow, IsNoDeeper, BodyIsNoDeeper, deepest_body, most_levels};
ghost use Rattle.kk_parser.specs.Forms.{head as OfHead, head_of, in_brackets, inside, type_by, type_by_of};
ghost use Rattle.kk_parser.specs.Grammar.{parameters as OfParameters, declared_function, function_of as OfFunction, listed};
ghost use Rattle.kk_parser.specs.Grammar.{listed_of, some_listed, some_listed_of, effects_of, type_of, result as OfResult};
ghost use Rattle.kk_parser.specs.Grammar.{type_arguments, type_arguments_of};
ghost use Rattle.kk_parser.specs.Methods.{ReadsPhrase, ReadsAs, error_for};
ghost use Rattle.kk_parser.specs.Parses.{AnswersParse, EachListIsParsed, LevelsBoundDepth, OneProgram, in_u32, next_place};
ghost use Rattle.kk_parser.specs.Phrases.{rule, program as OfProgram, decl as OfDecl, param as OfParam, optional, type as OfType};
ghost use Rattle.kk_parser.specs.Phrases.{result_type as OfResultType, effect as OfEffect, eff as OfEff};
ghost use Rattle.kk_parser.specs.Classes.{is_at};
ghost use Rattle.kk_parser.specs.Reading.{first};
ghost use Rattle.kk_parser.specs.Views.{boxed_declaration, declaration_of, head_view, class_of_effect, classes_in, result_view};

use crate::fault::Fault;
use crate::made::{boxed, put};
use crate::name::{NameClass, Names, name_class};
use crate::parser::Parser;
use kk_base::{ParseError, Span};
use kk_syntax::{
    Declaration, Effect, FunctionDeclaration, Identifier, Keyword, LocatedToken, Parameter,
    SurfaceExpr, SurfaceType, Symbol, Token, Tokens, Tree,
};
use std::alloc::Global;

/// The tree that the tokens spell.
///
/// An error tells the number of the tokens before the cause, from 0 (a `u32`'s last value where there are more), and
/// the line and the column of the cause.
pub fn parse(alloc: Global, tokens: &Tokens) -> Result<Tree, ParseError>
    ensures parsed { AnswersParse tokens.now result }

    // A declaration has at most twice as many nodes as there are tokens.
    ensures few_nodes { IfOk result (λ tree.
        All (λ declaration. nodes_in declaration ≤ 2 * length tokens.now.items) (map written_declaration tree.declarations.items)) }

    // Its trees are as shallow as the levels make them that may be open at once.
    ensures shallow { IfOk result (λ tree.
        All (λ declaration. IsShallow most_levels declaration) (map written_declaration tree.declarations.items)) }

    // In memory its bodies are no deeper, each block counted.
    ensures depth { IfOk result (λ tree. All (λ declaration. body_depth declaration ≤ deepest_body) tree.declarations.items) }
{
    let mut parser = Parser {
        alloc,
        rest: tokens.as_slice(),
        depth: 0,
    };
    match parser.program() {
        Ok(declarations) => {
            if parser.rest.is_empty() {
                Ok(Tree {
                    declarations,
                    length: tokens.end().at,
                })
            } else {
                Err(error_at(Fault::Unexpected, tokens, parser.rest))
            }
        }
        Err(fault) => Err(error_at(fault, tokens, parser.rest)),
    }
}

/// Each list of tokens comes to exactly one thing: a tree, or a first token that is unexpected or opens a level too many;
/// and at any depth it spells one program at most, whose trees are as shallow as its levels make them. It is a law, and
/// does nothing.
pub fn each_list_is_parsed()
    ensures exactly_one { EachListIsParsed }
    ensures at_any_depth { OneProgram }
    ensures by_levels { LevelsBoundDepth }
{}

// The error for a fault at the first of the tokens that are left, or at the end.
fn error_at(fault: Fault, tokens: &Tokens, left: &[LocatedToken]) -> ParseError
    requires { length left.now ≤ length tokens.now.items }
    ensures { result ≡ in_u32 (error_for fault (length tokens.now.items - length left.now) (next_place left.now tokens.now.end)) }
{
    let passed = tokens.as_slice().len() - left.len();
    let index = passed.min(u32::MAX as usize) as u32;
    let Span { line, column, .. } = match left.first() {
        Some(next) => next.span,
        None => tokens.end(),
    };
    match fault {
        Fault::Unexpected => ParseError::Unexpected {
            index,
            line,
            column,
        },
        Fault::TooDeep => ParseError::TooDeep {
            index,
            line,
            column,
        },
        Fault::NoMemory => ParseError::NoMemory,
    }
}

/// What stands in the declaration of a function before its body.
#[derive(Drop)]
pub struct Head {
    pub name: Identifier,
    pub parameters: Vec<Parameter>,
    pub effects: Vec<Effect>,
    pub result: Option<SurfaceType>,
}

impl<'a> Parser<'a> {
    /// `program = ;* [ decl { ;+ decl } ;* ]`
    fn program(&mut self) -> Result<Vec<Declaration>, Fault>
        ensures reads { ReadsPhrase (rule OfProgram) (λ declarations. map written_declaration declarations.items) result self.old self.new }
        ensures left { length self.new.rest.now ≤ length self.old.rest.now }
        ensures depth { IfOk result (λ declarations. All BodyIsNoDeeper declarations.items) }
    {
        self.skip_semicolons();
        let mut declarations = Vec::new(self.alloc);
        if !self.is_at_declaration() {
            return Ok(declarations);
        }
        let first = self.declaration()?;
        put(&mut declarations, Box::into_inner(first))?;
        while self.is_at(Symbol::Semicolon) {
            self.advance();
            if self.is_at_declaration() {
                let next = self.declaration()?;
                put(&mut declarations, Box::into_inner(next))?;
            }
        }
        Ok(declarations)
    }

    // Whether a declaration begins with the next token.
    fn is_at_declaration(&self) -> bool
        ensures { result ≡ is_at (first (rule OfDecl)) self.now.rest.now }
    {
        self.is_at_keyword(Keyword::Type) || self.is_at_keyword(Keyword::Fun)
    }

    /// The declaration of a type or of a function: the levels end that it opens.
    fn declaration(&mut self) -> Result<Box<Declaration>, Fault>
        ensures reads { ReadsPhrase (rule OfDecl) boxed_declaration result self.old self.new }
        ensures left { length self.new.rest.now ≤ length self.old.rest.now }
        ensures depth { IfOk result (λ d. BodyIsNoDeeper d.value) }
    {
        let depth = self.depth;
        if self.is_at_keyword(Keyword::Type) {
            let declaration = self.type_declaration()?;
            self.depth = depth;
            return Ok(declaration);
        }
        let declaration = self.function()?;
        self.depth = depth;
        Ok(declaration)
    }

    // `"fun" name "(" [ param { "," param } ] ")" [ ":" [ effect ] type ] expr`. Only `main` may leave its result out.
    fn function(&mut self) -> Result<Box<Declaration>, Fault>
        ensures reads { ReadsAs declared_function (λ v. OfFunction v.1.0 v.1.1) boxed_declaration result self.old self.new }
        ensures left { length self.new.rest.now ≤ length self.old.rest.now }
        ensures depth { IfOk result (λ d. BodyIsNoDeeper d.value) }
    {
        self.expect_keyword(Keyword::Fun)?;
        let head = self.head()?;
        let body = self.expr()?;
        let declaration = function_of(head, Box::into_inner(body));
        boxed(self.alloc, declaration)
    }

    // What stands between `fun` and the body.
    fn head(&mut self) -> Result<Head, Fault>
        ensures reads { ReadsAs OfHead head_of head_view result self.old self.new }
        ensures left { length self.new.rest.now ≤ length self.old.rest.now }
    {
        if self.is_at_name(Names::Main) {
            let name = self.identifier(Names::Main)?;
            let parameters = self.parameters()?;
            if !self.is_at(Symbol::Colon) {
                return Ok(Head {
                    name,
                    parameters,
                    effects: Vec::new(self.alloc),
                    result: None,
                });
            }
            let (effects, result) = self.result()?;
            return Ok(Head {
                name,
                parameters,
                effects,
                result: Some(result),
            });
        }
        let name = self.identifier(Names::ButMain)?;
        let parameters = self.parameters()?;
        let (effects, result) = self.result()?;
        Ok(Head {
            name,
            parameters,
            effects,
            result: Some(result),
        })
    }

    // `"(" [ param { "," param } ] ")"`
    fn parameters(&mut self) -> Result<Vec<Parameter>, Fault>
        ensures reads { ReadsAs OfParameters (λ v. listed_of v.1.0) (λ ps. map written_parameter ps.items) result self.old self.new }
        ensures left { length self.new.rest.now ≤ length self.old.rest.now }
    {
        self.open(Symbol::OpenParenthesis)?;
        let parameters = self.parameter_list()?;
        self.expect(Symbol::CloseParenthesis)?;
        Ok(parameters)
    }

    // `[ param { "," param } ]`
    fn parameter_list(&mut self) -> Result<Vec<Parameter>, Fault>
        ensures reads { ReadsAs (listed (rule OfParam)) listed_of (λ ps. map written_parameter ps.items) result self.old self.new }
        ensures left { length self.new.rest.now ≤ length self.old.rest.now }
    {
        if !self.is_at_name(Names::All) {
            return Ok(Vec::new(self.alloc));
        }
        self.some_parameters()
    }

    /// `param { "," param }`
    pub fn some_parameters(&mut self) -> Result<Vec<Parameter>, Fault>
        ensures reads { ReadsAs (some_listed (rule OfParam)) some_listed_of (λ ps. map written_parameter ps.items) result self.old self.new }
        ensures left { length self.new.rest.now ≤ length self.old.rest.now }
    {
        let mut parameters = Vec::new(self.alloc);
        let first = self.parameter()?;
        put(&mut parameters, first)?;
        while self.is_at(Symbol::Comma) {
            self.advance();
            let next = self.parameter()?;
            put(&mut parameters, next)?;
        }
        Ok(parameters)
    }

    /// `param = name ":" type`
    fn parameter(&mut self) -> Result<Parameter, Fault>
        ensures reads { ReadsPhrase (rule OfParam) written_parameter result self.old self.new }
        ensures left { length self.new.rest.now ≤ length self.old.rest.now }
    {
        let name = self.identifier(Names::All)?;
        self.expect(Symbol::Colon)?;
        let of_type = self.type_()?;
        Ok(Parameter { name, of_type })
    }
}

// The declaration of a function.
fn function_of(head: Head, body: SurfaceExpr) -> Declaration
    ensures made { written_declaration result ≡ declaration_of (head_view head) (written_expr body) }
    ensures depth { IsNoDeeper body → BodyIsNoDeeper result }
{
    let Head {
        name,
        parameters,
        effects,
        result,
    } = head;
    Declaration::Function(FunctionDeclaration {
        name,
        parameters,
        effects,
        result,
        body,
    })
}

impl<'a> Parser<'a> {
    /// `":" [ effect ] type`
    pub fn result(&mut self) -> Result<(Vec<Effect>, SurfaceType), Fault>
        ensures reads { ReadsAs OfResult (λ v. (effects_of v.1, type_of v.1)) result_view result self.old self.new }
        ensures left { length self.new.rest.now ≤ length self.old.rest.now }
    {
        self.expect(Symbol::Colon)?;
        if self.is_at_effect() {
            let effects = self.effect()?;
            let of_type = self.type_()?;
            return Ok((effects, of_type));
        }
        let of_type = self.result_type()?;
        Ok((Vec::new(self.alloc), of_type))
    }

    /// `type = tvar | tname [ "<" type { "," type } ">" ] | "(" ")" | "(" type ")"`: the levels end that it opens.
    #[cycle(types)]
    pub fn type_(&mut self) -> Result<SurfaceType, Fault>
        ensures reads { ReadsPhrase (rule OfType) written_type result self.old self.new }
        ensures left { length self.new.rest.now ≤ length self.old.rest.now }
    {
        let depth = self.depth;
        let of_type = self.type_by(Names::OfTypes)?;
        self.depth = depth;
        Ok(of_type)
    }

    // The same, where the first token is no effect.
    fn result_type(&mut self) -> Result<SurfaceType, Fault>
        ensures reads { ReadsPhrase (rule OfResultType) written_type result self.old self.new }
        ensures left { length self.new.rest.now ≤ length self.old.rest.now }
    {
        let depth = self.depth;
        let of_type = self.type_by(Names::OfTypesButEffects)?;
        self.depth = depth;
        Ok(of_type)
    }

    // A type whose name is of this set. The levels stay open that it opens.
    #[cycle(types)]
    fn type_by(&mut self, names: Names) -> Result<SurfaceType, Fault>
        ensures reads { ReadsAs (type_by (classes_in names)) type_by_of written_type result self.old self.new }
        ensures left { length self.new.rest.now ≤ length self.old.rest.now }
    {
        if self.is_at_name(Names::TypeVariables) {
            let name = self.identifier(Names::TypeVariables)?;
            return Ok(SurfaceType::Variable(name));
        }
        if self.is_at_name(names) {
            let name = self.identifier(names)?;
            let arguments = self.type_arguments()?;
            return Ok(SurfaceType::Named(name, arguments));
        }
        self.bracketed_type()
    }

    // `[ "<" type { "," type } ">" ]`
    #[cycle(types)]
    fn type_arguments(&mut self) -> Result<Vec<SurfaceType>, Fault>
        ensures reads { ReadsAs (optional type_arguments) type_arguments_of (λ ts. map written_type ts.items) result self.old self.new }
        ensures left { length self.new.rest.now ≤ length self.old.rest.now }
    {
        if !self.is_at(Symbol::Less) {
            return Ok(Vec::new(self.alloc));
        }
        self.open(Symbol::Less)?;
        let types = self.types()?;
        self.expect(Symbol::Greater)?;
        Ok(types)
    }

    // `type { "," type }`
    #[cycle(types)]
    fn types(&mut self) -> Result<Vec<SurfaceType>, Fault>
        ensures reads { ReadsAs (some_listed (rule OfType)) some_listed_of (λ ts. map written_type ts.items) result self.old self.new }
        ensures left { length self.new.rest.now ≤ length self.old.rest.now }
    {
        let mut types = Vec::new(self.alloc);
        let first = self.type_()?;
        put(&mut types, first)?;
        while self.is_at(Symbol::Comma) {
            self.advance();
            let next = self.type_()?;
            put(&mut types, next)?;
        }
        Ok(types)
    }

    // `"(" ")" | "(" type ")"`
    #[cycle(types)]
    fn bracketed_type(&mut self) -> Result<SurfaceType, Fault>
        ensures reads { ReadsAs (in_brackets (rule OfType)) (inside unit_type (λ t. t)) written_type result self.old self.new }
        ensures left { length self.new.rest.now ≤ length self.old.rest.now }
    {
        self.open(Symbol::OpenParenthesis)?;
        if self.is_at(Symbol::CloseParenthesis) {
            self.advance();
            return Ok(SurfaceType::Unit);
        }
        let inner = self.type_()?;
        self.expect(Symbol::CloseParenthesis)?;
        Ok(inner)
    }

    /// `effect = eff | "<" [ eff { "," eff } ] ">"`
    fn effect(&mut self) -> Result<Vec<Effect>, Fault>
        ensures reads { ReadsPhrase (rule OfEffect) (λ es. es.items) result self.old self.new }
        ensures left { length self.new.rest.now ≤ length self.old.rest.now }
    {
        if self.next_effect().is_some() {
            let effect = self.eff()?;
            let mut effects = Vec::new(self.alloc);
            put(&mut effects, effect)?;
            return Ok(effects);
        }
        self.expect(Symbol::Less)?;
        let effects = self.effects()?;
        self.expect(Symbol::Greater)?;
        Ok(effects)
    }

    // `[ eff { "," eff } ]`
    fn effects(&mut self) -> Result<Vec<Effect>, Fault>
        ensures reads { ReadsAs (listed (rule OfEff)) listed_of (λ es. es.items) result self.old self.new }
        ensures left { length self.new.rest.now ≤ length self.old.rest.now }
    {
        let mut effects = Vec::new(self.alloc);
        if !self.next_effect().is_some() {
            return Ok(effects);
        }
        let first = self.eff()?;
        put(&mut effects, first)?;
        while self.is_at(Symbol::Comma) {
            self.advance();
            let next = self.eff()?;
            put(&mut effects, next)?;
        }
        Ok(effects)
    }

    /// `eff = "total" | "div" | "exn" | "console"`
    fn eff(&mut self) -> Result<Effect, Fault>
        ensures reads { ReadsPhrase (rule OfEff) (λ e. e) result self.old self.new }
        ensures left { length self.new.rest.now ≤ length self.old.rest.now }
    {
        match self.next_effect() {
            Some(effect) => {
                self.advance();
                Ok(effect)
            }
            None => Err(Fault::Unexpected),
        }
    }

    // Whether an effect begins with the next token.
    fn is_at_effect(&self) -> bool
        ensures { result ≡ is_at (first (rule OfEffect)) self.now.rest.now }
    {
        self.next_effect().is_some() || self.is_at(Symbol::Less)
    }

    // The effect that the next token is.
    fn next_effect(&self) -> Option<Effect>
        ensures next { is_some result ≡ is_at (first (rule OfEff)) self.now.rest.now }
        ensures class { IfSome result (λ e. is_at (class_of_effect e ∷ []) self.now.rest.now ≡ true) }
        ensures there { OnSome result (0 < length self.now.rest.now) }
    {
        match self.rest.first() {
            Some(next) => match &next.token {
                Token::Name(name) => match name_class(name.as_str()) {
                    NameClass::Effect(effect) => Some(effect),
                    _ => None,
                },
                _ => None,
            },
            None => None,
        }
    }
}
