ghost use Rattle.std.specs.Prelude.{◌≡◌, ◌+◌, ◌<◌, ◌≤◌, ◌∷◌, [], length, IsTrue, IfOk, IfErr, OnOk};
ghost use Rattle.kk_parser.specs.Classes.{is_at, keyword as OfKeyword, symbol as OfSymbol, string as OfString, constructor as OfConstructor, wildcard as OfWildcard};
ghost use Rattle.kk_parser.specs.Grammar.{semicolons, some_semicolons, print_word, print_form};
ghost use Rattle.kk_parser.specs.Forms.{print_identifier};
ghost use Rattle.kk_parser.specs.Kinds.{keyword, symbol as symbol_kind, constructor, wildcard, number, string, classes_of};
ghost use Rattle.kk_parser.specs.Methods.{behind, Read, ReadsPhrase, ReadsFor, TakesIfNext, Deepens};
ghost use Rattle.kk_parser.specs.Phrases.{token, opener, PhraseValue};
ghost use Rattle.kk_parser.specs.declared.fault.Fault.TheVariants.{NoMemory};
ghost use Rattle.kk_parser.specs.Views.{kind_of};

use crate::fault::Fault;
use crate::name::{NameClass, Names, name_class};
use kk_base::Name;
use kk_syntax::{Identifier, Keyword, LocatedToken, PrintForm, StringLiteral, Symbol, Token};
use std::alloc::Global;

/// The most levels of nesting that may be open at once.
pub const LEVELS: usize = 200;

/// A reader of tokens.
#[derive(Drop)]
pub struct Parser<'a> {
    pub alloc: Global,
    /// The tokens that are left.
    pub rest: &'a [LocatedToken],
    /// The levels of nesting that are open before them.
    pub depth: usize,
}

impl<'a> Parser<'a> {
    /// Whether the next token is this symbol.
    pub fn is_at(&self, symbol: Symbol) -> bool
        ensures value { result ≡ is_at (OfSymbol symbol ∷ []) self.now.rest.now }
        ensures there { IsTrue result → 0 < length self.now.rest.now }
    {
        match self.rest.first() {
            Some(next) => match &next.token {
                Token::Symbol(found) => *found == symbol,
                _ => false,
            },
            None => false,
        }
    }

    /// Whether the next token is this keyword.
    pub fn is_at_keyword(&self, word: Keyword) -> bool
        ensures value { result ≡ is_at (OfKeyword word ∷ []) self.now.rest.now }
        ensures there { IsTrue result → 0 < length self.now.rest.now }
    {
        match self.rest.first() {
            Some(next) => match &next.token {
                Token::Keyword(found) => *found == word,
                _ => false,
            },
            None => false,
        }
    }

    /// Whether the next token is a name of this set.
    pub fn is_at_name(&self, names: Names) -> bool
        ensures value { result ≡ is_at (classes_of (kind_of names)) self.now.rest.now }
        ensures there { IsTrue result → 0 < length self.now.rest.now }
    {
        match self.rest.first() {
            Some(next) => match &next.token {
                Token::Name(name) => names.has(name_class(name.as_str())),
                _ => false,
            },
            None => false,
        }
    }

    /// Whether the next token is the name of a constructor.
    pub fn is_at_constructor(&self) -> bool
        ensures { result ≡ is_at (OfConstructor ∷ []) self.now.rest.now }
    {
        match self.rest.first() {
            Some(next) => match &next.token {
                Token::Constructor(_) => true,
                _ => false,
            },
            None => false,
        }
    }

    /// Whether the next token is a wildcard.
    pub fn is_at_wildcard(&self) -> bool
        ensures value { result ≡ is_at (OfWildcard ∷ []) self.now.rest.now }
        ensures there { IsTrue result → 0 < length self.now.rest.now }
    {
        match self.rest.first() {
            Some(next) => match &next.token {
                Token::Wildcard => true,
                _ => false,
            },
            None => false,
        }
    }

    /// Whether the next token is a string.
    pub fn is_at_string(&self) -> bool
        ensures { result ≡ is_at (OfString ∷ []) self.now.rest.now }
    {
        match self.rest.first() {
            Some(next) => match &next.token {
                Token::String(_) => true,
                _ => false,
            },
            None => false,
        }
    }

    /// Passes the next token.
    pub fn advance(&mut self)
        requires { 0 < length self.old.rest.now }
        ensures rest { self.new.rest.now ≡ behind self.old.rest.now }
        ensures depth { self.new.depth ≡ self.old.depth }
        ensures left { length self.new.rest.now + 1 ≡ length self.old.rest.now }
    {
        self.rest = &self.rest[1..];
    }

    /// Opens a level at the next token, and passes it.
    pub fn deepen(&mut self) -> Result<(), Fault>
        requires { 0 < length self.old.rest.now }
        ensures deepens { Deepens result self.old self.new }
        ensures left { length self.new.rest.now ≤ length self.old.rest.now }
        ensures passed { OnOk result (length self.new.rest.now + 1 ≡ length self.old.rest.now) }
    {
        if self.depth >= LEVELS {
            return Err(Fault::TooDeep);
        }
        self.depth += 1;
        self.advance();
        Ok(())
    }

    /// Passes this symbol.
    pub fn expect(&mut self, symbol: Symbol) -> Result<(), Fault>
        ensures reads { ReadsPhrase (token (symbol_kind symbol)) (λ _. tt) result self.old self.new }
        ensures left { length self.new.rest.now ≤ length self.old.rest.now }
        ensures passed { OnOk result (length self.new.rest.now + 1 ≡ length self.old.rest.now) }
    {
        if !self.is_at(symbol) {
            return Err(Fault::Unexpected);
        }
        self.advance();
        Ok(())
    }

    /// Passes this keyword.
    pub fn expect_keyword(&mut self, word: Keyword) -> Result<(), Fault>
        ensures reads { ReadsPhrase (token (keyword word)) (λ _. tt) result self.old self.new }
        ensures left { length self.new.rest.now ≤ length self.old.rest.now }
        ensures passed { OnOk result (length self.new.rest.now + 1 ≡ length self.old.rest.now) }
    {
        if !self.is_at_keyword(word) {
            return Err(Fault::Unexpected);
        }
        self.advance();
        Ok(())
    }

    /// Passes a wildcard.
    pub fn expect_wildcard(&mut self) -> Result<(), Fault>
        ensures reads { ReadsPhrase (token wildcard) (λ _. tt) result self.old self.new }
        ensures left { length self.new.rest.now ≤ length self.old.rest.now }
    {
        if !self.is_at_wildcard() {
            return Err(Fault::Unexpected);
        }
        self.advance();
        Ok(())
    }

    /// Passes this symbol, which opens a level.
    pub fn open(&mut self, symbol: Symbol) -> Result<(), Fault>
        ensures reads { ReadsPhrase (opener (symbol_kind symbol)) (λ _. tt) result self.old self.new }
        ensures left { length self.new.rest.now ≤ length self.old.rest.now }
        ensures passed { OnOk result (length self.new.rest.now + 1 ≡ length self.old.rest.now) }
    {
        if !self.is_at(symbol) {
            return Err(Fault::Unexpected);
        }
        self.deepen()
    }

    /// Passes this keyword, which opens a level.
    pub fn open_keyword(&mut self, word: Keyword) -> Result<(), Fault>
        ensures reads { ReadsPhrase (opener (keyword word)) (λ _. tt) result self.old self.new }
        ensures left { length self.new.rest.now ≤ length self.old.rest.now }
        ensures passed { OnOk result (length self.new.rest.now + 1 ≡ length self.old.rest.now) }
    {
        if !self.is_at_keyword(word) {
            return Err(Fault::Unexpected);
        }
        self.deepen()
    }

    /// Passes semicolons, if there are any.
    pub fn skip_semicolons(&mut self)
        ensures reads { (v : PhraseValue semicolons) × Read semicolons v self.old self.new }
        ensures depth { self.new.depth ≡ self.old.depth }
        ensures left { length self.new.rest.now ≤ length self.old.rest.now }
    {
        while self.is_at(Symbol::Semicolon) {
            self.advance();
        }
    }

    /// Passes semicolons, at least one.
    pub fn some_semicolons(&mut self) -> Result<(), Fault>
        ensures reads { ReadsFor some_semicolons (λ _. tt) result self.old self.new }
        ensures left { length self.new.rest.now ≤ length self.old.rest.now }
    {
        self.expect(Symbol::Semicolon)?;
        self.skip_semicolons();
        Ok(())
    }

    /// A name of this set, with the byte where it stands.
    pub fn identifier(&mut self, names: Names) -> Result<Identifier, Fault>
        ensures reads { ReadsPhrase (token (kind_of names)) (λ i. i) result self.old self.new }
        ensures left { length self.new.rest.now ≤ length self.old.rest.now }
    {
        match self.rest.first() {
            Some(next) => match &next.token {
                Token::Name(name) => {
                    if !names.has(name_class(name.as_str())) {
                        return Err(Fault::Unexpected);
                    }
                    self.take_name(name, next.span.at)
                }
                _ => Err(Fault::Unexpected),
            },
            None => Err(Fault::Unexpected),
        }
    }

    /// The name of a constructor, with the byte where it stands.
    pub fn constructor(&mut self) -> Result<Identifier, Fault>
        ensures reads { ReadsPhrase (token constructor) (λ i. i) result self.old self.new }
        ensures left { length self.new.rest.now ≤ length self.old.rest.now }
    {
        match self.rest.first() {
            Some(next) => match &next.token {
                Token::Constructor(name) => self.take_name(name, next.span.at),
                _ => Err(Fault::Unexpected),
            },
            None => Err(Fault::Unexpected),
        }
    }

    // Passes the next token, and gives a copy of its name.
    fn take_name(&mut self, name: &Name, at: u32) -> Result<Identifier, Fault>
        requires { 0 < length self.old.rest.now }
        ensures copied { IfOk result (λ i. i ≡ record { name = name.now; at = at }) }
        ensures rest { OnOk result (self.new.rest.now ≡ behind self.old.rest.now) }
        ensures depth { self.new.depth ≡ self.old.depth }
        ensures left { length self.new.rest.now ≤ length self.old.rest.now }
        ensures fault { IfErr result (λ fault. fault ≡ NoMemory) }
    {
        let name = name.copied(self.alloc)?;
        self.advance();
        Ok(Identifier { name, at })
    }

    /// `"print" | "println"`, with the name itself.
    pub fn print_word(&mut self) -> Result<(PrintForm, Identifier), Fault>
        ensures reads { ReadsFor print_word (λ word. (print_form word, print_identifier word)) result self.old self.new }
        ensures left { length self.new.rest.now ≤ length self.old.rest.now }
    {
        match self.rest.first() {
            Some(next) => match &next.token {
                Token::Name(name) => {
                    let form = match name_class(name.as_str()) {
                        NameClass::Print => PrintForm::Print,
                        NameClass::PrintLine => PrintForm::PrintLine,
                        _ => return Err(Fault::Unexpected),
                    };
                    let name = self.take_name(name, next.span.at)?;
                    Ok((form, name))
                }
                _ => Err(Fault::Unexpected),
            },
            None => Err(Fault::Unexpected),
        }
    }

    /// A copy of a string.
    pub fn string(&mut self) -> Result<StringLiteral, Fault>
        ensures reads { ReadsPhrase (token string) (λ v. v) result self.old self.new }
        ensures left { length self.new.rest.now ≤ length self.old.rest.now }
    {
        match self.rest.first() {
            Some(next) => match &next.token {
                Token::String(text) => {
                    let text = text.copied(self.alloc)?;
                    self.advance();
                    Ok(text)
                }
                _ => Err(Fault::Unexpected),
            },
            None => Err(Fault::Unexpected),
        }
    }

    /// A number, where one is next.
    pub fn number(&mut self) -> Option<i32>
        ensures takes { TakesIfNext (token number) result self.old self.new }
        ensures left { length self.new.rest.now ≤ length self.old.rest.now }
    {
        match self.rest.first() {
            Some(next) => match &next.token {
                Token::Number(value) => {
                    let value = *value;
                    self.advance();
                    Some(value)
                }
                _ => None,
            },
            None => None,
        }
    }
}
