ghost use Rattle.std.specs.Prelude.{◌≡◌, ◌+◌, ◌≤◌, map, length, IfSome, IfOk, IsSome};
ghost use Rattle.kk_syntax.specs.Surface.{written_expr, unit as OfUnit, construct as OfConstruct, writtens_of};
ghost use Rattle.kk_parser.specs.Classes.{is_at};
ghost use Rattle.kk_parser.specs.Depths.{IsNoDeeper, AreNoDeeper};
ghost use Rattle.kk_parser.specs.Forms.{branches, branches_of, in_brackets, inside, spoken as OfSpoken, spoken_of};
ghost use Rattle.kk_parser.specs.Forms.{printed as OfPrinted, printed_of};
ghost use Rattle.kk_parser.specs.Grammar.{arguments_of, arguments_given, bracketed, named_of, no_arguments};
ghost use Rattle.kk_parser.specs.Grammar.{comparison, comparison_of, sum_operator, sum_operator_of, product_operator};
ghost use Rattle.kk_parser.specs.Grammar.{product_operator_of, unary_operator, unary_operator_of};
ghost use Rattle.kk_parser.specs.Kinds.{constructor, name_but_print};
ghost use Rattle.kk_parser.specs.Methods.{ReadsPhrase, ReadsFor, ReadsAs, ReadsIfNext};
ghost use Rattle.kk_parser.specs.Phrases.{token, optional, ◌▸◌, rule, expr as OfExpr, if_ as OfIf, or as OfOr, and as OfAnd};
ghost use Rattle.kk_parser.specs.Phrases.{cmp as OfCmp, add as OfAdd, mul as OfMul, un as OfUn, post as OfPost, atom as OfAtom};
ghost use Rattle.kk_parser.specs.Phrases.{args as OfArgs};
ghost use Rattle.kk_parser.specs.Reading.{expr_first, is_quoted};
ghost use Rattle.kk_parser.specs.Views.{arguments_view, boxed_expr};

use crate::fault::Fault;
use crate::made::{
    binary, both, branch, branch_alone, call, construct, dot_call, either, number, print_text, put,
    unary, unit, variable,
};
use crate::name::Names;
use crate::parser::Parser;
use kk_syntax::{BinaryOperator, Keyword, SurfaceExpr, Symbol, Token, UnaryOperator};

impl<'a> Parser<'a> {
    /// `expr = block | if | match | or`: the levels end that it opens.
    #[cycle(expr)]
    pub fn expr(&mut self) -> Result<Box<SurfaceExpr>, Fault>
        ensures reads { ReadsPhrase (rule OfExpr) boxed_expr result self.old self.new }
        ensures left { length self.new.rest.now ≤ length self.old.rest.now }
        ensures depth { IfOk result (λ e. IsNoDeeper e.value) }
    {
        let depth = self.depth;
        if self.is_at(Symbol::OpenBrace) {
            let value = self.block()?;
            self.depth = depth;
            return Ok(value);
        }
        if self.is_at_keyword(Keyword::If) {
            let value = self.if_()?;
            self.depth = depth;
            return Ok(value);
        }
        if self.is_at_keyword(Keyword::Match) {
            let value = self.match_()?;
            self.depth = depth;
            return Ok(value);
        }
        let value = self.or()?;
        self.depth = depth;
        Ok(value)
    }

    /// `if = "if" or "then" expr { "elif" or "then" expr } [ "else" expr ]`
    #[cycle(expr)]
    fn if_(&mut self) -> Result<Box<SurfaceExpr>, Fault>
        ensures reads { ReadsPhrase (rule OfIf) boxed_expr result self.old self.new }
        ensures left { length self.new.rest.now ≤ length self.old.rest.now }
        ensures depth { IfOk result (λ e. IsNoDeeper e.value) }
    {
        self.open_keyword(Keyword::If)?;
        self.branches()
    }

    // What stands behind `if` or `elif`. The next `elif` is an `if` in the branch of `else`.
    #[cycle(expr)]
    fn branches(&mut self) -> Result<Box<SurfaceExpr>, Fault>
        ensures reads { ReadsAs branches branches_of boxed_expr result self.old self.new }
        ensures left { length self.new.rest.now ≤ length self.old.rest.now }
        ensures depth { IfOk result (λ e. IsNoDeeper e.value) }
    {
        let condition = self.or()?;
        self.expect_keyword(Keyword::Then)?;
        let positive = self.expr()?;
        if self.is_at_keyword(Keyword::Elif) {
            self.deepen()?;
            let negative = self.branches()?;
            return branch(self.alloc, condition, positive, negative);
        }
        if self.is_at_keyword(Keyword::Else) {
            self.advance();
            let negative = self.expr()?;
            return branch(self.alloc, condition, positive, negative);
        }
        branch_alone(self.alloc, condition, positive)
    }

    /// `or = and [ "||" or ]`
    #[cycle(expr)]
    pub fn or(&mut self) -> Result<Box<SurfaceExpr>, Fault>
        ensures reads { ReadsPhrase (rule OfOr) boxed_expr result self.old self.new }
        ensures left { length self.new.rest.now ≤ length self.old.rest.now }
        ensures depth { IfOk result (λ e. IsNoDeeper e.value) }
    {
        let left = self.and()?;
        if !self.is_at(Symbol::OrOr) {
            return Ok(left);
        }
        self.open(Symbol::OrOr)?;
        let right = self.or()?;
        either(self.alloc, left, right)
    }

    /// `and = cmp [ "&&" and ]`
    #[cycle(expr)]
    fn and(&mut self) -> Result<Box<SurfaceExpr>, Fault>
        ensures reads { ReadsPhrase (rule OfAnd) boxed_expr result self.old self.new }
        ensures left { length self.new.rest.now ≤ length self.old.rest.now }
        ensures depth { IfOk result (λ e. IsNoDeeper e.value) }
    {
        let left = self.cmp()?;
        if !self.is_at(Symbol::AndAnd) {
            return Ok(left);
        }
        self.open(Symbol::AndAnd)?;
        let right = self.and()?;
        both(self.alloc, left, right)
    }

    /// `cmp = add [ ( "==" | "!=" | "<" | "<=" | ">" | ">=" ) add ]`
    #[cycle(expr)]
    fn cmp(&mut self) -> Result<Box<SurfaceExpr>, Fault>
        ensures reads { ReadsPhrase (rule OfCmp) boxed_expr result self.old self.new }
        ensures left { length self.new.rest.now ≤ length self.old.rest.now }
        ensures depth { IfOk result (λ e. IsNoDeeper e.value) }
    {
        let left = self.add()?;
        let Some(operator) = self.comparison()? else {
            return Ok(left);
        };
        let right = self.add()?;
        binary(self.alloc, operator, left, right)
    }

    /// `add = mul { ( "+" | "-" ) mul }`, to the left.
    #[cycle(expr)]
    fn add(&mut self) -> Result<Box<SurfaceExpr>, Fault>
        ensures reads { ReadsPhrase (rule OfAdd) boxed_expr result self.old self.new }
        ensures left { length self.new.rest.now ≤ length self.old.rest.now }
        ensures depth { IfOk result (λ e. IsNoDeeper e.value) }
    {
        let mut left = self.mul()?;
        while let Some(operator) = self.sum_operator()? {
            let right = self.mul()?;
            left = binary(self.alloc, operator, left, right)?;
        }
        Ok(left)
    }

    /// `mul = un { ( "*" | "/" | "%" ) un }`, to the left.
    #[cycle(expr)]
    fn mul(&mut self) -> Result<Box<SurfaceExpr>, Fault>
        ensures reads { ReadsPhrase (rule OfMul) boxed_expr result self.old self.new }
        ensures left { length self.new.rest.now ≤ length self.old.rest.now }
        ensures depth { IfOk result (λ e. IsNoDeeper e.value) }
    {
        let mut left = self.un()?;
        while let Some(operator) = self.product_operator()? {
            let right = self.un()?;
            left = binary(self.alloc, operator, left, right)?;
        }
        Ok(left)
    }

    /// `un = ( "!" | "~" ) un | post`
    #[cycle(expr)]
    fn un(&mut self) -> Result<Box<SurfaceExpr>, Fault>
        ensures reads { ReadsPhrase (rule OfUn) boxed_expr result self.old self.new }
        ensures left { length self.new.rest.now ≤ length self.old.rest.now }
        ensures depth { IfOk result (λ e. IsNoDeeper e.value) }
    {
        let Some(operator) = self.unary_operator()? else {
            return self.post();
        };
        let operand = self.un()?;
        unary(self.alloc, operator, operand)
    }

    /// `post = atom { "." name [ "(" args ")" ] }`, to the left.
    #[cycle(expr)]
    fn post(&mut self) -> Result<Box<SurfaceExpr>, Fault>
        ensures reads { ReadsPhrase (rule OfPost) boxed_expr result self.old self.new }
        ensures left { length self.new.rest.now ≤ length self.old.rest.now }
        ensures depth { IfOk result (λ e. IsNoDeeper e.value) }
    {
        let mut first = self.atom()?;
        while self.is_at(Symbol::Dot) {
            self.open(Symbol::Dot)?;
            let name = self.identifier(Names::All)?;
            let given = self.arguments()?;
            let others = match given {
                Some(others) => others,
                None => Vec::new(self.alloc),
            };
            first = dot_call(self.alloc, first, name, others)?;
        }
        Ok(first)
    }

    /// `atom = name [ "(" args ")" ] | Con [ "(" args ")" ] | number | "(" ")" | "(" expr ")" | say`
    #[cycle(expr)]
    fn atom(&mut self) -> Result<Box<SurfaceExpr>, Fault>
        ensures reads { ReadsPhrase (rule OfAtom) boxed_expr result self.old self.new }
        ensures left { length self.new.rest.now ≤ length self.old.rest.now }
        ensures depth { IfOk result (λ e. IsNoDeeper e.value) }
    {
        if let Some(value) = self.number() {
            return number(self.alloc, value);
        }
        if self.is_at_constructor() {
            return self.constructed();
        }
        if self.is_at(Symbol::OpenParenthesis) {
            return self.in_brackets();
        }
        if self.is_at_string() {
            return self.spoken();
        }
        if self.is_at_name(Names::Prints) {
            return self.printed();
        }
        self.named()
    }

    // `"(" ")" | "(" expr ")"`
    #[cycle(expr)]
    fn in_brackets(&mut self) -> Result<Box<SurfaceExpr>, Fault>
        ensures reads { ReadsAs (in_brackets (rule OfExpr)) (inside OfUnit (λ e. e)) boxed_expr result self.old self.new }
        ensures left { length self.new.rest.now ≤ length self.old.rest.now }
        ensures depth { IfOk result (λ e. IsNoDeeper e.value) }
    {
        self.open(Symbol::OpenParenthesis)?;
        if self.is_at(Symbol::CloseParenthesis) {
            self.advance();
            return unit(self.alloc);
        }
        let inner = self.expr()?;
        self.expect(Symbol::CloseParenthesis)?;
        Ok(inner)
    }

    // `string "." ( "print" | "println" ) [ "(" ")" ]`
    fn spoken(&mut self) -> Result<Box<SurfaceExpr>, Fault>
        ensures reads { ReadsAs OfSpoken spoken_of boxed_expr result self.old self.new }
        ensures left { length self.new.rest.now ≤ length self.old.rest.now }
        ensures depth { IfOk result (λ e. IsNoDeeper e.value) }
    {
        let text = self.string()?;
        self.open(Symbol::Dot)?;
        let (form, _) = self.print_word()?;
        self.no_arguments()?;
        print_text(self.alloc, form, text)
    }

    // `[ "(" ")" ]`
    fn no_arguments(&mut self) -> Result<(), Fault>
        ensures reads { ReadsFor (optional no_arguments) (λ _. tt) result self.old self.new }
        ensures left { length self.new.rest.now ≤ length self.old.rest.now }
    {
        if !self.is_at(Symbol::OpenParenthesis) {
            return Ok(());
        }
        self.open(Symbol::OpenParenthesis)?;
        self.expect(Symbol::CloseParenthesis)?;
        Ok(())
    }

    // A print's name, and what stands behind it: `[ "(" ( string ")" | args ")" ) ]`
    #[cycle(expr)]
    fn printed(&mut self) -> Result<Box<SurfaceExpr>, Fault>
        ensures reads { ReadsAs OfPrinted printed_of boxed_expr result self.old self.new }
        ensures left { length self.new.rest.now ≤ length self.old.rest.now }
        ensures depth { IfOk result (λ e. IsNoDeeper e.value) }
    {
        let (form, name) = self.print_word()?;
        if !self.is_at(Symbol::OpenParenthesis) {
            return variable(self.alloc, name);
        }
        self.open(Symbol::OpenParenthesis)?;
        if self.is_at_quoted() {
            let text = self.string()?;
            self.expect(Symbol::CloseParenthesis)?;
            return print_text(self.alloc, form, text);
        }
        let arguments = self.args()?;
        self.expect(Symbol::CloseParenthesis)?;
        call(self.alloc, name, arguments)
    }

    // Whether a string is next, and no dot behind it.
    fn is_at_quoted(&self) -> bool
        ensures { result ≡ is_quoted self.now.rest.now }
    {
        let Some((next, behind)) = self.rest.split_first() else {
            return false;
        };
        let is_string = match &next.token {
            Token::String(_) => true,
            _ => false,
        };
        let is_dot = match behind.first() {
            Some(next) => match &next.token {
                Token::Symbol(symbol) => *symbol == Symbol::Dot,
                _ => false,
            },
            None => false,
        };
        is_string && !is_dot
    }

    // Another name, and arguments in brackets or none.
    #[cycle(expr)]
    fn named(&mut self) -> Result<Box<SurfaceExpr>, Fault>
        ensures reads { ReadsAs (token name_but_print ▸ optional (bracketed (rule OfArgs))) (λ v. named_of v.0 v.1) boxed_expr result self.old self.new }
        ensures left { length self.new.rest.now ≤ length self.old.rest.now }
        ensures depth { IfOk result (λ e. IsNoDeeper e.value) }
    {
        let name = self.identifier(Names::ButPrints)?;
        match self.arguments()? {
            Some(arguments) => call(self.alloc, name, arguments),
            None => variable(self.alloc, name),
        }
    }

    // `Con [ "(" args ")" ]`
    #[cycle(expr)]
    fn constructed(&mut self) -> Result<Box<SurfaceExpr>, Fault>
        ensures reads { ReadsAs (token constructor ▸ optional (bracketed (rule OfArgs))) (λ v. OfConstruct v.0 (writtens_of (arguments_of v.1))) boxed_expr result self.old self.new }
        ensures left { length self.new.rest.now ≤ length self.old.rest.now }
        ensures depth { IfOk result (λ e. IsNoDeeper e.value) }
    {
        let name = self.constructor()?;
        match self.arguments()? {
            Some(arguments) => construct(self.alloc, name, arguments),
            None => construct(self.alloc, name, Vec::new(self.alloc)),
        }
    }

    // `[ "(" args ")" ]`
    #[cycle(expr)]
    fn arguments(&mut self) -> Result<Option<Vec<SurfaceExpr>>, Fault>
        ensures reads { ReadsAs (optional (bracketed (rule OfArgs))) arguments_given arguments_view result self.old self.new }
        ensures left { length self.new.rest.now ≤ length self.old.rest.now }
        ensures depth { IfOk result (λ given. IfSome given (λ es. AreNoDeeper es.items)) }
    {
        if !self.is_at(Symbol::OpenParenthesis) {
            return Ok(None);
        }
        self.open(Symbol::OpenParenthesis)?;
        let arguments = self.args()?;
        self.expect(Symbol::CloseParenthesis)?;
        Ok(Some(arguments))
    }

    /// `args = [ expr { "," expr } ]`
    #[cycle(expr)]
    fn args(&mut self) -> Result<Vec<SurfaceExpr>, Fault>
        ensures reads { ReadsPhrase (rule OfArgs) (λ es. map written_expr es.items) result self.old self.new }
        ensures left { length self.new.rest.now ≤ length self.old.rest.now }
        ensures depth { IfOk result (λ es. AreNoDeeper es.items) }
    {
        let mut arguments = Vec::new(self.alloc);
        if !self.is_at_expr() {
            return Ok(arguments);
        }
        let first = self.expr()?;
        put(&mut arguments, Box::into_inner(first))?;
        while self.is_at(Symbol::Comma) {
            self.advance();
            let next = self.expr()?;
            put(&mut arguments, Box::into_inner(next))?;
        }
        Ok(arguments)
    }

    /// Whether an expression begins with the next token.
    pub fn is_at_expr(&self) -> bool
        ensures { result ≡ is_at expr_first self.now.rest.now }
    {
        match self.rest.first() {
            Some(next) => match &next.token {
                Token::Name(_) | Token::Constructor(_) | Token::Number(_) | Token::String(_) => {
                    true
                }
                Token::Keyword(word) => matches!(word, Keyword::If | Keyword::Match),
                Token::Symbol(symbol) => matches!(
                    symbol,
                    Symbol::OpenBrace
                        | Symbol::OpenParenthesis
                        | Symbol::Exclamation
                        | Symbol::Tilde
                ),
                Token::Wildcard => false,
            },
            None => false,
        }
    }
}

impl<'a> Parser<'a> {
    /// `"==" | "!=" | "<" | "<=" | ">" | ">="`, where one is next. It opens a level.
    pub fn comparison(&mut self) -> Result<Option<BinaryOperator>, Fault>
        ensures reads { ReadsIfNext comparison comparison_of result self.old self.new }
        ensures left { length self.new.rest.now ≤ length self.old.rest.now }
        ensures passed { IfOk result (λ found. IsSome found → length self.new.rest.now + 1 ≡ length self.old.rest.now) }
    {
        if self.is_at(Symbol::EqualEqual) {
            self.deepen()?;
            return Ok(Some(BinaryOperator::Equal));
        }
        if self.is_at(Symbol::NotEqual) {
            self.deepen()?;
            return Ok(Some(BinaryOperator::NotEqual));
        }
        if self.is_at(Symbol::Less) {
            self.deepen()?;
            return Ok(Some(BinaryOperator::Less));
        }
        if self.is_at(Symbol::LessEqual) {
            self.deepen()?;
            return Ok(Some(BinaryOperator::LessEqual));
        }
        if self.is_at(Symbol::Greater) {
            self.deepen()?;
            return Ok(Some(BinaryOperator::Greater));
        }
        if self.is_at(Symbol::GreaterEqual) {
            self.deepen()?;
            return Ok(Some(BinaryOperator::GreaterEqual));
        }
        Ok(None)
    }

    /// `"+" | "-"`, where one is next. It opens a level.
    pub fn sum_operator(&mut self) -> Result<Option<BinaryOperator>, Fault>
        ensures reads { ReadsIfNext sum_operator sum_operator_of result self.old self.new }
        ensures left { length self.new.rest.now ≤ length self.old.rest.now }
        ensures passed { IfOk result (λ found. IsSome found → length self.new.rest.now + 1 ≡ length self.old.rest.now) }
    {
        if self.is_at(Symbol::Plus) {
            self.deepen()?;
            return Ok(Some(BinaryOperator::Add));
        }
        if self.is_at(Symbol::Minus) {
            self.deepen()?;
            return Ok(Some(BinaryOperator::Subtract));
        }
        Ok(None)
    }

    /// `"*" | "/" | "%"`, where one is next. It opens a level.
    pub fn product_operator(&mut self) -> Result<Option<BinaryOperator>, Fault>
        ensures reads { ReadsIfNext product_operator product_operator_of result self.old self.new }
        ensures left { length self.new.rest.now ≤ length self.old.rest.now }
        ensures passed { IfOk result (λ found. IsSome found → length self.new.rest.now + 1 ≡ length self.old.rest.now) }
    {
        if self.is_at(Symbol::Star) {
            self.deepen()?;
            return Ok(Some(BinaryOperator::Multiply));
        }
        if self.is_at(Symbol::Slash) {
            self.deepen()?;
            return Ok(Some(BinaryOperator::Divide));
        }
        if self.is_at(Symbol::Percent) {
            self.deepen()?;
            return Ok(Some(BinaryOperator::Remainder));
        }
        Ok(None)
    }

    /// `"!" | "~"`, where one is next. It opens a level.
    pub fn unary_operator(&mut self) -> Result<Option<UnaryOperator>, Fault>
        ensures reads { ReadsIfNext unary_operator unary_operator_of result self.old self.new }
        ensures left { length self.new.rest.now ≤ length self.old.rest.now }
        ensures passed { IfOk result (λ found. IsSome found → length self.new.rest.now + 1 ≡ length self.old.rest.now) }
    {
        if self.is_at(Symbol::Exclamation) {
            self.deepen()?;
            return Ok(Some(UnaryOperator::Not));
        }
        if self.is_at(Symbol::Tilde) {
            self.deepen()?;
            return Ok(Some(UnaryOperator::Negate));
        }
        Ok(None)
    }
}
