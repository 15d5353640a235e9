ghost use Rattle.std.specs.Prelude.{◌≡◌, ◌≤◌, ◌++◌, replicate, vec_len, IfOk, OnOk, ◌*◌, length};
ghost use Rattle.kk_layout.specs.Layouts.{taken, first_place, laid_out_list};
ghost use Rattle.kk_layout.specs.Rules.{item, line_begun, first_rule, explicit_closed, second_rule, third_rule, fourth_rule};
ghost use Rattle.kk_layout.specs.Rules.{ended};
ghost use Rattle.kk_layout.specs.States.{start, symbol_at, without_innermost, closed, opened};
ghost use Rattle.kk_layout.specs.Views.{state_of};

use crate::block::{Block, above_explicit, closings, implicit_count, innermost_column};
use crate::kind::{closes_block, closes_bracket, is_ender, is_starter, opens_block, opens_bracket};
use kk_base::{NoMemory, Span};
use kk_syntax::{LocatedToken, Symbol, Token, Tokens};
use std::alloc::Global;

/// How far the layout of a text has come.
#[derive(Drop)]
pub struct Layout {
    alloc: Global,
    /// The tokens so far, those that were inserted among them.
    laid: Vec<LocatedToken>,
    /// The column of the base.
    base: u32,
    /// The blocks above the base, the innermost last.
    blocks: Vec<Block>,
    /// The number of open round brackets.
    brackets: usize,
}

impl Layout {
    /// At the first token of a text, which stands at this column. Takes no memory.
    pub fn new(alloc: Global, column: u32) -> Self
        ensures { state_of result ≡ start column }
    {
        Layout {
            alloc,
            laid: Vec::new(alloc),
            base: column,
            blocks: Vec::new(alloc),
            brackets: 0,
        }
    }

    /// Closes the innermost blocks, so many, at a place.
    #[tactic(auto, using(crate::proofs::BlockLemmas::drop_reverse))]
    fn close(&mut self, count: usize, place: Span) -> Result<(), NoMemory>
        requires { count ≤ vec_len self.old.blocks }
        ensures { OnOk result (state_of self.new ≡ closed count place (state_of self.old)) }
    {
        insert(&mut self.laid, count, Symbol::CloseBrace, place)?;
        let left = self.blocks.len() - count;
        self.blocks.truncate(left);
        Ok(())
    }

    /// Opens an implicit block at a place.
    fn open(&mut self, place: Span) -> Result<(), NoMemory>
        ensures { OnOk result (state_of self.new ≡ opened place (state_of self.old)) }
    {
        insert(&mut self.laid, 1, Symbol::OpenBrace, place)?;
        self.blocks.push(Block::Implicit(place.column))?;
        Ok(())
    }

    /// What begins with a line that closed so many blocks: a block, or the next item of the innermost one.
    fn begin_item(&mut self, closings: usize, place: Span) -> Result<(), NoMemory>
        ensures { OnOk result (state_of self.new ≡ item closings place (state_of self.old)) }
    {
        let column = innermost_column(self.base, &self.blocks);
        if closings == 0 && column < place.column {
            self.open(place)
        } else {
            insert(&mut self.laid, 1, Symbol::Semicolon, place)
        }
    }

    /// A line begins at a place. `continues` says whether it goes on with the line before.
    fn begin_line(&mut self, continues: bool, place: Span) -> Result<(), NoMemory>
        ensures { OnOk result (state_of self.new ≡ line_begun continues place (state_of self.old)) }
    {
        let closings = closings(&self.blocks, place.column);
        self.close(closings, place)?;
        if continues {
            return Ok(());
        }
        self.begin_item(closings, place)
    }

    /// Does what the begin of a line asks for, where `token` begins one behind `previous`, outside of round brackets.
    pub fn begin(&mut self, previous: &LocatedToken, token: &LocatedToken) -> Result<(), NoMemory>
        ensures { OnOk result (state_of self.new ≡ first_rule previous.now token.now (state_of self.old)) }
    {
        if previous.span.line != token.span.line && self.brackets == 0 {
            let continues = is_starter(&token.token) || is_ender(&previous.token);
            return self.begin_line(continues, token.span);
        }
        Ok(())
    }

    /// Takes the innermost block away, if there is one.
    #[tactic(auto, using(crate::proofs::BlockLemmas::drop_last))]
    fn leave_block(&mut self)
        ensures { state_of self.new ≡ without_innermost (state_of self.old) }
    {
        self.blocks.pop();
    }

    /// Closes the topmost explicit block and those above it, if there is one.
    fn close_explicit(&mut self, place: Span) -> Result<(), NoMemory>
        ensures { OnOk result (state_of self.new ≡ explicit_closed place (state_of self.old)) }
    {
        let above = above_explicit(&self.blocks);
        if above < self.blocks.len() {
            self.close(above, place)?;
            self.leave_block();
        }
        Ok(())
    }

    /// Closes the topmost explicit block, where a token is `}`.
    fn close_block(&mut self, token: &LocatedToken) -> Result<(), NoMemory>
        ensures { OnOk result (state_of self.new ≡ second_rule token.now (state_of self.old)) }
    {
        if closes_block(&token.token) {
            return self.close_explicit(token.span);
        }
        Ok(())
    }

    /// Adds an explicit block with this column, where a token is `{`.
    fn open_block(&mut self, token: &LocatedToken, column: u32) -> Result<(), NoMemory>
        ensures { OnOk result (state_of self.new ≡ third_rule token.now column (state_of self.old)) }
    {
        if opens_block(&token.token) {
            self.blocks.push(Block::Explicit(column))?;
        }
        Ok(())
    }

    /// Passes a token on, and counts the round brackets. More than can be counted do not fit in memory.
    fn pass(&mut self, token: &LocatedToken) -> Result<(), NoMemory>
        ensures { OnOk result (state_of self.new ≡ fourth_rule token.now (state_of self.old)) }
    {
        if opens_bracket(&token.token) {
            let Some(brackets) = self.brackets.checked_add(1) else {
                return Err(NoMemory);
            };
            self.brackets = brackets;
        } else if closes_bracket(&token.token) {
            self.brackets = self.brackets.saturating_sub(1);
        }
        self.laid.push(copied(self.alloc, token)?)?;
        Ok(())
    }

    /// Takes a token, with the blocks that a brace opens or closes. `column` is that of the token behind it.
    pub fn take(&mut self, token: &LocatedToken, column: u32) -> Result<(), NoMemory>
        ensures { OnOk result (state_of self.new ≡ taken token.now column (state_of self.old)) }
    {
        self.close_block(token)?;
        self.open_block(token, column)?;
        self.pass(token)
    }

    /// The tokens, with the ends of the implicit blocks at the text's end.
    pub fn finish(self, end: Span) -> Result<Vec<LocatedToken>, NoMemory>
        ensures { IfOk result (λ laid. laid.items ≡ (ended end (state_of self)).laid) }
    {
        let Layout {
            mut laid,
            blocks,
            ..
        } = self;
        insert(&mut laid, implicit_count(&blocks), Symbol::CloseBrace, end)?;
        Ok(laid)
    }
}

/// Adds a symbol so many times, at a place.
fn insert(
    laid: &mut Vec<LocatedToken>,
    count: usize,
    symbol: Symbol,
    span: Span,
) -> Result<(), NoMemory>
    ensures { OnOk result (laid.new.items ≡ laid.old.items ++ replicate count (symbol_at symbol span)) }
{
    for _ in 0..count {
        laid.push(LocatedToken {
            token: Token::Symbol(symbol),
            span,
        })?;
    }
    Ok(())
}

/// A copy of a token and its place.
pub fn copied(alloc: Global, located: &LocatedToken) -> Result<LocatedToken, NoMemory>
    ensures { IfOk result (λ copy. copy ≡ located.now) }
{
    Ok(LocatedToken {
        token: copied_token(alloc, &located.token)?,
        span: located.span,
    })
}

fn copied_token(alloc: Global, token: &Token) -> Result<Token, NoMemory>
    ensures { IfOk result (λ copy. copy ≡ token.now) }
{
    Ok(match token {
        Token::Name(name) => Token::Name(name.copied(alloc)?),
        Token::Constructor(name) => Token::Constructor(name.copied(alloc)?),
        Token::Wildcard => Token::Wildcard,
        Token::Number(number) => Token::Number(*number),
        Token::String(text) => Token::String(text.copied(alloc)?),
        Token::Keyword(keyword) => Token::Keyword(*keyword),
        Token::Symbol(symbol) => Token::Symbol(*symbol),
    })
}

/// The place of the first of some tokens, or of the text's end.
fn first_place(tokens: &[LocatedToken], end: Span) -> Span
    ensures { result ≡ first_place end tokens.now }
{
    match tokens.first() {
        Some(token) => token.span,
        None => end,
    }
}

/// The tokens of a text with the braces and semicolons that its layout stands for. What is inserted has the place of the
/// token behind it, or of the text's end.
pub fn laid_out(alloc: Global, tokens: &Tokens) -> Result<Tokens, NoMemory>
    ensures value { IfOk result (λ out. out ≡ laid_out_list tokens.now) }
    ensures few { IfOk result (λ out. length out.items ≤ 3 * length tokens.now.items) }
{
    let end = tokens.end();
    let Some((first, mut rest)) = tokens.as_slice().split_first() else {
        return Ok(Tokens::from_vec(Vec::new(alloc), end));
    };
    let mut layout = Layout::new(alloc, first.span.column);
    layout.take(first, first_place(rest, end).column)?;
    let mut previous = first;
    while let Some((token, after)) = rest.split_first() {
        layout.begin(previous, token)?;
        layout.take(token, first_place(after, end).column)?;
        previous = token;
        rest = after;
    }
    Ok(Tokens::from_vec(layout.finish(end)?, end))
}
