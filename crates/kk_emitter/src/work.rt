ghost use Rattle.std.specs.Prelude.{◌≡◌, ◌+◌, ◌<◌, ◌^◌, ◌∷◌, ◌++◌, [], length, map, vec_len, vec_capacity, IfOk, OnOk, OnErr};
ghost use Rattle.kk_syntax.specs.Shapes.{without};
ghost use Rattle.kk_counted.specs.Spending.{numbers_from};
ghost use Rattle.kk_counted.specs.TokenedForms.{TokenedMove, tokened_move, opens_with, fills_with};
ghost use Rattle.kk_counted.specs.VariableLists.{minus_all};
ghost use Rattle.kk_emitter.specs.Drafts.{chosen_of, given, duplicated, dropped, computed, opened, read_of};
ghost use Rattle.kk_emitter.specs.TokenDrafts.{adds, gains, spends, next_slot, under_holds, reads_with};
ghost use Rattle.kk_emitter.specs.Works.{Becomes, token_draft, used_at};

use crate::lists::{chosen, lent_fields, numbers, take_out, take_used};
use crate::steps::{computing, newest_first, next_slot, reading, take_slot, under_holds};
use kk_base::NoMemory;
use kk_core::Decisions;
use kk_counted::{Parameter, TokenedLast, TokenedStep, filling_step, opening_step};
use kk_syntax::Form;
use std::alloc::Global;

/// An arm that is ended.
#[derive(Drop)]
pub struct TokenArm {
    pub steps: Vec<TokenedStep>,
    pub last: TokenedLast,
    /// The slots of the tokens that it leaves to the code behind the branch, the newest last.
    pub spare: Vec<u32>,
}

/// A branch that is not joined.
#[derive(Drop)]
pub struct Fork {
    pub on: u32,
    pub tests: Decisions,
    /// The steps of the block before the branch.
    pub before: Vec<TokenedStep>,
    /// How many variables the block is lent.
    pub lent: usize,
    /// What the block owns besides.
    pub kept: Vec<u32>,
    /// What each arm is to spend.
    pub each: Vec<u32>,
    /// The same list for each arm that is not entered.
    pub left: Vec<Vec<u32>>,
    /// The slots of the tokens that each arm is to spend, the newest last.
    pub spare: Vec<u32>,
    /// The same list for each arm that is not entered.
    pub spare_left: Vec<Vec<u32>>,
    /// The arms that are ended.
    pub arms: Vec<TokenArm>,
    /// Whether one of them ends by a tail call.
    pub tails: bool,
}

/// What an emitter has written of a function, and what it owes.
#[derive(Drop)]
pub struct Work {
    pub alloc: Global,
    pub instance: u32,
    /// The number of the function's parameters.
    pub parameters: u32,
    /// The number of the next variable.
    pub next: u32,
    /// Whether a call has found no memory.
    pub failed: bool,
    /// Whether a block is written.
    pub inside: bool,
    /// The steps of that block.
    pub steps: Vec<TokenedStep>,
    /// The variables that it owns.
    pub owed: Vec<u32>,
    /// The owned parameters that are not called yet.
    pub uncalled: Vec<u32>,
    /// The variables that it is lent: lent parameters, and fields of cells that lent variables name.
    pub lent: Vec<u32>,
    /// The slots of the unspent tokens, the newest last.
    pub spare: Vec<u32>,
    /// The branches that are not joined, the newest last.
    pub forks: Vec<Fork>,
    /// How the block ends, once a branch with tail calls is joined.
    pub ending: Option<TokenedLast>,
}

impl Work {
    /// An owned parameter is called.
    pub fn give(&mut self, variable: u32) -> Result<(), NoMemory>
        ensures ok { OnOk result (Becomes self.old self.new (λ d. given d variable)) }
        ensures err { OnErr result (Becomes self.old self.new (λ d. d)) }
        ensures tokens { token_draft self.new ≡ token_draft self.old }
    {
        self.owed.push(variable)?;
        take_out(&mut self.uncalled, variable);
        Ok(())
    }

    /// Writes that a variable gets a reference more.
    pub fn dup(&mut self, variable: u32) -> Result<(), NoMemory>
        ensures ok { OnOk result (Becomes self.old self.new (λ d. duplicated d variable)) }
        ensures tokens { OnOk result (token_draft self.new ≡ adds (token_draft self.old) (TokenedMove.dups variable ∷ [])) }
        ensures err { OnErr result (Becomes self.old self.new (λ d. d)) }
        ensures unwritten { OnErr result (token_draft self.new ≡ token_draft self.old) }
    {
        self.owed.reserve(1)?;
        self.steps.push(TokenedStep::Dup { variable })?;
        self.owed.push_reserved(variable);
        Ok(())
    }

    /// Writes that a reference of a variable is given up.
    pub fn give_up(&mut self, variable: u32) -> Result<(), NoMemory>
        ensures ok { OnOk result (Becomes self.old self.new (λ d. dropped d variable)) }
        ensures tokens { OnOk result (token_draft self.new ≡ adds (token_draft self.old) (TokenedMove.drops variable ∷ [])) }
        ensures err { OnErr result (Becomes self.old self.new (λ d. d)) }
        ensures unwritten { OnErr result (token_draft self.new ≡ token_draft self.old) }
    {
        self.steps.push(TokenedStep::Drop { variable })?;
        take_out(&mut self.owed, variable);
        Ok(())
    }

    /// Writes that the cell of the token in a slot is freed.
    pub fn release(&mut self, slot: u32) -> Result<(), NoMemory>
        ensures same { Becomes self.old self.new (λ d. d) }
        ensures tokens { OnOk result (token_draft self.new ≡ spends (token_draft self.old) (TokenedMove.frees slot) slot) }
        ensures unwritten { OnErr result (token_draft self.new ≡ token_draft self.old) }
    {
        self.steps.push(TokenedStep::Free { slot })?;
        take_slot(&mut self.spare, slot);
        Ok(())
    }

    /// Writes a form on variables, and gives the variable that takes its value. The arguments at positions that are not
    /// lent are used up.
    pub fn compute(
        &mut self,
        form: Form,
        arguments: &[u32],
        parameters: &[Parameter],
    ) -> Result<u32, NoMemory>
        ensures variable { IfOk result (λ variable. variable ≡ self.old.next) }
        ensures ok { OnOk result (Becomes self.old self.new (λ d. computed d form arguments.now (used_at parameters.now arguments.now))) }
        ensures tokens { OnOk result (token_draft self.new ≡ adds (token_draft self.old) (TokenedMove.computes self.old.next form arguments.now (token_draft self.old).spare ∷ [])) }
        ensures err { OnErr result (Becomes self.old self.new (λ d. d)) }
        ensures unwritten { OnErr result (token_draft self.new ≡ token_draft self.old) }
    {
        self.make_room()?;
        let step = computing(self.alloc, self.next, form, arguments, &self.spare)?;
        self.steps.push(step)?;
        Ok(self.use_up(arguments, parameters))
    }

    /// Writes a call of an instance on variables, under the unspent tokens: they are held before it and taken back behind it.
    pub fn call(
        &mut self,
        instance: u32,
        arguments: &[u32],
        parameters: &[Parameter],
    ) -> Result<u32, NoMemory>
        ensures variable { IfOk result (λ variable. variable ≡ self.old.next) }
        ensures ok { OnOk result (Becomes self.old self.new (λ d. computed d (Form.Call instance) arguments.now (used_at parameters.now arguments.now))) }
        ensures tokens { OnOk result (token_draft self.new ≡ adds (token_draft self.old) (under_holds (token_draft self.old).spare (TokenedMove.computes self.old.next (Form.Call instance) arguments.now (token_draft self.old).spare))) }
        ensures err { OnErr result (Becomes self.old self.new (λ d. d)) }
        ensures unwritten { OnErr result (token_draft self.new ≡ token_draft self.old) }
    {
        self.make_room()?;
        let mut steps = self.calling(instance, arguments)?;
        self.steps.append(&mut steps)?;
        Ok(self.use_up(arguments, parameters))
    }

    // The steps of a call under the unspent tokens.
    fn calling(&self, instance: u32, arguments: &[u32]) -> Result<Vec<TokenedStep>, NoMemory>
        ensures { IfOk result (λ steps. map tokened_move steps.items ≡ under_holds (token_draft self.now).spare (TokenedMove.computes self.now.next (Form.Call instance) arguments.now (token_draft self.now).spare)) }
    {
        let call = computing(
            self.alloc,
            self.next,
            Form::Call(instance),
            arguments,
            &self.spare,
        )?;
        under_holds(self.alloc, call, &self.spare)
    }

    /// Writes that a cell is built in the cell of the token in a slot, which has the fields at the kept positions already.
    pub fn fill(
        &mut self,
        slot: u32,
        constructor: u32,
        arguments: &[u32],
        kept: Vec<u32>,
    ) -> Result<u32, NoMemory>
        requires { 0 < length arguments.now }
        ensures variable { IfOk result (λ variable. variable ≡ self.old.next) }
        ensures ok { OnOk result (Becomes self.old self.new (λ d. computed d (Form.Construct constructor) arguments.now arguments.now)) }
        ensures tokens { OnOk result (token_draft self.new ≡ spends (token_draft self.old) (fills_with self.old.next slot constructor arguments.now kept.items (without (slot ∷ []) (token_draft self.old).spare)) slot) }
        ensures err { OnErr result (Becomes self.old self.new (λ d. d)) }
        ensures unwritten { OnErr result (token_draft self.new ≡ token_draft self.old) }
    {
        self.make_room()?;
        let step = self.filling(slot, constructor, arguments, kept)?;
        self.steps.push(step)?;
        take_slot(&mut self.spare, slot);
        Ok(self.use_up(arguments, &[]))
    }

    // The step that builds the next variable's cell in the cell of a token. It names the other tokens, the newest first.
    fn filling(
        &self,
        slot: u32,
        constructor: u32,
        arguments: &[u32],
        kept: Vec<u32>,
    ) -> Result<TokenedStep, NoMemory>
        requires { 0 < length arguments.now }
        ensures { IfOk result (λ step. tokened_move step ≡ fills_with self.now.next slot constructor arguments.now kept.items (without (slot ∷ []) (token_draft self.now).spare)) }
    {
        let mut others = newest_first(self.alloc, &self.spare)?;
        take_slot(&mut others, slot);
        filling_step(
            self.alloc,
            self.next,
            slot,
            constructor,
            arguments,
            kept,
            others,
        )
    }

    // Makes room for the variable that takes a value.
    fn make_room(&mut self) -> Result<(), NoMemory>
        ensures same { self.new ≡ record self.old { owed = self.new.owed } }
        ensures owed { self.new.owed.items ≡ self.old.owed.items }
        ensures room { OnOk result (vec_len self.new.owed < vec_capacity self.new.owed) }
        ensures next { OnOk result (self.new.next + 1 < 2 ^ 32) }
    {
        if self.next == u32::MAX {
            return Err(NoMemory);
        }
        self.owed.reserve(1)?;
        Ok(())
    }

    // Uses up arguments at positions that are not lent, and gives the next variable, which takes a value.
    fn use_up(&mut self, arguments: &[u32], parameters: &[Parameter]) -> u32
        requires room { vec_len self.old.owed < vec_capacity self.old.owed }
        requires next { self.old.next + 1 < 2 ^ 32 }
        ensures variable { result ≡ self.old.next }
        ensures same { self.new ≡ record self.old { owed = self.new.owed; next = self.old.next + 1 } }
        ensures owed { self.new.owed.items ≡ minus_all (used_at parameters.now arguments.now) self.old.owed.items ++ self.old.next ∷ [] }
    {
        take_used(&mut self.owed, arguments, parameters);
        let variable = self.next;
        self.owed.push_reserved(variable);
        self.next += 1;
        variable
    }

    /// Writes that a cell is opened, by its count or not, and gives the variables of the fields that the mask names, and the
    /// slot of its token.
    pub fn open(
        &mut self,
        variable: u32,
        constructor: u32,
        count: usize,
        used: u8,
        by_count: bool,
    ) -> Result<(Vec<u32>, u32), NoMemory>
        ensures variables { IfOk result (λ given. given.0.items ≡ chosen_of used (numbers_from self.old.next count)) }
        ensures slot { IfOk result (λ given. given.1 ≡ next_slot (token_draft self.old).spare) }
        ensures ok { OnOk result (Becomes self.old self.new (λ d. opened d by_count variable constructor count used)) }
        ensures tokens { OnOk result (token_draft self.new ≡ gains (token_draft self.old) (opens_with by_count variable constructor (numbers_from self.old.next count) (chosen_of used (numbers_from self.old.next count)) (next_slot (token_draft self.old).spare))) }
        ensures err { OnErr result (Becomes self.old self.new (λ d. d)) }
        ensures unwritten { OnErr result (token_draft self.new ≡ token_draft self.old) }
    {
        self.spare.reserve(1)?;
        let slot = next_slot(&self.spare)?;
        let (fields, next) = numbers(self.alloc, self.next, count)?;
        let names = chosen(self.alloc, &fields, used)?;
        let given = Vec::from_slice(self.alloc, &names)?;
        self.owed.reserve(given.len())?;
        let step = opening_step(variable, constructor, fields, names, slot, by_count);
        self.steps.push(step)?;
        take_out(&mut self.owed, variable);
        let _ = self.owed.extend_from_slice(&given);
        self.spare.push_reserved(slot);
        self.next = next;
        Ok((given, slot))
    }

    /// Writes that the fields of a cell that stays are read, and gives the variables of those that the mask names, which get
    /// a reference more. Where the cell's variable is lent, its fields are lent too.
    pub fn read(
        &mut self,
        variable: u32,
        constructor: u32,
        count: usize,
        used: u8,
    ) -> Result<Vec<u32>, NoMemory>
        ensures variables { IfOk result (λ given. given.items ≡ chosen_of used (numbers_from self.old.next count)) }
        ensures next { OnOk result (self.new.next ≡ self.old.next + count) }
        ensures ok { OnOk result (Becomes self.old self.new (λ d. read_of d variable constructor count used)) }
        ensures tokens { OnOk result (token_draft self.new ≡ adds (token_draft self.old) (reads_with variable constructor (numbers_from self.old.next count) (chosen_of used (numbers_from self.old.next count)))) }
        ensures err { OnErr result (Becomes self.old self.new (λ d. d)) }
        ensures unwritten { OnErr result (token_draft self.new ≡ token_draft self.old) }
    {
        let (fields, next) = numbers(self.alloc, self.next, count)?;
        let given = chosen(self.alloc, &fields, used)?;
        let lent = lent_fields(self.alloc, &self.lent, variable, &fields)?;
        self.lent.reserve(lent.len())?;
        self.owed.reserve(given.len())?;
        let mut steps = reading(self.alloc, variable, constructor, fields, &given)?;
        self.steps.append(&mut steps)?;
        let _ = self.lent.extend_from_slice(&lent);
        let _ = self.owed.extend_from_slice(&given);
        self.next = next;
        Ok(given)
    }
}
