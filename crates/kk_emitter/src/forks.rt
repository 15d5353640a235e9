ghost use Rattle.std.specs.Prelude.{◌≡◌, ◌<◌, ◌∷◌, [], Some, None, true, map, option_map, is_some, reverse, vec_len, vec_capacity, IfOk, IfErr, OnOk, OnErr};
ghost use Rattle.kk_counted.specs.CountedForms.{decisions_of};
ghost use Rattle.kk_counted.specs.BareForms.{bare};
ghost use Rattle.kk_counted.specs.TokenedCodes.{Tokened};
ghost use Rattle.kk_counted.specs.TokenedForms.{TokenedMove, tokened_move, tokened_last_code, tokened_code, plug_tokened};
ghost use Rattle.kk_emitter.specs.Drafts.{copies, forked, entered, ended_in, ended_by_value, ended_by_call, joined, resumed, more_arms};
ghost use Rattle.kk_emitter.specs.TokenDrafts.{bare_arm, tokens_forked, tokens_entered, tokens_ended_in, tokened_end, more_ended, tokens_joined, tokens_resumed, is_tokened_branch, tokened_branch_into, closed_moves, tokens_closed_by, tokens_closed};
ghost use Rattle.kk_emitter.specs.Works.{Becomes, arm_of, back_to_front, items_of, split_of, token_split_of, token_draft};

use crate::joins::{block_of, joined_branch};
use crate::lists::{copies, take_all};
use crate::work::{Fork, TokenArm, Work};
use kk_base::NoMemory;
use kk_core::Decisions;
use kk_counted::{TokenedBlock, TokenedFun, TokenedLast, TokenedStep, copied_decisions};
use std::alloc::Global;
use std::mem;

/// What the arms of a branch are to spend, once for each arm.
#[derive(Drop)]
pub struct ArmDebts {
    pub variables: Vec<Vec<u32>>,
    /// The slots of the tokens, the newest last.
    pub spare: Vec<Vec<u32>>,
}

impl Work {
    /// Begins a branch, and gives what its arms are to spend.
    pub fn split(&mut self, on: u32, tests: &Decisions, each: &[u32]) -> Result<ArmDebts, NoMemory>
        ensures left { IfOk result (λ given. map items_of given.variables.items ≡ copies tests.now.rows each.now) }
        ensures slots { IfOk result (λ given. map items_of given.spare.items ≡ copies tests.now.rows self.old.spare.items) }
        ensures ok { OnOk result (Becomes self.old self.new (λ d. forked d on (decisions_of tests.now) each.now tests.now.rows)) }
        ensures tokens { OnOk result (token_draft self.new ≡ tokens_forked (token_draft self.old) on (decisions_of tests.now) tests.now.rows) }
    {
        let given = arm_debts(self.alloc, each, &self.spare, tests.rows())?;
        let own = arm_debts(self.alloc, each, &self.spare, tests.rows())?;
        let each = Vec::from_slice(self.alloc, each)?;
        let tests = copied_decisions(self.alloc, tests)?;
        self.forks.reserve(1)?;
        self.begin(on, tests, each, own);
        Ok(given)
    }

    // Begins a branch for which there is room.
    fn begin(&mut self, on: u32, tests: Decisions, each: Vec<u32>, own: ArmDebts)
        requires room { vec_len self.old.forks < vec_capacity self.old.forks }
        requires variables { map items_of own.variables.items ≡ copies tests.rows each.items }
        requires spare { map items_of own.spare.items ≡ copies tests.rows self.old.spare.items }
        ensures ok { Becomes self.old self.new (λ d. forked d on (decisions_of tests) each.items tests.rows) }
        ensures tokens { token_draft self.new ≡ tokens_forked (token_draft self.old) on (decisions_of tests) tests.rows }
    {
        let ArmDebts {
            variables,
            spare: slots,
        } = own;
        let mut kept = mem::replace(&mut self.owed, Vec::new(self.alloc));
        take_all(&mut kept, &each);
        let before = mem::replace(&mut self.steps, Vec::new(self.alloc));
        let spare = mem::replace(&mut self.spare, Vec::new(self.alloc));
        self.inside = false;
        self.forks.push_reserved(Fork {
            on,
            tests,
            before,
            lent: self.lent.len(),
            kept,
            each,
            left: variables,
            spare,
            spare_left: slots,
            arms: Vec::new(self.alloc),
            tails: false,
        });
    }

    /// Enters the next arm of the newest branch, if there is one.
    pub fn enter(&mut self)
        ensures ok { Becomes self.old self.new entered }
        ensures tokens { token_draft self.new ≡ tokens_entered (token_draft self.old) }
    {
        let Some(mut fork) = self.forks.pop() else {
            return;
        };
        match fork.left.pop() {
            None => self.enter_tokens(fork),
            Some(each) => {
                self.owed = each;
                self.lent.truncate(fork.lent);
                self.inside = true;
                self.enter_tokens(fork);
            }
        }
    }

    // Puts a branch back, and takes the tokens of its next arm, if there is one.
    fn enter_tokens(&mut self, mut fork: Fork)
        requires { vec_len self.old.forks < vec_capacity self.old.forks }
        ensures same { self.new ≡ record self.old { spare = self.new.spare; forks = self.new.forks } }
        ensures splits { back_to_front split_of self.new.forks.items [] ≡ split_of fork ∷ back_to_front split_of self.old.forks.items [] }
        ensures tokens { token_draft self.new ≡ tokens_entered (record (token_draft self.old) { splits = token_split_of fork ∷ (token_draft self.old).splits }) }
    {
        match fork.spare_left.pop() {
            None => self.forks.push_reserved(fork),
            Some(spare) => {
                self.spare = spare;
                self.forks.push_reserved(fork);
            }
        }
    }

    // Ends the arm that is written, and tells whether that is by a tail call. It leaves the tokens that are unspent.
    fn end_arm(&mut self, last: TokenedLast, tails: bool) -> Result<(), NoMemory>
        requires { self.old.ending ≡ None }
        ensures ok { OnOk result (Becomes self.old self.new (λ d. ended_in d (bare (tokened_last_code last)) tails d.splits)) }
        ensures tokens { OnOk result (token_draft self.new ≡ tokens_ended_in (token_draft self.old) (tokened_last_code last) tails (token_draft self.old).splits) }
    {
        let Some(fork) = self.forks.pop() else {
            return Ok(());
        };
        let steps = mem::replace(&mut self.steps, Vec::new(self.alloc));
        let spare = mem::replace(&mut self.spare, Vec::new(self.alloc));
        let more = with_arm(fork, TokenArm { steps, last, spare }, tails)?;
        self.forks.push_reserved(more);
        self.owed = Vec::new(self.alloc);
        self.inside = false;
        Ok(())
    }

    /// Ends the arm that is written by giving a variable's value.
    pub fn end_arm_by_value(&mut self, variable: u32) -> Result<(), NoMemory>
        ensures ok { OnOk result (Becomes self.old self.new (λ d. ended_by_value d variable)) }
        ensures tokens { OnOk result (token_draft self.new ≡ tokens_ended_in (token_draft self.old) (tokened_end (token_draft self.old).ending variable) (is_some (token_draft self.old).ending) (token_draft self.old).splits) }
    {
        match mem::replace(&mut self.ending, None) {
            None => self.end_arm(TokenedLast::Return(variable), false),
            Some(last) => self.end_arm(last, true),
        }
    }

    /// Ends the arm that is written by a tail call.
    pub fn end_arm_by_call(&mut self, instance: u32, arguments: Vec<u32>) -> Result<(), NoMemory>
        requires { self.old.ending ≡ None }
        ensures ok { OnOk result (Becomes self.old self.new (λ d. ended_by_call d instance arguments.items)) }
        ensures tokens { OnOk result (token_draft self.new ≡ tokens_ended_in (token_draft self.old) (Tokened.tail_call instance arguments.items) true (token_draft self.old).splits) }
    {
        self.end_arm(TokenedLast::TailCall(instance, arguments), true)
    }

    /// Joins the newest branch, and gives the variable that takes its value, and the slots of the tokens that go on, the newest
    /// last.
    pub fn join(&mut self) -> Result<(u32, Vec<u32>), NoMemory>
        ensures variable { IfOk result (λ found. found.0 ≡ self.old.next) }
        ensures slots { IfOk result (λ found. found.1.items ≡ reverse (token_draft self.new).spare) }
        ensures ok { OnOk result (Becomes self.old self.new joined) }
        ensures tokens { OnOk result (token_draft self.new ≡ tokens_joined (token_draft self.old) self.old.next) }
    {
        let variable = self.next;
        if variable == u32::MAX {
            return Err(NoMemory);
        }
        let Some(fork) = self.forks.pop() else {
            let slots = Vec::from_slice(self.alloc, &self.spare)?;
            return Ok((variable, slots));
        };
        self.next = variable + 1;
        self.resume(fork, variable)?;
        let slots = Vec::from_slice(self.alloc, &self.spare)?;
        Ok((variable, slots))
    }

    // Goes on behind a branch, whose value the variable takes.
    fn resume(&mut self, fork: Fork, variable: u32) -> Result<(), NoMemory>
        ensures ok { OnOk result (Becomes self.old self.new (λ d. resumed d (split_of fork) variable)) }
        ensures tokens { OnOk result (token_draft self.new ≡ tokens_resumed (token_draft self.old) (token_split_of fork) variable fork.tails) }
    {
        let Fork {
            on,
            tests,
            before,
            lent,
            kept,
            each: _,
            left: _,
            spare: _,
            spare_left: _,
            arms,
            tails,
        } = fork;
        self.inside = true;
        self.steps = before;
        self.lent.truncate(lent);
        self.owed = kept;
        self.owed.push(variable)?;
        let (last, slots) = joined_branch(self.alloc, on, tests, arms)?;
        self.spare = slots;
        if tails {
            let _ = mem::replace(&mut self.ending, Some(last));
            return Ok(());
        }
        self.steps.push(run_of(self.alloc, variable, last))?;
        Ok(())
    }

    /// The function that ends by giving a variable's value. A branch that gives it as the last step ends it itself.
    pub fn finish(self, variable: u32) -> TokenedFun
        ensures parameters { result.parameters ≡ self.parameters }
        ensures body { tokened_code result.body ≡ tokens_closed (token_draft self) variable }
    {
        let parameters = self.parameters;
        let mut steps = self.steps;
        let last = end_of(&mut steps, self.ending, variable);
        TokenedFun {
            parameters,
            body: block_of(steps, last),
        }
    }

    /// The function that ends by a tail call.
    pub fn finish_by_call(self, instance: u32, arguments: Vec<u32>) -> TokenedFun
        ensures parameters { result.parameters ≡ self.parameters }
        ensures body { tokened_code result.body ≡ plug_tokened (token_draft self).moves (Tokened.tail_call instance arguments.items) }
    {
        TokenedFun {
            parameters: self.parameters,
            body: block_of(self.steps, TokenedLast::TailCall(instance, arguments)),
        }
    }
}

// What each of so many arms is to spend.
fn arm_debts(
    alloc: Global,
    variables: &[u32],
    spare: &[u32],
    count: u32,
) -> Result<ArmDebts, NoMemory>
    ensures variables { IfOk result (λ given. map items_of given.variables.items ≡ copies count variables.now) }
    ensures spare { IfOk result (λ given. map items_of given.spare.items ≡ copies count spare.now) }
{
    let variables = copies(alloc, variables, count)?;
    let spare = copies(alloc, spare, count)?;
    Ok(ArmDebts { variables, spare })
}

// A branch with one more arm.
fn with_arm(mut fork: Fork, arm: TokenArm, tails: bool) -> Result<Fork, NoMemory>
    ensures plain { IfOk result (λ more. split_of more ≡ more_arms (split_of fork) (bare_arm (arm_of arm)) tails) }
    ensures tokens { IfOk result (λ more. token_split_of more ≡ more_ended (token_split_of fork) (arm_of arm) tails) }
{
    fork.arms.push(arm)?;
    fork.tails = fork.tails | tails;
    Ok(fork)
}

// The step that runs a block which is no more than its end.
fn run_of(alloc: Global, variable: u32, last: TokenedLast) -> TokenedStep
    ensures { tokened_move result ≡ TokenedMove.runs variable (tokened_last_code last) }
{
    TokenedStep::Inside {
        variable,
        block: block_of(Vec::new(alloc), last),
    }
}

// How a block ends that gives a variable's value. A branch that gives it as the last step is that end, and no step.
fn end_of(steps: &mut Vec<TokenedStep>, ending: Option<TokenedLast>, variable: u32) -> TokenedLast
    ensures { plug_tokened (map tokened_move steps.new.items) (tokened_last_code result) ≡ tokens_closed_by (map tokened_move steps.old.items) (option_map tokened_last_code ending) variable }
{
    match ending {
        Some(last) => last,
        None => given_behind(steps, variable),
    }
}

// The same where the end is not known yet.
fn given_behind(steps: &mut Vec<TokenedStep>, variable: u32) -> TokenedLast
    ensures { plug_tokened (map tokened_move steps.new.items) (tokened_last_code result) ≡ closed_moves (map tokened_move steps.old.items) variable }
{
    let Some(step) = steps.pop() else {
        return TokenedLast::Return(variable);
    };
    match branch_into(step, variable) {
        Ok(branch) => branch,
        Err(step) => {
            steps.push_reserved(step);
            TokenedLast::Return(variable)
        }
    }
}

// The branch that a step runs for a variable, or else the step.
fn branch_into(step: TokenedStep, variable: u32) -> Result<TokenedLast, TokenedStep>
    ensures branch { IfOk result (λ branch. tokened_branch_into variable (tokened_move step) ≡ Some (tokened_last_code branch)) }
    ensures none { OnErr result (tokened_branch_into variable (tokened_move step) ≡ None) }
    ensures kept { IfErr result (λ kept. kept ≡ step) }
{
    match step {
        TokenedStep::Inside {
            variable: value,
            block,
        } => {
            if value == variable && is_branch(&block) {
                let TokenedBlock { steps: _, last } = block;
                return Ok(last);
            }
            Err(TokenedStep::Inside {
                variable: value,
                block,
            })
        }
        other => Err(other),
    }
}

// Whether a block is no more than a branch.
fn is_branch(block: &TokenedBlock) -> bool
    ensures test { result ≡ is_tokened_branch (tokened_code block.now) }
    ensures alone { result ≡ true → tokened_code block.now ≡ tokened_last_code block.now.last }
{
    if !block.steps.is_empty() {
        return false;
    }
    match &block.last {
        TokenedLast::Return(_) => false,
        TokenedLast::TailCall(_, _) => false,
        TokenedLast::Case(_, _, _) => true,
        TokenedLast::IfToken(_, _, _) => false,
    }
}
