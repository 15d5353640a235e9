ghost use Rattle.std.specs.Prelude.{◌≡◌, ℕ, List, ◌∷◌, ◌++◌, [], false, true, is_some, reverse, IfSome, IfNone, OnSome, IfOk, IfErr, OnOk, OnErr};
ghost use Rattle.kk_syntax.specs.Shapes.{is_among};
ghost use Rattle.kk_counted.specs.TokenedCodes.{Tokened};
ghost use Rattle.kk_counted.specs.CountedForms.{decisions_of};
ghost use Rattle.kk_emitter.specs.Drafts.{all_owed, forked, entered, ended_by_value, ended_by_call, joined, Writes, Takes, OwnsAll, AreNewest, IsBetween, IsOnly, IsInArm, EndsByCall};
ghost use Rattle.kk_emitter.specs.TokenDrafts.{tokens_forked, tokens_entered, tokens_ended_in, tokens_ended_by, tokened_end, tokens_joined, held_of_end, ended_with};
ghost use Rattle.kk_emitter.specs.Emissions.{counted_of, tokens_of};
ghost use Rattle.kk_emitter.specs.TokenEmitting.{HasAllSpare, HasNoSpare, AreNewestTokens, CanEnd, EndsTokenArm};
ghost use Rattle.kk_emitter.specs.Works.{left_in};

use crate::debts::{ArmEnd, Arms, Debts, Held, Kept, Owed};
use crate::emitter::Emitter;
use kk_core::Decisions;
use std::alloc::Global;

impl<'a> Emitter<'a> {
    /// Begins a branch on a variable: an arm for each row of the decisions. Each arm owes all of the debts. All unspent tokens
    /// are among them.
    pub fn split(&mut self, on: u32, tests: &Decisions, debts: Debts) -> Result<Arms, Kept>
        requires writes { Writes (counted_of self.old) }
        requires called { (counted_of self.old).failed ≡ false → (counted_of self.old).uncalled ≡ [] }
        requires owns { OwnsAll (counted_of self.old) debts.emitter debts.variables.items }
        requires on { (counted_of self.old).failed ≡ false → is_among ((counted_of self.old).lent ++ all_owed (counted_of self.old)) on ≡ true }
        requires spare { HasAllSpare (counted_of self.old) (tokens_of self.old) debts.emitter debts.spare.items }
        ensures going { OnOk result ((counted_of self.old).failed ≡ false) }
        ensures ok { OnOk result (counted_of self.new ≡ forked (counted_of self.old) on (decisions_of tests.now) debts.variables.items tests.now.rows) }
        ensures tokens { OnOk result (tokens_of self.new ≡ tokens_forked (tokens_of self.old) on (decisions_of tests.now) tests.now.rows) }
        ensures arms { IfOk result (λ arms. (arms.emitter ≡ (counted_of self.old).instance) × AreNewest (counted_of self.new).splits arms.depth (left_in arms.left.items)) }
        ensures slots { IfOk result (λ arms. AreNewestTokens (tokens_of self.new).splits (left_in arms.spare.items)) }
        ensures err { OnErr result ((counted_of self.new).failed ≡ true) }
        ensures kept { IfErr result (λ kept. kept.held ≡ Held.Many debts) }
    {
        if self.work.failed {
            return Err(Kept::of_many(debts));
        }
        let Ok(given) = self.work.split(on, tests, &debts.variables) else {
            self.work.failed = true;
            return Err(Kept::of_many(debts));
        };
        debts.spend();
        Ok(Arms {
            emitter: self.work.instance,
            depth: self.work.forks.len(),
            left: given.variables,
            spare: given.spare,
        })
    }

    /// Enters the next arm, in the order of the rows, and gives what it owes. There is none exactly where each was entered.
    /// It takes no memory.
    pub fn next_arm(&mut self, arms: &mut Arms) -> Option<Debts>
        requires between { IsBetween (counted_of self.old) }
        requires newest { (counted_of self.old).failed ≡ false → AreNewest (counted_of self.old).splits arms.old.depth (left_in arms.old.left.items) }
        requires tokens { (counted_of self.old).failed ≡ false → AreNewestTokens (tokens_of self.old).splits (left_in arms.old.spare.items) }
        ensures entered { OnSome result ((counted_of self.old).failed ≡ false → counted_of self.new ≡ entered (counted_of self.old)) }
        ensures tokens { OnSome result ((counted_of self.old).failed ≡ false → tokens_of self.new ≡ tokens_entered (tokens_of self.old)) }
        ensures stopped { (counted_of self.old).failed ≡ true → tokens_of self.new ≡ tokens_of self.old }
        ensures fallen { (counted_of self.old).failed ≡ true → counted_of self.new ≡ counted_of self.old }
        ensures unchanged { IfNone result (counted_of self.new ≡ counted_of self.old) }
        ensures unwritten { IfNone result (tokens_of self.new ≡ tokens_of self.old) }
        ensures left { IfSome result (λ debts. left_in arms.old.left.items ≡ debts.variables.items ∷ left_in arms.new.left.items) }
        ensures slots { IfSome result (λ debts. (counted_of self.old).failed ≡ false → left_in arms.old.spare.items ≡ debts.spare.items ∷ left_in arms.new.spare.items) }
        ensures none { IfNone result (left_in arms.old.left.items ≡ []) }
        ensures last { IfNone result (left_in arms.new.left.items ≡ []) }
        ensures emitter { IfSome result (λ debts. debts.emitter ≡ arms.old.emitter) }
        ensures same { (arms.new.emitter ≡ arms.old.emitter) × (arms.new.depth ≡ arms.old.depth) }
    {
        let emitter = arms.emitter;
        let variables = arms.left.pop()?;
        let spare = next_of(&mut arms.spare, self.work.alloc);
        if !self.work.failed {
            self.work.enter();
        }
        Some(Debts {
            emitter,
            variables,
            spare,
        })
    }

    /// Ends the arm that is written. Besides a value and the tokens that go on behind the branch nothing of the arm is unspent;
    /// with a tail call, nothing of the whole path. In a branch with a tail call no arm leaves a token.
    pub fn end_arm(&mut self, end: ArmEnd) -> Result<(), Kept>
        requires inside { (counted_of self.old).failed ≡ false → (counted_of self.old).inside ≡ true }
        requires arm { (counted_of self.old).failed ≡ false → IsInArm (counted_of self.old).splits }
        requires ends { EndsTokenArm (counted_of self.old) (tokens_of self.old) end }
        ensures going { OnOk result ((counted_of self.old).failed ≡ false) }
        ensures ok { OnOk result (counted_of self.new ≡ ended_with (counted_of self.old) end) }
        ensures tokens { OnOk result (tokens_of self.new ≡ tokens_ended_by (tokens_of self.old) end) }
        ensures err { OnErr result ((counted_of self.new).failed ≡ true) }
        ensures kept { IfErr result (λ kept. kept.held ≡ held_of_end end) }
    {
        match end {
            ArmEnd::Value(owed, debts) => self.end_by_value(owed, debts),
            ArmEnd::Tail(instance, arguments) => self.end_by_call(instance, arguments),
        }
    }

    // Ends the arm that is written by giving the value that a reference owns, with its tokens.
    fn end_by_value(&mut self, owed: Owed, debts: Debts) -> Result<(), Kept>
        requires inside { (counted_of self.old).failed ≡ false → (counted_of self.old).inside ≡ true }
        requires arm { (counted_of self.old).failed ≡ false → IsInArm (counted_of self.old).splits }
        requires only { IsOnly (counted_of self.old) owed.emitter owed.variable }
        requires spare { HasAllSpare (counted_of self.old) (tokens_of self.old) debts.emitter debts.spare.items }
        requires alone { (counted_of self.old).failed ≡ false → debts.variables.items ≡ [] }
        requires can { (counted_of self.old).failed ≡ false → CanEnd (tokens_of self.old) (is_some (tokens_of self.old).ending) (tokens_of self.old).splits }
        ensures going { OnOk result ((counted_of self.old).failed ≡ false) }
        ensures ok { OnOk result (counted_of self.new ≡ ended_by_value (counted_of self.old) owed.variable) }
        ensures tokens { OnOk result (tokens_of self.new ≡ tokens_ended_in (tokens_of self.old) (tokened_end (tokens_of self.old).ending owed.variable) (is_some (tokens_of self.old).ending) (tokens_of self.old).splits) }
        ensures err { OnErr result ((counted_of self.new).failed ≡ true) }
        ensures kept { IfErr result (λ kept. kept.held ≡ Held.Ending owed debts) }
    {
        if self.work.failed {
            return Err(Kept::of_end(owed, debts));
        }
        let Ok(()) = self.work.end_arm_by_value(owed.variable) else {
            self.work.failed = true;
            return Err(Kept::of_end(owed, debts));
        };
        owed.spend();
        debts.spend();
        Ok(())
    }

    // Ends the arm that is written by a tail call.
    fn end_by_call(&mut self, instance: u32, arguments: Vec<u32>) -> Result<(), Kept>
        requires writes { Writes (counted_of self.old) }
        requires arm { (counted_of self.old).failed ≡ false → IsInArm (counted_of self.old).splits }
        requires takes { Takes (counted_of self.old) instance arguments.items }
        requires ends { EndsByCall (counted_of self.old) instance arguments.items }
        requires none { HasNoSpare (counted_of self.old) (tokens_of self.old) }
        requires can { (counted_of self.old).failed ≡ false → CanEnd (tokens_of self.old) true (tokens_of self.old).splits }
        ensures going { OnOk result ((counted_of self.old).failed ≡ false) }
        ensures ok { OnOk result (counted_of self.new ≡ ended_by_call (counted_of self.old) instance arguments.items) }
        ensures tokens { OnOk result (tokens_of self.new ≡ tokens_ended_in (tokens_of self.old) (Tokened.tail_call instance arguments.items) true (tokens_of self.old).splits) }
        ensures err { OnErr result ((counted_of self.new).failed ≡ true) }
        ensures kept { IfErr result (λ kept. kept.held ≡ Held.Nothing) }
    {
        if self.work.failed {
            return Err(Kept::of_nothing());
        }
        let Ok(()) = self.work.end_arm_by_call(instance, arguments) else {
            self.work.failed = true;
            return Err(Kept::of_nothing());
        };
        Ok(())
    }

    /// Joins the newest branch, each arm of which is entered and ended, and gives its value and the tokens that go on, the newest
    /// last. They are as many as an arm leaves at most; where an arm leaves fewer the others are null.
    pub fn join(&mut self, arms: Arms) -> Result<(Owed, Debts), Kept>
        requires between { IsBetween (counted_of self.old) }
        requires newest { (counted_of self.old).failed ≡ false → AreNewest (counted_of self.old).splits arms.depth [] }
        requires left { left_in arms.left.items ≡ [] }
        ensures going { OnOk result ((counted_of self.old).failed ≡ false) }
        ensures ok { OnOk result (counted_of self.new ≡ joined (counted_of self.old)) }
        ensures tokens { OnOk result (tokens_of self.new ≡ tokens_joined (tokens_of self.old) (counted_of self.old).next) }
        ensures owed { IfOk result (λ both. (both.0.emitter ≡ (counted_of self.old).instance) × (both.0.variable ≡ (counted_of self.old).next)) }
        ensures emitter { IfOk result (λ both. both.1.emitter ≡ (counted_of self.old).instance) }
        ensures alone { IfOk result (λ both. both.1.variables.items ≡ []) }
        ensures spare { IfOk result (λ both. both.1.spare.items ≡ reverse (tokens_of self.new).spare) }
        ensures err { OnErr result ((counted_of self.new).failed ≡ true) }
        ensures kept { IfErr result (λ kept. kept.held ≡ Held.Branch arms) }
    {
        if self.work.failed {
            return Err(Kept::of_branch(arms));
        }
        let Ok((variable, spare)) = self.work.join() else {
            self.work.failed = true;
            return Err(Kept::of_branch(arms));
        };
        arms.spend();
        let emitter = self.work.instance;
        let debts = Debts {
            emitter,
            variables: Vec::new(self.work.alloc),
            spare,
        };
        Ok((Owed::of(emitter, variable), debts))
    }
}

// What is left for the next arm, or nothing where there is none.
fn next_of(left: &mut Vec<Vec<u32>>, alloc: Global) -> Vec<u32>
    ensures { (next : List ℕ) (rest : List (List ℕ)) → left_in left.old.items ≡ next ∷ rest → (result.items ≡ next) × (left_in left.new.items ≡ rest) }
{
    match left.pop() {
        Some(next) => next,
        None => Vec::new(alloc),
    }
}
