ghost use Rattle.std.specs.Prelude.{◌≡◌, ◌∷◌, [], map, IfOk};
ghost use Rattle.kk_syntax.specs.PositionsOf.{positions_of};
ghost use Rattle.kk_syntax.specs.Shapes.{without};
ghost use Rattle.kk_core.specs.Codes.{computes, uses, unpacks, runs, step_piece, arm_code};
ghost use Rattle.kk_core.specs.Codes.{block_code as core_block_code, last_code as core_last_code};
ghost use Rattle.kk_counted.specs.CountedCodes.{case};
ghost use Rattle.kk_counted.specs.CountedForms.{block_code, last_code, decisions_of};
ghost use Rattle.kk_insert.specs.Insertion.{owns, wants, dups, back, own, insert, dropping};
ghost use Rattle.kk_insert.specs.Steps.{own_before, insert_before};
ghost use Rattle.kk_insert.specs.Parts.{own_each, insert_each, part_of, part_in, arm_in};

use crate::passing::{lends, used};
use crate::variables::{before, common, is_in, owns, wants, without};
use crate::writing::{put_before, put_dropping, put_dups, put_opening};
use kk_base::NoMemory;
use kk_core::{Arm, Decisions};
use kk_counted::{Block, Last, Step, copied_decisions};
use kk_syntax::{Form, Positions};
use std::alloc::Global;

/// Code with its dups and drops, and what it owns at its start.
#[derive(Drop)]
pub struct Part {
    pub owned: Vec<u32>,
    pub block: Block,
}

/// What the code of a function is inserted by: the positions of the program, and the function's lent variables.
#[derive(Drop)]
pub struct Insertion<'a> {
    pub alloc: Global,
    pub positions: &'a Positions,
    pub lent: &'a [u32],
}

impl<'a> Insertion<'a> {
    /// A block with its dups and drops, where `left` is owned at its end.
    #[cycle(block)]
    pub fn block(&self, left: &[u32], block: &kk_core::Block) -> Result<Part, NoMemory>
        ensures owned { IfOk result (λ part. part.owned.items
            ≡ own (positions_of self.now.positions.now) self.now.lent.now left.now (core_block_code block.now)) }
        ensures code { IfOk result (λ part. block_code part.block
            ≡ insert (positions_of self.now.positions.now) self.now.lent.now left.now (core_block_code block.now)) }
    {
        let mut part = self.last(left, &block.last)?;
        let mut count = block.steps.len();
        'back: while count > 0 {
            count -= 1;
            part = self.step(&block.steps[count], part)?;
        }
        Ok(part)
    }

    // A step with its dups and drops, before the others.
    #[cycle(block)]
    fn step(&self, step: &kk_core::Step, rest: Part) -> Result<Part, NoMemory>
        ensures owned { IfOk result (λ part. part.owned.items
            ≡ own_before (positions_of self.now.positions.now) self.now.lent.now (step_piece step.now) rest.owned.items) }
        ensures code { IfOk result (λ part. block_code part.block
            ≡ insert_before (positions_of self.now.positions.now) self.now.lent.now (step_piece step.now)
            rest.owned.items (block_code rest.block)) }
    {
        match step {
            kk_core::Step::Let(variable, form, arguments) => {
                self.compute(*variable, *form, arguments, rest)
            }
            kk_core::Step::Use(variable) => self.use_of(*variable, rest),
            kk_core::Step::Open(variable, by, fields) => self.unpack(*variable, *by, fields, rest),
            kk_core::Step::Inside(variable, block) => self.inside(*variable, block, rest),
        }
    }

    fn compute(
        &self,
        variable: u32,
        form: Form,
        arguments: &[u32],
        rest: Part,
    ) -> Result<Part, NoMemory>
        ensures owned { IfOk result (λ part. part.owned.items
            ≡ own_before (positions_of self.now.positions.now) self.now.lent.now (computes variable form arguments.now)
            rest.owned.items) }
        ensures code { IfOk result (λ part. block_code part.block
            ≡ insert_before (positions_of self.now.positions.now) self.now.lent.now (computes variable form arguments.now)
            rest.owned.items (block_code rest.block)) }
    {
        let spent = used(self.alloc, self.positions, form, arguments)?;
        let given = lends(self.alloc, self.positions, form, arguments)?;
        let Part {
            owned: held,
            mut block,
        } = self.behind(variable, &given, rest)?;
        let copy = Vec::from_slice(self.alloc, arguments)?;
        put_before(&mut block, Step::Let(variable, form, copy))?;
        self.using_up(&held, &spent, block)
    }

    // What comes behind a form: what was only lent to it is dropped, and its value where nothing uses it.
    fn behind(&self, variable: u32, given: &[u32], rest: Part) -> Result<Part, NoMemory>
        ensures owned { IfOk result (λ part. part.owned.items
            ≡ owns self.now.lent.now given.now (without (variable ∷ []) rest.owned.items)) }
        ensures code { IfOk result (λ part. block_code part.block
            ≡ back self.now.lent.now given.now variable rest.owned.items (block_code rest.block)) }
    {
        let Part {
            owned: now,
            mut block,
        } = rest;
        let kept = without(self.alloc, &[variable], &now)?;
        let held = owns(self.alloc, self.lent, given, &kept)?;
        put_dropping(self.alloc, &mut block, &[variable], &now)?;
        put_dropping(self.alloc, &mut block, &held, &kept)?;
        Ok(Part { owned: held, block })
    }

    // A block before which variables are used up, where `left` is owned behind that.
    fn using_up(&self, left: &[u32], spent: &[u32], block: Block) -> Result<Part, NoMemory>
        ensures owned { IfOk result (λ part. part.owned.items ≡ owns self.now.lent.now spent.now left.now) }
        ensures code { IfOk result (λ part. block_code part.block
            ≡ dups (wants self.now.lent.now spent.now left.now) (block_code block)) }
    {
        let mut block = block;
        let owned = owns(self.alloc, self.lent, spent, left)?;
        let wanted = wants(self.alloc, self.lent, spent, left)?;
        put_dups(&mut block, &wanted)?;
        Ok(Part { owned, block })
    }

    fn use_of(&self, variable: u32, rest: Part) -> Result<Part, NoMemory>
        ensures owned { IfOk result (λ part. part.owned.items
            ≡ own_before (positions_of self.now.positions.now) self.now.lent.now (uses variable) rest.owned.items) }
        ensures code { IfOk result (λ part. block_code part.block
            ≡ insert_before (positions_of self.now.positions.now) self.now.lent.now (uses variable)
            rest.owned.items (block_code rest.block)) }
    {
        let Part {
            owned: now,
            mut block,
        } = rest;
        let owned = owns(self.alloc, self.lent, &[variable], &now)?;
        put_dropping(self.alloc, &mut block, &owned, &now)?;
        Ok(Part { owned, block })
    }

    fn unpack(&self, variable: u32, by: u32, fields: &[u32], rest: Part) -> Result<Part, NoMemory>
        ensures owned { IfOk result (λ part. part.owned.items
            ≡ own_before (positions_of self.now.positions.now) self.now.lent.now (unpacks variable by fields.now)
            rest.owned.items) }
        ensures code { IfOk result (λ part. block_code part.block
            ≡ insert_before (positions_of self.now.positions.now) self.now.lent.now (unpacks variable by fields.now)
            rest.owned.items (block_code rest.block)) }
    {
        let Part {
            owned: now,
            mut block,
        } = rest;
        let kept = without(self.alloc, fields, &now)?;
        let owned = owns(self.alloc, self.lent, &[variable], &kept)?;
        let in_use = common(self.alloc, &now, fields)?;
        let stays = is_in(self.lent, variable) | is_in(&now, variable);
        put_opening(self.alloc, &mut block, stays, variable, by, fields, in_use)?;
        Ok(Part { owned, block })
    }

    #[cycle(block)]
    fn inside(&self, variable: u32, inner: &kk_core::Block, rest: Part) -> Result<Part, NoMemory>
        ensures owned { IfOk result (λ part. part.owned.items
            ≡ own_before (positions_of self.now.positions.now) self.now.lent.now (runs variable (core_block_code inner.now))
            rest.owned.items) }
        ensures code { IfOk result (λ part. block_code part.block
            ≡ insert_before (positions_of self.now.positions.now) self.now.lent.now (runs variable (core_block_code inner.now))
            rest.owned.items (block_code rest.block)) }
    {
        let Part {
            owned: now,
            mut block,
        } = rest;
        let kept = without(self.alloc, &[variable], &now)?;
        let first = self.block(&kept, inner)?;
        put_dropping(self.alloc, &mut block, &[variable], &now)?;
        put_before(&mut block, Step::Inside(variable, first.block))?;
        Ok(Part {
            owned: first.owned,
            block,
        })
    }

    // How a block ends, with its dups and drops.
    #[cycle(block)]
    fn last(&self, left: &[u32], last: &kk_core::Last) -> Result<Part, NoMemory>
        ensures owned { IfOk result (λ part. part.owned.items
            ≡ own (positions_of self.now.positions.now) self.now.lent.now left.now (core_last_code last.now)) }
        ensures code { IfOk result (λ part. block_code part.block
            ≡ insert (positions_of self.now.positions.now) self.now.lent.now left.now (core_last_code last.now)) }
    {
        match last {
            kk_core::Last::Return(variable) => {
                self.end(left, &[*variable], Last::Return(*variable))
            }
            kk_core::Last::TailCall(function, arguments) => {
                let spent = used(self.alloc, self.positions, Form::Call(*function), arguments)?;
                let copy = Vec::from_slice(self.alloc, arguments)?;
                self.end(left, &spent, Last::TailCall(*function, copy))
            }
            kk_core::Last::Case(variable, decisions, arms) => {
                let parts = self.arms(left, arms)?;
                let part = self.case(left, *variable, decisions, parts)?;
                Ok(part)
            }
        }
    }

    // An end that uses variables up.
    fn end(&self, left: &[u32], spent: &[u32], last: Last) -> Result<Part, NoMemory>
        ensures owned { IfOk result (λ part. part.owned.items ≡ owns self.now.lent.now spent.now left.now) }
        ensures code { IfOk result (λ part. block_code part.block
            ≡ dups (wants self.now.lent.now spent.now left.now) (last_code last)) }
    {
        let steps = Vec::new(self.alloc);
        self.using_up(left, spent, Block { steps, last })
    }

    fn case(
        &self,
        left: &[u32],
        variable: u32,
        decisions: &Decisions,
        parts: Vec<Part>,
    ) -> Result<Part, NoMemory>
        ensures owned { IfOk result (λ part. part.owned.items
            ≡ owns self.now.lent.now (variable ∷ []) (own_each left.now (map part_of parts.items))) }
        ensures code { IfOk result (λ part. block_code part.block
            ≡ case variable (decisions_of decisions.now) (insert_each part.owned.items (map part_of parts.items))) }
    {
        let each = self.own_each(left, &parts)?;
        let owned = owns(self.alloc, self.lent, &[variable], &each)?;
        let arms = self.arms_behind(&owned, parts)?;
        let decisions = copied_decisions(self.alloc, decisions)?;
        let block = Block {
            steps: Vec::new(self.alloc),
            last: Last::Case(variable, decisions, arms),
        };
        Ok(Part { owned, block })
    }

    // The arms of a case, where all of that is owned before it.
    fn arms_behind(&self, all: &[u32], parts: Vec<Part>) -> Result<Vec<Block>, NoMemory>
        ensures { IfOk result (λ arms. map block_code arms.items ≡ map (arm_in all.now) (map part_of parts.items)) }
    {
        let mut arms = Vec::new(self.alloc);
        for part in parts {
            arms.push(self.arm(all, part)?)?;
        }
        Ok(arms)
    }

    // An arm, where all of that is owned before its case.
    fn arm(&self, all: &[u32], part: Part) -> Result<Block, NoMemory>
        ensures { IfOk result (λ block. block_code block ≡ dropping all.now part.owned.items (block_code part.block)) }
    {
        let Part { owned, mut block } = part;
        put_dropping(self.alloc, &mut block, all, &owned)?;
        Ok(block)
    }

    // What some arms own, and what is left.
    fn own_each(&self, left: &[u32], parts: &[Part]) -> Result<Vec<u32>, NoMemory>
        ensures { IfOk result (λ found. found.items ≡ own_each left.now (map part_of parts.now)) }
    {
        let mut found = Vec::from_slice(self.alloc, left)?;
        let mut count = parts.len();
        'back: while count > 0 {
            count -= 1;
            found = before(self.alloc, &parts[count].owned, &found)?;
        }
        Ok(found)
    }

    #[cycle(block)]
    fn arms(&self, left: &[u32], arms: &[Arm]) -> Result<Vec<Part>, NoMemory>
        ensures { IfOk result (λ parts. map part_of parts.items
            ≡ map (part_in (positions_of self.now.positions.now) self.now.lent.now left.now) (map arm_code arms.now)) }
    {
        let mut parts = Vec::new(self.alloc);
        for arm in arms {
            parts.push(self.block(left, &arm.body)?)?;
        }
        Ok(parts)
    }
}
