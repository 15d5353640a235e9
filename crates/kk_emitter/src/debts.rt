ghost use Rattle.std.specs.Prelude.{◌≡◌, true, false, ◌∷◌, ◌++◌, [], IfSome, IfNone, OnOk, OnErr, IfErr};
ghost use Rattle.kk_emitter.specs.Drafts.{AreOf};

use kk_base::NoMemory;
use std::alloc::Global;

/// One reference that its path must pass on, store or drop. It cannot be let go.
pub struct Owed {
    pub(crate) emitter: u32,
    pub(crate) variable: u32,
}

impl Owed {
    /// The variable that owns the reference.
    pub fn var(&self) -> u32
        ensures { result ≡ self.now.variable }
    {
        self.variable
    }

    // The reference of a variable.
    pub(crate) fn of(emitter: u32, variable: u32) -> Self
        ensures emitter { result.emitter ≡ emitter }
        ensures variable { result.variable ≡ variable }
    {
        Owed { emitter, variable }
    }

    // It is spent by what has been written of it.
    pub(crate) fn spend(self) {
        let Owed {
            emitter: _,
            variable: _,
        } = self;
    }
}

/// References and tokens of one emitter, which its path must pass on, store, drop, fill or free. They cannot be let go.
pub struct Debts {
    pub(crate) emitter: u32,
    pub(crate) variables: Vec<u32>,
    /// The slots of the tokens.
    pub(crate) spare: Vec<u32>,
}

impl Debts {
    /// No references and no tokens. It takes no memory.
    pub fn new(alloc: Global) -> Self
        ensures variables { result.variables.items ≡ [] }
        ensures spare { result.spare.items ≡ [] }
    {
        Debts {
            emitter: 0,
            variables: Vec::new(alloc),
            spare: Vec::new(alloc),
        }
    }

    /// The variables that own the references, in their order.
    pub fn vars(&self) -> &[u32]
        ensures { result.now ≡ self.now.variables.items }
    {
        &self.variables
    }

    /// Puts a reference behind the others, which are of the same emitter, as the tokens are.
    pub fn put(&mut self, owed: Owed) -> Result<(), Kept>
        requires variables { AreOf owed.emitter self.old.variables.items self.old.emitter }
        requires spare { AreOf owed.emitter self.old.spare.items self.old.emitter }
        ensures emitter { OnOk result (self.new.emitter ≡ owed.emitter) }
        ensures variables { OnOk result (self.new.variables.items ≡ self.old.variables.items ++ owed.variable ∷ []) }
        ensures spare { self.new.spare.items ≡ self.old.spare.items }
        ensures kept { IfErr result (λ kept. kept.held ≡ Held.One owed) }
        ensures same { OnErr result (self.new.emitter ≡ self.old.emitter) }
        ensures unchanged { OnErr result (self.new.variables.items ≡ self.old.variables.items) }
    {
        if self.variables.push(owed.variable).is_err() {
            return Err(Kept::of_one(owed));
        }
        let Owed {
            emitter,
            variable: _,
        } = owed;
        self.emitter = emitter;
        Ok(())
    }

    /// Puts a token behind the others, which are of the same emitter, as the references are.
    pub fn put_spare(&mut self, spare: Spare) -> Result<(), Kept>
        requires variables { AreOf spare.emitter self.old.variables.items self.old.emitter }
        requires spare { AreOf spare.emitter self.old.spare.items self.old.emitter }
        ensures emitter { OnOk result (self.new.emitter ≡ spare.emitter) }
        ensures spare { OnOk result (self.new.spare.items ≡ self.old.spare.items ++ spare.slot ∷ []) }
        ensures variables { self.new.variables.items ≡ self.old.variables.items }
        ensures kept { IfErr result (λ kept. kept.held ≡ Held.Token spare) }
        ensures same { OnErr result (self.new.emitter ≡ self.old.emitter) }
        ensures unchanged { OnErr result (self.new.spare.items ≡ self.old.spare.items) }
    {
        if self.spare.push(spare.slot).is_err() {
            return Err(Kept::of_token(spare));
        }
        let Spare { emitter, slot: _ } = spare;
        self.emitter = emitter;
        Ok(())
    }

    /// Takes the last reference, if there is one.
    pub fn take(&mut self) -> Option<Owed>
        ensures emitter { self.new.emitter ≡ self.old.emitter }
        ensures spare { self.new.spare.items ≡ self.old.spare.items }
        ensures last { IfSome result (λ owed. self.old.variables.items ≡ self.new.variables.items ++ owed.variable ∷ []) }
        ensures of { IfSome result (λ owed. owed.emitter ≡ self.old.emitter) }
        ensures none { IfNone result (self.old.variables.items ≡ []) }
        ensures unchanged { IfNone result (self.new.variables.items ≡ []) }
    {
        match self.variables.pop() {
            Some(variable) => Some(Owed {
                emitter: self.emitter,
                variable,
            }),
            None => None,
        }
    }

    /// Takes the last token, if there is one.
    pub fn take_spare(&mut self) -> Option<Spare>
        ensures emitter { self.new.emitter ≡ self.old.emitter }
        ensures variables { self.new.variables.items ≡ self.old.variables.items }
        ensures last { IfSome result (λ spare. self.old.spare.items ≡ self.new.spare.items ++ spare.slot ∷ []) }
        ensures of { IfSome result (λ spare. spare.emitter ≡ self.old.emitter) }
        ensures none { IfNone result (self.old.spare.items ≡ []) }
        ensures unchanged { IfNone result (self.new.spare.items ≡ []) }
    {
        match self.spare.pop() {
            Some(slot) => Some(Spare {
                emitter: self.emitter,
                slot,
            }),
            None => None,
        }
    }

    /// Spends no references and no tokens.
    pub fn close(self)
        requires variables { self.variables.items ≡ [] }
        requires spare { self.spare.items ≡ [] }
    {
        self.spend();
    }

    // They are spent by what has been written of them.
    pub(crate) fn spend(self) {
        let Debts {
            emitter: _,
            variables: _,
            spare: _,
        } = self;
    }
}

/// The token of an opened cell, or one that is null, which its path must fill or free. It cannot be let go.
pub struct Spare {
    pub(crate) emitter: u32,
    pub(crate) slot: u32,
}

impl Spare {
    /// The slot in which the token stands.
    pub fn slot(&self) -> u32
        ensures { result ≡ self.now.slot }
    {
        self.slot
    }

    // It is spent by what has been written of it.
    pub(crate) fn spend(self) {
        let Spare {
            emitter: _,
            slot: _,
        } = self;
    }
}

/// A branch whose arms are not yet joined. It holds what each arm is to spend that is not entered. It cannot be let go.
pub struct Arms {
    pub(crate) emitter: u32,
    /// How many branches of the emitter were not joined when it began, with itself.
    pub(crate) depth: usize,
    pub(crate) left: Vec<Vec<u32>>,
    /// The slots of the tokens among it.
    pub(crate) spare: Vec<Vec<u32>>,
}

impl Arms {
    // It is spent by what has been written of it.
    pub(crate) fn spend(self) {
        let Arms {
            emitter: _,
            depth: _,
            left: _,
            spare: _,
        } = self;
    }
}

/// How an arm ends. It cannot be let go.
pub enum ArmEnd {
    /// By giving the value that a reference owns. The debts are the tokens that go on behind the branch.
    Value(Owed, Debts),
    /// By a tail call of an instance. Its arguments at owned positions were handed over.
    Tail(u32, Vec<u32>),
}

/// What a call was handed and could not take.
pub enum Held {
    Nothing,
    One(Owed),
    Many(Debts),
    Branch(Arms),
    Token(Spare),
    /// A token and the fields that were to stand in its cell.
    Filling(Spare, Debts),
    /// The value of an arm and the tokens that were to go on behind its branch.
    Ending(Owed, Debts),
}

/// The values that were handed to a call that found no memory. It cannot be let go: `abandon` of its emitter takes it, or
/// `give_up` where the function was to be ended.
pub struct Kept {
    pub(crate) held: Held,
    /// Whether the call was to end its function, and has taken the emitter.
    pub(crate) ended: bool,
}

impl Kept {
    pub(crate) fn of_nothing() -> Self
        ensures held { result.held ≡ Held.Nothing }
        ensures ended { result.ended ≡ false }
    {
        Kept {
            held: Held::Nothing,
            ended: false,
        }
    }

    pub(crate) fn of_one(owed: Owed) -> Self
        ensures held { result.held ≡ Held.One owed }
        ensures ended { result.ended ≡ false }
    {
        Kept {
            held: Held::One(owed),
            ended: false,
        }
    }

    pub(crate) fn of_many(debts: Debts) -> Self
        ensures held { result.held ≡ Held.Many debts }
        ensures ended { result.ended ≡ false }
    {
        Kept {
            held: Held::Many(debts),
            ended: false,
        }
    }

    pub(crate) fn of_branch(arms: Arms) -> Self
        ensures held { result.held ≡ Held.Branch arms }
        ensures ended { result.ended ≡ false }
    {
        Kept {
            held: Held::Branch(arms),
            ended: false,
        }
    }

    pub(crate) fn of_token(spare: Spare) -> Self
        ensures held { result.held ≡ Held.Token spare }
        ensures ended { result.ended ≡ false }
    {
        Kept {
            held: Held::Token(spare),
            ended: false,
        }
    }

    pub(crate) fn of_filling(spare: Spare, debts: Debts) -> Self
        ensures held { result.held ≡ Held.Filling spare debts }
        ensures ended { result.ended ≡ false }
    {
        Kept {
            held: Held::Filling(spare, debts),
            ended: false,
        }
    }

    pub(crate) fn of_end(owed: Owed, debts: Debts) -> Self
        ensures held { result.held ≡ Held.Ending owed debts }
        ensures ended { result.ended ≡ false }
    {
        Kept {
            held: Held::Ending(owed, debts),
            ended: false,
        }
    }

    // The same, of a call that was to end its function.
    pub(crate) fn as_ended(self) -> Self
        ensures held { result.held ≡ self.held }
        ensures ended { result.ended ≡ true }
    {
        let Kept { held, ended: _ } = self;
        Kept { held, ended: true }
    }

    // Its emitter has failed, or is gone: nothing that it writes counts any more.
    pub(crate) fn spend(self) {
        let Kept { held, ended: _ } = self;
        match held {
            Held::Nothing => {}
            Held::One(owed) => owed.spend(),
            Held::Many(debts) => debts.spend(),
            Held::Branch(arms) => arms.spend(),
            Held::Token(spare) => spare.spend(),
            Held::Filling(spare, debts) => {
                spare.spend();
                debts.spend();
            }
            Held::Ending(owed, debts) => {
                owed.spend();
                debts.spend();
            }
        }
    }
}

/// Spends the values of a call that was to end its function, and gives the want of memory.
pub fn give_up(kept: Kept) -> NoMemory
    requires { kept.ended ≡ true }
{
    kept.spend();
    NoMemory
}
