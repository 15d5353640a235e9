//! What a caller does that has found no memory: it spends all that it holds.

ghost use Rattle.std.specs.Prelude.{◌≡◌, [], true, length};
ghost use Rattle.kk_emitter.specs.Emissions.{counted_of};

use kk_base::NoMemory;
use kk_emitter::{Arms, Debts, Emitter, Kept, Owed, Spare};

/// Spends what a call could not take. The emitter has failed from then on.
pub fn abandoned(emitter: &mut Emitter<'_>, kept: Kept) -> NoMemory
    ensures { (counted_of emitter.new).failed ≡ true }
{
    emitter.abandon(kept);
    NoMemory
}

/// Spends a reference of an emitter that has failed.
pub fn lose(emitter: &mut Emitter<'_>, owed: Owed)
    requires { (counted_of emitter.old).failed ≡ true }
    ensures { (counted_of emitter.new).failed ≡ true }
{
    if let Err(kept) = emitter.drop_ref(owed) {
        emitter.abandon(kept);
    }
}

/// Spends a token of an emitter that has failed.
pub fn lose_token(emitter: &mut Emitter<'_>, spare: Spare)
    requires { (counted_of emitter.old).failed ≡ true }
    ensures { (counted_of emitter.new).failed ≡ true }
{
    if let Err(kept) = emitter.release(spare) {
        emitter.abandon(kept);
    }
}

/// Spends the only reference of some debts of an emitter that has failed.
pub fn lose_only(emitter: &mut Emitter<'_>, mut debts: Debts)
    requires failed { (counted_of emitter.old).failed ≡ true }
    requires one { length debts.variables.items ≡ 1 }
    requires spare { debts.spare.items ≡ [] }
    ensures { (counted_of emitter.new).failed ≡ true }
{
    let Some(owed) = debts.take() else {
        unreachable!();
    };
    debts.close();
    lose(emitter, owed);
}

/// Spends all references and tokens of some debts of an emitter that has failed.
pub fn lose_all(emitter: &mut Emitter<'_>, mut debts: Debts)
    requires { (counted_of emitter.old).failed ≡ true }
    ensures { (counted_of emitter.new).failed ≡ true }
{
    while let Some(owed) = debts.take() {
        lose(emitter, owed);
    }
    while let Some(spare) = debts.take_spare() {
        lose_token(emitter, spare);
    }
    debts.close();
}

/// Spends what is left of a branch of an emitter that has failed, and gives the want of memory.
pub fn lose_arms(emitter: &mut Emitter<'_>, mut arms: Arms) -> NoMemory
    requires { (counted_of emitter.old).failed ≡ true }
    ensures { (counted_of emitter.new).failed ≡ true }
{
    while let Some(debts) = emitter.next_arm(&mut arms) {
        lose_all(emitter, debts);
    }
    match emitter.join(arms) {
        Ok((owed, debts)) => {
            lose(emitter, owed);
            lose_all(emitter, debts);
        }
        Err(kept) => emitter.abandon(kept),
    }
    NoMemory
}
