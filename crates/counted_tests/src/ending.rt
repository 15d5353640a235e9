//! How arms and functions are ended: by a value or a tail call, where a branch is joined or there is none.

ghost use Rattle.std.specs.Prelude.{◌≡◌, ◌∷◌, [], true, false, None, IfOk, OnOk, OnErr};
ghost use Rattle.kk_syntax.specs.declared.positions.Ownership.TheVariants.{Owned};
ghost use Rattle.kk_emitter.specs.Emitting.{BecomesMarked};
ghost use Rattle.kk_counted.specs.TokenedCodes.{Tokened};
ghost use Rattle.kk_counted.specs.TokenedForms.{TokenedMove};
ghost use Rattle.kk_emitter.specs.Drafts.{joined, finished as finished_code, ended_by_value, Writes, IsOnly, AreNewest, IsBetween, IsInArm};
ghost use Rattle.kk_emitter.specs.TokenDrafts.{spends, ended_with, tokens_joined, tokens_ended_by, tokens_ended_in};
ghost use Rattle.kk_emitter.specs.Emissions.{counted_of, tokens_of};
ghost use Rattle.kk_emitter.specs.TokenEmitting.{HasSpare, HasNoSpare, HasAllSpare, CanEnd, EndsTokenArm, IsTokenedFunctionOf};
ghost use Rattle.kk_emitter.specs.Works.{left_in};

use crate::losing::{abandoned, lose, lose_all, lose_arms};
use kk_base::NoMemory;
use kk_counted::TokenedFun;
use kk_emitter::{ArmEnd, Arms, Debts, Emitter, Owed, Spare, give_up};

/// Ends the arm that is written, or spends what is left of its branch.
pub fn ended(emitter: &mut Emitter<'_>, end: ArmEnd, arms: Arms) -> Result<Arms, NoMemory>
    requires inside { (counted_of emitter.old).failed ≡ false → (counted_of emitter.old).inside ≡ true }
    requires arm { (counted_of emitter.old).failed ≡ false → IsInArm (counted_of emitter.old).splits }
    requires ends { EndsTokenArm (counted_of emitter.old) (tokens_of emitter.old) end }
    ensures going { OnOk result ((counted_of emitter.old).failed ≡ false) }
    ensures ok { OnOk result (counted_of emitter.new ≡ ended_with (counted_of emitter.old) end) }
    ensures tokens { OnOk result (tokens_of emitter.new ≡ tokens_ended_by (tokens_of emitter.old) end) }
    ensures same { IfOk result (λ left. left ≡ arms) }
    ensures failed { OnErr result ((counted_of emitter.new).failed ≡ true) }
{
    match emitter.end_arm(end) {
        Ok(()) => Ok(arms),
        Err(kept) => {
            emitter.abandon(kept);
            Err(lose_arms(emitter, arms))
        }
    }
}

/// Frees a token, and ends the arm by a value and the other tokens.
pub fn given_without(
    emitter: &mut Emitter<'_>,
    value: Owed,
    spare: Spare,
    others: Debts,
    arms: Arms,
) -> Result<Arms, NoMemory>
    requires writes { Writes (counted_of emitter.old) }
    requires arm { (counted_of emitter.old).failed ≡ false → IsInArm (counted_of emitter.old).splits }
    requires only { IsOnly (counted_of emitter.old) value.emitter value.variable }
    requires has { HasSpare (counted_of emitter.old) (tokens_of emitter.old) spare.emitter spare.slot }
    requires alone { others.variables.items ≡ [] }
    requires rest { HasAllSpare (counted_of emitter.old) (spends (tokens_of emitter.old) (TokenedMove.frees spare.slot) spare.slot) others.emitter others.spare.items }
    requires can { (counted_of emitter.old).failed ≡ false → CanEnd (spends (tokens_of emitter.old) (TokenedMove.frees spare.slot) spare.slot) false (tokens_of emitter.old).splits }
    requires value { (counted_of emitter.old).failed ≡ false → (tokens_of emitter.old).ending ≡ None }
    ensures going { OnOk result ((counted_of emitter.old).failed ≡ false) }
    ensures ok { OnOk result (counted_of emitter.new ≡ ended_by_value (counted_of emitter.old) value.variable) }
    ensures tokens { OnOk result (tokens_of emitter.new ≡ tokens_ended_in (spends (tokens_of emitter.old) (TokenedMove.frees spare.slot) spare.slot) (Tokened.give value.variable) false (tokens_of emitter.old).splits) }
    ensures same { IfOk result (λ left. left ≡ arms) }
    ensures failed { OnErr result ((counted_of emitter.new).failed ≡ true) }
{
    if let Err(kept) = emitter.release(spare) {
        emitter.abandon(kept);
        lose(emitter, value);
        lose_all(emitter, others);
        return Err(lose_arms(emitter, arms));
    }
    ended(emitter, ArmEnd::Value(value, others), arms)
}

/// Ends the function by the value that a reference owns.
pub fn completed(emitter: Emitter<'_>, value: Owed) -> Result<TokenedFun, NoMemory>
    requires inside { (counted_of emitter).failed ≡ false → (counted_of emitter).inside ≡ true }
    requires joined { (counted_of emitter).failed ≡ false → (counted_of emitter).splits ≡ [] }
    requires called { (counted_of emitter).failed ≡ false → (counted_of emitter).uncalled ≡ [] }
    requires only { IsOnly (counted_of emitter) value.emitter value.variable }
    requires none { HasNoSpare (counted_of emitter) (tokens_of emitter) }
    requires marked { BecomesMarked (counted_of emitter) (finished_code (counted_of emitter) value.variable) }
    ensures { IfOk result (λ function. IsTokenedFunctionOf (counted_of emitter.entry).positions (counted_of emitter.entry).instance function) }
{
    match emitter.finish(value) {
        Ok(function) => Ok(function),
        Err(kept) => Err(give_up(kept)),
    }
}

/// Joins the branch, which leaves no token, and ends the function by its value.
pub fn finished(mut emitter: Emitter<'_>, arms: Arms) -> Result<TokenedFun, NoMemory>
    requires between { IsBetween (counted_of emitter) }
    requires newest { (counted_of emitter).failed ≡ false → AreNewest (counted_of emitter).splits arms.depth [] }
    requires left { left_in arms.left.items ≡ [] }
    requires instance { (counted_of emitter).instance ≡ 0 }
    requires of { ((joined (counted_of emitter)).instance ≡ 0) × ((joined (counted_of emitter)).positions ≡ (Owned ∷ []) ∷ []) }
    requires inside { (joined (counted_of emitter)).inside ≡ true }
    requires joined { (joined (counted_of emitter)).splits ≡ [] }
    requires called { (joined (counted_of emitter)).uncalled ≡ [] }
    requires only { (joined (counted_of emitter)).owed ≡ (counted_of emitter).next ∷ [] }
    requires marked { BecomesMarked (joined (counted_of emitter)) (finished_code (joined (counted_of emitter)) (counted_of emitter).next) }
    requires none { (tokens_joined (tokens_of emitter) (counted_of emitter).next).spare ≡ [] }
    ensures { IfOk result (λ function. IsTokenedFunctionOf ((Owned ∷ []) ∷ []) 0 function) }
{
    let (value, debts) = match emitter.join(arms) {
        Ok(both) => both,
        Err(kept) => return Err(abandoned(&mut emitter, kept)),
    };
    debts.close();
    completed(emitter, value)
}
