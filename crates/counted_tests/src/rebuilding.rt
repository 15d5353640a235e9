//! What functions that rebuild a cell begin with: the cell is opened, and the function calls itself while the token is held.

ghost use Rattle.std.specs.Prelude.{◌≡◌, ◌∷◌, [], true, false, IfOk, OnOk, OnErr};
ghost use Rattle.kk_syntax.specs.declared.positions.Ownership.TheVariants.{Owned};
ghost use Rattle.kk_counted.specs.TokenedForms.{TokenedMove, opens_with};
ghost use Rattle.kk_emitter.specs.Drafts.{begun, given, unpacked, computed, Writes, Owns};
ghost use Rattle.kk_emitter.specs.TokenDrafts.{no_tokens, adds, gains, under_holds};
ghost use Rattle.kk_emitter.specs.Emissions.{counted_of, tokens_of};
ghost use Rattle.counted_tests.specs.CellTables.{table_of};

use crate::losing::{abandoned, lose_all};
use kk_base::NoMemory;
use kk_emitter::{Debts, Emitter, Owed};
use kk_syntax::Form;
use std::alloc::Global;

/// Opens the parameter, a box, by its count. What was inside and the token are to be spent then.
pub fn opened_box(emitter: &mut Emitter<'_>) -> Result<Debts, NoMemory>
    requires counted { counted_of emitter.old ≡ begun ((Owned ∷ []) ∷ []) (1 ∷ []) (table_of ((true ∷ []) ∷ [])) 0 }
    requires tokens { tokens_of emitter.old ≡ no_tokens }
    ensures ok { OnOk result (counted_of emitter.new ≡ unpacked (given (counted_of emitter.old) 0) true 0 0 1) }
    ensures tokens { OnOk result (tokens_of emitter.new ≡ gains no_tokens (opens_with true 0 0 (1 ∷ []) (1 ∷ []) 0)) }
    ensures variables { IfOk result (λ debts. debts.variables.items ≡ 1 ∷ []) }
    ensures spare { IfOk result (λ debts. debts.spare.items ≡ 0 ∷ []) }
    ensures emitter { IfOk result (λ debts. debts.emitter ≡ 0) }
{
    let cell = emitter.param(0)?;
    let (mut debts, spare) = match emitter.unpack_unique(cell, 0, 1) {
        Ok(both) => both,
        Err(kept) => return Err(abandoned(emitter, kept)),
    };
    if let Err(kept) = debts.put_spare(spare) {
        let error = abandoned(emitter, kept);
        lose_all(emitter, debts);
        return Err(error);
    }
    Ok(debts)
}

/// Calls the function on a reference, while all tokens are held.
pub fn called_again(alloc: Global, emitter: &mut Emitter<'_>, inner: Owed) -> Result<Owed, NoMemory>
    requires writes { Writes (counted_of emitter.old) }
    requires owns { Owns (counted_of emitter.old) inner.emitter inner.variable }
    requires positions { (counted_of emitter.old).positions ≡ (Owned ∷ []) ∷ [] }
    ensures going { OnOk result ((counted_of emitter.old).failed ≡ false) }
    ensures ok { OnOk result (counted_of emitter.new ≡ computed (counted_of emitter.old) (Form.Call 0) (inner.variable ∷ []) (inner.variable ∷ [])) }
    ensures tokens { OnOk result (tokens_of emitter.new ≡ adds (tokens_of emitter.old) (under_holds (tokens_of emitter.old).spare (TokenedMove.computes (counted_of emitter.old).next (Form.Call 0) (inner.variable ∷ []) (tokens_of emitter.old).spare))) }
    ensures owed { IfOk result (λ owed. (owed.emitter ≡ (counted_of emitter.old).instance) × (owed.variable ≡ (counted_of emitter.old).next)) }
    ensures failed { OnErr result ((counted_of emitter.new).failed ≡ true) }
{
    let argument = match emitter.hand_over(inner) {
        Ok(argument) => argument,
        Err(kept) => return Err(abandoned(emitter, kept)),
    };
    let Ok(arguments) = Vec::from_slice(alloc, &[argument]) else {
        return Err(emitter.fail());
    };
    match emitter.called(0, arguments) {
        Ok(value) => Ok(value),
        Err(kept) => Err(abandoned(emitter, kept)),
    }
}
