ghost use Rattle.std.specs.Prelude.{◌≡◌, ℕ, List, IfOk};
ghost use Rattle.kk_counted.specs.TokenedForms.{tokened_program};
ghost use Rattle.kk_respec.specs.Respecialised.{respecialised_program};

use crate::block::mark_block;
use kk_base::NoMemory;
use kk_counted::Tokened;
use std::alloc::Global;

/// The program with constructions in a token's cell that leave the fields that are known to be their arguments. It is marked in
/// place.
///
/// The recursion is as deep as the blocks of the code.
pub fn run(alloc: Global, tokened: Tokened) -> Result<Tokened, NoMemory>
    ensures shape { IfOk result (λ made. made.shape ≡ tokened.shape) }
    ensures program { IfOk result (λ made. (texts : List (List ℕ)) → tokened_program made.functions.items texts
        ≡ respecialised_program (tokened_program tokened.functions.items texts)) }
    ensures body_nodes { IfOk result (λ made. made.body_nodes ≡ tokened.body_nodes) }
    ensures nodes { IfOk result (λ made. made.nodes ≡ tokened.nodes) }
{
    let mut tokened = tokened;
    for function in tokened.functions.iter_mut() {
        mark_block(alloc, &[], &mut function.body)?;
    }
    Ok(tokened)
}
