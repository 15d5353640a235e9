ghost use Rattle.std.specs.Prelude.{IfOk};
ghost use Rattle.kk_syntax.specs.Checked.{IsChecked};
ghost use Rattle.kk_syntax.specs.OwnedPositions.{IsLeast};
ghost use Rattle.kk_syntax.specs.PositionsOf.{PositionTable};
ghost use Rattle.kk_syntax.specs.Programs.{program_tree};
ghost use Rattle.kk_syntax.specs.TypedPrograms.{typings_of};
ghost use Rattle.kk_mono.specs.Grounds.{AreGiven};
ghost use Rattle.kk_counted.specs.declared.counted.Counted.{Counted};
ghost use Rattle.kk_middle.specs.LentNames.{AllKeepLent};
ghost use Rattle.kk_middle.specs.Compiled.{IsCompiled, IsTokenedOf};

use crate::law::{
    core_constructors_are_consistent, owned_positions_of_instances_are_closed,
    tail_calls_of_core_forms_lend_on,
};
use crate::positions::positions_of_instances;
use kk_base::NoMemory;
use kk_borrow::owned;
use kk_counted::Tokened;
use kk_insert::typed_code_is_insertable;
use kk_instances::instances_mean_the_program;
use kk_norm::normal;
use kk_syntax::Accepted;
use std::alloc::Global;

/// The counted form of an accepted program with its tokens. Five passes make it of the core form of its instances. `kk_insert` puts
/// in dups and drops, so that each variable that owns a reference is used up once on each path. `kk_dropspec` makes each opening of
/// a cell go by the cell's count. `kk_fuse` cancels each dup with the next drop of its variable, where only dups, drops and readings
/// of other variables and plain forms stand between them. `kk_reuse` lets a construction with fields take the newest token that its
/// function has left, if there is one: so it uses that cell again, where the cell had no other reference. `kk_respec` lets it leave
/// each field whose argument is the variable that the opening of that cell bound to the field, where the opening's variables differ
/// and none of them is bound anew in between. The end of a block inside ends this: behind it all fields are written in the cells of
/// tokens from before it.
///
/// The recursion is as deep as the deepest expression.
pub fn compile(alloc: Global, accepted: &Accepted) -> Result<Tokened, NoMemory>
    requires checked { IsChecked (program_tree accepted.now.typed.program) (typings_of accepted.now.typed) }
    requires given { AreGiven accepted.now.typed accepted.now.instances }
    requires lent { (positions : PositionTable) → IsLeast (program_tree accepted.now.typed.program) positions
        → AllKeepLent (program_tree accepted.now.typed.program) positions }
    ensures { IfOk result (λ made. (counted : Counted) × IsCompiled accepted.now.typed accepted.now.instances counted
        × IsTokenedOf counted made) }
{
    instances_mean_the_program();
    let core = normal(alloc, &accepted.instances)?;
    let table = owned(alloc, &accepted.typed.program)?;
    let positions = positions_of_instances(alloc, &table, &accepted.instances)?;
    owned_positions_of_instances_are_closed();
    tail_calls_of_core_forms_lend_on();
    typed_code_is_insertable();
    core_constructors_are_consistent();
    let counted = kk_insert::run(alloc, &core, &positions)?;
    let special = kk_dropspec::run(alloc, counted)?;
    let fused = kk_fuse::run(alloc, special)?;
    let paired = kk_reuse::run(alloc, fused)?;
    let made = kk_respec::run(alloc, paired)?;
    Ok(made)
}
