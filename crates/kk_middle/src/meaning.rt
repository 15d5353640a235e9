ghost use Rattle.std.specs.Prelude.{ℕ, List};
ghost use Rattle.kk_syntax.specs.Checked.{IsChecked};
ghost use Rattle.kk_syntax.specs.declared.ground.Ground.{Ground};
ghost use Rattle.kk_syntax.specs.declared.typed.Typed.{Typed};
ghost use Rattle.kk_syntax.specs.GroundPrograms.{ground_program};
ghost use Rattle.kk_syntax.specs.GroundTyping.{table_of};
ghost use Rattle.kk_syntax.specs.Programs.{program_tree};
ghost use Rattle.kk_syntax.specs.Shapes.{greatest_nodes};
ghost use Rattle.kk_syntax.specs.TypedPrograms.{typings_of};
ghost use Rattle.kk_source.specs.Settings.{setting_of};
ghost use Rattle.kk_mono.specs.Grounds.{AreGiven};
ghost use Rattle.kk_core.specs.Codes.{core_code};
ghost use Rattle.kk_core.specs.CoreTyping.{IsCoreTyped};
ghost use Rattle.kk_counted.specs.declared.counted.Counted.{Counted};
ghost use Rattle.kk_insert.specs.Promise.{IsInsertable};
ghost use Rattle.kk_middle.specs.LentNames.{AllKeepLent};
ghost use Rattle.kk_middle.specs.Compiled.{instance_positions, IsCompiled};
ghost use Rattle.kk_middle.specs.MarkedPrograms.{IsMarkedByShape};
ghost use Rattle.kk_middle.specs.Meaning.{counted_setting, store_steps, KeepsMeaning};
ghost use Rattle.kk_middle.specs.ShapeKinds.{HasKindsByShape};

use crate::law::{owned_positions_of_instances_are_closed, tail_calls_of_core_forms_lend_on};
use kk_core::{typed_code_has_its_kinds, typed_code_is_never_stuck};
use kk_counted::judged_code_keeps_its_heap_sound;
use kk_dropspec::{
    specialised_code_can_be_lowered, specialised_code_has_its_kinds, specialised_code_is_spent,
    specialised_code_runs_the_same,
};
use kk_fuse::{
    fused_code_has_its_kinds, fused_code_is_spent, fused_code_runs_the_same,
    short_code_has_few_steps,
};
use kk_insert::{
    inserted_code_has_its_kinds, inserted_code_is_short, inserted_code_is_spent,
    inserted_code_keeps_meaning, typed_code_is_insertable,
};
use kk_instances::instances_mean_the_program;
use kk_norm::{
    core_forms_are_small, core_forms_ask_what_types_tell, core_forms_of_typed_programs_are_typed,
    core_forms_of_typed_programs_cost_little,
};

/// The core form of an accepted program is typed, and may be inserted. It is a law, and does nothing.
pub(crate) fn compiled_core_forms_are_insertable()
    ensures typed { (typed : Typed) (given : Ground) (made : Counted) → IsChecked (program_tree typed.program) (typings_of typed)
        → AreGiven typed given → (compiled : IsCompiled typed given made)
        → IsCoreTyped (table_of (ground_program given)) (core_code compiled.core) }
    ensures insertable { (typed : Typed) (given : Ground) (made : Counted)
        → IsChecked (program_tree typed.program) (typings_of typed)
        → AreGiven typed given
        → (compiled : IsCompiled typed given made) → AllKeepLent (program_tree typed.program) compiled.table
        → IsInsertable (instance_positions given compiled.table) (core_code compiled.core) }
{
    owned_positions_of_instances_are_closed();
    tail_calls_of_core_forms_lend_on();
    core_forms_of_typed_programs_are_typed();
    core_forms_are_small();
    typed_code_is_insertable();
}

/// The counted form of an accepted program keeps the program's meaning: on every input, with any cells and depth, its machine
/// tells the same notes as the store machine and ends alike, and the steps that do one step of the store machine cost at most 256
/// times the square of the nodes of the greatest body of the instances, on the whole. It is never stuck, its heap is sound in each
/// state, and no cell is left where it ends by itself. It is a law, and does nothing.
pub fn compiled_programs_keep_meaning()
    ensures { (typed : Typed) (given : Ground) (made : Counted) → IsChecked (program_tree typed.program) (typings_of typed)
        → AreGiven typed given
        → (compiled : IsCompiled typed given made) → AllKeepLent (program_tree typed.program) compiled.table
        → (cells depth : ℕ) (input : List ℕ)
        → KeepsMeaning (setting_of (program_tree typed.program) compiled.table cells depth)
        (instance_positions given compiled.table) (counted_setting made given cells depth)
        (greatest_nodes (ground_program given)) (store_steps (ground_program given)) input }
{
    compiled_core_forms_are_insertable();
    core_forms_of_typed_programs_cost_little();
    typed_code_is_never_stuck();
    core_forms_are_small();
    inserted_code_is_spent();
    inserted_code_is_short();
    inserted_code_has_its_kinds();
    inserted_code_keeps_meaning();
    specialised_code_is_spent();
    specialised_code_can_be_lowered();
    specialised_code_has_its_kinds();
    specialised_code_runs_the_same();
    fused_code_is_spent();
    fused_code_runs_the_same();
    short_code_has_few_steps();
    judged_code_keeps_its_heap_sound();
}

/// In each state of a run of the counted form of an accepted program, values are of the kinds that the code takes, by the tags that
/// the program's shape tells; and the code has the shape of a typed program. It is a law, and does nothing.
pub fn compiled_programs_have_their_kinds()
    ensures { (typed : Typed) (given : Ground) (made : Counted) → IsChecked (program_tree typed.program) (typings_of typed)
        → AreGiven typed given
        → (compiled : IsCompiled typed given made) → AllKeepLent (program_tree typed.program) compiled.table
        → (cells depth : ℕ) (input : List ℕ)
        → HasKindsByShape made.shape.constructors.items (counted_setting made given cells depth) input }
{
    compiled_core_forms_are_insertable();
    typed_code_is_never_stuck();
    core_forms_ask_what_types_tell();
    typed_code_has_its_kinds();
    core_forms_are_small();
    inserted_code_is_spent();
    inserted_code_is_short();
    inserted_code_has_its_kinds();
    specialised_code_is_spent();
    specialised_code_can_be_lowered();
    specialised_code_has_its_kinds();
    specialised_code_runs_the_same();
    fused_code_has_its_kinds();
    fused_code_runs_the_same();
    short_code_has_few_steps();
    judged_code_keeps_its_heap_sound();
}

/// The variables of the counted form of an accepted program are marked by the types that its shape tells: a variable is marked
/// exactly where its type has cells. It is a law, and does nothing.
pub fn compiled_programs_are_marked()
    ensures { (typed : Typed) (given : Ground) (made : Counted) → IsChecked (program_tree typed.program) (typings_of typed)
        → AreGiven typed given → IsCompiled typed given made → IsMarkedByShape made given }
{
    instances_mean_the_program();
    core_forms_of_typed_programs_are_typed();
}
