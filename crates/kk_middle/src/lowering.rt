ghost use Rattle.std.specs.Prelude.{◌-◌, ◌≤◌, ℕ};
ghost use Rattle.kk_syntax.specs.Checked.{IsChecked};
ghost use Rattle.kk_syntax.specs.declared.ground.Ground.{Ground};
ghost use Rattle.kk_syntax.specs.declared.typed.Typed.{Typed};
ghost use Rattle.kk_syntax.specs.GroundPrograms.{ground_program};
ghost use Rattle.kk_syntax.specs.Programs.{program_tree};
ghost use Rattle.kk_syntax.specs.Shapes.{greatest_nodes};
ghost use Rattle.kk_syntax.specs.TypedPrograms.{typings_of};
ghost use Rattle.kk_mono.specs.Grounds.{AreGiven};
ghost use Rattle.kk_counted.specs.declared.counted.Counted.{Counted};
ghost use Rattle.kk_counted.specs.Lengths.{AreShort};
ghost use Rattle.kk_counted.specs.Lowerable.{AllOpenByCount};
ghost use Rattle.kk_counted.specs.Programs.{program_of};
ghost use Rattle.kk_counted.specs.TokenCosts.{OpenAtMost};
ghost use Rattle.kk_middle.specs.Compiled.{IsCompiled};
ghost use Rattle.kk_middle.specs.LentNames.{AllKeepLent};
ghost use Rattle.kk_middle.specs.Lowerings.{CanBeLowered};

use crate::meaning::compiled_core_forms_are_insertable;
use kk_dropspec::{
    specialised_code_can_be_lowered, specialised_code_opens_by_count,
    specialised_code_opens_no_more,
};
use kk_fuse::{fused_code_can_be_lowered, fused_code_opens_by_count, fused_code_opens_no_more};
use kk_insert::{
    inserted_code_can_be_lowered, inserted_code_is_short, inserted_code_is_spent,
    inserted_code_opens_no_more, typed_code_is_marked,
};
use kk_norm::{
    core_forms_are_small, core_forms_are_whole, core_forms_have_few_variables,
    core_forms_open_few_cells,
};

/// The counted form of an accepted program can be lowered: its functions are few, their variables are numbered in order, and no more
/// than nodes and parameters, and each spends few references on a path; constructors have few fields and small tags. It is a law, and does nothing.
pub fn compiled_programs_can_be_lowered()
    ensures { (typed : Typed) (given : Ground) (made : Counted) → IsChecked (program_tree typed.program) (typings_of typed)
        → AreGiven typed given → (compiled : IsCompiled typed given made)
        → AllKeepLent (program_tree typed.program) compiled.table → CanBeLowered made given }
{
    compiled_core_forms_are_insertable();
    core_forms_are_small();
    core_forms_are_whole();
    core_forms_have_few_variables();
    typed_code_is_marked();
    inserted_code_is_spent();
    inserted_code_can_be_lowered();
    specialised_code_can_be_lowered();
    fused_code_can_be_lowered();
}

/// The counted form of an accepted program is short, and has few forms on values: so its image has a known greatest length. It is a
/// law, and does nothing.
pub fn compiled_programs_are_short()
    ensures { (typed : Typed) (given : Ground) (made : Counted) → IsChecked (program_tree typed.program) (typings_of typed)
        → AreGiven typed given → IsCompiled typed given made
        → AreShort (program_of made.functions.items given.texts.items).functions }
{
    compiled_core_forms_are_insertable();
    core_forms_are_small();
    inserted_code_is_short();
    specialised_code_can_be_lowered();
    fused_code_can_be_lowered();
}

/// The counted form of an accepted program opens fewer cells on a path than the greatest body of its instances has nodes: so a function
/// has few tokens. It is a law, and does nothing.
pub fn compiled_programs_open_few_cells()
    ensures { (typed : Typed) (given : Ground) (made : Counted) → IsCompiled typed given made
        → (nodes : ℕ) → greatest_nodes (ground_program given) ≤ nodes
        → OpenAtMost (nodes - 1) (program_of made.functions.items given.texts.items) }
{
    core_forms_open_few_cells();
    inserted_code_opens_no_more();
    specialised_code_opens_no_more();
    fused_code_opens_no_more();
}

/// In the counted form of an accepted program each opening goes by the count of the cell. It is a law, and does nothing.
pub fn compiled_programs_open_by_count()
    ensures { (typed : Typed) (given : Ground) (made : Counted) → IsCompiled typed given made
        → AllOpenByCount (program_of made.functions.items given.texts.items).functions }
{
    specialised_code_opens_by_count();
    fused_code_opens_by_count();
}
