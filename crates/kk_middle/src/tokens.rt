ghost use Rattle.kk_syntax.specs.Checked.{IsChecked};
ghost use Rattle.kk_syntax.specs.declared.ground.Ground.{Ground};
ghost use Rattle.kk_syntax.specs.declared.typed.Typed.{Typed};
ghost use Rattle.kk_syntax.specs.GroundPrograms.{ground_program};
ghost use Rattle.kk_syntax.specs.Programs.{program_tree};
ghost use Rattle.kk_syntax.specs.TypedPrograms.{typings_of};
ghost use Rattle.kk_mono.specs.Grounds.{AreGiven};
ghost use Rattle.kk_counted.specs.declared.counted.Counted.{Counted};
ghost use Rattle.kk_counted.specs.declared.tokened.Tokened.{Tokened};
ghost use Rattle.kk_middle.specs.Compiled.{IsCompiled, IsTokenedOf};
ghost use Rattle.kk_middle.specs.FunctionWords.{HaveFewWords};
ghost use Rattle.kk_middle.specs.TokenLowerings.{tokened_of, TokensCanBeLowered};

use crate::lowering::{compiled_programs_are_short, compiled_programs_open_few_cells};
use crate::meaning::compiled_core_forms_are_insertable;
use kk_dropspec::{specialised_code_ends_as_well, specialised_code_takes_as_many_words};
use kk_fuse::{fused_code_ends_as_well, fused_code_takes_no_more_words};
use kk_insert::{inserted_code_ends_well, inserted_code_takes_few_words};
use kk_norm::{core_forms_are_small, core_forms_stand_for_their_nodes};
use kk_respec::{
    respecialised_code_can_be_lowered, respecialised_code_has_its_form,
    respecialised_code_takes_as_many_words,
};
use kk_reuse::{
    paired_code_can_be_lowered, paired_code_costs_what_it_has_room_for, paired_code_has_few_slots,
    paired_code_is_short, paired_code_spends_its_tokens, paired_code_takes_few_words,
};

/// The tokens of a compiled program can be lowered: without them it is its counted form, of which the other laws speak; its slots
/// are few, each token is spent once on each path, and held at calls alone; a construction leaves only fields that are known to be
/// its arguments, and takes the newest token; and its length and its costs with tokens are bounded. It is a law, and does nothing.
pub fn compiled_tokens_can_be_lowered()
    ensures { (typed : Typed) (given : Ground) (counted : Counted) (made : Tokened)
        → IsChecked (program_tree typed.program) (typings_of typed) → AreGiven typed given
        → IsCompiled typed given counted → IsTokenedOf counted made → TokensCanBeLowered counted made given }
{
    compiled_programs_are_short();
    compiled_programs_open_few_cells();
    paired_code_spends_its_tokens();
    paired_code_costs_what_it_has_room_for();
    paired_code_can_be_lowered();
    paired_code_has_few_slots();
    paired_code_is_short();
    respecialised_code_has_its_form();
    respecialised_code_can_be_lowered();
}

/// Each function of a compiled program with its tokens takes few words of an image, by the nodes of the body of its instance: 116
/// for each, four for each pair of them, and 72. It is a law, and does nothing.
pub fn compiled_programs_take_few_words()
    ensures { (typed : Typed) (given : Ground) (counted : Counted) (made : Tokened)
        → IsChecked (program_tree typed.program) (typings_of typed) → AreGiven typed given
        → IsCompiled typed given counted → IsTokenedOf counted made
        → HaveFewWords (ground_program given).functions (tokened_of made given).functions }
{
    compiled_core_forms_are_insertable();
    core_forms_are_small();
    core_forms_stand_for_their_nodes();
    inserted_code_takes_few_words();
    inserted_code_ends_well();
    specialised_code_takes_as_many_words();
    specialised_code_ends_as_well();
    fused_code_takes_no_more_words();
    fused_code_ends_as_well();
    paired_code_takes_few_words();
    respecialised_code_takes_as_many_words();
}
