ghost use Rattle.std.specs.Prelude.{ℕ, List};
ghost use Rattle.kk_syntax.specs.Checked.{IsChecked};
ghost use Rattle.kk_syntax.specs.Covered.{Each};
ghost use Rattle.kk_syntax.specs.Matches.{IsFunctionCovered};
ghost use Rattle.kk_syntax.specs.Programs.{ProgramTree};
ghost use Rattle.kk_syntax.specs.Surface.{WrittenTree};
ghost use Rattle.kk_syntax.specs.Typing.{Choice, ArePrincipal, TypesAs};
ghost use Rattle.kk_names.specs.Names.{ResolvesAs};
ghost use Rattle.kk_mono.specs.Counts.{KeepsCounts};
ghost use Rattle.kk_syntax.specs.Declarations.{DeclarationsAs};
ghost use Rattle.kk_front.specs.Judgement.{IsProgramOf};

use kk_names::{resolved_programs_have_main, resolved_programs_have_truths_and_texts};

/// An accepted program is the meaning of a tree, it is typed, its matches are covered, it is checked with its principal
/// typings, and it keeps each limit: on the parameters and on the nodes of a function, on the fields of a constructor, on the
/// constructors of a type, on the number of its instances, and on their nodes in all. It is a law, and does nothing.
pub fn accepted_programs_are_typed()
    ensures typed { (text : List ℕ) (program : ProgramTree) → IsProgramOf text program → TypesAs program (Ok tt) }
    ensures covered { (text : List ℕ) (program : ProgramTree) → IsProgramOf text program → Each (IsFunctionCovered program) program.functions }
    ensures checked { (text : List ℕ) (program : ProgramTree) (typings : List (List Choice)) → IsProgramOf text program
        → ArePrincipal program typings → IsChecked program typings }
    ensures declarations { (text : List ℕ) (program : ProgramTree) → IsProgramOf text program → DeclarationsAs program (Ok tt) }
    ensures resolved { (text : List ℕ) (program : ProgramTree) → IsProgramOf text program
        → (tree : WrittenTree) × ResolvesAs tree (Ok program) }
    ensures small { (text : List ℕ) (program : ProgramTree) → IsProgramOf text program → KeepsCounts program }
{
    resolved_programs_have_main();
    resolved_programs_have_truths_and_texts();
}
