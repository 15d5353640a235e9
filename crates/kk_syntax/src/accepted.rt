ghost use Rattle.kk_syntax.specs.Checked.{IsChecked};
ghost use Rattle.kk_syntax.specs.Programs.{program_tree};
ghost use Rattle.kk_syntax.specs.TypedPrograms.{typings_of};

use crate::ground::Ground;
use crate::typed::Typed;

/// A text that is accepted: its program with its types, and its instances. The program is checked: it is typed by these types,
/// its matches are covered, the literals that it prints are there, and its `main` takes nothing and gives `()`.
#[derive(Drop)]
pub struct Accepted {
    pub typed: Typed,
    pub instances: Ground,
    pub ghost checked: { ∥ IsChecked (program_tree typed.program) (typings_of typed) ∥₁ },
}
