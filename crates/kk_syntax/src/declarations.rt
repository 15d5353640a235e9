ghost use Rattle.std.specs.Prelude.{◌≡◌, ◌==◌, count_by};
ghost use Rattle.kk_syntax.specs.Declarations.{if_over};

use crate::program::Constructor;
use kk_base::LimitKind;

/// How many constructors are of a type.
pub fn count_of_type(constructors: &[Constructor], of_type: u32) -> usize
    ensures { result ≡ count_by (λ c. c.of_type == of_type) constructors.now }
{
    constructors.iter().filter(|c| c.of_type == of_type).count()
}

/// A quantity of a declaration that has a limit, and the byte at which the text names what has it.
#[derive(Clone, Copy)]
pub struct Quantity {
    pub at: u32,
    pub kind: LimitKind,
    pub count: u64,
}

impl Quantity {
    /// The quantity, if it passes its greatest number.
    pub fn if_over(self) -> Option<Quantity>
        ensures { result ≡ if_over self }
    {
        if self.count > self.kind.greatest() {
            Some(self)
        } else {
            None
        }
    }
}
