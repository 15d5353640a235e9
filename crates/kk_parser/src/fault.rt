ghost use Rattle.std.specs.Prelude.{◌≡◌};
ghost use Rattle.kk_parser.specs.declared.fault.Fault.TheVariants as OfFault;

use kk_base::NoMemory;

/// Why a reading stops. The parser then stands at the token that is the cause.
#[derive(Clone, Copy)]
pub enum Fault {
    /// No program goes on with the next token.
    Unexpected,
    /// The next token opens one level of nesting too many.
    TooDeep,
    NoMemory,
}

impl From<NoMemory> for Fault {
    ghost from_gives = { λ _ fault. fault ≡ OfFault.NoMemory };

    fn from(_error: NoMemory) -> Fault {
        Fault::NoMemory
    }
}
