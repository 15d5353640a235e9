ghost use Rattle.std.specs.Prelude.{◌≡◌};
ghost use Rattle.kk_mono.specs.declared.error.MonoError.{MonoError};

use kk_base::{Limit, NoMemory};

/// Why a program's instances are not given.
#[derive(Clone, Copy)]
pub enum MonoError {
    /// The limit that the program passes first.
    Over(Limit),
    NoMemory,
}

impl From<NoMemory> for MonoError {
    ghost from_gives = { λ _ error. error ≡ MonoError.NoMemory };

    fn from(_error: NoMemory) -> MonoError {
        MonoError::NoMemory
    }
}
