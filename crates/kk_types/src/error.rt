ghost use Rattle.std.specs.Prelude.{◌≡◌};
ghost use Rattle.kk_types.specs.declared.error.TypeError.TheVariants.{NoMemory as OutOfMemory};

use kk_base::NoMemory;
use std::alloc::AllocFailed;

/// Why a program is not typed.
#[derive(Clone, Copy)]
pub enum TypeError {
    /// The number of the first function that is not typed, in the order of the text, from 0.
    NotTyped { function: u32 },
    NoMemory,
}

impl From<NoMemory> for TypeError {
    ghost from_gives = { λ _ e. e ≡ OutOfMemory };

    fn from(_error: NoMemory) -> TypeError {
        TypeError::NoMemory
    }
}

impl<T: Drop> From<AllocFailed<T>> for TypeError {
    ghost from_gives = { λ _ e. e ≡ OutOfMemory };

    fn from(_error: AllocFailed<T>) -> TypeError {
        TypeError::NoMemory
    }
}
