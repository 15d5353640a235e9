ghost use Rattle.std.specs.Prelude.{◌<◌, ℕ, List, All};
ghost use Rattle.kk_source.specs.State.{Setting};
ghost use Rattle.kk_build.specs.Agreement.{Agrees};
ghost use Rattle.kk_build.specs.WithoutLimits.{FollowsWithoutLimits};

use kk_source::runs_follow_without_limits;

/// What agrees with a program on so many cells and with such a depth does what the program means without limits: at every moment its
/// trace is the beginning of one of the program without limits, and where it exits as a program does that ends by itself, that is all
/// of it. It is a law, and does nothing.
pub fn images_follow_their_programs_without_limits()
    ensures { (file : List ℕ) (setting : Setting) (input : List ℕ) → All (λ byte. byte < 256) input → Agrees file setting
        → FollowsWithoutLimits file setting input }
{
    runs_follow_without_limits();
}
