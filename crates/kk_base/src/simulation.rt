ghost use Rattle.std.specs.Prelude.{ℕ, ◌+◌, ◌*◌, List};
ghost use Rattle.kk_base.specs.Machines.{Machine, state, weight_of, WeighsEach, mapped};
ghost use Rattle.kk_base.specs.Agreements.{IsFollowedBy, Agree};
ghost use Rattle.kk_base.specs.Simulations.{Simulates, Through};

/// The states of three deterministic machines, one on the other, with the same events and endings, and which states stand
/// for which. The laws below hold of all machines with such states.
///
/// Where `lower` does what `upper` does, each step of `upper` takes steps of `lower` that weigh no more, where what earlier
/// steps left over counts; and each step of `lower` pays for `pace` steps of `upper`, so that only so many go by without
/// one. The states from which the steps of `lower` are taken are all `passing`. Of the machines less may be seen: each
/// event as some events, and each ending as another.
pub trait Layers {
    ghost Upper: { Type 0 };

    ghost Lower: { Type 0 };

    ghost Lowest: { Type 0 };

    ghost Event: { Type 0 };

    ghost Ending: { Type 0 };

    ghost SeenEvent: { Type 0 };

    ghost SeenEnding: { Type 0 };

    ghost related: { ℕ → ℕ → Upper → Lower → Type 0 };

    ghost passing: { Lower → Type 0 };

    ghost lowest_related: { ℕ → ℕ → Lower → Lowest → Type 0 };

    ghost lowest_passing: { Lowest → Type 0 };
}

/// Related states of a simulation agree: each trace of one machine is a prefix of one of the other, one ends if and only
/// if the other does, and then their whole traces are equal. What the upper machine does in n steps the lower does in steps
/// that weigh no more than these and the credit. Where each lower step weighs at least 1, that is a bound of their number.
/// It is a law, and does nothing.
pub fn related_states_agree<L: Layers>()
    ensures agree { (upper : Machine L.Upper L.Event L.Ending) (lower : Machine L.Lower L.Event L.Ending) (pace : ℕ) → Simulates upper lower L.related L.passing pace → (credit idle : ℕ) (s : L.Upper) (t : L.Lower) → L.related credit idle s t → Agree upper lower credit (λ m. m * pace + idle + 1) s t }
    ensures in_steps { (upper : Machine L.Upper L.Event L.Ending) (lower : Machine L.Lower L.Event L.Ending) (pace : ℕ) → Simulates upper lower L.related L.passing pace → WeighsEach lower → (credit idle : ℕ) (s : L.Upper) (t : L.Lower) → L.related credit idle s t → IsFollowedBy upper lower (λ n. weight_of upper n s + credit) s t }
{}

/// Every state that the lower machine comes to from a related one is `passing`. It is a law, and does nothing.
pub fn every_state_is_passing<L: Layers>()
    ensures { (upper : Machine L.Upper L.Event L.Ending) (lower : Machine L.Lower L.Event L.Ending) (pace : ℕ) → Simulates upper lower L.related L.passing pace → (credit idle : ℕ) (s : L.Upper) (t : L.Lower) → L.related credit idle s t → (m : ℕ) → L.passing (state lower m t) }
{}

/// Two simulations, one on the other, are one simulation, in which the credits add up. It is a law, and does nothing.
pub fn layers_compose<L: Layers>()
    ensures { (upper : Machine L.Upper L.Event L.Ending) (lower : Machine L.Lower L.Event L.Ending) (lowest : Machine L.Lowest L.Event L.Ending) (pace lowest_pace : ℕ) → Simulates upper lower L.related L.passing pace → Simulates lower lowest L.lowest_related L.lowest_passing lowest_pace → Simulates upper lowest (Through L.related L.lowest_related pace) L.lowest_passing (lowest_pace * pace) }
{}

/// What is seen of the machines of a simulation is a simulation. It is a law, and does nothing.
pub fn seen_machines_simulate<L: Layers>()
    ensures { (upper : Machine L.Upper L.Event L.Ending) (lower : Machine L.Lower L.Event L.Ending) (pace : ℕ) (events : L.Event → List L.SeenEvent) (ending : L.Ending → L.SeenEnding) → Simulates upper lower L.related L.passing pace → Simulates (mapped events ending upper) (mapped events ending lower) L.related L.passing pace }
{}

/// Two agreements, one on the other, are one agreement, in which the credits add up; and what is seen of machines that
/// agree agrees. It is a law, and does nothing.
pub fn agreements_compose<L: Layers>()
    ensures composed { (upper : Machine L.Upper L.Event L.Ending) (lower : Machine L.Lower L.Event L.Ending) (lowest : Machine L.Lowest L.Event L.Ending) (credit lowest_credit : ℕ) (up lowest_up : ℕ → ℕ) (s : L.Upper) (t : L.Lower) (u : L.Lowest) → Agree upper lower credit up s t → Agree lower lowest lowest_credit lowest_up t u → Agree upper lowest (credit + lowest_credit) (λ m. up (lowest_up m)) s u }
    ensures seen { (upper : Machine L.Upper L.Event L.Ending) (lower : Machine L.Lower L.Event L.Ending) (events : L.Event → List L.SeenEvent) (ending : L.Ending → L.SeenEnding) (credit : ℕ) (up : ℕ → ℕ) (s : L.Upper) (t : L.Lower) → Agree upper lower credit up s t → Agree (mapped events ending upper) (mapped events ending lower) credit up s t }
{}
