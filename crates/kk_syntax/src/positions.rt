ghost use Rattle.std.specs.Prelude.{◌≡◌};
ghost use Rattle.kk_syntax.specs.PositionsOf.{is_lent, lends, positions_of};

/// How an argument is passed at a parameter.
#[derive(Clone, Copy)]
pub enum Ownership {
    /// The called function has it.
    Owned,
    /// The caller keeps it until the call returns.
    Lent,
}

/// A function and one of its parameters, both by their numbers, from 0.
#[derive(Clone, Copy)]
pub struct Position {
    pub function: usize,
    pub parameter: usize,
}

/// For each function and each parameter, whether it is owned or lent; one that is not told of is owned.
#[derive(Drop)]
pub struct Positions {
    /// By the function's number, and the parameter's.
    pub functions: Vec<Vec<Ownership>>,
}

impl Ownership {
    /// Whether it is lent.
    pub fn is_lent(self) -> bool
        ensures { result ≡ lends self }
    {
        match self {
            Ownership::Owned => false,
            Ownership::Lent => true,
        }
    }
}

impl Positions {
    /// Whether a position is lent.
    pub fn is_lent(&self, position: Position) -> bool
        ensures { result ≡ is_lent (positions_of self.now) position.function position.parameter }
    {
        match self.functions.get(position.function) {
            Some(parameters) => match parameters.get(position.parameter) {
                Some(ownership) => ownership.is_lent(),
                None => false,
            },
            None => false,
        }
    }
}
