ghost use Rattle.std.specs.Prelude.{◌≡◌};
ghost use Rattle.kk_base.specs.Limits.{limit_word_of, greatest_of};

/// A quantity of a program that has a greatest number.
#[derive(Clone, Copy)]
pub enum LimitKind {
    /// Bytes of the source text.
    Source,
    /// Parameters of a function.
    Parameters,
    /// Fields of a constructor.
    Fields,
    /// Constructors of a type.
    Constructors,
    /// Nodes of a function's body.
    FunctionNodes,
    /// Ground instances of a program.
    Instances,
    /// Nodes summed over the ground instances.
    ProgramNodes,
}

impl LimitKind {
    /// The word that a line tells.
    pub fn word(self) -> &'static str
        ensures { result.now ≡ limit_word_of self }
    {
        match self {
            LimitKind::Source => "source",
            LimitKind::Parameters => "parameters",
            LimitKind::Fields => "fields",
            LimitKind::Constructors => "constructors",
            LimitKind::FunctionNodes => "function-nodes",
            LimitKind::Instances => "instances",
            LimitKind::ProgramNodes => "program-nodes",
        }
    }

    /// The greatest number that is allowed.
    pub fn greatest(self) -> u64
        ensures { result ≡ greatest_of self }
    {
        match self {
            LimitKind::Source => 65_536,
            LimitKind::Parameters => 8,
            LimitKind::Fields => 6,
            LimitKind::Constructors => 255,
            LimitKind::FunctionNodes => 480,
            LimitKind::Instances => 1_024,
            LimitKind::ProgramNodes => 8_192,
        }
    }
}

/// A quantity that passes its greatest number.
#[derive(Clone, Copy)]
pub struct Limit {
    pub kind: LimitKind,
    pub count: u64,
}
