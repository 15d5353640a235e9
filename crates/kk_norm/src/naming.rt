ghost use Rattle.std.specs.Prelude.{◌≡◌};
ghost use Rattle.kk_norm.specs.Names.{name_of};
ghost use Rattle.kk_norm.specs.Written.{names_of};

/// A variable of a source function, and the variable of the core form that has its value.
#[derive(Clone, Copy, Drop)]
pub struct Named {
    pub variable: u32,
    pub name: u32,
}

/// The name of a variable: the last one that it is given, or its own number.
pub fn name_among(names: &[Named], variable: u32) -> u32
    ensures { result ≡ name_of (names_of names.now) variable }
{
    let mut name = variable;
    for named in names {
        if named.variable == variable {
            name = named.name;
        }
    }
    name
}
