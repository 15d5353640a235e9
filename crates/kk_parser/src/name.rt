ghost use Rattle.std.specs.Prelude.{◌≡◌};
ghost use Rattle.std.specs.List.{list_all};
ghost use Rattle.std.specs.Char.{is_ascii_digit};
ghost use Rattle.kk_parser.specs.Classes.{name_class, has_variable_shape};
ghost use Rattle.kk_parser.specs.Kinds.{is_name_in};
ghost use Rattle.kk_parser.specs.Views.{class_view, classes_in};

use kk_syntax::Effect;

/// What the grammar tells apart of a name: the words that it knows, the shape of a type variable, and all others.
#[derive(Clone, Copy)]
pub enum NameClass {
    Print,
    PrintLine,
    Main,
    Effect(Effect),
    /// One lower-case letter, and digits or nothing.
    TypeVariable,
    Other,
}

/// A set of names that a place of the grammar takes.
#[derive(Clone, Copy)]
pub enum Names {
    All,
    /// `print` and `println`.
    Prints,
    /// All but `print` and `println`.
    ButPrints,
    /// `main` alone.
    Main,
    /// All but `main`.
    ButMain,
    /// The names of type variables.
    TypeVariables,
    /// The names of types: all but those with the shape of a type variable.
    OfTypes,
    /// The names of types, the words of effects aside.
    OfTypesButEffects,
}

impl Names {
    /// Whether a name of this class is in the set.
    pub fn has(self, class: NameClass) -> bool
        ensures { result ≡ is_name_in (classes_in self) (class_view class) }
    {
        match self {
            Names::All => true,
            Names::Prints => matches!(class, NameClass::Print | NameClass::PrintLine),
            Names::ButPrints => !matches!(class, NameClass::Print | NameClass::PrintLine),
            Names::Main => matches!(class, NameClass::Main),
            Names::ButMain => !matches!(class, NameClass::Main),
            Names::TypeVariables => matches!(class, NameClass::TypeVariable),
            Names::OfTypes => !matches!(class, NameClass::TypeVariable),
            Names::OfTypesButEffects => {
                !matches!(class, NameClass::TypeVariable | NameClass::Effect(_))
            }
        }
    }
}

/// The class of a name.
pub fn name_class(name: &str) -> NameClass
    ensures { class_view result ≡ name_class name.now }
{
    if name == "print" {
        return NameClass::Print;
    }
    if name == "println" {
        return NameClass::PrintLine;
    }
    if name == "main" {
        return NameClass::Main;
    }
    if name == "total" {
        return NameClass::Effect(Effect::Total);
    }
    if name == "div" {
        return NameClass::Effect(Effect::Div);
    }
    if name == "exn" {
        return NameClass::Effect(Effect::Exn);
    }
    if name == "console" {
        return NameClass::Effect(Effect::Console);
    }
    if has_variable_shape(name) {
        return NameClass::TypeVariable;
    }
    NameClass::Other
}

/// Whether a name is one lower-case letter, with digits behind it or nothing.
fn has_variable_shape(name: &str) -> bool
    ensures { result ≡ has_variable_shape name.now }
{
    match name.as_bytes().split_first() {
        Some((first, digits)) => first.is_ascii_lowercase() && are_digits(digits),
        None => false,
    }
}

// Whether each byte is a digit.
fn are_digits(text: &[u8]) -> bool
    ensures { result ≡ list_all is_ascii_digit text.now }
{
    text.iter().all(|byte| byte.is_ascii_digit())
}
