ghost use Rattle.std.specs.Prelude.{◌≡◌, IfOk};
ghost use Rattle.kk_names.specs.Tables.{meaning_in, type_in, means, means_type, built_in_types, built_in_constructors, built_in_functions};

use kk_base::{Name, NoMemory};
use kk_syntax::{Form, PrintForm, Program};
use std::alloc::Global;

/// What a name of a function or of a constructor means.
#[derive(Clone, Copy)]
pub struct Callee {
    pub form: Form,
    /// The number of arguments that the form has.
    pub parameters: usize,
}

/// What a name of a type means.
#[derive(Clone, Copy)]
pub struct TypeMeaning {
    /// The number of the type; `int32` has none.
    pub number: Option<u32>,
    /// The number of arguments that the type has.
    pub parameters: usize,
}

/// A name, and what it means.
#[derive(Drop)]
pub struct Declared {
    pub name: Name,
    pub callee: Callee,
}

/// A name of a type, and what it means.
#[derive(Drop)]
pub struct DeclaredType {
    pub name: Name,
    pub meaning: TypeMeaning,
}

/// What a name of a type means: what the first of that name in the table does.
pub fn type_in(table: &[DeclaredType], name: &Name) -> Option<TypeMeaning>
    ensures { result ≡ type_in table.now name.now }
{
    for declared in table {
        if declared.name.as_str() == name.as_str() {
            return Some(declared.meaning);
        }
    }
    None
}

/// What a name of a constructor or of a function means: what the first of that name in the table does.
pub fn meaning_in(table: &[Declared], name: &Name) -> Option<Callee>
    ensures { result ≡ meaning_in table.now name.now }
{
    for declared in table {
        if declared.name.as_str() == name.as_str() {
            return Some(declared.callee);
        }
    }
    None
}

/// The functions that are built in: `print`, `println` and `read-byte`.
pub fn built_in_functions(alloc: Global) -> Result<Vec<Declared>, NoMemory>
    ensures { IfOk result (λ table. table.items ≡ built_in_functions) }
{
    let print = built_in(alloc, "print", Form::Print(PrintForm::Print), 1)?;
    let line = built_in(alloc, "println", Form::Print(PrintForm::PrintLine), 1)?;
    let read = built_in(alloc, "read-byte", Form::ReadByte, 0)?;
    let mut table = Vec::new(alloc);
    table.push(print)?;
    table.push(line)?;
    table.push(read)?;
    Ok(table)
}

fn built_in(alloc: Global, name: &str, form: Form, parameters: usize) -> Result<Declared, NoMemory>
    ensures { IfOk result (λ declared. declared ≡ means name.now form parameters) }
{
    let name = Name::new(String::from_str(alloc, name)?);
    let callee = Callee { form, parameters };
    Ok(Declared { name, callee })
}

/// The constructors that are built in: `False` and `True`.
pub fn built_in_constructors(alloc: Global) -> Result<Vec<Declared>, NoMemory>
    ensures { IfOk result (λ table. table.items ≡ built_in_constructors) }
{
    let negative = built_in(alloc, "False", Form::Construct(Program::FALSE), 0)?;
    let positive = built_in(alloc, "True", Form::Construct(Program::TRUE), 0)?;
    let mut table = Vec::new(alloc);
    table.push(negative)?;
    table.push(positive)?;
    Ok(table)
}

/// The types that are built in: `int32` and `bool`.
pub fn built_in_types(alloc: Global) -> Result<Vec<DeclaredType>, NoMemory>
    ensures { IfOk result (λ table. table.items ≡ built_in_types) }
{
    let number = built_in_type(alloc, "int32", None)?;
    let truth = built_in_type(alloc, "bool", Some(Program::BOOL))?;
    let mut table = Vec::new(alloc);
    table.push(number)?;
    table.push(truth)?;
    Ok(table)
}

fn built_in_type(alloc: Global, name: &str, number: Option<u32>) -> Result<DeclaredType, NoMemory>
    ensures { IfOk result (λ declared. declared ≡ means_type name.now number 0) }
{
    let name = Name::new(String::from_str(alloc, name)?);
    let meaning = TypeMeaning {
        number,
        parameters: 0,
    };
    Ok(DeclaredType { name, meaning })
}
