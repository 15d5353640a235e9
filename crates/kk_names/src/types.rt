//! The types of a program by their names: those that are there before, and those that it declares.

ghost use Rattle.std.specs.Prelude.{◌≡◌, [], ◌∷◌, ◌++◌, map, length, IfOk};
ghost use Rattle.kk_syntax.specs.Programs.{constructor_tree};
ghost use Rattle.kk_syntax.specs.Surface.{written_constructor, written_declaration, written_parameter};
ghost use Rattle.kk_names.specs.Faults.{second_names, parameter_faults, field_faults, faults_in_type, faults_in_types};
ghost use Rattle.kk_names.specs.Methods.{known_of, Notes, NotesInside};
ghost use Rattle.kk_names.specs.Names.{bool_type, bool_constructors, types_of, constructor_of, cases_of, constructors_of};
ghost use Rattle.kk_names.specs.Names.{bool_constructor};
ghost use Rattle.kk_names.specs.Tables.{names_of};
ghost use Rattle.kk_syntax.specs.declared.tree.Declaration.TheVariants as OfDeclaration;

use crate::declaration::behind;
use crate::fault::FaultKind;
use crate::resolver::Resolver;
use crate::scope::place_of;
use kk_base::{Name, NoMemory};
use kk_syntax::{
    Constructor, ConstructorDeclaration, Declaration, Identifier, Program, TypeDecl,
    TypeDeclaration,
};
use std::alloc::Global;

/// The types of a text and their constructors, with those that are built in.
#[derive(Drop)]
pub struct AllTypes {
    pub types: Vec<TypeDecl>,
    pub constructors: Vec<Constructor>,
}

impl Resolver {
    /// What the declared types mean.
    pub fn all_types(&mut self, declarations: &[Declaration]) -> Result<AllTypes, NoMemory>
        ensures types { IfOk result (λ all. all.types.items ≡ bool_type ∷ types_of 2 (map written_declaration declarations.now)) }
        ensures constructors { IfOk result (λ all. map constructor_tree all.constructors.items
            ≡ bool_constructors ++ constructors_of (known_of self.old) 1 (map written_declaration declarations.now)) }
        ensures notes { IfOk result (λ _. NotesInside (faults_in_types (known_of self.old) (map written_declaration declarations.now)) self.old self.new) }
    {
        let mut types = types_built_in(self.alloc)?;
        let mut constructors = constructors_built_in(self.alloc)?;
        for declaration in declarations {
            if let Declaration::Type(declared) = declaration {
                self.declared_type(declared, &mut types, &mut constructors)?;
            }
        }
        Ok(AllTypes {
            types,
            constructors,
        })
    }

    // Adds what a declared type and its constructors mean.
    fn declared_type(
        &mut self,
        declared: &TypeDeclaration,
        types: &mut Vec<TypeDecl>,
        constructors: &mut Vec<Constructor>,
    ) -> Result<(), NoMemory>
        ensures types { IfOk result (λ _. types.new.items
            ≡ types.old.items ++ types_of (length constructors.old.items) (written_declaration (OfDeclaration.Type declared.now) ∷ [])) }
        ensures constructors { IfOk result (λ _. map constructor_tree constructors.new.items
            ≡ map constructor_tree constructors.old.items
            ++ constructors_of (known_of self.old) (length types.old.items) (written_declaration (OfDeclaration.Type declared.now) ∷ [])) }
        ensures notes { IfOk result (λ _. NotesInside (faults_in_type (known_of self.old) (written_declaration (OfDeclaration.Type declared.now))) self.old self.new) }
    {
        let number = number_of(types.len())?;
        let first_constructor = number_of(constructors.len())?;
        let parameters = self.type_parameters(declared.parameters.as_slice())?;
        self.cases(
            declared.constructors.as_slice(),
            number,
            parameters.as_slice(),
            constructors,
        )?;
        let name = declared.name.name.copied(self.alloc)?;
        let variables = number_of(declared.parameters.len())?;
        let constructor_count = number_of(declared.constructors.len())?;
        types.push(TypeDecl {
            name,
            at: declared.name.at,
            variables,
            first_constructor,
            constructor_count,
        })?;
        Ok(())
    }

    // The names of the type variables of a declared type.
    fn type_parameters(&mut self, parameters: &[Identifier]) -> Result<Vec<Name>, NoMemory>
        ensures notes { IfOk result (λ _. Notes (second_names [] parameters.now) self.old self.new) }
        ensures names { IfOk result (λ names. names.items ≡ names_of parameters.now) }
    {
        let mut names = Vec::new(self.alloc);
        for parameter in parameters {
            let is_second = place_of(names.as_slice(), &parameter.name).is_some();
            self.note_if(is_second, FaultKind::Twice, parameter)?;
            let name = parameter.name.copied(self.alloc)?;
            names.push(name)?;
        }
        Ok(names)
    }

    // Adds what the constructors of a type of that number and with those type variables mean.
    fn cases(
        &mut self,
        cases: &[ConstructorDeclaration],
        number: u32,
        variables: &[Name],
        constructors: &mut Vec<Constructor>,
    ) -> Result<(), NoMemory>
        ensures constructors { IfOk result (λ _. map constructor_tree constructors.new.items
            ≡ map constructor_tree constructors.old.items ++ cases_of (known_of self.old) variables.now number 0 (map written_constructor cases.now)) }
        ensures notes { IfOk result (λ _. NotesInside (field_faults (known_of self.old) variables.now (map written_constructor cases.now)) self.old self.new) }
    {
        let mut tag: u32 = 0;
        for case in cases {
            let constructor = self.case(case, number, tag, variables)?;
            constructors.push(constructor)?;
            tag = behind(tag)?;
        }
        Ok(())
    }

    // What a constructor means. Its fields are resolved as the parameters of a function.
    fn case(
        &mut self,
        case: &ConstructorDeclaration,
        of_type: u32,
        tag: u32,
        variables: &[Name],
    ) -> Result<Constructor, NoMemory>
        ensures tree { IfOk result (λ constructor. constructor_tree constructor
            ≡ constructor_of (known_of self.old) variables.now of_type tag (written_constructor case.now)) }
        ensures notes { IfOk result (λ _. NotesInside (parameter_faults (known_of self.old) variables.now [] (map written_parameter case.now.fields.items)) self.old self.new) }
    {
        self.scope.clear();
        self.next = 0;
        let fields = self.parameters(case.fields.as_slice(), variables)?;
        let name = case.name.name.copied(self.alloc)?;
        Ok(Constructor {
            name,
            at: case.name.at,
            of_type,
            tag,
            fields,
        })
    }
}

// A number of something. There is no room for more than a `u32` can number.
fn number_of(count: usize) -> Result<u32, NoMemory>
    ensures { IfOk result (λ number. number ≡ count) }
{
    if count > u32::MAX as usize {
        return Err(NoMemory);
    }
    Ok(count as u32)
}

/// The types that are built in: `bool`.
pub fn types_built_in(alloc: Global) -> Result<Vec<TypeDecl>, NoMemory>
    ensures { IfOk result (λ types. types.items ≡ bool_type ∷ []) }
{
    let name = Name::new(String::from_str(alloc, "bool")?);
    let mut types = Vec::new(alloc);
    types.push(TypeDecl {
        name,
        at: 0,
        variables: 0,
        first_constructor: Program::FALSE,
        constructor_count: 2,
    })?;
    Ok(types)
}

/// The constructors that are built in: `False` and `True`.
pub fn constructors_built_in(alloc: Global) -> Result<Vec<Constructor>, NoMemory>
    ensures { IfOk result (λ constructors. map constructor_tree constructors.items ≡ bool_constructors) }
{
    let negative = constructor(alloc, "False", 0)?;
    let positive = constructor(alloc, "True", 1)?;
    let mut constructors = Vec::new(alloc);
    constructors.push(negative)?;
    constructors.push(positive)?;
    Ok(constructors)
}

fn constructor(alloc: Global, name: &str, tag: u32) -> Result<Constructor, NoMemory>
    ensures { IfOk result (λ constructor. constructor_tree constructor ≡ bool_constructor name.now tag) }
{
    let name = Name::new(String::from_str(alloc, name)?);
    Ok(Constructor {
        name,
        at: 0,
        of_type: Program::BOOL,
        tag,
        fields: Vec::new(alloc),
    })
}
