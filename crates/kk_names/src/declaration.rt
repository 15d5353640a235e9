ghost use Rattle.std.specs.Prelude.{◌≡◌, ◌+◌, [], ◌∷◌, map, length, IfOk, vec_len};
ghost use Rattle.kk_syntax.specs.Surface.{written_constructor, written_declaration, type_variable, types_of as writtens_of};
ghost use Rattle.kk_syntax.specs.Surface.{written_type, written_parameter, written_result};
ghost use Rattle.kk_names.specs.Methods.{state_of, behind_types, behind_cases, behind_constructors, behind_functions};
ghost use Rattle.kk_names.specs.Methods.{behind_declarations, known_of, Notes, MeansType, MeansTypes, ResolvesParameters};
ghost use Rattle.kk_syntax.specs.Types.{type_tree, types_of};
ghost use Rattle.kk_names.specs.Faults.{named_faults, result_faults};
ghost use Rattle.kk_names.specs.TypeNames.{applied_type, result_meant};
ghost use Rattle.kk_syntax.specs.declared.tree.Declaration.TheVariants as OfDeclaration;

use crate::fault::FaultKind;
use crate::resolver::Resolver;
use crate::scope::{number_in, place_of};
use crate::table::{Callee, Declared, DeclaredType, TypeMeaning, meaning_in, type_in};
use kk_base::{Name, NoMemory};
use kk_syntax::{
    ConstructorDeclaration, Declaration, Form, FunctionDeclaration, Identifier, Parameter,
    SurfaceType, Ty, TypeDeclaration,
};

impl Resolver {
    /// Declares the types, the constructors and the functions of a text, so that each declaration sees them all.
    pub fn declare(&mut self, declarations: &[Declaration]) -> Result<(), NoMemory>
        ensures { IfOk result (λ _. state_of self.new ≡ behind_declarations (map written_declaration declarations.now) (state_of self.old)) }
    {
        self.declare_types(declarations)?;
        self.declare_constructors(declarations)?;
        self.declare_functions(declarations)
    }

    // Declares the types. `bool` has number 0.
    fn declare_types(&mut self, declarations: &[Declaration]) -> Result<(), NoMemory>
        ensures { IfOk result (λ _. state_of self.new ≡ behind_types 1 (map written_declaration declarations.now) (state_of self.old)) }
    {
        let mut number: u32 = 1;
        for declaration in declarations {
            if let Declaration::Type(declared) = declaration {
                self.declare_type(number, declared)?;
                number = behind(number)?;
            }
        }
        Ok(())
    }

    fn declare_type(&mut self, number: u32, declared: &TypeDeclaration) -> Result<(), NoMemory>
        ensures { IfOk result (λ _. state_of self.new ≡ behind_types number (written_declaration (OfDeclaration.Type declared.now) ∷ []) (state_of self.old)) }
    {
        let name = &declared.name;
        let is_second = type_in(self.types.as_slice(), &name.name).is_some();
        self.note_if(is_second, FaultKind::Twice, name)?;
        let meaning = TypeMeaning {
            number: Some(number),
            parameters: declared.parameters.len(),
        };
        let name = name.name.copied(self.alloc)?;
        self.types.push(DeclaredType { name, meaning })?;
        Ok(())
    }

    // Declares the constructors. `False` and `True` have numbers 0 and 1.
    fn declare_constructors(&mut self, declarations: &[Declaration]) -> Result<(), NoMemory>
        ensures { IfOk result (λ _. state_of self.new ≡ behind_constructors 2 (map written_declaration declarations.now) (state_of self.old)) }
    {
        let mut number: u32 = 2;
        for declaration in declarations {
            if let Declaration::Type(declared) = declaration {
                number = self.declare_cases(number, declared.constructors.as_slice())?;
            }
        }
        Ok(())
    }

    // Declares the constructors of a type, from that number on; gives the number behind them.
    fn declare_cases(
        &mut self,
        first: u32,
        cases: &[ConstructorDeclaration],
    ) -> Result<u32, NoMemory>
        ensures number { IfOk result (λ number. number ≡ first + length cases.now) }
        ensures state { IfOk result (λ _. state_of self.new ≡ behind_cases first (map written_constructor cases.now) (state_of self.old)) }
    {
        let mut number = first;
        for case in cases {
            self.declare_case(number, case)?;
            number = behind(number)?;
        }
        Ok(number)
    }

    fn declare_case(&mut self, number: u32, case: &ConstructorDeclaration) -> Result<(), NoMemory>
        ensures { IfOk result (λ _. state_of self.new ≡ behind_cases number (written_constructor case.now ∷ []) (state_of self.old)) }
    {
        let name = &case.name;
        let is_second = meaning_in(self.constructors.as_slice(), &name.name).is_some();
        self.note_if(is_second, FaultKind::Twice, name)?;
        let callee = Callee {
            form: Form::Construct(number),
            parameters: case.fields.len(),
        };
        let name = name.name.copied(self.alloc)?;
        self.constructors.push(Declared { name, callee })?;
        Ok(())
    }

    // Declares the functions.
    fn declare_functions(&mut self, declarations: &[Declaration]) -> Result<(), NoMemory>
        ensures { IfOk result (λ _. state_of self.new ≡ behind_functions 0 (map written_declaration declarations.now) (state_of self.old)) }
    {
        let mut number: u32 = 0;
        for declaration in declarations {
            if let Declaration::Function(declared) = declaration {
                self.declare_function(number, declared)?;
                number = behind(number)?;
            }
        }
        Ok(())
    }

    fn declare_function(
        &mut self,
        number: u32,
        declared: &FunctionDeclaration,
    ) -> Result<(), NoMemory>
        ensures { IfOk result (λ _. state_of self.new ≡ behind_functions number (written_declaration (OfDeclaration.Function declared.now) ∷ []) (state_of self.old)) }
    {
        let name = &declared.name;
        let is_second = meaning_in(self.functions.as_slice(), &name.name).is_some();
        self.note_if(is_second, FaultKind::Twice, name)?;
        let callee = Callee {
            form: Form::Call(number),
            parameters: declared.parameters.len(),
        };
        let name = name.name.copied(self.alloc)?;
        self.functions.push(Declared { name, callee })?;
        Ok(())
    }
}

/// The number behind that one. There is no room for more of a kind than a `u32` can number.
pub fn behind(number: u32) -> Result<u32, NoMemory>
    ensures { IfOk result (λ next. next ≡ number + 1) }
{
    match number.checked_add(1) {
        Some(next) => Ok(next),
        None => Err(NoMemory),
    }
}

impl Resolver {
    /// What the parameters of a function mean, where those type variables are seen. They are its first variables.
    pub fn parameters(
        &mut self,
        parameters: &[Parameter],
        variables: &[Name],
    ) -> Result<Vec<Ty>, NoMemory>
        ensures { IfOk result (λ types. ResolvesParameters variables.now (map written_parameter parameters.now) self.old self.new (map type_tree types.items)) }
    {
        let mut types = Vec::new(self.alloc);
        for parameter in parameters {
            let name = &parameter.name;
            let is_second = number_in(self.scope.as_slice(), &name.name).is_some();
            self.note_if(is_second, FaultKind::Twice, name)?;
            let of_type = self.of_type(&parameter.of_type, variables)?;
            let number = self.number()?;
            self.bind(name, number)?;
            types.push(of_type)?;
        }
        Ok(types)
    }

    /// What the type of a function's result means.
    pub fn result(
        &mut self,
        written: &Option<SurfaceType>,
        variables: &[Name],
    ) -> Result<Ty, NoMemory>
        ensures notes { IfOk result (λ _. Notes (result_faults (known_of self.old) variables.now (written_result written.now)) self.old self.new) }
        ensures tree { IfOk result (λ t. type_tree t ≡ result_meant (known_of self.old) variables.now (written_result written.now)) }
    {
        match written {
            Some(written) => self.of_type(written, variables),
            None => Ok(Ty::Unit),
        }
    }

    /// What a type means. The recursion is as deep as the type.
    #[cycle(types)]
    fn of_type(&mut self, written: &SurfaceType, variables: &[Name]) -> Result<Ty, NoMemory>
        ensures { IfOk result (λ t. MeansType variables.now (written_type written.now) self.old self.new (type_tree t)) }
    {
        match written {
            SurfaceType::Unit => Ok(Ty::Unit),
            SurfaceType::Variable(name) => self.type_variable(name, variables),
            SurfaceType::Named(name, arguments) => {
                let arguments = self.of_types(arguments, variables)?;
                let meaning = type_in(self.types.as_slice(), &name.name);
                self.named_type(meaning, name, arguments)
            }
        }
    }

    /// What types mean, from left to right.
    #[cycle(types)]
    fn of_types(&mut self, types: &[SurfaceType], variables: &[Name]) -> Result<Vec<Ty>, NoMemory>
        ensures { IfOk result (λ ts. MeansTypes variables.now (writtens_of (map written_type types.now)) self.old self.new (types_of (map type_tree ts.items))) }
    {
        let mut resolved = Vec::new(self.alloc);
        for written in types {
            let t = self.of_type(written, variables)?;
            resolved.push(t)?;
        }
        Ok(resolved)
    }

    /// What a type variable means. There is no room for more of them than a `u32` can number.
    fn type_variable(&mut self, name: &Identifier, variables: &[Name]) -> Result<Ty, NoMemory>
        ensures { IfOk result (λ t. MeansType variables.now (type_variable name.now) self.old self.new (type_tree t)) }
    {
        match place_of(variables, &name.name) {
            Some(place) => {
                if place > u32::MAX as usize {
                    return Err(NoMemory);
                }
                Ok(Ty::Variable(place as u32))
            }
            None => {
                self.note(FaultKind::Unknown, name)?;
                Ok(Ty::Unit)
            }
        }
    }

    /// What a name of a type makes of its arguments.
    fn named_type(
        &mut self,
        meaning: Option<TypeMeaning>,
        name: &Identifier,
        arguments: Vec<Ty>,
    ) -> Result<Ty, NoMemory>
        ensures { IfOk result (λ t. Notes (named_faults meaning name.now (vec_len arguments)) self.old self.new
            × (type_tree t ≡ applied_type meaning (types_of (map type_tree arguments.items)))) }
    {
        match meaning {
            Some(meaning) => {
                if meaning.parameters != arguments.len() {
                    self.note(FaultKind::Arity, name)?;
                }
                match meaning.number {
                    Some(number) => Ok(Ty::Named(number, arguments)),
                    None => Ok(Ty::Int32),
                }
            }
            None => {
                self.note(FaultKind::Unknown, name)?;
                Ok(Ty::Unit)
            }
        }
    }
}
