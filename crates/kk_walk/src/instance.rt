ghost use Rattle.std.specs.Prelude.{◌≡◌, [], ◌∷◌, Some, map, slice_get, option_map, IfOk};
ghost use Rattle.kk_syntax.specs.Programs.{program_tree};
ghost use Rattle.kk_syntax.specs.Types.{int32, unit_type, type_tree};
ghost use Rattle.kk_syntax.specs.Typing.{constructing, calling, chosen_at, unary_type, binary_type, constructor_scheme, function_scheme, form_scheme};

use crate::build::{build, build_each, opened};
use crate::walk::Walk;
use kk_base::NoMemory;
use kk_syntax::{BinaryOperator, Form, Program, Taken, Ty, TypeNode, UnaryOperator};
use std::alloc::Global;

/// What a use takes and gives, as nodes.
#[derive(Drop)]
pub struct Instance {
    pub parameters: Vec<u32>,
    pub result: u32,
}

impl Walk {
    ghost use Rattle.kk_walk.specs.Steps.{AnswersInstance, Instantiates};

    /// A form at new nodes for its type variables, which are taken; nothing where there is no such constructor or
    /// function.
    pub fn form(&mut self, program: &Program, form: Form) -> Result<Option<Instance>, NoMemory>
        ensures { AnswersInstance (form_scheme (program_tree program.now) form) (chosen_at form) self.old self.new result }
    {
        match form {
            Form::Number(_) | Form::ReadByte => {
                let instance = self.number()?;
                Ok(Some(instance))
            }
            Form::Unit | Form::PrintText(_, _) => {
                let instance = self.unit()?;
                Ok(Some(instance))
            }
            Form::Unary(operator) => {
                let instance = self.unary(operator)?;
                Ok(Some(instance))
            }
            Form::Binary(operator) => {
                let instance = self.binary(operator)?;
                Ok(Some(instance))
            }
            Form::Print(_) => {
                let instance = self.print()?;
                Ok(Some(instance))
            }
            Form::Construct(constructor) => self.constructor(program, constructor),
            Form::Call(function) => self.function(program, function),
        }
    }

    /// A constructor at new nodes for the variables of its type, which are taken.
    pub fn constructor(
        &mut self,
        program: &Program,
        constructor: u32,
    ) -> Result<Option<Instance>, NoMemory>
        ensures { AnswersInstance (constructor_scheme (program_tree program.now) constructor)
            (λ ts. constructing constructor ts ∷ []) self.old self.new result }
    {
        let made = match program.constructors.get(constructor as usize) {
            Some(made) => made,
            None => return Ok(None),
        };
        let variables = match program.types.get(made.of_type as usize) {
            Some(declaration) => declaration.variables,
            None => 0,
        };
        let at = opened(self.alloc, &mut self.graph, variables)?;
        let parameters = build_each(self.alloc, &mut self.graph, &made.fields, &at)?;
        let arguments = Vec::from_slice(self.alloc, &at)?;
        let result = self.graph.add(TypeNode::Named(made.of_type, arguments))?;
        self.taken.push(Taken::Construct(constructor, at))?;
        Ok(Some(Instance { parameters, result }))
    }

    // A function at new nodes for its type variables, which are taken.
    fn function(&mut self, program: &Program, number: u32) -> Result<Option<Instance>, NoMemory>
        ensures { AnswersInstance (option_map function_scheme (slice_get (program_tree program.now).functions number))
            (λ ts. calling number ts ∷ []) self.old self.new result }
    {
        let function = match program.functions.get(number as usize) {
            Some(function) => function,
            None => return Ok(None),
        };
        let at = opened(self.alloc, &mut self.graph, function.variables)?;
        let parameters = build_each(self.alloc, &mut self.graph, &function.parameters, &at)?;
        let result = build(self.alloc, &mut self.graph, &function.result, &at)?;
        self.taken.push(Taken::Call(number, at))?;
        Ok(Some(Instance { parameters, result }))
    }

    // What takes nothing and gives a number.
    fn number(&mut self) -> Result<Instance, NoMemory>
        ensures { IfOk result (λ instance. Instantiates
            (Some (record { variables = 0; parameters = []; result = int32 }))
            (λ ts. []) self.old self.new instance) }
    {
        self.operator(&[], &Ty::Int32)
    }

    // What takes nothing and gives `()`.
    fn unit(&mut self) -> Result<Instance, NoMemory>
        ensures { IfOk result (λ instance. Instantiates
            (Some (record { variables = 0; parameters = []; result = unit_type }))
            (λ ts. []) self.old self.new instance) }
    {
        self.operator(&[], &Ty::Unit)
    }

    fn unary(&mut self, operator: UnaryOperator) -> Result<Instance, NoMemory>
        ensures { IfOk result (λ instance. Instantiates
            (Some (record { variables = 0; parameters = unary_type operator ∷ []; result = unary_type operator }))
            (λ ts. []) self.old self.new instance) }
    {
        match operator {
            UnaryOperator::Negate => self.operator(&[Ty::Int32], &Ty::Int32),
            UnaryOperator::Not => {
                let truth = Ty::Named(Program::BOOL, Vec::new(self.alloc));
                let truths = [truth];
                self.operator(&truths, &truths[0])
            }
        }
    }

    fn binary(&mut self, operator: BinaryOperator) -> Result<Instance, NoMemory>
        ensures { IfOk result (λ instance. Instantiates
            (Some (record { variables = 0; parameters = int32 ∷ int32 ∷ []; result = binary_type operator }))
            (λ ts. []) self.old self.new instance) }
    {
        let gives = binary_result(self.alloc, operator);
        self.operator(&[Ty::Int32, Ty::Int32], &gives)
    }

    // A print of a number.
    fn print(&mut self) -> Result<Instance, NoMemory>
        ensures { IfOk result (λ instance. Instantiates
            (Some (record { variables = 0; parameters = int32 ∷ []; result = unit_type }))
            (λ ts. []) self.old self.new instance) }
    {
        self.operator(&[Ty::Int32], &Ty::Unit)
    }

    // What takes and gives these types, at no type variables.
    fn operator(&mut self, parameters: &[Ty], gives: &Ty) -> Result<Instance, NoMemory>
        ensures { IfOk result (λ instance. Instantiates
            (Some (record { variables = 0; parameters = map type_tree parameters.now; result = type_tree gives.now }))
            (λ ts. []) self.old self.new instance) }
    {
        let parameters = build_each(self.alloc, &mut self.graph, parameters, &[])?;
        let result = build(self.alloc, &mut self.graph, gives, &[])?;
        Ok(Instance { parameters, result })
    }
}

fn binary_result(alloc: Global, operator: BinaryOperator) -> Ty
    ensures { type_tree result ≡ binary_type operator }
{
    match operator {
        BinaryOperator::Add
        | BinaryOperator::Subtract
        | BinaryOperator::Multiply
        | BinaryOperator::Divide
        | BinaryOperator::Remainder => Ty::Int32,
        BinaryOperator::Equal
        | BinaryOperator::NotEqual
        | BinaryOperator::Less
        | BinaryOperator::LessEqual
        | BinaryOperator::Greater
        | BinaryOperator::GreaterEqual => Ty::Named(Program::BOOL, Vec::new(alloc)),
    }
}
