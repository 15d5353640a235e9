ghost use Rattle.std.specs.Prelude.{◌≡◌, ◌+◌, ◌≤◌, [], ◌∷◌, map, None, IfOk, vec_len};
ghost use Rattle.kk_syntax.specs.Depths.{deepest, depth_of};
ghost use Rattle.kk_syntax.specs.Trees.{expr_tree, trees_of};
ghost use Rattle.kk_names.specs.Expressions.{alone, applied};
ghost use Rattle.kk_syntax.specs.Surface.{variable, print_text};
ghost use Rattle.kk_names.specs.Faults.{fault_at, use_faults};
ghost use Rattle.kk_names.specs.Methods.{known_of, before_of, Notes, Resolves, Binds, faults_if};
ghost use Rattle.kk_names.specs.Scopes.{binding, with_variable};
ghost use Rattle.kk_names.specs.Tables.{built_in_types, built_in_constructors, built_in_functions};

use crate::fault::{Fault, FaultKind};
use crate::scope::{Bound, number_in};
use crate::table::{
    Callee, Declared, DeclaredType, built_in_constructors, built_in_functions, built_in_types,
};
use kk_base::NoMemory;
use kk_syntax::{Expr, Form, Identifier, PrintForm, StringLiteral};
use std::alloc::Global;

/// What resolves the names of a text. It goes on behind a fault, and keeps the first one.
#[derive(Drop)]
pub struct Resolver {
    pub alloc: Global,
    /// The types that are built in, and those of the text.
    pub types: Vec<DeclaredType>,
    /// The constructors that are built in, and those of the text.
    pub constructors: Vec<Declared>,
    /// The functions that are built in, and those of the text.
    pub functions: Vec<Declared>,
    /// The variables that are seen. The last one of a name counts.
    pub scope: Vec<Bound>,
    /// The number of the next variable.
    pub next: u32,
    /// The string literals that are printed so far.
    pub texts: Vec<StringLiteral>,
    /// The first fault so far.
    pub first: Option<Fault>,
}

impl Resolver {
    /// A resolver that knows the names that are built in.
    pub fn new(alloc: Global) -> Result<Self, NoMemory>
        ensures types { IfOk result (λ r. r.types.items ≡ built_in_types) }
        ensures constructors { IfOk result (λ r. r.constructors.items ≡ built_in_constructors) }
        ensures functions { IfOk result (λ r. r.functions.items ≡ built_in_functions) }
        ensures texts { IfOk result (λ r. r.texts.items ≡ []) }
        ensures first { IfOk result (λ r. r.first ≡ None) }
    {
        let types = built_in_types(alloc)?;
        let constructors = built_in_constructors(alloc)?;
        let functions = built_in_functions(alloc)?;
        Ok(Resolver {
            alloc,
            types,
            constructors,
            functions,
            scope: Vec::new(alloc),
            next: 0,
            texts: Vec::new(alloc),
            first: None,
        })
    }

    /// Notes a fault.
    pub fn note(&mut self, kind: FaultKind, name: &Identifier) -> Result<(), NoMemory>
        ensures { IfOk result (λ _. Notes (fault_at kind name.now ∷ []) self.old self.new) }
    {
        let is_first = match &self.first {
            Some(first) => first.is_behind(kind, name.at),
            None => true,
        };
        if is_first {
            let at = name.at;
            let name = name.name.copied(self.alloc)?;
            self.first = Some(Fault { kind, name, at });
        }
        Ok(())
    }

    /// Notes a fault, if it is one.
    pub fn note_if(
        &mut self,
        is_fault: bool,
        kind: FaultKind,
        name: &Identifier,
    ) -> Result<(), NoMemory>
        ensures { IfOk result (λ _. Notes (faults_if is_fault kind name.now) self.old self.new) }
    {
        if is_fault {
            self.note(kind, name)?;
        }
        Ok(())
    }

    /// What a variable is where it is used.
    pub fn variable(&mut self, name: &Identifier) -> Result<Expr, NoMemory>
        ensures resolves { IfOk result (λ e. Resolves (variable name.now) self.old self.new (expr_tree e)) }
        ensures depth { IfOk result (λ e. depth_of e ≡ 1) }
    {
        match number_in(self.scope.as_slice(), &name.name) {
            Some(number) => Ok(Expr::Variable(number)),
            None => {
                self.note(FaultKind::Unknown, name)?;
                Ok(alone(self.alloc, Form::Unit))
            }
        }
    }

    /// What a name makes of its arguments.
    pub fn applied(
        &mut self,
        callee: Option<Callee>,
        name: &Identifier,
        arguments: Vec<Expr>,
    ) -> Result<Expr, NoMemory>
        ensures resolves { IfOk result (λ e. Notes (use_faults callee name.now (vec_len arguments)) self.old self.new
            × (expr_tree e ≡ applied callee (trees_of (map expr_tree arguments.items)))) }
        ensures depth { IfOk result (λ e. depth_of e ≤ deepest (map depth_of arguments.items) + 1) }
    {
        match callee {
            Some(callee) => {
                if callee.parameters != arguments.len() {
                    self.note(FaultKind::Arity, name)?;
                }
                Ok(Expr::Apply(callee.form, arguments))
            }
            None => {
                self.note(FaultKind::Unknown, name)?;
                Ok(alone(self.alloc, Form::Unit))
            }
        }
    }

    /// Gives a variable its number. There is no room for more of them than a `u32` can number.
    pub fn number(&mut self) -> Result<u32, NoMemory>
        ensures number { IfOk result (λ number. number ≡ self.old.next) }
        ensures before { IfOk result (λ _. before_of self.new ≡ with_variable (before_of self.old)) }
        ensures known { known_of self.new ≡ known_of self.old }
        ensures scope { self.new.scope.items ≡ self.old.scope.items }
        ensures first { self.new.first ≡ self.old.first }
    {
        let number = self.next;
        match number.checked_add(1) {
            Some(next) => {
                self.next = next;
                Ok(number)
            }
            None => Err(NoMemory),
        }
    }

    /// Binds a variable of this number.
    pub fn bind(&mut self, name: &Identifier, number: u32) -> Result<(), NoMemory>
        ensures { IfOk result (λ _. Binds (binding name.now number) self.old self.new) }
    {
        let name = name.name.copied(self.alloc)?;
        self.scope.push(Bound { name, number })?;
        Ok(())
    }

    /// A print of a string literal, which gets its number. There is no room for more of them than a `u32` can number.
    pub fn print_text(&mut self, form: PrintForm, text: &StringLiteral) -> Result<Expr, NoMemory>
        ensures resolves { IfOk result (λ e. Resolves (print_text form text.now) self.old self.new (expr_tree e)) }
        ensures depth { IfOk result (λ e. depth_of e ≡ 1) }
    {
        let number = self.texts.len();
        if number > u32::MAX as usize {
            return Err(NoMemory);
        }
        let copy = text.copied(self.alloc)?;
        self.texts.push(copy)?;
        Ok(alone(self.alloc, Form::PrintText(form, number as u32)))
    }
}

/// A form without arguments.
pub fn alone(alloc: Global, form: Form) -> Expr
    ensures tree { expr_tree result ≡ alone form }
    ensures depth { depth_of result ≡ 1 }
{
    Expr::Apply(form, Vec::new(alloc))
}
