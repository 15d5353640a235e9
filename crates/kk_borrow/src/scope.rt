ghost use Rattle.std.specs.Prelude.{◌≡◌, ◌++◌, IfOk, OnOk, length, map, take};
ghost use Rattle.kk_syntax.specs.Patterns.{pattern_tree, patterns_of};
ghost use Rattle.kk_syntax.specs.Shapes.{bound, bound_all};
ghost use Rattle.kk_borrow.specs.Demands.{origins_of, parameters, hung, all_hung};

use kk_base::NoMemory;
use kk_syntax::Pat;
use std::alloc::Global;

/// A variable that is lent as long as a parameter is.
#[derive(Clone, Copy)]
pub struct Binding {
    pub variable: usize,
    pub parameter: usize,
}

/// The variables of a function that hang on its parameters, where an expression stands.
#[derive(Drop)]
pub struct Scope {
    pub bindings: Vec<Binding>,
}

impl Scope {
    /// The scope of a body: each parameter hangs on itself.
    pub fn new(alloc: Global, count: usize) -> Result<Scope, NoMemory>
        ensures { IfOk result (λ scope. scope.bindings.items ≡ parameters count) }
    {
        let mut bindings = Vec::new(alloc);
        for parameter in 0..count {
            bindings.push(Binding {
                variable: parameter,
                parameter,
            })?;
        }
        Ok(Scope { bindings })
    }

    /// The parameters on which a variable hangs.
    pub fn origins(&self, alloc: Global, variable: usize) -> Result<Vec<usize>, NoMemory>
        ensures { IfOk result (λ origins. origins.items ≡ origins_of self.now.bindings.items variable) }
    {
        let mut origins = Vec::new(alloc);
        for binding in &self.bindings {
            if binding.variable == variable {
                origins.push(binding.parameter)?;
            }
        }
        Ok(origins)
    }

    /// The number of bindings, to which `leave` goes back.
    pub fn count(&self) -> usize
        ensures { result ≡ length self.now.bindings.items }
    {
        self.bindings.len()
    }

    /// Forgets the newest bindings, all but so many.
    pub fn leave(&mut self, count: usize)
        ensures { self.new.bindings.items ≡ take count self.old.bindings.items }
    {
        self.bindings.truncate(count);
    }

    // A variable hangs on each of some parameters.
    fn hang(&mut self, variable: usize, origins: &[usize]) -> Result<(), NoMemory>
        ensures { OnOk result (self.new.bindings.items ≡ self.old.bindings.items ++ hung variable origins.now) }
    {
        for origin in origins {
            self.bindings.push(Binding {
                variable,
                parameter: *origin,
            })?;
        }
        Ok(())
    }
}

/// The variables of a pattern hang on each of some parameters.
#[cycle(bind)]
pub fn bind(scope: &mut Scope, pattern: &Pat, origins: &[usize]) -> Result<(), NoMemory>
    ensures { OnOk result (scope.new.bindings.items ≡ scope.old.bindings.items ++ all_hung (bound (pattern_tree pattern.now)) origins.now) }
{
    match pattern {
        Pat::Wildcard | Pat::Number(_) => Ok(()),
        Pat::Variable(variable) => scope.hang(*variable as usize, origins),
        Pat::Constructor(_, parts) => bind_each(scope, parts, origins),
    }
}

// The same for several patterns.
#[cycle(bind)]
fn bind_each(scope: &mut Scope, patterns: &[Pat], origins: &[usize]) -> Result<(), NoMemory>
    ensures { OnOk result (scope.new.bindings.items ≡ scope.old.bindings.items ++ all_hung (bound_all (patterns_of (map pattern_tree patterns.now))) origins.now) }
{
    for pattern in patterns {
        bind(scope, pattern, origins)?;
    }
    Ok(())
}
