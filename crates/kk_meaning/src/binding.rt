ghost use Rattle.std.specs.Prelude.{◌≡◌, ◌≤◌, [], map, take, vec_len, IfOk, OnErr};
ghost use Rattle.kk_source.specs.Live.{value_of};
ghost use Rattle.kk_meaning.specs.View.{value_view, bound_view, environment_of, pushed};

use crate::value::Value;
use kk_base::NoMemory;
use std::alloc::Global;

/// A variable, by its number, bound to a value.
#[derive(Clone, Copy)]
pub struct Bound {
    pub variable: usize,
    pub value: Value,
}

/// A binding among others.
#[derive(Clone, Copy)]
pub struct Link {
    bound: Bound,
    /// How many of the bindings before it are not of its environment.
    skips: usize,
}

/// The bindings of all environments. An environment is a number: that of the bindings up to its newest one, or 0 where
/// nothing is bound. So environments share what they have in common, and none is ever copied.
#[derive(Drop)]
pub struct Bindings {
    links: Vec<Link>,
}

impl Bindings {
    /// No bindings. Takes no memory.
    pub fn new(alloc: Global) -> Self
        ensures { result.links.items ≡ [] }
    {
        Bindings {
            links: Vec::new(alloc),
        }
    }

    /// The number of bindings.
    pub fn len(&self) -> usize
        ensures { result ≡ vec_len self.now.links }
    {
        self.links.len()
    }

    /// What a variable stands for in an environment; `()` where it is not bound.
    pub fn value_of(&self, environment: usize, variable: u32) -> Value
        ensures { value_view result ≡ value_of (environment_of self.now.links.items environment) variable }
    {
        let mut left = environment;
        while left > 0 {
            let Some(link) = self.links.get(left - 1) else {
                return Value::Unit;
            };
            if link.bound.variable == variable as usize {
                return link.bound.value;
            }
            left = (left - 1).saturating_sub(link.skips);
        }
        Value::Unit
    }

    /// Gives up all bindings but the first ones.
    pub fn truncate(&mut self, kept: usize)
        ensures { self.new.links.items ≡ take kept self.old.links.items }
    {
        self.links.truncate(kept);
    }

    /// The environment with more variables bound, in their order. Of the bindings only the first ones are kept, among
    /// which those of the environment are. Where memory is refused nothing changes.
    pub fn bind(
        &mut self,
        kept: usize,
        environment: usize,
        bound: &[Bound],
    ) -> Result<usize, NoMemory>
        requires kept { kept ≤ vec_len self.old.links }
        requires within { environment ≤ kept }
        ensures environment { IfOk result (λ more.
            environment_of self.new.links.items more ≡ pushed (map bound_view bound.now) (environment_of self.old.links.items environment)) }
        ensures within { IfOk result (λ more. more ≤ vec_len self.new.links) }
        ensures kept { IfOk result (λ more. take kept self.new.links.items ≡ take kept self.old.links.items) }
        ensures longer { IfOk result (λ more. kept ≤ vec_len self.new.links) }
        ensures err { OnErr result (self.new.links.items ≡ self.old.links.items) }
    {
        self.links.reserve(bound.len())?;
        self.links.truncate(kept);
        let mut newest = environment;
        for added in bound {
            let skips = self.links.len() - newest;
            self.links.push(Link {
                bound: *added,
                skips,
            })?;
            newest = self.links.len();
        }
        Ok(newest)
    }
}
