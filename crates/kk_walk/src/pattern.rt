ghost use Rattle.std.specs.Prelude.{◌<◌, map, OnOk};
ghost use Rattle.kk_syntax.specs.Patterns.{pattern_tree, patterns_of};
ghost use Rattle.kk_syntax.specs.Programs.{program_tree};
ghost use Rattle.kk_syntax.specs.Shapes.{bound};
ghost use Rattle.kk_walk.specs.Walks.{AreBelow, AreBoundBelow};

use crate::walk::{Bound, Walk};
use kk_base::NoMemory;
use kk_syntax::{Pat, Program, TypeNode};

impl Walk {
    ghost use Rattle.kk_walk.specs.Claims.{pattern_at, patterns_at};
    ghost use Rattle.kk_walk.specs.Steps.{size_of, Walked, BindsEach};

    /// Binds the variables of a pattern, from left to right, each to a new node, which is taken.
    pub fn bind(&mut self, pattern: &Pat) -> Result<(), NoMemory>
        ensures { OnOk result (BindsEach self.old self.new (bound (pattern_tree pattern.now))) }
    {
        match pattern {
            Pat::Wildcard | Pat::Number(_) => Ok(()),
            Pat::Variable(variable) => {
                let node = self.take()?;
                self.scope.push(Bound {
                    variable: *variable,
                    node,
                })?;
                Ok(())
            }
            Pat::Constructor(_, parts) => {
                for part in parts {
                    self.bind(part)?;
                }
                Ok(())
            }
        }
    }

    /// Walks over a pattern of which the variables are bound, and asks that it is of the type of a node. The recursion
    /// is as deep as the pattern.
    #[cycle(pattern)]
    pub fn pattern(&mut self, program: &Program, pattern: &Pat, want: u32) -> Result<bool, NoMemory>
        requires scope { AreBoundBelow (size_of self.old) self.old.scope.items }
        requires want { want < size_of self.old }
        ensures { Walked self.old self.new
            (pattern_at (program_tree program.now) self.old.scope.items (pattern_tree pattern.now) want) result }
    {
        match pattern {
            Pat::Wildcard => Ok(true),
            Pat::Variable(variable) => self.variable(*variable, want),
            Pat::Number(_) => self.is(want, TypeNode::Int32),
            Pat::Constructor(by, parts) => {
                let instance = match self.constructor(program, *by)? {
                    Some(instance) => instance,
                    None => return Ok(false),
                };
                let ok = self.same(want, instance.result)?;
                if !ok {
                    return Ok(false);
                }
                let ok = self.parts(program, parts, &instance.parameters)?;
                if !ok {
                    return Ok(false);
                }
                Ok(ok)
            }
        }
    }

    #[cycle(pattern)]
    fn parts(&mut self, program: &Program, parts: &[Pat], wants: &[u32]) -> Result<bool, NoMemory>
        requires scope { AreBoundBelow (size_of self.old) self.old.scope.items }
        requires wants { AreBelow (size_of self.old) wants.now }
        ensures { Walked self.old self.new
            (patterns_at (program_tree program.now) self.old.scope.items (patterns_of (map pattern_tree parts.now)) wants.now)
            result }
    {
        if parts.len() != wants.len() {
            return Ok(false);
        }
        for (index, part) in parts.iter().enumerate() {
            let ok = self.pattern(program, part, wants[index])?;
            if !ok {
                return Ok(false);
            }
        }
        Ok(true)
    }
}
