ghost use Rattle.std.specs.Prelude.{◌≡◌, map, IfOk, vec_len};
ghost use Rattle.kk_syntax.specs.Patterns.{pattern_tree, patterns_of};
ghost use Rattle.kk_syntax.specs.Surface.{pattern_variable, written_pattern, patterns_of as writtens_of};
ghost use Rattle.kk_names.specs.Expressions.{constructed};
ghost use Rattle.kk_names.specs.Faults.{use_faults};
ghost use Rattle.kk_names.specs.Methods.{newest_first, Notes, ResolvesPattern, ResolvesPatterns};

use crate::fault::FaultKind;
use crate::resolver::Resolver;
use crate::scope::{Bound, number_in};
use crate::table::{Callee, meaning_in};
use kk_base::NoMemory;
use kk_syntax::{Form, Identifier, Pat, SurfacePattern};

impl Resolver {
    /// What a pattern means. Its variables go behind those of the same pattern that stand before it. The recursion is as
    /// deep as the pattern.
    #[cycle(pattern)]
    pub fn pattern(
        &mut self,
        pattern: &SurfacePattern,
        bound: &mut Vec<Bound>,
    ) -> Result<Pat, NoMemory>
        ensures { IfOk result (λ p. ResolvesPattern (written_pattern pattern.now) self.old self.new (newest_first bound.old.items) (newest_first bound.new.items) (pattern_tree p)) }
    {
        match pattern {
            SurfacePattern::Wildcard => Ok(Pat::Wildcard),
            SurfacePattern::Variable(name) => self.pattern_variable(name, bound),
            SurfacePattern::Number(value) => Ok(Pat::Number(*value)),
            SurfacePattern::Constructor(name, parts) => {
                let parts = self.patterns(parts, bound)?;
                let callee = meaning_in(self.constructors.as_slice(), &name.name);
                self.constructed(callee, name, parts)
            }
        }
    }

    /// What patterns mean, from left to right.
    #[cycle(pattern)]
    fn patterns(
        &mut self,
        patterns: &[SurfacePattern],
        bound: &mut Vec<Bound>,
    ) -> Result<Vec<Pat>, NoMemory>
        ensures { IfOk result (λ ps. ResolvesPatterns (writtens_of (map written_pattern patterns.now)) self.old self.new (newest_first bound.old.items) (newest_first bound.new.items) (patterns_of (map pattern_tree ps.items))) }
    {
        let mut resolved = Vec::new(self.alloc);
        for pattern in patterns {
            let p = self.pattern(pattern, bound)?;
            resolved.push(p)?;
        }
        Ok(resolved)
    }

    /// A variable of a pattern.
    fn pattern_variable(
        &mut self,
        name: &Identifier,
        bound: &mut Vec<Bound>,
    ) -> Result<Pat, NoMemory>
        ensures { IfOk result (λ p. ResolvesPattern (pattern_variable name.now) self.old self.new (newest_first bound.old.items) (newest_first bound.new.items) (pattern_tree p)) }
    {
        let is_second = number_in(bound.as_slice(), &name.name).is_some();
        self.note_if(is_second, FaultKind::Twice, name)?;
        let number = self.number()?;
        let name = name.name.copied(self.alloc)?;
        bound.push(Bound { name, number })?;
        Ok(Pat::Variable(number))
    }

    /// What a name of a constructor makes of the patterns of its fields.
    fn constructed(
        &mut self,
        callee: Option<Callee>,
        name: &Identifier,
        parts: Vec<Pat>,
    ) -> Result<Pat, NoMemory>
        ensures { IfOk result (λ p. Notes (use_faults callee name.now (vec_len parts)) self.old self.new
            × (pattern_tree p ≡ constructed callee (patterns_of (map pattern_tree parts.items)))) }
    {
        match callee {
            Some(callee) => {
                if callee.parameters != parts.len() {
                    self.note(FaultKind::Arity, name)?;
                }
                match callee.form {
                    Form::Construct(by) => Ok(Pat::Constructor(by, parts)),
                    _ => Ok(Pat::Wildcard),
                }
            }
            None => {
                self.note(FaultKind::Unknown, name)?;
                Ok(Pat::Wildcard)
            }
        }
    }
}
