ghost use Rattle.std.specs.Prelude.{◌+◌, ◌<◌, ◌^◌, map, IfOk};
ghost use Rattle.kk_syntax.specs.Patterns.{pattern_tree, patterns_of, constructor};
ghost use Rattle.kk_norm.specs.Normalized.{part_count, pattern_size, parts_size};
ghost use Rattle.kk_norm.specs.Written.{NumbersParts, WritesOpenings, WritesAllOpenings};

use crate::naming::Named;
use crate::writer::Writer;
use kk_base::NoMemory;
use kk_core::Step;
use kk_syntax::Pat;

impl Writer {
    /// Writes the openings of a pattern at a variable, a cell before those of its fields, and names the pattern's variables.
    /// The recursion is as deep as the pattern.
    #[cycle(opening)]
    pub fn open(&mut self, variable: u32, pattern: &Pat) -> Result<(), NoMemory>
        requires { self.old.next + pattern_size (pattern_tree pattern.now) < 2 ^ 32 }
        ensures { IfOk result (λ _. WritesOpenings (pattern_tree pattern.now) variable self.old self.new) }
    {
        match pattern {
            Pat::Wildcard | Pat::Number(_) => Ok(()),
            Pat::Variable(of) => {
                self.names.push(Named {
                    variable: *of,
                    name: variable,
                })?;
                Ok(())
            }
            Pat::Constructor(constructor, parts) => self.open_cell(variable, *constructor, parts),
        }
    }

    /// Writes the openings of a constructor's pattern at a variable. One without fields opens nothing.
    #[cycle(opening)]
    fn open_cell(&mut self, variable: u32, of: u32, parts: &[Pat]) -> Result<(), NoMemory>
        requires { self.old.next + pattern_size (constructor of (patterns_of (map pattern_tree parts.now))) < 2 ^ 32 }
        ensures { IfOk result (λ _. WritesOpenings (constructor of (patterns_of (map pattern_tree parts.now))) variable self.old self.new) }
    {
        if parts.is_empty() {
            return Ok(());
        }
        let first = self.next;
        let fields = self.number_parts(parts)?;
        self.push(Step::Open(variable, of, fields))?;
        self.open_parts(first, parts)?;
        Ok(())
    }

    /// Gives numbers to the parts of a pattern, from left to right.
    fn number_parts(&mut self, parts: &[Pat]) -> Result<Vec<u32>, NoMemory>
        requires { self.old.next + part_count (patterns_of (map pattern_tree parts.now)) < 2 ^ 32 }
        ensures { IfOk result (λ fields. NumbersParts (patterns_of (map pattern_tree parts.now)) self.old self.new fields.items) }
    {
        let mut fields = Vec::new(self.alloc);
        for _ in parts {
            fields.push(self.next)?;
            self.next += 1;
        }
        Ok(fields)
    }

    /// Writes the openings of patterns at variables that follow one another.
    #[cycle(opening)]
    fn open_parts(&mut self, first: u32, parts: &[Pat]) -> Result<(), NoMemory>
        requires variables { first + part_count (patterns_of (map pattern_tree parts.now)) < 2 ^ 32 }
        requires room { self.old.next + parts_size (patterns_of (map pattern_tree parts.now)) < 2 ^ 32 }
        ensures { IfOk result (λ _. WritesAllOpenings (patterns_of (map pattern_tree parts.now)) first self.old self.new) }
    {
        let mut variable = first;
        for part in parts {
            self.open(variable, part)?;
            variable += 1;
        }
        Ok(())
    }
}
