ghost use Rattle.std.specs.Prelude.{◌<◌, map};
ghost use Rattle.kk_syntax.specs.Programs.{program_tree};
ghost use Rattle.kk_syntax.specs.Trees.{row_tree, rows_of};
ghost use Rattle.kk_walk.specs.Walks.{AreBoundBelow};

use crate::walk::Walk;
use kk_base::NoMemory;
use kk_syntax::{Program, Row};

impl Walk {
    ghost use Rattle.kk_walk.specs.Claims.{rows_at};
    ghost use Rattle.kk_walk.specs.Steps.{size_of, Walked};

    /// Walks over the rows of a match, and asks that its patterns are of the type of one node and its bodies of that of
    /// another one.
    #[cycle(walk)]
    pub fn rows(
        &mut self,
        program: &Program,
        rows: &[Row],
        scrutinee: u32,
        want: u32,
    ) -> Result<bool, NoMemory>
        requires scope { AreBoundBelow (size_of self.old) self.old.scope.items }
        requires scrutinee { scrutinee < size_of self.old }
        requires want { want < size_of self.old }
        ensures { Walked self.old self.new
            (rows_at (program_tree program.now) self.old.scope.items (rows_of (map row_tree rows.now)) scrutinee want) result }
    {
        let outer = self.scope.len();
        for row in rows {
            self.bind(&row.pattern)?;
            let ok = self.pattern(program, &row.pattern, scrutinee)?;
            if !ok {
                return Ok(false);
            }
            let ok = self.expression(program, &row.body, want)?;
            if !ok {
                return Ok(false);
            }
            self.scope.truncate(outer);
        }
        Ok(true)
    }
}
