ghost use Rattle.std.specs.Prelude.{◌≡◌, ◌<◌, ◌^◌, [], IfOk, length, map};
ghost use Rattle.kk_rows.specs.Covered.{Answers, row_outlines};
ghost use Rattle.kk_syntax.specs.Outlines.{no_outline, outline};
ghost use Rattle.kk_slots.specs.Problems.{problem_view};

use crate::{example, settling, turning};
use kk_base::NoMemory;
use kk_slots::{Problem, row};
use kk_syntax::{Pat, Program, Row};
use std::alloc::Global;

/// Whether a match with these rows is covered: None, or else an example, which is a pattern that clashes with each row. The
/// example has the first constructor of a type that leaves something uncovered, outer before inner and left before right;
/// the least number from 0 up that no row asks for; and `_` where no row looks.
///
/// Right at each type at which the rows are typed. The positions of the example are found from left to right: at each, the
/// first problem that is not covered is gone into, and no other. There is no recursion.
pub fn uncovered(alloc: Global, program: &Program, rows: &[Row]) -> Result<Option<Pat>, NoMemory>
    requires { length rows.now < 2 ^ 31 }
    ensures { IfOk result (λ found. Answers program.now rows.now found) }
{
    let mut problem = whole(alloc, rows)?;
    let covered = turning::is_covered(alloc, program, &problem)?;
    if covered {
        return Ok(None);
    }
    'search: while !problem.rows.is_empty() {
        let mut children = Vec::new(alloc);
        settling::settle(alloc, program, &problem, &mut children)?;
        match turning::last_open(alloc, program, children)? {
            Some(next) => problem = next,
            None => return Ok(None),
        }
    }
    let example = example::build(alloc, &problem.path, problem.width)?;
    Ok(Some(example))
}

// The problem to begin with: the rows of a match, with one position.
fn whole<'a>(alloc: Global, rows: &'a [Row]) -> Result<Problem<'a>, NoMemory>
    ensures { IfOk result (λ problem. problem_view problem ≡ record { path = []; rows = map (λ p. outline p no_outline) (row_outlines rows.now); width = 1 }) }
{
    let mut left = Vec::new(alloc);
    for row in rows {
        let slots = vec![in alloc; row::slot_of(&row.pattern)]?;
        left.push(slots)?;
    }
    Ok(Problem {
        path: Vec::new(alloc),
        rows: left,
        width: 1,
    })
}
