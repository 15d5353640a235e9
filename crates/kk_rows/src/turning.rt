ghost use Rattle.std.specs.Prelude.{◌≡◌, IfOk, map, option_map, vec_len};
ghost use Rattle.kk_syntax.specs.Covered.{Each};
ghost use Rattle.kk_syntax.specs.Programs.{program_tree};
ghost use Rattle.kk_slots.specs.Problems.{problem_view, row_view, IsFew};
ghost use Rattle.kk_slots.specs.Turned.{rotated, leading, first_leading, turned, Tells, Picks};

use crate::settling;
use kk_base::NoMemory;
use kk_slots::{Problem, Slot};
use kk_syntax::Program;
use std::alloc::Global;

/// Whether the rows of a problem are covered.
///
/// The positions are taken in the order in which the first row looks at them: what it does not look at is turned to the end.
/// So rows that look at pairs of positions far apart are decided at once. The search is a list of open problems.
pub fn is_covered(alloc: Global, program: &Program, problem: &Problem) -> Result<bool, NoMemory>
    requires { IsFew (problem_view problem.now) }
    ensures { IfOk result (λ covered. Tells (program_tree program.now) (problem_view problem.now) covered) }
{
    let mut problems = Vec::new(alloc);
    problems.push(turn(alloc, problem)?)?;
    'search: while let Some(current) = problems.pop() {
        if current.rows.is_empty() {
            return Ok(false);
        }
        let next = turn(alloc, &current)?;
        settling::settle(alloc, program, &next, &mut problems)?;
    }
    Ok(true)
}

/// The last of some problems that is not covered, if any.
pub fn last_open<'a>(
    alloc: Global,
    program: &Program,
    problems: Vec<Problem<'a>>,
) -> Result<Option<Problem<'a>>, NoMemory>
    requires { Each IsFew (map problem_view problems.items) }
    ensures { IfOk result (λ found. Picks (program_tree program.now) (map problem_view problems.entry.items) (option_map problem_view found)) }
{
    let mut left = problems;
    while let Some(problem) = left.pop() {
        let covered = is_covered(alloc, program, &problem)?;
        if !covered {
            return Ok(Some(problem));
        }
    }
    Ok(None)
}

// A problem with the positions before the first that its first row looks at turned to the end.
fn turn<'a>(alloc: Global, problem: &Problem<'a>) -> Result<Problem<'a>, NoMemory>
    ensures view { IfOk result (λ next. problem_view next ≡ turned (problem_view problem.now)) }
    ensures rows { IfOk result (λ next. vec_len next.rows ≡ vec_len problem.now.rows) }
{
    let count = first_leading(&problem.rows);
    let mut rows = Vec::new(alloc);
    for row in &problem.rows {
        rows.push(rotated(alloc, row, count)?)?;
    }
    Ok(Problem {
        path: Vec::from_slice(alloc, &problem.path)?,
        rows,
        width: problem.width,
    })
}

// How many positions of the first row ask nothing before the first that asks something.
fn first_leading(rows: &[Vec<Slot>]) -> usize
    ensures { result ≡ first_leading (map (λ row. row_view row.items) rows.now) }
{
    match rows.first() {
        Some(row) => leading(row),
        None => 0,
    }
}

// How many positions of a row ask nothing before the first that asks something.
fn leading(row: &[Slot]) -> usize
    ensures { result ≡ leading (row_view row.now) }
{
    let mut count = 0;
    for slot in row {
        match *slot {
            Slot::Any => count += 1,
            Slot::Number(_) | Slot::Constructor(_, _) => return count,
        }
    }
    count
}

// A row with so many positions turned to its end.
fn rotated<'a>(alloc: Global, row: &[Slot<'a>], count: usize) -> Result<Vec<Slot<'a>>, NoMemory>
    ensures { IfOk result (λ slots. row_view slots.items ≡ rotated count (row_view row.now)) }
{
    let (first, rest) = row.split_at(count.min(row.len()));
    let mut slots = Vec::from_slice(alloc, rest)?;
    slots.extend_from_slice(first)?;
    Ok(slots)
}
