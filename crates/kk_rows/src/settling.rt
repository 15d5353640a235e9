ghost use Rattle.std.specs.Prelude.{◌≡◌, ◌<◌, ◌-◌, ◌++◌, [], ◌∷◌, IfOk, OnOk, map, vec_len};
ghost use Rattle.kk_syntax.specs.Programs.{program_tree};
ghost use Rattle.kk_slots.specs.Narrowing.{opened};
ghost use Rattle.kk_slots.specs.Problems.{problem_view, child, made_child, children, IsFew, Settled};

use crate::{rows, table};
use kk_base::NoMemory;
use kk_slots::{Asked, Head, Problem};
use kk_syntax::Program;
use std::alloc::Global;

/// Adds the problems that a problem comes down to, the one to be looked at first last. Adds none where no value is left
/// that clashes with each row.
pub fn settle<'a>(
    alloc: Global,
    program: &Program,
    problem: &Problem<'a>,
    problems: &mut Vec<Problem<'a>>,
) -> Result<(), NoMemory>
    requires some { 0 < vec_len problem.now.rows }
    requires few { IsFew (problem_view problem.now) }
    ensures { OnOk result (Settled (program_tree program.now) (problem_view problem.now) (map problem_view problems.old.items) (map problem_view problems.new.items)) }
{
    if rows::has_blank(&problem.rows) || problem.width == 0 {
        return Ok(());
    }
    let width = problem.width - 1;
    match rows::first_asked(&problem.rows) {
        Asked::Nothing => pass(alloc, problem, Head::Free, width, problems),
        Asked::Number => {
            let number = rows::least_number(&problem.rows);
            pass(alloc, problem, Head::Number(number), width, problems)
        }
        Asked::Constructor(constructor) => {
            let of_type = table::owner(program, constructor);
            let end = table::reach(program, of_type, &problem.rows)?;
            split(alloc, program, problem, of_type, width, end, problems)
        }
    }
}

// The positions that are known, and one more.
fn extended(alloc: Global, path: &[Head], head: Head) -> Result<Vec<Head>, NoMemory>
    ensures { IfOk result (λ longer. longer.items ≡ path.now ++ (head ∷ [])) }
{
    let mut longer = Vec::from_slice(alloc, path)?;
    longer.push(head)?;
    Ok(longer)
}

// Adds the problem behind the first position, with the rows that ask nothing there.
fn pass<'a>(
    alloc: Global,
    problem: &Problem<'a>,
    head: Head,
    width: usize,
    problems: &mut Vec<Problem<'a>>,
) -> Result<(), NoMemory>
    ensures { OnOk result (map problem_view problems.new.items
        ≡ map problem_view problems.old.items ++ (child (problem_view problem.now) head (opened (problem_view problem.now).rows) width ∷ [])) }
{
    let path = extended(alloc, &problem.path, head)?;
    let rows = rows::opened(alloc, &problem.rows)?;
    problems.push(Problem { path, rows, width })?;
    Ok(())
}

// Adds the problems for the constructors of a type that stand before a place, the last one first.
fn split<'a>(
    alloc: Global,
    program: &Program,
    problem: &Problem<'a>,
    of_type: u32,
    width: usize,
    end: u32,
    problems: &mut Vec<Problem<'a>>,
) -> Result<(), NoMemory>
    ensures { OnOk result (map problem_view problems.new.items
        ≡ map problem_view problems.old.items ++ children (program_tree program.now) of_type (problem_view problem.now) width end) }
{
    let mut constructor = end;
    while constructor > 0 {
        constructor -= 1;
        if table::owner(program, constructor) == of_type {
            enter(alloc, program, problem, constructor, width, problems)?;
        }
    }
    Ok(())
}

// Adds the problem for values whose first position is made by a constructor: its fields are the next positions.
fn enter<'a>(
    alloc: Global,
    program: &Program,
    problem: &Problem<'a>,
    constructor: u32,
    width: usize,
    problems: &mut Vec<Problem<'a>>,
) -> Result<(), NoMemory>
    ensures { OnOk result (map problem_view problems.new.items
        ≡ map problem_view problems.old.items ++ (made_child (program_tree program.now) (problem_view problem.now) width constructor ∷ [])) }
{
    let arity = table::arity(program, constructor);
    let Some(width) = arity.checked_add(width) else {
        return Err(NoMemory);
    };
    let path = extended(alloc, &problem.path, Head::Constructor(constructor, arity))?;
    let rows = rows::narrowed(alloc, &problem.rows, constructor, arity)?;
    problems.push(Problem { path, rows, width })?;
    Ok(())
}
