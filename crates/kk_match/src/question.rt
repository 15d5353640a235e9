ghost use Rattle.std.specs.Prelude.{◌≡◌, ◌==◌, ◌++◌, [], ◌∷◌, map, option_map, count_by, slice_get, IfOk, OnOk};
ghost use Rattle.kk_syntax.specs.Patterns.{pattern_tree, patterns_of};
ghost use Rattle.kk_core.specs.Decisions.{is_answer};
ghost use Rattle.kk_match.specs.Parts.{types_of, has_several, parts_of, parts_of_all};
ghost use Rattle.kk_match.specs.Views.{part_of};

use kk_base::NoMemory;
use kk_core::Answer;
use kk_syntax::{GroundConstructor, Pat};
use std::alloc::Global;

/// What a row asks at a position.
#[derive(PartialEq, Eq, Hash, Drop)]
pub struct Question {
    /// The position: the number of a field of the value that is matched, then that of a field of its cell, and so on.
    pub at: Vec<u32>,
    pub asked: Answer,
}

/// Whether two answers are the same.
pub fn is_answer(one: Answer, other: Answer) -> bool
    ensures { result ≡ is_answer one other }
{
    match (one, other) {
        (Answer::Number(one), Answer::Number(other)) => one == other,
        (Answer::Constructor(one), Answer::Constructor(other)) => one == other,
        _ => false,
    }
}

// The type of a constructor, if there is that constructor.
fn type_of(constructors: &[GroundConstructor], of: u32) -> Option<u32>
    ensures { result ≡ option_map (λ c. c.of_type) (slice_get constructors.now of) }
{
    match constructors.get(of as usize) {
        Some(constructor) => Some(constructor.of_type),
        None => None,
    }
}

// How many constructors a type has.
fn constructor_count(constructors: &[GroundConstructor], of_type: u32) -> usize
    ensures { result ≡ count_by (λ c. c.of_type == of_type) constructors.now }
{
    constructors.iter().filter(|c| c.of_type == of_type).count()
}

// Whether the type of a constructor has several.
fn has_several(constructors: &[GroundConstructor], of: u32) -> bool
    ensures { result ≡ has_several (types_of constructors.now) of }
{
    match type_of(constructors, of) {
        Some(of_type) => constructor_count(constructors, of_type) > 1,
        None => false,
    }
}

/// The questions of a pattern, outer before inner and left before right.
pub fn questions(
    alloc: Global,
    constructors: &[GroundConstructor],
    pattern: &Pat,
) -> Result<Vec<Question>, NoMemory>
    ensures { IfOk result (λ found. map part_of found.items
        ≡ parts_of (types_of constructors.now) [] (pattern_tree pattern.now)) }
{
    let mut found = Vec::new(alloc);
    add_questions(alloc, constructors, pattern, &[], &mut found)?;
    Ok(found)
}

// Adds the questions of the pattern at a position. The recursion is as deep as the pattern.
#[cycle(adding)]
fn add_questions(
    alloc: Global,
    constructors: &[GroundConstructor],
    pattern: &Pat,
    at: &[u32],
    found: &mut Vec<Question>,
) -> Result<(), NoMemory>
    ensures { OnOk result (map part_of found.new.items
        ≡ map part_of found.old.items ++ parts_of (types_of constructors.now) at.now (pattern_tree pattern.now)) }
{
    match pattern {
        Pat::Wildcard | Pat::Variable(_) => Ok(()),
        Pat::Number(number) => add_question(alloc, at, Answer::Number(*number), found),
        Pat::Constructor(of, parts) => {
            if has_several(constructors, *of) {
                add_question(alloc, at, Answer::Constructor(*of), found)?;
            }
            add_parts(alloc, constructors, parts, at, found)
        }
    }
}

// The same for the patterns of a cell's fields.
#[cycle(adding)]
fn add_parts(
    alloc: Global,
    constructors: &[GroundConstructor],
    parts: &[Pat],
    at: &[u32],
    found: &mut Vec<Question>,
) -> Result<(), NoMemory>
    ensures { OnOk result (map part_of found.new.items
        ≡ map part_of found.old.items ++ parts_of_all (types_of constructors.now) at.now 0 (patterns_of (map pattern_tree parts.now))) }
{
    for (field, part) in parts.iter().enumerate() {
        let inner = field_at(alloc, at, field)?;
        add_questions(alloc, constructors, part, &inner, found)?;
    }
    Ok(())
}

fn add_question(
    alloc: Global,
    at: &[u32],
    asked: Answer,
    found: &mut Vec<Question>,
) -> Result<(), NoMemory>
    ensures { OnOk result (map part_of found.new.items ≡ map part_of found.old.items ++ record { at = at.now; asked = asked } ∷ []) }
{
    let at = Vec::from_slice(alloc, at)?;
    found.push(Question { at, asked })?;
    Ok(())
}

// The position of a field of what stands at a position.
fn field_at(alloc: Global, at: &[u32], field: usize) -> Result<Vec<u32>, NoMemory>
    ensures { IfOk result (λ inner. inner.items ≡ at.now ++ field ∷ []) }
{
    let Ok(field) = u32::try_from(field) else {
        return Err(NoMemory);
    };
    let mut inner = Vec::from_slice(alloc, at)?;
    inner.push(field)?;
    Ok(inner)
}
