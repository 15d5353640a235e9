ghost use Rattle.std.specs.Prelude.{◌≡◌, ◌&&◌, not, [], map, IfOk, OnOk};
ghost use Rattle.kk_match.specs.Outcomes.{is_listed, with_parts, with_lines, unlisted, unlisted_from};
ghost use Rattle.kk_match.specs.Parts.{types_of, is_kind};
ghost use Rattle.kk_match.specs.Views.{part_of, state_tree};

use crate::question::{Question, is_answer};
use crate::state::State;
use kk_base::NoMemory;
use kk_core::Answer;
use kk_syntax::GroundConstructor;
use std::alloc::Global;

// Whether an answer may stand where one is asked for: both are numbers, or constructors of one type.
fn is_kind(constructors: &[GroundConstructor], asked: Answer, found: Answer) -> bool
    ensures { result ≡ is_kind (types_of constructors.now) asked found }
{
    match (asked, found) {
        (Answer::Number(_), Answer::Number(_)) => true,
        (Answer::Constructor(one), Answer::Constructor(other)) => {
            match (
                constructors.get(one as usize),
                constructors.get(other as usize),
            ) {
                (Some(one), Some(other)) => one.of_type == other.of_type,
                _ => false,
            }
        }
        _ => false,
    }
}

fn is_listed(answers: &[Answer], found: Answer) -> bool
    ensures { result ≡ is_listed answers.now found }
{
    answers.iter().any(|answer| is_answer(found, *answer))
}

/// The answers that a state asks where a test stands and that may stand there, each once.
pub fn asked(
    alloc: Global,
    constructors: &[GroundConstructor],
    test: &Question,
    state: &State,
) -> Result<Vec<Answer>, NoMemory>
    ensures { IfOk result (λ answers. answers.items
        ≡ with_lines (types_of constructors.now) (part_of test.now) [] (state_tree state.now)) }
{
    let mut answers = Vec::new(alloc);
    for line in &state.lines {
        add_asked(constructors, test, &line.left, &mut answers)?;
    }
    Ok(answers)
}

fn add_asked(
    constructors: &[GroundConstructor],
    test: &Question,
    questions: &[&Question],
    answers: &mut Vec<Answer>,
) -> Result<(), NoMemory>
    ensures { OnOk result (answers.new.items
        ≡ with_parts (types_of constructors.now) (part_of test.now) answers.old.items (map (λ q. part_of q.now) questions.now)) }
{
    for question in questions {
        if question.at == test.at
            && is_kind(constructors, test.asked, question.asked)
            && !is_listed(answers, question.asked)
        {
            answers.push(question.asked)?;
        }
    }
    Ok(())
}

/// What leads on by none of the answers that are asked: another number, which None stands for, or a constructor that is not
/// asked for. There may be no such constructor.
pub fn unlisted(
    constructors: &[GroundConstructor],
    asked: Answer,
    answers: &[Answer],
) -> Result<Option<Option<Answer>>, NoMemory>
    ensures { IfOk result (λ rest. rest ≡ unlisted (types_of constructors.now) asked answers.now) }
{
    match asked {
        Answer::Number(_) => Ok(Some(None)),
        Answer::Constructor(of) => unlisted_constructor(constructors, of, answers),
    }
}

fn unlisted_constructor(
    constructors: &[GroundConstructor],
    of: u32,
    answers: &[Answer],
) -> Result<Option<Option<Answer>>, NoMemory>
    ensures { IfOk result (λ rest. rest
        ≡ unlisted_from (types_of constructors.now) (Answer.Constructor of) answers.now 0 (types_of constructors.now)) }
{
    for place in 0..constructors.len() {
        let Ok(number) = u32::try_from(place) else {
            return Err(NoMemory);
        };
        if is_unlisted(constructors, of, answers, number) {
            return Ok(Some(Some(Answer::Constructor(number))));
        }
    }
    Ok(None)
}

// Whether a constructor is of the type of one of a number, and not listed.
fn is_unlisted(constructors: &[GroundConstructor], of: u32, answers: &[Answer], number: u32) -> bool
    ensures { result ≡ (is_kind (types_of constructors.now) (Answer.Constructor of) (Answer.Constructor number)
        && not (is_listed answers.now (Answer.Constructor number))) }
{
    let found = Answer::Constructor(number);
    is_kind(constructors, Answer::Constructor(of), found) && !is_listed(answers, found)
}
