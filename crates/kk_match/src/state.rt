ghost use Rattle.std.specs.Prelude.{◌≡◌, ◌<◌, map, option_map, IfOk, None, Some};
ghost use Rattle.kk_match.specs.Graphs.{left_after, agrees, after, test_of, row_of};
ghost use Rattle.kk_match.specs.Views.{part_of, state_tree};

use crate::question::{Question, is_answer};
use kk_base::NoMemory;
use kk_core::Answer;
use std::alloc::Global;

/// A row that may still match, and its questions that have no answer yet.
#[derive(PartialEq, Eq, Hash, Drop)]
pub struct Line<'a> {
    pub row: u32,
    pub left: Vec<&'a Question>,
}

/// The rows that may still match, in their order.
#[derive(PartialEq, Eq, Hash, Drop)]
pub struct State<'a> {
    pub lines: Vec<Line<'a>>,
}

impl<'a> State<'a> {
    /// The question that is asked next, if the first row has one left.
    pub fn test(&self) -> Option<&'a Question>
        ensures { option_map (λ q. part_of q.now) result ≡ test_of (state_tree self.now) }
    {
        match self.lines.first() {
            Some(line) => match line.left.first() {
                Some(question) => Some(*question),
                None => None,
            },
            None => None,
        }
    }

    /// The row that is chosen where no question is asked next.
    pub fn row(&self) -> u32
        ensures { result ≡ row_of (state_tree self.now) }
    {
        match self.lines.first() {
            Some(line) => line.row,
            None => 0,
        }
    }

    /// What is left once the answer at a position is known; None is another one than all that are asked there.
    pub fn after(
        &self,
        alloc: Global,
        at: &[u32],
        outcome: Option<Answer>,
    ) -> Result<State<'a>, NoMemory>
        ensures { IfOk result (λ later. state_tree later ≡ after at.now outcome (state_tree self.now)) }
    {
        let mut lines = Vec::new(alloc);
        for line in &self.lines {
            if let Some(left) = left_after(alloc, &line.left, at, outcome)? {
                lines.push(Line {
                    row: line.row,
                    left,
                })?;
            }
        }
        Ok(State { lines })
    }
}

// The questions that are left once the answer at a position is known, or None where one has another answer.
fn left_after<'a>(
    alloc: Global,
    questions: &[&'a Question],
    at: &[u32],
    outcome: Option<Answer>,
) -> Result<Option<Vec<&'a Question>>, NoMemory>
    ensures { IfOk result (λ found. option_map (λ left. map (λ q. part_of q.now) left.items) found
        ≡ left_after at.now outcome (map (λ q. part_of q.now) questions.now)) }
{
    let mut left = Vec::new(alloc);
    for question in questions {
        if question.at.as_slice() != at {
            left.push(*question)?;
        } else if !is_answered(outcome, question.asked) {
            return Ok(None);
        }
    }
    Ok(Some(left))
}

fn is_answered(outcome: Option<Answer>, asked: Answer) -> bool
    ensures { result ≡ agrees outcome asked }
{
    match outcome {
        Some(found) => is_answer(found, asked),
        None => false,
    }
}
