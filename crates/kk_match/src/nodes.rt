ghost use Rattle.std.specs.Prelude.{◌≡◌, ◌+◌, ◌*◌, map, sum_by, IfOk};
ghost use Rattle.kk_syntax.specs.Patterns.{pattern_tree, patterns_of};
ghost use Rattle.kk_syntax.specs.Shapes.{nodes_of_pattern, nodes_of_patterns};
ghost use Rattle.kk_match.specs.Decided.{most_tests, brief_length};

use kk_base::NoMemory;
use kk_syntax::Pat;

// The most states that may test, for each node of the patterns.
const TESTS_OF_NODE: usize = 8;

// How long brief tests are at most: so much for each node of the patterns, and more for each two of these nodes.
const BRIEF_NODE: usize = 56;

const BRIEF_PAIR: usize = 2;

/// How many states of these patterns may test.
pub fn most_tests(patterns: &[&Pat]) -> Result<usize, NoMemory>
    ensures { IfOk result (λ most. most ≡ most_tests (map (λ p. pattern_tree p.now) patterns.now)) }
{
    let count = nodes_in_all(patterns)?;
    product(TESTS_OF_NODE, count)
}

/// How long the tests of these patterns are at most where they are brief.
pub fn brief_length(patterns: &[&Pat]) -> Result<usize, NoMemory>
    ensures { IfOk result (λ most. most ≡ brief_length (map (λ p. pattern_tree p.now) patterns.now)) }
{
    let count = nodes_in_all(patterns)?;
    let each = product(BRIEF_NODE, count)?;
    let twice = product(BRIEF_PAIR, count)?;
    let pairs = product(twice, count)?;
    sum(each, pairs)
}

// The nodes of all patterns.
fn nodes_in_all(patterns: &[&Pat]) -> Result<usize, NoMemory>
    ensures { IfOk result (λ count. count ≡ sum_by nodes_of_pattern (map (λ p. pattern_tree p.now) patterns.now)) }
{
    let mut count = 0;
    for pattern in patterns {
        count = sum(count, nodes_of_pattern(pattern)?)?;
    }
    Ok(count)
}

// The nodes of a pattern: 1, and those of its parts.
#[cycle(nodes)]
fn nodes_of_pattern(pattern: &Pat) -> Result<usize, NoMemory>
    ensures { IfOk result (λ count. count ≡ nodes_of_pattern (pattern_tree pattern.now)) }
{
    match pattern {
        Pat::Wildcard | Pat::Variable(_) | Pat::Number(_) => Ok(1),
        Pat::Constructor(_, parts) => {
            let inner = nodes_of_patterns(parts)?;
            sum(inner, 1)
        }
    }
}

#[cycle(nodes)]
fn nodes_of_patterns(patterns: &[Pat]) -> Result<usize, NoMemory>
    ensures { IfOk result (λ count. count ≡ nodes_of_patterns (patterns_of (map pattern_tree patterns.now))) }
{
    let mut count = 0;
    for pattern in patterns {
        count = sum(count, nodes_of_pattern(pattern)?)?;
    }
    Ok(count)
}

/// The sum of two numbers, if there is room for it.
pub fn sum(one: usize, other: usize) -> Result<usize, NoMemory>
    ensures { IfOk result (λ both. both ≡ one + other) }
{
    match one.checked_add(other) {
        Some(both) => Ok(both),
        None => Err(NoMemory),
    }
}

/// The product of two numbers, if there is room for it.
pub fn product(one: usize, other: usize) -> Result<usize, NoMemory>
    ensures { IfOk result (λ both. both ≡ one * other) }
{
    match one.checked_mul(other) {
        Some(both) => Ok(both),
        None => Err(NoMemory),
    }
}
