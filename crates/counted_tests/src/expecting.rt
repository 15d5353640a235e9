//! Whether a step of code with tokens is the one that is expected.

use kk_counted::{TokenedBlock, TokenedLast, TokenedStep};
use kk_syntax::Form;

/// Whether a variable takes the value of a form on these arguments, which names these tokens.
pub fn computes(
    step: &TokenedStep,
    variable: u32,
    form: Form,
    arguments: &[u32],
    others: &[u32],
) -> bool {
    match step {
        TokenedStep::Let {
            variable: to,
            form: of,
            arguments: on,
            others: named,
        } => *to == variable
            && *of == form
            && on.as_slice() == arguments
            && named.as_slice() == others,
        _ => false,
    }
}

/// Whether the fields of the cell of a variable, by the first constructor, are read.
pub fn reads(step: &TokenedStep, variable: u32, fields: &[u32]) -> bool {
    match step {
        TokenedStep::Read {
            variable: of,
            constructor,
            fields: found,
        } => *of == variable && *constructor == 0 && found.as_slice() == fields,
        _ => false,
    }
}

/// Whether the cell of the first variable is opened, by the first constructor, and its token stands in the first slot.
pub fn opens(step: &TokenedStep, fields: &[u32], used: &[u32]) -> bool {
    match step {
        TokenedStep::Open {
            variable: 0,
            constructor: 0,
            fields: found,
            used: kept,
            slot: 0,
        } => found.as_slice() == fields && kept.as_slice() == used,
        _ => false,
    }
}

/// Whether it is opened by its count.
pub fn opens_by_count(step: &TokenedStep, fields: &[u32], used: &[u32]) -> bool {
    match step {
        TokenedStep::IfUnique {
            variable: 0,
            constructor: 0,
            fields: found,
            used: kept,
            slot: 0,
        } => found.as_slice() == fields && kept.as_slice() == used,
        _ => false,
    }
}

/// Whether a variable takes a cell of the first constructor in that of the only token, which stands in the first slot.
pub fn fills(
    step: &TokenedStep,
    variable: u32,
    first: u32,
    arguments: &[u32],
    kept: &[u32],
) -> bool {
    match step {
        TokenedStep::Fill {
            variable: to,
            slot: 0,
            constructor: 0,
            first: one,
            arguments: rest,
            kept: left,
            others,
        } => {
            *to == variable
                && *one == first
                && rest.as_slice() == arguments
                && left.as_slice() == kept
                && others.is_empty()
        }
        _ => false,
    }
}

/// Whether a block ends by the tail call of the first function on these arguments.
pub fn calls(last: &TokenedLast, arguments: &[u32]) -> bool {
    match last {
        TokenedLast::TailCall(0, on) => on.as_slice() == arguments,
        _ => false,
    }
}

/// The blocks of the rows of a branch on a variable.
pub fn rows_of(last: &TokenedLast, variable: u32) -> &[TokenedBlock] {
    match last {
        TokenedLast::Case(on, _, rows) if *on == variable => rows.as_slice(),
        _ => &[],
    }
}
