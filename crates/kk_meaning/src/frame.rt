use crate::value::Value;
use kk_syntax::{Expr, Form, Row, Statement};

/// A block, or what is left of one behind its first statements.
#[derive(Clone, Copy)]
pub struct Block<'a> {
    pub statements: &'a [Statement],
    pub value: &'a Expr,
}

/// What waits for a value. Environments are those of `Bindings`.
#[derive(Drop)]
pub enum Frame<'a> {
    /// A form waits for an argument. It has the values of those before it; those behind it are left.
    Arguments {
        form: Form,
        values: Vec<Value>,
        left: &'a [Expr],
        environment: usize,
    },
    /// An `if` waits for its condition.
    Branches {
        positive: &'a Expr,
        negative: &'a Expr,
        environment: usize,
    },
    /// A match waits for its scrutinee.
    Rows {
        rows: &'a [Row],
        environment: usize,
    },
    /// What is left of a block waits for the statement before it, whose variable, if any, is still to be bound.
    Statement {
        variable: Option<u32>,
        rest: Block<'a>,
        environment: usize,
    },
    /// A call waits for its body. It keeps the values that it was lent, and knows how many bindings there were before.
    Call {
        lent: Vec<Value>,
        before: usize,
    },
}
