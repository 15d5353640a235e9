ghost use Rattle.std.specs.Prelude.{◌≡◌, Some, None, map, IfOk, if◌then◌else◌};
ghost use Rattle.kk_syntax.specs.Patterns.{pattern_tree, patterns_of};
ghost use Rattle.kk_syntax.specs.Trees.{row_tree, rows_of};
ghost use Rattle.kk_source.specs.State.{Environment};
ghost use Rattle.kk_source.specs.Matching.{and_then, fields_under, matched, matched_all, first_match as first_match_of};
ghost use Rattle.kk_meaning.specs.View.{value_view, cell_view, bound_view, pushed, chosen_view};

use crate::binding::Bound;
use crate::cell::Cell;
use crate::value::Value;
use kk_base::NoMemory;
use kk_syntax::{Expr, Pat, Row};
use std::alloc::Global;

/// The body of a row, and the variables that its pattern binds, in order.
#[derive(Drop)]
pub struct Chosen<'a> {
    pub body: &'a Expr,
    pub bound: Vec<Bound>,
}

/// The first row whose pattern matches a value, if there is one.
pub fn first_match<'a>(
    alloc: Global,
    store: &[Cell],
    rows: &'a [Row],
    value: Value,
) -> Result<Option<Chosen<'a>>, NoMemory>
    ensures { IfOk result (λ chosen. (environment : Environment)
        → first_match_of (map cell_view store.now) (rows_of (map row_tree rows.now)) (value_view value) environment
        ≡ chosen_view chosen environment) }
{
    for row in rows {
        let mut bound = Vec::new(alloc);
        if matches(store, &row.pattern, value, &mut bound)? {
            return Ok(Some(Chosen {
                body: &row.body,
                bound,
            }));
        }
    }
    Ok(None)
}

// Whether a pattern matches a value. Adds the variables that it binds.
#[cycle(matches)]
fn matches(
    store: &[Cell],
    pattern: &Pat,
    value: Value,
    bound: &mut Vec<Bound>,
) -> Result<bool, NoMemory>
    ensures { IfOk result (λ yes. (environment : Environment)
        → matched (map cell_view store.now) (pattern_tree pattern.now) (value_view value)
        (pushed (map bound_view bound.old.items) environment)
        ≡ (if yes then Some (pushed (map bound_view bound.new.items) environment) else None)) }
{
    match pattern {
        Pat::Wildcard => Ok(true),
        Pat::Variable(variable) => {
            bound.push(Bound {
                variable: *variable as usize,
                value,
            })?;
            Ok(true)
        }
        Pat::Number(number) => Ok(value.is_integer(*number)),
        Pat::Constructor(constructor, parts) => {
            matches_parts(store, *constructor, parts, value, bound)
        }
    }
}

// Whether a constructor's pattern with these parts matches a value.
#[cycle(matches)]
fn matches_parts(
    store: &[Cell],
    constructor: u32,
    parts: &[Pat],
    value: Value,
    bound: &mut Vec<Bound>,
) -> Result<bool, NoMemory>
    ensures { IfOk result (λ yes. (environment : Environment)
        → and_then (fields_under (map cell_view store.now) constructor (value_view value))
        (λ fields. matched_all (map cell_view store.now) (patterns_of (map pattern_tree parts.now)) fields
        (pushed (map bound_view bound.old.items) environment))
        ≡ (if yes then Some (pushed (map bound_view bound.new.items) environment) else None)) }
{
    match value {
        Value::Constant(other) => {
            if other != constructor {
                return Ok(false);
            }
            matches_each(store, parts, &[], bound)
        }
        Value::Place(at) => {
            let Some(cell) = store.get(at) else {
                return Ok(false);
            };
            if cell.made_by != constructor {
                return Ok(false);
            }
            matches_each(store, parts, &cell.fields, bound)
        }
        Value::Integer(_) | Value::Unit => Ok(false),
    }
}

// Whether patterns match as many values, each the value in its place. Adds the variables that they bind.
#[cycle(matches)]
fn matches_each(
    store: &[Cell],
    patterns: &[Pat],
    values: &[Value],
    bound: &mut Vec<Bound>,
) -> Result<bool, NoMemory>
    ensures { IfOk result (λ yes. (environment : Environment)
        → matched_all (map cell_view store.now) (patterns_of (map pattern_tree patterns.now)) (map value_view values.now)
        (pushed (map bound_view bound.old.items) environment)
        ≡ (if yes then Some (pushed (map bound_view bound.new.items) environment) else None)) }
{
    if patterns.len() != values.len() {
        return Ok(false);
    }
    for (i, pattern) in patterns.iter().enumerate() {
        if !matches(store, pattern, values[i], bound)? {
            return Ok(false);
        }
    }
    Ok(true)
}
