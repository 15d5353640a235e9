ghost use Rattle.std.specs.Prelude.{◌≡◌, ℕ, ◌<◌, true, [], ◌∷◌, map, length, IfOk};
ghost use Rattle.kk_source.specs.Live.{is_live, live as live_of, counted};
ghost use Rattle.kk_source.specs.Sound.{IsOlder};
ghost use Rattle.kk_meaning.specs.View.{value_view, cell_view};
ghost use Rattle.kk_meaning.specs.Marks.{Marked, is_marked};

use crate::value::Value;
use kk_base::NoMemory;
use std::alloc::Global;

/// A cell of the store: the constructor that made it, by its number, and the values of its fields.
#[derive(Drop)]
pub struct Cell {
    pub made_by: u32,
    pub fields: Vec<Value>,
}

/// How many places are live, where these values are held. It asks that fields name older cells alone.
pub fn live(alloc: Global, store: &[Cell], held: &[Value]) -> Result<usize, NoMemory>
    requires { IsOlder (map cell_view store.now) }
    ensures { IfOk result (λ count. count ≡ live_of (map cell_view store.now) (map value_view held.now)) }
{
    let mut marks = vec![in alloc; false; store.len()]?;
    mark_live(&mut marks, store, held);
    Ok(count(&marks))
}

// Marks what is live. Fields name older cells alone, so one pass over the store, from the newest cell to the oldest, comes
// to each cell when all that leads to it has been seen.
fn mark_live(marks: &mut [bool], store: &[Cell], held: &[Value])
    requires older { IsOlder (map cell_view store.now) }
    requires none { (at : ℕ) → is_marked marks.old at ≡ true → ⊥ }
    requires whole { length marks.old ≡ length store.now }
    ensures { (at : ℕ) → at < length store.now
        → is_marked marks.new at ≡ is_live (map cell_view store.now) (map value_view held.now) at }
{
    mark_each(marks, held);
    let mut left = store.len();
    while left > 0 {
        left -= 1;
        if marks[left] {
            mark_each(marks, &store[left].fields);
        }
    }
}

// Marks the cells that values name.
fn mark_each(marks: &mut [bool], values: &[Value])
    ensures { Marked marks.old marks.new (map value_view values.now) }
{
    for value in values {
        mark(marks, *value);
    }
}

// Marks the cell that a value names, if it names one.
fn mark(marks: &mut [bool], value: Value)
    ensures { Marked marks.old marks.new (value_view value ∷ []) }
{
    if let Value::Place(at) = value {
        if at < marks.len() {
            marks[at] = true;
        }
    }
}

// The number of marks.
fn count(marks: &[bool]) -> usize
    ensures { result ≡ counted (is_marked marks.now) (length marks.now) }
{
    let mut count: usize = 0;
    for mark in marks {
        if *mark {
            count += 1;
        }
    }
    count
}
