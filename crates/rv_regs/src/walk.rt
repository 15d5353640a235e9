// The code of a function in the plainest places, written from its end back.

ghost use Rattle.std.specs.Prelude.{◌≡◌, ◌≤◌, ◌∷◌, List, IfOk, OnOk, All, length, map, option_map};
ghost use Rattle.kk_base.specs.Limits.{greatest_of};
ghost use Rattle.kk_base.specs.declared.limit.LimitKind.TheVariants.{Parameters};
ghost use Rattle.rv_isa.specs.declared.asm.Statement.{Statement};
ghost use Rattle.rv_isa.specs.AsmCode.{Line, line_of};
ghost use Rattle.rv_isa.specs.PlacedCode.{placed_line_of};
ghost use Rattle.rv_isa.specs.declared.placed.Place.TheVariants.{Register as register};
ghost use Rattle.rv_regs.specs.Plain.{numbered, operand_at, result_register, loads, stores, placed_row, placed_code, placed_start_of};
ghost use Rattle.rv_propose.specs.Alive.{lists_before};
ghost use Rattle.rv_regs.specs.Backwards.{backwards};
ghost use Rattle.rv_regs.specs.Views.{lists_of};
ghost use Rattle.rv_regs.specs.Walks.{HasComeTo};

use crate::slots::{
    Loaded, copied_in, left_behind, loaded_for, loaded_from, operands_for, register_of_result,
    stored_later, those_alive,
};
use kk_base::NoMemory;
use rv_isa::{Item, Operand, Place, Register, Statement, Way};
use rv_propose::{LabelPoint, Point, alive_before, alive_behind, held_before, with_point};
use std::alloc::Global;

/// A walk through the code of a function, from its end back: the lines so far, the last one first, what is alive and held
/// where the walk is, and what is alive at the labels that it has passed.
#[derive(Drop)]
pub struct Walk {
    pub items: Vec<Item>,
    pub point: Point,
    pub labels: Vec<LabelPoint>,
}

fn put_before(items: &mut Vec<Item>, item: Item) -> Result<(), NoMemory>
    ensures { OnOk result (backwards items.new.items ≡ placed_line_of item ∷ backwards items.old.items) }
{
    items.push(item)?;
    Ok(())
}

fn put_stores(
    alloc: Global,
    items: &mut Vec<Item>,
    point: &Point,
    pending: &[Loaded],
) -> Result<(), NoMemory>
    ensures { OnOk result (backwards items.new.items ≡ stores (lists_of point.now) pending.now (backwards items.old.items)) }
{
    let mut left = pending.len();
    while left > 0 {
        left -= 1;
        let alive = stored_later(alloc, &pending[left..], point)?;
        let stored = pending[left];
        let value = stored.value;
        let way = Way::Store {
            from: stored.register,
            to: value,
        };
        put_before(items, Item::Moves { alive, value, way })?;
    }
    Ok(())
}

fn put_loads(
    alloc: Global,
    items: &mut Vec<Item>,
    point: &Point,
    loaded: &[Loaded],
) -> Result<(), NoMemory>
    ensures { OnOk result (backwards items.new.items ≡ loads (lists_of point.now) loaded.now (backwards items.old.items)) }
{
    for (index, next) in loaded.iter().enumerate() {
        let alive = copied_in(alloc, &loaded[index + 1..], point)?;
        let Loaded { value, register } = *next;
        let way = Way::Load {
            from: value,
            to: register,
        };
        put_before(items, Item::Moves { alive, value, way })?;
    }
    Ok(())
}

fn result_operand(statement: &Statement) -> Option<Operand>
    ensures { result ≡ option_map (operand_at (λ v. register (numbered (result_register statement.now.action)))) statement.now.into }
{
    match statement.into {
        Some(value) => Some(Operand {
            value,
            place: Place::Register(register_of_result(statement.action)),
        }),
        None => None,
    }
}

fn put_row(
    alloc: Global,
    items: &mut Vec<Item>,
    statement: &Statement,
    before: &Point,
    behind: &Point,
) -> Result<(), NoMemory>
    requires { length statement.now.args.items ≤ greatest_of Parameters }
    ensures { OnOk result (backwards items.new.items ≡ placed_row statement.now.action statement.now.args.items statement.now.into (lists_of before.now) (lists_of behind.now) (backwards items.old.items)) }
{
    let action = statement.action;
    let loaded = loaded_for(alloc, action, &statement.args)?;
    let pending = left_behind(alloc, action, statement.into, &behind.alive)?;
    put_stores(alloc, items, behind, &pending)?;
    let alive = copied_in(alloc, &loaded, before)?;
    let args = operands_for(alloc, action, &loaded, &statement.args)?;
    let into = result_operand(statement);
    let line = Item::Does {
        alive,
        action,
        args,
        into,
    };
    put_before(items, line)?;
    put_loads(alloc, items, before, &loaded)
}

/// The walk goes over one statement more.
fn step(alloc: Global, walk: Walk, statement: &Statement) -> Result<Walk, NoMemory>
    requires { length statement.now.args.items ≤ greatest_of Parameters }
    ensures { IfOk result (λ next. (rest : List Line) → HasComeTo walk rest → HasComeTo next (line_of statement.now ∷ rest)) }
{
    let Walk {
        mut items,
        point,
        labels,
    } = walk;
    let behind = alive_behind(alloc, statement.action, &point.alive, &labels)?;
    let alive = alive_before(alloc, &statement.args, statement.into, &behind)?;
    let held = held_before(alloc, statement.action, &statement.args, &point.held)?;
    let before = Point { alive, held };
    put_row(alloc, &mut items, statement, &before, &point)?;
    let labels = with_point(labels, statement.action, point.alive)?;
    Ok(Walk {
        items,
        point: before,
        labels,
    })
}

/// The lines in their order, behind the stores of the parameters.
fn finish(alloc: Global, walk: Walk, params: &[u32]) -> Result<Vec<Item>, NoMemory>
    requires { length params.now ≤ greatest_of Parameters }
    ensures { IfOk result (λ items. (code : List Line) → HasComeTo walk code → map placed_line_of items.items ≡ placed_start_of params.now (lists_before code) (placed_code code)) }
{
    let Walk {
        mut items,
        point,
        labels: _,
    } = walk;
    let loaded = loaded_from(alloc, Register::A0.number, params)?;
    let pending = those_alive(alloc, &loaded, &point.alive)?;
    put_stores(alloc, &mut items, &point, &pending)?;
    items.reverse();
    Ok(items)
}

/// The code of a function in the plainest places.
pub fn placed_lines(
    alloc: Global,
    params: &[u32],
    code: &[Statement],
) -> Result<Vec<Item>, NoMemory>
    requires few_params { length params.now ≤ greatest_of Parameters }
    requires few_args { All (λ (s : Statement). length s.args.items ≤ greatest_of Parameters) code.now }
    ensures { IfOk result (λ items. map placed_line_of items.items ≡ placed_start_of params.now (lists_before (map line_of code.now)) (placed_code (map line_of code.now))) }
{
    let mut walk = Walk {
        items: Vec::new(alloc),
        point: Point {
            alive: Vec::new(alloc),
            held: Vec::new(alloc),
        },
        labels: Vec::new(alloc),
    };
    let mut left = code.len();
    while left > 0 {
        left -= 1;
        walk = step(alloc, walk, &code[left])?;
    }
    finish(alloc, walk, params)
}
