// Slots in a new order, so that the first word of a frame is the slot of the token that is held in most lines.

use kk_base::NoMemory;
use rv_isa::{Action, Item, Listed, Operand, Place, PlacedFunction, Way};
use std::alloc::Global;
use std::collections::BTreeMap;

/// The new numbers of slots: each slot that is named has one, from 0 on.
#[derive(Drop)]
struct Numbers {
    numbers: BTreeMap<u32, u32>,
    next: u32,
}

impl Numbers {
    // The next number for a slot that has none.
    fn name(&mut self, slot: u32) -> Result<(), NoMemory> {
        if self.numbers.contains_key(&slot) {
            return Ok(());
        }
        match self.numbers.insert(slot, self.next) {
            Ok(_) => {
                self.next = self.next.saturating_add(1);
                Ok(())
            }
            Err(_) => Err(NoMemory),
        }
    }

    fn name_place(&mut self, place: Place) -> Result<(), NoMemory> {
        match place {
            Place::Slot(slot) => self.name(slot),
            Place::Register(_) => Ok(()),
        }
    }

    fn slot(&self, slot: u32) -> u32 {
        match self.numbers.get(&slot) {
            Some(number) => *number,
            None => slot,
        }
    }

    fn place(&self, place: Place) -> Place {
        match place {
            Place::Slot(slot) => Place::Slot(self.slot(slot)),
            Place::Register(_) => place,
        }
    }

    fn way(&self, way: Way) -> Way {
        match way {
            Way::Copy { .. } => way,
            Way::Load { from, to } => Way::Load {
                from: self.slot(from),
                to,
            },
            Way::Store { from, to } => Way::Store {
                from,
                to: self.slot(to),
            },
        }
    }

    fn listings(&self, alloc: Global, alive: &[Listed]) -> Result<Vec<Listed>, NoMemory> {
        let mut next = Vec::with_capacity(alloc, alive.len())?;
        for listed in alive {
            next.push(Listed {
                place: self.place(listed.place),
                ..*listed
            })?;
        }
        Ok(next)
    }

    fn operand(&self, operand: Operand) -> Operand {
        Operand {
            place: self.place(operand.place),
            ..operand
        }
    }

    fn result(&self, into: Option<Operand>) -> Option<Operand> {
        match into {
            Some(operand) => Some(self.operand(operand)),
            None => None,
        }
    }

    fn operands(&self, alloc: Global, args: &[Operand]) -> Result<Vec<Operand>, NoMemory> {
        let mut next = Vec::with_capacity(alloc, args.len())?;
        for arg in args {
            next.push(self.operand(*arg))?;
        }
        Ok(next)
    }

    fn item(&self, alloc: Global, item: &Item) -> Result<Item, NoMemory> {
        match item {
            Item::Does {
                action,
                into,
                args,
                alive,
            } => Ok(Item::Does {
                action: *action,
                into: self.result(*into),
                args: self.operands(alloc, args)?,
                alive: self.listings(alloc, alive)?,
            }),
            Item::Moves { alive, value, way } => Ok(Item::Moves {
                alive: self.listings(alloc, alive)?,
                value: *value,
                way: self.way(*way),
            }),
        }
    }
}

// The slot of the token that a line holds.
fn held_slot(item: &Item) -> Option<u32> {
    match item {
        Item::Does {
            action: Action::Hold,
            args,
            ..
        } => match args.first() {
            Some(
                Operand {
                    place: Place::Slot(slot),
                    ..
                },
            ) => Some(*slot),
            _ => None,
        },
        _ => None,
    }
}

// How many lines hold the token of a slot.
fn holds_of(slot: u32, code: &[Item]) -> usize {
    let mut holds: usize = 0;
    for item in code {
        if held_slot(item) == Some(slot) {
            holds = holds.saturating_add(1);
        }
    }
    holds
}

// The slot whose token is held in most lines, where one is.
fn most_held(code: &[Item]) -> Option<u32> {
    let mut most = 0;
    let mut found = None;
    for item in code {
        if let Some(slot) = held_slot(item) {
            let holds = holds_of(slot, code);
            if holds > most {
                most = holds;
                found = Some(slot);
            }
        }
    }
    found
}

// The slots that lines hold tokens in, or move to or from, and then those that they list.
fn numbers_of(alloc: Global, code: &[Item]) -> Result<Numbers, NoMemory> {
    let mut numbers = Numbers {
        numbers: BTreeMap::new(alloc),
        next: 0,
    };
    if let Some(slot) = most_held(code) {
        numbers.name(slot)?;
    }
    for item in code {
        if let Some(slot) = held_slot(item) {
            numbers.name(slot)?;
        }
    }
    for item in code {
        match item {
            Item::Moves {
                way: Way::Load { from: slot, .. },
                ..
            } => numbers.name(*slot)?,
            Item::Moves {
                way: Way::Store { to: slot, .. },
                ..
            } => numbers.name(*slot)?,
            _ => {}
        }
    }
    for item in code {
        match item {
            Item::Does { alive, .. } | Item::Moves { alive, .. } => {
                for listed in alive {
                    numbers.name_place(listed.place)?;
                }
            }
        }
    }
    Ok(numbers)
}

/// The function with its slots in a new order: first those of held tokens, the one that is held in most lines before the others, and
/// then those that a move names. Whether it is right, only a check says.
pub fn with_tokens_first(
    alloc: Global,
    placed: &PlacedFunction,
) -> Result<PlacedFunction, NoMemory> {
    let numbers = numbers_of(alloc, &placed.code)?;
    let mut code = Vec::with_capacity(alloc, placed.code.len())?;
    for item in &placed.code {
        code.push(numbers.item(alloc, item)?)?;
    }
    Ok(PlacedFunction {
        params: Vec::from_slice(alloc, &placed.params)?,
        code,
    })
}
