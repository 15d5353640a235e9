// The labels of a function, and where they stand.

ghost use Rattle.std.specs.Prelude.{◌≡◌, ℕ, ◌+◌, ◌*◌, ◌≤◌, Some, None, cond, nat_eq, IfOk, OnOk, map};
ghost use Rattle.std.specs.Ordering.{nat_cmp};
ghost use Rattle.std.specs.BTreeMap.{get};
ghost use Rattle.rv_isa.specs.Costs.{placed_code_length};
ghost use Rattle.rv_isa.specs.PlacedCode.{placed_line_of};
ghost use Rattle.rv_isa.specs.PlacedMachine.{is_label_line};
ghost use Rattle.rv_place.specs.Emitted.{HasLabels, or_next};
ghost use Rattle.rv_place.specs.Texts.{greatest_address};

use crate::reach::Forms;
use crate::sizes::words_of_item;
use kk_base::NoMemory;
use rv_isa::{Action, Item};
use std::alloc::Global;
use std::collections::BTreeMap;

/// The labels of a function of these forms, each with the address where it first stands.
#[derive(Drop)]
pub struct Labels {
    pub forms: Forms,
    pub addresses: BTreeMap<u32, u32>,
}

impl Labels {
    /// The labels of items of these forms that stand at `start`.
    pub fn of(alloc: Global, forms: Forms, start: u32, items: &[Item]) -> Result<Labels, NoMemory>
        requires fits { start + 4 * placed_code_length (map placed_line_of items.now) ≤ greatest_address }
        ensures forms { IfOk result (λ labels. labels.forms ≡ forms) }
        ensures labels { IfOk result (λ labels. HasLabels labels start (map placed_line_of items.now)) }
    {
        let mut addresses = BTreeMap::new(alloc);
        let mut at = start;
        for item in items {
            add(&mut addresses, item, at)?;
            at += 4 * words_of_item(forms, item);
        }
        Ok(Labels { forms, addresses })
    }

    /// The address of a label. Of one that is not there, any number.
    pub fn address(&self, label: u32) -> u32
        ensures { (address : ℕ) → get nat_cmp self.now.addresses label ≡ Some address → result ≡ address }
    {
        match self.addresses.get(&label) {
            Some(address) => *address,
            None => 0,
        }
    }
}

/// Adds the label of an item that stands at an address, if it has one and that stood nowhere before.
fn add(addresses: &mut BTreeMap<u32, u32>, item: &Item, at: u32) -> Result<(), NoMemory>
    ensures { OnOk result ((l : ℕ) → get nat_cmp addresses.new l ≡ or_next (get nat_cmp addresses.old l) (cond (is_label_line l (placed_line_of item.now)) (Some at) None)) }
{
    match item {
        Item::Does {
            action: Action::Label(label),
            ..
        } => add_label(addresses, *label, at),
        _ => Ok(()),
    }
}

fn add_label(addresses: &mut BTreeMap<u32, u32>, label: u32, at: u32) -> Result<(), NoMemory>
    ensures { OnOk result ((l : ℕ) → get nat_cmp addresses.new l ≡ or_next (get nat_cmp addresses.old l) (cond (nat_eq label l) (Some at) None)) }
{
    if addresses.contains_key(&label) {
        return Ok(());
    }
    match addresses.insert(label, at) {
        Ok(_) => Ok(()),
        Err(_) => Err(NoMemory),
    }
}
