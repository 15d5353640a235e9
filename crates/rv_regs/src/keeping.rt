// What a line keeps of the values that are listed where it goes on.

ghost use Rattle.std.specs.Prelude.{◌≡◌, ◌≢◌, ◌⊎◌, ◌↔◌, IsTrue, All, option_map};
ghost use Rattle.std.specs.List.{AllByRecursion};
ghost use Rattle.rv_isa.specs.declared.placed.Place.{Place};
ghost use Rattle.rv_regs.specs.Listings.{both_of, listed_as, with_copy, is_first_read, spoils_by, marks};
ghost use Rattle.rv_regs.specs.Conditions.{OnCopy, AtBoth, written_by, IsNew, HasCopyIn, IsCopied, IsAtCopy, StaysListed, IsClearOf, IsSafe};
ghost use Rattle.rv_regs.specs.Conditions.{IsKept, IsNeeded, IsListedIn, IsHandedOut, WriteIsHandedOut, IsInSlot, StaysHeld};
ghost use Rattle.rv_regs.specs.Views.{point_of};
ghost use Rattle.rv_isa.specs.declared.placed.Listed.{Listed};

use crate::conventions::{may_have_value, may_set};
use crate::places::{is_copy_at, is_listed, is_read, is_written, same_listing, same_place};
use rv_isa::{Action, Listed, Operand, Place, Register};
use rv_propose::listing;

/// Whether the action may change the register of this number, besides giving its value. A move is no action.
pub fn may_spoil(action: Option<Action>, register: u8) -> bool
    ensures { result ≡ spoils_by action register }
{
    match action {
        Some(action) => rv_propose::may_spoil(action, register),
        None => false,
    }
}

fn is_first_read(reads: &[Operand], value: u32) -> bool
    ensures { result ≡ is_first_read reads.now value }
{
    match reads.first() {
        Some(first) => first.value == value,
        None => false,
    }
}

/// The listing behind a line of what is listed before it.
pub fn marking(action: Option<Action>, reads: &[Operand], listed: Listed) -> Listed
    ensures { result ≡ marks action reads.now listed }
{
    match action {
        Some(Action::Hold) if is_first_read(reads, listed.value) => Listed {
            held: true,
            ..listed
        },
        Some(Action::Unhold) if is_read(reads, listed.value) => Listed {
            held: false,
            ..listed
        },
        _ => listed,
    }
}

/// Where a line's value is written; or nowhere, where it is lost.
fn written_by(action: Option<Action>, write: Option<Operand>) -> Option<Operand>
    ensures { result ≡ written_by action write }
{
    match (action, write) {
        (Some(action), Some(into)) => {
            if action.is_lost(into.place) {
                None
            } else {
                write
            }
        }
        _ => write,
    }
}

fn is_new(write: Option<Operand>, listed: Listed) -> bool
    ensures { IsTrue result ↔ IsNew write listed }
{
    match write {
        Some(into) => {
            into.value == listed.value
                && same_place(into.place, listed.place)
                && !listed.held
                && listed.copy.is_none()
        }
        None => false,
    }
}

fn copied_to(register: Option<Register>, listed: Listed) -> Listed
    ensures { result ≡ with_copy register listed }
{
    Listed {
        copy: register,
        ..listed
    }
}

fn has_copy_in(alive: &[Listed], place: Place, listed: Listed) -> bool
    ensures { IsTrue result ↔ HasCopyIn alive.now place listed }
{
    match place {
        Place::Register(register) => match listing(alive, listed.value) {
            Some(before) => same_listing(copied_to(Some(register), before), listed),
            None => false,
        },
        Place::Slot(_) => match listing(alive, listed.value) {
            Some(before) => {
                same_place(listed.place, place)
                    && !listed.held
                    && is_copy_at(listed.copy, before.place)
            }
            None => false,
        },
    }
}

fn is_copied(
    alive: &[Listed],
    action: Option<Action>,
    write: Option<Operand>,
    listed: Listed,
) -> bool
    ensures { IsTrue result ↔ IsCopied alive.now action write listed }
{
    match (action, write) {
        (None, Some(into)) => {
            into.value == listed.value && has_copy_in(alive, into.place, listed)
        }
        _ => false,
    }
}

fn is_at_copy(alive: &[Listed], listed: Listed) -> bool
    ensures { IsTrue result ↔ IsAtCopy alive.now listed }
{
    match listing(alive, listed.value) {
        Some(before) => {
            is_copy_at(before.copy, listed.place) && !listed.held && listed.copy.is_none()
        }
        None => false,
    }
}

fn stays_as_listed(
    alive: &[Listed],
    action: Option<Action>,
    reads: &[Operand],
    listed: Listed,
) -> bool
    ensures { IsTrue result ↔ ((option_map (marks action reads.now) (listed_as listed.value alive.now) ≡ Some listed)
        ⊎ (option_map (λ m. with_copy None (marks action reads.now m)) (listed_as listed.value alive.now) ≡ Some listed)) }
{
    match listing(alive, listed.value) {
        Some(before) => {
            let after = marking(action, reads, before);
            same_listing(after, listed) || same_listing(copied_to(None, after), listed)
        }
        None => false,
    }
}

fn stays_listed(alive: &[Listed], action: Option<Action>, reads: &[Operand], listed: Listed) -> bool
    ensures { IsTrue result ↔ StaysListed alive.now (marks action reads.now) listed }
{
    stays_as_listed(alive, action, reads, listed) || is_at_copy(alive, listed)
}

fn is_copy_off(place: Place, copy: Option<Register>) -> bool
    ensures { IsTrue result ↔ OnCopy (λ (other : Place). place ≢ other) copy }
{
    match copy {
        Some(register) => !same_place(place, Place::Register(register)),
        None => true,
    }
}

fn is_clear_of(write: Option<Operand>, listed: Listed) -> bool
    ensures { IsTrue result ↔ IsClearOf write listed }
{
    match write {
        Some(into) => {
            into.value != listed.value
                && !same_place(into.place, listed.place)
                && is_copy_off(into.place, listed.copy)
        }
        None => true,
    }
}

fn is_safe(action: Option<Action>, place: Place) -> bool
    ensures { IsTrue result ↔ IsSafe (spoils_by action) place }
{
    match place {
        Place::Register(register) => !may_spoil(action, register.number),
        Place::Slot(_) => true,
    }
}

fn is_copy_safe(action: Option<Action>, copy: Option<Register>) -> bool
    ensures { IsTrue result ↔ OnCopy (IsSafe (spoils_by action)) copy }
{
    match copy {
        Some(register) => !may_spoil(action, register.number),
        None => true,
    }
}

fn is_kept(
    alive: &[Listed],
    reads: &[Operand],
    write: Option<Operand>,
    action: Option<Action>,
    listed: Listed,
) -> bool
    ensures { IsTrue result ↔ IsKept alive.now action reads.now write listed }
{
    is_new(written_by(action, write), listed)
        || is_copied(alive, action, write, listed)
        || stays_listed(alive, action, reads, listed)
            && is_clear_of(write, listed)
            && is_safe(action, listed.place)
            && is_copy_safe(action, listed.copy)
}

// Whether the line keeps all that is listed at a point where it goes on.
fn keeps_all(
    alive: &[Listed],
    reads: &[Operand],
    write: Option<Operand>,
    action: Option<Action>,
    next: &[Listed],
) -> bool
    ensures { IsTrue result ↔ All (IsKept alive.now action reads.now write) next.now }
{
    next.iter()
        .all(|listed| is_kept(alive, reads, write, action, *listed))
}

/// Whether the line keeps all that is listed where it goes on.
pub fn keeps_all_at_each(
    alive: &[Listed],
    reads: &[Operand],
    write: Option<Operand>,
    action: Option<Action>,
    behind: Option<&[Listed]>,
    at_label: Option<&[Listed]>,
) -> bool
    ensures { IsTrue result ↔ AllByRecursion (All (IsKept alive.now action reads.now write)) (both_of (point_of behind.entry) (point_of at_label.entry)) }
{
    match (behind, at_label) {
        (Some(next), Some(there)) => {
            keeps_all(alive, reads, write, action, next)
                && keeps_all(alive, reads, write, action, there)
        }
        (Some(next), None) | (None, Some(next)) => keeps_all(alive, reads, write, action, next),
        (None, None) => true,
    }
}

fn is_listed_in(value: u32, behind: Option<&[Listed]>, at_label: Option<&[Listed]>) -> bool
    ensures { IsTrue result ↔ IsListedIn (both_of (point_of behind.entry) (point_of at_label.entry)) value }
{
    match (behind, at_label) {
        (Some(next), Some(there)) => is_listed(next, value) || is_listed(there, value),
        (Some(next), None) | (None, Some(next)) => is_listed(next, value),
        (None, None) => false,
    }
}

fn is_needed(
    reads: &[Operand],
    write: Option<Operand>,
    behind: Option<&[Listed]>,
    at_label: Option<&[Listed]>,
    listed: Listed,
) -> bool
    ensures { IsTrue result ↔ IsNeeded reads.now write (both_of (point_of behind.entry) (point_of at_label.entry)) listed }
{
    is_read(reads, listed.value)
        || !is_written(write, listed.value) && is_listed_in(listed.value, behind, at_label)
}

/// Whether all that is listed is needed: read, or listed where the line goes on and not written.
pub fn all_needed(
    alive: &[Listed],
    reads: &[Operand],
    write: Option<Operand>,
    behind: Option<&[Listed]>,
    at_label: Option<&[Listed]>,
) -> bool
    ensures { IsTrue result ↔ All (IsNeeded reads.now write (both_of (point_of behind.entry) (point_of at_label.entry))) alive.now }
{
    alive.iter().all(|listed| is_needed(reads, write, behind, at_label, *listed))
}

fn is_allowed(place: Place) -> bool
    ensures { IsTrue result ↔ IsHandedOut place }
{
    match place {
        Place::Register(register) => may_have_value(register.number),
        Place::Slot(_) => true,
    }
}

fn is_copy_allowed(copy: Option<Register>) -> bool
    ensures { IsTrue result ↔ OnCopy IsHandedOut copy }
{
    match copy {
        Some(register) => may_have_value(register.number),
        None => true,
    }
}

/// Whether the registers that are listed are ones that values may have.
pub fn all_allowed(alive: &[Listed]) -> bool
    ensures { IsTrue result ↔ All (AtBoth IsHandedOut) alive.now }
{
    alive.iter().all(|listed| is_allowed(listed.place) && is_copy_allowed(listed.copy))
}

/// Whether a register that is written is one that values may have, and one that the action, or the move, may write.
pub fn write_allowed(action: Option<Action>, write: Option<Operand>) -> bool
    ensures { IsTrue result ↔ WriteIsHandedOut action write }
{
    match write {
        Some(into) => is_allowed(into.place) && may_set(action, into.place),
        None => true,
    }
}

fn is_in_slot(place: Place) -> bool
    ensures { IsTrue result ↔ IsInSlot place }
{
    match place {
        Place::Register(_) => false,
        Place::Slot(_) => true,
    }
}

fn is_listing_of(next: &[Listed], value: u32, listed: Listed) -> bool
    ensures { IsTrue result ↔ (listed_as value next.now ≡ Some listed) }
{
    match listing(next, value) {
        Some(other) => same_listing(other, listed),
        None => false,
    }
}

fn is_listed_at_each(
    value: u32,
    listed: Listed,
    behind: Option<&[Listed]>,
    at_label: Option<&[Listed]>,
) -> bool
    ensures { IsTrue result ↔ AllByRecursion (λ next. listed_as value next ≡ Some listed) (both_of (point_of behind.entry) (point_of at_label.entry)) }
{
    match (behind, at_label) {
        (Some(next), Some(there)) => {
            is_listing_of(next, value, listed) && is_listing_of(there, value, listed)
        }
        (Some(next), None) | (None, Some(next)) => is_listing_of(next, value, listed),
        (None, None) => true,
    }
}

fn stays_held(
    reads: &[Operand],
    action: Option<Action>,
    behind: Option<&[Listed]>,
    at_label: Option<&[Listed]>,
    listed: Listed,
) -> bool
    ensures { IsTrue result ↔ StaysHeld (marks action reads.now) (both_of (point_of behind.entry) (point_of at_label.entry)) listed }
{
    let after = marking(action, reads, listed);
    !after.held
        || is_in_slot(listed.place)
            && is_listed_at_each(listed.value, copied_to(None, after), behind, at_label)
}

/// Whether what is held behind the line stands in a slot, and stays there, held and without a copy, where the line goes on.
pub fn all_stay_held(
    alive: &[Listed],
    reads: &[Operand],
    action: Option<Action>,
    behind: Option<&[Listed]>,
    at_label: Option<&[Listed]>,
) -> bool
    ensures { IsTrue result ↔ All (StaysHeld (marks action reads.now) (both_of (point_of behind.entry) (point_of at_label.entry))) alive.now }
{
    alive.iter().all(|listed| stays_held(reads, action, behind, at_label, *listed))
}
