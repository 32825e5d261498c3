//! What came out of the tasks, set in their order.

ghost use Rattle.std.specs.Prelude.{◌≡◌, ◌≤◌, ◌<◌, [], length, vec_capacity, IfOk, Some, ℕ, List, slice_set};
ghost use Rattle.std.specs.List.{All, AllZip};
ghost use Rattle.shared_work.specs.Tasks.{IsOfPlace, Lies, below, count};
ghost use Rattle.shared_work.specs.declared.placed.Placed.{Placed as PlacedOf};

use crate::placed::Placed;
use std::alloc::{AllocError, Global};

/// So many slots with nothing in them.
pub(crate) fn empty_slots<D: Drop>(
    alloc: Global,
    count: usize,
) -> Result<Vec<Option<D>>, AllocError>
    ensures { IfOk result (λ slots. length slots.items ≡ count) }
{
    let mut slots = Vec::with_capacity(alloc, count)?;
    for _ in 0..count {
        slots.push_reserved(None);
    }
    Ok(slots)
}

/// Lists these in the order of their places, of which each is there once. There is a slot for each,
/// and `list` has room for all.
pub(crate) fn in_order<D: Drop>(done: Vec<Placed<D>>, slots: Vec<Option<D>>, list: Vec<D>) -> Vec<D>
    requires slots { length slots.items ≡ length done.items }
    requires once { (i : ℕ) → count i done.items ≡ below i (length done.items) }
    requires list { list.items ≡ [] }
    requires room { length done.items ≤ vec_capacity list }
    ensures count { length result.items ≡ length done.items }
    ensures places { All (IsOfPlace result.items) done.items }
{
    list_of(set_slots(done, slots), list)
}

/// Sets each in the slot of its place.
fn set_slots<D: Drop>(done: Vec<Placed<D>>, slots: Vec<Option<D>>) -> Vec<Option<D>>
    requires slots { length slots.items ≡ length done.items }
    requires once { (i : ℕ) → count i done.items ≡ below i (length done.items) }
    ensures count { length result.items ≡ length done.items }
    ensures lie { All (Lies result.items) done.items }
{
    let mut slots = slots;
    for placed in done {
        let Placed { place, it } = placed;
        put(&mut slots, place, it);
    }
    slots
}

fn put<D: Drop>(slots: &mut Vec<Option<D>>, place: usize, it: D)
    requires { place < length slots.old.items }
    ensures { slots.new.items ≡ slice_set slots.old.items place (Some it) }
{
    let value = Some(it);
    slots[place] = value;
}

/// What lies in the slots, of which none is empty.
fn list_of<D: Drop>(slots: Vec<Option<D>>, list: Vec<D>) -> Vec<D>
    requires full { (done : List (PlacedOf D)) × All (Lies slots.items) done × ((i : ℕ) → count i done ≡ below i (length done)) × (length slots.items ≡ length done) }
    requires list { list.items ≡ [] }
    requires room { length slots.items ≤ vec_capacity list }
    ensures { AllZip (λ slot it. slot ≡ Some it) slots.items result.items }
{
    let mut list = list;
    for slot in slots {
        match slot {
            Some(it) => list.push_reserved(it),
            None => unreachable!(),
        }
    }
    list
}
