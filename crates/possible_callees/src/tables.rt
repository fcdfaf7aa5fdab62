//! Lists that are kept by number.

ghost use Rattle.std.specs.Prelude.{◌≡◌, ◌<◌, ◌++◌, [], if◌then◌else◌, is_ok, length, replicate, slice_set, IfOk, OnOk};
ghost use Rattle.std.specs.Option.{option_to_list};
ghost use Rattle.possible_callees.specs.Tables.{IsPadded, with_item};

use jf_bytes::{NoMemory, Seq};
use std::alloc::Global;

/// So many of the same.
pub fn items_repeated<T: Copy + Drop>(
    alloc: Global,
    item: T,
    count: usize,
) -> Result<Seq<T>, NoMemory>
    ensures { IfOk result (λ items. items ≡ replicate count item) }
{
    let mut items = Seq::with_capacity(alloc, count)?;
    for _ in 0..count {
        items.push(item)?;
    }
    Ok(items)
}

/// Puts an item in the place of the one with this number, where there is one.
pub fn put<T: Drop>(items: &mut Seq<T>, number: usize, item: T)
    ensures { items.new ≡ slice_set items.old number item }
{
    if number < items.len() {
        items.set(number, item);
    }
}

/// Adds this item until there is one with this number.
pub fn make_room<T: Copy + Drop>(items: &mut Seq<T>, number: usize, item: T) -> Result<(), NoMemory>
    ensures padded { IsPadded item items.old items.new }
    ensures room { OnOk result (number < length items.new) }
{
    while items.len() <= number {
        items.push(item)?;
    }
    Ok(())
}

/// So many lists, with nothing in them.
pub fn no_lists<T: Drop>(alloc: Global, count: usize) -> Result<Vec<Seq<T>>, NoMemory>
    ensures { IfOk result (λ lists. lists.items ≡ replicate count []) }
{
    let mut lists = Vec::with_capacity(alloc, count)?;
    for _ in 0..count {
        lists.push(Seq::new(alloc))?;
    }
    Ok(lists)
}

/// Adds an item to the list with this number, where there is one.
pub fn add_item<T: Drop>(lists: &mut [Seq<T>], number: usize, item: T) -> Result<(), NoMemory>
    ensures { lists.new
        ≡ (if is_ok result then with_item number item lists.old else lists.old) }
{
    if number < lists.len() {
        lists[number].push(item)?;
    }
    Ok(())
}

/// Puts a list in the place of the one with this number, where there is one.
pub fn put_list<T: Drop>(lists: &mut [Seq<T>], number: usize, list: Seq<T>)
    ensures { lists.new ≡ slice_set lists.old number list }
{
    if number < lists.len() {
        lists[number] = list;
    }
}

/// Adds an item, if there is one.
pub fn add_some<T: Drop>(items: &mut Seq<T>, item: Option<T>) -> Result<(), NoMemory>
    ensures { OnOk result (items.new ≡ items.old ++ option_to_list item) }
{
    if let Some(item) = item {
        items.push(item)?;
    }
    Ok(())
}
