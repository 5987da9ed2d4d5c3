// What listings showed.
ghost use Rattle.std.specs.Prelude.{◌≡◌, ◌++◌, not, bytes_eq, filter, map, IfOk, OnOk};
ghost use Rattle.std.specs.List.{list_any};
ghost use Rattle.dir_rules.specs.Standing.{is_in};
ghost use Rattle.dir_rules.specs.Seen.{inner_eq, still_listed, still_shown, still_known, forget_listed, forget_items, moved_away, is_item_at, is_item_in, shown_in, with_items, with_names, created_among, note_created, listed_created};
ghost use Rattle.conformance.specs.Tables.{created_of};

use crate::table::CreatedMark;
use dir_model::{Area, Handle, Inner, Item, Name, Names, NoMemory, Spot};
use dir_rules::{Held, ShownArea, ShownItem};
use lock_rules::{gives_up_exclusive_gate, gives_up_removal};
use marks::{
    created_moment, is_empty, is_in, is_stage, later, parent, path_in, push_front, same_inner,
    same_spot,
};
use std::alloc::Global;
use std::mem;

/// What was listed under a lock that is given up goes.
pub fn keep_listed(listed: &mut Vec<Inner>, handle: Handle, holdings: &[Held])
    ensures { listed.new.items ≡ still_listed handle holdings.now listed.old.items }
{
    listed.retain(|inner| !gives_up_removal(&inner.spot, handle, holdings))
}

/// What was shown under a lock that is given up goes.
pub fn keep_shown(items: &mut Vec<ShownItem>, handle: Handle, holdings: &[Held])
    ensures { items.new.items ≡ still_shown handle holdings.now items.old.items }
{
    items.retain(|item| !gives_up_removal(&item.inner.spot, handle, holdings))
}

/// The areas whose lock is given up go.
pub fn keep_known(areas: &mut Vec<ShownArea>, handle: Handle, holdings: &[Held])
    ensures { areas.new.items ≡ still_known handle holdings.now areas.old.items }
{
    areas.retain(|area| !gives_up_exclusive_gate(area.area, handle, holdings))
}

/// What was listed at this spot is out of date.
pub fn forget_listed(listed: &mut Vec<Inner>, spot: &Spot)
    ensures { listed.new.items ≡ forget_listed spot.now listed.old.items }
{
    listed.retain(|inner| !same_spot(&inner.spot, spot))
}

/// What was shown at this spot is out of date.
pub fn forget_items(items: &mut Vec<ShownItem>, spot: &Spot)
    ensures { items.new.items ≡ forget_items spot.now items.old.items }
{
    items.retain(|item| !same_spot(&item.inner.spot, spot))
}

fn drop_name(names: &mut Vec<Name>, name: &Name)
    ensures { names.new.items ≡ filter (λ n. not (bytes_eq n name.now)) names.old.items }
{
    names.retain(|other| other != name)
}

fn move_away(area: &mut ShownArea, alloc: Global, from: &Spot)
    ensures { area.new ≡ moved_away from.now area.old }
{
    if is_in(from.area, area.area) {
        let empty = Names::from_vec(Vec::new(alloc));
        let mut names = mem::replace(&mut area.names, empty).into_vec();
        drop_name(&mut names, &from.name);
        area.names = Names::from_vec(names);
    }
}

/// The process moved a folder out of its area, or removed it.
pub fn move_all_away(areas: &mut [ShownArea], alloc: Global, from: &Spot)
    ensures { areas.new ≡ map (moved_away from.now) areas.old }
{
    for area in areas.iter_mut() {
        move_away(area, alloc, from);
    }
}

/// Whether it is the item at this path.
pub fn is_item_at(inner: &Inner, item: &ShownItem) -> bool
    ensures { result ≡ is_item_at inner.now item.now }
{
    same_inner(&item.inner, inner)
}

/// Whether it is an item of this directory.
pub fn stands_in(spot: &Spot, path: &[u8], item: &ShownItem) -> bool
    ensures { result ≡ is_item_in (record { spot = spot.now; path = path.now }) item.now }
{
    same_spot(&item.inner.spot, spot) && parent(item.inner.path.as_slice()) == path
}

fn shown_in(alloc: Global, inner: &Inner, item: &Item) -> Result<ShownItem, NoMemory>
    ensures { IfOk result (λ shown. shown ≡ shown_in inner.now item.now) }
{
    let path = path_in(alloc, inner.path.as_slice(), item.name.as_str().as_bytes())?;
    Ok(ShownItem {
        inner: Inner {
            spot: inner.spot,
            path,
        },
        kind: item.kind,
    })
}

fn drop_directory(items: &mut Vec<ShownItem>, inner: &Inner)
    ensures { items.new.items ≡ filter (λ i. not (is_item_in inner.now i)) items.old.items }
{
    items.retain(|item| !stands_in(&inner.spot, inner.path.as_slice(), item))
}

fn add_items(items: &mut Vec<ShownItem>, inner: &Inner, new: &[Item]) -> Result<(), NoMemory>
    ensures { OnOk result (items.new.items ≡ items.old.items ++ map (shown_in inner.now) new.now) }
{
    let alloc = *items.allocator();
    'items: for item in new {
        items.push(shown_in(alloc, inner, item)?)?;
    }
    Ok(())
}

/// A listing takes the place of an earlier one of that directory. Refused only where memory ran out.
pub fn note_items(items: &mut Vec<ShownItem>, inner: &Inner, new: &[Item]) -> Result<(), NoMemory>
    ensures { OnOk result (items.new.items ≡ with_items inner.now new.now items.old.items) }
{
    drop_directory(items, inner);
    add_items(items, inner, new)
}

/// An item was removed.
pub fn drop_item(items: &mut Vec<ShownItem>, inner: &Inner)
    ensures { items.new.items ≡ filter (λ i. not (is_item_at inner.now i)) items.old.items }
{
    items.retain(|item| !is_item_at(inner, item))
}

fn drop_area(areas: &mut Vec<ShownArea>, area: Area)
    ensures { areas.new.items ≡ filter (λ a. not (is_in area a.area)) areas.old.items }
{
    areas.retain(|shown| !is_in(area, shown.area))
}

/// An area was listed under its lock. Refused only where memory ran out.
pub fn note_names(areas: &mut Vec<ShownArea>, area: Area, names: &Names) -> Result<(), NoMemory>
    ensures { OnOk result (areas.new.items ≡ with_names area names.now areas.old.items) }
{
    drop_area(areas, area);
    let names = names.copy()?;
    push_front(areas, ShownArea { area, names })
}

fn created_among(items: &[Item]) -> Option<u64>
    ensures { result ≡ created_among items.now }
{
    let mut greatest = None;
    'items: for item in items {
        greatest = later(greatest, created_moment(item.name.as_str().as_bytes()));
    }
    greatest
}

fn note_moment(
    created: &mut Vec<CreatedMark>,
    name: &Name,
    moment: Option<u64>,
) -> Result<(), NoMemory>
    ensures { OnOk result (map created_of created.new.items ≡ note_created name.now moment (map created_of created.old.items)) }
{
    match moment {
        None => Ok(()),
        Some(moment) => push_front(
            created,
            CreatedMark {
                name: *name,
                moment,
            },
        ),
    }
}

/// The marks that a pod's listing showed are noted. Refused only where memory ran out.
pub fn note_created(
    created: &mut Vec<CreatedMark>,
    inner: &Inner,
    items: &[Item],
) -> Result<(), NoMemory>
    ensures { OnOk result (map created_of created.new.items ≡ listed_created inner.now items.now (map created_of created.old.items)) }
{
    if is_empty(inner.path.as_slice()) && is_stage(inner.spot.area) {
        return note_moment(created, &inner.spot.name, created_among(items));
    }
    Ok(())
}
