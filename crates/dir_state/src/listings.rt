// Open listings: what they note, and what they show at their end.
ghost use Rattle.std.specs.Prelude.{◌≡◌, [], filter, find, IfOk};
ghost use Rattle.std.specs.List.{list_any};
ghost use Rattle.std.specs.Option.{option_copied};
ghost use Rattle.dir_model.specs.Trees.{name_in, names_in};
ghost use Rattle.dir_model.specs.Listings.{has_name, item_names, is_named, has_named, is_listing_of, without_listing};
ghost use Rattle.dir_state.specs.Answers.{inserted_in_order, kind_named, items_in_order};

use crate::compare::area_rank;
use dir_model::{Area, FileName, Item, ItemKind, Name, NoMemory, OpenListing, Spot};
use std::alloc::{AllocError, Global};
use std::collections::BTreeSet;

fn name_in(place: &Option<Spot>, area: Area) -> Option<Name>
    ensures { result ≡ name_in area place.now }
{
    match place {
        Some(spot) if area_rank(spot.area) == area_rank(area) => Some(spot.name),
        _ => None,
    }
}

/// The names of the folders in an area. Refused only where memory ran out.
pub fn names_in(
    alloc: Global,
    folders: &[Option<Spot>],
    area: Area,
) -> Result<Vec<Name>, AllocError>
    ensures { IfOk result (λ names. names.items ≡ names_in area folders.now) }
{
    folders
        .iter()
        .filter_map(|place| name_in(place, area))
        .collect(alloc)
}

fn has_name(names: &[Name], name: &Name) -> bool
    ensures { result ≡ has_name names.now name.now }
{
    names.iter().any(|n| n == name)
}

/// The names that are among the others. Refused only where memory ran out.
pub fn kept_names(alloc: Global, names: &[Name], now: &[Name]) -> Result<Vec<Name>, AllocError>
    ensures { IfOk result (λ kept. kept.items ≡ filter (has_name now.now) names.now) }
{
    names
        .iter()
        .copied()
        .filter(|name| has_name(now, name))
        .collect(alloc)
}

fn has_named(items: &[Item], item: &Item) -> bool
    ensures { result ≡ has_named items.now item.now }
{
    items.iter().any(|other| other.name == item.name)
}

/// The items whose names are among those of the others. Refused only where memory ran out.
pub fn kept_items(alloc: Global, items: &[Item], now: &[Item]) -> Result<Vec<Item>, AllocError>
    ensures { IfOk result (λ kept. kept.items ≡ filter (has_named now.now) items.now) }
{
    items
        .iter()
        .copied()
        .filter(|item| has_named(now, item))
        .collect(alloc)
}

/// The names in byte order, each once. Refused only where memory ran out.
pub fn names_in_order(alloc: Global, names: &[Name]) -> Result<Vec<Name>, NoMemory>
    ensures { IfOk result (λ ordered. ordered.items ≡ inserted_in_order [] names.now) }
{
    let mut ordered = BTreeSet::new(alloc);
    'names: for name in names {
        let _new = ordered.insert(*name)?;
    }
    let list = ordered.into_iter().collect(alloc)?;
    Ok(list)
}

fn first_named<'a>(items: &'a [Item], name: &FileName) -> Option<&'a Item>
    ensures { option_copied result ≡ find (is_named name.now) items.now }
{
    items.iter().find(|item| item.name == *name)
}

fn kind_named(items: &[Item], name: &FileName) -> ItemKind
    ensures { result ≡ kind_named items.now name.now }
{
    match first_named(items, name) {
        Some(item) => item.kind,
        None => ItemKind::Dir,
    }
}

fn file_names_in_order(alloc: Global, items: &[Item]) -> Result<BTreeSet<FileName>, NoMemory>
    ensures { IfOk result (λ ordered. ordered.keys ≡ inserted_in_order [] (item_names items.now)) }
{
    let mut ordered = BTreeSet::new(alloc);
    'items: for item in items {
        let _new = ordered.insert(item.name)?;
    }
    Ok(ordered)
}

/// The items in byte order of their names, each name once. Refused only where memory ran out.
pub fn items_in_order(alloc: Global, items: &[Item]) -> Result<Vec<Item>, NoMemory>
    ensures { IfOk result (λ ordered. ordered.items ≡ items_in_order items.now) }
{
    let names = file_names_in_order(alloc, items)?;
    let list = names
        .iter()
        .map(|name| Item {
            name: *name,
            kind: kind_named(items, name),
        })
        .collect(alloc)?;
    Ok(list)
}

/// Whether the process has a listing open.
pub fn is_listing(listings: &[OpenListing], process: u32) -> bool
    ensures { result ≡ list_any (is_listing_of process) listings.now }
{
    listings.iter().any(|listing| listing.process == process)
}

/// The listing of the process goes.
pub fn end_listing(listings: &mut Vec<OpenListing>, process: u32)
    ensures { listings.new.items ≡ without_listing process listings.old.items }
{
    listings.retain(|listing| listing.process != process)
}
