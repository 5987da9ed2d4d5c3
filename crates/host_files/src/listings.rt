// Listings of areas and of directories in folders.
ghost use Rattle.std.specs.Prelude.{◌≡◌, ◌⊎◌, true, map, Err, IfOk, IfErr};
ghost use Rattle.std.specs.Ordering.{nat_cmp};
ghost use Rattle.std.specs.Cmp.Lexicographic.{slice_cmp};
ghost use Rattle.std.specs.List.Sorted.{IsStrictlySortedBy};
ghost use Rattle.dir_model.specs.Listings.{item_names};
ghost use Rattle.dir_model.specs.Replies.{is_fault};
ghost use Rattle.dir_trait.specs.Bundles.{IsBundleListing};
ghost use Rattle.host_files.specs.Apps.{LiesInApp};
ghost use Rattle.host_files.specs.Places.{has_dots};
ghost use Rattle.host_files.specs.Shown.{shown_item, folder_name, folder_names};

use crate::apps::{Started, may_be_apps, note_started, was_started};
use crate::files::{Shows, list_folder, reachable};
use crate::inside::open_dir;
use crate::leftovers::open_up_inside;
use crate::looks::{Reached, check_dir, reach};
use crate::place::{has_dots, path_inside, path_of_area};
use crate::refusals::{short, unlisted};
use dir_trait::{
    Area, BundleItem, BundleItems, BundleKind, DirError, Item, ItemKind, Items, Name, Names,
    Sequence, Spot,
};
use std::alloc::{AllocError, Global};
use std::fs::File;
use std::os::unix::io::AsRawFd;
use std::rt::Files;

fn shown_item(item: &BundleItem) -> Item
    ensures { result ≡ shown_item item.now }
{
    Item {
        name: item.name,
        kind: match item.kind {
            BundleKind::Dir => ItemKind::Dir,
            BundleKind::File => ItemKind::File,
            BundleKind::Link | BundleKind::Other => ItemKind::Other,
        },
    }
}

fn shown_items(alloc: Global, items: &BundleItems) -> Result<Vec<Item>, AllocError>
    ensures { IfOk result (λ shown. shown.items ≡ map shown_item items.now) }
{
    items.as_slice().iter().map(shown_item).collect(alloc)
}

/// What a listing of the folder tells, in the same order.
fn shown_listing(alloc: Global, listing: &BundleItems) -> Result<Items, DirError>
    requires { IsBundleListing listing.now }
    ensures items { IfOk result (λ items. items ≡ map shown_item listing.now) }
    ensures ordered { IfOk result (λ items. IsStrictlySortedBy (slice_cmp nat_cmp) (item_names items)) }
    ensures refusals { IfErr result (λ e. e ≡ DirError.NoMemory) }
{
    match shown_items(alloc, listing) {
        Ok(items) => Ok(Sequence::from_vec(items)),
        Err(error) => Err(short(error)),
    }
}

/// The entries of an open directory, which is read through its descriptor: so they are told also where
/// the folder is moved meanwhile.
fn list_opened<R: Files + AllocGlobal + Clone + Drop>(
    rt: &R,
    alloc: Global,
    directory: &File,
    shows: Shows,
) -> Result<BundleItems, DirError>
    ensures ordered { IfOk result IsBundleListing }
    ensures refusals { IfErr result (λ e. is_fault e ≡ true) }
{
    let number = directory.as_raw_fd();
    let path = format!(in alloc; "/proc/self/fd/{number}").map_err(short)?;
    list_folder(rt, alloc, path.as_str(), shows).map_err(unlisted)
}

/// What stands in a directory of a folder, as far as the listing shows it.
fn list_as<R: Files<File = File> + AllocGlobal + Clone + Drop>(
    rt: &R,
    alloc: Global,
    root: &str,
    reached: &mut Option<Reached>,
    spot: &Spot,
    inner: &str,
    shows: Shows,
) -> Result<Items, DirError>
    ensures dots { has_dots inner.now ≡ true → result ≡ Err DirError.Missing }
    ensures ordered { IfOk result (λ items. IsStrictlySortedBy (slice_cmp nat_cmp) (item_names items)) }
    ensures refusals { IfErr result (λ e. (e ≡ DirError.Missing) ⊎ (is_fault e ≡ true)) }
{
    let directory = open_dir(rt, alloc, root, reached, spot, inner)?;
    let listing = list_opened(rt, alloc, &directory, shows)?;
    shown_listing(alloc, &listing)
}

/// A listing that shows nothing, of a directory where an app that was started may have written. What stands
/// there goes with the directory, when that is removed.
fn list_none<R: Files>(
    rt: &R,
    alloc: Global,
    root: &str,
    reached: &mut Option<Reached>,
    spot: &Spot,
    inner: &str,
) -> Result<Items, DirError>
    requires area { spot.now.area ≡ Area.ExitedGarbage }
    requires app { LiesInApp inner.now }
    ensures dots { has_dots inner.now ≡ true → result ≡ Err DirError.Missing }
    ensures ordered { IfOk result (λ items. IsStrictlySortedBy (slice_cmp nat_cmp) (item_names items)) }
    ensures refusals { IfErr result (λ e. (e ≡ DirError.Missing) ⊎ (is_fault e ≡ true)) }
{
    let _path = reach(rt, alloc, root, reached, spot, inner)?;
    check_dir(rt, alloc, root, spot, inner)?;
    Ok(Sequence::from_vec(Vec::new(alloc)))
}

/// The same of a directory where an app may have written: a name whose path the system doesn't take goes
/// with the directory, when that is removed. Its mode is changed first, where this user may do so: what
/// stands in it is to be listed and removed.
fn list_left<R: Files<File = File> + AllocGlobal + Clone + Drop>(
    rt: &R,
    alloc: Global,
    root: &str,
    reached: &mut Option<Reached>,
    spot: &Spot,
    inner: &str,
) -> Result<Items, DirError>
    requires area { spot.now.area ≡ Area.ExitedGarbage }
    requires app { LiesInApp inner.now }
    ensures ordered { IfOk result (λ items. IsStrictlySortedBy (slice_cmp nat_cmp) (item_names items)) }
    ensures refusals { IfErr result (λ e. (e ≡ DirError.Missing) ⊎ (is_fault e ≡ true)) }
{
    let path = path_inside(alloc, root, spot, inner).map_err(short)?;
    let _answer = open_up_inside(rt, alloc, root, spot, inner);
    list_as(rt, alloc, root, reached, spot, inner, reachable(path.len()))
}

/// What stands in a directory of a folder. Where an app may have written that was started, no more than is
/// needed to remove it: nothing where the listing of the pod's folder showed the app's mark, and else what
/// can be told and reached.
pub fn list_inside<R: Files<File = File> + AllocGlobal + Clone + Drop>(
    rt: &R,
    alloc: Global,
    root: &str,
    reached: &mut Option<Reached>,
    started: &mut Option<Started>,
    spot: &Spot,
    inner: &str,
) -> Result<Items, DirError>
    ensures dots { has_dots inner.now ≡ true → result ≡ Err DirError.Missing }
    ensures ordered { IfOk result (λ items. IsStrictlySortedBy (slice_cmp nat_cmp) (item_names items)) }
    ensures refusals { IfErr result (λ e. (e ≡ DirError.Missing) ⊎ (is_fault e ≡ true)) }
{
    if has_dots(inner) {
        return Err(DirError::Missing);
    }
    if !may_be_apps(alloc, spot, inner)? {
        let items = list_as(rt, alloc, root, reached, spot, inner, Shows::Told)?;
        note_started(alloc, started, spot, inner, &items)?;
        return Ok(items);
    }
    if was_started(started, spot, inner) {
        list_none(rt, alloc, root, reached, spot, inner)
    } else {
        list_left(rt, alloc, root, reached, spot, inner)
    }
}

/// The name of a folder, where the entry of an area is one: a directory with a name.
fn folder_name(item: &BundleItem) -> Option<Name>
    ensures { result ≡ folder_name item.now }
{
    match item.kind {
        BundleKind::Dir => Name::of(item.name.as_str()),
        BundleKind::File | BundleKind::Link | BundleKind::Other => None,
    }
}

fn folder_names(alloc: Global, items: &BundleItems) -> Result<Vec<Name>, AllocError>
    ensures { IfOk result (λ names. names.items ≡ folder_names items.now) }
{
    items
        .as_slice()
        .iter()
        .filter_map(folder_name)
        .collect(alloc)
}

/// The folders among the entries of an area, in the same order.
fn shown_folders(alloc: Global, listing: &BundleItems) -> Result<Names, DirError>
    requires { IsBundleListing listing.now }
    ensures names { IfOk result (λ names. names ≡ folder_names listing.now) }
    ensures ordered { IfOk result (λ names. IsStrictlySortedBy (slice_cmp nat_cmp) names) }
    ensures refusals { IfErr result (λ e. e ≡ DirError.NoMemory) }
{
    match folder_names(alloc, listing) {
        Ok(names) => Ok(Sequence::from_vec(names)),
        Err(error) => Err(short(error)),
    }
}

/// The names of the folders in an area.
pub fn list_area<R: Files + AllocGlobal + Clone + Drop>(
    rt: &R,
    alloc: Global,
    root: &str,
    area: Area,
) -> Result<Names, DirError>
    ensures ordered { IfOk result (λ names. IsStrictlySortedBy (slice_cmp nat_cmp) names) }
    ensures refusals { IfErr result (λ e. is_fault e ≡ true) }
{
    let path = path_of_area(alloc, root, area).map_err(short)?;
    let listing = list_folder(rt, alloc, path.as_str(), Shows::Told).map_err(unlisted)?;
    shown_folders(alloc, &listing)
}
