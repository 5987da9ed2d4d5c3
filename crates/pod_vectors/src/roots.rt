// What the root of an image holds, and which image each file is from.
ghost use Rattle.std.specs.Prelude.{◌≡◌, length};
ghost use Rattle.dep_match.specs.TreeOrder.{IsOrderedTree};

use crate::image_texts::ImageText;
use crate::images::{maps_of, stored_images};
use dep_match::{DepTree, Stored, closure};
use path_map::{AbsPath, Entry, PathMap};
use render::{Plan, RenderError, Rendering, render_tree};
use scripts::{Page, Unread};
use short_texts::letter_of;
use tree_digest::{Listing, are_listable};

// The rendering of a tree, the maps being laid one after the other as its plan wants them.
fn laid(
    page: &mut Page,
    tree: &DepTree,
    list: &[Stored],
    maps: &[PathMap],
) -> Result<Rendering, RenderError>
    requires tree { IsOrderedTree (length list.now) tree.now.nodes }
    requires maps { length maps.now ≡ length list.now }
{
    let mut plan = Plan::open(page.alloc(), tree, list)?;
    'maps: while let Some(image) = plan.wanted() {
        plan = plan.lay(&maps[image])?;
    }
    Ok(plan.finish())
}

/// What the root of the image at a place holds, or why it holds nothing. Refused where there is no such image
/// or it has no tree.
pub fn rendered(
    page: &mut Page,
    list: &[Stored],
    maps: &[PathMap],
    place: usize,
    by_plan: bool,
) -> Result<Rendering, RenderError> {
    if place < list.len() && maps.len() == list.len() {
        if let Ok(tree) = closure(page.alloc(), list, place) {
            return if by_plan {
                laid(page, &tree, list, maps)
            } else {
                render_tree(page.alloc(), &tree, list, maps)
            };
        }
    }
    page.unread(Unread::Missing);
    Err(RenderError::NoMemory)
}

fn print_source(page: &mut Page, list: &[Stored], place: usize) {
    page.put(" from ");
    match list.get(place) {
        Some(image) => page.put(image.manifest.name.as_str()),
        None => page.put("no image"),
    }
}

fn print_entry(page: &mut Page, path: &AbsPath, entry: &Entry) {
    page.put(letter_of(entry));
    page.put(path.as_str());
}

fn print_entries(page: &mut Page, list: &[Stored], root: &Rendering) {
    for (path, entry) in root.map().iter() {
        print_entry(page, path, entry);
        if let Some(place) = root.source(path) {
            print_source(page, list, place);
        }
        page.put("\n");
    }
}

// The same, the files being gone through one after the other.
fn print_files(page: &mut Page, list: &[Stored], root: &Rendering) {
    let mut next = root.next_copy(None);
    for (path, entry) in root.map().iter() {
        print_entry(page, path, entry);
        if let Some((file, place)) = next {
            if file.as_str() == path.as_str() {
                print_source(page, list, place);
                next = root.next_copy(Some(path));
            }
        }
        page.put("\n");
    }
}

fn print_copy(page: &mut Page, list: &[Stored], root: &Rendering) {
    if let Some(copy) = page.made(root.copy()) {
        print_entries(page, list, &copy);
    }
}

fn print_listing(page: &mut Page, listing: &Listing) {
    if let Some(bytes) = page.made(listing.write(page.alloc())) {
        page.put_bytes(bytes.as_slice());
    }
}

fn print_listed(page: &mut Page, map: &PathMap) {
    if !are_listable(map) {
        return page.put("an entry that can't be listed");
    }
    match Listing::of_map(page.alloc(), map) {
        Ok(listing) => print_listing(page, &listing),
        Err(error) => page.tell_both(&error.number().unwrap_or(0), &error),
    }
}

/// `laid`: what the root of the first image holds, of maps that are laid one after the other, each file with the
/// name of the image that it is from.
pub fn laid_answer(page: &mut Page, images: &[ImageText]) {
    let list = stored_images(page, images);
    let maps = maps_of(page, images);
    match rendered(page, list.as_slice(), maps.as_slice(), 0, true) {
        Ok(root) => print_files(page, list.as_slice(), &root),
        Err(error) => page.tell_both(&error.number().unwrap_or(0), &error),
    }
}

/// `root`: the same of maps that are all handed over at once. `root-listing`: its listing.
pub fn root_answer(page: &mut Page, images: &[ImageText], listed: bool) {
    let list = stored_images(page, images);
    let maps = maps_of(page, images);
    match rendered(page, list.as_slice(), maps.as_slice(), 0, false) {
        Ok(root) if listed => print_listed(page, root.map()),
        Ok(root) => print_copy(page, list.as_slice(), &root),
        Err(error) => page.tell_both(&error.number().unwrap_or(0), &error),
    }
}
