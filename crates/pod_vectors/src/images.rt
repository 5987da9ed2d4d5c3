// Images, and maps of their own entries.
use crate::image_texts::ImageText;
use ac_types::{ImageId, StoreKey};
use dep_match::Stored;
use manifests::read_image;
use path_map::PathMap;
use scripts::{Page, Unread};
use short_texts::lay_letter;
use tree_digest::Listing;

fn stored(page: &mut Page, image: &ImageText) -> Option<Stored> {
    let manifest = read_image(page.alloc(), image.manifest.as_bytes());
    let manifest = page.read(manifest, Unread::Text)?;
    Some(Stored {
        key: StoreKey {
            bytes: [image.byte; 32],
        },
        id: ImageId {
            bytes: [image.byte; 64],
        },
        manifest,
        moment: image.moment,
    })
}

fn add_copy(page: &mut Page, list: &mut Vec<Stored>, image: &Stored) {
    if let Some(copy) = page.made(image.copy()) {
        page.push(list, copy);
    }
}

/// Copies of the images. Refused where a manifest can't be read.
pub fn stored_images(page: &mut Page, images: &[ImageText]) -> Vec<Stored> {
    let mut list = Vec::new(page.alloc());
    for image in images {
        if let Some(image) = stored(page, image) {
            add_copy(page, &mut list, &image);
        }
    }
    list
}

/// The listing that a text is. Refused where it is none.
pub fn listing_of(page: &mut Page, text: &str) -> Option<Listing> {
    page.read(Listing::read(page.alloc(), text.as_bytes()), Unread::Text)
}

fn listed(page: &mut Page, text: &str) -> Option<PathMap> {
    let listing = listing_of(page, text)?;
    page.made(listing.to_map(page.alloc()))
}

/// The map of a listing. Refused where it can't be read.
pub fn map_of_listing(page: &mut Page, text: &str) -> PathMap {
    match listed(page, text) {
        Some(map) => map,
        None => PathMap::new(page.alloc()),
    }
}

fn map_of_entries(page: &mut Page, entries: &str) -> PathMap {
    let mut map = PathMap::new(page.alloc());
    for word in entries.split(',') {
        map = lay_letter(page, map, word);
    }
    map
}

fn map_of(page: &mut Page, image: &ImageText) -> PathMap {
    if image.own.is_empty() {
        return map_of_listing(page, image.tree.as_str());
    }
    map_of_entries(page, image.own.as_str())
}

/// The maps of the images' own entries.
pub fn maps_of(page: &mut Page, images: &[ImageText]) -> Vec<PathMap> {
    let mut maps = Vec::new(page.alloc());
    for image in images {
        let map = map_of(page, image);
        page.push(&mut maps, map);
    }
    maps
}
