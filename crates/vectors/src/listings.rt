// Listings: read, refused, written, made of maps; digests and checks of files.
use crate::maps::{laid, sum_of};
use ac_types::{ImageId, lower_hex};
use path_map::{Entry, Meta, PathMap};
use scripts::{Page, Unread, number_of};
use short_texts::path_of;
use tree_digest::{FileCheck, Listing, ListingError, ListingLine, are_listable};

// Why a text is no listing, and the number of that.
fn print_error(page: &mut Page, error: ListingError) {
    page.tell_both(&error.number().unwrap_or(0), &error);
}

// The listing that bytes are. None where they are none, which is printed.
fn listing_of(page: &mut Page, bytes: &[u8]) -> Option<Listing> {
    match Listing::read(page.alloc(), bytes) {
        Ok(listing) => Some(listing),
        Err(error) => {
            print_error(page, error);
            None
        }
    }
}

/// `listing TEXT`: whether it is taken, or its first fault.
pub fn listing_answer(page: &mut Page, bytes: &[u8]) {
    if listing_of(page, bytes).is_some() {
        page.put("taken");
    }
}

/// Prints a listing.
pub fn print_written(page: &mut Page, listing: &Listing) {
    if let Some(bytes) = page.made(listing.write(page.alloc())) {
        page.put_bytes(bytes.as_slice());
    }
}

fn print_copy(page: &mut Page, listing: &Listing) {
    if let Some(copy) = page.made(listing.copy()) {
        print_written(page, &copy);
    }
}

/// `listing-again TEXT`: what is written of a copy of the listing that was read.
pub fn written_listing_answer(page: &mut Page, bytes: &[u8]) {
    if let Some(listing) = listing_of(page, bytes) {
        print_copy(page, &listing);
    }
}

// The listing of a map.
fn print_listed(page: &mut Page, map: &PathMap) {
    if !are_listable(map) {
        return page.put("an entry that can't be listed");
    }
    match Listing::of_map(page.alloc(), map) {
        Ok(listing) => print_written(page, &listing),
        Err(error) => print_error(page, error),
    }
}

fn print_map(page: &mut Page, listing: &Listing) {
    if let Some(map) = page.made(listing.to_map(page.alloc())) {
        print_listed(page, &map);
    }
}

/// `listing-of-its-map TEXT`: what is written of the map of the listing that was read.
pub fn map_of_listing_answer(page: &mut Page, bytes: &[u8]) {
    if let Some(listing) = listing_of(page, bytes) {
        print_map(page, &listing);
    }
}

/// `map-listing ENTRY ..`: the listing of the map of the entries.
pub fn map_listing_answer(page: &mut Page, words: &[String]) {
    let map = laid(page, words);
    print_listed(page, &map);
}

/// Prints the digits of a digest.
pub fn print_digest(page: &mut Page, digest: &[u8; 64]) {
    page.put_bytes(&lower_hex(digest));
}

/// `digest LISTING`: the digest of a listing.
pub fn digest_answer(page: &mut Page, bytes: &[u8]) {
    if let Some(listing) = listing_of(page, bytes) {
        match listing.digest(page.alloc()) {
            Ok(digest) => print_digest(page, &digest),
            Err(_) => page.no_memory(),
        }
    }
}

fn print_image_digest(page: &mut Page, id: ImageId, manifest: &str, listing: &Listing) {
    match listing.image_digest(page.alloc(), id, manifest.as_bytes()) {
        Ok(digest) => print_digest(page, &digest),
        Err(_) => page.no_memory(),
    }
}

/// `image-digest ID MANIFEST LISTING`: the digest of an image.
pub fn image_digest_answer(page: &mut Page, words: &[String]) {
    let [id, manifest, listing] = words else {
        return page.unread(Unread::Missing);
    };
    let Ok(id) = ImageId::parse(id.as_str()) else {
        return page.unread(Unread::Text);
    };
    if let Some(listing) = listing_of(page, listing.as_bytes()) {
        print_image_digest(page, id, manifest.as_str(), &listing);
    }
}

fn print_path(page: &mut Page, line: &ListingLine) {
    if let Some(copy) = page.made(line.copy()) {
        page.put(copy.path.as_str());
    }
}

/// `line PLACE LISTING`: the path of the line at a place, counted from 0.
pub fn line_answer(page: &mut Page, words: &[String]) {
    let [place, listing] = words else {
        return page.unread(Unread::Missing);
    };
    let Ok(place) = place.parse::<usize>() else {
        return page.unread(Unread::Number);
    };
    if let Some(listing) = listing_of(page, listing.as_bytes()) {
        match listing.as_slice().get(place) {
            Some(line) => print_path(page, line),
            None => page.put("none"),
        }
    }
}

/// A directory with mode 0755 and owners 0:0.
const DIRECTORY: Meta = Meta {
    mode: 0o755,
    uid: 0,
    gid: 0,
};

/// `line-length PATH`: how many bytes the line of a directory takes.
pub fn line_length_answer(page: &mut Page, text: &str) {
    let Some(path) = path_of(page, text) else {
        return;
    };
    let entry = Entry::Dir(DIRECTORY);
    let line = ListingLine { path, entry };
    match line.text_len(page.alloc()) {
        Ok(length) => page.tell(&length),
        Err(_) => page.no_memory(),
    }
}

/// `file-check SIZE SHA512 PIECE ..`: whether the pieces are the file of that size and digest.
pub fn file_check_answer(page: &mut Page, words: &[String]) {
    let [size, digits, pieces @ ..] = words else {
        return page.unread(Unread::Missing);
    };
    let size = number_of(page, size.as_str());
    let sum = sum_of(page, digits.as_str());
    let mut check = FileCheck::new(size, sum);
    for piece in pieces {
        check.piece(piece.as_bytes());
    }
    page.tell(&check.matches());
}
