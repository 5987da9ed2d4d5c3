// Maps of entries: laid one over the other, kept by whitelists, looked up.
use crate::paths::listed_of;
use path_map::{AbsPath, Entry, Listed, Meta, PathMap};
use scripts::{Page, Unread, number_of};
use short_texts::{lay, lay_letter, letter_of, link_of, path_of};

// Owners 0:0.
fn owned(page: &mut Page, mode: &str) -> Meta {
    let mode = page.read(u16::from_str_radix(mode, 8), Unread::Number);
    Meta {
        mode: mode.unwrap_or(0),
        uid: 0,
        gid: 0,
    }
}

/// The bytes of a SHA-512 in hexadecimal digits.
pub fn sum_of(page: &mut Page, digits: &str) -> [u8; 64] {
    let mut bytes = [0; 64];
    if hex::decode_to_slice(digits, &mut bytes).is_err() {
        page.unread(Unread::Text);
    }
    bytes
}

// `SIZE:SHA512`
fn file_of(page: &mut Page, meta: Meta, text: &str) -> Entry {
    let (size, digits) = text.split_once(':').unwrap_or(("", ""));
    let size = number_of(page, size);
    let sha = sum_of(page, digits);
    Entry::File { meta, size, sha }
}

// `d:MODE`, `f:MODE:SIZE:SHA512` or `l:MODE:TARGET`.
fn long_entry(page: &mut Page, word: &str) -> Entry {
    let (kind, rest) = word.split_once(':').unwrap_or(("", ""));
    let (mode, rest) = rest.split_once(':').unwrap_or((rest, ""));
    let meta = owned(page, mode);
    match kind {
        "f" => return file_of(page, meta, rest),
        "l" => return link_of(page, meta, rest),
        "d" => (),
        _ => page.unread(Unread::Text),
    }
    Entry::Dir(meta)
}

// The map with what a word says more: a letter and the path, or an entry, a colon and the path.
fn lay_word(page: &mut Page, map: PathMap, word: &str) -> PathMap {
    match word.rsplit_once(':') {
        Some((entry, path)) => {
            let entry = long_entry(page, entry);
            lay(page, map, path, entry)
        }
        None => lay_letter(page, map, word),
    }
}

/// The entries of the words laid in turn over the empty map.
pub fn laid(page: &mut Page, words: &[String]) -> PathMap {
    let mut map = PathMap::new(page.alloc());
    for word in words {
        map = lay_word(page, map, word.as_str());
    }
    map
}

fn print_map(page: &mut Page, map: &PathMap) {
    let mut is_first = true;
    for (path, entry) in map.iter() {
        page.put(if is_first { "" } else { " " });
        page.put(letter_of(entry));
        page.put(path.as_str());
        is_first = false;
    }
}

/// `lay ENTRY ..`: a copy of the map of the entries, laid in turn one over the other.
pub fn lay_answer(page: &mut Page, words: &[String]) {
    let map = laid(page, words);
    if let Some(copy) = page.made(map.copy()) {
        print_map(page, &copy);
    }
}

/// `count ENTRY ..`: how many entries that map has.
pub fn count_answer(page: &mut Page, words: &[String]) {
    let map = laid(page, words);
    page.tell(&map.len());
}

fn add_listed(page: &mut Page, list: &mut Vec<Listed>, path: &str) {
    if let Some(listed) = listed_of(page, path) {
        page.push(list, listed);
    }
}

// The whitelist of a word: paths between commas, or `none`.
fn whitelist(page: &mut Page, word: &str) -> Vec<Listed> {
    let mut list = Vec::new(page.alloc());
    if word == "none" {
        return list;
    }
    for path in word.split(',') {
        add_listed(page, &mut list, path);
    }
    list
}

/// `keep WHITELIST ENTRY ..`: what the whitelist keeps of the map of the entries.
pub fn keep_answer(page: &mut Page, words: &[String]) {
    let Some((list, words)) = words.split_first() else {
        return page.unread(Unread::Missing);
    };
    let list = whitelist(page, list.as_str());
    let map = laid(page, words);
    match map.keep(page.alloc(), list.as_slice()) {
        Ok(map) => print_map(page, &map),
        Err(_) => page.no_memory(),
    }
}

fn print_entry(page: &mut Page, entry: &Entry) {
    if let Some(copy) = page.made(entry.copy()) {
        page.put(letter_of(&copy));
    }
    page.put(if entry.is_directory() {
        ", a directory"
    } else {
        ", no directory"
    });
}

fn print_place(page: &mut Page, map: &PathMap, path: &AbsPath) {
    match map.get(path) {
        Some(entry) => print_entry(page, entry),
        None => page.put("nothing"),
    }
}

/// `look PATH ENTRY ..`: what stands at a path of the map of the entries.
pub fn look_answer(page: &mut Page, words: &[String]) {
    let Some((path, words)) = words.split_first() else {
        return page.unread(Unread::Text);
    };
    if let Some(path) = path_of(page, path.as_str()) {
        let map = laid(page, words);
        print_place(page, &map, &path);
    }
}
