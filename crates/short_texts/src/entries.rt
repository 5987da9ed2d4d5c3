// Paths, and entries of maps as letters.
use ac_types::Text;
use path_map::{AbsPath, Entry, Meta, PathMap};
use scripts::{Page, Unread};

/// A given entry has mode 0700, so that directories that are made show.
const GIVEN: Meta = Meta {
    mode: 0o700,
    uid: 1,
    gid: 2,
};

/// The path that a text is. Refused where it is none.
pub fn path_of(page: &mut Page, text: &str) -> Option<AbsPath> {
    page.read(AbsPath::parse(page.alloc(), text), Unread::Text)
}

fn file(size: u64, byte: u8) -> Entry {
    Entry::File {
        meta: GIVEN,
        size,
        sha: [byte; 64],
    }
}

/// A link with that target.
pub fn link_of(page: &mut Page, meta: Meta, target: &str) -> Entry {
    Entry::Link {
        meta,
        target: Text::from_string(page.text(target)),
    }
}

// The entry that a letter stands for: `d` a directory, `f` an empty file, `F` another, `l` a link. Refused for
// any other.
fn entry_of(page: &mut Page, letter: &str) -> Entry {
    match letter {
        "d" => return Entry::Dir(GIVEN),
        "f" => return file(0, 0),
        "F" => return file(1, 1),
        "l" => (),
        _ => page.unread(Unread::Word),
    }
    link_of(page, GIVEN, "x")
}

/// The map with one entry more at a path.
pub fn lay(page: &mut Page, map: PathMap, path: &str, entry: Entry) -> PathMap {
    let Some(path) = path_of(page, path) else {
        return map;
    };
    match map.overlay(page.alloc(), path, entry) {
        Ok(map) => map,
        Err(_) => {
            page.no_memory();
            PathMap::new(page.alloc())
        }
    }
}

/// The map with the entry of a letter more, at the path behind it.
pub fn lay_letter(page: &mut Page, map: PathMap, word: &str) -> PathMap {
    let (letter, path) = word.split_at_checked(1).unwrap_or(("", ""));
    let entry = entry_of(page, letter);
    lay(page, map, path, entry)
}

/// The letter of an entry; `m` for a made directory.
pub fn letter_of(entry: &Entry) -> &'static str {
    match entry {
        Entry::Dir(meta) => {
            if meta.mode == 0o755 && meta.uid == 0 && meta.gid == 0 {
                "m"
            } else {
                "d"
            }
        }
        Entry::File { size, sha, .. } => { if *size == 1 && sha[0] == 1 { "F" } else { "f" } }
        Entry::Link { .. } => "l",
    }
}
