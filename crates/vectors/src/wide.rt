// A bundle of many directories, which are made up as they are asked for.
ghost use Rattle.std.specs.Prelude.{◌≤◌, length, IfOk};
ghost use Rattle.dir_trait.specs.Bundles.{IsBundleListing};

use crate::bundles::{Told, print_bundle};
use dir_trait::{Bundle, BundleError, BundleItems, BundleKind, FileName, NoMemory, listing_of};
use scripts::{Page, Unread};
use std::alloc::Global;
use std::collections::BTreeMap;

const LIB: &str =
    "{\"acKind\":\"ImageManifest\",\"acVersion\":\"0.8.0\",\"name\":\"example.com/lib\"}";

const ID_TEXT: &str =
    "sha512-aaaaaaaaaaaaaaaaaaaaaaaaaaaaaaaaaaaaaaaaaaaaaaaaaaaaaaaaaaaaaaaaaaaaaaaaaaaaaaaaaaaaaaaaaaaaaaaaaaaaaaaaaaaaaaaaaaaaaaaaaaaaaaaa\n";

/// A bundle at `b` with so many empty directories in its root.
#[derive(Drop)]
struct WideBundle {
    entries: usize,
}

// Fills the room with the bytes from a place on, and answers how many it filled.
fn fill_from(bytes: &[u8], at: u64, room: &mut [u8]) -> usize
    ensures { result ≤ length room.old }
{
    let at = usize::try_from(at).unwrap_or(usize::MAX).min(bytes.len());
    let rest = &bytes[at..];
    let count = rest.len().min(room.len());
    room[..count].copy_from_slice(&rest[..count]);
    count
}

fn names_of(alloc: Global, count: usize) -> Result<BTreeMap<FileName, BundleKind>, NoMemory> {
    let mut names = BTreeMap::new(alloc);
    'names: for number in 0..count {
        let text = format!(in alloc; "{number:05}")?;
        if let Some(name) = FileName::of(text.as_str()) {
            names.insert(name, BundleKind::Dir)?;
        }
    }
    Ok(names)
}

fn listed(alloc: Global, count: usize) -> Result<BundleItems, NoMemory>
    ensures { IfOk result IsBundleListing }
{
    let names = names_of(alloc, count)?;
    listing_of(alloc, &names)
}

impl Bundle for WideBundle {
    ghost use Rattle.std.specs.Prelude.{false, None, []};

    ghost observed = { false };

    ghost shown = { λ b. record { tree = λ path. None; faults = 0; given = 0; asked = [] } };

    fn faults(&self) -> u64 {
        0
    }

    fn read(
        &mut self,
        _alloc: Global,
        path: &str,
        at: u64,
        room: &mut [u8],
    ) -> Result<usize, BundleError> {
        match path {
            "b/manifest" => Ok(fill_from(LIB.as_bytes(), at, room)),
            "b/id" => Ok(fill_from(ID_TEXT.as_bytes(), at, room)),
            _ => Err(BundleError::Missing),
        }
    }

    fn read_link(
        &mut self,
        _alloc: Global,
        _path: &str,
        _room: &mut [u8],
    ) -> Result<usize, BundleError> {
        Err(BundleError::Missing)
    }

    fn list(&mut self, alloc: Global, path: &str) -> Result<BundleItems, BundleError> {
        let count = if path == "b/rootfs" { self.entries } else { 0 };
        match listed(alloc, count) {
            Ok(items) => Ok(items),
            Err(_) => Err(BundleError::NoMemory),
        }
    }
}

/// `wide-bundle COUNT`: how many lines the listing of a bundle of so many directories has, or why it has none.
pub fn wide_answer(page: &mut Page, words: &[String]) {
    let [count] = words else {
        return page.unread(Unread::Number);
    };
    let Ok(entries) = count.parse::<usize>() else {
        return page.unread(Unread::Number);
    };
    let mut bundle = WideBundle { entries };
    print_bundle(page, &mut bundle, Told::Length);
}
