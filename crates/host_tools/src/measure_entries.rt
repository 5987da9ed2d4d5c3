// Entries that are laid and kept, and listings that are read and written.
use anyhow::Result;
use path_map::{AbsPath, Entry, Listed, Meta, PathMap};
use std::alloc::Global;
use tree_digest::Listing;

/// A file of a directory of 256.
fn file_path(alloc: Global, number: u32) -> Result<AbsPath> {
    let directory = number / 256;
    let text = format!(in alloc; "/d{directory}/f{number}")?;
    Ok(AbsPath::parse(alloc, text.as_str())?)
}

/// A map of files, laid one after the other.
fn laid(alloc: Global, count: u32) -> Result<PathMap> {
    let mut map = PathMap::new(alloc);
    for number in 0..count {
        let meta = Meta {
            mode: 0o644,
            uid: 0,
            gid: 0,
        };
        let file = Entry::File {
            meta,
            size: 0,
            sha: [0; 64],
        };
        map = map.overlay(alloc, file_path(alloc, number)?, file)?;
    }
    Ok(map)
}

/// A whitelist of every sixteenth file.
fn whitelist(alloc: Global, count: u32) -> Result<Vec<Listed>> {
    let mut list = Vec::new(alloc);
    for number in 0..count {
        if number % 16 == 0 {
            let path = file_path(alloc, number)?;
            let listed = Listed { path, empty: false };
            list.push(listed).map_err(ac_types::NoMemory::from)?;
        }
    }
    Ok(list)
}

/// The text of a listing of directories.
fn listing_text(alloc: Global, count: u32) -> Result<String> {
    let mut text = String::new(alloc);
    for number in 0..count {
        let line = format!(in alloc; "d 0755 0 0 /d{number:08x}\n")?;
        text.push_str(line.as_str())?;
    }
    Ok(text)
}

/// The text of a listing of links with targets of 480 bytes.
fn links_text(alloc: Global, count: u32) -> Result<String> {
    let target = "x".repeat(alloc, 480)?;
    let mut text = String::new(alloc);
    for number in 0..count {
        let line = format!(in alloc; "l 0777 0 0 {target} /l{number:08x}\n")?;
        text.push_str(line.as_str())?;
    }
    Ok(text)
}

/// How many directories lie in one another.
const DEPTH: usize = 2040;

/// The text of a listing of that many directories, each in the one before.
fn directories_text(alloc: Global) -> Result<String> {
    let mut text = String::new(alloc);
    for depth in 0..DEPTH {
        let above = "/1".repeat(alloc, depth)?;
        let line = format!(in alloc; "d 0755 0 0 {above}/1\n")?;
        text.push_str(line.as_str())?;
    }
    Ok(text)
}

/// The lines of files in the last of them.
fn files_text(alloc: Global, files: u32) -> Result<String> {
    let digits = "0".repeat(alloc, 128)?;
    let head = format!(in alloc; "f 0644 0 0 0 {digits} {}", "/1".repeat(alloc, DEPTH)?)?;
    let mut text = String::new(alloc);
    for number in 0..files {
        let line = format!(in alloc; "{head}/f{number:08x}\n")?;
        text.push_str(line.as_str())?;
    }
    Ok(text)
}

/// The text of a listing of directories, each in the one before, and of files in the last.
fn deep_text(alloc: Global, files: u32) -> Result<String> {
    let files = files_text(alloc, files)?;
    let mut text = directories_text(alloc)?;
    text.push_str(files.as_str())?;
    Ok(text)
}

/// Makes the map of a listing, and the listing of that map.
fn map(rt: &(impl Print + Alloc<A = Global>), text: &str) -> Result<()> {
    let alloc = rt.alloc();
    let map = Listing::read(alloc, text.as_bytes())?.to_map(alloc)?;
    let entries = map.len();
    let lines = Listing::of_map(alloc, &map)?.as_slice().len();
    println!(rt; "mapped {entries} entries, listed {lines} lines")?;
    Ok(())
}

/// Reads and writes a listing, and takes its digest.
fn read(rt: &(impl Print + Alloc<A = Global>), text: &str) -> Result<()> {
    let alloc = rt.alloc();
    let listing = Listing::read(alloc, text.as_bytes())?;
    let lines = listing.as_slice().len();
    let bytes = listing.write(alloc)?.len();
    let digest = hex::encode(alloc, listing.digest(alloc)?.as_slice())?;
    println!(rt; "read {lines} lines, wrote {bytes} bytes, digest {digest}")?;
    Ok(())
}

/// Lays files, and keeps every sixteenth where that is asked for.
fn lay(rt: &(impl Print + Alloc<A = Global>), count: u32, keeps: bool) -> Result<()> {
    let alloc = rt.alloc();
    let map = laid(alloc, count)?;
    println!(rt; "laid {count} files, {} entries", map.len())?;
    if keeps {
        let list = whitelist(alloc, count)?;
        let kept = map.keep(alloc, list.as_slice())?.len();
        println!(rt; "kept {kept} entries by {} paths", list.len())?;
    }
    Ok(())
}

/// `lay COUNT`, `keep COUNT`: files, and every sixteenth by a whitelist. `read COUNT`, `links COUNT`: a listing of
/// directories, of links. `deep COUNT`: the map of a listing of files below directories in one another.
pub fn measure_entries(
    rt: &(impl Print + Alloc<A = Global>),
    word: &str,
    count: u32,
) -> Result<()> {
    let alloc = rt.alloc();
    match word {
        "read" => read(rt, listing_text(alloc, count)?.as_str()),
        "links" => read(rt, links_text(alloc, count)?.as_str()),
        "deep" => map(rt, deep_text(alloc, count)?.as_str()),
        _ => lay(rt, count, word == "keep"),
    }
}
