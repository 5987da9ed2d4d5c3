// What is put into the bundle.
use crate::changing::ChangingBundle;
use crate::plan::Faults;
use dir_memory::MemoryBundle;
use dir_trait::NoMemory;
use scripts::{Line, Page, ShortNames, Unread, unfolded};
use std::alloc::Global;

/// What kind of thing is put there.
#[derive(Clone, Copy, Drop)]
enum Thing {
    File,
    Link,
    Dir,
    Other,
}

/// Something that stands in the bundle: a file with its text, a link with its target, a directory, or a thing
/// that no image carries.
#[derive(Drop)]
pub struct Put {
    thing: Thing,
    path: String,
    text: String,
    // Whether the file ends early where a length is given.
    short: bool,
}

// The bytes of a file, up to that length where it is one that ends early.
fn bytes_of(put: &Put, short: Option<usize>) -> &[u8] {
    let bytes = put.text.as_str().as_bytes();
    match short {
        Some(length) if put.short => bytes.get(..length).unwrap_or(bytes),
        _ => bytes,
    }
}

fn placed(
    alloc: Global,
    bundle: MemoryBundle,
    put: &Put,
    short: Option<usize>,
) -> Result<MemoryBundle, NoMemory> {
    let (path, text) = (put.path.as_str(), put.text.as_str());
    match put.thing {
        Thing::File => bundle.file(alloc, path, bytes_of(put, short)),
        Thing::Link => bundle.link(alloc, path, text),
        Thing::Dir => bundle.dir(alloc, path),
        Thing::Other => bundle.other(alloc, path),
    }
}

fn with_puts(
    alloc: Global,
    bundle: MemoryBundle,
    puts: &[Put],
    short: Option<usize>,
) -> Result<MemoryBundle, NoMemory> {
    let mut bundle = bundle;
    for put in puts {
        bundle = placed(alloc, bundle, put, short)?;
    }
    Ok(bundle)
}

fn with_fault(alloc: Global, bundle: MemoryBundle, read: u64) -> Result<MemoryBundle, NoMemory> {
    if read == 0 {
        return Ok(bundle);
    }
    bundle.fail(alloc, read)
}

/// The bundle, of which a call fails or whose files change or end early, as it is planned. Refused only where
/// memory ran out.
pub fn bundle_of(alloc: Global, puts: &[Put], faults: &Faults) -> Result<ChangingBundle, NoMemory> {
    let bundle = with_puts(alloc, MemoryBundle::new(alloc), puts, faults.short)?;
    Ok(ChangingBundle {
        bundle: with_fault(alloc, bundle, faults.bundle)?,
        reads: 0,
        changes: faults.change,
    })
}

fn add(
    page: &mut Page,
    names: &ShortNames,
    puts: &mut Vec<Put>,
    thing: Thing,
    line: &mut Line,
) -> bool {
    let path = page.text(line.word());
    let text = unfolded(page, names.long(line.rest()));
    page.push(
        puts,
        Put {
            thing,
            path,
            text,
            short: false,
        },
    );
    true
}

// The last file of that path ends early where a length is given. Refused where there is none.
fn shorten(page: &mut Page, puts: &mut Vec<Put>, path: &str) -> bool {
    for put in puts.iter_mut().rev() {
        if put.path.as_str() == path {
            put.short = true;
            return true;
        }
    }
    page.unread(Unread::Name);
    true
}

/// Takes in a line that puts something into the bundle of the next commands: `file PATH TEXT`,
/// `link PATH TARGET`, `dir PATH`, `other PATH`; `short PATH` says which file ends early where a length is given,
/// and `bundle` empties it. Answers whether it is one.
pub fn put_in(page: &mut Page, names: &ShortNames, puts: &mut Vec<Put>, line: &mut Line) -> bool {
    match line.word() {
        "file" => add(page, names, puts, Thing::File, line),
        "link" => add(page, names, puts, Thing::Link, line),
        "dir" => add(page, names, puts, Thing::Dir, line),
        "other" => add(page, names, puts, Thing::Other, line),
        "short" => shorten(page, puts, line.word()),
        "bundle" => {
            puts.clear();
            true
        }
        _ => false,
    }
}
