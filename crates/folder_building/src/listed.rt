// The part of a plan that makes the tree of a listing.
ghost use Rattle.std.specs.Prelude.{◌≡◌, ◌++◌, IfOk, option_to_list};
ghost use Rattle.folder_building.specs.Materialized.{prefixed_path};
ghost use Rattle.folder_building.specs.TreePlans.{tree_entry, tree_entries, content_of, MakesTree, CarriesOn};

use crate::{Content, Origin, PlanEntry};
use ac_types::{NoMemory, Text};
use dir_trait::Name;
use path_map::Entry;
use std::alloc::Global;
use tree_digest::{Listing, ListingLine};

// The path in a folder of what a listing has at an absolute path.
fn below(alloc: Global, prefix: &str, path: &str) -> Result<Text, NoMemory>
    ensures { IfOk result (λ text. text ≡ prefixed_path prefix.now path.now) }
{
    let mut text = String::from_str(alloc, prefix)?;
    text.push_str(path)?;
    Ok(Text::from_string(text))
}

// What is made for a line.
fn content_of(
    alloc: Global,
    folder: &Option<Name>,
    from: &str,
    line: &ListingLine,
) -> Result<Option<Content>, NoMemory>
    ensures { IfOk result (λ content. content ≡ content_of folder.now (prefixed_path from.now line.now.path) line.now.entry) }
{
    match &line.entry {
        Entry::Dir(_) => Ok(Some(Content::Directory)),
        Entry::File { size, sha, .. } => {
            let path = below(alloc, from, line.path.as_str())?;
            let folder = *folder;
            let origin = Origin { folder, path };
            let (size, sha) = (*size, *sha);
            Ok(Some(Content::Copied { origin, size, sha }))
        }
        Entry::Link { .. } => Ok(None),
    }
}

// The entry of the plan that is made for a line.
fn entry_of(
    alloc: Global,
    prefix: &str,
    folder: &Option<Name>,
    from: &str,
    line: &ListingLine,
) -> Result<Option<PlanEntry>, NoMemory>
    ensures { IfOk result (λ entry. entry ≡ tree_entry prefix.now folder.now from.now line.now) }
{
    let path = below(alloc, prefix, line.path.as_str())?;
    match content_of(alloc, folder, from, line)? {
        Some(content) => Ok(Some(PlanEntry { path, content })),
        None => Ok(None),
    }
}

// The plan, and after it what is made for a line, if anything is.
fn add(plan: &mut Vec<PlanEntry>, entry: Option<PlanEntry>) -> Result<(), NoMemory>
    ensures { IfOk result (λ done. plan.new.items ≡ plan.old.items ++ option_to_list entry) }
{
    if let Some(entry) = entry {
        plan.push(entry)?;
    }
    Ok(())
}

/// The plan, and after it the directories and files of a listing, each below the prefix, in the listing's
/// order. A file is copied from its path below `from`, in the given folder of the store or elsewhere, and
/// has the size and SHA-512 of its line. Links aren't made: they stand in the listing alone.
pub fn tree_plan(
    alloc: Global,
    listing: &Listing,
    prefix: &str,
    folder: &Option<Name>,
    from: &str,
    plan: Vec<PlanEntry>,
) -> Result<Vec<PlanEntry>, NoMemory>
    ensures entries { IfOk result (λ new. new.items ≡ plan.items ++ tree_entries prefix.now folder.now from.now listing.now) }
    ensures plan { IfOk result (λ new. CarriesOn prefix.now from.now (tree_entries prefix.now folder.now from.now listing.now)) }
    ensures tree { IfOk result (λ new. MakesTree prefix.now listing.now (tree_entries prefix.now folder.now from.now listing.now)) }
{
    let mut plan = plan;
    let lines = listing.as_slice();
    'lines: for line in lines {
        let entry = entry_of(alloc, prefix, folder, from, line)?;
        add(&mut plan, entry)?;
    }
    Ok(plan)
}
