// What stands directly in a directory of a bundle in memory.
ghost use Rattle.std.specs.Prelude.{◌≡◌, ◌≤◌, ◌≢◌, ◌↔◌, ◌==◌, ◌++◌, ℕ, List, IsTrue, true, length, position, Some, IsSome, IfOk, IfSome, IsErrOf, OnOk, option_map};
ghost use Rattle.std.specs.Option.{option_copied};
ghost use Rattle.std.specs.Ordering.{nat_cmp};
ghost use Rattle.std.specs.Cmp.Lexicographic.{slice_cmp};
ghost use Rattle.std.specs.BTreeMap.{get};
ghost use Rattle.std.specs.List.{position_or_len, before_first};
ghost use Rattle.dir_model.specs.Names.{IsFileName};
ghost use Rattle.dir_trait.specs.Bundles.{kind_at, directory_prefix, child_path, IsBundleListing, Lists};
ghost use Rattle.dir_memory.specs.MemoryBundles.{bundle_tree_of, leads_through, AreKinds, AreFound, kind_with};

use crate::entry::{Entry, kind_at};
use dir_model::{FileName, NoMemory, lies_below};
use dir_trait::{BundleError, BundleItem, BundleItems, BundleKind, listing_of};
use std::alloc::Global;
use std::collections::BTreeMap;
use std::str;

/// The rest of a path that lies below a directory.
fn behind<'a>(path: &'a [u8], directory: &[u8]) -> Option<&'a [u8]>
    ensures { (rest : List ℕ) → path.now ≡ directory_prefix directory.now ++ rest → option_copied result ≡ Some rest }
{
    if directory.is_empty() {
        return Some(path);
    }
    if !lies_below(path, directory) {
        return None;
    }
    Some(&path[directory.len() + 1..])
}

fn first_slash(rest: &[u8]) -> Option<usize>
    ensures { result ≡ position (λ b. b == 47) rest.now }
{
    rest.iter().position(|b| *b == b'/')
}

fn segment_len(rest: &[u8]) -> usize
    ensures len { result ≡ position_or_len (λ b. b == 47) rest.now }
    ensures within { result ≤ length rest.now }
{
    first_slash(rest).unwrap_or(rest.len())
}

fn first_segment(rest: &[u8]) -> &[u8]
    ensures { result.now ≡ before_first (λ b. b == 47) rest.now }
{
    &rest[..segment_len(rest)]
}

fn file_name_of(bytes: &[u8]) -> Option<FileName>
    ensures { IsFileName bytes.now → result ≡ Some bytes.now }
{
    match str::from_utf8(bytes) {
        Ok(text) => FileName::of(text),
        Err(_) => None,
    }
}

/// The name in a directory through which a path leads.
fn name_in(path: &[u8], directory: &[u8]) -> Option<FileName>
    ensures { (name : List ℕ) → IsFileName name → leads_through path.now (child_path directory.now name) ≡ true → result ≡ Some name }
{
    match behind(path, directory) {
        Some(rest) => file_name_of(first_segment(rest)),
        None => None,
    }
}

fn prefix_of(alloc: Global, directory: &[u8]) -> Result<Vec<u8>, NoMemory>
    ensures { IfOk result (λ prefix. prefix.items ≡ directory_prefix directory.now) }
{
    let mut prefix = Vec::from_slice(alloc, directory)?;
    if directory.is_empty() {
        return Ok(prefix);
    }
    prefix.push(b'/')?;
    Ok(prefix)
}

fn child_path(alloc: Global, directory: &[u8], name: &FileName) -> Result<Vec<u8>, NoMemory>
    ensures { IfOk result (λ path. path.items ≡ child_path directory.now name.now) }
{
    let mut path = prefix_of(alloc, directory)?;
    path.extend_from_slice(name.as_str().as_bytes())?;
    Ok(path)
}

/// What stands in a directory where a path leads through it.
fn look_in(
    alloc: Global,
    entries: &[Entry],
    directory: &[u8],
    path: &[u8],
) -> Result<Option<BundleItem>, NoMemory>
    ensures kind { IfOk result (λ found. IfSome found (λ item. kind_at (bundle_tree_of entries.now (child_path directory.now item.name)) ≡ Some item.kind)) }
    ensures found { IfOk result (λ found. (name : List ℕ) → IsFileName name
        → IsSome (bundle_tree_of entries.now (child_path directory.now name)) → leads_through path.now (child_path directory.now name) ≡ true
        → option_map (λ item. item.name) found ≡ Some name) }
{
    let Some(name) = name_in(path, directory) else {
        return Ok(None);
    };
    let child = child_path(alloc, directory, &name)?;
    match kind_at(entries, child.as_slice()) {
        Some(kind) => Ok(Some(BundleItem { name, kind })),
        None => Ok(None),
    }
}

fn add(
    kinds: &mut BTreeMap<FileName, BundleKind>,
    found: Option<BundleItem>,
) -> Result<(), NoMemory>
    ensures { OnOk result ((name : List ℕ) → get (slice_cmp nat_cmp) kinds.new name ≡ kind_with found name (get (slice_cmp nat_cmp) kinds.old name)) }
{
    let Some(item) = found else {
        return Ok(());
    };
    kinds.insert(item.name, item.kind)?;
    Ok(())
}

fn kinds_in(
    alloc: Global,
    entries: &[Entry],
    directory: &[u8],
) -> Result<BTreeMap<FileName, BundleKind>, NoMemory>
    ensures kinds { IfOk result (AreKinds (bundle_tree_of entries.now) directory.now) }
    ensures found { IfOk result (AreFound (bundle_tree_of entries.now) directory.now entries.now) }
{
    let mut kinds = BTreeMap::new(alloc);
    'entries: for entry in entries {
        let found = look_in(alloc, entries, directory, entry.path.as_slice())?;
        add(&mut kinds, found)?;
    }
    Ok(kinds)
}

// What stands directly in a directory. Refused only where memory ran out.
fn list_in(alloc: Global, entries: &[Entry], directory: &[u8]) -> Result<BundleItems, NoMemory>
    requires { kind_at (bundle_tree_of entries.now directory.now) ≡ Some BundleKind.Dir }
    ensures ordered { IfOk result IsBundleListing }
    ensures listed { IfOk result (Lists (bundle_tree_of entries.now) directory.now) }
{
    let kinds = kinds_in(alloc, entries, directory)?;
    listing_of(alloc, &kinds)
}

fn is_directory_at(entries: &[Entry], path: &[u8]) -> bool
    ensures { IsTrue result ↔ (kind_at (bundle_tree_of entries.now path.now) ≡ Some BundleKind.Dir) }
{
    kind_at(entries, path) == Some(BundleKind::Dir)
}

/// The listing of the directory at a path. `Missing` where no directory stands there.
pub fn list_at(alloc: Global, entries: &[Entry], path: &[u8]) -> Result<BundleItems, BundleError>
    ensures never { IsErrOf result BundleError.Failed → ⊥ }
    ensures ordered { IfOk result IsBundleListing }
    ensures listed { IfOk result (Lists (bundle_tree_of entries.now) path.now) }
    ensures missing { IsErrOf result BundleError.Missing → kind_at (bundle_tree_of entries.now path.now) ≢ Some BundleKind.Dir }
{
    if !is_directory_at(entries, path) {
        return Err(BundleError::Missing);
    }
    match list_in(alloc, entries, path) {
        Ok(items) => Ok(items),
        Err(_) => Err(BundleError::NoMemory),
    }
}
