// What the folder of an image holds.
ghost use Rattle.std.specs.Prelude.{◌≡◌, ◌++◌, ◌∷◌, [], true, codes, IfOk};
ghost use Rattle.folder_building.specs.Plans.{is_plan};
ghost use Rattle.folder_building.specs.TreePlans.{plan_entry_at};
ghost use Rattle.folder_building.specs.ImagePlans.{id_file, given_file, mark_file, image_entries, MakesImage};

use crate::{Content, PlanEntry, tree_plan};
use ac_types::{ImageId, NoMemory, Text};
use dir_trait::Bytes;
use marks::mark_text;
use std::alloc::Global;
use tree_digest::Listing;

// A file with these bytes.
fn given_file(alloc: Global, name: &str, bytes: Vec<u8>) -> Result<PlanEntry, NoMemory>
    ensures { IfOk result (λ entry. entry ≡ given_file name.now bytes.items) }
{
    let path = Text::of(alloc, name)?;
    let content = Content::Given(Bytes::from_vec(bytes));
    Ok(PlanEntry { path, content })
}

// The bytes of the file `id`: the ID's text and a line feed.
fn id_file(alloc: Global, id: ImageId) -> Result<Vec<u8>, NoMemory>
    ensures { IfOk result (λ bytes. bytes.items ≡ id_file id.bytes) }
{
    let text = id.text(alloc)?;
    let mut bytes = Vec::from_slice(alloc, text.as_str().as_bytes())?;
    bytes.push(b'\n')?;
    Ok(bytes)
}

// The mark of the import, an empty file.
fn mark_file(alloc: Global, now: u64) -> Result<PlanEntry, NoMemory>
    ensures { IfOk result (λ entry. entry ≡ mark_file now) }
{
    let path = mark_text(alloc, "imported-", now)?;
    let content = Content::Given(Bytes::from_vec(Vec::new(alloc)));
    Ok(PlanEntry { path, content })
}

// The directory of the image's tree.
fn root(alloc: Global) -> Result<PlanEntry, NoMemory>
    ensures { IfOk result (λ entry. entry ≡ plan_entry_at (codes "rootfs") Content.Directory) }
{
    let path = Text::of(alloc, "rootfs")?;
    let content = Content::Directory;
    Ok(PlanEntry { path, content })
}

/// What is made in the folder of an image: the files `manifest` with these bytes, `id` with the ID's text
/// and a line feed, `tree` with the listing's text, and `imported-N`, empty, N being the moment in 20
/// digits; then the directory `rootfs`, and below it the directories and files of the listing, each
/// file copied from its path below the source's `rootfs`.
pub fn image_plan(
    alloc: Global,
    manifest: &[u8],
    id: ImageId,
    listing: &Listing,
    now: u64,
) -> Result<Vec<PlanEntry>, NoMemory>
    ensures entries { IfOk result (λ plan. plan.items ≡ image_entries manifest.now id.bytes listing.now now) }
    ensures plan { IfOk result (λ plan. is_plan plan.items ≡ true) }
    ensures image { IfOk result (λ plan. MakesImage manifest.now id.bytes listing.now now plan.items) }
{
    let _lines = listing.as_slice();
    let mut plan = Vec::new(alloc);
    plan.push(given_file(alloc, "manifest", Vec::from_slice(alloc, manifest)?)?)?;
    plan.push(given_file(alloc, "id", id_file(alloc, id)?)?)?;
    plan.push(given_file(alloc, "tree", listing.write(alloc)?)?)?;
    plan.push(mark_file(alloc, now)?)?;
    plan.push(root(alloc)?)?;
    tree_plan(alloc, listing, "rootfs", &None, "rootfs", plan)
}
