// The tree of an app's root.
ghost use Rattle.std.specs.Prelude.{◌≡◌, ◌++◌, true, IfOk, codes, option_map, option_to_list};
ghost use Rattle.std.specs.Option.{option_copied};
ghost use Rattle.std.specs.Vec.Iter.{into_iter_items};
ghost use Rattle.dir_model.specs.Trees.{app_root};
ghost use Rattle.path_map.specs.After.{is_after};
ghost use Rattle.render.specs.Layers.{source_at};
ghost use Rattle.folder_building.specs.TreePlans.{CarriesOn, MakesTree};
ghost use Rattle.pod_plan.specs.PodPlans.{image_of, root_entries};
ghost use Rattle.pod_plan.specs.RootSteps.{from_image, for_file, path_before, taken, left};

use crate::pod_app::PodApp;
use ac_types::NoMemory;
use dir_trait::Name;
use folder_building::{Content, Origin, PlanEntry, tree_plan};
use path_map::{AbsPath, Entry};
use render::Rendering;
use std::alloc::Global;
use std::cmp::Ordering;
use std::vec::IntoIter;
use tree_digest::ListingLine;

// The place of the image whose file stands at a path. The files are gone through from behind another path on.
fn copy_at(rendering: &Rendering, behind: Option<&AbsPath>, path: &AbsPath) -> Option<usize>
    requires { is_after (option_copied behind) path.now ≡ true }
    ensures { result ≡ source_at rendering.now path.now }
{
    let mut behind = behind;
    'copies: while let Some((at, place)) = rendering.next_copy(behind) {
        match at.cmp(path) {
            Ordering::Less => behind = Some(at),
            Ordering::Equal => return Some(place),
            Ordering::Greater => return None,
        }
    }
    None
}

// The folder of the image that a line's file is from.
fn image_of(
    app: &PodApp,
    images: &[Name],
    behind: Option<&AbsPath>,
    line: &ListingLine,
) -> Option<Name>
    requires { is_after (option_copied behind) line.now.path ≡ true }
    ensures { result ≡ for_file line.now.entry (image_of images.now app.now line.now.path) }
{
    match &line.entry {
        Entry::File { .. } => match copy_at(&app.rendering, behind, &line.path) {
            Some(place) => images.get(place).copied(),
            None => None,
        },
        _ => None,
    }
}

// The path of the line before the one at a place.
fn path_before(lines: &[ListingLine], place: usize) -> Option<&AbsPath>
    ensures { option_copied result ≡ path_before lines.now place }
{
    match place.checked_sub(1) {
        Some(last) => match lines.get(last) {
            Some(line) => Some(&line.path),
            None => None,
        },
        None => None,
    }
}

// An entry whose file, if it is one that is copied, is of this image.
fn from_image(entry: PlanEntry, image: Option<Name>) -> PlanEntry
    ensures { result ≡ from_image image entry }
{
    let PlanEntry { path, content } = entry;
    let content = match content {
        Content::Copied { origin, size, sha } => {
            let origin = Origin {
                folder: image,
                path: origin.path,
            };
            Content::Copied { origin, size, sha }
        }
        other => other,
    };
    PlanEntry { path, content }
}

// The next of the entries that were made for lines, if one was made for this line: a link has none.
fn take_next(made: &mut IntoIter<PlanEntry>, line: &ListingLine) -> Option<PlanEntry>
    ensures taken { result ≡ taken line.now.entry (into_iter_items made.old) }
    ensures left { into_iter_items made.new ≡ left line.now.entry (into_iter_items made.old) }
{
    match line.entry {
        Entry::Link { .. } => None,
        _ => made.next(),
    }
}

// The plan, and after it the entry, if there is one, with the image that its file is of.
fn add(
    plan: &mut Vec<PlanEntry>,
    entry: Option<PlanEntry>,
    image: Option<Name>,
) -> Result<(), NoMemory>
    ensures { IfOk result (λ done. plan.new.items ≡ plan.old.items ++ option_to_list (option_map (from_image image) entry)) }
{
    if let Some(entry) = entry {
        plan.push(from_image(entry, image))?;
    }
    Ok(())
}

/// The plan, and after it the directories and files of an app's root, whose path is given: each file is
/// copied from its path below the `rootfs` of the image that it is from.
pub(crate) fn root_plan(
    alloc: Global,
    app: &PodApp,
    images: &[Name],
    root: &str,
    plan: Vec<PlanEntry>,
) -> Result<Vec<PlanEntry>, NoMemory>
    requires root { root.now ≡ app_root app.now.name }
    ensures entries { IfOk result (λ new. new.items ≡ plan.items ++ root_entries images.now app.now app.now.listing) }
    ensures plan { IfOk result (λ new. CarriesOn root.now (codes "rootfs") (root_entries images.now app.now app.now.listing)) }
    ensures tree { IfOk result (λ new. MakesTree root.now app.now.listing (root_entries images.now app.now app.now.listing)) }
{
    let mut plan = plan;
    let tree = tree_plan(alloc, &app.listing, root, &None, "rootfs", Vec::new(alloc))?;
    let mut made = tree.into_iter();
    let lines = app.listing.as_slice();
    let mut place = 0;
    'lines: for line in lines {
        let entry = take_next(&mut made, line);
        let image = image_of(app, images, path_before(lines, place), line);
        add(&mut plan, entry, image)?;
        place += 1;
    }
    Ok(plan)
}
