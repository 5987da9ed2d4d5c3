// The test of a plan, entry by entry.
ghost use Rattle.std.specs.Prelude.{◌≡◌, ◌&&◌, not, bytes_eq};
ghost use Rattle.std.specs.List.{list_any};
ghost use Rattle.dir_rules.specs.Rules.{has_path_among, has_dir_among, is_in_directory, is_new_path};
ghost use Rattle.folder_building.specs.Plans.{is_in_plan, is_file, planned_entries, has_origin, may_follow_entries, is_plan};

use dir_model::is_path;
use folder_building::{Content, PlanEntry};
use marks::{is_empty, parent};

fn is_file(content: &Content) -> bool
    ensures { result ≡ is_file content.now }
{
    match content {
        Content::Directory => false,
        Content::Given(_) | Content::Copied { .. } => true,
    }
}

fn is_at(path: &[u8], entry: &PlanEntry) -> bool
    ensures { result ≡ bytes_eq entry.now.path path.now }
{
    entry.path.as_str().as_bytes() == path
}

fn is_dir_at(path: &[u8], entry: &PlanEntry) -> bool
    ensures { result ≡ (not (is_file entry.now.content) && bytes_eq entry.now.path path.now) }
{
    !is_file(&entry.content) && is_at(path, entry)
}

fn is_among(path: &[u8], before: &[PlanEntry]) -> bool
    ensures { result ≡ is_in_plan path.now before.now }
{
    before.iter().any(|entry| is_at(path, entry))
}

fn is_among_dirs(path: &[u8], before: &[PlanEntry]) -> bool
    ensures { result ≡ list_any (λ e. not (is_file e.content) && bytes_eq e.path path.now) before.now }
{
    before.iter().any(|entry| is_dir_at(path, entry))
}

#[tactic(auto, using(crate::proofs::Outlines::path_in))]
fn has_path(path: &[u8], before: &[PlanEntry]) -> bool
    ensures { result ≡ has_path_among path.now (planned_entries before.now) }
{
    is_among(path, before)
}

#[tactic(auto, using(crate::proofs::Outlines::dir_in))]
fn has_dir(path: &[u8], before: &[PlanEntry]) -> bool
    ensures { result ≡ has_dir_among path.now (planned_entries before.now) }
{
    is_among_dirs(path, before)
}

fn is_in_directory(path: &[u8], before: &[PlanEntry]) -> bool
    ensures { result ≡ is_in_directory path.now (planned_entries before.now) }
{
    let directory = parent(path);
    is_empty(directory) || has_dir(directory, before)
}

fn is_new_path(path: &[u8], before: &[PlanEntry]) -> bool
    ensures { result ≡ is_new_path path.now (planned_entries before.now) }
{
    path.len() <= 8192
        && (!is_empty(path) && (!has_path(path, before) && is_in_directory(path, before)))
}

fn has_origin(content: &Content) -> bool
    ensures { result ≡ has_origin content.now }
{
    match content {
        Content::Copied { origin, .. } => is_path(origin.path.as_str().as_bytes()),
        Content::Directory | Content::Given(_) => true,
    }
}

fn follows(before: &[PlanEntry], entry: &PlanEntry) -> bool
    ensures { result ≡ may_follow_entries before.now entry.now }
{
    let path = entry.path.as_str().as_bytes();
    is_path(path) && (is_new_path(path, before) && has_origin(&entry.content))
}

/// Whether the entries are a plan: each path is one, new and not too long, in the folder itself or in a
/// directory that an earlier entry makes, and each path that is copied from is one.
pub fn is_plan(entries: &[PlanEntry]) -> bool
    ensures { result ≡ is_plan entries.now }
{
    let mut so = true;
    'entries: for place in 0..entries.len() {
        let next = follows(&entries[..place], &entries[place]);
        so = so && next;
    }
    so
}
