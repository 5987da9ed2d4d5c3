// Paths inside folders.
ghost use Rattle.std.specs.Prelude.{◌≡◌, ◌<◌, ◌≤◌, ◌+◌, [], false, cond, drop, IsTrue, IfSome, IfNone, length, Some, None};
ghost use Rattle.dir_model.specs.Paths.{lies_below, is_file_name, part, are_names, is_path};

use crate::file_name::FileName;
use std::str;

/// Whether a path lies below a directory.
#[tactic(auto, unfolding(crate::specs::Paths::lies_below))]
pub fn lies_below(path: &[u8], directory: &[u8]) -> bool
    ensures below { result ≡ lies_below path.now directory.now }
    ensures longer { IsTrue result → length directory.now < length path.now }
{
    if directory.is_empty() {
        return !path.is_empty();
    }
    path.starts_with(directory) && path.len() > directory.len() && path[directory.len()] == b'/'
}

/// The bytes as a file name, where they are one.
pub fn file_name_of(bytes: &[u8]) -> Option<FileName>
    ensures { result ≡ cond (is_file_name bytes.now) (Some bytes.now) None }
{
    match str::from_utf8(bytes) {
        Ok(text) => FileName::of(text),
        Err(_) => None,
    }
}

// Where the name begins of which the byte after this one is part. None where a slash ends what is no
// file name.
fn start_after(path: &[u8], start: usize, i: usize) -> Option<usize>
    requires within { i < length path.now }
    requires start { start ≤ i }
    ensures some { IfSome result (λ s. s ≤ i + 1) }
    ensures goes { IfSome result (λ s. are_names (part s (i + 1) path.now) (drop (i + 1) path.now) ≡ are_names (part start i path.now) (drop i path.now)) }
    ensures none { IfNone result (are_names (part start i path.now) (drop i path.now) ≡ false) }
{
    if path[i] != b'/' {
        return Some(start);
    }
    let _name = file_name_of(&path[start..i])?;
    Some(i + 1)
}

fn last_start(path: &[u8]) -> Option<usize>
    ensures some { IfSome result (λ s. s ≤ length path.now) }
    ensures goes { IfSome result (λ s. are_names (drop s path.now) [] ≡ are_names [] path.now) }
    ensures none { IfNone result (are_names [] path.now ≡ false) }
{
    let mut start = 0;
    'bytes: for i in 0..path.len() {
        start = start_after(path, start, i)?;
    }
    Some(start)
}

/// Whether a path is empty, or file names parted by `/`.
pub fn is_path(path: &[u8]) -> bool
    ensures { result ≡ is_path path.now }
{
    if path.is_empty() {
        return true;
    }
    match last_start(path) {
        Some(start) => file_name_of(&path[start..]).is_some(),
        None => false,
    }
}
