// Paths inside folders.
ghost use Rattle.std.specs.Prelude.{◌≡◌, ◌<◌, cond, slice_index, length, IfOk};
ghost use Rattle.dir_model.specs.Paths.{is_slash};
ghost use Rattle.dir_rules.specs.Marks.{has_slash, parent, path_in};

use crate::list::is_empty;
use dir_model::{Bytes, NoMemory};
use std::alloc::Global;

/// Whether a slash is among the bytes.
pub fn has_slash(path: &[u8]) -> bool
    ensures { result ≡ has_slash path.now }
{
    path.iter().any(|b| *b == b'/')
}

// The place of the last slash so far.
fn last_slash(path: &[u8], last: usize, i: usize) -> usize
    requires { i < length path.now }
    ensures { result ≡ cond (is_slash (slice_index path.now i)) i last }
{
    if path[i] == b'/' { i } else { last }
}

/// What stands before the last slash. The empty path is the folder itself.
pub fn parent(path: &[u8]) -> &[u8]
    ensures { result.now ≡ parent path.now }
{
    let mut last = 0;
    'bytes: for i in 0..path.len() {
        last = last_slash(path, last, i);
    }
    &path[..last]
}

/// The path of a name in a directory. Refused only where memory ran out.
pub fn path_in(alloc: Global, directory: &[u8], name: &[u8]) -> Result<Bytes, NoMemory>
    ensures { IfOk result (λ path. path ≡ path_in directory.now name.now) }
{
    if is_empty(directory) {
        return Bytes::of(alloc, name);
    }
    let mut path = Vec::from_slice(alloc, directory)?;
    path.push(b'/')?;
    path.extend_from_slice(name)?;
    Ok(Bytes::from_vec(path))
}
