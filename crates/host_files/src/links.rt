// Behind the path that the user named, no symbolic link is followed. That path itself is read as the
// system reads it, links and all.
ghost use Rattle.std.specs.Prelude.{◌≡◌, ◌↔◌, length, IsOk, IfErr, IfOk};
ghost use Rattle.std.specs.Fs.{file_type, IsDir};
ghost use Rattle.dir_trait.specs.Bundles.{IsBundleListing};
ghost use Rattle.host_files.specs.Named.{way_start};

use crate::files::{Shows, list_folder, refusal};
use dir_model::lies_below;
use dir_trait::{BundleError, BundleItems};
use std::alloc::Global;
use std::fs;
use std::fs::Metadata;
use std::rt::Files;

fn check_directory(metadata: &Metadata) -> Result<(), BundleError>
    ensures directory { IsOk result ↔ IsDir (file_type metadata.now) }
    ensures missing { IfErr result (λ e. e ≡ BundleError.Missing) }
{
    if metadata.is_dir() {
        Ok(())
    } else {
        Err(BundleError::Missing)
    }
}

/// From which byte on each name of the way to a path is looked at: behind what was named of it.
fn way_start(path: &str, named: &str) -> usize
    ensures { result ≡ way_start path.now named.now }
{
    if path == named {
        path.len()
    } else if lies_below(path.as_bytes(), named.as_bytes()) {
        named.len() + 1
    } else {
        1
    }
}

/// `Missing` where a name on the way to a path, behind the path that was named, isn't a directory's own.
pub(crate) fn check_way<R: Files>(rt: &R, path: &str, named: &str) -> Result<(), BundleError> {
    let bytes = path.as_bytes();
    'way: for end in way_start(path, named)..bytes.len() {
        if bytes[end] == b'/' {
            let (above, _) = path.split_at(end);
            let found = fs::symlink_metadata(rt, above).map_err(refusal)?;
            check_directory(&found)?;
        }
    }
    Ok(())
}

/// What stands at a path.
pub(crate) fn look<R: Files>(rt: &R, path: &str, named: &str) -> Result<Metadata, BundleError> {
    if path == named {
        return fs::metadata(rt, path).map_err(refusal);
    }
    check_way(rt, path, named)?;
    fs::symlink_metadata(rt, path).map_err(refusal)
}

/// The entries of a directory of a bundle, in byte order of their names. `Missing` where no directory stands
/// there, or the path leads through a link behind the path that was named. Fails where a name can't be told,
/// as one that isn't UTF-8: an image would be without it, and nothing would say so.
pub fn list_bundle<R: Files + AllocGlobal + Clone + Drop>(
    rt: &R,
    alloc: Global,
    path: &str,
    named: &str,
) -> Result<BundleItems, BundleError>
    ensures { IfOk result IsBundleListing }
{
    let found = look(rt, path, named)?;
    check_directory(&found)?;
    list_folder(rt, alloc, path, Shows::Each)
}
