// The files in which the listings of apps' roots stand.
ghost use Rattle.std.specs.Prelude.{◌≡◌};
ghost use Rattle.demo_tally.specs.TreeFiles.{is_tree_file, is_root_listing};

use dir_model::{Area, Inner};
use marks::{has_slash, is_in};

/// What stands before an app's name.
const STAGE: &[u8] = b"stage1/rootfs/opt/stage2/";

/// What stands behind it.
const TREE: &[u8] = b"/tree";

fn is_tree_file(path: &[u8]) -> bool
    ensures { result ≡ is_tree_file path.now }
{
    match path.strip_prefix(STAGE) {
        Some(rest) => match rest.strip_suffix(TREE) {
            Some(app) => !has_slash(app),
            None => false,
        },
        None => false,
    }
}

/// Whether it is the listing of an app's root, in the folder of a pod that is being made.
pub(crate) fn is_root_listing(inner: &Inner) -> bool
    ensures { result ≡ is_root_listing inner.now }
{
    is_in(Area::Prepare, inner.spot.area) && is_tree_file(inner.path.as_slice())
}
