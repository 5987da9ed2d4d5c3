// Files of a bundle.
ghost use Rattle.std.specs.Prelude.{◌≡◌, IfErr, IfOk, string_bytes};
ghost use Rattle.dir_trait.specs.Bundles.{child_path};

use crate::plan::Origin;
use crate::source::{Source, SourceError};
use ac_types::Text;
use dir_trait::{Bundle, BundleError, Dir};
use std::alloc::{AllocError, Global};

/// The files of the bundle at a path. An origin's path is taken from there on; its folder is passed
/// over.
#[derive(Drop)]
pub struct BundleSource<'a, B> {
    pub bundle: &'a mut B,
    pub root: &'a str,
}

fn bundle_error(error: BundleError) -> SourceError
    ensures failed { result ≡ SourceError.Failed → error ≡ BundleError.Failed }
    ensures missing { result ≡ SourceError.Missing → error ≡ BundleError.Missing }
    ensures never { result ≡ SourceError.DirFault → ⊥ }
{
    match error {
        BundleError::Missing => SourceError::Missing,
        BundleError::Failed => SourceError::Failed,
        BundleError::NoMemory => SourceError::NoMemory,
    }
}

fn out_of_memory(_error: AllocError) -> SourceError
    ensures { result ≡ SourceError.NoMemory }
{
    SourceError::NoMemory
}

// The path of a file of the bundle at a path.
fn joined(alloc: Global, root: &str, path: &str) -> Result<String, SourceError>
    ensures err { IfErr result (λ e. e ≡ SourceError.NoMemory) }
    ensures path { IfOk result (λ text. string_bytes text ≡ child_path root.now path.now) }
{
    let mut text = String::from_str(alloc, root).map_err(out_of_memory)?;
    if !root.is_empty() {
        text.push_str("/").map_err(out_of_memory)?;
    }
    text.push_str(path).map_err(out_of_memory)?;
    Ok(text)
}

impl<'a, B: Bundle> Source for BundleSource<'a, B> {
    ghost use Rattle.std.specs.Prelude.{false, true, Some, None};
    ghost use Rattle.dir_trait.specs.Bundles.{child_path, bytes_of_node};
    ghost use Rattle.folder_building.specs.Sources.{SourceAt};

    ghost stored = { λ o. None };

    ghost shown = { λ s. record {
      faults = (B.shown s.bundle.now).faults;
      asks = λ r. false;
      may = λ st. true;
      told = B.observed;
      file = λ o. bytes_of_node ((B.shown s.bundle.now).tree (child_path s.root.now o.path));
      reference = Some s.bundle.ghost_name;
    } };

    fn read<D: Dir>(
        &mut self,
        alloc: Global,
        _dir: &mut D,
        origin: &Origin,
        at: u64,
        room: &mut [u8],
    ) -> Result<usize, SourceError> {
        let path = joined(alloc, self.root, origin.path.as_str())?;
        match self.bundle.read(alloc, path.as_str(), at, room) {
            Ok(count) => Ok(count),
            Err(error) => Err(bundle_error(error)),
        }
    }
}
