// Files of the images in the data folder.
ghost use Rattle.std.specs.Prelude.{◌≡◌, false};
ghost use Rattle.dir_model.specs.Replies.{is_fault};

use crate::plan::Origin;
use crate::source::{Source, SourceError};
use dir_trait::{Area, Dir, DirError, Spot};
use std::alloc::Global;

/// The files of the store's images. An origin names the image's folder. Whoever reads them holds the
/// lock of images.
#[derive(Drop)]
pub struct StoreSource;

fn store_error(error: DirError) -> SourceError
    ensures fault { result ≡ SourceError.DirFault → error ≡ DirError.Failed }
    ensures never { result ≡ SourceError.Failed → ⊥ }
    ensures missing { result ≡ SourceError.Missing → is_fault error ≡ false }
{
    match error {
        DirError::Failed => SourceError::DirFault,
        DirError::NoMemory => SourceError::NoMemory,
        _ => SourceError::Missing,
    }
}

impl Source for StoreSource {
    ghost use Rattle.folder_building.specs.Sources.{SourceAt};
    ghost use Rattle.std.specs.Prelude.{false, None};
    ghost use Rattle.folder_building.specs.Sources.{reads_image_files, may_read_images, in_images};

    ghost stored = { in_images };

    ghost shown = { λ s. record { faults = 0; asks = reads_image_files; may = may_read_images; told = false; file = λ o. None; reference = None } };

    fn read<D: Dir>(
        &mut self,
        alloc: Global,
        dir: &mut D,
        origin: &Origin,
        at: u64,
        room: &mut [u8],
    ) -> Result<usize, SourceError> {
        let Some(name) = origin.folder else {
            return Err(SourceError::Missing);
        };
        let spot = Spot {
            area: Area::Images,
            name,
        };
        match dir.read_in(alloc, spot, origin.path.as_str(), at, room) {
            Ok(count) => Ok(count),
            Err(error) => Err(store_error(error)),
        }
    }
}
