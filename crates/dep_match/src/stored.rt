//! The images of a store.

ghost use Rattle.std.specs.Prelude.{◌≡◌, IfOk};
ghost use Rattle.dep_match.specs.Copies.{stored_data};

use ac_types::{ImageId, NoMemory, ShownCopy, StoreKey};
use manifests::ImageManifest;

/// An image of a store.
#[derive(Drop)]
pub struct Stored {
    /// The name under which it is stored.
    pub key: StoreKey,
    pub id: ImageId,
    pub manifest: ImageManifest,
    /// When it was imported: the greater, the later.
    pub moment: u64,
}

impl Stored {
    /// An equal image.
    pub fn copy(&self) -> Result<Stored, NoMemory>
        ensures { IfOk result (λ copy. stored_data copy ≡ stored_data self.now) }
    {
        Ok(Stored {
            key: self.key,
            id: self.id,
            manifest: self.manifest.copy()?,
            moment: self.moment,
        })
    }
}

impl ShownCopy for Stored {
    ghost use Rattle.dep_match.specs.Copies.{StoredData, stored_data};

    ghost Shown = { StoredData };

    ghost shown = { stored_data };

    fn copy(&self) -> Result<Stored, NoMemory> {
        Stored::copy(self)
    }
}
