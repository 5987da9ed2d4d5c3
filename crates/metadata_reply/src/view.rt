// What the service knows of a pod.
ghost use Rattle.std.specs.Prelude.{◌≡◌, false};
ghost use Rattle.serde_json.specs.Written.{has_float};
ghost use Rattle.manifests.specs.PodData.{pod_data};
ghost use Rattle.manifests.specs.PodObject.{pod_object};

use ac_types::{NoMemory, Sequence, TryCopy};
use dir_model::{Bytes, PodId};
use manifests::PodManifest;

/// The bytes of an image's manifest, as they are stored.
#[derive(Drop)]
pub struct ImageBytes {
    pub bytes: Bytes,
}

impl TryCopy for ImageBytes {
    fn try_copy(&self) -> Result<ImageBytes, NoMemory> {
        match self.bytes.copy() {
            Ok(bytes) => Ok(ImageBytes { bytes }),
            Err(_) => Err(NoMemory),
        }
    }
}

/// The images of a pod's apps, in the order of its manifest.
pub type ImagesBytes = Sequence<ImageBytes>;

/// A pod that runs: its uuid, its manifest, whose numbers are whole, as those of every manifest that was read,
/// and the manifest of each app's image.
#[derive(Drop)]
pub struct PodView {
    pub pod: PodId,
    pub manifest: PodManifest,
    pub images: ImagesBytes,
    ghost whole_numbers: { has_float (pod_object (pod_data manifest)) ≡ false },
}
