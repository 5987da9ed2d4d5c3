// Views of pods: how they are made of what was read, and tested.
ghost use Rattle.std.specs.Prelude.{◌≡◌, map, All, IfOk, IsTrue, Ok, false};
ghost use Rattle.manifests.specs.ManifestRules.{IsPodManifest};
ghost use Rattle.manifests.specs.PodData.{pod_data};
ghost use Rattle.metadata_reply.specs.Views.{image_bytes, view_data, HasReading, IsWholeView};

use crate::view::{ImageBytes, ImagesBytes, PodView};
use ac_types::{NoMemory, ReadError};
use dir_model::PodId;
use manifests::{PodManifest, read_image};
use std::alloc::Global;

/// Whether the bytes are an image manifest. `NoMemory` where memory ran out.
fn has_reading(alloc: Global, bytes: &[u8]) -> Result<bool, NoMemory>
    ensures read { IfOk result (λ read. IsTrue read → HasReading bytes.now) }
    ensures unread { result ≡ Ok false → HasReading bytes.now → ⊥ }
{
    match read_image(alloc, bytes) {
        Ok(_) => Ok(true),
        Err(ReadError::NoMemory) => Err(NoMemory),
        Err(ReadError::Bad(_)) => Ok(false),
    }
}

/// Whether each of these is one. `NoMemory` where memory ran out.
fn all_have_readings(alloc: Global, images: &[ImageBytes]) -> Result<bool, NoMemory>
    ensures read { IfOk result (λ read. IsTrue read → All HasReading (map image_bytes images.now)) }
    ensures unread { result ≡ Ok false → All HasReading (map image_bytes images.now) → ⊥ }
{
    'images: for image in images {
        if !has_reading(alloc, image.bytes.as_slice())? {
            return Ok(false);
        }
    }
    Ok(true)
}

impl PodView {
    /// The view of a pod whose manifest was read.
    pub fn of(pod: PodId, manifest: PodManifest, images: ImagesBytes) -> PodView
        requires { IsPodManifest (pod_data manifest) }
        ensures { view_data result ≡ record { uuid = pod.bytes; manifest = pod_data manifest; images = map image_bytes images } }
    {
        PodView {
            pod,
            manifest,
            images,
        }
    }

    /// Whether there is an image for each app, each with a manifest that may be read. `NoMemory` where
    /// memory ran out.
    pub fn is_whole(&self, alloc: Global) -> Result<bool, NoMemory>
        ensures whole { IfOk result (λ whole. IsTrue whole → IsWholeView (view_data self.now)) }
        ensures lacking { result ≡ Ok false → IsWholeView (view_data self.now) → ⊥ }
    {
        let images = self.images.as_slice();
        if images.len() != self.manifest.apps.as_slice().len() {
            return Ok(false);
        }
        all_have_readings(alloc, images)
    }

    /// An equal view. `NoMemory` where memory ran out.
    pub fn copy(&self) -> Result<PodView, NoMemory>
        ensures { IfOk result (λ copy. view_data copy ≡ view_data self.now) }
    {
        let images = self.images.copy()?;
        match self.manifest.copy() {
            Ok(manifest) => Ok(PodView {
                pod: self.pod,
                manifest,
                images,
            }),
            Err(_) => Err(NoMemory),
        }
    }
}
