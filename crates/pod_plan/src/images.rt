// The images of the store, each with the bytes of its manifest.
ghost use Rattle.std.specs.Prelude.{◌≡◌, [], true, IfOk, IfErr, IsErrOf};
ghost use Rattle.dir_model.specs.Causes.{Rose};
ghost use Rattle.dir_model.specs.Local.{IsActive};
ghost use Rattle.image_reading.specs.Looks.{OnlyReadsImages, HoldsImages, KnowsStillNamed};
ghost use Rattle.image_reading.specs.Trees.{ReadsNoTrees};
ghost use Rattle.pod_plan.specs.Readings.{with_manifest, AddsReadImage, ReadsNextManifest, AreReadAgain, ReadsImages};
ghost use Rattle.pod_plan.specs.PlanRefusals.{IsStoreLack, LacksManifestAt, LacksAmong, ReadsLackingPart};

use crate::plan_error::out_of_memory;
use ac_types::NoMemory;
use dep_match::Stored;
use dir_trait::{Bytes, Dir, Handle};
use image_reading::{KeptManifest, StoreError, read_manifest, stored};
use std::alloc::Global;

/// The images of the store, and at each one's place the bytes of its manifest.
#[derive(Drop)]
pub(crate) struct StoreImages {
    pub images: Vec<Stored>,
    pub manifests: Vec<Bytes>,
}

impl StoreImages {
    fn new(alloc: Global) -> StoreImages
        ensures images { result.images.items ≡ [] }
        ensures manifests { result.manifests.items ≡ [] }
    {
        StoreImages {
            images: Vec::new(alloc),
            manifests: Vec::new(alloc),
        }
    }

    /// Adds an image that was listed, with its manifest as it was read once more.
    fn add(&mut self, listed: &Stored, kept: KeptManifest) -> Result<(), NoMemory>
        ensures { IfOk result (λ done. AddsReadImage (with_manifest listed.now kept.manifest) kept.bytes.items self.old self.new) }
    {
        self.images.push(Stored {
            key: listed.key,
            id: listed.id,
            manifest: kept.manifest,
            moment: listed.moment,
        })?;
        self.manifests.push(Bytes::from_vec(kept.bytes))?;
        Ok(())
    }
}

/// Reads the manifest of an image that was listed. It is read once more, so that the bytes that are kept
/// are those of the manifest that is chosen by.
fn read_next<D: Dir>(
    alloc: Global,
    dir: &mut D,
    listed: &Stored,
    read: &mut StoreImages,
) -> Result<(), StoreError>
    requires active { IsActive (D.shown dir.old).local }
    ensures cause { IsErrOf result StoreError.DirFault → Rose (D.shown dir.old).faults (D.shown dir.new).faults }
    ensures only { OnlyReadsImages D.observed (D.shown dir.old) (D.shown dir.new) }
    ensures trees { ReadsNoTrees D.observed (D.shown dir.old) (D.shown dir.new) }
    ensures read { IfOk result (λ done. ReadsNextManifest D.observed listed.now read.old read.new (D.shown dir.old) (D.shown dir.new)) }
    ensures lacks { IfErr result (IsStoreLack D.observed (λ path. LacksManifestAt listed.now.key path (D.shown dir.old) (D.shown dir.new))) }
{
    match read_manifest(alloc, dir, listed.key) {
        Ok(kept) => read.add(listed, kept).map_err(out_of_memory),
        Err(error) => Err(error),
    }
}

/// Reads the manifest of each image that was listed.
fn read_each<D: Dir>(
    alloc: Global,
    dir: &mut D,
    listed: &[Stored],
) -> Result<StoreImages, StoreError>
    requires active { IsActive (D.shown dir.old).local }
    ensures cause { IsErrOf result StoreError.DirFault → Rose (D.shown dir.old).faults (D.shown dir.new).faults }
    ensures only { OnlyReadsImages D.observed (D.shown dir.old) (D.shown dir.new) }
    ensures trees { ReadsNoTrees D.observed (D.shown dir.old) (D.shown dir.new) }
    ensures read { IfOk result (λ read. AreReadAgain D.observed listed.now read (D.shown dir.old) (D.shown dir.new)) }
    ensures lacks { IfErr result (IsStoreLack D.observed (λ path. LacksAmong listed.now path (D.shown dir.old) (D.shown dir.new))) }
{
    let mut read = StoreImages::new(alloc);
    'images: for image in listed {
        read_next(alloc, dir, image, &mut read)?;
    }
    Ok(read)
}

/// The images of the store, in the byte order of their keys. The handle holds the lock of the area.
/// `Damaged` at the first image of which a part is missing or has no reading, or else at the first whose
/// manifest is when it is read once more; `DirFault` where the directory failed, `NoMemory` where memory
/// ran out. No listing is read.
pub(crate) fn read_images<D: Dir>(
    alloc: Global,
    dir: &mut D,
    gate: Handle,
) -> Result<StoreImages, StoreError>
    requires active { IsActive (D.shown dir.old).local }
    requires held { HoldsImages (D.shown dir.old).local gate }
    ensures cause { IsErrOf result StoreError.DirFault → Rose (D.shown dir.old).faults (D.shown dir.new).faults }
    ensures only { OnlyReadsImages D.observed (D.shown dir.old) (D.shown dir.new) }
    ensures trees { ReadsNoTrees D.observed (D.shown dir.old) (D.shown dir.new) }
    ensures known { D.observed ≡ true → KnowsStillNamed (D.shown dir.old) (D.shown dir.new) }
    ensures read { IfOk result (λ read. ReadsImages D.observed read (D.shown dir.old) (D.shown dir.new)) }
    ensures lacks { IfErr result (IsStoreLack D.observed (λ path. ReadsLackingPart path (D.shown dir.old) (D.shown dir.new))) }
{
    match stored(alloc, dir, gate) {
        Ok(listed) => read_each(alloc, dir, listed.as_slice()),
        Err(error) => Err(error),
    }
}
