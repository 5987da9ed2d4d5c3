// The files of which the view of a pod is made.
ghost use Rattle.std.specs.Prelude.{◌≡◌, true, map, option_map, IfOk, IfSome, IsErrOf};
ghost use Rattle.dir_model.specs.Causes.{Rose};
ghost use Rattle.dir_model.specs.Local.{IsActive};
ghost use Rattle.manifests.specs.ManifestRules.{IsPodManifest};
ghost use Rattle.manifests.specs.PodData.{pod_data};
ghost use Rattle.metadata_reply.specs.Views.{IsWholeView, view_data};
ghost use Rattle.pod_files.specs.Looks.{OnlyReadsPod};
ghost use Rattle.metadata.specs.Images.{TellsManifestImages};
ghost use Rattle.metadata.specs.PodViews.{TellsFiles};

use crate::error::MetaError;
use crate::image::read_images;
use ac_types::Sequence;
use dir_trait::{Dir, PodId};
use manifests::PodManifest;
use metadata_reply::PodView;
use pod_files::{FileError, read_manifest};
use std::alloc::Global;

// The view of a pod with this manifest; none where the image of one of its apps has no reading.
fn view_with<D: Dir>(
    alloc: Global,
    dir: &mut D,
    pod: PodId,
    manifest: PodManifest,
) -> Result<Option<PodView>, MetaError>
    requires active { IsActive (D.shown dir.old).local }
    requires kind { IsPodManifest (pod_data manifest) }
    ensures only { OnlyReadsPod D.observed pod (D.shown dir.old) (D.shown dir.new) }
    ensures cause { IsErrOf result MetaError.DirFault → Rose (D.shown dir.old).faults (D.shown dir.new).faults }
    ensures link { IsErrOf result MetaError.LinkFault → ⊥ }
    ensures whole { IfOk result (λ found. IfSome found (λ v. IsWholeView (view_data v))) }
    ensures tells { IfOk result (λ found. D.observed ≡ true
        → TellsManifestImages pod (pod_data manifest) (option_map view_data found) (D.shown dir.old) (D.shown dir.new)) }
{
    match read_images(alloc, dir, pod, manifest.apps.as_slice()) {
        Ok(Some(images)) => Ok(Some(PodView::of(pod, manifest, Sequence::from_vec(images)))),
        Ok(None) => Ok(None),
        Err(error) => Err(error),
    }
}

/// The view of the pod in run; none where its manifest or that of the image of one of its apps is missing
/// or has no reading. `DirFault` where the directory failed, `NoMemory` where memory ran out.
pub(crate) fn read_view<D: Dir>(
    alloc: Global,
    dir: &mut D,
    pod: PodId,
) -> Result<Option<PodView>, MetaError>
    requires active { IsActive (D.shown dir.old).local }
    ensures only { OnlyReadsPod D.observed pod (D.shown dir.old) (D.shown dir.new) }
    ensures cause { IsErrOf result MetaError.DirFault → Rose (D.shown dir.old).faults (D.shown dir.new).faults }
    ensures link { IsErrOf result MetaError.LinkFault → ⊥ }
    ensures whole { IfOk result (λ found. IfSome found (λ v. IsWholeView (view_data v))) }
    ensures tells { IfOk result (λ found. D.observed ≡ true → TellsFiles pod (option_map view_data found) (D.shown dir.old) (D.shown dir.new)) }
{
    match read_manifest(alloc, dir, pod) {
        Ok(manifest) => view_with(alloc, dir, pod, manifest),
        Err(FileError::Lacking) => Ok(None),
        Err(FileError::DirFault) => Err(MetaError::DirFault),
        Err(FileError::NoMemory) => Err(MetaError::NoMemory),
    }
}
