// The manifest of a pod in run, as a start needs it.
ghost use Rattle.std.specs.Prelude.{◌≡◌, true, IfOk, IfErr, IsErrOf};
ghost use Rattle.dir_model.specs.Causes.{Rose};
ghost use Rattle.dir_model.specs.Local.{IsActive};
ghost use Rattle.manifests.specs.PodData.{pod_data};
ghost use Rattle.manifests.specs.ManifestRules.{IsPodManifest};
ghost use Rattle.pod_files.specs.Looks.{OnlyReadsPod};
ghost use Rattle.pod_files.specs.Files.{ReadsPodManifest, ReadsNoPodManifest};
ghost use Rattle.stage1.specs.LoadRefusals.{IsManifestLack};

use crate::load_error::LoadError;
use dir_trait::{Dir, PodId};
use manifests::PodManifest;
use pod_files::FileError;
use std::alloc::Global;

/// The manifest of the pod. `NoManifest` where there is no file `pod` in its folder, or it is no pod
/// manifest; `DirFault` where the directory failed, `NoMemory` where memory ran out.
pub(crate) fn read_manifest<D: Dir>(
    alloc: Global,
    dir: &mut D,
    pod: PodId,
) -> Result<PodManifest, LoadError>
    requires active { IsActive (D.shown dir.old).local }
    ensures cause { IsErrOf result LoadError.DirFault → Rose (D.shown dir.old).faults (D.shown dir.new).faults }
    ensures only { OnlyReadsPod D.observed pod (D.shown dir.old) (D.shown dir.new) }
    ensures kind { IfOk result (λ manifest. IsPodManifest (pod_data manifest)) }
    ensures read { IfOk result (λ manifest. D.observed ≡ true → ReadsPodManifest pod (pod_data manifest) (D.shown dir.old) (D.shown dir.new)) }
    ensures lacks { IfErr result (IsManifestLack (D.observed ≡ true → ReadsNoPodManifest pod (D.shown dir.old) (D.shown dir.new))) }
{
    match pod_files::read_manifest(alloc, dir, pod) {
        Ok(manifest) => Ok(manifest),
        Err(FileError::Lacking) => Err(LoadError::NoManifest),
        Err(FileError::DirFault) => Err(LoadError::DirFault),
        Err(FileError::NoMemory) => Err(LoadError::NoMemory),
    }
}
