//! What the user asks for beside the images of a pod.

ghost use Rattle.std.specs.Prelude.{◌≡◌, IfOk};

use ac_types::{NoMemory, TryCopy};
use manifests::{Mount, Mounts, Volume, Volumes};
use std::marker::Model;

/// What the user asks for beside the images of a pod: volumes and mounts that may stand in a pod
/// manifest, with no two volumes of one name.
#[derive(Drop)]
pub struct Options {
    /// The volumes with which those of the pod begin.
    pub volumes: Volumes,
    /// The mounts with which those of each app begin.
    pub mounts: Mounts,
}

impl Model for Options {
    ghost use Rattle.pod_manifest.specs.Wishes.{Wishes, AreWishes};

    ghost Value = { Wishes };

    ghost view = { λ o. record { volumes = o.volumes; mounts = o.mounts } };

    ghost invariant = { λ o. AreWishes (record { volumes = o.volumes; mounts = o.mounts }) };
}

impl Options {
    ghost use Rattle.pod_manifest.specs.Wishes.{AreWishes};

    /// The volumes that are asked for.
    pub fn volumes(&self) -> &[Volume]
        ensures volumes { result.now ≡ self.now.volumes }
        ensures kind { AreWishes self.now }
    {
        self.volumes.as_slice()
    }

    /// The mounts that are asked for.
    pub fn mounts(&self) -> &[Mount]
        ensures mounts { result.now ≡ self.now.mounts }
        ensures kind { AreWishes self.now }
    {
        self.mounts.as_slice()
    }

    /// Equal options.
    pub fn copy(&self) -> Result<Options, NoMemory>
        ensures { IfOk result (λ copy. copy ≡ self.now) }
    {
        Ok(Options {
            volumes: self.volumes.copy()?,
            mounts: self.mounts.copy()?,
        })
    }
}

impl TryCopy for Options {
    fn try_copy(&self) -> Result<Options, NoMemory> {
        self.copy()
    }
}
