//! Mounts of volumes.
ghost use Rattle.std.specs.Prelude.{◌≡◌, IfOk};

use ac_types::{
    AcName, FromElement, NoMemory, ReadError, Sequence, Text, TryCopy, object_value, required_name,
};
use app_section::required_place;
use serde_json::Value;
use std::alloc::Global;

/// A volume that an app of a pod has at a path.
#[derive(Drop)]
pub struct Mount {
    pub volume: AcName,
    /// An absolute path with no segment that is empty, `.` or `..`.
    pub path: Text,
}

/// A list of mounts. Contracts see its elements.
pub type Mounts = Sequence<Mount>;

impl Mount {
    /// An equal mount.
    pub fn copy(&self) -> Result<Mount, NoMemory>
        ensures { IfOk result (λ copy. copy ≡ self.now) }
    {
        Ok(Mount {
            volume: self.volume.copy()?,
            path: self.path.copy()?,
        })
    }
}

impl TryCopy for Mount {
    fn try_copy(&self) -> Result<Mount, NoMemory> {
        self.copy()
    }
}

impl FromElement for Mount {
    ghost use Rattle.manifests.specs.declared.mount.Mount.{Mount};
    ghost use Rattle.manifests.specs.MountForm.{mount};

    ghost Shown = { Mount };

    ghost shown = { λ m. m };

    ghost form = { mount };

    ghost name_of = { λ m. m.volume };

    #[tactic(auto, unfolding(crate::specs::MountForm::mount))]
    fn read(alloc: Global, value: &Value, at: &str) -> Result<Mount, ReadError> {
        object_value(alloc, value, at)?;
        let volume = required_name(alloc, value, at, "volume")?;
        let path = required_place(alloc, value, at, "path")?;
        Ok(Mount { volume, path })
    }
}
