//! Mount points.
ghost use Rattle.std.specs.Prelude.{◌≡◌, IfOk};

use crate::places::required_place;
use ac_types::{
    AcName, FromElement, NamedElement, NoMemory, ReadError, Sequence, Text, TryCopy, flag_field,
    object_value, required_name,
};
use serde_json::Value;
use std::alloc::Global;

/// A place of an app at which a volume can be mounted.
#[derive(Drop)]
pub struct MountPoint {
    pub name: AcName,
    /// An absolute path with no segment that is empty, `.` or `..`.
    pub path: Text,
    pub read_only: bool,
}

/// A list of mount points. Contracts see its elements.
pub type MountPoints = Sequence<MountPoint>;

impl MountPoint {
    /// An equal mount point.
    pub fn copy(&self) -> Result<MountPoint, NoMemory>
        ensures { IfOk result (λ copy. copy ≡ self.now) }
    {
        Ok(MountPoint {
            name: self.name.copy()?,
            path: self.path.copy()?,
            read_only: self.read_only,
        })
    }
}

impl TryCopy for MountPoint {
    fn try_copy(&self) -> Result<MountPoint, NoMemory> {
        self.copy()
    }
}

impl FromElement for MountPoint {
    ghost use Rattle.app_section.specs.declared.mount_point.MountPoint.{MountPoint};
    ghost use Rattle.app_section.specs.MountForm.{mount_point};

    ghost Shown = { MountPoint };

    ghost shown = { λ m. m };

    ghost form = { mount_point };

    ghost name_of = { λ m. m.name };

    #[tactic(auto, unfolding(crate::specs::MountForm::mount_point))]
    fn read(alloc: Global, value: &Value, at: &str) -> Result<MountPoint, ReadError> {
        object_value(alloc, value, at)?;
        let name = required_name(alloc, value, at, "name")?;
        let path = required_place(alloc, value, at, "path")?;
        let read_only = flag_field(alloc, value, at, "readOnly")?;
        Ok(MountPoint {
            name,
            path,
            read_only,
        })
    }
}

impl NamedElement for MountPoint {
    fn name(&self) -> &str {
        self.name.as_str()
    }
}
