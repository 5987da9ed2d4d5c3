//! Volumes of a pod.
ghost use Rattle.std.specs.Prelude.{◌≡◌, IfOk};
ghost use Rattle.serde_json.specs.View.{view};
ghost use Rattle.ac_types.specs.Outcomes.{Gives};
ghost use Rattle.manifests.specs.VolumeForm.{volume_fields};

use crate::volume_kinds::read_kind;
use ac_types::{
    AcName, FaultKind, NoMemory, ReadError, SeenTexts, Sequence, Text, TryCopy, fault_at,
    filled_text, object_value, required_name,
};
use manifest_parts::DistinctElement;
use serde_json::Value;
use std::alloc::Global;

/// Where a volume's files are.
#[derive(Drop)]
pub enum VolumeKind {
    /// A folder of the host.
    Host {
        /// An absolute path with no segment that is empty, `.` or `..`.
        source: Text,
        read_only: bool,
    },
    /// A folder that is made for the pod, empty.
    Empty {
        /// One to four octal digits.
        mode: Text,
        uid: u32,
        gid: u32,
    },
}

impl VolumeKind {
    /// An equal kind.
    pub fn copy(&self) -> Result<VolumeKind, NoMemory>
        ensures { IfOk result (λ copy. copy ≡ self.now) }
    {
        match self {
            VolumeKind::Host { source, read_only } => {
                Ok(VolumeKind::Host {
                    source: source.copy()?,
                    read_only: *read_only,
                })
            }
            VolumeKind::Empty { mode, uid, gid } => {
                Ok(VolumeKind::Empty {
                    mode: mode.copy()?,
                    uid: *uid,
                    gid: *gid,
                })
            }
        }
    }
}

/// Files that apps of a pod share.
#[derive(Drop)]
pub struct Volume {
    pub name: AcName,
    pub kind: VolumeKind,
}

/// A list of volumes. Contracts see its elements.
pub type Volumes = Sequence<Volume>;

impl Volume {
    /// An equal volume.
    pub fn copy(&self) -> Result<Volume, NoMemory>
        ensures { IfOk result (λ copy. copy ≡ self.now) }
    {
        Ok(Volume {
            name: self.name.copy()?,
            kind: self.kind.copy()?,
        })
    }
}

impl TryCopy for Volume {
    fn try_copy(&self) -> Result<Volume, NoMemory> {
        self.copy()
    }
}

impl DistinctElement for Volume {
    ghost use Rattle.manifests.specs.declared.volume.Volume.{Volume};
    ghost use Rattle.manifests.specs.VolumeForm.{volume};

    ghost Shown = { Volume };

    ghost shown = { λ v. v };

    ghost form = { volume };

    ghost name_of = { λ v. v.name };

    #[tactic(auto, unfolding(crate::specs::VolumeForm::volume))]
    fn read(
        alloc: Global,
        value: &Value,
        at: &str,
        seen: &mut SeenTexts,
    ) -> Result<Volume, ReadError> {
        let volume = read_fields(alloc, value, at)?;
        if seen.add(alloc, volume.name.as_str())? {
            Ok(volume)
        } else {
            Err(fault_at(alloc, at, FaultKind::BadVolume))
        }
    }
}

#[tactic(auto, unfolding(crate::specs::VolumeForm::volume_fields))]
fn read_fields(alloc: Global, value: &Value, at: &str) -> Result<Volume, ReadError>
    ensures { Gives (volume_fields at.now (view value.now)) result }
{
    object_value(alloc, value, at)?;
    let name = required_name(alloc, value, at, "name")?;
    let kind = filled_text(alloc, value, at, "kind")?;
    let kind = read_kind(alloc, value, at, kind)?;
    Ok(Volume { name, kind })
}
