//! The type of pod manifests.
ghost use Rattle.std.specs.Prelude.{◌≡◌, IfOk};
ghost use Rattle.manifests.specs.PodData.{pod_data};

use crate::pod_port::PodPorts;
use crate::runtime_app::RuntimeApps;
use crate::volume::Volumes;
use ac_types::{NoMemory, ShownCopy, Text};
use app_section::Isolators;
use manifest_parts::Annotations;

/// Apps that run together, and what they share.
#[derive(Drop)]
pub struct PodManifest {
    /// The version of App Container: a semantic version.
    pub ac_version: Text,
    pub apps: RuntimeApps,
    pub volumes: Volumes,
    pub isolators: Isolators,
    pub annotations: Annotations,
    pub ports: PodPorts,
}

impl PodManifest {
    /// An equal manifest.
    pub fn copy(&self) -> Result<PodManifest, NoMemory>
        ensures { IfOk result (λ copy. pod_data copy ≡ pod_data self.now) }
    {
        Ok(PodManifest {
            ac_version: self.ac_version.copy()?,
            apps: self.apps.copy()?,
            volumes: self.volumes.copy()?,
            isolators: self.isolators.copy()?,
            annotations: self.annotations.copy()?,
            ports: self.ports.copy()?,
        })
    }
}

impl ShownCopy for PodManifest {
    ghost use Rattle.manifests.specs.PodData.{PodData, pod_data};

    ghost Shown = { PodData };

    ghost shown = { pod_data };

    fn copy(&self) -> Result<PodManifest, NoMemory> {
        PodManifest::copy(self)
    }
}
