//! Ports of a pod.
ghost use Rattle.std.specs.Prelude.{◌≡◌, IfOk};

use ac_types::{
    AcName, FromElement, NoMemory, ReadError, Sequence, TryCopy, object_value, required_name,
    required_port,
};
use serde_json::Value;
use std::alloc::Global;

/// A port of the host that leads to a port of an app.
#[derive(Drop)]
pub struct PodPort {
    pub name: AcName,
    pub host_port: u16,
}

/// A list of a pod's ports. Contracts see its elements.
pub type PodPorts = Sequence<PodPort>;

impl PodPort {
    /// An equal port.
    pub fn copy(&self) -> Result<PodPort, NoMemory>
        ensures { IfOk result (λ copy. copy ≡ self.now) }
    {
        Ok(PodPort {
            name: self.name.copy()?,
            host_port: self.host_port,
        })
    }
}

impl TryCopy for PodPort {
    fn try_copy(&self) -> Result<PodPort, NoMemory> {
        self.copy()
    }
}

impl FromElement for PodPort {
    ghost use Rattle.manifests.specs.declared.pod_port.PodPort.{PodPort};
    ghost use Rattle.manifests.specs.PodPortForm.{pod_port};

    ghost Shown = { PodPort };

    ghost shown = { λ p. p };

    ghost form = { pod_port };

    ghost name_of = { λ p. p.name };

    #[tactic(auto, unfolding(crate::specs::PodPortForm::pod_port))]
    fn read(alloc: Global, value: &Value, at: &str) -> Result<PodPort, ReadError> {
        object_value(alloc, value, at)?;
        let name = required_name(alloc, value, at, "name")?;
        let host_port = required_port(alloc, value, at, "hostPort")?;
        Ok(PodPort { name, host_port })
    }
}
