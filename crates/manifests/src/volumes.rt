//! Volumes as they are written.
ghost use Rattle.std.specs.Prelude.{◌≡◌, IfOk};
ghost use Rattle.serde_json.specs.Data.{object};
ghost use Rattle.serde_json.specs.View.{view};
ghost use Rattle.app_section.specs.Objects.{written};
ghost use Rattle.manifests.specs.VolumeObject.{empty_fields, host_fields};

use crate::lists::Written;
use crate::{Volume, VolumeKind};
use ac_types::NoMemory;
use app_section::ObjectBuilder;
use serde_json::Value;
use std::alloc::Global;

impl Written for Volume {
    ghost use Rattle.manifests.specs.VolumeObject.{volume_object};

    ghost json = { λ v. volume_object v };

    #[tactic(auto, unfolding(crate::specs::VolumeObject::volume_object))]
    fn written(&self, alloc: Global) -> Result<Value, NoMemory> {
        let name = self.name.as_str();
        match &self.kind {
            VolumeKind::Host { source, read_only } => {
                host_value(alloc, name, source.as_str(), *read_only)
            }
            VolumeKind::Empty { mode, uid, gid } => {
                empty_value(alloc, name, mode.as_str(), *uid, *gid)
            }
        }
    }
}

fn host_value(alloc: Global, name: &str, source: &str, read_only: bool) -> Result<Value, NoMemory>
    ensures { IfOk result (λ v. view v ≡ object (written (host_fields name.now source.now read_only))) }
{
    let object = ObjectBuilder::new(alloc);
    let object = object.text(alloc, "kind", "host")?;
    let object = object.text(alloc, "name", name)?;
    let object = object.flag(alloc, "readOnly", read_only)?;
    let object = object.text(alloc, "source", source)?;
    Ok(object.finish())
}

fn empty_value(alloc: Global, name: &str, mode: &str, uid: u32, gid: u32) -> Result<Value, NoMemory>
    ensures { IfOk result (λ v. view v ≡ object (written (empty_fields name.now mode.now uid gid))) }
{
    let object = ObjectBuilder::new(alloc);
    let object = object.number(alloc, "gid", u64::from(gid))?;
    let object = object.text(alloc, "kind", "empty")?;
    let object = object.text(alloc, "mode", mode)?;
    let object = object.text(alloc, "name", name)?;
    let object = object.number(alloc, "uid", u64::from(uid))?;
    Ok(object.finish())
}
