//! The elements of the section's lists as they are written.

use crate::env_var::EnvVar;
use crate::handler::Handler;
use crate::isolator::Isolator;
use crate::mount_point::MountPoint;
use crate::object_builder::ObjectBuilder;
use crate::port::Port;
use crate::to_json::{ToJson, json_of_each};
use ac_types::NoMemory;
use serde_json::Value;
use std::alloc::Global;

impl ToJson for EnvVar {
    ghost use Rattle.app_section.specs.AppObject.{env_object};

    ghost json = { λ v. env_object v };

    fn to_json(&self, alloc: Global) -> Result<Value, NoMemory> {
        let object = ObjectBuilder::new(alloc);
        let object = object.text(alloc, "name", self.name.as_str())?;
        let object = object.text(alloc, "value", self.value.as_str())?;
        Ok(object.finish())
    }
}

impl ToJson for Handler {
    ghost use Rattle.app_section.specs.AppObject.{handler_object};

    ghost json = { λ h. handler_object h };

    fn to_json(&self, alloc: Global) -> Result<Value, NoMemory> {
        let words = Value::Array(json_of_each(alloc, self.exec.as_slice())?);
        let object = ObjectBuilder::new(alloc);
        let object = object.json(alloc, "exec", words)?;
        let object = object.text(alloc, "name", self.kind.name())?;
        Ok(object.finish())
    }
}

impl ToJson for MountPoint {
    ghost use Rattle.app_section.specs.AppObject.{mount_object};

    ghost json = { λ m. mount_object m };

    fn to_json(&self, alloc: Global) -> Result<Value, NoMemory> {
        let object = ObjectBuilder::new(alloc);
        let object = object.text(alloc, "name", self.name.as_str())?;
        let object = object.text(alloc, "path", self.path.as_str())?;
        let object = object.flag(alloc, "readOnly", self.read_only)?;
        Ok(object.finish())
    }
}

impl ToJson for Port {
    ghost use Rattle.app_section.specs.AppObject.{port_object};

    ghost json = { λ p. port_object p };

    fn to_json(&self, alloc: Global) -> Result<Value, NoMemory> {
        let object = ObjectBuilder::new(alloc);
        let object = object.number(alloc, "count", u64::from(self.count))?;
        let object = object.text(alloc, "name", self.name.as_str())?;
        let object = object.number(alloc, "port", u64::from(self.port))?;
        let object = object.text(alloc, "protocol", self.protocol.as_str())?;
        let object = object.flag(alloc, "socketActivated", self.socket_activated)?;
        Ok(object.finish())
    }
}

impl ToJson for Isolator {
    ghost use Rattle.app_section.specs.AppData.{isolator_data};
    ghost use Rattle.app_section.specs.AppObject.{isolator_object};

    ghost json = { λ i. isolator_object (isolator_data i) };

    fn to_json(&self, alloc: Global) -> Result<Value, NoMemory> {
        let object = ObjectBuilder::new(alloc);
        let object = object.text(alloc, "name", self.name.as_str())?;
        let object = object.json(alloc, "value", self.value.clone()?)?;
        Ok(object.finish())
    }
}
