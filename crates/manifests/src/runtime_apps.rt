//! Apps of a pod as they are written.

use crate::RuntimeApp;
use crate::lists::{Written, with_list};
use crate::optional_fields::with_app;
use ac_types::NoMemory;
use app_section::ObjectBuilder;
use serde_json::Value;
use std::alloc::Global;

impl Written for RuntimeApp {
    ghost use Rattle.manifests.specs.PodData.{runtime_app_data};
    ghost use Rattle.manifests.specs.PodObject.{runtime_app_object};

    ghost json = { λ a. runtime_app_object (runtime_app_data a) };

    fn written(&self, alloc: Global) -> Result<Value, NoMemory> {
        let object = ObjectBuilder::new(alloc);
        let object = with_list(alloc, object, "annotations", self.annotations.as_slice())?;
        let object = with_app(alloc, object, "app", &self.app)?;
        let object = object.json(alloc, "image", self.image.written(alloc)?)?;
        let object = with_list(alloc, object, "mounts", self.mounts.as_slice())?;
        let object = object.text(alloc, "name", self.name.as_str())?;
        let object = object.flag(alloc, "readOnlyRootFS", self.read_only_root_fs)?;
        Ok(object.finish())
    }
}
