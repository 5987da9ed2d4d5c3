//! The elements of both manifests as they are written.
ghost use Rattle.std.specs.Prelude.{◌≡◌, ◌++◌, codes, IfOk};
ghost use Rattle.std.specs.String.{string_bytes};
ghost use Rattle.manifests.specs.ElementObjects.{listed_bytes};

use crate::lists::{Written, with_list};
use crate::optional_fields::{with_id, with_optional_id, with_optional_name, with_optional_number};
use crate::{Annotation, Dependency, Mount, PodPort, RuntimeImage};
use ac_types::{Label, NoMemory};
use app_section::ObjectBuilder;
use path_map::Listed;
use serde_json::Value;
use std::alloc::Global;

impl Written for Label {
    ghost use Rattle.manifests.specs.ElementObjects.{label_object};

    ghost json = { λ l. label_object l };

    fn written(&self, alloc: Global) -> Result<Value, NoMemory> {
        let object = ObjectBuilder::new(alloc);
        let object = object.text(alloc, "name", self.name.as_str())?;
        let object = object.text(alloc, "value", self.value.as_str())?;
        Ok(object.finish())
    }
}

impl Written for Annotation {
    ghost use Rattle.manifests.specs.ElementObjects.{annotation_object};

    ghost json = { λ a. annotation_object a };

    fn written(&self, alloc: Global) -> Result<Value, NoMemory> {
        let object = ObjectBuilder::new(alloc);
        let object = object.text(alloc, "name", self.name.as_str())?;
        let object = object.text(alloc, "value", self.value.as_str())?;
        Ok(object.finish())
    }
}

impl Written for Dependency {
    ghost use Rattle.manifests.specs.ElementObjects.{dependency_object};

    ghost json = { λ d. dependency_object d };

    fn written(&self, alloc: Global) -> Result<Value, NoMemory> {
        let object = ObjectBuilder::new(alloc);
        let object = with_optional_id(alloc, object, "imageID", &self.image_id)?;
        let object = object.text(alloc, "imageName", self.image_name.as_str())?;
        let object = with_list(alloc, object, "labels", self.labels.as_slice())?;
        let object = with_optional_number(alloc, object, "size", self.size)?;
        Ok(object.finish())
    }
}

impl Written for Listed {
    ghost use Rattle.manifests.specs.ElementObjects.{listed_data};

    ghost json = { λ l. listed_data l };

    #[tactic(auto, unfolding(crate::specs::ElementObjects::listed_data))]
    fn written(&self, alloc: Global) -> Result<Value, NoMemory> {
        let text = path_text(alloc, self)?;
        Ok(Value::String(text))
    }
}

/// The text of a path in a whitelist.
fn path_text(alloc: Global, listed: &Listed) -> Result<String, NoMemory>
    ensures { IfOk result (λ text. string_bytes text ≡ listed_bytes listed.now) }
{
    let text = String::from_str(alloc, listed.path.as_str())?;
    if listed.empty {
        with_slash(text)
    } else {
        Ok(text)
    }
}

fn with_slash(text: String) -> Result<String, NoMemory>
    ensures { IfOk result (λ more. string_bytes more ≡ string_bytes text ++ codes "/") }
{
    let mut text = text;
    text.push_str("/")?;
    Ok(text)
}

impl Written for Mount {
    ghost use Rattle.manifests.specs.ElementObjects.{mount_object};

    ghost json = { λ m. mount_object m };

    fn written(&self, alloc: Global) -> Result<Value, NoMemory> {
        let object = ObjectBuilder::new(alloc);
        let object = object.text(alloc, "path", self.path.as_str())?;
        let object = object.text(alloc, "volume", self.volume.as_str())?;
        Ok(object.finish())
    }
}

impl Written for PodPort {
    ghost use Rattle.manifests.specs.ElementObjects.{pod_port_object};

    ghost json = { λ p. pod_port_object p };

    fn written(&self, alloc: Global) -> Result<Value, NoMemory> {
        let object = ObjectBuilder::new(alloc);
        let object = object.number(alloc, "hostPort", u64::from(self.host_port))?;
        let object = object.text(alloc, "name", self.name.as_str())?;
        Ok(object.finish())
    }
}

impl Written for RuntimeImage {
    ghost use Rattle.manifests.specs.ElementObjects.{runtime_image_object};

    ghost json = { λ i. runtime_image_object i };

    fn written(&self, alloc: Global) -> Result<Value, NoMemory> {
        let object = ObjectBuilder::new(alloc);
        let object = with_id(alloc, object, "id", &self.id)?;
        let object = with_list(alloc, object, "labels", self.labels.as_slice())?;
        let object = with_optional_name(alloc, object, "name", &self.name)?;
        Ok(object.finish())
    }
}
