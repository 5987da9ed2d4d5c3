//! Fields that hold an image ID, or that may be absent, as they are written.
ghost use Rattle.std.specs.Prelude.{◌≡◌, option_map, Some, IfOk};
ghost use Rattle.serde_json.specs.Data.{string};
ghost use Rattle.app_section.specs.AppObject.{app_object, whole_data};
ghost use Rattle.app_section.specs.AppData.{app_data};
ghost use Rattle.app_section.specs.Objects.{built, put_field};
ghost use Rattle.manifests.specs.ElementObjects.{id_data};

use ac_types::{AcIdentifier, ImageId, NoMemory};
use app_section::{App, ObjectBuilder};
use std::alloc::Global;

/// The object with an ID more.
pub(crate) fn with_id(
    alloc: Global,
    object: ObjectBuilder,
    name: &str,
    id: &ImageId,
) -> Result<ObjectBuilder, NoMemory>
    ensures { IfOk result (λ b. built b ≡ put_field name.now (Some (id_data id.now)) (built object)) }
{
    let text = id.text(alloc)?;
    object.text(alloc, name, text.as_str())
}

/// The object with an ID more, where there is one.
#[tactic(auto, using(crate::proofs::LeftOut::left_out))]
pub(crate) fn with_optional_id(
    alloc: Global,
    object: ObjectBuilder,
    name: &str,
    id: &Option<ImageId>,
) -> Result<ObjectBuilder, NoMemory>
    ensures { IfOk result (λ b. built b ≡ put_field name.now (option_map id_data id.now) (built object)) }
{
    match id {
        Some(id) => with_id(alloc, object, name, id),
        None => Ok(object),
    }
}

/// The object with a name more, where there is one.
#[tactic(auto, using(crate::proofs::LeftOut::left_out))]
pub(crate) fn with_optional_name(
    alloc: Global,
    object: ObjectBuilder,
    name: &str,
    text: &Option<AcIdentifier>,
) -> Result<ObjectBuilder, NoMemory>
    ensures { IfOk result (λ b. built b ≡ put_field name.now (option_map string text.now) (built object)) }
{
    match text {
        Some(text) => object.text(alloc, name, text.as_str()),
        None => Ok(object),
    }
}

/// The object with a whole number more, where there is one.
#[tactic(auto, using(crate::proofs::LeftOut::left_out))]
pub(crate) fn with_optional_number(
    alloc: Global,
    object: ObjectBuilder,
    name: &str,
    number: Option<u64>,
) -> Result<ObjectBuilder, NoMemory>
    ensures { IfOk result (λ b. built b ≡ put_field name.now (option_map whole_data number) (built object)) }
{
    match number {
        Some(number) => object.number(alloc, name, number),
        None => Ok(object),
    }
}

/// The object with an app's section more, where there is one.
#[tactic(auto, using(crate::proofs::LeftOut::left_out))]
pub(crate) fn with_app(
    alloc: Global,
    object: ObjectBuilder,
    name: &str,
    app: &Option<App>,
) -> Result<ObjectBuilder, NoMemory>
    ensures { IfOk result (λ b. built b ≡ put_field name.now (option_map app_object (option_map app_data app.now)) (built object)) }
{
    match app {
        Some(app) => {
            let section = app.value(alloc)?;
            object.json(alloc, name, section)
        }
        None => Ok(object),
    }
}
