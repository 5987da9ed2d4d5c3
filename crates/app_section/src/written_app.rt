//! The app's section as it is written.
ghost use Rattle.std.specs.Prelude.{◌≡◌, codes, map, option_map, IfOk};
ghost use Rattle.serde_json.specs.Data.{no_members, string};
ghost use Rattle.serde_json.specs.View.{view};
ghost use Rattle.app_section.specs.AppData.{app_data, isolator_data};
ghost use Rattle.app_section.specs.AppObject.{app_object, first_app_fields, isolator_object, last_app_fields};
ghost use Rattle.app_section.specs.Objects.{built, if_filled, put_all, put_field};

use crate::app::App;
use crate::isolator::Isolator;
use crate::object_builder::ObjectBuilder;
use ac_types::{NoMemory, Text};
use serde_json::Value;
use std::alloc::Global;

/// The object of an app.
pub(crate) fn app_value(alloc: Global, app: &App) -> Result<Value, NoMemory>
    ensures { IfOk result (λ v. view v ≡ app_object (app_data app.now)) }
{
    let object = with_first_fields(alloc, app)?;
    let object = with_last_fields(alloc, app, object)?;
    Ok(object.finish())
}

fn with_first_fields(alloc: Global, app: &App) -> Result<ObjectBuilder, NoMemory>
    ensures { IfOk result (λ b. built b ≡ put_all (first_app_fields (app_data app.now)) no_members) }
{
    let object = ObjectBuilder::new(alloc);
    let object = object.list(alloc, "environment", app.environment.as_slice())?;
    let object = object.list(alloc, "eventHandlers", app.event_handlers.as_slice())?;
    let object = object.list(alloc, "exec", app.exec.as_slice())?;
    let object = object.text(alloc, "group", app.group.as_str())?;
    with_isolators(alloc, app.isolators.as_slice(), object)
}

fn with_last_fields(
    alloc: Global,
    app: &App,
    object: ObjectBuilder,
) -> Result<ObjectBuilder, NoMemory>
    ensures { IfOk result (λ b. built b ≡ put_all (last_app_fields (app_data app.now)) (built object)) }
{
    let object = object.list(alloc, "mountPoints", app.mount_points.as_slice())?;
    let object = object.list(alloc, "ports", app.ports.as_slice())?;
    let object = object.list(
        alloc,
        "supplementaryGIDs",
        app.supplementary_gids.as_slice(),
    )?;
    let object = object.text(alloc, "user", app.user.as_str())?;
    with_directory(alloc, &app.working_directory, object)
}

/// With a member `isolators`, where there are some.
pub fn with_isolators(
    alloc: Global,
    isolators: &[Isolator],
    object: ObjectBuilder,
) -> Result<ObjectBuilder, NoMemory>
    ensures { IfOk result (λ b. built b
        ≡ put_field (codes "isolators") (if_filled isolator_object (map isolator_data isolators.now)) (built object)) }
{
    object.list(alloc, "isolators", isolators)
}

#[tactic(auto, unfolding(crate::specs::Objects::put_field))]
fn with_directory(
    alloc: Global,
    directory: &Option<Text>,
    object: ObjectBuilder,
) -> Result<ObjectBuilder, NoMemory>
    ensures { IfOk result (λ b. built b ≡ put_field (codes "workingDirectory") (option_map string directory.now) (built object)) }
{
    match directory {
        Some(place) => object.text(alloc, "workingDirectory", place.as_str()),
        None => Ok(object),
    }
}
