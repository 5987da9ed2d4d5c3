//! An app: how it is read, written and copied.
ghost use Rattle.std.specs.Prelude.{◌≡◌, IfOk};
ghost use Rattle.serde_json.specs.View.{view};
ghost use Rattle.ac_types.specs.Outcomes.{Answers};
ghost use Rattle.app_section.specs.AppData.{app_data};
ghost use Rattle.app_section.specs.AppForm.{app, IsReadAs};
ghost use Rattle.app_section.specs.AppObject.{app_object};
ghost use Rattle.app_section.specs.AppParts.{last_data, whole_app};
ghost use Rattle.app_section.specs.AppRules.{IsApp};

use crate::app_fields::{
    FirstFields, LastFields, copy_first_fields, copy_last_fields, read_first_fields,
    read_last_fields,
};
use crate::env_var::EnvVars;
use crate::group_ids::GroupIds;
use crate::handler::Handlers;
use crate::isolator::Isolators;
use crate::mount_point::MountPoints;
use crate::port::Ports;
use crate::written_app::app_value;
use ac_types::{NoMemory, ReadError, ShownCopy, Text, Texts, object_value};
use serde_json::Value;
use std::alloc::Global;

/// How an app is run.
#[derive(Drop)]
pub struct App {
    /// A program word and its arguments, or nothing.
    pub exec: Texts,
    pub user: Text,
    pub group: Text,
    pub supplementary_gids: GroupIds,
    pub event_handlers: Handlers,
    /// An absolute path with no segment that is empty, `.` or `..`.
    pub working_directory: Option<Text>,
    pub environment: EnvVars,
    pub mount_points: MountPoints,
    pub ports: Ports,
    pub isolators: Isolators,
}

impl App {
    /// The app that the JSON at a path is. Otherwise the first fault in the order of the fields,
    /// or `NoMemory`.
    pub fn read(alloc: Global, value: &Value, at: &str) -> Result<App, ReadError>
        ensures app { Answers app_data (app at.now (view value.now)) result }
        ensures kind { IfOk result (λ read. IsApp (app_data read)) }
    {
        read_app(alloc, value, at)
    }

    /// The object that is written for the app: its keys in byte order, without the fields that are
    /// absent or empty. Reading the object of what is an app gives it again.
    pub fn value(&self, alloc: Global) -> Result<Value, NoMemory>
        ensures object { IfOk result (λ v. view v ≡ app_object (app_data self.now)) }
        ensures reads_back { IfOk result (λ v. IsApp (app_data self.now) → IsReadAs (view v) (app_data self.now)) }
    {
        app_value(alloc, self)
    }

    /// An equal app.
    pub fn copy(&self) -> Result<App, NoMemory>
        ensures { IfOk result (λ copy. app_data copy ≡ app_data self.now) }
    {
        let first = copy_first_fields(self)?;
        let last = copy_last_fields(self)?;
        Ok(app_of(first, last))
    }
}

impl ShownCopy for App {
    ghost use Rattle.app_section.specs.AppData.{AppData, app_data};

    ghost Shown = { AppData };

    ghost shown = { app_data };

    fn copy(&self) -> Result<App, NoMemory> {
        App::copy(self)
    }
}

#[tactic(auto, unfolding(crate::specs::AppForm::app))]
fn read_app(alloc: Global, value: &Value, at: &str) -> Result<App, ReadError>
    ensures { Answers app_data (app at.now (view value.now)) result }
{
    object_value(alloc, value, at)?;
    let first = read_first_fields(alloc, value, at)?;
    let last = read_last_fields(alloc, value, at)?;
    Ok(app_of(first, last))
}

fn app_of(first: FirstFields, last: LastFields) -> App
    ensures { app_data result ≡ whole_app first (last_data last) }
{
    App {
        exec: first.exec,
        user: first.user,
        group: first.group,
        supplementary_gids: first.supplementary_gids,
        event_handlers: first.event_handlers,
        working_directory: last.working_directory,
        environment: last.environment,
        mount_points: last.mount_points,
        ports: last.ports,
        isolators: last.isolators,
    }
}
