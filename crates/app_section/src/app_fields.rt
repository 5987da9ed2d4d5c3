//! The fields of an app in two groups, so that a fault in the second drops the first at one place.
ghost use Rattle.std.specs.Prelude.{◌≡◌, IfOk};
ghost use Rattle.serde_json.specs.View.{view};
ghost use Rattle.ac_types.specs.Outcomes.{Answers, Gives};
ghost use Rattle.app_section.specs.AppData.{app_data};
ghost use Rattle.app_section.specs.AppForm.{first_fields, last_fields};
ghost use Rattle.app_section.specs.AppParts.{first_of, last_data, last_of};

use crate::app::App;
use crate::element_lists::{list_of, named_list_of};
use crate::env_var::EnvVars;
use crate::exec::exec_field;
use crate::group_ids::{GroupIds, group_ids};
use crate::handler::Handlers;
use crate::isolator::Isolators;
use crate::mount_point::MountPoints;
use crate::places::optional_place;
use crate::port::Ports;
use ac_types::{FaultKind, NoMemory, ReadError, ShownCopy, Text, Texts, TryCopy, filled_text};
use serde_json::Value;
use std::alloc::Global;

/// What is run, for whom, and what is run around it.
#[derive(Drop)]
pub(crate) struct FirstFields {
    pub exec: Texts,
    pub user: Text,
    pub group: Text,
    pub supplementary_gids: GroupIds,
    pub event_handlers: Handlers,
}

/// Where it is run, with what, and within which limits.
#[derive(Drop)]
pub(crate) struct LastFields {
    pub working_directory: Option<Text>,
    pub environment: EnvVars,
    pub mount_points: MountPoints,
    pub ports: Ports,
    pub isolators: Isolators,
}

#[tactic(auto, unfolding(crate::specs::AppForm::first_fields))]
pub(crate) fn read_first_fields(
    alloc: Global,
    value: &Value,
    at: &str,
) -> Result<FirstFields, ReadError>
    ensures { Gives (first_fields at.now (view value.now)) result }
{
    let exec = exec_field(alloc, value, at)?;
    let user = filled_text(alloc, value, at, "user")?;
    let group = filled_text(alloc, value, at, "group")?;
    let user = Text::of(alloc, user)?;
    let group = Text::of(alloc, group)?;
    let supplementary_gids = group_ids(alloc, value, at, "supplementaryGIDs")?;
    let event_handlers = named_list_of(alloc, value, at, "eventHandlers", FaultKind::BadHandler)?;
    Ok(FirstFields {
        exec,
        user,
        group,
        supplementary_gids,
        event_handlers,
    })
}

#[tactic(auto, unfolding(crate::specs::AppForm::last_fields))]
pub(crate) fn read_last_fields(
    alloc: Global,
    value: &Value,
    at: &str,
) -> Result<LastFields, ReadError>
    ensures { Answers last_data (last_fields at.now (view value.now)) result }
{
    let working_directory = optional_place(alloc, value, at, "workingDirectory")?;
    let environment = list_of(alloc, value, at, "environment")?;
    let mount_points = named_list_of(alloc, value, at, "mountPoints", FaultKind::NameTwice)?;
    let ports = named_list_of(alloc, value, at, "ports", FaultKind::NameTwice)?;
    let isolators = list_of(alloc, value, at, "isolators")?;
    Ok(LastFields {
        working_directory,
        environment,
        mount_points,
        ports,
        isolators,
    })
}

pub(crate) fn copy_first_fields(app: &App) -> Result<FirstFields, NoMemory>
    ensures { IfOk result (λ copy. copy ≡ first_of app.now) }
{
    Ok(FirstFields {
        exec: app.exec.copy()?,
        user: app.user.copy()?,
        group: app.group.copy()?,
        supplementary_gids: app.supplementary_gids.copy()?,
        event_handlers: app.event_handlers.copy()?,
    })
}

pub(crate) fn copy_last_fields(app: &App) -> Result<LastFields, NoMemory>
    ensures { IfOk result (λ copy. last_data copy ≡ last_of (app_data app.now)) }
{
    Ok(LastFields {
        working_directory: app.working_directory.try_copy()?,
        environment: app.environment.copy()?,
        mount_points: app.mount_points.copy()?,
        ports: app.ports.copy()?,
        isolators: app.isolators.copy()?,
    })
}
