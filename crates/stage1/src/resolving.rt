// The programs of the apps are found in their roots.
ghost use Rattle.std.specs.Prelude.{◌≡◌, IfOk, IfErr, length};
ghost use Rattle.stage1.specs.Starts.{IsAppStart, AddsStart, AreStarts};
ghost use Rattle.stage1.specs.LoadRefusals.{IsProgramMissing, AreMissing, IsMissingAmong};

use crate::load_error::{LoadError, no_memory, short_of_memory};
use crate::root::Root;
use crate::run_place::root_of;
use crate::start::AppStart;
use ac_types::{AcName, Text};
use dir_trait::PodId;
use launch::{LaunchError, app_launch};
use manifests::RuntimeApp;
use std::alloc::Global;

// The refusal where an app has no program for a word.
fn no_program(app: &AcName, word: Text) -> LoadError
    ensures { IsProgramMissing app.now word result }
{
    match app.copy() {
        Ok(app) => LoadError::NoProgram(app, word),
        Err(error) => no_memory(error),
    }
}

// What the start of an app needs whose root this is.
fn app_start(
    alloc: Global,
    pod: PodId,
    app: &RuntimeApp,
    root: Root,
    address: &str,
    token: &str,
) -> Result<AppStart, LoadError>
    ensures start { IfOk result (IsAppStart pod address.now token.now app.now root) }
    ensures missing { IfErr result (AreMissing app.now root) }
{
    match app_launch(alloc, app, &root.tree, address, token) {
        Ok(launch) => {
            let _named = app.name.as_str();
            let name = app.name.copy().map_err(no_memory)?;
            Ok(AppStart {
                root: root_of(pod, &app.name),
                name,
                listing: root.listing,
                launch,
            })
        }
        Err(LaunchError::NoProgram(word)) => Err(no_program(&app.name, word)),
        Err(LaunchError::NoMemory) => Err(LoadError::NoMemory),
    }
}

// Adds what the start of an app needs.
fn add_start(
    alloc: Global,
    pod: PodId,
    app: &RuntimeApp,
    root: Root,
    address: &str,
    token: &str,
    starts: &mut Vec<AppStart>,
) -> Result<(), LoadError>
    ensures added { IfOk result (λ done. AddsStart pod address.now token.now app.now root starts.old.items starts.new.items) }
    ensures missing { IfErr result (AreMissing app.now root) }
{
    let start = app_start(alloc, pod, app, root, address, token)?;
    match starts.push(start) {
        Ok(()) => Ok(()),
        Err(refused) => Err(short_of_memory(refused)),
    }
}

/// What the starts of the apps need, in their order, where these are their roots. `NoProgram` with the
/// first app that has no program for one of its words, and the first such word; `NoMemory` where memory
/// ran out.
pub(crate) fn app_starts(
    alloc: Global,
    pod: PodId,
    apps: &[RuntimeApp],
    roots: Vec<Root>,
    address: &str,
    token: &str,
) -> Result<Vec<AppStart>, LoadError>
    requires { length roots.items ≡ length apps.now }
    ensures starts { IfOk result (λ starts. AreStarts pod address.now token.now apps.now roots.items starts.items) }
    ensures missing { IfErr result (IsMissingAmong apps.now roots.items) }
{
    let mut left = roots.into_iter();
    let mut starts = Vec::new(alloc);
    'apps: for app in apps {
        let Some(root) = left.next() else {
            unreachable!();
        };
        add_start(alloc, pod, app, root, address, token, &mut starts)?;
    }
    Ok(starts)
}
