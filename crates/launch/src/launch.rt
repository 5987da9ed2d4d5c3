// With what an app starts.
ghost use Rattle.std.specs.Prelude.{◌≡◌, ℕ, List, Some, None, Ok, Err, IfOk, IfSome, IsErrOf, option_map, unwrap_or, codes};
ghost use Rattle.app_section.specs.AppData.{AppData, app_data};
ghost use Rattle.path_map.specs.Entries.{entry_at};
ghost use Rattle.launch.specs.Launches.{words_in, handler_of, handler_words, missing_word, IsLaunch};

use crate::environment::{environment, search_path};
use crate::error::{LaunchError, no_memory};
use crate::program::argv;
use ac_types::Text;
use app_section::{App, HandlerKind};
use manifests::RuntimeApp;
use path_map::PathMap;
use spawner::Words;
use std::alloc::Global;

/// With what an app starts: the words of its programs, the first of them the program's path in the
/// app's root; the environment of each; and the directory of that root in which each starts.
#[derive(Drop)]
pub struct AppLaunch {
    pub environment: Words,
    pub directory: Text,
    /// What runs before the app, if anything does.
    pub pre_start: Option<Words>,
    pub main: Words,
    /// What runs after the app, if anything does.
    pub post_stop: Option<Words>,
}

// What runs before the app, or after it.
fn exec_of(app: &App, kind: HandlerKind) -> Option<&[Text]>
    ensures { option_map (λ exec. exec.now) result ≡ handler_of kind (app_data app.now) }
{
    match app
        .event_handlers
        .as_slice()
        .iter()
        .find(|h| h.kind == kind)
    {
        Some(handler) => Some(handler.exec.as_slice()),
        None => None,
    }
}

// The words with which a program of the app starts.
fn words_in(alloc: Global, app: &App, tree: &PathMap, exec: &[Text]) -> Result<Words, LaunchError>
    ensures found { IfOk result (λ words. words_in (app_data app.now) (entry_at tree.now) exec.now ≡ Ok words) }
    ensures missing { (word : List ℕ) → IsErrOf result (LaunchError.NoProgram word) → words_in (app_data app.now) (entry_at tree.now) exec.now ≡ Err word }
{
    argv(alloc, exec, search_path(app.environment.as_slice()), tree)
}

// The words of a handler, where the app has one of this kind.
fn handler(
    alloc: Global,
    app: &App,
    kind: HandlerKind,
    tree: &PathMap,
) -> Result<Option<Words>, LaunchError>
    ensures found { IfOk result (λ words. handler_words kind (app_data app.now) (entry_at tree.now) ≡ Ok words) }
    ensures missing { (word : List ℕ) → IsErrOf result (LaunchError.NoProgram word) → handler_words kind (app_data app.now) (entry_at tree.now) ≡ Err word }
{
    match exec_of(app, kind) {
        Some(exec) => match words_in(alloc, app, tree, exec) {
            Ok(words) => Ok(Some(words)),
            Err(error) => Err(error),
        },
        None => Ok(None),
    }
}

fn directory_of(alloc: Global, app: &App) -> Result<Text, LaunchError>
    ensures value { IfOk result (λ directory. directory ≡ unwrap_or app.now.working_directory (codes "/")) }
    ensures has_program { (word : List ℕ) → IsErrOf result (LaunchError.NoProgram word) → ⊥ }
{
    let directory = match &app.working_directory {
        Some(directory) => directory.as_str(),
        None => "/",
    };
    Text::of(alloc, directory).map_err(no_memory)
}

// With what the app starts, whose section this is.
fn section_launch(
    alloc: Global,
    app: &App,
    name: &str,
    tree: &PathMap,
    address: &str,
    token: &str,
) -> Result<AppLaunch, LaunchError>
    ensures launch { IfOk result (IsLaunch (app_data app.now) name.now address.now token.now (entry_at tree.now)) }
    ensures missing { (word : List ℕ) → IsErrOf result (LaunchError.NoProgram word) → missing_word (Some (app_data app.now)) (entry_at tree.now) ≡ Some word }
{
    let pre_start = handler(alloc, app, HandlerKind::PreStart, tree)?;
    let main = words_in(alloc, app, tree, app.exec.as_slice())?;
    let post_stop = handler(alloc, app, HandlerKind::PostStop, tree)?;
    let directory = directory_of(alloc, app)?;
    match environment(alloc, app.environment.as_slice(), name, address, token) {
        Ok(environment) => Ok(AppLaunch {
            environment,
            directory,
            pre_start,
            main,
            post_stop,
        }),
        Err(error) => Err(no_memory(error)),
    }
}

/// With what an app of a pod starts: `tree` is its root, by its listing; `token` the pod's; `address`
/// that of the metadata service. A program word that begins with a slash is the program's path; another
/// is looked for in the directories of the app's search path. `NoProgram` with the first word, in the
/// order of the handler before the app, the app and the handler after it, for which the root has no file
/// and no link: an empty one where the app has no program. `NoMemory` where memory ran out.
pub fn app_launch(
    alloc: Global,
    app: &RuntimeApp,
    tree: &PathMap,
    address: &str,
    token: &str,
) -> Result<AppLaunch, LaunchError>
    ensures launch { IfOk result (λ launch. IfSome app.now.app (λ section. IsLaunch (app_data section) app.now.name address.now token.now (entry_at tree.now) launch)) }
    ensures startable { IfOk result (λ launch. missing_word (option_map app_data app.now.app) (entry_at tree.now) ≡ None) }
    ensures missing { (word : List ℕ) → IsErrOf result (LaunchError.NoProgram word) → missing_word (option_map app_data app.now.app) (entry_at tree.now) ≡ Some word }
{
    match &app.app {
        Some(section) => section_launch(alloc, section, app.name.as_str(), tree, address, token),
        None => Err(LaunchError::NoProgram(Text::of(alloc, "").map_err(no_memory)?)),
    }
}
