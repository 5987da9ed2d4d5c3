// What a command line does to the directory, the bundle, the spawner and the listener.
ghost use Rattle.std.specs.Prelude.{◌≡◌, ◌⊎◌, true, false, Some, None, IsSome, IsNone, IsErrOf, []};
ghost use Rattle.dir_model.specs.Causes.{Rose};
ghost use Rattle.dir_model.specs.declared.intent.Intent.{Intent};
ghost use Rattle.dir_trait.specs.Knowledge.{Knows};
ghost use Rattle.dir_trait.specs.Local.{IsActive, nothing_local};
ghost use Rattle.command_outcomes.specs.Moments.{outside_at, inside_at, spawner_at, outcome_of, is_well};
ghost use Rattle.command_outcomes.specs.Conforming.{seen_at_begin, StaysConforming};
ghost use Rattle.commands.specs.Command.{intent_for};
ghost use Rattle.commands.specs.GcCommand.{gc_intent};
ghost use Rattle.rkt_cli.specs.Commands.{uses_dir, reads_bundle, runs_apps, any_task, intent_in, intent_of, TellsOfItsApps};
ghost use Rattle.rkt_cli.specs.Histories.{HandsOverFaithfulPods, WhereKnown};
ghost use Rattle.rkt_cli.specs.Links.{LinksBetween, LinksOf};
ghost use Rattle.rkt_cli.specs.Lookups.{Acts};
ghost use Rattle.rkt_cli.specs.Runs.{CommandRan};
ghost use Rattle.rkt_cli.specs.Tasks.{MeansItsPod, is_demo, takes_links, task_of};

use crate::line::Line;
use crate::lookup::its_pod;
use command_outcomes::{Output, Refusal, Told};
use commands::cat_manifest::cat_manifest;
use commands::gc::gc_pods;
use commands::image_gc::image_gc;
use commands::image_import::image_import;
use commands::image_list::image_list;
use commands::image_rm::image_rm;
use commands::list::list;
use commands::metadata_service::metadata_service;
use commands::prepare::prepare_pod;
use commands::rm::rm;
use commands::run::run;
use commands::run_prepared::run_prepared;
use commands::status::pod_status;
use commands::validate::validate;
use dir_trait::{Bundle, Dir, Draw, Intent, Kind, PodId, PodPrefix};
use listener::Listener;
use spawner::Spawner;
use std::alloc::Global;

fn intent_for(kind: Kind, word: PodPrefix, now: u64, draw: &Draw) -> Intent
    ensures { result ≡ intent_for kind word now draw.now }
{
    Intent {
        kind,
        word,
        now,
        grace: 0,
        expire: 0,
        draw: draw.uuid,
        token: draw.token,
    }
}

fn gc_intent(grace: u64, expire: u64, now: u64, draw: &Draw) -> Intent
    ensures { result ≡ gc_intent grace expire now draw.now }
{
    Intent {
        kind: Kind::Gc,
        word: PodPrefix::empty(),
        now,
        grace,
        expire,
        draw: draw.uuid,
        token: draw.token,
    }
}

// What a process says of a line when it begins. None where the command needs no process.
fn line_intent(line: &Line, now: u64, draw: &Draw) -> Option<Intent>
    ensures intent { result ≡ intent_in line.now now draw.now }
    ensures some { IsSome result → uses_dir (any_task line.now) ≡ true }
    ensures none { IsNone result → uses_dir (any_task line.now) ≡ false }
{
    match line {
        Line::Status(word) => Some(intent_for(Kind::Status, *word, now, draw)),
        Line::PodList => Some(intent_for(Kind::List, PodPrefix::empty(), now, draw)),
        Line::CatManifest(word) => Some(intent_for(Kind::CatManifest, *word, now, draw)),
        Line::Validate(_) => None,
        Line::ImageList => Some(intent_for(Kind::ImageList, PodPrefix::empty(), now, draw)),
        Line::ImageImport(_) => Some(intent_for(Kind::ImageImport, PodPrefix::empty(), now, draw)),
        Line::ImageRm(_) => Some(intent_for(Kind::ImageRm, PodPrefix::empty(), now, draw)),
        Line::ImageGc => Some(intent_for(Kind::ImageGc, PodPrefix::empty(), now, draw)),
        Line::Prepare(_) => Some(intent_for(Kind::Prepare, PodPrefix::empty(), now, draw)),
        Line::RunPrepared(word, _) => Some(intent_for(Kind::RunPrepared, *word, now, draw)),
        Line::Run(_, _) => Some(intent_for(Kind::Run, PodPrefix::empty(), now, draw)),
        Line::Rm(word) => Some(intent_for(Kind::Rm, *word, now, draw)),
        Line::Gc(grace, expire) => Some(gc_intent(*grace, *expire, now, draw)),
        Line::Metadata(_, _) => { Some(intent_for(Kind::Metadata, PodPrefix::empty(), now, draw)) }
        Line::Demo(_) => None,
    }
}

// A command that runs no apps and takes no connections, on the pod that its line means.
fn act_alone<D: Dir, B: Bundle>(
    alloc: Global,
    line: &Line,
    pod: PodId,
    now: u64,
    draw: &Draw,
    dir: &mut D,
    bundle: &mut B,
) -> Result<Output, Refusal>
    requires active { uses_dir (task_of line.now pod) ≡ true → IsActive (D.shown dir.old).local }
    requires ready { (D.shown dir.old).local.holdings ≡ [] }
    requires meant { MeansItsPod (task_of line.now pod) }
    requires alone { runs_apps (task_of line.now pod) ≡ false }
    requires unlinked { takes_links line.now ≡ false }
    requires whole { is_demo line.now ≡ false }
    ensures local { (D.shown dir.new).local ≡ (D.shown dir.old).local }
    ensures apart { uses_dir (task_of line.now pod) ≡ false → dir.new ≡ dir.old }
    ensures unread { reads_bundle (task_of line.now pod) ≡ false → bundle.new ≡ bundle.old }
    ensures keeps { D.observed ≡ true → (intent : Intent) → intent_of (task_of line.now pod) now draw.now ≡ Some intent
        → StaysConforming intent (D.shown dir.old) (D.shown dir.new) }
    ensures makers { D.observed ≡ true → uses_dir (task_of line.now pod) ≡ true
        → WhereKnown (task_of line.now pod) now draw.now (D.shown dir.old) (HandsOverFaithfulPods (D.shown dir.old) (D.shown dir.new)) }
    ensures ran { CommandRan (task_of line.now pod) now draw.now (outside_at D.Dir B.Bundle dir.old bundle.old) (outside_at D.Dir B.Bundle dir.new bundle.new) result }
{
    match line {
        Line::Status(_) => pod_status(alloc, pod, dir),
        Line::PodList => list(alloc, dir),
        Line::CatManifest(_) => cat_manifest(alloc, pod, dir),
        Line::Validate(path) => validate(alloc, path, bundle),
        Line::ImageList => image_list(alloc, dir),
        Line::ImageImport(path) => image_import(alloc, path, now, draw.uuid, dir, bundle),
        Line::ImageRm(key) => image_rm(alloc, *key, draw.uuid, dir),
        Line::ImageGc => image_gc(alloc, dir),
        Line::Prepare(wanted) => prepare_pod(alloc, wanted, now, draw, dir),
        Line::Rm(_) => rm(alloc, pod, now, dir),
        Line::Gc(grace, expire) => gc_pods(alloc, now, *grace, *expire, dir),
        Line::RunPrepared(_, _) | Line::Run(_, _) => unreachable!(),
        Line::Metadata(_, _) => unreachable!(),
        Line::Demo(_) => unreachable!(),
    }
}

// What is told of a command that runs no apps.
fn all_well(outcome: Result<Output, Refusal>) -> Result<Told, Refusal>
    ensures outcome { outcome_of result ≡ outcome }
    ensures well { is_well result ≡ true }
{
    match outcome {
        Ok(text) => Ok(Told { text, well: true }),
        Err(refusal) => Err(refusal),
    }
}

// The command itself, on the pod that its line means.
fn act<D: Dir, B: Bundle, S: Spawner, L: Listener>(
    alloc: Global,
    line: &Line,
    pod: PodId,
    now: u64,
    draw: &Draw,
    dir: &mut D,
    bundle: &mut B,
    spawner: &mut S,
    listener: &mut L,
) -> Result<Told, Refusal>
    requires active { uses_dir (task_of line.now pod) ≡ true → IsActive (D.shown dir.old).local }
    requires ready { (D.shown dir.old).local.holdings ≡ [] }
    requires meant { MeansItsPod (task_of line.now pod) }
    requires whole { is_demo line.now ≡ false }
    requires known { D.observed ≡ true → (intent : Intent) → intent_of (task_of line.now pod) now draw.now ≡ Some intent → Knows (D.shown dir.old) (seen_at_begin intent) }
    ensures local { (D.shown dir.new).local ≡ (D.shown dir.old).local }
    ensures apart { uses_dir (task_of line.now pod) ≡ false → dir.new ≡ dir.old }
    ensures unread { reads_bundle (task_of line.now pod) ≡ false → bundle.new ≡ bundle.old }
    ensures unasked { runs_apps (task_of line.now pod) ≡ false → spawner.new ≡ spawner.old }
    ensures spawn_cause { IsErrOf result Refusal.SpawnFault → Rose (S.shown spawner.old).faults (S.shown spawner.new).faults }
    ensures keeps { D.observed ≡ true → (intent : Intent) → intent_of (task_of line.now pod) now draw.now ≡ Some intent
        → StaysConforming intent (D.shown dir.old) (D.shown dir.new) }
    ensures makers { D.observed ≡ true → uses_dir (task_of line.now pod) ≡ true
        → WhereKnown (task_of line.now pod) now draw.now (D.shown dir.old) (HandsOverFaithfulPods (D.shown dir.old) (D.shown dir.new)) }
    ensures ran { CommandRan (task_of line.now pod) now draw.now (outside_at D.Dir B.Bundle dir.old bundle.old) (outside_at D.Dir B.Bundle dir.new bundle.new) (outcome_of result) }
    ensures apps_told { TellsOfItsApps (task_of line.now pod) now draw.now (inside_at D.Dir S.Spawner dir.old spawner.old) (inside_at D.Dir S.Spawner dir.new spawner.new) result }
    ensures unlinked { takes_links line.now ≡ false → listener.new ≡ listener.old }
    ensures link_cause { IsErrOf result Refusal.LinkFault → Rose (L.shown listener.old).faults (L.shown listener.new).faults }
    ensures serves { L.observed ≡ true → D.observed ≡ true → (L.shown listener.old).current ≡ None
        → LinksBetween line.now draw.now result (L.shown listener.old) (L.shown listener.new) (D.shown dir.old) (D.shown dir.new) }
{
    match line {
        Line::RunPrepared(_, address) => run_prepared(alloc, pod, address.as_str(), dir, spawner),
        Line::Run(wanted, address) => {
            run(alloc, wanted, address.as_str(), now, draw, dir, spawner)
        }
        Line::Metadata(address, count) => all_well(metadata_service(
            alloc,
            address.as_str(),
            *count,
            &draw.key,
            dir,
            listener,
        )),
        _ => all_well(act_alone(alloc, line, pod, now, draw, dir, bundle)),
    }
}

// A process begins, comes to the pod that the line means, does what it says, and finishes. Where it can't begin, it does
// nothing more.
fn act_in_process<D: Dir, B: Bundle, S: Spawner, L: Listener>(
    alloc: Global,
    line: &Line,
    intent: Intent,
    now: u64,
    draw: &Draw,
    dir: &mut D,
    bundle: &mut B,
    spawner: &mut S,
    listener: &mut L,
) -> Result<Told, Refusal>
    requires fresh { (D.shown dir.old).local ≡ nothing_local }
    requires uses { uses_dir (any_task line.now) ≡ true }
    requires whole { is_demo line.now ≡ false }
    requires said { intent_in line.now now draw.now ≡ Some intent }
    ensures unread { reads_bundle (any_task line.now) ≡ false → bundle.new ≡ bundle.old }
    ensures unasked { runs_apps (any_task line.now) ≡ false → spawner.new ≡ spawner.old }
    ensures makers { D.observed ≡ true → HandsOverFaithfulPods (D.shown dir.old) (D.shown dir.new) }
    ensures acts { Acts line.now now draw.now (outside_at D.Dir B.Bundle dir.old bundle.old) (outside_at D.Dir B.Bundle dir.new bundle.new)
        (spawner_at S.Spawner spawner.old) (spawner_at S.Spawner spawner.new) result }
    ensures unlinked { takes_links line.now ≡ false → listener.new ≡ listener.old }
    ensures link_cause { IsErrOf result Refusal.LinkFault → Rose (L.shown listener.old).faults (L.shown listener.new).faults }
    ensures serves { L.observed ≡ true → D.observed ≡ true → (L.shown listener.old).current ≡ None
        → LinksOf line.now now draw.now result (L.shown listener.old) (L.shown listener.new) (D.shown dir.old) (D.shown dir.new) }
{
    match dir.begin(alloc, intent) {
        Err(_) => Err(Refusal::NoMemory),
        Ok(()) => match its_pod(alloc, line, draw, dir) {
            Ok(pod) => {
                let answer = act(alloc, line, pod, now, draw, dir, bundle, spawner, listener);
                // Before anything is printed, so that a slow reader of the output keeps no process alive.
                dir.finish();
                answer
            }
            Err(refusal) => {
                dir.finish();
                Err(refusal)
            }
        },
    }
}

/// Does what the line says, in a process of the directory where the command needs one. The demo is none of these
/// commands: it performs them.
pub fn perform<D: Dir, B: Bundle, S: Spawner, L: Listener>(
    alloc: Global,
    line: &Line,
    now: u64,
    draw: &Draw,
    dir: &mut D,
    bundle: &mut B,
    spawner: &mut S,
    listener: &mut L,
) -> Result<Told, Refusal>
    requires fresh { (D.shown dir.old).local ≡ nothing_local }
    requires whole { is_demo line.now ≡ false }
    ensures apart { uses_dir (any_task line.now) ≡ false → dir.new ≡ dir.old }
    ensures unread { reads_bundle (any_task line.now) ≡ false → bundle.new ≡ bundle.old }
    ensures unasked { runs_apps (any_task line.now) ≡ false → spawner.new ≡ spawner.old }
    ensures makers { D.observed ≡ true → HandsOverFaithfulPods (D.shown dir.old) (D.shown dir.new) }
    ensures acts { Acts line.now now draw.now (outside_at D.Dir B.Bundle dir.old bundle.old) (outside_at D.Dir B.Bundle dir.new bundle.new)
        (spawner_at S.Spawner spawner.old) (spawner_at S.Spawner spawner.new) result }
    ensures unlinked { takes_links line.now ≡ false → listener.new ≡ listener.old }
    ensures link_cause { IsErrOf result Refusal.LinkFault → Rose (L.shown listener.old).faults (L.shown listener.new).faults }
    ensures serves { L.observed ≡ true → D.observed ≡ true → (L.shown listener.old).current ≡ None
        → LinksOf line.now now draw.now result (L.shown listener.old) (L.shown listener.new) (D.shown dir.old) (D.shown dir.new) }
{
    match line_intent(line, now, draw) {
        Some(intent) => {
            act_in_process(
                alloc, line, intent, now, draw, dir, bundle, spawner, listener,
            )
        }
        None => act(
            alloc, line, draw.uuid, now, draw, dir, bundle, spawner, listener,
        ),
    }
}
