// Fills a folder in incoming by a plan and moves it to images: a tool by which folders that are filled on a
// host are tested and timed. Its words are the key of the image, the folder that files are copied from, and
// `time` where it is to print how many milliseconds the plan took. The plan is its part of the standard
// input, whose lines tests/host/building.sh has.

ghost use Rattle.std.specs.Prelude.{◌≡◌, true};
ghost use Rattle.folder_building.specs.Plans.{is_plan};
ghost use Rattle.dir_trait.specs.Local.{nothing_local, IsActive};

use crate::build_plan::plan_of;
use crate::shared::{intent, read_part, setup_fault};
use anyhow::{Result, anyhow};
use dir_host::{HostBundle, Outside, assemble};
use dir_trait::{Area, Bundle, Dir, DirError, Kind, Mode, Name, Spot};
use folder_building::{BuildError, BundleSource, PlanEntry, carry_out};
use plan_check::is_plan;
use std::time::Instant;
use std::{process, result};

/// Holds the gate of incoming.
fn lock<D: Dir>(rt: &HostRuntime, dir: &mut D) -> result::Result<(), DirError>
    requires { IsActive (D.shown dir.old).local }
    ensures { IsActive (D.shown dir.new).local }
{
    match dir.open_area(rt.alloc(), Area::Incoming) {
        Ok(gate) => dir.try_lock(rt.alloc(), gate, Mode::Shared),
        Err(error) => Err(error),
    }
}

/// Holds the gate of incoming and makes the folder.
fn make<D: Dir>(rt: &HostRuntime, dir: &mut D, spot: &Spot) -> result::Result<(), DirError>
    requires { IsActive (D.shown dir.old).local }
    ensures { IsActive (D.shown dir.new).local }
{
    lock(rt, dir)?;
    dir.make_folder(rt.alloc(), *spot)
}

/// Fills the folder with the files of a bundle.
fn fill<D: Dir, B: Bundle>(
    rt: &HostRuntime,
    dir: &mut D,
    bundle: &mut B,
    root: &str,
    spot: &Spot,
    plan: &[PlanEntry],
) -> Result<()>
    requires active { IsActive (D.shown dir.old).local }
    requires plan { is_plan plan.now ≡ true }
    ensures { IsActive (D.shown dir.new).local }
{
    let mut source = BundleSource { bundle, root };
    let built = carry_out(rt.alloc(), dir, &mut source, *spot, plan);
    match built {
        Ok(()) => Ok(()),
        Err(BuildError::Unlike(place)) => Err(anyhow!("unlike: entry {place}")),
        Err(BuildError::SourceFault) => Err(anyhow!("source fault")),
        Err(BuildError::DirFault) => Err(anyhow!("directory fault")),
        Err(BuildError::Stray) => Err(anyhow!("stray")),
        Err(BuildError::NoMemory) => Err(anyhow!("out of memory")),
    }
}

/// Moves the folder to images, and syncs what makes that last.
fn bring<D: Dir>(
    rt: &HostRuntime,
    dir: &mut D,
    from: &Spot,
    name: Name,
) -> result::Result<(), DirError>
    requires { IsActive (D.shown dir.old).local }
    ensures { IsActive (D.shown dir.new).local }
{
    let to = Spot {
        area: Area::Images,
        name,
    };
    dir.move_folder(rt.alloc(), *from, to)?;
    dir.sync_area(rt.alloc(), Area::Images)
}

fn no_folder(_error: DirError) -> anyhow::Error {
    anyhow!("no folder")
}

fn not_brought(_error: DirError) -> anyhow::Error {
    anyhow!("not moved")
}

/// Makes the folder, fills it, and moves it.
fn import<D: Dir>(
    rt: &HostRuntime,
    dir: &mut D,
    spot: &Spot,
    name: Name,
    root: &str,
    timed: bool,
) -> Result<()>
    requires { IsActive (D.shown dir.old).local }
    ensures { IsActive (D.shown dir.new).local }
{
    let text = read_part(rt)?;
    let plan = plan_of(rt.alloc(), text.as_str())?;
    if !is_plan(plan.as_slice()) {
        return Err(anyhow!("no plan"));
    }
    let mut bundle = HostBundle::new(rt, String::from_str(rt.alloc(), root)?);
    make(rt, dir, spot).map_err(no_folder)?;
    let start = Instant::now(rt)?;
    fill(rt, dir, &mut bundle, root, spot, plan.as_slice())?;
    let took = start.elapsed(rt)?;
    bring(rt, dir, spot, name).map_err(not_brought)?;
    if timed {
        println!(rt; "{}", took.as_millis())?;
    }
    println!(rt; "ok")?;
    Ok(())
}

/// Imports in a process that has begun, and finishes it.
fn import_and_finish<D: Dir>(
    rt: &HostRuntime,
    dir: &mut D,
    spot: &Spot,
    name: Name,
    root: &str,
    timed: bool,
) -> Result<()>
    requires { IsActive (D.shown dir.old).local }
{
    let done = import(rt, dir, spot, name, root, timed);
    dir.finish();
    done
}

/// Begins, imports and finishes.
fn build(rt: &HostRuntime, key: &str, root: &str, timed: bool) -> Result<()> {
    let name = Name::of(key).ok_or(anyhow!("no key"))?;
    let Outside { now, draw, mut dir } = assemble(rt, process::id(rt.process())).map_err(
        setup_fault,
    )?;
    let spot = Spot {
        area: Area::Incoming,
        name: draw.uuid.name(),
    };
    match dir.begin(rt.alloc(), intent(Kind::ImageImport, now, &draw)) {
        Ok(()) => import_and_finish(rt, &mut dir, &spot, name, root, timed),
        Err(_) => Err(anyhow!("no begin")),
    }
}

/// Fills the folder that the words name.
pub fn run(rt: &HostRuntime, words: &[String]) -> Result<()> {
    match words {
        [key, root] => build(rt, key.as_str(), root.as_str(), false),
        [key, root, word] if word.as_str() == "time" => {
            build(rt, key.as_str(), root.as_str(), true)
        }
        _ => Err(anyhow!("the words are a key, a folder, and time or nothing")),
    }
}
