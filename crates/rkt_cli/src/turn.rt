// The commands of the demo, each with what it is given.
ghost use Rattle.std.specs.Prelude.{◌≡◌, ◌≤◌, ◌+◌, ◌∷◌, [], true, IfOk};
ghost use Rattle.commands.specs.References.{are_references};
ghost use Rattle.rkt_cli.specs.Turns.{bare_turn, import_turn, prepare_turn, run_turn, wants_image};

use crate::line::Line;
use ac_types::{ImageRef, Text};
use commands::Wanted;
use demo_inputs::{app_spawner, command_draw, demo_name, image_bundle, pod_draw};
use dir_memory::MemoryBundle;
use dir_trait::{Draw, NoMemory, PodPrefix};
use manifests::{Mounts, Volumes};
use memory_spawner::MemorySpawner;
use pod_manifest::Options;
use spawner::Words;
use std::alloc::Global;

/// When pods are prepared and run, in seconds.
const PREPARED_AT: u64 = 1_000;

/// The address of the metadata service, which no app of the demo asks.
const ADDRESS: &str = "127.0.0.1:18112";

/// A command with its moment, what is drawn for it, and the bundle and the spawner that it is given.
#[derive(Drop)]
pub(crate) struct Turn {
    pub line: Line,
    pub now: u64,
    pub draw: Draw,
    pub bundle: MemoryBundle,
    pub spawner: MemorySpawner,
}

fn text(alloc: Global, text: &str) -> Result<Text, NoMemory>
    ensures { IfOk result (λ t. t ≡ text.now) }
{
    match Text::of(alloc, text) {
        Ok(text) => Ok(text),
        Err(_) => Err(NoMemory),
    }
}

/// A command that is given an empty bundle, and a spawner whose programs end with 0.
pub(crate) fn bare_turn(alloc: Global, line: Line, now: u64, number: u32) -> Turn
    ensures { result ≡ bare_turn line now number }
{
    Turn {
        line,
        now,
        draw: command_draw(number),
        bundle: MemoryBundle::new(alloc),
        spawner: MemorySpawner::new(alloc),
    }
}

/// The import of an image. Refused only where memory ran out, as the others are.
pub(crate) fn import_turn(alloc: Global, image: u32) -> Result<Turn, NoMemory>
    ensures { IfOk result (λ turn. turn ≡ import_turn image) }
{
    let bundle = image_bundle(alloc, image)?;
    let path = text(alloc, "b")?;
    Ok(Turn {
        line: Line::ImageImport(path),
        now: u64::from(image),
        draw: command_draw(image),
        bundle,
        spawner: MemorySpawner::new(alloc),
    })
}

// No volumes and no mounts.
#[tactic(auto, using(crate::proofs::NoWishes::no_wishes))]
fn no_options(alloc: Global) -> Options
    ensures { result ≡ record { volumes = []; mounts = [] } }
{
    Options {
        volumes: Volumes::new(alloc),
        mounts: Mounts::new(alloc),
    }
}

// Whether the word is a reference. False also where memory ran out.
#[tactic(auto, using(crate::proofs::NoWishes::one_reference))]
fn is_reference(alloc: Global, word: &str) -> bool
    ensures { result ≡ true → are_references (word.now ∷ []) ≡ true }
{
    match ImageRef::parse(alloc, word) {
        Ok(_) => true,
        Err(_) => false,
    }
}

// What a pod of one image is to be made of.
fn wants_image(alloc: Global, image: u32) -> Result<Wanted, NoMemory>
    ensures { IfOk result (λ wanted. wanted ≡ wants_image image) }
{
    let name = demo_name(alloc, image)?;
    // Each of these names is a reference.
    if !is_reference(alloc, name.as_str()) {
        return Err(NoMemory);
    }
    let words = Words::new(alloc).push(alloc, name.as_str())?;
    match Wanted::of(alloc, &words, no_options(alloc)) {
        Ok(wanted) => Ok(wanted),
        Err(_) => Err(NoMemory),
    }
}

/// The making of a pod.
pub(crate) fn prepare_turn(alloc: Global, pod: u32) -> Result<Turn, NoMemory>
    ensures { IfOk result (λ turn. turn ≡ prepare_turn pod) }
{
    let wanted = wants_image(alloc, pod)?;
    Ok(Turn {
        line: Line::Prepare(wanted),
        now: PREPARED_AT,
        draw: pod_draw(pod),
        bundle: MemoryBundle::new(alloc),
        spawner: MemorySpawner::new(alloc),
    })
}

/// The run of a pod, in a demo of so many images.
pub(crate) fn run_turn(alloc: Global, count: u32, pod: u32) -> Result<Turn, NoMemory>
    requires { count + pod ≤ 4294967295 }
    ensures { IfOk result (λ turn. turn ≡ run_turn count pod) }
{
    let spawner = app_spawner(alloc, pod)?;
    let address = text(alloc, ADDRESS)?;
    let word = PodPrefix::of(pod_draw(pod).uuid);
    Ok(Turn {
        line: Line::RunPrepared(word, address),
        now: PREPARED_AT,
        draw: command_draw(count + pod / 3),
        bundle: MemoryBundle::new(alloc),
        spawner,
    })
}
