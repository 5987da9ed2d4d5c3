// Why a command wasn't done.
ghost use Rattle.std.specs.Prelude.{◌≡◌, true, IfOk, IfSome, IsNone};
ghost use Rattle.dir_model.specs.Pods.{pod_text};
ghost use Rattle.command_outcomes.specs.Texts.{exit_status_of, message, area_text, named_line, lock_text, shown, is_made};

use crate::output::Output;
use ac_types::Text;
use dir_trait::{Area, Phase, PodId, Which};
use std::alloc::{AllocError, Global};

/// Why a command wasn't done.
#[derive(Drop)]
pub enum Refusal {
    /// The words are no command.
    Usage,
    /// There is no such pod.
    NoPod,
    /// Several pods begin so; these two have the least uuids.
    Ambiguous(PodId, PodId),
    /// Another process holds the lock of that area.
    Busy(Area),
    /// A manifest has a fault of that number at that path in it.
    BadManifest { path: Text, number: u8 },
    /// No image of the store has that key, or is what that word refers to.
    NoImage(Text),
    /// No image of the store is the dependency of that name.
    NoDependency(Text),
    /// The image with that key depends on itself.
    Cycle(Text),
    /// That limit was passed.
    Limit(u64),
    /// The directory failed.
    DirFault,
    /// The bundle failed.
    BundleFault,
    /// The output failed.
    OutFault,
    /// Memory ran out.
    NoMemory,
    /// No file stands at that path.
    NoFile(Text),
    /// Another image with that key is stored: the key, the stored image's digest and the new one's, in
    /// hexadecimal digits.
    Conflict(Text, Text, Text),
    /// What stands at that path is missing, has no reading or isn't what it is to be.
    Damaged(Text),
    /// What stands at that path is of no kind that an image carries.
    BadKind(Text),
    /// A folder with the name of that pod stands in embryo.
    Taken(PodId),
    /// The pod has this phase, which the command doesn't take.
    WrongPhase(Phase),
    /// Another process holds that lock of that pod.
    PodBusy(PodId, Which),
    /// That pod stands without its manifest, or with one that has no reading.
    NoManifest(PodId),
    /// The root of that app has no program for that word.
    NoProgram(Text, Text),
    /// The spawner failed.
    SpawnFault,
    /// The listener failed.
    LinkFault,
    /// The directory answered as if what is this process's own weren't.
    Stray,
}

impl Refusal {
    /// The exit status.
    pub fn status(&self) -> u8
        ensures { result ≡ exit_status_of self.now }
    {
        match self {
            Refusal::Usage => 1,
            Refusal::NoPod => 2,
            Refusal::Ambiguous(_, _) => 3,
            Refusal::WrongPhase(_) => 4,
            Refusal::Busy(_) => 5,
            Refusal::PodBusy(_, _) => 5,
            Refusal::BadManifest { .. } => 6,
            Refusal::NoImage(_) => 7,
            Refusal::NoDependency(_) => 7,
            Refusal::Cycle(_) => 7,
            Refusal::Limit(_) => 8,
            Refusal::DirFault => 9,
            Refusal::BundleFault => 10,
            Refusal::SpawnFault => 11,
            Refusal::OutFault => 12,
            Refusal::LinkFault => 13,
            Refusal::NoMemory => 14,
            Refusal::NoFile(_) => 15,
            Refusal::Conflict(_, _, _) => 15,
            Refusal::Damaged(_) => 15,
            Refusal::BadKind(_) => 15,
            Refusal::Taken(_) => 17,
            Refusal::NoManifest(_) => 18,
            Refusal::NoProgram(_, _) => 19,
            Refusal::Stray => 20,
        }
    }

    /// The line that is printed of it, where it has no path, key or number in it.
    pub fn constant_message(&self) -> Option<&'static str>
        ensures some { IfSome result (λ text. text.now ≡ message self.now) }
        ensures none { IsNone result → is_made self.now ≡ true }
    {
        match self {
            Refusal::Usage => Some("rkt: usage\n"),
            Refusal::NoPod => Some("rkt: no such pod\n"),
            Refusal::Busy(area) => Some(busy_message(*area)),
            Refusal::DirFault => Some("rkt: directory fault\n"),
            Refusal::BundleFault => Some("rkt: bundle fault\n"),
            Refusal::SpawnFault => Some("rkt: spawner fault\n"),
            Refusal::OutFault => Some("rkt: output fault\n"),
            Refusal::LinkFault => Some("rkt: link fault\n"),
            Refusal::NoMemory => Some("rkt: out of memory\n"),
            Refusal::Stray => Some("rkt: stray reply\n"),
            Refusal::Ambiguous(_, _)
            | Refusal::BadManifest { path: _, number: _ }
            | Refusal::NoImage(_)
            | Refusal::NoDependency(_)
            | Refusal::Cycle(_)
            | Refusal::Limit(_)
            | Refusal::NoFile(_)
            | Refusal::Conflict(_, _, _)
            | Refusal::Damaged(_)
            | Refusal::BadKind(_)
            | Refusal::Taken(_)
            | Refusal::WrongPhase(_)
            | Refusal::PodBusy(_, _)
            | Refusal::NoManifest(_)
            | Refusal::NoProgram(_, _) => None,
        }
    }

    /// The line that is printed of it, where it has a path, a key or a number in it. Refused only where memory ran out.
    pub fn made_message(&self, alloc: Global) -> Result<Output, AllocError>
        requires { is_made self.now ≡ true }
        ensures { IfOk result (λ line. line ≡ message self.now) }
    {
        match self {
            Refusal::Ambiguous(first, second) => ambiguous(alloc, *first, *second),
            Refusal::BadManifest { path, number } => bad_manifest(alloc, path, *number),
            Refusal::NoImage(key) => named(alloc, "rkt: no image: ", key),
            Refusal::NoDependency(name) => named(alloc, "rkt: no dependency: ", name),
            Refusal::Cycle(key) => named(alloc, "rkt: cycle: ", key),
            Refusal::Limit(number) => limit(alloc, *number),
            Refusal::NoFile(path) => path_named(alloc, "rkt: no file: ", path),
            Refusal::Conflict(key, stored, new) => conflict(alloc, key, stored, new),
            Refusal::Damaged(path) => path_named(alloc, "rkt: damaged: ", path),
            Refusal::BadKind(path) => path_named(alloc, "rkt: bad kind: ", path),
            Refusal::Taken(pod) => pod_named(alloc, "rkt: taken: ", *pod),
            Refusal::WrongPhase(phase) => wrong_phase(alloc, *phase),
            Refusal::PodBusy(pod, which) => pod_busy(alloc, *pod, *which),
            Refusal::NoManifest(pod) => pod_named(alloc, "rkt: no manifest: ", *pod),
            Refusal::NoProgram(app, word) => no_program(alloc, app, word),
            _ => unreachable!(),
        }
    }
}

// A line that ends with a path.
fn path_named(alloc: Global, front: &str, path: &Text) -> Result<Output, AllocError>
    ensures { IfOk result (λ line. line ≡ named_line front.now (shown path.now)) }
{
    let mut line = Output::of(alloc, front)?;
    line.push_shown(path.as_str())?;
    line.push("\n")?;
    Ok(line)
}

fn ambiguous(alloc: Global, first: PodId, second: PodId) -> Result<Output, AllocError>
    ensures { IfOk result (λ line. line ≡ message (Refusal.Ambiguous first second)) }
{
    let first = first.name();
    let second = second.name();
    let mut line = Output::of(alloc, "rkt: ambiguous: ")?;
    line.push(first.as_str())?;
    line.push(" ")?;
    line.push(second.as_str())?;
    line.push("\n")?;
    Ok(line)
}

fn bad_manifest(alloc: Global, path: &Text, number: u8) -> Result<Output, AllocError>
    ensures { IfOk result (λ line. line ≡ message (Refusal.BadManifest path.now number)) }
{
    let mut line = Output::of(alloc, "rkt: bad manifest at ")?;
    line.push(path.as_str())?;
    line.push(": refusal ")?;
    line.push_number(alloc, u64::from(number))?;
    line.push("\n")?;
    Ok(line)
}

fn busy_message(area: Area) -> &'static str
    ensures { result.now ≡ message (Refusal.Busy area) }
{
    match area {
        Area::Embryo => "rkt: busy: gate embryo\n",
        Area::Prepare => "rkt: busy: gate prepare\n",
        Area::Prepared => "rkt: busy: gate prepared\n",
        Area::Run => "rkt: busy: gate run\n",
        Area::ExitedGarbage => "rkt: busy: gate exited-garbage\n",
        Area::Garbage => "rkt: busy: gate garbage\n",
        Area::Incoming => "rkt: busy: gate incoming\n",
        Area::Images => "rkt: busy: gate images\n",
        Area::Trees => "rkt: busy: gate trees\n",
        Area::Removed => "rkt: busy: gate removed\n",
    }
}

fn limit(alloc: Global, number: u64) -> Result<Output, AllocError>
    ensures { IfOk result (λ line. line ≡ message (Refusal.Limit number)) }
{
    let mut line = Output::of(alloc, "rkt: limit: ")?;
    line.push_number(alloc, number)?;
    line.push("\n")?;
    Ok(line)
}

fn conflict(alloc: Global, key: &Text, stored: &Text, new: &Text) -> Result<Output, AllocError>
    ensures { IfOk result (λ line. line ≡ message (Refusal.Conflict key.now stored.now new.now)) }
{
    let mut line = Output::of(alloc, "rkt: conflict: ")?;
    line.push(key.as_str())?;
    line.push(" ")?;
    line.push(stored.as_str())?;
    line.push(" ")?;
    line.push(new.as_str())?;
    line.push("\n")?;
    Ok(line)
}

// A line that ends with a pod's name.
fn pod_named(alloc: Global, front: &str, pod: PodId) -> Result<Output, AllocError>
    ensures { IfOk result (λ line. line ≡ named_line front.now (pod_text pod.bytes)) }
{
    let name = pod.name();
    let mut line = Output::of(alloc, front)?;
    line.push(name.as_str())?;
    line.push("\n")?;
    Ok(line)
}

fn wrong_phase(alloc: Global, phase: Phase) -> Result<Output, AllocError>
    ensures { IfOk result (λ line. line ≡ message (Refusal.WrongPhase phase)) }
{
    let mut line = Output::of(alloc, "rkt: wrong phase: ")?;
    line.push(phase.name())?;
    line.push("\n")?;
    Ok(line)
}

/// The name of an area.
pub fn area_name(area: Area) -> &'static str
    ensures { result.now ≡ area_text area }
{
    match area {
        Area::Embryo => "embryo",
        Area::Prepare => "prepare",
        Area::Prepared => "prepared",
        Area::Run => "run",
        Area::ExitedGarbage => "exited-garbage",
        Area::Garbage => "garbage",
        Area::Incoming => "incoming",
        Area::Images => "images",
        Area::Trees => "trees",
        Area::Removed => "removed",
    }
}

/// The name of a pod's lock.
pub fn lock_name(which: Which) -> &'static str
    ensures { result.now ≡ lock_text which }
{
    match which {
        Which::Own => "own",
        Which::Claim => "claim",
    }
}

fn pod_busy(alloc: Global, pod: PodId, which: Which) -> Result<Output, AllocError>
    ensures { IfOk result (λ line. line ≡ message (Refusal.PodBusy pod which)) }
{
    let name = pod.name();
    let mut line = Output::of(alloc, "rkt: busy: ")?;
    line.push(name.as_str())?;
    line.push(" ")?;
    line.push(lock_name(which))?;
    line.push("\n")?;
    Ok(line)
}

fn no_program(alloc: Global, app: &Text, word: &Text) -> Result<Output, AllocError>
    ensures { IfOk result (λ line. line ≡ message (Refusal.NoProgram app.now word.now)) }
{
    let mut line = Output::of(alloc, "rkt: no program: ")?;
    line.push(app.as_str())?;
    line.push(" ")?;
    line.push_shown(word.as_str())?;
    line.push("\n")?;
    Ok(line)
}

/// A line that ends with a name. Refused only where memory ran out.
pub fn named(alloc: Global, front: &str, name: &Text) -> Result<Output, AllocError>
    ensures { IfOk result (λ line. line ≡ named_line front.now name.now) }
{
    let mut line = Output::of(alloc, front)?;
    line.push(name.as_str())?;
    line.push("\n")?;
    Ok(line)
}
