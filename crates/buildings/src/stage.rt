// Processes that make a folder and fill it.
ghost use Rattle.std.specs.Prelude.{◌≡◌, IfOk};
ghost use Rattle.dir_trait.specs.Local.{nothing_local, IsActive, IsOpen, IsUnlocked};

use conformance::keeps_rules;
use dir_memory::MemoryDir;
use dir_trait::{
    Area, Bundle, Dir, DirError, Handle, Intent, Kind, Mode, PodId, PodPrefix, Spot, Which,
};
use folder_building::{BuildError, BundleSource, PlanEntry, Source, carry_out};
use plan_check::is_plan;
use scripts::Page;
use std::alloc::Global;

/// What process 1 draws, which fills a folder.
pub const DRAW: PodId = PodId { bytes: [1; 16] };

/// What the next process draws.
pub const NEXT: PodId = PodId { bytes: [2; 16] };

/// What a process begins with.
pub fn intent(kind: Kind, draw: PodId) -> Intent {
    let token = draw.bytes;
    Intent {
        kind,
        word: PodPrefix::empty(),
        now: 5,
        grace: 1800,
        expire: 86_400,
        draw,
        token,
    }
}

/// The folder of what process 1 draws, in an area.
pub fn spot(area: Area) -> Spot
    ensures { result.area ≡ area }
{
    Spot {
        area,
        name: DRAW.name(),
    }
}

// Asks for the lock of an open handle, which stays open.
fn lock<D: Dir>(alloc: Global, dir: &mut D, gate: Handle, mode: Mode) -> Result<(), DirError>
    requires active { IsActive (D.shown dir.old).local }
    requires open { IsOpen (D.shown dir.old).local gate }
    requires unlocked { IsUnlocked (D.shown dir.old).local gate }
    ensures active { IsActive (D.shown dir.new).local }
    ensures open { IsOpen (D.shown dir.new).local gate }
{
    dir.try_lock(alloc, gate, mode)
}

fn locked<D: Dir>(alloc: Global, dir: &mut D, gate: Handle, mode: Mode) -> Result<Handle, DirError>
    requires active { IsActive (D.shown dir.old).local }
    requires open { IsOpen (D.shown dir.old).local gate }
    requires unlocked { IsUnlocked (D.shown dir.old).local gate }
    ensures active { IsActive (D.shown dir.new).local }
    ensures open { IfOk result (λ gate. IsOpen (D.shown dir.new).local gate) }
{
    lock(alloc, dir, gate, mode)?;
    Ok(gate)
}

/// Opens the gate of an area and locks it.
pub fn lock_gate<D: Dir>(
    alloc: Global,
    dir: &mut D,
    area: Area,
    mode: Mode,
) -> Result<Handle, DirError>
    requires { IsActive (D.shown dir.old).local }
    ensures active { IsActive (D.shown dir.new).local }
    ensures open { IfOk result (λ gate. IsOpen (D.shown dir.new).local gate) }
{
    match dir.open_area(alloc, area) {
        Ok(gate) => locked(alloc, dir, gate, mode),
        Err(error) => Err(error),
    }
}

/// Opens the lock of the folder at a location and takes it.
pub fn lock_own<D: Dir>(alloc: Global, dir: &mut D, spot: Spot, mode: Mode) -> Result<(), DirError>
    requires { IsActive (D.shown dir.old).local }
    ensures { IsActive (D.shown dir.new).local }
{
    let spot = &spot;
    match dir.open(alloc, *spot, Which::Own) {
        Ok(own) => dir.try_lock(alloc, own, mode),
        Err(error) => Err(error),
    }
}

/// Begins as an importer, holds the gate of incoming and makes a folder there. Answers the gate.
pub fn begin_import<D: Dir>(alloc: Global, dir: &mut D) -> Result<Handle, DirError>
    requires { (D.shown dir.old).local ≡ nothing_local }
    ensures active { IfOk result (λ gate. IsActive (D.shown dir.new).local) }
    ensures open { IfOk result (λ gate. IsOpen (D.shown dir.new).local gate) }
{
    dir.begin(alloc, intent(Kind::ImageImport, DRAW))?;
    let gate = lock_gate(alloc, dir, Area::Incoming, Mode::Shared)?;
    dir.make_folder(alloc, spot(Area::Incoming))?;
    Ok(gate)
}

/// What came of a plan. None where the rows are no plan.
pub type Built = Option<Result<(), BuildError>>;

/// Whether a plan was carried out.
pub fn fill<D: Dir, S: Source>(
    alloc: Global,
    dir: &mut D,
    source: &mut S,
    spot: Spot,
    plan: &[PlanEntry],
) -> Built
    requires { IsActive (D.shown dir.old).local }
    ensures { (D.shown dir.new).local ≡ (D.shown dir.old).local }
{
    if is_plan(plan) {
        Some(carry_out(alloc, dir, source, spot, plan))
    } else {
        None
    }
}

/// Whether a plan was carried out in incoming with the files of a bundle.
pub fn fill_from<D: Dir, B: Bundle>(
    alloc: Global,
    dir: &mut D,
    bundle: &mut B,
    plan: &[PlanEntry],
) -> Built
    requires { IsActive (D.shown dir.old).local }
    ensures { (D.shown dir.new).local ≡ (D.shown dir.old).local }
{
    let mut source = BundleSource { bundle, root: "" };
    let built = fill(alloc, dir, &mut source, spot(Area::Incoming), plan);
    let BundleSource { bundle: _, root: _ } = source;
    built
}

/// Whether each of the processes kept the rules.
pub fn are_kept(page: &mut Page, dir: &MemoryDir) -> bool {
    let mut kept = true;
    'processes: for process in 1..4 {
        let keeps = page.made(keeps_rules(page.alloc(), dir.history(), process));
        kept = kept && keeps.unwrap_or(false);
    }
    kept
}

/// What came of a plan, in words.
pub fn built_text(built: Built) -> &'static str {
    match built {
        None => "no plan",
        Some(Ok(())) => "done",
        Some(Err(BuildError::Unlike(_))) => "unlike",
        Some(Err(BuildError::SourceFault)) => "source fault",
        Some(Err(BuildError::DirFault)) => "directory fault",
        Some(Err(BuildError::Stray)) => "stray",
        Some(Err(BuildError::NoMemory)) => "no memory",
    }
}

/// The place of the entry whose file is unlike.
pub fn unlike_place(built: Built) -> Option<usize> {
    match built {
        Some(Err(BuildError::Unlike(place))) => Some(place),
        _ => None,
    }
}
