// A folder in incoming that is filled by a plan: as a whole, and where a call fails, the process is killed
// before one, or the bundle fails.
ghost use Rattle.std.specs.Prelude.{◌≡◌, IfOk};
ghost use Rattle.dir_trait.specs.Local.{nothing_local, IsActive};

use crate::rows::{Row, bundle_of, plan_of};
use crate::stage::{
    Built, NEXT, are_kept, begin_import, built_text, fill_from, intent, lock_gate, spot,
    unlike_place,
};
use crate::stands::standing;
use dir_memory::{MemoryBundle, MemoryDir};
use dir_trait::{Area, Bundle, Dir, Kind, Mode, Name, NoMemory, Spot};
use folder_building::PlanEntry;
use scripts::{Page, ShortNames, Unread};
use std::alloc::Global;

const KEY: &str = "sha512-aaaaaaaaaaaaaaaaaaaaaaaaaaaaaaaaaaaaaaaaaaaaaaaaaaaaaaaaaaaaaaaa";

/// What breaks in an import: nothing, a call on the directory, a read of the bundle, or the process, which
/// is killed before a call.
#[derive(Clone, Copy)]
pub enum Break {
    Nothing,
    Call(u64),
    Read(u64),
    Kill(u64),
}

/// What came of a plan.
#[derive(Clone, Copy)]
pub struct Told {
    built: Built,
    /// How many entries stand, where nothing else does.
    whole: Option<usize>,
    /// How often the directory failed.
    faults: u64,
    kept: bool,
    /// Whether the folder was then moved to images, each process keeping the rules.
    brought: bool,
    /// Whether the gate can be had exclusively after it was given up.
    freed: bool,
}

fn gate_is_free<D: Dir>(alloc: Global, dir: &mut D) -> bool
    requires { IsActive (D.shown dir.old).local }
    ensures { IsActive (D.shown dir.new).local }
{
    lock_gate(alloc, dir, Area::Incoming, Mode::Exclusive).is_ok()
}

fn bring<D: Dir>(alloc: Global, dir: &mut D) -> bool
    requires { IsActive (D.shown dir.old).local }
    ensures { (D.shown dir.new).local ≡ (D.shown dir.old).local }
{
    match Name::of(KEY) {
        Some(name) => {
            let to = Spot {
                area: Area::Images,
                name,
            };
            dir.move_folder(alloc, spot(Area::Incoming), to).is_ok()
        }
        None => false,
    }
}

// What comes of the plan, carried out by an importer.
fn told_of(
    page: &mut Page,
    dir: MemoryDir,
    bundle: &mut MemoryBundle,
    plan: &[PlanEntry],
    rows: &[Row],
) -> Option<Told>
    requires { dir.local ≡ nothing_local }
{
    let mut dir = dir;
    let Ok(gate) = begin_import(page.alloc(), &mut dir) else {
        return None;
    };
    let built = fill_from(page.alloc(), &mut dir, bundle, plan);
    let faults = dir.fault_count();
    let whole = standing(page, &mut dir, spot(Area::Incoming), rows);
    let kept = are_kept(page, &dir);
    let moved = bring(page.alloc(), &mut dir);
    let brought = moved && are_kept(page, &dir);
    dir.close(gate);
    let freed = gate_is_free(page.alloc(), &mut dir);
    Some(Told {
        built,
        whole,
        faults,
        kept,
        brought,
        freed,
    })
}

// What the next process finds that an importer left, which is killed if it wasn't before.
fn told_by_next(page: &mut Page, dir: MemoryDir, rows: &[Row], built: Built) -> Option<Told> {
    if dir.has_begun(2) {
        return None;
    }
    let mut dir = dir.next_process(2);
    let Ok(()) = dir.begin(page.alloc(), intent(Kind::ImageGc, NEXT)) else {
        return None;
    };
    let freed = gate_is_free(page.alloc(), &mut dir);
    let whole = standing(page, &mut dir, spot(Area::Incoming), rows);
    Some(Told {
        built,
        whole,
        faults: 0,
        kept: are_kept(page, &dir),
        brought: false,
        freed,
    })
}

fn told_of_killed(
    page: &mut Page,
    dir: MemoryDir,
    bundle: &mut MemoryBundle,
    plan: &[PlanEntry],
    rows: &[Row],
) -> Option<Told>
    requires { dir.local ≡ nothing_local }
{
    let mut dir = dir;
    let Ok(_gate) = begin_import(page.alloc(), &mut dir) else {
        return None;
    };
    let built = fill_from(page.alloc(), &mut dir, bundle, plan);
    told_by_next(page, dir, rows, built)
}

// The folder of process 1 in which a call fails, or before which that is killed.
fn broken_dir(alloc: Global, breaks: Break) -> Result<MemoryDir, NoMemory>
    ensures { IfOk result (λ dir. dir.local ≡ nothing_local) }
{
    let dir = MemoryDir::new(alloc, 1)?;
    match breaks {
        Break::Call(call) if call >= 2 => dir.fail(alloc, call),
        Break::Kill(call) if call >= 2 => Ok(dir.stop(call)),
        _ => Ok(dir),
    }
}

// Prints what comes of the plan with that bundle.
fn print_import_of(
    page: &mut Page,
    bundle: MemoryBundle,
    plan: &[PlanEntry],
    rows: &[Row],
    breaks: Break,
) {
    let mut bundle = bundle;
    let Ok(dir) = broken_dir(page.alloc(), breaks) else {
        return page.no_memory();
    };
    let killed = matches!(breaks, Break::Kill(_));
    let told = if killed {
        told_of_killed(page, dir, &mut bundle, plan, rows)
    } else {
        told_of(page, dir, &mut bundle, plan, rows)
    };
    match told {
        Some(told) if killed => print_told(page, &told, 0),
        Some(told) => print_told(page, &told, bundle.faults()),
        None => page.unread(Unread::Process),
    }
}

// The bundle of the lines, of which a read fails.
fn broken_bundle(page: &mut Page, block: &[&str], breaks: Break) -> Option<MemoryBundle> {
    let bundle = bundle_of(page, block)?;
    match breaks {
        Break::Read(read) => page.made(bundle.fail(page.alloc(), read)),
        _ => Some(bundle),
    }
}

/// Prints what comes of the plan of the rows with the files of the lines.
pub fn print_import(
    page: &mut Page,
    names: &ShortNames,
    block: &[&str],
    rows: &[Row],
    breaks: Break,
) {
    if matches!(breaks, Break::Call(0 | 1) | Break::Kill(0 | 1)) {
        page.unread(Unread::Number);
    }
    let plan = plan_of(page, names, rows);
    if let Some(bundle) = broken_bundle(page, block, breaks) {
        print_import_of(page, bundle, plan.as_slice(), rows, breaks);
    }
}

/// Prints what came of a plan, and how many of its entries stand.
pub fn print_built(page: &mut Page, built: Built, whole: Option<usize>) {
    page.put(built_text(built));
    if let Some(place) = unlike_place(built) {
        page.put(" ");
        page.tell(&place);
    }
    match whole {
        Some(count) => {
            page.put(": ");
            page.tell(&count);
            page.put(" stand");
        }
        None => page.put(": something else stands"),
    }
}

fn print_count(page: &mut Page, title: &str, count: u64) {
    if count > 0 {
        page.put(title);
        page.tell(&count);
    }
}

// Prints what came of an import, and how often the bundle failed.
fn print_told(page: &mut Page, told: &Told, bundle_faults: u64) {
    print_built(page, told.built, told.whole);
    print_count(page, ", faults: ", told.faults);
    print_count(page, ", faults of the bundle: ", bundle_faults);
    if told.brought {
        page.put(", moved to images");
    }
    if !told.kept {
        page.put(", a rule is broken");
    }
    if !told.freed {
        page.put(", the gate is held");
    }
    page.put("\n");
}
