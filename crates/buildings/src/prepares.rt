// A pod in prepare that is filled by a plan with a file of an image, under the gate of images or without it.
ghost use Rattle.std.specs.Prelude.{◌≡◌, IfOk};
ghost use Rattle.dir_trait.specs.Local.{nothing_local, IsActive};

use crate::imports::print_built;
use crate::rows::{Row, plan_of};
use crate::stage::{Built, DRAW, are_kept, fill, intent, lock_gate, lock_own, spot};
use crate::stands::standing;
use crate::steps::new_with_steps;
use dir_memory::MemoryDir;
use dir_trait::{Area, Dir, DirError, Kind, Mode};
use folder_building::{PlanEntry, StoreSource};
use scripts::{Page, ShortNames, Unread};
use std::alloc::Global;

// Makes the pod's folder, with its lock, and moves it to prepare.
fn begin_prepare<D: Dir>(alloc: Global, dir: &mut D) -> Result<(), DirError>
    requires { (D.shown dir.old).local ≡ nothing_local }
    ensures { IfOk result (λ done. IsActive (D.shown dir.new).local) }
{
    dir.begin(alloc, intent(Kind::Prepare, DRAW))?;
    let _gate = lock_gate(alloc, dir, Area::Embryo, Mode::Shared)?;
    dir.make_folder(alloc, spot(Area::Embryo))?;
    lock_own(alloc, dir, spot(Area::Embryo), Mode::Exclusive)?;
    dir.move_folder(alloc, spot(Area::Embryo), spot(Area::Prepare))
}

// Carries out the plan. The gate of images is held meanwhile, or not.
fn fill_pod<D: Dir>(alloc: Global, dir: &mut D, plan: &[PlanEntry], gated: bool) -> Built
    requires { IsActive (D.shown dir.old).local }
    ensures { IsActive (D.shown dir.new).local }
{
    if gated && lock_gate(alloc, dir, Area::Images, Mode::Shared).is_err() {
        return None;
    }
    let mut source = StoreSource;
    let built = fill(alloc, dir, &mut source, spot(Area::Prepare), plan);
    let StoreSource = source;
    built
}

// What comes of a plan for a pod, and whether it was then moved to prepared.
fn print_told(page: &mut Page, dir: MemoryDir, plan: &[PlanEntry], rows: &[Row], gated: bool)
    requires { dir.local ≡ nothing_local }
{
    let mut dir = dir;
    if begin_prepare(page.alloc(), &mut dir).is_err() {
        return page.unread(Unread::Process);
    }
    let built = fill_pod(page.alloc(), &mut dir, plan, gated);
    let whole = standing(page, &mut dir, spot(Area::Prepare), rows);
    let moved = dir
        .move_folder(page.alloc(), spot(Area::Prepare), spot(Area::Prepared))
        .is_ok();
    page.put("  ");
    print_built(page, built, whole);
    if moved {
        page.put(", moved to prepared");
    }
    if !are_kept(page, &dir) {
        page.put(", a rule is broken");
    }
    page.put("\n");
}

/// Prints what comes of a pod of these rows, among the steps of the lines.
pub fn print_prepared(
    page: &mut Page,
    names: &ShortNames,
    block: &[&str],
    rows: &[Row],
    gated: bool,
) {
    let plan = plan_of(page, names, rows);
    match new_with_steps(page, names, block) {
        Ok(dir) => print_told(page, dir, plan.as_slice(), rows, gated),
        Err(_) => page.no_memory(),
    }
}
