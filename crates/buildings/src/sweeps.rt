// What a killed importer left is moved to removed and deleted there, among the steps of others.
ghost use Rattle.std.specs.Prelude.{◌≡◌, IfOk, IfSome};
ghost use Rattle.dir_trait.specs.Local.{nothing_local, IsActive, IsOpen};

use crate::rows::{Row, bundle_of, plan_of};
use crate::stage::{NEXT, are_kept, begin_import, fill_from, intent, lock_gate, spot};
use crate::steps::with_steps;
use dir_memory::{MemoryBundle, MemoryDir};
use dir_trait::{Area, Dir, DirError, Handle, Kind, Mode};
use folder_building::PlanEntry;
use folder_removal::delete_folder;
use scripts::{Page, ShortNames, Unread, print_reply};
use std::alloc::Global;

// The folder after an import that was killed once it was filled, for process 2.
fn left(page: &mut Page, bundle: &mut MemoryBundle, plan: &[PlanEntry]) -> Option<MemoryDir>
    ensures { IfSome result (λ dir. dir.local ≡ nothing_local) }
{
    let Ok(dir) = MemoryDir::new(page.alloc(), 1) else {
        return None;
    };
    let mut dir = dir;
    let Ok(_gate) = begin_import(page.alloc(), &mut dir) else {
        return None;
    };
    let built = fill_from(page.alloc(), &mut dir, bundle, plan);
    if built != Some(Ok(())) || dir.has_begun(2) {
        return None;
    }
    Some(dir.next_process(2))
}

// Moves the folder from incoming to removed, under both gates. Answers that of removed.
fn put_away<D: Dir>(alloc: Global, dir: &mut D) -> Result<Handle, DirError>
    requires { (D.shown dir.old).local ≡ nothing_local }
    ensures active { IfOk result (λ gate. IsActive (D.shown dir.new).local) }
    ensures open { IfOk result (λ gate. IsOpen (D.shown dir.new).local gate) }
{
    dir.begin(alloc, intent(Kind::ImageGc, NEXT))?;
    let _gate = lock_gate(alloc, dir, Area::Incoming, Mode::Exclusive)?;
    dir.move_folder(alloc, spot(Area::Incoming), spot(Area::Removed))?;
    lock_gate(alloc, dir, Area::Removed, Mode::Exclusive)
}

// Puts the folder away and deletes it. Answers how many folders removed has once the gate was given up.
fn sweep<D: Dir>(alloc: Global, dir: &mut D) -> Option<usize>
    requires { (D.shown dir.old).local ≡ nothing_local }
{
    let gate = put_away(alloc, dir).ok()?;
    let deleted = delete_folder(alloc, dir, spot(Area::Removed));
    dir.close(gate);
    let names = dir.list_area(alloc, Area::Removed).ok()?;
    deleted.ok()?;
    Some(names.as_slice().len())
}

fn print_answers(page: &mut Page, names: &ShortNames, dir: &MemoryDir, process: u32) {
    for event in dir.history().as_slice() {
        if event.process == process {
            page.put("  process ");
            page.tell(&process);
            page.put(": ");
            print_reply(page, names, &event.reply);
            page.put("\n");
        }
    }
}

fn print_count(page: &mut Page, swept: Option<usize>) {
    match swept {
        Some(count) => {
            page.put("  swept: ");
            page.tell(&count);
            page.put(" folders stand in removed\n");
        }
        None => page.put("  not swept\n"),
    }
}

fn print_sweep(page: &mut Page, names: &ShortNames, dir: MemoryDir)
    requires { dir.local ≡ nothing_local }
{
    let mut dir = dir;
    let swept = sweep(page.alloc(), &mut dir);
    print_count(page, swept);
    print_answers(page, names, &dir, 3);
    if !are_kept(page, &dir) {
        page.put("  a rule is broken\n");
    }
}

// The folder with what an importer left, and the steps of the lines.
fn met(page: &mut Page, names: &ShortNames, block: &[&str], plan: &[PlanEntry]) -> Option<MemoryDir>
    ensures { IfSome result (λ dir. dir.local ≡ nothing_local) }
{
    let mut bundle = bundle_of(page, block)?;
    let dir = left(page, &mut bundle, plan)?;
    match with_steps(page, names, dir, block) {
        Ok(dir) => Some(dir),
        Err(_) => None,
    }
}

/// Prints what comes of a sweep by process 2 of what process 1 left, and what process 3 is answered.
pub fn print_swept(page: &mut Page, names: &ShortNames, block: &[&str], rows: &[Row]) {
    let plan = plan_of(page, names, rows);
    match met(page, names, block, plan.as_slice()) {
        Some(dir) => print_sweep(page, names, dir),
        None => page.unread(Unread::Process),
    }
}
