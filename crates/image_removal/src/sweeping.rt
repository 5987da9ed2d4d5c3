// The sweep of what dead processes left in the store.
ghost use Rattle.std.specs.Prelude.{◌≡◌, ◌++◌, ◌∷◌, [], true, IfOk, IfErr, IsErrOf};
ghost use Rattle.dir_rules.specs.declared.seen.Seen.{Seen};
ghost use Rattle.dir_model.specs.declared.request.Reply.TheVariants.{Done};
ghost use Rattle.dir_trait.specs.Local.{IsActive};
ghost use Rattle.dir_trait.specs.Knowledge.{Knows};
ghost use Rattle.dir_trait.specs.Effects.{OnlyAsks};
ghost use Rattle.dir_files.specs.AreaLocks.{is_free_of};
ghost use Rattle.lifecycle.specs.Executions.{IsConforming};
ghost use Rattle.image_removal.specs.Requests.{sweeps_store};
ghost use Rattle.image_removal.specs.Passes.{area_of_pass, line_of, pass_request_of, deals_with_folder, deals_with_folders};
ghost use Rattle.image_removal.specs.Calls.{WasCalled};
ghost use Rattle.image_removal.specs.Causes.{is_fault_refusal, RemovalWorkCause};
ghost use Rattle.image_removal.specs.Ended.{EndsAtBetween, EndsAmongFoldersBetween, EndsStoreListingBetween, EndsStorePassBetween, EndsImageSweepBetween};
ghost use Rattle.image_removal.specs.Sweeps.{AddsSweepLines, AddsLines, HasListed, WasListed, SweepsBetween, TriesBetween, PassedBetween, TriedBetween, IsStoreSweptBetween, HasTriedBetween, BusyNow, BusyApart};
ghost use Rattle.image_removal.specs.Work.{HoldsArea, MayPassStore, MaySweepStore, KeepsStandingAndRules, StaysBare, Stays};

use crate::deletion::delete;
use crate::error::change_refusal;
use crate::pass::{Pass, SweepLine};
use crate::place::is_uuid;
use crate::putting::put_away;
use dir_files::{LockError, lock_area, names_of, unlock_area};
use dir_trait::{Dir, Mode, Name};
use image_reading::StoreError;
use std::alloc::Global;

// Deals with the folder of this name, under the lock of the pass's area.
fn deal<D: Dir>(alloc: Global, dir: &mut D, pass: Pass, name: Name) -> Result<(), StoreError>
    requires active { IsActive (D.shown dir.old).local }
    ensures worked { OnlyAsks D.observed (deals_with_folder pass name) (D.shown dir.old) (D.shown dir.new) }
    ensures cause { IfErr result (λ e. RemovalWorkCause D.observed e (D.shown dir.old) (D.shown dir.new)) }
    ensures done { IfOk result (λ done. D.observed ≡ true
        → WasCalled (pass_request_of pass name) Done (D.shown dir.old).process (D.shown dir.old).trace (D.shown dir.new).trace) }
    ensures stays { IfOk result (λ done. D.observed ≡ true → Stays (HoldsArea (area_of_pass pass)) StaysBare (D.shown dir.old) (D.shown dir.new)) }
    ensures left { IfErr result (λ e. D.observed ≡ true → Stays (HoldsArea (area_of_pass pass)) KeepsStandingAndRules (D.shown dir.old) (D.shown dir.new)) }
    ensures lawful { IsErrOf result StoreError.Stray → D.observed ≡ true → (s : Seen) → Knows (D.shown dir.old) s → HoldsArea (area_of_pass pass) s
        → WasListed pass name (D.shown dir.old).process (D.shown dir.old).trace → IsConforming (D.shown dir.new).trace → ⊥ }
{
    match pass {
        Pass::PutAway => put_away(alloc, dir, name),
        Pass::Delete => delete(alloc, dir, name),
    }
}

fn push(lines: &mut Vec<SweepLine>, line: SweepLine) -> Result<(), StoreError>
    ensures items { IfOk result (λ done. lines.new.items ≡ lines.old.items ++ line ∷ []) }
    ensures memory { IfErr result (λ e. e ≡ StoreError.NoMemory) }
{
    match lines.push(line) {
        Ok(()) => Ok(()),
        Err(_) => Err(StoreError::NoMemory),
    }
}

// Deals with a folder that was listed, and says so. A folder whose name isn't a uuid is passed over.
fn sweep_next<D: Dir>(
    alloc: Global,
    dir: &mut D,
    pass: Pass,
    name: &Name,
    lines: &mut Vec<SweepLine>,
) -> Result<(), StoreError>
    requires active { IsActive (D.shown dir.old).local }
    ensures worked { OnlyAsks D.observed (deals_with_folders pass (name.now ∷ [])) (D.shown dir.old) (D.shown dir.new) }
    ensures cause { IfErr result (λ e. RemovalWorkCause D.observed e (D.shown dir.old) (D.shown dir.new)) }
    ensures swept { IfOk result (λ done. AddsLines D.observed pass (name.now ∷ []) lines.old.items lines.new.items (D.shown dir.old) (D.shown dir.new)) }
    ensures ended { IfErr result (λ e. D.observed ≡ true → EndsAtBetween pass name.now (D.shown dir.old) (D.shown dir.new)) }
    ensures stays { IfOk result (λ done. D.observed ≡ true → Stays (HoldsArea (area_of_pass pass)) StaysBare (D.shown dir.old) (D.shown dir.new)) }
    ensures left { IfErr result (λ e. D.observed ≡ true → Stays (HoldsArea (area_of_pass pass)) KeepsStandingAndRules (D.shown dir.old) (D.shown dir.new)) }
    ensures lawful { IsErrOf result StoreError.Stray → D.observed ≡ true → (s : Seen) → Knows (D.shown dir.old) s → HoldsArea (area_of_pass pass) s
        → WasListed pass name.now (D.shown dir.old).process (D.shown dir.old).trace → IsConforming (D.shown dir.new).trace → ⊥ }
{
    if is_uuid(name) {
        deal(alloc, dir, pass, *name)?;
        push(lines, pass.line(*name))
    } else {
        Ok(())
    }
}

// Deals with each folder that was listed.
fn sweep_each<D: Dir>(
    alloc: Global,
    dir: &mut D,
    pass: Pass,
    names: &[Name],
    lines: &mut Vec<SweepLine>,
) -> Result<(), StoreError>
    requires active { IsActive (D.shown dir.old).local }
    ensures worked { OnlyAsks D.observed (deals_with_folders pass names.now) (D.shown dir.old) (D.shown dir.new) }
    ensures cause { IfErr result (λ e. RemovalWorkCause D.observed e (D.shown dir.old) (D.shown dir.new)) }
    ensures swept { IfOk result (λ done. AddsLines D.observed pass names.now lines.old.items lines.new.items (D.shown dir.old) (D.shown dir.new)) }
    ensures ended { IfErr result (λ e. D.observed ≡ true → EndsAmongFoldersBetween pass names.now (D.shown dir.old) (D.shown dir.new)) }
    ensures stays { IfOk result (λ done. D.observed ≡ true → Stays (HoldsArea (area_of_pass pass)) StaysBare (D.shown dir.old) (D.shown dir.new)) }
    ensures left { IfErr result (λ e. D.observed ≡ true → Stays (HoldsArea (area_of_pass pass)) KeepsStandingAndRules (D.shown dir.old) (D.shown dir.new)) }
    ensures lawful { IsErrOf result StoreError.Stray → D.observed ≡ true → (s : Seen) → Knows (D.shown dir.old) s → HoldsArea (area_of_pass pass) s
        → HasListed pass names.now (D.shown dir.old).process (D.shown dir.old).trace → IsConforming (D.shown dir.new).trace → ⊥ }
{
    'names: for name in names {
        sweep_next(alloc, dir, pass, name, lines)?;
    }
    Ok(())
}

// Lists the area, under its lock, and deals with each folder.
fn sweep_listed<D: Dir>(
    alloc: Global,
    dir: &mut D,
    pass: Pass,
    lines: &mut Vec<SweepLine>,
) -> Result<(), StoreError>
    requires active { IsActive (D.shown dir.old).local }
    ensures worked { OnlyAsks D.observed sweeps_store (D.shown dir.old) (D.shown dir.new) }
    ensures cause { IfErr result (λ e. RemovalWorkCause D.observed e (D.shown dir.old) (D.shown dir.new)) }
    ensures swept { IfOk result (λ done. D.observed ≡ true → AddsSweepLines (SweepsBetween pass (D.shown dir.old) (D.shown dir.new)) lines.old.items lines.new.items) }
    ensures tried { IfErr result (λ e. D.observed ≡ true → TriesBetween pass (D.shown dir.old) (D.shown dir.new)) }
    ensures ended { IfErr result (λ e. D.observed ≡ true → EndsStoreListingBetween pass (D.shown dir.old) (D.shown dir.new)) }
    ensures stays { IfOk result (λ done. D.observed ≡ true → Stays (HoldsArea (area_of_pass pass)) StaysBare (D.shown dir.old) (D.shown dir.new)) }
    ensures left { IfErr result (λ e. D.observed ≡ true → Stays (HoldsArea (area_of_pass pass)) KeepsStandingAndRules (D.shown dir.old) (D.shown dir.new)) }
    ensures lawful { IsErrOf result StoreError.Stray → D.observed ≡ true → (s : Seen) → Knows (D.shown dir.old) s → HoldsArea (area_of_pass pass) s
        → IsConforming (D.shown dir.new).trace → ⊥ }
{
    match names_of(alloc, dir, pass.area()) {
        Ok(names) => sweep_each(alloc, dir, pass, names.as_slice(), lines),
        Err(error) => Err(change_refusal(error)),
    }
}

// Where the lock of an area is busy, that is the line.
fn busy_line(pass: Pass, error: LockError, lines: &mut Vec<SweepLine>) -> Result<(), StoreError>
    ensures busy { IfOk result (λ done. (error ≡ LockError.Busy) × (lines.new.items ≡ lines.old.items ++ SweepLine.BusyGate (area_of_pass pass) ∷ [])) }
    ensures fault { IsErrOf result StoreError.DirFault → error ≡ LockError.DirFault }
    ensures kind { IfErr result (λ e. is_fault_refusal e ≡ true) }
{
    match error {
        LockError::Busy => push(lines, SweepLine::BusyGate(pass.area())),
        LockError::DirFault => Err(StoreError::DirFault),
        LockError::NoMemory => Err(StoreError::NoMemory),
    }
}

// Takes the lock of the pass's area, deals with what stands there and gives the lock up.
fn sweep_area<D: Dir>(
    alloc: Global,
    dir: &mut D,
    pass: Pass,
    lines: &mut Vec<SweepLine>,
) -> Result<(), StoreError>
    requires active { IsActive (D.shown dir.old).local }
    ensures worked { OnlyAsks D.observed sweeps_store (D.shown dir.old) (D.shown dir.new) }
    ensures cause { IfErr result (λ e. RemovalWorkCause D.observed e (D.shown dir.old) (D.shown dir.new)) }
    ensures passed { IfOk result (λ done. D.observed ≡ true
        → AddsSweepLines (PassedBetween BusyNow pass (D.shown dir.old) (D.shown dir.new)) lines.old.items lines.new.items) }
    ensures by_other_process { IfOk result (λ done. D.observed ≡ true → (s : Seen) → Knows (D.shown dir.old) s → is_free_of (area_of_pass pass) s ≡ true
        → AddsSweepLines (PassedBetween (BusyApart (D.shown dir.old).process) pass (D.shown dir.old) (D.shown dir.new)) lines.old.items lines.new.items) }
    ensures tried { IfErr result (λ e. D.observed ≡ true → TriedBetween pass (D.shown dir.old) (D.shown dir.new)) }
    ensures ended { IfErr result (λ e. D.observed ≡ true → EndsStorePassBetween pass (D.shown dir.old) (D.shown dir.new)) }
    ensures stays { IfOk result (λ done. D.observed ≡ true → Stays (MayPassStore (area_of_pass pass)) StaysBare (D.shown dir.old) (D.shown dir.new)) }
    ensures left { IfErr result (λ e. D.observed ≡ true → Stays (MayPassStore (area_of_pass pass)) KeepsStandingAndRules (D.shown dir.old) (D.shown dir.new)) }
    ensures lawful { IsErrOf result StoreError.Stray → D.observed ≡ true → (s : Seen) → Knows (D.shown dir.old) s → MayPassStore (area_of_pass pass) s
        → IsConforming (D.shown dir.new).trace → ⊥ }
{
    match lock_area(alloc, dir, pass.area(), Mode::Exclusive) {
        Ok(gate) => {
            let result = sweep_listed(alloc, dir, pass, lines);
            unlock_area(dir, gate);
            result
        }
        Err(error) => busy_line(pass, error, lines),
    }
}

// Both passes, one after the other.
fn sweep_both<D: Dir>(
    alloc: Global,
    dir: &mut D,
    lines: &mut Vec<SweepLine>,
) -> Result<(), StoreError>
    requires active { IsActive (D.shown dir.old).local }
    ensures worked { OnlyAsks D.observed sweeps_store (D.shown dir.old) (D.shown dir.new) }
    ensures cause { IfErr result (λ e. RemovalWorkCause D.observed e (D.shown dir.old) (D.shown dir.new)) }
    ensures swept { IfOk result (λ done. D.observed ≡ true
        → AddsSweepLines (IsStoreSweptBetween BusyNow (D.shown dir.old) (D.shown dir.new)) lines.old.items lines.new.items) }
    ensures swept_unless_another { IfOk result (λ done. D.observed ≡ true → (s : Seen) → Knows (D.shown dir.old) s → MaySweepStore s
        → AddsSweepLines (IsStoreSweptBetween (BusyApart (D.shown dir.old).process) (D.shown dir.old) (D.shown dir.new)) lines.old.items lines.new.items) }
    ensures tried { IfErr result (λ e. D.observed ≡ true → HasTriedBetween (D.shown dir.old) (D.shown dir.new)) }
    ensures ended { IfErr result (λ e. D.observed ≡ true → EndsImageSweepBetween (D.shown dir.old) (D.shown dir.new)) }
    ensures conforms { D.observed ≡ true → Stays MaySweepStore KeepsStandingAndRules (D.shown dir.old) (D.shown dir.new) }
    ensures lawful { IsErrOf result StoreError.Stray → D.observed ≡ true → (s : Seen) → Knows (D.shown dir.old) s → MaySweepStore s
        → IsConforming (D.shown dir.new).trace → ⊥ }
{
    sweep_area(alloc, dir, Pass::PutAway, lines)?;
    sweep_area(alloc, dir, Pass::Delete, lines)
}

/// Sweeps the store: moves each folder of incoming to removed, while it holds the lock of incoming
/// exclusively, so that no import is at work there; then deletes each folder of removed, under that area's
/// lock. A lock that another process holds is a line, and that area is left as it is. A folder whose name
/// isn't a uuid is passed over.
///
/// `Stray`, where the directory's answers contradict what the locks keep; `DirFault`, where it failed;
/// `NoMemory`, where memory ran out: then the sweep ends in the turn of the folder at which it failed. No
/// lock is held afterwards.
pub fn sweep<D: Dir>(alloc: Global, dir: &mut D) -> Result<Vec<SweepLine>, StoreError>
    requires active { IsActive (D.shown dir.old).local }
    ensures worked { OnlyAsks D.observed sweeps_store (D.shown dir.old) (D.shown dir.new) }
    ensures cause { IfErr result (λ e. RemovalWorkCause D.observed e (D.shown dir.old) (D.shown dir.new)) }
    ensures swept { IfOk result (λ lines. D.observed ≡ true
        → IsStoreSweptBetween BusyNow (D.shown dir.old) (D.shown dir.new) lines.items) }
    ensures swept_unless_another { IfOk result (λ lines. D.observed ≡ true → (s : Seen) → Knows (D.shown dir.old) s → MaySweepStore s
        → IsStoreSweptBetween (BusyApart (D.shown dir.old).process) (D.shown dir.old) (D.shown dir.new) lines.items) }
    ensures tried { IfErr result (λ e. D.observed ≡ true → HasTriedBetween (D.shown dir.old) (D.shown dir.new)) }
    ensures ended { IfErr result (λ e. D.observed ≡ true → EndsImageSweepBetween (D.shown dir.old) (D.shown dir.new)) }
    ensures conforms { D.observed ≡ true → Stays MaySweepStore KeepsStandingAndRules (D.shown dir.old) (D.shown dir.new) }
    ensures lawful { IsErrOf result StoreError.Stray → D.observed ≡ true → (s : Seen) → Knows (D.shown dir.old) s → MaySweepStore s
        → IsConforming (D.shown dir.new).trace → ⊥ }
{
    let mut lines = Vec::new(alloc);
    sweep_both(alloc, dir, &mut lines)?;
    Ok(lines)
}
