// The area lock of images, and what stands there under it.
ghost use Rattle.std.specs.Prelude.{◌≡◌, ◌≢◌, ◌≤◌, true, false, IfOk, IfErr, Ok, Some};
ghost use Rattle.dir_rules.specs.declared.seen.Seen.{Seen};
ghost use Rattle.dir_trait.specs.Local.{IsActive, IsUnopened};
ghost use Rattle.dir_trait.specs.DirCalls.{ExtendsBy, HeldBetween};
ghost use Rattle.dir_trait.specs.Knowledge.{Knows};
ghost use Rattle.dir_files.specs.AreaLocks.{is_taking_area, and_area_lock, with_gate, is_free_of};
ghost use Rattle.image_reading.specs.Places.{IsImageAbsent};
ghost use Rattle.image_reading.specs.Looks.{OnlyReadsImage};
ghost use Rattle.image_store.specs.Causes.{LockCause, LookCause, ImportBusyElsewhere, WasThere};

use crate::error::lock_refusal;
use ac_types::StoreKey;
use dir_files::lock_area;
use dir_trait::{Area, Dir, Handle, Mode};
use image_reading::{StoreError, stored_digest};
use std::alloc::Global;

/// The lock of an area, had shared. `Busy` with the area where another process holds it exclusively,
/// `DirFault` where the directory failed, `NoMemory` where memory ran out; refused, it leaves no handle
/// open.
pub(crate) fn share<D: Dir>(alloc: Global, dir: &mut D, area: Area) -> Result<Handle, StoreError>
    requires active { IsActive (D.shown dir.old).local }
    ensures same { (D.shown dir.new).process ≡ (D.shown dir.old).process }
    ensures faults { (D.shown dir.old).faults ≤ (D.shown dir.new).faults }
    ensures held { IfOk result (λ handle. (D.shown dir.new).local ≡ and_area_lock (D.shown dir.old).local handle area Mode.Shared) }
    ensures refused { IfErr result (λ e. (D.shown dir.new).local ≡ (D.shown dir.old).local) }
    ensures unopened { IfOk result (λ handle. IsUnopened (D.shown dir.old).local handle) }
    ensures extends { D.observed ≡ true → ExtendsBy (is_taking_area area Mode.Shared) (D.shown dir.old) (D.shown dir.new) }
    ensures cause { IfErr result (λ e. LockCause D.observed area e (D.shown dir.old) (D.shown dir.new)) }
    ensures by_other_process { IfErr result (λ e. D.observed ≡ true → (s : Seen) → Knows (D.shown dir.old) s → is_free_of area s ≡ true
        → ImportBusyElsewhere e (D.shown dir.old) (D.shown dir.new)) }
    ensures taken { IfOk result (λ handle. D.observed ≡ true → (s : Seen) → Knows (D.shown dir.old) s → is_free_of area s ≡ true
        → Knows (D.shown dir.new) (with_gate s handle area (Some Mode.Shared))) }
    ensures left { IfErr result (λ e. D.observed ≡ true → (s : Seen) → Knows (D.shown dir.old) s → is_free_of area s ≡ true → Knows (D.shown dir.new) s) }
{
    match lock_area(alloc, dir, area, Mode::Shared) {
        Ok(handle) => Ok(handle),
        Err(error) => Err(lock_refusal(area, error)),
    }
}

/// The area lock of images, had shared: while it is held, no image goes from there. `Busy` where another
/// process holds it exclusively, `DirFault` where the directory failed, `NoMemory` where memory ran out.
pub fn open_store<D: Dir>(alloc: Global, dir: &mut D) -> Result<Handle, StoreError>
    requires active { IsActive (D.shown dir.old).local }
    ensures same { (D.shown dir.new).process ≡ (D.shown dir.old).process }
    ensures faults { (D.shown dir.old).faults ≤ (D.shown dir.new).faults }
    ensures held { IfOk result (λ handle. (D.shown dir.new).local ≡ and_area_lock (D.shown dir.old).local handle Area.Images Mode.Shared) }
    ensures refused { IfErr result (λ e. (D.shown dir.new).local ≡ (D.shown dir.old).local) }
    ensures unopened { IfOk result (λ handle. IsUnopened (D.shown dir.old).local handle) }
    ensures extends { D.observed ≡ true → ExtendsBy (is_taking_area Area.Images Mode.Shared) (D.shown dir.old) (D.shown dir.new) }
    ensures cause { IfErr result (λ e. LockCause D.observed Area.Images e (D.shown dir.old) (D.shown dir.new)) }
    ensures by_other_process { IfErr result (λ e. D.observed ≡ true → (s : Seen) → Knows (D.shown dir.old) s → is_free_of Area.Images s ≡ true
        → ImportBusyElsewhere e (D.shown dir.old) (D.shown dir.new)) }
    ensures taken { IfOk result (λ handle. D.observed ≡ true → (s : Seen) → Knows (D.shown dir.old) s → is_free_of Area.Images s ≡ true
        → Knows (D.shown dir.new) (with_gate s handle Area.Images (Some Mode.Shared))) }
    ensures left { IfErr result (λ e. D.observed ≡ true → (s : Seen) → Knows (D.shown dir.old) s → is_free_of Area.Images s ≡ true → Knows (D.shown dir.new) s) }
{
    share(alloc, dir, Area::Images)
}

// The image that stands there has this digest, or it is another.
fn is_same(key: StoreKey, stored: [u8; 64], digest: &[u8; 64]) -> Result<bool, StoreError>
    ensures same { IfOk result (λ there. (there ≡ true) × (stored ≡ digest.now)) }
    ensures other { IfErr result (λ e. (e ≡ StoreError.IdConflict key stored digest.now) × (stored ≢ digest.now)) }
{
    if stored == *digest {
        Ok(true)
    } else {
        Err(StoreError::IdConflict(key, stored, *digest))
    }
}

/// Whether the image stands there, with this digest. Refused where one with another digest does.
pub(crate) fn is_there<D: Dir>(
    alloc: Global,
    dir: &mut D,
    key: StoreKey,
    digest: &[u8; 64],
) -> Result<bool, StoreError>
    requires active { IsActive (D.shown dir.old).local }
    ensures only { OnlyReadsImage D.observed key (D.shown dir.old) (D.shown dir.new) }
    ensures absent { result ≡ Ok false → D.observed ≡ true → HeldBetween (D.shown dir.old) (D.shown dir.new) (IsImageAbsent key) }
    ensures there { result ≡ Ok true → D.observed ≡ true → WasThere key digest.now (D.shown dir.old) (D.shown dir.new) }
    ensures cause { IfErr result (λ e. LookCause D.observed key digest.now e (D.shown dir.old) (D.shown dir.new)) }
{
    match stored_digest(alloc, dir, key) {
        Ok(None) => Ok(false),
        Ok(Some(stored)) => is_same(key, stored, digest),
        Err(error) => Err(error),
    }
}
