// The import of an image.
ghost use Rattle.std.specs.Prelude.{◌≡◌, ◌≤◌, true, false, None, Ok, Err, IfOk, IfErr, IsErrOf};
ghost use Rattle.dir_model.specs.Causes.{Rose};
ghost use Rattle.dir_trait.specs.Local.{IsActive};
ghost use Rattle.dir_trait.specs.Effects.{OnlyAsks};
ghost use Rattle.lifecycle.specs.Executions.{IsConforming};
ghost use Rattle.image_reading.specs.Places.{image_spot};
ghost use Rattle.image_store.specs.Refusals.{is_import_lock_refusal, is_import_work_refusal, is_import_refusal};
ghost use Rattle.image_store.specs.Requests.{building_spot, imports_at};
ghost use Rattle.image_store.specs.Work.{ImportsUnderImages, UnderImportLocks, IsAlone, WhereImporting};
ghost use Rattle.image_store.specs.Causes.{bundle_source_at, ImportBusyElsewhere, HadIncoming, WasThere, FoundInTurn, ImportCause};
ghost use Rattle.image_store.specs.Moves.{Moves, MovesAtEnd};
ghost use Rattle.image_store.specs.Imports.{key_of_image, digest_of, IsOf, OfBundle, IsImportRefused, RefusalComesInTurn, ImportLeaves, LeavesAtEnd, IsImported};

use crate::building::build;
use crate::error::{bundle_refusal, out_of_memory};
use crate::look::{is_there, share};
use crate::placing::place;
use ac_types::StoreKey;
use bundle_image::{BundleImage, read_bundle};
use dir_files::unlock_area;
use dir_trait::{Area, Bundle, Dir, PodId};
use image_reading::StoreError;
use std::alloc::Global;

/// What an import came to.
#[derive(Clone, Copy, Debug, PartialEq, Eq)]
pub struct Imported {
    /// The name under which the image is stored.
    pub key: StoreKey,
    /// Whether it was there already.
    pub there: bool,
}

// Builds the folder and brings it into images, under both locks.
fn build_and_place<D: Dir, B: Bundle>(
    alloc: Global,
    dir: &mut D,
    bundle: &mut B,
    path: &str,
    image: &BundleImage,
    digest: &[u8; 64],
    now: u64,
    draw: PodId,
) -> Result<bool, StoreError>
    requires active { IsActive (D.shown dir.old).local }
    ensures worked { OnlyAsks D.observed (imports_at (building_spot draw)) (D.shown dir.old) (D.shown dir.new) }
    ensures moves { D.observed ≡ true → Moves (building_spot draw) (key_of_image image.now) result (D.shown dir.old) (D.shown dir.new) }
    ensures bundle { (B.shown bundle.old).faults ≤ (B.shown bundle.new).faults }
    ensures bundle_cause { IsErrOf result StoreError.BundleFault → Rose (B.shown bundle.old).faults (B.shown bundle.new).faults }
    ensures cause { IfErr result (λ e. ImportCause is_import_work_refusal D.observed (bundle_source_at B.observed (B.shown bundle.old).tree path.now)
        (key_of_image image.now) digest.now image.now.listing e (D.shown dir.old) (D.shown dir.new)) }
    ensures there { result ≡ Ok true → D.observed ≡ true → WasThere (key_of_image image.now) digest.now (D.shown dir.old) (D.shown dir.new) }
    ensures leaves { D.observed ≡ true → WhereImporting draw UnderImportLocks false None (D.shown dir.old)
        (λ intent hs. ImportLeaves draw now image.now intent hs result (D.shown dir.old) (D.shown dir.new)) }
{
    build(alloc, dir, bundle, path, image, now, draw)?;
    place(alloc, dir, draw, StoreKey::of(image.id), digest)
}

// Imports an image that isn't there, under the lock of images.
fn import_new<D: Dir, B: Bundle>(
    alloc: Global,
    dir: &mut D,
    bundle: &mut B,
    path: &str,
    image: &BundleImage,
    digest: &[u8; 64],
    now: u64,
    draw: PodId,
) -> Result<bool, StoreError>
    requires active { IsActive (D.shown dir.old).local }
    ensures worked { OnlyAsks D.observed (imports_at (building_spot draw)) (D.shown dir.old) (D.shown dir.new) }
    ensures moves { D.observed ≡ true → Moves (building_spot draw) (key_of_image image.now) result (D.shown dir.old) (D.shown dir.new) }
    ensures bundle { (B.shown bundle.old).faults ≤ (B.shown bundle.new).faults }
    ensures bundle_cause { IsErrOf result StoreError.BundleFault → Rose (B.shown bundle.old).faults (B.shown bundle.new).faults }
    ensures cause { IfErr result (λ e. ImportCause is_import_refusal D.observed (bundle_source_at B.observed (B.shown bundle.old).tree path.now)
        (key_of_image image.now) digest.now image.now.listing e (D.shown dir.old) (D.shown dir.new)) }
    ensures locked { IfErr result (λ e. is_import_lock_refusal Area.Incoming e ≡ false → D.observed ≡ true → HadIncoming (D.shown dir.old) (D.shown dir.new)) }
    ensures by_other_process { IfErr result (λ e. D.observed ≡ true → WhereImporting draw ImportsUnderImages false None (D.shown dir.old)
        (λ intent hs. ImportBusyElsewhere e (D.shown dir.old) (D.shown dir.new))) }
    ensures there { result ≡ Ok true → D.observed ≡ true → WasThere (key_of_image image.now) digest.now (D.shown dir.old) (D.shown dir.new) }
    ensures leaves { D.observed ≡ true → WhereImporting draw ImportsUnderImages false None (D.shown dir.old)
        (λ intent hs. ImportLeaves draw now image.now intent hs result (D.shown dir.old) (D.shown dir.new)) }
{
    let gate = share(alloc, dir, Area::Incoming)?;
    let result = build_and_place(alloc, dir, bundle, path, image, digest, now, draw);
    unlock_area(dir, gate);
    result
}

// Imports an image, or finds it there.
fn import_or_find<D: Dir, B: Bundle>(
    alloc: Global,
    dir: &mut D,
    bundle: &mut B,
    path: &str,
    image: &BundleImage,
    digest: &[u8; 64],
    now: u64,
    draw: PodId,
) -> Result<bool, StoreError>
    requires active { IsActive (D.shown dir.old).local }
    ensures worked { OnlyAsks D.observed (imports_at (building_spot draw)) (D.shown dir.old) (D.shown dir.new) }
    ensures moves { D.observed ≡ true → Moves (building_spot draw) (key_of_image image.now) result (D.shown dir.old) (D.shown dir.new) }
    ensures bundle { (B.shown bundle.old).faults ≤ (B.shown bundle.new).faults }
    ensures bundle_cause { IsErrOf result StoreError.BundleFault → Rose (B.shown bundle.old).faults (B.shown bundle.new).faults }
    ensures cause { IfErr result (λ e. ImportCause is_import_refusal D.observed (bundle_source_at B.observed (B.shown bundle.old).tree path.now)
        (key_of_image image.now) digest.now image.now.listing e (D.shown dir.old) (D.shown dir.new)) }
    ensures turn { IfErr result (λ e. FoundInTurn D.observed (bundle_source_at B.observed (B.shown bundle.old).tree path.now)
        (key_of_image image.now) image.now.listing e (D.shown dir.old) (D.shown dir.new)) }
    ensures by_other_process { IfErr result (λ e. D.observed ≡ true → WhereImporting draw ImportsUnderImages false None (D.shown dir.old)
        (λ intent hs. ImportBusyElsewhere e (D.shown dir.old) (D.shown dir.new))) }
    ensures there { result ≡ Ok true → D.observed ≡ true → WasThere (key_of_image image.now) digest.now (D.shown dir.old) (D.shown dir.new) }
    ensures leaves { D.observed ≡ true → WhereImporting draw ImportsUnderImages false None (D.shown dir.old)
        (λ intent hs. ImportLeaves draw now image.now intent hs result (D.shown dir.old) (D.shown dir.new)) }
{
    if is_there(alloc, dir, StoreKey::of(image.id), digest)? {
        Ok(true)
    } else {
        import_new(alloc, dir, bundle, path, image, digest, now, draw)
    }
}

// Takes the lock of images, and imports an image or finds it there.
fn import_locked<D: Dir, B: Bundle>(
    alloc: Global,
    dir: &mut D,
    bundle: &mut B,
    path: &str,
    image: &BundleImage,
    digest: &[u8; 64],
    now: u64,
    draw: PodId,
) -> Result<bool, StoreError>
    requires active { IsActive (D.shown dir.old).local }
    ensures worked { OnlyAsks D.observed (imports_at (building_spot draw)) (D.shown dir.old) (D.shown dir.new) }
    ensures moves { D.observed ≡ true → Moves (building_spot draw) (key_of_image image.now) result (D.shown dir.old) (D.shown dir.new) }
    ensures bundle { (B.shown bundle.old).faults ≤ (B.shown bundle.new).faults }
    ensures bundle_cause { IsErrOf result StoreError.BundleFault → Rose (B.shown bundle.old).faults (B.shown bundle.new).faults }
    ensures cause { IfErr result (λ e. ImportCause is_import_refusal D.observed (bundle_source_at B.observed (B.shown bundle.old).tree path.now)
        (key_of_image image.now) digest.now image.now.listing e (D.shown dir.old) (D.shown dir.new)) }
    ensures turn { IfErr result (λ e. FoundInTurn D.observed (bundle_source_at B.observed (B.shown bundle.old).tree path.now)
        (key_of_image image.now) image.now.listing e (D.shown dir.old) (D.shown dir.new)) }
    ensures by_other_process { IfErr result (λ e. D.observed ≡ true → WhereImporting draw IsAlone false None (D.shown dir.old)
        (λ intent hs. ImportBusyElsewhere e (D.shown dir.old) (D.shown dir.new))) }
    ensures there { result ≡ Ok true → D.observed ≡ true → WasThere (key_of_image image.now) digest.now (D.shown dir.old) (D.shown dir.new) }
    ensures leaves { D.observed ≡ true → WhereImporting draw IsAlone false None (D.shown dir.old)
        (λ intent hs. ImportLeaves draw now image.now intent hs result (D.shown dir.old) (D.shown dir.new)) }
{
    let gate = share(alloc, dir, Area::Images)?;
    let result = import_or_find(alloc, dir, bundle, path, image, digest, now, draw);
    unlock_area(dir, gate);
    result
}

// Imports what the bundle says.
fn import_image<D: Dir, B: Bundle>(
    alloc: Global,
    dir: &mut D,
    bundle: &mut B,
    path: &str,
    image: &BundleImage,
    now: u64,
    draw: PodId,
) -> Result<bool, StoreError>
    requires active { IsActive (D.shown dir.old).local }
    ensures worked { OnlyAsks D.observed (imports_at (building_spot draw)) (D.shown dir.old) (D.shown dir.new) }
    ensures moves { D.observed ≡ true → Moves (building_spot draw) (key_of_image image.now) result (D.shown dir.old) (D.shown dir.new) }
    ensures bundle { (B.shown bundle.old).faults ≤ (B.shown bundle.new).faults }
    ensures bundle_cause { IsErrOf result StoreError.BundleFault → Rose (B.shown bundle.old).faults (B.shown bundle.new).faults }
    ensures cause { IfErr result (λ e. ImportCause is_import_refusal D.observed (bundle_source_at B.observed (B.shown bundle.old).tree path.now)
        (key_of_image image.now) (digest_of image.now) image.now.listing e (D.shown dir.old) (D.shown dir.new)) }
    ensures turn { IfErr result (λ e. FoundInTurn D.observed (bundle_source_at B.observed (B.shown bundle.old).tree path.now)
        (key_of_image image.now) image.now.listing e (D.shown dir.old) (D.shown dir.new)) }
    ensures by_other_process { IfErr result (λ e. D.observed ≡ true → WhereImporting draw IsAlone false None (D.shown dir.old)
        (λ intent hs. ImportBusyElsewhere e (D.shown dir.old) (D.shown dir.new))) }
    ensures there { result ≡ Ok true → D.observed ≡ true → WasThere (key_of_image image.now) (digest_of image.now) (D.shown dir.old) (D.shown dir.new) }
    ensures leaves { D.observed ≡ true → WhereImporting draw IsAlone false None (D.shown dir.old)
        (λ intent hs. ImportLeaves draw now image.now intent hs result (D.shown dir.old) (D.shown dir.new)) }
{
    match image
        .listing
        .image_digest(alloc, image.id, image.bytes.as_slice())
    {
        Ok(digest) => import_locked(alloc, dir, bundle, path, image, &digest, now, draw),
        Err(error) => Err(out_of_memory(error)),
    }
}

/// Imports the image of the bundle at a path into the store: builds its folder in incoming, under the
/// draw's name, and moves it to images under its key. Where the same image is there already, nothing
/// changes and the answer says so. `now` is the moment of the import in seconds.
///
/// Refused in this order. `NoFile` for `manifest`, and its first fault; `NoFile` for `id`, and `BadId`;
/// the listing's first fault, or without a listing `BadKind`, and its limits. `Busy` with images, where
/// another process holds that area's lock exclusively. `Damaged`, where the image is there and its
/// `manifest`, `id` or `tree` is missing or has no reading; `IdConflict`, where it has another digest.
/// `Busy` with incoming. Under that lock `Damaged` with a path of the bundle, where a file is missing or
/// isn't what the listing says. `Damaged` and `IdConflict` once more, where another importer was first.
/// `BundleFault`, `DirFault` and `NoMemory` where the bundle or the directory failed or memory ran out, and
/// `Stray` where the directory's answers contradict what this process made: never while every process
/// keeps the local rules. A refused import holds no lock, and leaves at most its folder in incoming.
pub fn import<D: Dir, B: Bundle>(
    alloc: Global,
    dir: &mut D,
    bundle: &mut B,
    path: &str,
    now: u64,
    draw: PodId,
) -> Result<Imported, StoreError>
    requires active { IsActive (D.shown dir.old).local }
    ensures worked { OnlyAsks D.observed (imports_at (building_spot draw)) (D.shown dir.old) (D.shown dir.new) }
    ensures moves { D.observed ≡ true → MovesAtEnd (building_spot draw) result (D.shown dir.old) (D.shown dir.new) }
    ensures lawful { IsErrOf result StoreError.Stray → D.observed ≡ true → IsConforming (D.shown dir.new).trace → ⊥ }
    ensures bundle { (B.shown bundle.old).faults ≤ (B.shown bundle.new).faults }
    ensures bundle_cause { IsErrOf result StoreError.BundleFault → Rose (B.shown bundle.old).faults (B.shown bundle.new).faults }
    ensures refused { IfErr result (λ e. IsImportRefused D.observed (bundle_source_at B.observed (B.shown bundle.old).tree path.now) e (D.shown dir.old) (D.shown dir.new)) }
    ensures turn { IfErr result (λ e. RefusalComesInTurn D.observed (bundle_source_at B.observed (B.shown bundle.old).tree path.now) e (D.shown dir.old) (D.shown dir.new)) }
    ensures by_other_process { IfErr result (λ e. D.observed ≡ true → WhereImporting draw IsAlone false None (D.shown dir.old)
        (λ intent hs. ImportBusyElsewhere e (D.shown dir.old) (D.shown dir.new))) }
    ensures there { IfOk result (λ done. OfBundle (bundle_source_at B.observed (B.shown bundle.old).tree path.now)
        (λ image. (done.key ≡ key_of_image image) × (done.there ≡ true → D.observed ≡ true → WasThere (key_of_image image) (digest_of image) (D.shown dir.old) (D.shown dir.new)))) }
    ensures imported { IfOk result (λ done. done.there ≡ false → D.observed ≡ true → IsConforming (D.shown dir.new).trace → WhereImporting draw IsAlone false None (D.shown dir.old)
        (λ intent hs. OfBundle (bundle_source_at B.observed (B.shown bundle.old).tree path.now) (λ image. (done.key ≡ key_of_image image)
        × IsImported (D.shown dir.old).process (building_spot draw) (image_spot done.key) (IsOf image now) (D.shown dir.old).trace (D.shown dir.new).trace))) }
    ensures leaves { D.observed ≡ true → WhereImporting draw IsAlone false None (D.shown dir.old)
        (λ intent hs. LeavesAtEnd (bundle_source_at B.observed (B.shown bundle.old).tree path.now) draw now intent hs result (D.shown dir.old) (D.shown dir.new)) }
{
    match read_bundle(alloc, bundle, path) {
        Ok(image) => {
            let there = import_image(alloc, dir, bundle, path, &image, now, draw)?;
            let key = StoreKey::of(image.id);
            Ok(Imported { key, there })
        }
        Err(refusal) => Err(bundle_refusal(refusal)),
    }
}
