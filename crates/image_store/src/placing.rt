// The folder that was built comes into images.
ghost use Rattle.std.specs.Prelude.{◌≡◌, true, false, Some, Ok, IfOk, IfErr};
ghost use Rattle.dir_trait.specs.Local.{IsActive};
ghost use Rattle.dir_trait.specs.Knowledge.{Knows};
ghost use Rattle.dir_trait.specs.Effects.{OnlyAsks};
ghost use Rattle.image_reading.specs.Places.{image_spot};
ghost use Rattle.image_reading.specs.Looks.{OnlyReadsImage};
ghost use Rattle.image_store.specs.Refusals.{move_answer};
ghost use Rattle.image_store.specs.Requests.{building_spot, imports_at};
ghost use Rattle.image_store.specs.Work.{seen_importing, holding, WhereImportFilled, IsImagePlaced, Unbrought};
ghost use Rattle.image_store.specs.Causes.{ChangeCause, KeyWasTaken, WasThere, CompareCause, PlaceCause};
ghost use Rattle.image_store.specs.Moves.{Moves};

use crate::building::building_spot;
use crate::error::change_refusal;
use crate::look::is_there;
use ac_types::StoreKey;
use dir_trait::{Dir, DirError, PodId};
use image_reading::{StoreError, spot_of};
use std::alloc::Global;

// What a refused move comes to: whether another folder stands there.
fn move_answer(error: DirError) -> Result<bool, StoreError>
    ensures { result ≡ move_answer error }
{
    match error {
        DirError::Exists => Ok(true),
        _ => Err(change_refusal(error)),
    }
}

// Moves the folder into images, and answers whether another stood there: then it wasn't moved.
fn bring<D: Dir>(alloc: Global, dir: &mut D, draw: PodId, key: StoreKey) -> Result<bool, StoreError>
    requires active { IsActive (D.shown dir.old).local }
    ensures worked { OnlyAsks D.observed (imports_at (building_spot draw)) (D.shown dir.old) (D.shown dir.new) }
    ensures moves { D.observed ≡ true → Moves (building_spot draw) key result (D.shown dir.old) (D.shown dir.new) }
    ensures cause { IfErr result (λ e. ChangeCause D.observed e (D.shown dir.old) (D.shown dir.new)) }
    ensures taken { result ≡ Ok true → D.observed ≡ true → KeyWasTaken key (D.shown dir.old) (D.shown dir.new) }
    ensures placed { result ≡ Ok false → D.observed ≡ true → WhereImportFilled draw (D.shown dir.old)
        (λ intent hs entries. IsImagePlaced draw (image_spot key) intent hs entries (D.shown dir.old) (D.shown dir.new)) }
    ensures left { Unbrought result (D.observed ≡ true → WhereImportFilled draw (D.shown dir.old)
        (λ intent hs entries. Knows (D.shown dir.new) (seen_importing intent hs true (Some (holding (building_spot draw) entries))))) }
{
    let from = building_spot(draw);
    let to = spot_of(alloc, key)?;
    match dir.move_folder(alloc, from, to) {
        Ok(()) => Ok(false),
        Err(error) => move_answer(error),
    }
}

// Whether the image that another importer left is this one. It stands there, or the directory's answers
// contradict each other.
fn compare<D: Dir>(
    alloc: Global,
    dir: &mut D,
    key: StoreKey,
    digest: &[u8; 64],
) -> Result<bool, StoreError>
    requires active { IsActive (D.shown dir.old).local }
    ensures only { OnlyReadsImage D.observed key (D.shown dir.old) (D.shown dir.new) }
    ensures there { IfOk result (λ there. there ≡ true) }
    ensures is { IfOk result (λ there. D.observed ≡ true → WasThere key digest.now (D.shown dir.old) (D.shown dir.new)) }
    ensures cause { IfErr result (λ e. CompareCause D.observed key digest.now e (D.shown dir.old) (D.shown dir.new)) }
{
    if is_there(alloc, dir, key, digest)? {
        Ok(true)
    } else {
        Err(StoreError::Stray)
    }
}

/// Brings the folder into images, and answers whether the image is there already: where another importer
/// was first, with the same image.
pub(crate) fn place<D: Dir>(
    alloc: Global,
    dir: &mut D,
    draw: PodId,
    key: StoreKey,
    digest: &[u8; 64],
) -> Result<bool, StoreError>
    requires active { IsActive (D.shown dir.old).local }
    ensures worked { OnlyAsks D.observed (imports_at (building_spot draw)) (D.shown dir.old) (D.shown dir.new) }
    ensures moves { D.observed ≡ true → Moves (building_spot draw) key result (D.shown dir.old) (D.shown dir.new) }
    ensures cause { IfErr result (λ e. PlaceCause D.observed key digest.now e (D.shown dir.old) (D.shown dir.new)) }
    ensures there { result ≡ Ok true → D.observed ≡ true → WasThere key digest.now (D.shown dir.old) (D.shown dir.new) }
    ensures placed { result ≡ Ok false → D.observed ≡ true → WhereImportFilled draw (D.shown dir.old)
        (λ intent hs entries. IsImagePlaced draw (image_spot key) intent hs entries (D.shown dir.old) (D.shown dir.new)) }
    ensures left { Unbrought result (D.observed ≡ true → WhereImportFilled draw (D.shown dir.old)
        (λ intent hs entries. Knows (D.shown dir.new) (seen_importing intent hs true (Some (holding (building_spot draw) entries))))) }
{
    match bring(alloc, dir, draw, key) {
        Ok(false) => Ok(false),
        Ok(true) => compare(alloc, dir, key, digest),
        Err(error) => Err(error),
    }
}
