// The moves to removed, under the lock of the area from which a folder goes.
ghost use Rattle.std.specs.Prelude.{◌≡◌, true, Err, IfOk, IfErr, IsErrOf};
ghost use Rattle.ac_types.specs.declared.store_key.StoreKey.{StoreKey};
ghost use Rattle.dir_model.specs.Calls.{CallStep};
ghost use Rattle.dir_model.specs.Causes.{Rose};
ghost use Rattle.dir_model.specs.declared.request.DirError.TheVariants.{Missing};
ghost use Rattle.dir_model.specs.declared.request.Request.TheVariants.{MoveFolder};
ghost use Rattle.dir_model.specs.declared.request.Reply.TheVariants.{Done, Refused};
ghost use Rattle.dir_trait.specs.Local.{IsActive};
ghost use Rattle.dir_trait.specs.DirCalls.{HeldBetween};
ghost use Rattle.dir_trait.specs.Effects.{OnlyAsks};
ghost use Rattle.lifecycle.specs.Executions.{IsConforming};
ghost use Rattle.image_reading.specs.Places.{image_spot, IsImageAbsent};
ghost use Rattle.image_removal.specs.declared.pass.Pass.TheVariants.{PutAway};
ghost use Rattle.image_removal.specs.Sweeps.{WasListed};
ghost use Rattle.image_removal.specs.Requests.{incoming_spot, removed_spot, away_spot, puts_away, moves_folder};
ghost use Rattle.image_removal.specs.Calls.{WasCalled};
ghost use Rattle.image_removal.specs.Causes.{RemovalWorkCause, MoveCause};
ghost use Rattle.image_removal.specs.Work.{HoldsArea, MayPutAway, StaysBare, Stays};

use crate::error::{change_refusal, move_refusal};
use crate::place::{away_spot, incoming_spot, removed_spot};
use ac_types::StoreKey;
use dir_trait::{Area, Dir, Name, PodId};
use image_reading::{StoreError, spot_of};
use std::alloc::Global;

/// Moves the image with this key to removed, under the draw's name. `NoImage` where none stands there,
/// `Stray` where something stands under that name, `DirFault` where the directory failed, `NoMemory`
/// where memory ran out.
pub(crate) fn put_image_away<D: Dir>(
    alloc: Global,
    dir: &mut D,
    key: StoreKey,
    draw: PodId,
) -> Result<(), StoreError>
    requires active { IsActive (D.shown dir.old).local }
    ensures worked { OnlyAsks D.observed (moves_folder (image_spot key) (away_spot draw)) (D.shown dir.old) (D.shown dir.new) }
    ensures cause { IfErr result (λ e. MoveCause D.observed key draw e (D.shown dir.old) (D.shown dir.new)) }
    ensures moved { IfOk result (λ done. D.observed ≡ true
        → CallStep (D.shown dir.old).process (D.shown dir.old).trace (puts_away key draw) Done (D.shown dir.new).trace) }
    ensures stays { D.observed ≡ true → Stays (MayPutAway draw) StaysBare (D.shown dir.old) (D.shown dir.new) }
    ensures lawful { IsErrOf result StoreError.Stray → D.observed ≡ true → IsConforming (D.shown dir.new).trace → ⊥ }
{
    let from = spot_of(alloc, key)?;
    match dir.move_folder(alloc, from, away_spot(draw)) {
        Ok(()) => Ok(()),
        Err(error) => Err(move_refusal(key, error)),
    }
}

/// Moves the folder of this name from incoming to removed. It stands in incoming, and nothing stands
/// under that name in removed: `Stray` where the directory's answers contradict that, `DirFault` where it
/// failed, `NoMemory` where memory ran out.
pub(crate) fn put_away<D: Dir>(alloc: Global, dir: &mut D, name: Name) -> Result<(), StoreError>
    requires active { IsActive (D.shown dir.old).local }
    ensures worked { OnlyAsks D.observed (moves_folder (incoming_spot name) (removed_spot name)) (D.shown dir.old) (D.shown dir.new) }
    ensures cause { IfErr result (λ e. RemovalWorkCause D.observed e (D.shown dir.old) (D.shown dir.new)) }
    ensures moved { IfOk result (λ done. D.observed ≡ true
        → CallStep (D.shown dir.old).process (D.shown dir.old).trace (MoveFolder (incoming_spot name) (removed_spot name)) Done (D.shown dir.new).trace) }
    ensures stays { D.observed ≡ true → Stays (HoldsArea Area.Incoming) StaysBare (D.shown dir.old) (D.shown dir.new) }
    ensures lawful { IsErrOf result StoreError.Stray → D.observed ≡ true → WasListed PutAway name (D.shown dir.old).process (D.shown dir.old).trace
        → IsConforming (D.shown dir.new).trace → ⊥ }
{
    match dir.move_folder(alloc, incoming_spot(name), removed_spot(name)) {
        Ok(()) => Ok(()),
        Err(error) => Err(change_refusal(error)),
    }
}
