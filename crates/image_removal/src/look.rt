// Whether a folder stands at a location.
ghost use Rattle.std.specs.Prelude.{◌≡◌, true, false, Ok, IfErr, IsErrOf};
ghost use Rattle.dir_model.specs.State.{stands};
ghost use Rattle.dir_trait.specs.Local.{IsActive};
ghost use Rattle.dir_trait.specs.DirCalls.{HeldBetween};
ghost use Rattle.dir_trait.specs.Knowledge.{Knows};
ghost use Rattle.dir_trait.specs.Effects.{OnlyAsks};
ghost use Rattle.dir_rules.specs.declared.seen.Seen.{Seen};
ghost use Rattle.image_removal.specs.Requests.{looks_at_folder};
ghost use Rattle.image_removal.specs.Causes.{look_answer, RemovalWorkCause};

use crate::error::change_refusal;
use dir_trait::{Dir, DirError, Spot, Which};
use image_reading::StoreError;
use std::alloc::Global;

// What a refused look at a folder means: whether one stands there.
fn look_answer(error: DirError) -> Result<bool, StoreError>
    ensures { result ≡ look_answer error }
{
    match error {
        DirError::Missing => Ok(false),
        _ => Err(change_refusal(error)),
    }
}

/// Whether a folder stands there: it is opened and closed again. `DirFault` where the directory failed,
/// `NoMemory` where memory ran out.
pub(crate) fn is_there<D: Dir>(alloc: Global, dir: &mut D, spot: Spot) -> Result<bool, StoreError>
    requires active { IsActive (D.shown dir.old).local }
    ensures worked { OnlyAsks D.observed (looks_at_folder spot) (D.shown dir.old) (D.shown dir.new) }
    ensures cause { IfErr result (λ e. RemovalWorkCause D.observed e (D.shown dir.old) (D.shown dir.new)) }
    ensures never_stray { IsErrOf result StoreError.Stray → ⊥ }
    ensures present { result ≡ Ok true → D.observed ≡ true
        → HeldBetween (D.shown dir.old) (D.shown dir.new) (λ s. stands s.namespace spot ≡ true) }
    ensures absent { result ≡ Ok false → D.observed ≡ true
        → HeldBetween (D.shown dir.old) (D.shown dir.new) (λ s. stands s.namespace spot ≡ false) }
    ensures known { D.observed ≡ true → (s : Seen) → Knows (D.shown dir.old) s → Knows (D.shown dir.new) s }
{
    match dir.open(alloc, spot, Which::Own) {
        Ok(handle) => {
            dir.close(handle);
            Ok(true)
        }
        Err(error) => look_answer(error),
    }
}
