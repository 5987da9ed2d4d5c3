// One look at a location, and one question for the lock of what stands there.
ghost use Rattle.std.specs.Prelude.{◌≡◌, ◌+◌, ◌≤◌, true, false, IfOk, IfErr, IsErrOf, Ok, Some, None, is_some, IfSome};
ghost use Rattle.dir_trait.specs.Causes.{Rose};
ghost use Rattle.dir_rules.specs.Conforms.{is_lookable};
ghost use Rattle.dir_trait.specs.Knowledge.{OnlyLooks};
ghost use Rattle.dir_trait.specs.DirCalls.{ExtendsBy, HeldBetween, LockToldBetween};
ghost use Rattle.dir_trait.specs.State.{spot_eq, stands};
ghost use Rattle.dir_trait.specs.Replies.{is_look_at};
ghost use Rattle.dir_trait.specs.Local.{IsActive, has_own_open};
ghost use Rattle.phase_read.specs.Faults.{IsLookFault};
ghost use Rattle.phase_read.specs.Often.{OpensOnce};

use crate::found::{LookError, look_error};
use dir_trait::{Dir, DirError, Mode, Spot, Which};
use std::alloc::Global;

/// Whether a folder stands at the location. `DirFault` where the directory failed.
pub fn look<D: Dir>(alloc: Global, dir: &mut D, spot: Spot) -> Result<bool, LookError>
    requires { IsActive (D.shown dir.old).local }
    ensures counted { (D.shown dir.new).calls ≤ (D.shown dir.old).calls + 2 }
    ensures counted_missing { result ≡ Ok false → (D.shown dir.new).calls ≤ (D.shown dir.old).calls + 1 }
    ensures same { (D.shown dir.new).process ≡ (D.shown dir.old).process }
    ensures faults { (D.shown dir.old).faults ≤ (D.shown dir.new).faults }
    ensures cause { IsErrOf result LookError.DirFault → Rose (D.shown dir.old).faults (D.shown dir.new).faults }
    ensures kind { IfErr result IsLookFault }
    ensures local { (D.shown dir.new).local ≡ (D.shown dir.old).local }
    ensures known { D.observed ≡ true → OnlyLooks (D.shown dir.old) (D.shown dir.new) }
    ensures extends { D.observed ≡ true → ExtendsBy (is_look_at (spot_eq spot)) (D.shown dir.old) (D.shown dir.new) }
    ensures once { OpensOnce D.observed spot (D.shown dir.old) (D.shown dir.new) }
    ensures there { IfOk result (λ there. D.observed ≡ true
        → HeldBetween (D.shown dir.old) (D.shown dir.new) (λ s. stands s.namespace spot ≡ there)) }
{
    match dir.open(alloc, spot, Which::Own) {
        Ok(handle) => {
            dir.close(handle);
            Ok(true)
        }
        Err(DirError::Missing) => Ok(false),
        Err(error) => Err(look_error(error)),
    }
}

/// Whether a folder stands at the location, one where anyone may ask for its lock shared, and then
/// whether that lock is held exclusively. No handle of this process is open on it. `DirFault` where the directory failed.
pub fn ask<D: Dir>(alloc: Global, dir: &mut D, spot: Spot) -> Result<Option<bool>, LookError>
    requires active { IsActive (D.shown dir.old).local }
    requires area { is_lookable spot.area ≡ true }
    requires alone { has_own_open (D.shown dir.old).local spot.name ≡ false }
    ensures counted { (D.shown dir.new).calls ≤ (D.shown dir.old).calls + 3 }
    ensures counted_missing { result ≡ Ok None → (D.shown dir.new).calls ≤ (D.shown dir.old).calls + 1 }
    ensures same { (D.shown dir.new).process ≡ (D.shown dir.old).process }
    ensures faults { (D.shown dir.old).faults ≤ (D.shown dir.new).faults }
    ensures cause { IsErrOf result LookError.DirFault → Rose (D.shown dir.old).faults (D.shown dir.new).faults }
    ensures kind { IfErr result IsLookFault }
    ensures local { (D.shown dir.new).local ≡ (D.shown dir.old).local }
    ensures known { D.observed ≡ true → OnlyLooks (D.shown dir.old) (D.shown dir.new) }
    ensures extends { D.observed ≡ true → ExtendsBy (is_look_at (spot_eq spot)) (D.shown dir.old) (D.shown dir.new) }
    ensures there { IfOk result (λ owned. D.observed ≡ true
        → HeldBetween (D.shown dir.old) (D.shown dir.new) (λ s. stands s.namespace spot ≡ is_some owned)) }
    ensures answer_holds { IfOk result (λ found. IfSome found (λ owned. D.observed ≡ true
        → LockToldBetween (D.shown dir.old) (D.shown dir.new) spot owned)) }
{
    match dir.open(alloc, spot, Which::Own) {
        Ok(handle) => {
            let answer = dir.try_lock(alloc, handle, Mode::Shared);
            dir.close(handle);
            match answer {
                Ok(()) => Ok(Some(false)),
                Err(DirError::Locked) => Ok(Some(true)),
                Err(error) => Err(look_error(error)),
            }
        }
        Err(DirError::Missing) => Ok(None),
        Err(error) => Err(look_error(error)),
    }
}
