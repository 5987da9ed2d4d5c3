// The command `image rm`.
ghost use Rattle.std.specs.Prelude.{◌≡◌, ◌≤◌, ◌⊎◌, true, Ok, Err, IfOk, IfErr, IsErrOf};
ghost use Rattle.ac_types.specs.Ids.{id_text};
ghost use Rattle.dir_model.specs.Causes.{Rose};
ghost use Rattle.dir_trait.specs.Local.{IsActive};
ghost use Rattle.dir_trait.specs.Effects.{OnlyAsks};
ghost use Rattle.image_removal.specs.Causes.{is_remove_refusal};
ghost use Rattle.image_removal.specs.Requests.{removes_at};
ghost use Rattle.image_removal.specs.Work.{MayRemoveImage, KeepsStandingAndRules, Stays};
ghost use Rattle.commands.specs.Kept.{KeepsRefused};
ghost use Rattle.commands.specs.ImageRm.{removed_image_text, image_rm_refusal, IsRemovalSaid, ImageRmSays};

use ac_types::{NoMemory, StoreKey};
use command_outcomes::{Output, Refusal, named};
use dir_trait::{Dir, PodId};
use image_reading::StoreError;
use image_removal::remove;
use std::alloc::Global;

fn removed_line(alloc: Global, key: StoreKey) -> Result<Output, NoMemory>
    ensures { IfOk result (λ line. line ≡ removed_image_text key) }
{
    let text = key.text(alloc)?;
    let line = named(alloc, "removed ", &text)?;
    Ok(line)
}

// That no image has the key.
fn no_image(alloc: Global, key: StoreKey) -> Refusal
    ensures { (result ≡ Refusal.NoImage (id_text key.bytes)) ⊎ (result ≡ Refusal.NoMemory) }
{
    match key.text(alloc) {
        Ok(text) => Refusal::NoImage(text),
        Err(_) => Refusal::NoMemory,
    }
}

fn removal_refusal(alloc: Global, error: StoreError) -> Refusal
    requires { is_remove_refusal error ≡ true }
    ensures { IsRemovalSaid error result }
{
    match error {
        StoreError::Busy(area) => Refusal::Busy(area),
        StoreError::NoImage(key) => no_image(alloc, key),
        StoreError::DirFault => Refusal::DirFault,
        StoreError::NoMemory => Refusal::NoMemory,
        StoreError::Stray => Refusal::Stray,
        _ => unreachable!(),
    }
}

// The removal, of which this line is printed.
fn remove_saying<D: Dir>(
    alloc: Global,
    line: Output,
    key: StoreKey,
    draw: PodId,
    dir: &mut D,
) -> Result<Output, Refusal>
    requires active { IsActive (D.shown dir.old).local }
    requires line { line ≡ removed_image_text key }
    ensures worked { OnlyAsks D.observed (removes_at key draw) (D.shown dir.old) (D.shown dir.new) }
    ensures cause { IsErrOf result Refusal.DirFault → Rose (D.shown dir.old).faults (D.shown dir.new).faults }
    ensures refusals { IfErr result (λ r. image_rm_refusal r ≡ true) }
    ensures conforms { D.observed ≡ true → Stays (MayRemoveImage draw) KeepsStandingAndRules (D.shown dir.old) (D.shown dir.new) }
    ensures says { ImageRmSays D.observed key draw (D.shown dir.old) (D.shown dir.new) result }
    ensures kept { KeepsRefused D.observed (D.shown dir.old) (D.shown dir.new) result }
{
    match remove(alloc, dir, key, draw) {
        Ok(()) => Ok(line),
        Err(error) => Err(removal_refusal(alloc, error)),
    }
}

/// The line that `image rm` prints: that the image with this key is removed from the store. Its folder is
/// moved to removed under the draw's name, and deleted there where the lock of removed is free.
/// `Busy` with images where another process holds that lock, and `NoImage` where no image has the key: then
/// the store is as it was. `Stray` where the directory's answers contradict what the locks keep; `DirFault`
/// where it failed.
pub fn image_rm<D: Dir>(
    alloc: Global,
    key: StoreKey,
    draw: PodId,
    dir: &mut D,
) -> Result<Output, Refusal>
    requires active { IsActive (D.shown dir.old).local }
    ensures worked { OnlyAsks D.observed (removes_at key draw) (D.shown dir.old) (D.shown dir.new) }
    ensures cause { IsErrOf result Refusal.DirFault → Rose (D.shown dir.old).faults (D.shown dir.new).faults }
    ensures refusals { IfErr result (λ r. image_rm_refusal r ≡ true) }
    ensures conforms { D.observed ≡ true → Stays (MayRemoveImage draw) KeepsStandingAndRules (D.shown dir.old) (D.shown dir.new) }
    ensures says { ImageRmSays D.observed key draw (D.shown dir.old) (D.shown dir.new) result }
    ensures kept { KeepsRefused D.observed (D.shown dir.old) (D.shown dir.new) result }
{
    // Made first: an image that is gone can't be said to be removed where there is no memory for the line.
    match removed_line(alloc, key) {
        Ok(line) => remove_saying(alloc, line, key, draw, dir),
        Err(_) => Err(Refusal::NoMemory),
    }
}
