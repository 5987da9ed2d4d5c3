// The command `image list`.
ghost use Rattle.std.specs.Prelude.{◌≡◌, ◌≤◌, ◌⊎◌, ◌++◌, true, Ok, Err, IfOk, IfErr, IsErrOf, OnOk};
ghost use Rattle.dir_rules.specs.declared.seen.Seen.{Seen};
ghost use Rattle.dir_trait.specs.Causes.{Rose};
ghost use Rattle.dir_trait.specs.DirCalls.{ExtendsBy};
ghost use Rattle.dir_trait.specs.Knowledge.{Knows};
ghost use Rattle.dir_trait.specs.Local.{IsActive};
ghost use Rattle.dir_files.specs.AreaLocks.{is_free_of};
ghost use Rattle.image_reading.specs.Refusals.{IsReadRefusal};
ghost use Rattle.image_reading.specs.Store.{IsStorePath};
ghost use Rattle.commands.specs.ImageList.{image_line_text, images_text, image_list_refusal, lists_images, images_lock_refusal, images_read_refusal, ImageListSays};

use ac_types::NoMemory;
use command_outcomes::{Output, Refusal};
use dep_match::Stored;
use dir_files::{LockError, lock_area, unlock_area};
use dir_trait::{Area, Dir, Mode};
use image_reading::{StoreError, stored};
use std::alloc::Global;

fn image_line(alloc: Global, image: &Stored) -> Result<Output, NoMemory>
    ensures { IfOk result (λ line. line ≡ image_line_text image.now) }
{
    let key = image.key.text(alloc)?;
    let mut line = Output::of(alloc, key.as_str())?;
    line.push(" ")?;
    line.push(image.manifest.name.as_str())?;
    line.push(" ")?;
    line.push_number(alloc, image.moment)?;
    line.push("\n")?;
    Ok(line)
}

fn add_line(alloc: Global, text: &mut Output, image: &Stored) -> Result<(), NoMemory>
    ensures { OnOk result (text.new ≡ text.old ++ image_line_text image.now) }
{
    let line = image_line(alloc, image)?;
    text.append(&line)?;
    Ok(())
}

fn image_lines(alloc: Global, images: &[Stored]) -> Result<Output, NoMemory>
    ensures { IfOk result (λ text. text ≡ images_text images.now) }
{
    let mut text = Output::new(alloc);
    'images: for image in images {
        add_line(alloc, &mut text, image)?;
    }
    Ok(text)
}

fn lock_refusal(error: LockError) -> Refusal
    ensures { result ≡ images_lock_refusal error }
{
    match error {
        LockError::Busy => Refusal::Busy(Area::Images),
        LockError::DirFault => Refusal::DirFault,
        LockError::NoMemory => Refusal::NoMemory,
    }
}

fn store_refusal(error: StoreError) -> Refusal
    requires { IsReadRefusal IsStorePath error }
    ensures { result ≡ images_read_refusal error }
{
    match error {
        StoreError::Damaged(path) => Refusal::Damaged(path),
        StoreError::DirFault => Refusal::DirFault,
        StoreError::NoMemory => Refusal::NoMemory,
        _ => unreachable!(),
    }
}

// What comes of what was read.
fn read_outcome(alloc: Global, found: Result<Vec<Stored>, StoreError>) -> Result<Output, Refusal>
    requires { IfErr found (IsReadRefusal IsStorePath) }
    ensures lists { IfOk found (λ images. (result ≡ Ok (images_text images.items)) ⊎ (result ≡ Err Refusal.NoMemory)) }
    ensures refuses { IfErr found (λ e. result ≡ Err (images_read_refusal e)) }
{
    match found {
        Ok(images) => match image_lines(alloc, images.as_slice()) {
            Ok(text) => Ok(text),
            Err(_) => Err(Refusal::NoMemory),
        },
        Err(error) => Err(store_refusal(error)),
    }
}

/// The lines that `image list` prints, one of each image of the store, in the byte order of their keys.
/// They are read under the lock of the images, which is given back. `Busy` where another process holds
/// that lock exclusively, `Damaged` at the first image of which a part is missing or has no reading,
/// `DirFault` where the directory failed.
pub fn image_list<D: Dir>(alloc: Global, dir: &mut D) -> Result<Output, Refusal>
    requires active { IsActive (D.shown dir.old).local }
    ensures same { (D.shown dir.new).process ≡ (D.shown dir.old).process }
    ensures faults { (D.shown dir.old).faults ≤ (D.shown dir.new).faults }
    ensures local { (D.shown dir.new).local ≡ (D.shown dir.old).local }
    ensures cause { IsErrOf result Refusal.DirFault → Rose (D.shown dir.old).faults (D.shown dir.new).faults }
    ensures refusals { IfErr result (λ r. image_list_refusal r ≡ true) }
    ensures known { D.observed ≡ true → (s : Seen) → Knows (D.shown dir.old) s → is_free_of Area.Images s ≡ true → Knows (D.shown dir.new) s }
    ensures extends { D.observed ≡ true → ExtendsBy lists_images (D.shown dir.old) (D.shown dir.new) }
    ensures says { ImageListSays D.observed (D.shown dir.old) (D.shown dir.new) result }
{
    match lock_area(alloc, dir, Area::Images, Mode::Shared) {
        Ok(gate) => {
            let found = stored(alloc, dir, gate);
            unlock_area(dir, gate);
            read_outcome(alloc, found)
        }
        Err(error) => Err(lock_refusal(error)),
    }
}
