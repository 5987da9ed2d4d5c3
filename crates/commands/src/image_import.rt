// The command `image import`.
ghost use Rattle.std.specs.Prelude.{◌≡◌, ◌≤◌, ◌⊎◌, true, Ok, Err, IfOk, IfErr, IsErrOf};
ghost use Rattle.hex.specs.Hex.{encode_lower};
ghost use Rattle.ac_types.specs.Ids.{id_text};
ghost use Rattle.dir_model.specs.Causes.{Rose};
ghost use Rattle.dir_model.specs.declared.intent.Intent.{Intent};
ghost use Rattle.dir_trait.specs.Local.{IsActive};
ghost use Rattle.dir_trait.specs.Effects.{OnlyAsks};
ghost use Rattle.image_store.specs.Requests.{building_spot, imports_at};
ghost use Rattle.image_store.specs.Work.{IsImport};
ghost use Rattle.command_outcomes.specs.Conforming.{StaysConforming};
ghost use Rattle.commands.specs.ImageImport.{key_line, image_import_refusal, import_listing_refusal, is_import_error, import_refusal, IsSaidOf, ImageImportSays};
ghost use Rattle.command_outcomes.specs.Moments.{outside_at};

use ac_types::{BAD_ID, NoMemory, StoreKey, Text};
use command_outcomes::{Output, Refusal};
use dir_trait::{Bundle, Dir, PodId};
use image_store::{StoreError, import};
use std::alloc::Global;
use tree_digest::ListingError;
use tree_digest::refusals::{BAD_LINE, MAX_FILE, NO_PARENT, NOT_SORTED};

fn key_line(alloc: Global, key: StoreKey) -> Result<Output, NoMemory>
    ensures { IfOk result (λ line. line ≡ key_line key) }
{
    let text = key.text(alloc)?;
    let mut line = Output::of(alloc, text.as_str())?;
    line.push("\n")?;
    Ok(line)
}

fn printed_key(alloc: Global, key: StoreKey) -> Result<Output, Refusal>
    ensures { (result ≡ Ok (key_line key)) ⊎ (result ≡ Err Refusal.NoMemory) }
{
    match key_line(alloc, key) {
        Ok(line) => Ok(line),
        Err(_) => Err(Refusal::NoMemory),
    }
}

// What is wrong with a file of the bundle.
fn file_refusal(alloc: Global, name: &str, number: u8) -> Result<Refusal, NoMemory>
    ensures { IfOk result (λ refusal. refusal ≡ Refusal.BadManifest name.now number) }
{
    let path = Text::of(alloc, name)?;
    Ok(Refusal::BadManifest { path, number })
}

fn listing_refusal(alloc: Global, error: ListingError) -> Result<Refusal, NoMemory>
    ensures { IfOk result (λ refusal. refusal ≡ import_listing_refusal error) }
{
    match error {
        ListingError::BadLine(_) => file_refusal(alloc, "tree", BAD_LINE),
        ListingError::NotSorted(_) => file_refusal(alloc, "tree", NOT_SORTED),
        ListingError::NoParent(_) => file_refusal(alloc, "tree", NO_PARENT),
        ListingError::TooMany(limit) => Ok(Refusal::Limit(limit)),
        ListingError::FileTooLong(_) => Ok(Refusal::Limit(MAX_FILE)),
        ListingError::NoMemory => Ok(Refusal::NoMemory),
    }
}

fn digest_text(alloc: Global, digest: &[u8; 64]) -> Result<Text, NoMemory>
    ensures { IfOk result (λ text. text ≡ encode_lower digest.now) }
{
    let digits = hex::encode(alloc, digest.as_slice())?;
    Ok(Text::from_string(digits))
}

fn conflict_refusal(
    alloc: Global,
    key: StoreKey,
    stored: &[u8; 64],
    new: &[u8; 64],
) -> Result<Refusal, NoMemory>
    ensures { IfOk result (λ refusal. refusal ≡ Refusal.Conflict (id_text key.bytes) (encode_lower stored.now) (encode_lower new.now)) }
{
    let key = key.text(alloc)?;
    let stored = digest_text(alloc, stored)?;
    let new = digest_text(alloc, new)?;
    Ok(Refusal::Conflict(key, stored, new))
}

fn refusal_of(alloc: Global, error: StoreError) -> Result<Refusal, NoMemory>
    requires { is_import_error error ≡ true }
    ensures { IfOk result (λ refusal. refusal ≡ import_refusal error) }
{
    match error {
        StoreError::NoFile(path) => Ok(Refusal::NoFile(path)),
        StoreError::Fault(fault) => Ok(Refusal::BadManifest {
            path: fault.path,
            number: fault.kind.number(),
        }),
        StoreError::BadId => file_refusal(alloc, "id", BAD_ID),
        StoreError::ListingError(error) => listing_refusal(alloc, error),
        StoreError::BadKind(path) => Ok(Refusal::BadKind(path)),
        StoreError::Busy(area) => Ok(Refusal::Busy(area)),
        StoreError::Damaged(path) => Ok(Refusal::Damaged(path)),
        StoreError::IdConflict(key, stored, new) => conflict_refusal(alloc, key, &stored, &new),
        StoreError::BundleFault => Ok(Refusal::BundleFault),
        StoreError::DirFault => Ok(Refusal::DirFault),
        StoreError::NoMemory => Ok(Refusal::NoMemory),
        StoreError::Stray => Ok(Refusal::Stray),
        StoreError::NoImage(_) => unreachable!(),
    }
}

fn import_refusal(alloc: Global, error: StoreError) -> Refusal
    requires { is_import_error error ≡ true }
    ensures { IsSaidOf error result }
{
    match refusal_of(alloc, error) {
        Ok(refusal) => refusal,
        Err(_) => Refusal::NoMemory,
    }
}

/// The line that `image import` prints: the key of the image of the bundle at the path, which is then in
/// the store. `now` is the moment of the import, `draw` the name under which its folder is built.
/// `NoFile`, `BadManifest`, `BadKind` and `Limit` at the first fault of the bundle; `Busy` where another
/// process holds the lock of images or of incoming exclusively; `Conflict` where an image with the key and
/// another digest is stored; `Damaged` where a part of that image is missing or has no reading, or a file
/// of the bundle isn't what its listing says; `Stray` where the directory's answers contradict what this
/// process made; `BundleFault` and `DirFault` where the bundle or the directory failed.
pub fn image_import<D: Dir, B: Bundle>(
    alloc: Global,
    path: &Text,
    now: u64,
    draw: PodId,
    dir: &mut D,
    bundle: &mut B,
) -> Result<Output, Refusal>
    requires active { IsActive (D.shown dir.old).local }
    ensures worked { OnlyAsks D.observed (imports_at (building_spot draw)) (D.shown dir.old) (D.shown dir.new) }
    ensures cause { IsErrOf result Refusal.DirFault → Rose (D.shown dir.old).faults (D.shown dir.new).faults }
    ensures bundle { (B.shown bundle.old).faults ≤ (B.shown bundle.new).faults }
    ensures bundle_cause { IsErrOf result Refusal.BundleFault → Rose (B.shown bundle.old).faults (B.shown bundle.new).faults }
    ensures refusals { IfErr result (λ r. image_import_refusal r ≡ true) }
    ensures known { D.observed ≡ true → (intent : Intent) → IsImport draw intent → StaysConforming intent (D.shown dir.old) (D.shown dir.new) }
    ensures says { ImageImportSays path.now now draw (outside_at D.Dir B.Bundle dir.old bundle.old) (outside_at D.Dir B.Bundle dir.new bundle.new) result }
{
    match import(alloc, dir, bundle, path.as_str(), now, draw) {
        Ok(done) => printed_key(alloc, done.key),
        Err(error) => Err(import_refusal(alloc, error)),
    }
}
