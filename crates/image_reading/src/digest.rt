// The digest of an image of the store.
ghost use Rattle.std.specs.Prelude.{◌≡◌, true, Ok, None, IfOk, IfErr, IsErrOf, IfSome};
ghost use Rattle.dir_model.specs.Causes.{Rose};
ghost use Rattle.dir_model.specs.Local.{IsActive};
ghost use Rattle.dir_trait.specs.DirCalls.{HeldBetween};
ghost use Rattle.image_reading.specs.Places.{IsImageAbsent};
ghost use Rattle.image_reading.specs.Looks.{OnlyReadsImage};
ghost use Rattle.image_reading.specs.Refusals.{IsReadRefusal, IsDigestPath};
ghost use Rattle.image_reading.specs.Images.{ReadsParts, ReadsDigest, LacksDigest, LacksStored};

use crate::error::{StoreError, out_of_memory};
use crate::file::{read_id, read_listing, read_manifest};
use crate::moment::is_there;
use ac_types::StoreKey;
use dir_trait::Dir;
use std::alloc::Global;

/// The digest of what the files of an image hold.
fn digest_of<D: Dir>(alloc: Global, dir: &mut D, key: StoreKey) -> Result<[u8; 64], StoreError>
    requires active { IsActive (D.shown dir.old).local }
    ensures cause { IsErrOf result StoreError.DirFault → Rose (D.shown dir.old).faults (D.shown dir.new).faults }
    ensures only { OnlyReadsImage D.observed key (D.shown dir.old) (D.shown dir.new) }
    ensures refusals { IfErr result (IsReadRefusal (IsDigestPath key)) }
    ensures read { IfOk result (λ digest. D.observed ≡ true → ReadsParts key digest (D.shown dir.old) (D.shown dir.new)) }
    ensures damaged { IfErr result (λ e. D.observed ≡ true → LacksDigest key e (D.shown dir.old) (D.shown dir.new)) }
{
    // The manifest goes here: each exit below would have to drop it, field by field.
    let bytes = {
        let kept = read_manifest(alloc, dir, key)?;
        kept.bytes
    };
    let id = read_id(alloc, dir, key)?;
    let listing = read_listing(alloc, dir, key)?;
    match listing.image_digest(alloc, id, &bytes) {
        Ok(digest) => Ok(digest),
        Err(error) => Err(out_of_memory(error)),
    }
}

/// The digest of an image of the store; none where no folder of that image stands there. `Damaged` where
/// one stands there, and one of its files is missing or has no reading, in this order: its manifest, its
/// ID, its listing; `DirFault` where the directory failed, `NoMemory` where memory ran out.
pub fn stored_digest<D: Dir>(
    alloc: Global,
    dir: &mut D,
    key: StoreKey,
) -> Result<Option<[u8; 64]>, StoreError>
    requires active { IsActive (D.shown dir.old).local }
    ensures cause { IsErrOf result StoreError.DirFault → Rose (D.shown dir.old).faults (D.shown dir.new).faults }
    ensures only { OnlyReadsImage D.observed key (D.shown dir.old) (D.shown dir.new) }
    ensures refusals { IfErr result (IsReadRefusal (IsDigestPath key)) }
    ensures absent { result ≡ Ok None → D.observed ≡ true → HeldBetween (D.shown dir.old) (D.shown dir.new) (IsImageAbsent key) }
    ensures there { IfOk result (λ found. IfSome found (λ digest. D.observed ≡ true → ReadsDigest key digest (D.shown dir.old) (D.shown dir.new))) }
    ensures damaged { IfErr result (λ e. D.observed ≡ true → LacksStored key e (D.shown dir.old) (D.shown dir.new)) }
{
    if !is_there(alloc, dir, key)? {
        return Ok(None);
    }
    match digest_of(alloc, dir, key) {
        Ok(digest) => Ok(Some(digest)),
        Err(error) => Err(error),
    }
}
