// The size and the SHA-512 of a file.
ghost use Rattle.std.specs.Prelude.{◌≡◌, ◌≤◌, ◌<◌, ◌+◌, ℕ, List, [], true, false, IfOk, IsErrOf, IsSomeAnd, None, length};
ghost use Rattle.dir_model.specs.Causes.{Rose};
ghost use Rattle.dir_trait.specs.Bundles.{bytes_of_node};
ghost use Rattle.bundle_image.specs.FileSums.{HashingHasTaken, TakesBytes, IsSumOf};
ghost use Rattle.bundle_image.specs.Reads.{ReadsWithin};

use crate::file::PIECE;
use crate::refusal::no_memory;
use dir_trait::{Bundle, BundleError};
use sha2::{Digest, Sha512};
use std::alloc::Global;
use tree_digest::refusals::MAX_FILE;

/// The size of a file and the SHA-512 of its bytes.
#[derive(Drop)]
pub(crate) struct FileSum {
    pub(crate) size: u64,
    pub(crate) sha: [u8; 64],
}

/// The bytes of a file that were taken so far.
#[derive(Drop)]
struct Hashing {
    hasher: Sha512,
    size: u64,
}

impl Hashing {
    fn new() -> Hashing
        ensures { HashingHasTaken result [] }
    {
        Hashing {
            hasher: Sha512::new(),
            size: 0,
        }
    }

    fn finish(self) -> Option<FileSum>
        ensures { (message : List ℕ) → HashingHasTaken self message → IsSumOf message result }
    {
        if self.size > MAX_FILE {
            return None;
        }
        Some(FileSum {
            size: self.size,
            sha: self.hasher.finalize(),
        })
    }
}

/// Takes the next bytes of the file, as many as the room takes, and answers whether it ends there.
fn take_piece<B: Bundle>(
    alloc: Global,
    bundle: &mut B,
    path: &str,
    room: &mut [u8],
    hashing: &mut Hashing,
) -> Result<bool, BundleError>
    requires some { 0 < length room.old }
    requires room { length room.old ≤ PIECE }
    requires short { hashing.old.size ≤ MAX_FILE }
    ensures reads { ReadsWithin B.observed path.now (B.shown bundle.old) (B.shown bundle.new) }
    ensures cause { IsErrOf result BundleError.Failed → Rose (B.shown bundle.old).faults (B.shown bundle.new).faults }
    ensures missing { IsErrOf result BundleError.Missing → B.observed ≡ true → bytes_of_node ((B.shown bundle.old).tree path.now) ≡ None }
    ensures grew { IfOk result (λ ended. ended ≡ false → hashing.old.size < hashing.new.size) }
    ensures took { IfOk result (λ ended. (message : List ℕ) → HashingHasTaken hashing.old message
        → TakesBytes B.observed (bytes_of_node ((B.shown bundle.old).tree path.now)) message ended hashing.new) }
{
    let count = bundle.read(alloc, path, hashing.size, room)?;
    hashing.hasher.update(&room[..count]);
    hashing.size += count as u64;
    Ok(count < room.len())
}

/// The size and the SHA-512 of the file at a path; none where it has more than 1 GiB. `Missing` where no
/// file stands there, `Failed` where the bundle failed, `NoMemory` where memory ran out.
pub(crate) fn sum_file<B: Bundle>(
    alloc: Global,
    bundle: &mut B,
    path: &str,
) -> Result<Option<FileSum>, BundleError>
    ensures reads { ReadsWithin B.observed path.now (B.shown bundle.old) (B.shown bundle.new) }
    ensures cause { IsErrOf result BundleError.Failed → Rose (B.shown bundle.old).faults (B.shown bundle.new).faults }
    ensures missing { IsErrOf result BundleError.Missing → B.observed ≡ true → bytes_of_node ((B.shown bundle.old).tree path.now) ≡ None }
    ensures short { IfOk result (λ sum. (message : List ℕ) × IsSumOf message sum) }
    ensures sum { IfOk result (λ sum. B.observed ≡ true → IsSomeAnd (bytes_of_node ((B.shown bundle.old).tree path.now)) (λ bytes. IsSumOf bytes sum)) }
{
    let mut room = vec![in alloc; 0; PIECE].map_err(no_memory)?;
    let mut hashing = Hashing::new();
    'pieces: while hashing.size <= MAX_FILE {
        if take_piece(alloc, bundle, path, &mut room, &mut hashing)? {
            return Ok(hashing.finish());
        }
    }
    Ok(hashing.finish())
}
