// A file of a folder, read from its start.
ghost use Rattle.std.specs.Prelude.{◌≡◌, ◌≤◌, ◌<◌, ◌+◌, ℕ, List, true, false, IfOk, IfErr, IsErrOf, IsSomeAnd, IfSome, MatchOption, None, length, take};
ghost use Rattle.dir_trait.specs.Causes.{Rose};
ghost use Rattle.dir_trait.specs.Paths.{is_path};
ghost use Rattle.dir_trait.specs.Local.{IsActive};
ghost use Rattle.dir_model.specs.Replies.{is_fault};
ghost use Rattle.dir_files.specs.Reads.{inner_at, OnlyReads, ReadsNext, ReadsUp, WasMissing, FileStaysBetween, IsCounted, is_read_refusal};

use dir_trait::{Dir, DirError, Spot};
use std::alloc::{AllocError, Global};

// How much one read asks for at most.
const PIECE: usize = 65_536;

/// Why a file wasn't read.
#[derive(Clone, Copy, Debug, PartialEq, Eq)]
pub enum ReadError {
    /// The directory failed.
    DirFault,
    /// Memory ran out.
    NoMemory,
}

// What a fault of the directory means to a reader.
fn read_error(error: DirError) -> ReadError
    requires { is_fault error ≡ true }
    ensures fault { result ≡ ReadError.DirFault → error ≡ DirError.Failed }
    ensures memory { result ≡ ReadError.NoMemory → error ≡ DirError.NoMemory }
{
    match error {
        DirError::Failed => ReadError::DirFault,
        DirError::NoMemory => ReadError::NoMemory,
        _ => unreachable!(),
    }
}

fn out_of_memory(_error: AllocError) -> DirError
    ensures { result ≡ DirError.NoMemory }
{
    DirError::NoMemory
}

// Appends the next bytes of the file, as many as the room takes, and answers whether it ends there.
fn read_piece<D: Dir>(
    alloc: Global,
    dir: &mut D,
    spot: &Spot,
    path: &str,
    room: &mut [u8],
    bytes: &mut Vec<u8>,
) -> Result<bool, DirError>
    requires active { IsActive (D.shown dir.old).local }
    requires path { is_path path.now ≡ true }
    requires room { 0 < length room.old }
    ensures counted { (D.shown dir.new).calls ≤ (D.shown dir.old).calls + 1 }
    ensures cause { IsErrOf result DirError.Failed → Rose (D.shown dir.old).faults (D.shown dir.new).faults }
    ensures refusals { IfErr result (λ e. is_read_refusal e ≡ true) }
    ensures only { OnlyReads D.observed (inner_at spot.now path.now) (D.shown dir.old) (D.shown dir.new) }
    ensures most { IfOk result (λ ended. length bytes.new.items ≤ length bytes.old.items + length room.old) }
    ensures grew { IfOk result (λ ended. ended ≡ false → length bytes.old.items < length bytes.new.items) }
    ensures full { IfOk result (λ ended. ended ≡ false → length bytes.new.items ≡ length bytes.old.items + length room.old) }
    ensures read { IfOk result (λ ended. D.observed ≡ true
        → ReadsNext (inner_at spot.now path.now) (length room.old) ended bytes.old.items bytes.new.items (D.shown dir.old) (D.shown dir.new)) }
    ensures missing { IsErrOf result DirError.Missing → D.observed ≡ true → WasMissing (inner_at spot.now path.now) (D.shown dir.old) (D.shown dir.new) }
{
    let spot = *spot;
    let count = dir.read_in(alloc, spot, path, bytes.len() as u64, room)?;
    bytes
        .extend_from_slice(&room[..count])
        .map_err(out_of_memory)?;
    Ok(count < room.len())
}

// Reads the pieces one after the other.
fn read_pieces<D: Dir>(
    alloc: Global,
    dir: &mut D,
    spot: &Spot,
    path: &str,
    most: usize,
) -> Result<Vec<u8>, DirError>
    requires active { IsActive (D.shown dir.old).local }
    requires path { is_path path.now ≡ true }
    requires most { 0 < most }
    ensures counted { IsCounted most (D.shown dir.old) (D.shown dir.new) }
    ensures cause { IsErrOf result DirError.Failed → Rose (D.shown dir.old).faults (D.shown dir.new).faults }
    ensures refusals { IfErr result (λ e. is_read_refusal e ≡ true) }
    ensures only { OnlyReads D.observed (inner_at spot.now path.now) (D.shown dir.old) (D.shown dir.new) }
    ensures most { IfOk result (λ bytes. length bytes.items ≤ most) }
    ensures read { IfOk result (λ bytes. D.observed ≡ true
        → ReadsUp (inner_at spot.now path.now) most (D.shown dir.old) (D.shown dir.new) bytes.items) }
    ensures missing { IsErrOf result DirError.Missing → D.observed ≡ true → WasMissing (inner_at spot.now path.now) (D.shown dir.old) (D.shown dir.new) }
{
    let mut room = vec![in alloc; 0; PIECE].map_err(out_of_memory)?;
    let mut bytes = Vec::new(alloc);
    'pieces: while bytes.len() < most {
        let wanted = room.len().min(most - bytes.len());
        if read_piece(alloc, dir, spot, path, &mut room[..wanted], &mut bytes)? {
            return Ok(bytes);
        }
    }
    Ok(bytes)
}

/// The bytes of the file at a path of the folder at a location: all of them, or the first `most` where it
/// has more. They are read in pieces of 65,536 bytes, each by one call and as the file stands then. `None`
/// where no file stands there, at the first piece or a later one. `DirFault` where the directory failed,
/// `NoMemory` where memory ran out.
pub fn read_file<D: Dir>(
    alloc: Global,
    dir: &mut D,
    spot: Spot,
    path: &str,
    most: usize,
) -> Result<Option<Vec<u8>>, ReadError>
    requires active { IsActive (D.shown dir.old).local }
    requires path { is_path path.now ≡ true }
    requires most { 0 < most }
    ensures counted { IsCounted most (D.shown dir.old) (D.shown dir.new) }
    ensures cause { IsErrOf result ReadError.DirFault → Rose (D.shown dir.old).faults (D.shown dir.new).faults }
    ensures only { OnlyReads D.observed (inner_at spot path.now) (D.shown dir.old) (D.shown dir.new) }
    ensures most { IfOk result (λ found. IfSome found (λ bytes. length bytes.items ≤ most)) }
    ensures read { IfOk result (λ found. D.observed ≡ true → MatchOption found
        (WasMissing (inner_at spot path.now) (D.shown dir.old) (D.shown dir.new))
        (λ bytes. ReadsUp (inner_at spot path.now) most (D.shown dir.old) (D.shown dir.new) bytes.items)) }
    ensures whole { IfOk result (λ found. D.observed ≡ true → (file : List ℕ)
        → FileStaysBetween (inner_at spot path.now) file (D.shown dir.old) (D.shown dir.new) → IsSomeAnd found (λ bytes. bytes.items ≡ take most file)) }
{
    let spot = &spot;
    match read_pieces(alloc, dir, spot, path, most) {
        Ok(bytes) => Ok(Some(bytes)),
        Err(DirError::Missing) => Ok(None),
        Err(error) => Err(read_error(error)),
    }
}
