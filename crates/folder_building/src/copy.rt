// The bytes of a file that is made: given, or copied in pieces.
ghost use Rattle.std.specs.Prelude.{◌≡◌, ◌≤◌, ◌+◌, ℕ, true, List, [], ◌∷◌, ◌++◌, length, take, IfOk, IfErr, IsErrOf};
ghost use Rattle.dir_trait.specs.Causes.{Rose};
ghost use Rattle.dir_trait.specs.Paths.{is_path};
ghost use Rattle.dir_trait.specs.Local.{IsActive};
ghost use Rattle.dir_trait.specs.Effects.{OnlyAsks};
ghost use Rattle.folder_building.specs.Work.{EndsWithStrayBuilding, builds_at, either};
ghost use Rattle.tree_digest.specs.FileChecks.{HasTaken};
ghost use Rattle.folder_building.specs.Sources.{Same, ReadsOn, ReadsOrigin, IsLonger, IsUnlike, IsLike};
ghost use Rattle.folder_building.specs.Stored.{SeesStoredBytes, EndsCopy, WasLike, WasUnlike, reads_stored};
ghost use Rattle.folder_building.specs.Making.{Appends, AppendsInPieces, CopiesOn, Copies, Spoils, SpoilsUnder};

use crate::error::{BuildError, build_error};
use crate::plan::Origin;
use crate::source::{Source, SourceError};
use dir_trait::{Dir, Spot};
use std::alloc::{AllocError, Global};
use tree_digest::FileCheck;

// How many bytes are appended at once.
const PIECE: usize = 65_536;

// Appends one piece.
fn append<D: Dir>(
    alloc: Global,
    dir: &mut D,
    spot: &Spot,
    path: &str,
    piece: &[u8],
) -> Result<(), BuildError>
    requires active { IsActive (D.shown dir.old).local }
    requires path { is_path path.now ≡ true }
    ensures fault { IsErrOf result BuildError.DirFault → Rose (D.shown dir.old).faults (D.shown dir.new).faults }
    ensures never { IfErr result (λ e. e ≡ BuildError.SourceFault → ⊥) }
    ensures plain { (n : ℕ) → IsErrOf result (BuildError.Unlike n) → ⊥ }
    ensures worked { OnlyAsks D.observed (builds_at spot.now) (D.shown dir.old) (D.shown dir.new) }
    ensures stray { IsErrOf result BuildError.Stray → D.observed ≡ true → EndsWithStrayBuilding (builds_at spot.now) (D.shown dir.old) (D.shown dir.new) }
    ensures done { IfOk result (λ done. D.observed ≡ true → Appends spot.now path.now (piece.now ∷ []) (D.shown dir.old) (D.shown dir.new)) }
    ensures refused { IfErr result (λ e. D.observed ≡ true → Spoils spot.now path.now (D.shown dir.old) (D.shown dir.new)) }
{
    let spot = *spot;
    match dir.append_in(alloc, spot, path, piece) {
        Ok(()) => Ok(()),
        Err(error) => Err(build_error(error)),
    }
}

/// Appends given bytes to a file that was made, in pieces.
pub fn write<D: Dir>(
    alloc: Global,
    dir: &mut D,
    spot: &Spot,
    path: &str,
    bytes: &[u8],
) -> Result<(), BuildError>
    requires active { IsActive (D.shown dir.old).local }
    requires path { is_path path.now ≡ true }
    ensures fault { IsErrOf result BuildError.DirFault → Rose (D.shown dir.old).faults (D.shown dir.new).faults }
    ensures never { IfErr result (λ e. e ≡ BuildError.SourceFault → ⊥) }
    ensures plain { (n : ℕ) → IsErrOf result (BuildError.Unlike n) → ⊥ }
    ensures worked { OnlyAsks D.observed (builds_at spot.now) (D.shown dir.old) (D.shown dir.new) }
    ensures stray { IsErrOf result BuildError.Stray → D.observed ≡ true → EndsWithStrayBuilding (builds_at spot.now) (D.shown dir.old) (D.shown dir.new) }
    ensures done { IfOk result (λ done. AppendsInPieces D.observed spot.now path.now bytes.now (D.shown dir.old) (D.shown dir.new)) }
    ensures refused { IfErr result (λ e. D.observed ≡ true → Spoils spot.now path.now (D.shown dir.old) (D.shown dir.new)) }
{
    let mut at = 0;
    'pieces: while at < bytes.len() {
        let end = at + PIECE.min(bytes.len() - at);
        append(alloc, dir, spot, path, &bytes[at..end])?;
        at = end;
    }
    Ok(())
}

fn source_error(error: SourceError, place: usize) -> BuildError
    ensures source { result ≡ BuildError.SourceFault → error ≡ SourceError.Failed }
    ensures fault { result ≡ BuildError.DirFault → error ≡ SourceError.DirFault }
    ensures stray { result ≡ BuildError.Stray → ⊥ }
    ensures unlike { (n : ℕ) → result ≡ BuildError.Unlike n → (n ≡ place) × (error ≡ SourceError.Missing) }
{
    match error {
        SourceError::Missing => BuildError::Unlike(place),
        SourceError::Failed => BuildError::SourceFault,
        SourceError::DirFault => BuildError::DirFault,
        SourceError::NoMemory => BuildError::NoMemory,
    }
}

fn out_of_memory(_error: AllocError) -> BuildError
    ensures { result ≡ BuildError.NoMemory }
{
    BuildError::NoMemory
}

// Reads the next bytes of a file, and checks them. At most this many are left.
fn take_piece<D: Dir, S: Source>(
    alloc: Global,
    dir: &mut D,
    source: &mut S,
    origin: &Origin,
    place: usize,
    at: u64,
    left: u64,
    room: &mut [u8],
    check: &mut FileCheck,
) -> Result<usize, BuildError>
    requires active { IsActive (D.shown dir.old).local }
    requires origin { is_path origin.now.path ≡ true }
    ensures fault { IsErrOf result BuildError.DirFault → Rose (D.shown dir.old).faults (D.shown dir.new).faults }
    ensures source { IsErrOf result BuildError.SourceFault → Rose (S.shown source.old).faults (S.shown source.new).faults }
    ensures never { IfErr result (λ e. e ≡ BuildError.Stray → ⊥) }
    ensures same { Same (S.shown source.old) (S.shown source.new) }
    ensures worked { OnlyAsks D.observed (S.shown source.old).asks (D.shown dir.old) (D.shown dir.new) }
    ensures copies { OnlyAsks D.observed (reads_stored (S.stored origin.now)) (D.shown dir.old) (D.shown dir.new) }
    ensures known { D.observed ≡ true → ReadsOn (S.shown source.old) (D.shown dir.old) (D.shown dir.new) }
    ensures room { length room.new ≡ length room.old }
    ensures unlike { (n : ℕ) → IsErrOf result (BuildError.Unlike n) → (n ≡ place) × IsLonger (S.shown source.old) origin.now (at + left) }
    ensures lacks { (n : ℕ) → IsErrOf result (BuildError.Unlike n) → D.observed ≡ true → EndsCopy (S.stored origin.now) at left (D.shown dir.old) (D.shown dir.new) }
    ensures read { IfOk result (λ count. ReadsOrigin (S.shown source.old) origin.now at (length room.old) count room.new) }
    ensures sees { IfOk result (λ count. D.observed ≡ true → SeesStoredBytes (S.stored origin.now) at (length room.old) (take count room.new) (D.shown dir.old) (D.shown dir.new)) }
    ensures most { IfOk result (λ count. count ≤ length room.new) }
    ensures left { IfOk result (λ count. count ≤ left) }
    ensures taken { IfOk result (λ count. (size : ℕ) (sha message : List ℕ)
        → HasTaken check.old size sha message → HasTaken check.new size sha (message ++ take count room.new)) }
{
    let count = match source.read(alloc, dir, origin, at, room) {
        Ok(count) => count,
        Err(error) => return Err(source_error(error, place)),
    };
    if count as u64 > left {
        return Err(BuildError::Unlike(place));
    }
    check.piece(&room[..count]);
    Ok(count)
}

// Copies the next bytes of a file, and answers how many. At most this many are left.
fn copy_piece<D: Dir, S: Source>(
    alloc: Global,
    dir: &mut D,
    source: &mut S,
    spot: &Spot,
    path: &str,
    origin: &Origin,
    place: usize,
    at: u64,
    left: u64,
    room: &mut [u8],
    check: &mut FileCheck,
) -> Result<usize, BuildError>
    requires active { IsActive (D.shown dir.old).local }
    requires path { is_path path.now ≡ true }
    requires origin { is_path origin.now.path ≡ true }
    ensures fault { IsErrOf result BuildError.DirFault → Rose (D.shown dir.old).faults (D.shown dir.new).faults }
    ensures source { IsErrOf result BuildError.SourceFault → Rose (S.shown source.old).faults (S.shown source.new).faults }
    ensures same { Same (S.shown source.old) (S.shown source.new) }
    ensures worked { OnlyAsks D.observed (either (builds_at spot.now) (S.shown source.old).asks) (D.shown dir.old) (D.shown dir.new) }
    ensures copies { OnlyAsks D.observed (either (builds_at spot.now) (reads_stored (S.stored origin.now))) (D.shown dir.old) (D.shown dir.new) }
    ensures stray { IsErrOf result BuildError.Stray → D.observed ≡ true
        → EndsWithStrayBuilding (either (builds_at spot.now) (S.shown source.old).asks) (D.shown dir.old) (D.shown dir.new) }
    ensures room { length room.new ≡ length room.old }
    ensures unlike { (n : ℕ) → IsErrOf result (BuildError.Unlike n) → (n ≡ place) × IsLonger (S.shown source.old) origin.now (at + left) }
    ensures lacks { (n : ℕ) → IsErrOf result (BuildError.Unlike n) → D.observed ≡ true → EndsCopy (S.stored origin.now) at left (D.shown dir.old) (D.shown dir.new) }
    ensures read { IfOk result (λ count. ReadsOrigin (S.shown source.old) origin.now at (length room.old) count room.new) }
    ensures sees { IfOk result (λ count. D.observed ≡ true → SeesStoredBytes (S.stored origin.now) at (length room.old) (take count room.new) (D.shown dir.old) (D.shown dir.new)) }
    ensures most { IfOk result (λ count. count ≤ length room.new) }
    ensures left { IfOk result (λ count. count ≤ left) }
    ensures taken { IfOk result (λ count. (size : ℕ) (sha message : List ℕ)
        → HasTaken check.old size sha message → HasTaken check.new size sha (message ++ take count room.new)) }
    ensures done { IfOk result (λ count. CopiesOn D.observed (S.shown source.old) spot.now path.now count check.old check.new (D.shown dir.old) (D.shown dir.new)) }
    ensures refused { IfErr result (λ e. D.observed ≡ true → SpoilsUnder (S.shown source.old) spot.now path.now (D.shown dir.old) (D.shown dir.new)) }
{
    let count = take_piece(alloc, dir, source, origin, place, at, left, room, check)?;
    if count > 0 {
        append(alloc, dir, spot, path, &room[..count])?;
    }
    Ok(count)
}

/// Copies a file into one that was made, in pieces. `Unlike` with this place where it is missing, or
/// hasn't this size and SHA-512.
pub fn copy<D: Dir, S: Source>(
    alloc: Global,
    dir: &mut D,
    source: &mut S,
    spot: &Spot,
    path: &str,
    origin: &Origin,
    place: usize,
    size: u64,
    sha: [u8; 64],
) -> Result<(), BuildError>
    requires active { IsActive (D.shown dir.old).local }
    requires path { is_path path.now ≡ true }
    requires origin { is_path origin.now.path ≡ true }
    ensures fault { IsErrOf result BuildError.DirFault → Rose (D.shown dir.old).faults (D.shown dir.new).faults }
    ensures source { IsErrOf result BuildError.SourceFault → Rose (S.shown source.old).faults (S.shown source.new).faults }
    ensures unlike { (n : ℕ) → IsErrOf result (BuildError.Unlike n) → (n ≡ place) × IsUnlike (S.shown source.old) origin.now size sha }
    ensures lacks { (n : ℕ) → IsErrOf result (BuildError.Unlike n) → D.observed ≡ true → WasUnlike (S.stored origin.now) size sha (D.shown dir.old) (D.shown dir.new) }
    ensures same { Same (S.shown source.old) (S.shown source.new) }
    ensures worked { OnlyAsks D.observed (either (builds_at spot.now) (S.shown source.old).asks) (D.shown dir.old) (D.shown dir.new) }
    ensures copies { OnlyAsks D.observed (either (builds_at spot.now) (reads_stored (S.stored origin.now))) (D.shown dir.old) (D.shown dir.new) }
    ensures stray { IsErrOf result BuildError.Stray → D.observed ≡ true
        → EndsWithStrayBuilding (either (builds_at spot.now) (S.shown source.old).asks) (D.shown dir.old) (D.shown dir.new) }
    ensures like { IfOk result (λ done. IsLike (S.shown source.old) origin.now size sha) }
    ensures had { IfOk result (λ done. D.observed ≡ true → WasLike (S.stored origin.now) size sha (D.shown dir.old) (D.shown dir.new)) }
    ensures done { IfOk result (λ done. Copies D.observed (S.shown source.old) spot.now path.now size sha (D.shown dir.old) (D.shown dir.new)) }
    ensures refused { IfErr result (λ e. D.observed ≡ true → SpoilsUnder (S.shown source.old) spot.now path.now (D.shown dir.old) (D.shown dir.new)) }
{
    let mut room = vec![in alloc; 0; PIECE].map_err(out_of_memory)?;
    let mut check = FileCheck::new(size, sha);
    let mut at: u64 = 0;
    let mut more = true;
    'pieces: while more {
        let count = copy_piece(
            alloc,
            dir,
            source,
            spot,
            path,
            origin,
            place,
            at,
            size - at,
            &mut room,
            &mut check,
        )?;
        at += count as u64;
        more = count == PIECE;
    }
    if check.matches() {
        Ok(())
    } else {
        Err(BuildError::Unlike(place))
    }
}
