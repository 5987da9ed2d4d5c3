// A plan carried out in the folder that this process makes.
ghost use Rattle.std.specs.Prelude.{◌≡◌, ℕ, true, false, IfOk, IfErr, IsErrOf};
ghost use Rattle.dir_trait.specs.Causes.{Rose};
ghost use Rattle.dir_trait.specs.Paths.{is_path};
ghost use Rattle.dir_trait.specs.Local.{IsActive};
ghost use Rattle.dir_trait.specs.Effects.{OnlyAsks};
ghost use Rattle.folder_building.specs.Work.{EndsWithStrayBuilding, builds_at, either};
ghost use Rattle.folder_building.specs.Sources.{Same, IsUnlike, UnlikeContent, UnlikeAt, IsLike, LikeContent, AreLike};
ghost use Rattle.folder_building.specs.Stored.{WasLike, WasUnlike, HadContent, HadContents, LacksContent, LacksAt, reads_stored, reads_content, reads_contents};
ghost use Rattle.folder_building.specs.Making.{AddsPlanEntry, Tries, FillsWith, BeginsPlan, CarriesOut};
ghost use Rattle.folder_building.specs.Changes.{Makes, RefusesEntry, SyncsPath, Unsyncs, MakesGivenFile, MakesCopiedFile, TriesFile, TriesCopiedFile, SyncsAll, UnsyncsAll};
ghost use Rattle.folder_building.specs.Plans.{is_plan, has_origin};

use crate::copy::{copy, write};
use crate::error::{BuildError, build_error};
use crate::plan::{Content, Origin, PlanEntry};
use crate::source::Source;
use dir_trait::{Dir, Spot};
use std::alloc::Global;

// Makes a directory.
fn make_dir<D: Dir>(alloc: Global, dir: &mut D, spot: &Spot, path: &str) -> Result<(), BuildError>
    requires active { IsActive (D.shown dir.old).local }
    requires path { is_path path.now ≡ true }
    ensures fault { IsErrOf result BuildError.DirFault → Rose (D.shown dir.old).faults (D.shown dir.new).faults }
    ensures never { IfErr result (λ e. e ≡ BuildError.SourceFault → ⊥) }
    ensures plain { (n : ℕ) → IsErrOf result (BuildError.Unlike n) → ⊥ }
    ensures worked { OnlyAsks D.observed (builds_at spot.now) (D.shown dir.old) (D.shown dir.new) }
    ensures stray { IsErrOf result BuildError.Stray → D.observed ≡ true
        → EndsWithStrayBuilding (builds_at spot.now) (D.shown dir.old) (D.shown dir.new) }
    ensures done { IfOk result (λ done. D.observed ≡ true → Makes spot.now path.now false (D.shown dir.old) (D.shown dir.new)) }
    ensures refused { IfErr result (λ e. D.observed ≡ true → RefusesEntry spot.now path.now false (D.shown dir.old) (D.shown dir.new)) }
{
    let spot = *spot;
    match dir.make_dir_in(alloc, spot, path) {
        Ok(()) => Ok(()),
        Err(error) => Err(build_error(error)),
    }
}

// Makes an empty file.
fn make_file<D: Dir>(alloc: Global, dir: &mut D, spot: &Spot, path: &str) -> Result<(), BuildError>
    requires active { IsActive (D.shown dir.old).local }
    requires path { is_path path.now ≡ true }
    ensures fault { IsErrOf result BuildError.DirFault → Rose (D.shown dir.old).faults (D.shown dir.new).faults }
    ensures never { IfErr result (λ e. e ≡ BuildError.SourceFault → ⊥) }
    ensures plain { (n : ℕ) → IsErrOf result (BuildError.Unlike n) → ⊥ }
    ensures worked { OnlyAsks D.observed (builds_at spot.now) (D.shown dir.old) (D.shown dir.new) }
    ensures stray { IsErrOf result BuildError.Stray → D.observed ≡ true
        → EndsWithStrayBuilding (builds_at spot.now) (D.shown dir.old) (D.shown dir.new) }
    ensures done { IfOk result (λ done. D.observed ≡ true → Makes spot.now path.now true (D.shown dir.old) (D.shown dir.new)) }
    ensures refused { IfErr result (λ e. D.observed ≡ true → RefusesEntry spot.now path.now true (D.shown dir.old) (D.shown dir.new)) }
{
    let spot = *spot;
    match dir.make_file_in(alloc, spot, path) {
        Ok(()) => Ok(()),
        Err(error) => Err(build_error(error)),
    }
}

// Syncs a file, or the names in a directory.
fn sync<D: Dir>(alloc: Global, dir: &mut D, spot: &Spot, path: &str) -> Result<(), BuildError>
    requires active { IsActive (D.shown dir.old).local }
    requires path { is_path path.now ≡ true }
    ensures fault { IsErrOf result BuildError.DirFault → Rose (D.shown dir.old).faults (D.shown dir.new).faults }
    ensures never { IfErr result (λ e. e ≡ BuildError.SourceFault → ⊥) }
    ensures plain { (n : ℕ) → IsErrOf result (BuildError.Unlike n) → ⊥ }
    ensures worked { OnlyAsks D.observed (builds_at spot.now) (D.shown dir.old) (D.shown dir.new) }
    ensures stray { IsErrOf result BuildError.Stray → D.observed ≡ true
        → EndsWithStrayBuilding (builds_at spot.now) (D.shown dir.old) (D.shown dir.new) }
    ensures done { IfOk result (λ done. D.observed ≡ true → SyncsPath spot.now path.now (D.shown dir.old) (D.shown dir.new)) }
    ensures refused { IfErr result (λ e. D.observed ≡ true → Unsyncs spot.now path.now (D.shown dir.old) (D.shown dir.new)) }
{
    let spot = *spot;
    match dir.sync_in(alloc, spot, path) {
        Ok(()) => Ok(()),
        Err(error) => Err(build_error(error)),
    }
}

// Makes a file with given bytes.
fn add_given<D: Dir>(
    alloc: Global,
    dir: &mut D,
    spot: &Spot,
    path: &str,
    bytes: &[u8],
) -> Result<(), BuildError>
    requires active { IsActive (D.shown dir.old).local }
    requires path { is_path path.now ≡ true }
    ensures fault { IsErrOf result BuildError.DirFault → Rose (D.shown dir.old).faults (D.shown dir.new).faults }
    ensures never { IfErr result (λ e. e ≡ BuildError.SourceFault → ⊥) }
    ensures plain { (n : ℕ) → IsErrOf result (BuildError.Unlike n) → ⊥ }
    ensures worked { OnlyAsks D.observed (builds_at spot.now) (D.shown dir.old) (D.shown dir.new) }
    ensures stray { IsErrOf result BuildError.Stray → D.observed ≡ true
        → EndsWithStrayBuilding (builds_at spot.now) (D.shown dir.old) (D.shown dir.new) }
    ensures done { IfOk result (λ done. MakesGivenFile D.observed spot.now path.now bytes.now (D.shown dir.old) (D.shown dir.new)) }
    ensures refused { IfErr result (λ e. D.observed ≡ true → TriesFile spot.now path.now (D.shown dir.old) (D.shown dir.new)) }
{
    make_file(alloc, dir, spot, path)?;
    write(alloc, dir, spot, path, bytes)
}

// Makes a file and copies its bytes.
fn add_copied<D: Dir, S: Source>(
    alloc: Global,
    dir: &mut D,
    source: &mut S,
    spot: &Spot,
    path: &str,
    origin: &Origin,
    place: usize,
    size: u64,
    sha: [u8; 64],
) -> Result<(), BuildError>
    requires active { IsActive (D.shown dir.old).local }
    requires path { is_path path.now ≡ true }
    requires origin { is_path origin.now.path ≡ true }
    ensures fault { IsErrOf result BuildError.DirFault → Rose (D.shown dir.old).faults (D.shown dir.new).faults }
    ensures source { IsErrOf result BuildError.SourceFault → Rose (S.shown source.old).faults (S.shown source.new).faults }
    ensures unlike { (n : ℕ) → IsErrOf result (BuildError.Unlike n) → (n ≡ place) × IsUnlike (S.shown source.old) origin.now size sha }
    ensures lacks { (n : ℕ) → IsErrOf result (BuildError.Unlike n) → D.observed ≡ true → WasUnlike (S.stored origin.now) size sha (D.shown dir.old) (D.shown dir.new) }
    ensures same { Same (S.shown source.old) (S.shown source.new) }
    ensures worked { OnlyAsks D.observed (either (builds_at spot.now) (S.shown source.old).asks) (D.shown dir.old) (D.shown dir.new) }
    ensures copies { OnlyAsks D.observed (either (builds_at spot.now) (reads_stored (S.stored origin.now))) (D.shown dir.old) (D.shown dir.new) }
    ensures stray { IsErrOf result BuildError.Stray → D.observed ≡ true
        → EndsWithStrayBuilding (either (builds_at spot.now) (S.shown source.old).asks) (D.shown dir.old) (D.shown dir.new) }
    ensures like { IfOk result (λ done. IsLike (S.shown source.old) origin.now size sha) }
    ensures had { IfOk result (λ done. D.observed ≡ true → WasLike (S.stored origin.now) size sha (D.shown dir.old) (D.shown dir.new)) }
    ensures done { IfOk result (λ done. MakesCopiedFile D.observed (S.shown source.old) spot.now path.now size sha (D.shown dir.old) (D.shown dir.new)) }
    ensures refused { IfErr result (λ e. D.observed ≡ true → TriesCopiedFile (S.shown source.old) spot.now path.now (D.shown dir.old) (D.shown dir.new)) }
{
    make_file(alloc, dir, spot, path)?;
    copy(alloc, dir, source, spot, path, origin, place, size, sha)
}

// Makes what one entry of a plan asks for.
fn add<D: Dir, S: Source>(
    alloc: Global,
    dir: &mut D,
    source: &mut S,
    spot: &Spot,
    entry: &PlanEntry,
    place: usize,
) -> Result<(), BuildError>
    requires active { IsActive (D.shown dir.old).local }
    requires path { is_path entry.now.path ≡ true }
    requires origin { has_origin entry.now.content ≡ true }
    ensures fault { IsErrOf result BuildError.DirFault → Rose (D.shown dir.old).faults (D.shown dir.new).faults }
    ensures source { IsErrOf result BuildError.SourceFault → Rose (S.shown source.old).faults (S.shown source.new).faults }
    ensures unlike { (n : ℕ) → IsErrOf result (BuildError.Unlike n) → (n ≡ place) × UnlikeContent (S.shown source.old) entry.now.content }
    ensures lacks { (n : ℕ) → IsErrOf result (BuildError.Unlike n) → D.observed ≡ true → LacksContent S.stored entry.now.content (D.shown dir.old) (D.shown dir.new) }
    ensures same { Same (S.shown source.old) (S.shown source.new) }
    ensures worked { OnlyAsks D.observed (either (builds_at spot.now) (S.shown source.old).asks) (D.shown dir.old) (D.shown dir.new) }
    ensures copies { OnlyAsks D.observed (either (builds_at spot.now) (reads_content S.stored entry.now.content)) (D.shown dir.old) (D.shown dir.new) }
    ensures stray { IsErrOf result BuildError.Stray → D.observed ≡ true
        → EndsWithStrayBuilding (either (builds_at spot.now) (S.shown source.old).asks) (D.shown dir.old) (D.shown dir.new) }
    ensures like { IfOk result (λ done. LikeContent (S.shown source.old) entry.now.content) }
    ensures had { IfOk result (λ done. D.observed ≡ true → HadContent S.stored entry.now.content (D.shown dir.old) (D.shown dir.new)) }
    ensures done { IfOk result (λ done. AddsPlanEntry D.observed (S.shown source.old) spot.now entry.now (D.shown dir.old) (D.shown dir.new)) }
    ensures refused { IfErr result (λ e. D.observed ≡ true → Tries (S.shown source.old) spot.now entry.now (D.shown dir.old) (D.shown dir.new)) }
{
    let path = entry.path.as_str();
    match &entry.content {
        Content::Directory => make_dir(alloc, dir, spot, path),
        Content::Given(bytes) => add_given(alloc, dir, spot, path, bytes.as_slice()),
        Content::Copied { origin, size, sha } => {
            add_copied(alloc, dir, source, spot, path, origin, place, *size, *sha)
        }
    }
}

// Makes what all entries of a plan ask for, in their order.
fn add_all<D: Dir, S: Source>(
    alloc: Global,
    dir: &mut D,
    source: &mut S,
    spot: &Spot,
    plan: &[PlanEntry],
) -> Result<(), BuildError>
    requires active { IsActive (D.shown dir.old).local }
    requires plan { is_plan plan.now ≡ true }
    ensures fault { IsErrOf result BuildError.DirFault → Rose (D.shown dir.old).faults (D.shown dir.new).faults }
    ensures source { IsErrOf result BuildError.SourceFault → Rose (S.shown source.old).faults (S.shown source.new).faults }
    ensures unlike { (n : ℕ) → IsErrOf result (BuildError.Unlike n) → UnlikeAt (S.shown source.old) plan.now n }
    ensures lacks { (n : ℕ) → IsErrOf result (BuildError.Unlike n) → D.observed ≡ true → LacksAt S.stored plan.now n (D.shown dir.old) (D.shown dir.new) }
    ensures same { Same (S.shown source.old) (S.shown source.new) }
    ensures worked { OnlyAsks D.observed (either (builds_at spot.now) (S.shown source.old).asks) (D.shown dir.old) (D.shown dir.new) }
    ensures copies { OnlyAsks D.observed (either (builds_at spot.now) (reads_contents S.stored plan.now)) (D.shown dir.old) (D.shown dir.new) }
    ensures stray { IsErrOf result BuildError.Stray → D.observed ≡ true
        → EndsWithStrayBuilding (either (builds_at spot.now) (S.shown source.old).asks) (D.shown dir.old) (D.shown dir.new) }
    ensures like { IfOk result (λ done. AreLike (S.shown source.old) plan.now) }
    ensures had { IfOk result (λ done. D.observed ≡ true → HadContents S.stored plan.now (D.shown dir.old) (D.shown dir.new)) }
    ensures done { IfOk result (λ done. FillsWith D.observed (S.shown source.old) spot.now plan.now plan.now (D.shown dir.old) (D.shown dir.new)) }
    ensures refused { IfErr result (λ e. D.observed ≡ true → BeginsPlan (S.shown source.old) spot.now plan.now (D.shown dir.old) (D.shown dir.new)) }
{
    let mut place = 0;
    'entries: for entry in plan {
        add(alloc, dir, source, spot, entry, place)?;
        place += 1;
    }
    Ok(())
}

// Syncs what all entries of a plan made, and the folder itself last.
fn sync_all<D: Dir>(
    alloc: Global,
    dir: &mut D,
    spot: &Spot,
    plan: &[PlanEntry],
) -> Result<(), BuildError>
    requires active { IsActive (D.shown dir.old).local }
    requires plan { is_plan plan.now ≡ true }
    ensures fault { IsErrOf result BuildError.DirFault → Rose (D.shown dir.old).faults (D.shown dir.new).faults }
    ensures never { IfErr result (λ e. e ≡ BuildError.SourceFault → ⊥) }
    ensures plain { (n : ℕ) → IsErrOf result (BuildError.Unlike n) → ⊥ }
    ensures worked { OnlyAsks D.observed (builds_at spot.now) (D.shown dir.old) (D.shown dir.new) }
    ensures stray { IsErrOf result BuildError.Stray → D.observed ≡ true
        → EndsWithStrayBuilding (builds_at spot.now) (D.shown dir.old) (D.shown dir.new) }
    ensures done { IfOk result (λ done. D.observed ≡ true → SyncsAll spot.now plan.now (D.shown dir.old) (D.shown dir.new)) }
    ensures refused { IfErr result (λ e. D.observed ≡ true → UnsyncsAll spot.now plan.now (D.shown dir.old) (D.shown dir.new)) }
{
    'entries: for entry in plan {
        sync(alloc, dir, spot, entry.path.as_str())?;
    }
    sync(alloc, dir, spot, "")
}

/// Fills the folder that this process has made at a location and that is still empty: makes what each
/// entry of the plan asks for, in their order, and then syncs every file, every directory and the
/// folder itself. Each path of the plan is new, and its directory comes before it. A file that is
/// copied is read to its end and checked by size and SHA-512 while it is copied: `Unlike` with the
/// number of the first entry whose file was missing at a read, or of which what was read differs or goes
/// on behind its size. `Stray` where the directory answered a change as if the folder weren't this process's own.
/// `SourceFault` where the source failed, `DirFault` where the directory did, `NoMemory` where memory ran
/// out. A refused call leaves a beginning of the plan.
pub fn carry_out<D: Dir, S: Source>(
    alloc: Global,
    dir: &mut D,
    source: &mut S,
    spot: Spot,
    plan: &[PlanEntry],
) -> Result<(), BuildError>
    requires active { IsActive (D.shown dir.old).local }
    requires plan { is_plan plan.now ≡ true }
    ensures fault { IsErrOf result BuildError.DirFault → Rose (D.shown dir.old).faults (D.shown dir.new).faults }
    ensures source { IsErrOf result BuildError.SourceFault → Rose (S.shown source.old).faults (S.shown source.new).faults }
    ensures unlike { (n : ℕ) → IsErrOf result (BuildError.Unlike n) → UnlikeAt (S.shown source.old) plan.now n }
    ensures lacks { (n : ℕ) → IsErrOf result (BuildError.Unlike n) → D.observed ≡ true → LacksAt S.stored plan.now n (D.shown dir.old) (D.shown dir.new) }
    ensures same { Same (S.shown source.old) (S.shown source.new) }
    ensures worked { OnlyAsks D.observed (either (builds_at spot) (S.shown source.old).asks) (D.shown dir.old) (D.shown dir.new) }
    ensures copies { OnlyAsks D.observed (either (builds_at spot) (reads_contents S.stored plan.now)) (D.shown dir.old) (D.shown dir.new) }
    ensures stray { IsErrOf result BuildError.Stray → D.observed ≡ true
        → EndsWithStrayBuilding (either (builds_at spot) (S.shown source.old).asks) (D.shown dir.old) (D.shown dir.new) }
    ensures like { IfOk result (λ done. AreLike (S.shown source.old) plan.now) }
    ensures had { IfOk result (λ done. D.observed ≡ true → HadContents S.stored plan.now (D.shown dir.old) (D.shown dir.new)) }
    ensures done { IfOk result (λ done. CarriesOut D.observed (S.shown source.old) spot plan.now (D.shown dir.old) (D.shown dir.new)) }
    ensures refused { IfErr result (λ e. D.observed ≡ true → BeginsPlan (S.shown source.old) spot plan.now (D.shown dir.old) (D.shown dir.new)) }
{
    let spot = &spot;
    add_all(alloc, dir, source, spot, plan)?;
    sync_all(alloc, dir, spot, plan)
}
