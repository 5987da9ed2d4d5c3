// The pod that a token names.
ghost use Rattle.std.specs.Prelude.{◌≡◌, true, option_map, IfOk, IfSome, IfErr, IsErrOf};
ghost use Rattle.dir_model.specs.Causes.{Rose};
ghost use Rattle.dir_model.specs.Local.{IsActive};
ghost use Rattle.dir_files.specs.Listed.{ShowsAreaBetween};
ghost use Rattle.metadata_reply.specs.Views.{IsWholeView, view_data};
ghost use Rattle.pod_report.specs.Requests.{HasNoPodOpen, OnlyAsksFor};
ghost use Rattle.metadata.specs.Looks.{looks_in_run};
ghost use Rattle.metadata.specs.PodViews.{FindsPodByToken, TellsNamed};
ghost use Rattle.metadata.specs.Finding.{TellsAll};

use crate::error::{MetaError, list_fault};
use crate::running::pod_with;
use crate::token::token_digits;
use dir_files::names_of;
use dir_trait::{Area, Dir, Name, Names, PodId};
use metadata_reply::PodView;
use std::alloc::Global;

// The names of the folders in run.
fn names_in_run<D: Dir>(alloc: Global, dir: &mut D) -> Result<Names, MetaError>
    requires active { IsActive (D.shown dir.old).local }
    ensures only { OnlyAsksFor D.observed looks_in_run (D.shown dir.old) (D.shown dir.new) }
    ensures cause { IsErrOf result MetaError.DirFault → Rose (D.shown dir.old).faults (D.shown dir.new).faults }
    ensures link { IsErrOf result MetaError.LinkFault → ⊥ }
    ensures shows { IfOk result (λ names. D.observed ≡ true → ShowsAreaBetween (D.shown dir.old) (D.shown dir.new) Area.Run names) }
{
    match names_of(alloc, dir, Area::Run) {
        Ok(names) => Ok(names),
        Err(error) => Err(list_fault(error)),
    }
}

// The view of the pod of this name, if it is one and its token has these digits.
fn named_with<D: Dir>(
    alloc: Global,
    dir: &mut D,
    name: &Name,
    digits: &[u8],
) -> Result<Option<PodView>, MetaError>
    requires active { IsActive (D.shown dir.old).local }
    requires alone { HasNoPodOpen (D.shown dir.old).local }
    ensures only { OnlyAsksFor D.observed looks_in_run (D.shown dir.old) (D.shown dir.new) }
    ensures cause { IsErrOf result MetaError.DirFault → Rose (D.shown dir.old).faults (D.shown dir.new).faults }
    ensures link { IsErrOf result MetaError.LinkFault → ⊥ }
    ensures whole { IfOk result (λ found. IfSome found (λ v. IsWholeView (view_data v))) }
    ensures tells { IfOk result (λ found. D.observed ≡ true → TellsNamed name.now digits.now (option_map view_data found) (D.shown dir.old) (D.shown dir.new)) }
{
    match PodId::parse(name.as_str()) {
        Some(pod) => pod_with(alloc, dir, pod, digits),
        None => Ok(None),
    }
}

// The view of the first pod of these whose token has these digits.
fn among_names<D: Dir>(
    alloc: Global,
    dir: &mut D,
    names: &[Name],
    digits: &[u8],
) -> Result<Option<PodView>, MetaError>
    requires active { IsActive (D.shown dir.old).local }
    requires alone { HasNoPodOpen (D.shown dir.old).local }
    ensures only { OnlyAsksFor D.observed looks_in_run (D.shown dir.old) (D.shown dir.new) }
    ensures cause { IsErrOf result MetaError.DirFault → Rose (D.shown dir.old).faults (D.shown dir.new).faults }
    ensures link { IsErrOf result MetaError.LinkFault → ⊥ }
    ensures whole { IfOk result (λ found. IfSome found (λ v. IsWholeView (view_data v))) }
    ensures tells { IfOk result (λ found. D.observed ≡ true → TellsAll names.now digits.now (option_map view_data found) (D.shown dir.old) (D.shown dir.new)) }
{
    'names: for name in names {
        match named_with(alloc, dir, name, digits) {
            Ok(None) => {}
            Ok(Some(view)) => return Ok(Some(view)),
            Err(error) => return Err(error),
        }
    }
    Ok(None)
}

/// The view of the pod that runs with this token: its manifest, and that of each of its apps' images. It
/// lists `run`, reads the tokens of the pods there until one fits, and only of that one whether it runs, and
/// its files. Where every process keeps the local rules, the pod that was found ran at an own event of the
/// look; and where none was found, each pod didn't run at one, or its token was missing or another, or a file
/// of its view was missing or had no reading.
///
/// `DirFault` where the directory failed, `NoMemory` where memory ran out; never `LinkFault`.
pub fn find_pod<D: Dir>(
    alloc: Global,
    dir: &mut D,
    token: &[u8; 16],
) -> Result<Option<PodView>, MetaError>
    requires active { IsActive (D.shown dir.old).local }
    requires alone { HasNoPodOpen (D.shown dir.old).local }
    ensures only { OnlyAsksFor D.observed looks_in_run (D.shown dir.old) (D.shown dir.new) }
    ensures cause { IsErrOf result MetaError.DirFault → Rose (D.shown dir.old).faults (D.shown dir.new).faults }
    ensures link { IsErrOf result MetaError.LinkFault → ⊥ }
    ensures whole { IfOk result (λ found. IfSome found (λ v. IsWholeView (view_data v))) }
    ensures finds { IfOk result (λ found. D.observed ≡ true → FindsPodByToken token.now (option_map view_data found) (D.shown dir.old) (D.shown dir.new)) }
{
    let digits = token_digits(token);
    match names_in_run(alloc, dir) {
        Ok(names) => among_names(alloc, dir, names.as_slice(), digits.as_slice()),
        Err(error) => Err(error),
    }
}
