// Whether a pod runs, and its view.
ghost use Rattle.std.specs.Prelude.{◌≡◌, true, false, option_map, IfOk, IfSome, IsErrOf};
ghost use Rattle.dir_model.specs.Causes.{Rose};
ghost use Rattle.dir_model.specs.Local.{IsActive, has_own_open};
ghost use Rattle.dir_model.specs.Pods.{pod_text};
ghost use Rattle.metadata_reply.specs.Views.{IsWholeView, view_data};
ghost use Rattle.pod_report.specs.Requests.{OnlyAsksFor};
ghost use Rattle.metadata.specs.Looks.{looks_in_run};
ghost use Rattle.metadata.specs.Running.{is_running, TellsPhase};
ghost use Rattle.metadata.specs.PodViews.{TellsPod, TellsRunning};

use crate::error::{MetaError, look_fault};
use crate::files::read_view;
use crate::token::has_digits;
use dir_trait::{Dir, Phase, PodId};
use metadata_reply::PodView;
use phase_read::{Found, read_phase};
use std::alloc::Global;

fn is_running(found: Found) -> bool
    ensures { result ≡ is_running found }
{
    match found {
        Found::At(Phase::Running, _) => true,
        _ => false,
    }
}

// Whether the pod runs.
fn runs<D: Dir>(alloc: Global, dir: &mut D, pod: PodId) -> Result<bool, MetaError>
    requires active { IsActive (D.shown dir.old).local }
    requires alone { has_own_open (D.shown dir.old).local (pod_text pod.bytes) ≡ false }
    ensures only { OnlyAsksFor D.observed looks_in_run (D.shown dir.old) (D.shown dir.new) }
    ensures cause { IsErrOf result MetaError.DirFault → Rose (D.shown dir.old).faults (D.shown dir.new).faults }
    ensures link { IsErrOf result MetaError.LinkFault → ⊥ }
    ensures tells { IfOk result (λ runs. D.observed ≡ true → TellsPhase pod runs (D.shown dir.old) (D.shown dir.new)) }
{
    match read_phase(alloc, dir, pod) {
        Ok(found) => Ok(is_running(found)),
        Err(error) => Err(look_fault(error)),
    }
}

// The view of the pod, where it runs.
fn running_view<D: Dir>(
    alloc: Global,
    dir: &mut D,
    pod: PodId,
) -> Result<Option<PodView>, MetaError>
    requires active { IsActive (D.shown dir.old).local }
    requires alone { has_own_open (D.shown dir.old).local (pod_text pod.bytes) ≡ false }
    ensures only { OnlyAsksFor D.observed looks_in_run (D.shown dir.old) (D.shown dir.new) }
    ensures cause { IsErrOf result MetaError.DirFault → Rose (D.shown dir.old).faults (D.shown dir.new).faults }
    ensures link { IsErrOf result MetaError.LinkFault → ⊥ }
    ensures whole { IfOk result (λ found. IfSome found (λ v. IsWholeView (view_data v))) }
    ensures tells { IfOk result (λ found. D.observed ≡ true → TellsRunning pod (option_map view_data found) (D.shown dir.old) (D.shown dir.new)) }
{
    match runs(alloc, dir, pod) {
        Ok(true) => read_view(alloc, dir, pod),
        Ok(false) => Ok(None),
        Err(error) => Err(error),
    }
}

/// The view of the pod, where its token has these digits and it runs; none where its token is another, or it
/// doesn't run, or a file of its view is missing or has no reading. No more than its token is read where that
/// is another. `DirFault` where the directory failed, `NoMemory` where memory ran out.
pub(crate) fn pod_with<D: Dir>(
    alloc: Global,
    dir: &mut D,
    pod: PodId,
    digits: &[u8],
) -> Result<Option<PodView>, MetaError>
    requires active { IsActive (D.shown dir.old).local }
    requires alone { has_own_open (D.shown dir.old).local (pod_text pod.bytes) ≡ false }
    ensures only { OnlyAsksFor D.observed looks_in_run (D.shown dir.old) (D.shown dir.new) }
    ensures cause { IsErrOf result MetaError.DirFault → Rose (D.shown dir.old).faults (D.shown dir.new).faults }
    ensures link { IsErrOf result MetaError.LinkFault → ⊥ }
    ensures whole { IfOk result (λ found. IfSome found (λ v. IsWholeView (view_data v))) }
    ensures tells { IfOk result (λ found. D.observed ≡ true → TellsPod pod digits.now (option_map view_data found) (D.shown dir.old) (D.shown dir.new)) }
{
    match has_digits(alloc, dir, pod, digits) {
        Ok(true) => running_view(alloc, dir, pod),
        Ok(false) => Ok(None),
        Err(error) => Err(error),
    }
}
