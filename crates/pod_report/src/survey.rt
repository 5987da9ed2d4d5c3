// The listing of pods.
ghost use Rattle.std.specs.Prelude.{◌≡◌, ◌++◌, ◌∷◌, [], true, IfOk, IfErr, IsErrOf};
ghost use Rattle.dir_trait.specs.Causes.{Rose};
ghost use Rattle.dir_trait.specs.Local.{IsActive};
ghost use Rattle.lifecycle.specs.Executions.{IsConforming};
ghost use Rattle.pod_report.specs.Before.{ListsPodsQuietly};
ghost use Rattle.pod_report.specs.Outside.{IsUnsaid};
ghost use Rattle.pod_report.specs.SeenLines.{AddsSeen, LinesSeenBetween, ListsSeenBetween};
ghost use Rattle.pod_report.specs.Requests.{OnlyAsksFor, surveys, HasNoPodOpen};
ghost use Rattle.pod_report.specs.Snapshot.{AddsPodLine, TellsPods, IsSnapshotBetween, LinesStanding};

use crate::error::{ReportError, look_fault};
use crate::line::{PodLine, line_of};
use dir_trait::{Dir, PodId};
use pod_lookup::listed_pods;
use std::alloc::Global;

fn push(lines: &mut Vec<PodLine>, line: PodLine) -> Result<(), ReportError>
    ensures items { IfOk result (λ done. lines.new.items ≡ lines.old.items ++ line ∷ []) }
    ensures memory { IfErr result (λ e. e ≡ ReportError.NoMemory) }
{
    match lines.push(line) {
        Ok(()) => Ok(()),
        Err(_) => Err(ReportError::NoMemory),
    }
}

// Adds the pod's line, where the pod exists.
fn add_line<D: Dir>(
    alloc: Global,
    dir: &mut D,
    pod: PodId,
    lines: &mut Vec<PodLine>,
) -> Result<(), ReportError>
    requires active { IsActive (D.shown dir.old).local }
    requires alone { HasNoPodOpen (D.shown dir.old).local }
    ensures only { OnlyAsksFor D.observed surveys (D.shown dir.old) (D.shown dir.new) }
    ensures cause { IsErrOf result ReportError.DirFault → Rose (D.shown dir.old).faults (D.shown dir.new).faults }
    ensures kind { IfErr result IsUnsaid }
    ensures seen { IfOk result (λ done. D.observed ≡ true
        → AddsSeen pod lines.old.items lines.new.items (D.shown dir.old) (D.shown dir.new)) }
    ensures answer_holds { IfOk result (λ done. D.observed ≡ true → IsConforming (D.shown dir.new).trace
        → AddsPodLine pod lines.old.items lines.new.items (D.shown dir.old) (D.shown dir.new)) }
    ensures stray { IsErrOf result ReportError.Stray → D.observed ≡ true → IsConforming (D.shown dir.new).trace → ⊥ }
{
    match line_of(alloc, dir, pod) {
        Ok(Some(line)) => push(lines, line),
        Ok(None) => Ok(()),
        Err(error) => Err(error),
    }
}

// The lines of these pods.
fn lines_of<D: Dir>(alloc: Global, dir: &mut D, pods: &[PodId]) -> Result<Vec<PodLine>, ReportError>
    requires active { IsActive (D.shown dir.old).local }
    requires alone { HasNoPodOpen (D.shown dir.old).local }
    ensures only { OnlyAsksFor D.observed surveys (D.shown dir.old) (D.shown dir.new) }
    ensures cause { IsErrOf result ReportError.DirFault → Rose (D.shown dir.old).faults (D.shown dir.new).faults }
    ensures kind { IfErr result IsUnsaid }
    ensures seen { IfOk result (λ lines. D.observed ≡ true
        → LinesSeenBetween pods.now lines.items (D.shown dir.old) (D.shown dir.new)) }
    ensures answer_holds { IfOk result (λ lines. D.observed ≡ true → IsConforming (D.shown dir.new).trace
        → TellsPods pods.now lines.items (D.shown dir.old) (D.shown dir.new)) }
    ensures stray { IsErrOf result ReportError.Stray → D.observed ≡ true → IsConforming (D.shown dir.new).trace → ⊥ }
{
    let mut lines = Vec::new(alloc);
    'pods: for pod in pods {
        add_line(alloc, dir, *pod, &mut lines)?;
    }
    Ok(lines)
}

/// A line for each pod, by uuid: its phase and the names of its apps. The six areas are listed in lifecycle
/// order, and then each pod that was shown is looked for. Where every process keeps the local rules, each
/// pod that exists at every own step has exactly one line and no pod has two, each phase is the pod's at an
/// own step, and the names are those of a manifest that the pod had at one; they are absent only where at
/// one the manifest was missing or had no reading, or the pod didn't exist. Whatever other processes do, the
/// lines are what own listings, looks and reads gave. Where nobody else steps, they are those of the state
/// before.
///
/// `Stray` where a pod was missed at six places in turn, which can't be where every process keeps the
/// local rules; `DirFault` where the directory failed, `NoMemory` where memory ran out.
pub fn list_pods<D: Dir>(alloc: Global, dir: &mut D) -> Result<Vec<PodLine>, ReportError>
    requires active { IsActive (D.shown dir.old).local }
    requires alone { HasNoPodOpen (D.shown dir.old).local }
    ensures only { OnlyAsksFor D.observed surveys (D.shown dir.old) (D.shown dir.new) }
    ensures cause { IsErrOf result ReportError.DirFault → Rose (D.shown dir.old).faults (D.shown dir.new).faults }
    ensures kind { IfErr result IsUnsaid }
    ensures seen { IfOk result (λ lines. D.observed ≡ true
        → ListsSeenBetween lines.items (D.shown dir.old) (D.shown dir.new)) }
    ensures snapshot { IfOk result (λ lines. D.observed ≡ true → IsConforming (D.shown dir.new).trace
        → IsSnapshotBetween (D.shown dir.old) (D.shown dir.new) lines.items) }
    ensures standing { IfOk result (λ lines. D.observed ≡ true → IsConforming (D.shown dir.new).trace
        → LinesStanding (D.shown dir.old) (D.shown dir.new) lines.items) }
    ensures quiet { IfOk result (λ lines. D.observed ≡ true → IsConforming (D.shown dir.new).trace
        → ListsPodsQuietly (D.shown dir.old) (D.shown dir.new) lines.items) }
    ensures stray { IsErrOf result ReportError.Stray → D.observed ≡ true → IsConforming (D.shown dir.new).trace → ⊥ }
{
    match listed_pods(alloc, dir) {
        Ok(pods) => lines_of(alloc, dir, &pods),
        Err(error) => Err(look_fault(error)),
    }
}
