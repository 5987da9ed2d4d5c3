// The command `status`.
ghost use Rattle.std.specs.Prelude.{◌≡◌, ◌⊎◌, ◌++◌, true, false, Ok, Err, IfErr, IfOk, IsErrOf, OnOk};
ghost use Rattle.std.specs.List.{flat_map};
ghost use Rattle.dir_trait.specs.Causes.{Rose};
ghost use Rattle.dir_trait.specs.Local.{IsActive, has_own_open};
ghost use Rattle.dir_trait.specs.Pods.{pod_text};
ghost use Rattle.pod_report.specs.Requests.{OnlyAsksFor, inspects};
ghost use Rattle.commands.specs.Report.{ReportSays};
ghost use Rattle.commands.specs.Status.{created_line, ended_line, status_lines, status_refusal, status_report, unknown_refusal};
ghost use Rattle.commands.specs.Texts.{state_text};

use crate::app_ends::add_end_line;
use ac_types::NoMemory;
use command_outcomes::{Output, Refusal};
use dir_trait::{Dir, Phase, PodId};
use pod_report::{AppEndText, PodStatus, ReportError, status_of};
use std::alloc::Global;

fn state_line(alloc: Global, phase: Phase) -> Result<Output, NoMemory>
    ensures { IfOk result (λ text. text ≡ state_text phase) }
{
    let mut text = Output::of(alloc, "state=")?;
    text.push(phase.name())?;
    text.push("\n")?;
    Ok(text)
}

fn add_created(alloc: Global, text: &mut Output, created: Option<u64>) -> Result<(), NoMemory>
    ensures { OnOk result (text.new ≡ text.old ++ created_line created) }
{
    match created {
        Some(moment) => {
            text.push("created=")?;
            text.push_number(alloc, moment)?;
            text.push("\n")?;
            Ok(())
        }
        None => Ok(()),
    }
}

fn ended_lines(alloc: Global, ends: &[AppEndText]) -> Result<Output, NoMemory>
    ensures { IfOk result (λ text. text ≡ flat_map ended_line ends.now) }
{
    let mut text = Output::new(alloc);
    'ends: for end in ends {
        add_end_line(alloc, &mut text, end.app.as_str(), end.status)?;
    }
    Ok(text)
}

fn status_lines(alloc: Global, status: &PodStatus) -> Result<Output, NoMemory>
    ensures { IfOk result (λ text. text ≡ status_lines status.now) }
{
    let mut text = state_line(alloc, status.phase)?;
    add_created(alloc, &mut text, status.created)?;
    text.append(&ended_lines(alloc, status.ends.as_slice())?)?;
    Ok(text)
}

fn unknown_refusal(error: ReportError) -> Refusal
    requires { error ≡ ReportError.NoManifest → ⊥ }
    ensures { result ≡ unknown_refusal error }
{
    match error {
        ReportError::NoPod => Refusal::NoPod,
        ReportError::DirFault => Refusal::DirFault,
        ReportError::Stray => Refusal::Stray,
        ReportError::NoMemory => Refusal::NoMemory,
        ReportError::NoManifest => unreachable!(),
    }
}

// What comes of the status.
fn said(alloc: Global, found: Result<PodStatus, ReportError>) -> Result<Output, Refusal>
    requires { IsErrOf found ReportError.NoManifest → ⊥ }
    ensures says { IfOk found (λ status. (result ≡ Ok (status_lines status)) ⊎ (result ≡ Err Refusal.NoMemory)) }
    ensures refuses { IfErr found (λ error. result ≡ Err (unknown_refusal error)) }
{
    match found {
        Ok(status) => match status_lines(alloc, &status) {
            Ok(text) => Ok(text),
            Err(_) => Err(Refusal::NoMemory),
        },
        Err(error) => Err(unknown_refusal(error)),
    }
}

/// The lines that `status` prints of a pod: its phase, the moment of its latest `created-` mark, and how
/// each of its apps ended, by name. No handle of this process is open on the pod's lock before. `NoPod`
/// where there is no such pod, `DirFault` where the directory failed; `Stray` where its answers contradict
/// each other, which can't be where every process keeps the local rules.
pub fn pod_status<D: Dir>(alloc: Global, pod: PodId, dir: &mut D) -> Result<Output, Refusal>
    requires active { IsActive (D.shown dir.old).local }
    requires alone { has_own_open (D.shown dir.old).local (pod_text pod.bytes) ≡ false }
    ensures only { OnlyAsksFor D.observed (inspects pod) (D.shown dir.old) (D.shown dir.new) }
    ensures cause { IsErrOf result Refusal.DirFault → Rose (D.shown dir.old).faults (D.shown dir.new).faults }
    ensures refusals { IfErr result (λ r. status_refusal r ≡ true) }
    ensures says { ReportSays D.observed (status_report pod) (D.shown dir.old) (D.shown dir.new) result }
{
    let found = status_of(alloc, dir, pod);
    said(alloc, found)
}
