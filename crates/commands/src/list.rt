// The command `list`.
ghost use Rattle.std.specs.Prelude.{◌≡◌, ◌++◌, ◌⊎◌, true, Ok, Err, IfErr, IfOk, IsErrOf, OnOk};
ghost use Rattle.std.specs.List.{flat_map};
ghost use Rattle.dir_trait.specs.Causes.{Rose};
ghost use Rattle.dir_trait.specs.Local.{IsActive};
ghost use Rattle.pod_report.specs.Outside.{IsUnsaid};
ghost use Rattle.pod_report.specs.Requests.{HasNoPodOpen, OnlyAsksFor, surveys};
ghost use Rattle.commands.specs.PodList.{apps_text, pod_line_text, list_refusal, list_report, list_text, name_behind, names_text, unlisted_refusal};
ghost use Rattle.commands.specs.Report.{ReportSays};

use ac_types::{AcName, NoMemory};
use command_outcomes::{Output, Refusal};
use dir_trait::Dir;
use pod_report::{AppNames, PodLine, ReportError, list_pods};
use std::alloc::Global;

fn push_name(text: &mut Output, name: &AcName) -> Result<(), NoMemory>
    ensures { OnOk result (text.new ≡ text.old ++ name_behind name.now) }
{
    text.push(",")?;
    text.push(name.as_str())?;
    Ok(())
}

fn names_behind(alloc: Global, names: &[AcName]) -> Result<Output, NoMemory>
    ensures { IfOk result (λ text. text ≡ flat_map name_behind names.now) }
{
    let mut text = Output::new(alloc);
    'names: for name in names {
        push_name(&mut text, name)?;
    }
    Ok(text)
}

fn names_text(alloc: Global, names: &[AcName]) -> Result<Output, NoMemory>
    ensures { IfOk result (λ text. text ≡ names_text names.now) }
{
    let Some((first, others)) = names.split_first() else {
        return Ok(Output::of(alloc, "-")?);
    };
    let mut text = Output::of(alloc, first.as_str())?;
    text.append(&names_behind(alloc, others)?)?;
    Ok(text)
}

fn apps_text(alloc: Global, apps: &Option<AppNames>) -> Result<Output, NoMemory>
    ensures { IfOk result (λ text. text ≡ apps_text apps.now) }
{
    match apps {
        Some(names) => names_text(alloc, names.as_slice()),
        None => Ok(Output::of(alloc, "-")?),
    }
}

fn pod_line(alloc: Global, line: &PodLine) -> Result<Output, NoMemory>
    ensures { IfOk result (λ text. text ≡ pod_line_text line.now) }
{
    let name = line.pod.name();
    let mut text = Output::of(alloc, name.as_str())?;
    text.push("\t")?;
    text.push(line.phase.name())?;
    text.push("\t")?;
    text.append(&apps_text(alloc, &line.apps)?)?;
    text.push("\n")?;
    Ok(text)
}

fn add_line(alloc: Global, text: &mut Output, line: &PodLine) -> Result<(), NoMemory>
    ensures { OnOk result (text.new ≡ text.old ++ pod_line_text line.now) }
{
    text.append(&pod_line(alloc, line)?)?;
    Ok(())
}

fn pod_lines(alloc: Global, lines: &[PodLine]) -> Result<Output, NoMemory>
    ensures { IfOk result (λ text. text ≡ list_text lines.now) }
{
    let mut text = Output::new(alloc);
    'lines: for line in lines {
        add_line(alloc, &mut text, line)?;
    }
    Ok(text)
}

fn unlisted_refusal(error: ReportError) -> Refusal
    requires { IsUnsaid error }
    ensures { result ≡ unlisted_refusal error }
{
    match error {
        ReportError::DirFault => Refusal::DirFault,
        ReportError::NoMemory => Refusal::NoMemory,
        ReportError::Stray => Refusal::Stray,
        _ => unreachable!(),
    }
}

// What comes of the lines.
fn listed(alloc: Global, found: Result<Vec<PodLine>, ReportError>) -> Result<Output, Refusal>
    requires { IfErr found IsUnsaid }
    ensures lists { IfOk found (λ lines. (result ≡ Ok (list_text lines.items)) ⊎ (result ≡ Err Refusal.NoMemory)) }
    ensures refuses { IfErr found (λ error. result ≡ Err (unlisted_refusal error)) }
{
    match found {
        Ok(lines) => match pod_lines(alloc, lines.as_slice()) {
            Ok(text) => Ok(text),
            Err(_) => Err(Refusal::NoMemory),
        },
        Err(error) => Err(unlisted_refusal(error)),
    }
}

/// The lines that `list` prints, one of each pod, by uuid: its phase and the names of its apps. No handle
/// of this process is open on the lock of a pod before. `DirFault` where the directory failed; `Stray`
/// where its answers contradict each other, which can't be where every process keeps the local rules.
pub fn list<D: Dir>(alloc: Global, dir: &mut D) -> Result<Output, Refusal>
    requires active { IsActive (D.shown dir.old).local }
    requires alone { HasNoPodOpen (D.shown dir.old).local }
    ensures only { OnlyAsksFor D.observed surveys (D.shown dir.old) (D.shown dir.new) }
    ensures cause { IsErrOf result Refusal.DirFault → Rose (D.shown dir.old).faults (D.shown dir.new).faults }
    ensures refusals { IfErr result (λ r. list_refusal r ≡ true) }
    ensures says { ReportSays D.observed list_report (D.shown dir.old) (D.shown dir.new) result }
{
    let found = list_pods(alloc, dir);
    listed(alloc, found)
}
