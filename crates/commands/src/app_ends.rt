// What is told of the apps of a pod.
ghost use Rattle.std.specs.Prelude.{◌≡◌, ◌⊎◌, ◌++◌, ◌==◌, Ok, Err, OnOk};
ghost use Rattle.std.specs.List.{list_all};
ghost use Rattle.commands.specs.AppEnds.{app_line, app_lines, all_well, end_line, told_of_ends};

use ac_types::NoMemory;
use command_outcomes::{Output, Refusal, Told};
use stage1::AppEnd;
use std::alloc::Global;

/// Appends the line of an app that ended with this status.
pub(crate) fn add_end_line(
    alloc: Global,
    text: &mut Output,
    app: &str,
    status: u8,
) -> Result<(), NoMemory>
    ensures { OnOk result (text.new ≡ text.old ++ end_line app.now status) }
{
    text.push("app-")?;
    text.push(app)?;
    text.push("=")?;
    text.push_number(alloc, u64::from(status))?;
    text.push("\n")?;
    Ok(())
}

fn add_end(alloc: Global, text: &mut Output, end: &AppEnd) -> Result<(), NoMemory>
    ensures { OnOk result (text.new ≡ text.old ++ app_line end.now) }
{
    add_end_line(alloc, text, end.app.as_str(), end.status)
}

fn add_ends(alloc: Global, text: &mut Output, ends: &[AppEnd]) -> Result<(), NoMemory>
    ensures { OnOk result (text.new ≡ text.old ++ app_lines ends.now) }
{
    'ends: for end in ends {
        add_end(alloc, text, end)?;
    }
    Ok(())
}

fn all_well(ends: &[AppEnd]) -> bool
    ensures { result ≡ all_well ends.now }
{
    ends.iter().all(|end| end.status == 0)
}

/// The text with the line of each app after it, and whether each ended with 0.
pub(crate) fn tell(alloc: Global, text: Output, ends: &[AppEnd]) -> Result<Told, Refusal>
    ensures { (result ≡ Ok (told_of_ends text ends.now)) ⊎ (result ≡ Err Refusal.NoMemory) }
{
    let mut text = text;
    let well = all_well(ends);
    match add_ends(alloc, &mut text, ends) {
        Ok(()) => Ok(Told { text, well }),
        Err(_) => Err(Refusal::NoMemory),
    }
}
