// Steps of other processes, as lines say them: `before CALL, PROCESS: REQUEST`.
ghost use Rattle.std.specs.Prelude.{◌≡◌, IfOk};
ghost use Rattle.dir_trait.specs.Local.{nothing_local};

use dir_memory::MemoryDir;
use dir_trait::NoMemory;
use scripts::{Line, Page, ShortNames, Unread, number_of, request_of};

/// A step of another process.
#[derive(Clone, Copy, Drop)]
struct Planned<'a> {
    call: u64,
    process: u32,
    asked: &'a str,
}

// What stands before a sign, and behind it. Refused where the sign lacks.
fn parted<'a>(page: &mut Page, text: &'a str, sign: &str) -> (&'a str, &'a str) {
    if let Some(parts) = text.split_once(sign) {
        return parts;
    }
    page.unread(Unread::Missing);
    (text, "")
}

// `CALL, PROCESS: REQUEST`
fn planned_of<'a>(page: &mut Page, text: &'a str) -> Planned<'a> {
    let (call, step) = parted(page, text, ", ");
    let (process, asked) = parted(page, step, ": ");
    Planned {
        call: number_of(page, call),
        process: Line::of(process).short_number(page),
        asked,
    }
}

/// The folder with the step of a line more.
fn with_step(
    page: &mut Page,
    names: &ShortNames,
    dir: MemoryDir,
    text: &str,
) -> Result<MemoryDir, NoMemory>
    requires { dir.local ≡ nothing_local }
    ensures { IfOk result (λ dir. dir.local ≡ nothing_local) }
{
    let planned = planned_of(page, text);
    let request = request_of(page, names, &mut Line::of(planned.asked));
    dir.schedule(page.alloc(), planned.call, planned.process, request)
}

/// The folder with the steps of the lines.
pub fn with_steps(
    page: &mut Page,
    names: &ShortNames,
    dir: MemoryDir,
    block: &[&str],
) -> Result<MemoryDir, NoMemory>
    requires { dir.local ≡ nothing_local }
    ensures { IfOk result (λ dir. dir.local ≡ nothing_local) }
{
    let mut dir = dir;
    'lines: for text in block {
        if let Some(step) = text.strip_prefix("before ") {
            dir = with_step(page, names, dir, step)?;
        }
    }
    Ok(dir)
}

/// The folder for process 1 with the steps of the lines.
pub fn new_with_steps(
    page: &mut Page,
    names: &ShortNames,
    block: &[&str],
) -> Result<MemoryDir, NoMemory>
    ensures { IfOk result (λ dir. dir.local ≡ nothing_local) }
{
    let dir = MemoryDir::new(page.alloc(), 1)?;
    with_steps(page, names, dir, block)
}

/// Refused where the line says no step.
pub fn check_step(page: &mut Page, names: &ShortNames, text: &str) {
    let planned = planned_of(page, text);
    let _request = request_of(page, names, &mut Line::of(planned.asked));
}
