// The folder that process 1 meets, and what it is answered there.
ghost use Rattle.std.specs.Prelude.{◌≡◌, IfOk};
ghost use Rattle.dir_trait.specs.Local.{nothing_local, IsActive};

use crate::calls::{Answer, answer_to, print_answer};
use crate::definitions::{add_definition, most_of};
use crate::life::print_told;
use crate::performed::{phase_found, reading, told_of, with_step};
use crate::steps::{begin_of, parted};
use dir_memory::MemoryDir;
use dir_trait::{Area, Dir, NoMemory, Phase, PodId, Reply};
use phase_read::read_phase;
use scripts::{Line, Page, ShortNames, Unread, area_of, number_of, print_reply};
use std::alloc::Global;

// `CALL, STEP`
fn with_planned(
    page: &mut Page,
    names: &ShortNames,
    dir: MemoryDir,
    inside: bool,
    text: &str,
) -> Result<MemoryDir, NoMemory>
    requires { dir.local ≡ nothing_local }
    ensures { IfOk result (λ dir. dir.local ≡ nothing_local) }
{
    let (call, step) = parted(page, text, ", ");
    let call = number_of(page, call);
    with_step(page, names, dir, call, inside, step)
}

fn with_steps(
    page: &mut Page,
    names: &ShortNames,
    dir: MemoryDir,
    steps: &[&str],
) -> Result<MemoryDir, NoMemory>
    requires { dir.local ≡ nothing_local }
    ensures { IfOk result (λ dir. dir.local ≡ nothing_local) }
{
    let mut dir = dir;
    'steps: for step in steps {
        dir = with_step(page, names, dir, 2, false, step)?;
    }
    Ok(dir)
}

// The steps of a definition: `NAME` or `NAME COUNT`.
fn steps_of<'a>(page: &mut Page, lines: &'a [String], text: &str) -> Vec<&'a str> {
    let mut steps = Vec::new(page.alloc());
    let mut line = Line::of(text);
    let name = line.word();
    let most = most_of(page, &mut line);
    add_definition(page, &mut steps, lines, name, most);
    steps
}

// The steps of a definition before the second call.
fn with_definition(
    page: &mut Page,
    names: &ShortNames,
    lines: &[String],
    dir: MemoryDir,
    text: &str,
) -> Result<MemoryDir, NoMemory>
    requires { dir.local ≡ nothing_local }
    ensures { IfOk result (λ dir. dir.local ≡ nothing_local) }
{
    let steps = steps_of(page, lines, text);
    with_steps(page, names, dir, steps.as_slice())
}

// A call that fails, or before which the process is killed.
fn with_break(
    page: &mut Page,
    dir: MemoryDir,
    line: &mut Line,
    fails: bool,
) -> Result<MemoryDir, NoMemory>
    requires { dir.local ≡ nothing_local }
    ensures { IfOk result (λ dir. dir.local ≡ nothing_local) }
{
    let call = line.number(page);
    if call < 2 {
        page.unread(Unread::Number);
        return Ok(dir);
    }
    if fails {
        dir.fail(page.alloc(), call)
    } else {
        Ok(dir.stop(call))
    }
}

// The folder after a line that says what is met; any other line says nothing of it.
fn with_line(
    page: &mut Page,
    names: &ShortNames,
    lines: &[String],
    dir: MemoryDir,
    text: &str,
) -> Result<MemoryDir, NoMemory>
    requires { dir.local ≡ nothing_local }
    ensures { IfOk result (λ dir. dir.local ≡ nothing_local) }
{
    let mut line = Line::of(text);
    match line.word() {
        "do" => with_definition(page, names, lines, dir, line.rest()),
        "before" => with_planned(page, names, dir, false, line.rest()),
        "inside" => with_planned(page, names, dir, true, line.rest()),
        "fail" => with_break(page, dir, &mut line, true),
        "stop" => with_break(page, dir, &mut line, false),
        _ => Ok(dir),
    }
}

/// The folder that process 1 meets by these lines. Refused only where memory ran out.
pub fn met(
    page: &mut Page,
    names: &ShortNames,
    lines: &[String],
    block: &[&str],
) -> Result<MemoryDir, NoMemory>
    ensures { IfOk result (λ dir. dir.local ≡ nothing_local) }
{
    let mut dir = MemoryDir::new(page.alloc(), 1)?;
    'lines: for text in block {
        dir = with_line(page, names, lines, dir, text)?;
    }
    Ok(dir)
}

/// Whether the line says what process 1 meets.
pub fn is_met(text: &str) -> bool {
    matches!(
        Line::of(text).word(),
        "do" | "before" | "inside" | "fail" | "stop"
    )
}

// What the last of the calls is answered.
fn answers<D: Dir>(page: &mut Page, names: &ShortNames, dir: &mut D, calls: &[&str]) -> Answer
    requires { IsActive (D.shown dir.old).local }
{
    let mut last = Answer::Replied(Reply::Done);
    'calls: for text in calls {
        last = answer_to(page, names, dir, text);
    }
    last
}

// What the last of the calls behind the begin is answered, and prints it.
fn print_in(page: &mut Page, names: &ShortNames, dir: MemoryDir, calls: &[&str])
    requires { dir.local ≡ nothing_local }
{
    let mut dir = dir;
    let Some((begin, calls)) = calls.split_first() else {
        return page.unread(Unread::Process);
    };
    let intent = begin_of(page, names, begin);
    match dir.begin(page.alloc(), intent) {
        Ok(()) => {
            let answer = answers(page, names, &mut dir, calls);
            print_answer(page, names, &answer);
        }
        Err(_) => page.no_memory(),
    }
}

/// Prints what the last of these calls is answered, of which the first is the begin.
pub fn print_last_call(
    page: &mut Page,
    names: &ShortNames,
    lines: &[String],
    block: &[&str],
    calls: &[&str],
) {
    match met(page, names, lines, block) {
        Ok(dir) => print_in(page, names, dir, calls),
        Err(_) => page.no_memory(),
    }
}

/// The areas that the words name.
pub fn areas_of(page: &mut Page, text: &str) -> Vec<Area> {
    let mut areas = Vec::new(page.alloc());
    for word in text.split(' ') {
        if !word.is_empty() {
            let area = area_of(page, word);
            page.push(&mut areas, area);
        }
    }
    areas
}

// What a listing showed, the history tells.
fn list<D: Dir>(alloc: Global, dir: &mut D, area: Area)
    requires { IsActive (D.shown dir.old).local }
    ensures { (D.shown dir.new).local ≡ (D.shown dir.old).local }
{
    match dir.list_area(alloc, area) {
        Ok(_names) => (),
        Err(_) => (),
    }
}

fn list_all<D: Dir>(alloc: Global, dir: &mut D, areas: &[Area])
    requires { IsActive (D.shown dir.old).local }
    ensures { (D.shown dir.new).local ≡ (D.shown dir.old).local }
{
    'areas: for area in areas {
        list(alloc, dir, *area);
    }
}

// What a process that begins now finds of the pod once it has listed these areas.
fn found_after<D: Dir>(alloc: Global, dir: &mut D, areas: &[Area], pod: PodId) -> Option<Phase>
    requires { (D.shown dir.old).local ≡ nothing_local }
{
    match dir.begin(alloc, reading()) {
        Ok(()) => {
            list_all(alloc, dir, areas);
            phase_found(read_phase(alloc, dir, pod))
        }
        Err(_) => None,
    }
}

fn print_answers(page: &mut Page, names: &ShortNames, dir: &MemoryDir) {
    for event in dir.history().as_slice() {
        if event.process == 1 {
            page.put("  ");
            print_reply(page, names, &event.reply);
            page.put("\n");
        }
    }
}

/// Prints what a reader is answered that lists these areas and then looks for the pod, and what is told of
/// the pod.
pub fn find(page: &mut Page, names: &ShortNames, dir: MemoryDir, areas: &[Area], pod: PodId)
    requires { dir.local ≡ nothing_local }
{
    let mut dir = dir;
    let found = found_after(page.alloc(), &mut dir, areas, pod);
    print_answers(page, names, &dir);
    let told = told_of(page, &dir, pod, found);
    page.put("  ");
    print_told(page, &told);
    page.put("\n");
}
