// Lives of a pod: its phase and its owner after each step.
use crate::definitions::add_definition;
use crate::performed::{Told, after, of_others, print_last_reply, told_after, told_of};
use crate::steps::{parted, process_of};
use dir_trait::PodId;
use scripts::{Page, ShortNames, number_of, phase_text};

// How many events the steps but the last came to.
fn earlier_events(page: &mut Page, names: &ShortNames, steps: &[&str], pod: PodId) -> usize {
    let before = match steps.split_last() {
        Some((_last, before)) => before,
        None => return 0,
    };
    match after(page, names, before, pod) {
        Some((dir, _found)) => of_others(&dir),
        None => 0,
    }
}

/// Prints the phase and the owner, and behind them what doesn't agree.
pub fn print_told(page: &mut Page, told: &Told) {
    page.put(phase_text(told.phase));
    if let Some(owner) = told.owner {
        page.put(" of ");
        page.tell(&owner);
    }
    if told.found != told.phase {
        page.put(", but ");
        page.put(phase_text(told.found));
        page.put(" is read");
    }
    if let Some(process) = told.broke {
        page.put(", and ");
        page.tell(&process);
        page.put(" broke a rule");
    }
}

/// Prints what the last of the steps is answered, and what is told of the pod after it. A step that isn't
/// possible leaves no event.
pub fn print_last(page: &mut Page, names: &ShortNames, steps: &[&str], pod: PodId) {
    let earlier = earlier_events(page, names, steps, pod);
    let Some((dir, found)) = after(page, names, steps, pod) else {
        return;
    };
    if of_others(&dir) > earlier {
        print_last_reply(page, names, &dir);
    } else {
        page.put("not possible");
    }
    page.put(": ");
    let told = told_of(page, &dir, pod, found);
    print_told(page, &told);
    page.put("\n");
}

/// Prints each step of a definition that follows these steps, as `print_last`.
pub fn show<'a>(
    page: &mut Page,
    names: &ShortNames,
    steps: &mut Vec<&'a str>,
    more: &[&'a str],
    pod: PodId,
) {
    for step in more {
        page.push(steps, *step);
        page.put("  ");
        page.put(step);
        page.put(" -> ");
        print_last(page, names, steps, pod);
    }
}

/// The kill of a process after some of the steps of a definition, and who then comes.
#[derive(Clone, Copy, Drop)]
pub struct Killed<'a> {
    kill: &'a str,
    first: u64,
    last: u64,
    steps: &'a str,
    then: &'a str,
}

/// `KILL after FIRST to LAST of STEPS, then MORE`
pub fn killed_of<'a>(page: &mut Page, text: &'a str) -> Killed<'a> {
    let (kill, rest) = parted(page, text, " after ");
    let (range, rest) = parted(page, rest, " of ");
    let (steps, then) = parted(page, rest, ", then ");
    let (first, last) = parted(page, range, " to ");
    let _process = process_of(page, kill);
    Killed {
        kill,
        first: number_of(page, first),
        last: number_of(page, last),
        steps,
        then,
    }
}

fn print_left<'a>(
    page: &mut Page,
    names: &ShortNames,
    lines: &'a [String],
    killed: &Killed<'a>,
    count: u64,
    pod: PodId,
) {
    let mut steps = Vec::new(page.alloc());
    add_definition(page, &mut steps, lines, killed.steps, count);
    page.push(&mut steps, killed.kill);
    page.put("  ");
    page.tell(&count);
    page.put(": ");
    let left = told_after(page, names, steps.as_slice(), pod);
    print_told(page, &left);
    add_definition(page, &mut steps, lines, killed.then, u64::MAX);
    page.put(", then ");
    let then = told_after(page, names, steps.as_slice(), pod);
    print_told(page, &then);
    page.put("\n");
}

/// Prints what is told of the pod after the kill and after those who then come, for each number of steps.
pub fn print_killed<'a>(
    page: &mut Page,
    names: &ShortNames,
    lines: &'a [String],
    killed: &Killed<'a>,
    pod: PodId,
) {
    for count in killed.first..killed.last.saturating_add(1) {
        print_left(page, names, lines, killed, count, pod);
    }
}
