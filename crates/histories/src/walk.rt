// Random walks of several processes that keep the local rules.
use crate::performed::{Told, after, of_others, told_after, told_of};
use dir_trait::{Phase, PodId};
use scripts::{Line, Page, ShortNames, Unread};

/// How often a step is chosen, the seed of the choices, and how many events have to come at least.
#[derive(Clone, Copy, Drop)]
pub struct Walk<'a> {
    pub pool: &'a str,
    tries: u64,
    seed: u64,
    least: usize,
}

/// `TRIES of POOL from SEED to LEAST`
pub fn walk_of<'a>(page: &mut Page, text: &'a str) -> Walk<'a> {
    let mut line = Line::of(text);
    let tries = line.number(page);
    let of = line.word();
    let pool = line.word();
    let from = line.word();
    let seed = line.number(page);
    let to = line.word();
    let least = line.short_number(page) as usize;
    line.end(page);
    if of != "of" || from != "from" || to != "to" {
        page.unread(Unread::Word);
    }
    Walk {
        pool,
        tries,
        seed,
        least,
    }
}

// The places of a walk's choices, by the generator of the C standard's example of `rand`.
fn next(seed: u64) -> u64 {
    seed.wrapping_mul(1_103_515_245).wrapping_add(12_345) % 2_147_483_648
}

fn is_owned(phase: Option<Phase>) -> bool {
    matches!(
        phase,
        Some(Phase::Preparing | Phase::Running | Phase::Deleting)
    )
}

// Whether the reader found what the history says, and a pod has an owner exactly in the phases of one.
fn agrees(told: &Told) -> bool {
    told.found == told.phase && told.owner.is_some() == is_owned(told.phase)
}

/// The owners' ends, by the numbers of the processes.
const KILLS: [&str; 9] = [
    "", "", "2: kill", "3: kill", "4: kill", "5: kill", "6: kill", "7: kill", "8: kill",
];

// Whether the owner's end ends its phase, where there is an owner.
fn ends_with_owner<'a>(
    page: &mut Page,
    names: &ShortNames,
    steps: &mut Vec<&'a str>,
    kills: &[&'a str],
    pod: PodId,
    before: &Told,
) -> bool {
    let Some(owner) = before.owner else {
        return true;
    };
    let Some(kill) = kills.get(owner as usize) else {
        return false;
    };
    page.push(steps, *kill);
    let after = told_after(page, names, steps.as_slice(), pod);
    let _kill = steps.pop();
    agrees(&after) && after.owner.is_none() && after.phase != before.phase
}

// What is told after the steps, and how many events they came to.
fn told_with_events(
    page: &mut Page,
    names: &ShortNames,
    steps: &[&str],
    pod: PodId,
) -> Option<(Told, usize)> {
    let (dir, found) = after(page, names, steps, pod)?;
    let told = told_of(page, &dir, pod, found);
    Some((told, of_others(&dir)))
}

// One more step of a walk, where it is possible and allowed. None where what is told doesn't agree.
fn step_on<'a>(
    page: &mut Page,
    names: &ShortNames,
    steps: &mut Vec<&'a str>,
    events: usize,
    choice: &'a str,
    pod: PodId,
) -> Option<usize> {
    page.push(steps, choice);
    let (told, now) = told_with_events(page, names, steps.as_slice(), pod)?;
    if told.broke.is_some() || now <= events {
        let _refused = steps.pop();
        return Some(events);
    }
    let ends = ends_with_owner(page, names, steps, &KILLS, pod, &told);
    if agrees(&told) && ends {
        Some(now)
    } else {
        None
    }
}

fn choice_of<'a>(pool: &[&'a str], seed: u64) -> &'a str {
    let place = (seed / 8).checked_rem(pool.len() as u64).unwrap_or(0);
    match pool.get(place as usize) {
        Some(choice) => choice,
        None => "",
    }
}

// How many events a walk came to. None where at some step what is told didn't agree.
fn events_of(
    page: &mut Page,
    names: &ShortNames,
    walk: &Walk,
    pool: &[&str],
    pod: PodId,
) -> Option<usize> {
    let mut steps = Vec::new(page.alloc());
    let mut seed = walk.seed;
    let mut events = 0;
    for _ in 0..walk.tries {
        seed = next(seed);
        events = step_on(page, names, &mut steps, events, choice_of(pool, seed), pod)?;
    }
    Some(events)
}

/// Whether what is read is what the history says at each step of the walk.
pub fn walked(
    page: &mut Page,
    names: &ShortNames,
    walk: &Walk,
    pool: &[&str],
    pod: PodId,
) -> &'static str {
    match events_of(page, names, walk, pool, pod) {
        Some(events) if events >= walk.least => "what is read is what the history says",
        Some(_) => "too few steps were possible",
        None => "the history says something else",
    }
}
