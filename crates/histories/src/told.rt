// Histories that are told, and what the local rules say of them.
use crate::steps::event_of;
use conformance::keeps_rules;
use dir_trait::{History, NoMemory, Reserved};
use scripts::{Page, ShortNames};

fn history_of(page: &mut Page, names: &ShortNames, steps: &[&str]) -> Result<History, NoMemory> {
    let mut history = Reserved::new(page.alloc());
    for step in steps {
        history = history.push(event_of(page, names, step))?;
    }
    Ok(history)
}

/// Whether a process keeps the rules in the history of these steps.
pub fn keeps(page: &mut Page, names: &ShortNames, steps: &[&str], process: u32) -> bool {
    match history_of(page, names, steps) {
        Ok(history) => page
            .made(keeps_rules(page.alloc(), &history, process))
            .unwrap_or(false),
        Err(_) => {
            page.no_memory();
            false
        }
    }
}

/// Whether process 1 may ask so after these steps, which it may take.
pub fn may<'a>(
    page: &mut Page,
    names: &ShortNames,
    steps: &mut Vec<&'a str>,
    asked: &'a str,
) -> &'static str {
    if !keeps(page, names, steps, 1) {
        return "not what came before";
    }
    page.push(steps, asked);
    if keeps(page, names, steps, 1) {
        "yes"
    } else {
        "no"
    }
}
