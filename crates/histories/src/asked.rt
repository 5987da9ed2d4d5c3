// Which pods a process was asked to remove.
use crate::steps::{begin_of, parted};
use conformance::is_removal_requested;
use dir_model::{Intent, Sequence};
use dir_rules::{Created, Seen, Standing};
use scripts::{Line, Page, ShortNames, name_of};
use std::alloc::Global;

fn standing(alloc: Global, intent: Intent) -> Standing {
    Standing {
        intent: Some(intent),
        made: false,
        embryo_under_lock: false,
        holdings: Sequence::from_vec(Vec::new(alloc)),
        moves: Sequence::from_vec(Vec::new(alloc)),
        seen_unowned: Sequence::from_vec(Vec::new(alloc)),
        seen_unowned_under_claim: Sequence::from_vec(Vec::new(alloc)),
    }
}

fn seen(alloc: Global, intent: Intent, created: Sequence<Created>) -> Seen {
    Seen {
        standing: standing(alloc, intent),
        making: None,
        image_under_lock: false,
        created,
        marked: Sequence::from_vec(Vec::new(alloc)),
        notes: Sequence::from_vec(Vec::new(alloc)),
        put_away: Sequence::from_vec(Vec::new(alloc)),
        listed: Sequence::from_vec(Vec::new(alloc)),
        items: Sequence::from_vec(Vec::new(alloc)),
        areas: Sequence::from_vec(Vec::new(alloc)),
        kept: true,
    }
}

// `POD MOMENT`
fn mark_of(page: &mut Page, names: &ShortNames, text: &str) -> Created {
    let mut line = Line::of(text);
    let name = name_of(page, names.long(line.word()));
    let moment = line.number(page);
    line.end(page);
    Created { name, moment }
}

/// Whether a process that began so, and saw one mark of when a pod was made, is asked to remove a pod:
/// `POD, created POD MOMENT, BEGIN`.
pub fn is_asked(page: &mut Page, names: &ShortNames, text: &str) -> bool {
    let (pod, rest) = parted(page, text, ", created ");
    let (mark, begin) = parted(page, rest, ", ");
    let pod = name_of(page, names.long(pod));
    let mark = mark_of(page, names, mark);
    let intent = begin_of(page, names, begin);
    match Sequence::of(page.alloc(), &[mark]) {
        Ok(created) => is_removal_requested(&seen(page.alloc(), intent, created), &pod),
        Err(_) => {
            page.no_memory();
            false
        }
    }
}
