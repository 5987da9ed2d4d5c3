// The lines of a scenario that came before, played again in silence.
use crate::bundles::put_in;
use crate::plan::planned;
use crate::run::{command_of, run_next};
use crate::stage::Stage;
use scripts::{Line, Page, ShortNames};

/// The lines of a script from a place to before another, which begin a scenario.
#[derive(Clone, Copy, Drop)]
pub struct Before<'a> {
    pub lines: &'a [String],
    pub from: usize,
    pub to: usize,
}

/// Takes in a line that sets something up for the next command. Answers whether it is one. Refused where it
/// can't be read.
pub fn set(page: &mut Page, names: &ShortNames, stage: &mut Stage, text: &str) -> bool {
    put_in(page, names, &mut stage.puts, &mut Line::of(text))
        || planned(page, names, &mut stage.plan, &mut Line::of(text))
}

// A line of which nothing is printed: what it changes, it changes.
fn step(page: &mut Page, names: &ShortNames, stage: &mut Stage, text: &str) {
    let mut line = Line::of(text);
    if line.word() == "at" {
        let command = command_of(page, names, &mut line);
        let _ended = run_next(page, stage, &command);
    } else {
        let _set = set(page, names, stage, text);
    }
}

// The place of the line with that title.
fn title_at(lines: &[String], title: &str) -> Option<usize> {
    for (place, line) in lines.iter().enumerate() {
        if line.as_str().strip_prefix("# ") == Some(title) {
            return Some(place);
        }
    }
    None
}

// The place of the first empty line from there on.
fn end_from(lines: &[String], from: usize) -> usize {
    for (place, line) in lines.iter().enumerate().skip(from) {
        if line.is_empty() {
            return place;
        }
    }
    lines.len()
}

impl<'a> Before<'a> {
    /// The block of the script that begins with that title. None where there is none.
    pub fn block(lines: &'a [String], title: &str) -> Option<Before<'a>> {
        let from = title_at(lines, title)?.saturating_add(1);
        let to = end_from(lines, from);
        Some(Before { lines, from, to })
    }

    // The block that these lines go on from.
    fn followed(&self) -> Option<Before<'a>> {
        let title = self.lines.get(self.from)?.as_str().strip_prefix("after ")?;
        Before::block(self.lines, title)
    }

    fn play(&self, page: &mut Page, names: &ShortNames, stage: &mut Stage) {
        for place in self.from..self.to {
            if let Some(line) = self.lines.get(place) {
                step(page, names, stage, line.as_str());
            }
        }
    }

    // These lines, and before them those that they go on from, the last first.
    fn chain(&self, page: &mut Page) -> Vec<Before<'a>> {
        let mut chain = Vec::new(page.alloc());
        let mut last = *self;
        for _ in 0..10 {
            page.push(&mut chain, last);
            match last.followed() {
                Some(before) => last = before,
                None => break,
            }
        }
        chain
    }

    fn play_chain(&self, page: &mut Page, names: &ShortNames, stage: &mut Stage) {
        for before in self.chain(page).iter().rev() {
            before.play(page, names, stage);
        }
    }

    /// The scenario after these lines. Refused where a line can't be read. None where memory ran out.
    pub fn stage(&self, page: &mut Page, names: &ShortNames) -> Option<Stage> {
        let mut stage = page.made(Stage::new(page.alloc()))?;
        self.play_chain(page, names, &mut stage);
        Some(stage)
    }
}
