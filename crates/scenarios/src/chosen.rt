// Two scripts in one, and who plays each.
use crate::world::World;
use histories::Histories;
use scripts::{Page, Player, Unread};
use std::alloc::Global;

/// Which script the lines are of.
#[derive(Clone, Copy)]
enum Script {
    Scenarios,
    Histories,
}

/// The players of the two scripts, and the script that was chosen last: at first that of `scenarios`.
#[derive(Drop)]
pub struct Scripts {
    chosen: Script,
    world: World,
    histories: Histories,
}

impl Scripts {
    /// Before any line.
    pub fn new(alloc: Global) -> Scripts {
        Scripts {
            chosen: Script::Scenarios,
            world: World::new(alloc),
            histories: Histories::new(alloc),
        }
    }

    // Refused where the word names no script.
    fn choose(&mut self, page: &mut Page, word: &str) {
        match word {
            "scenarios" => self.chosen = Script::Scenarios,
            "histories" => self.chosen = Script::Histories,
            _ => page.unread(Unread::Word),
        }
    }
}

impl Player for Scripts {
    fn play(&mut self, page: &mut Page, lines: &[String], place: usize) {
        let line = match lines.get(place) {
            Some(line) => line.as_str(),
            None => return,
        };
        if let Some(word) = line.strip_prefix("script ") {
            return self.choose(page, word);
        }
        match self.chosen {
            Script::Scenarios => self.world.play(page, lines, place),
            Script::Histories => self.histories.play(page, lines, place),
        }
    }
}
