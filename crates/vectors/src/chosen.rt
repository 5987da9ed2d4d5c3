// Three scripts in one, and who plays each.
use crate::played::Vectors;
use buildings::Buildings;
use pod_vectors::PodVectors;
use scripts::{Page, Player, Unread};
use std::alloc::Global;

/// Which script the lines are of.
#[derive(Clone, Copy)]
enum Script {
    Vectors,
    Buildings,
    Pods,
}

/// The players of the three scripts, and the script that was chosen last: at first that of `vectors`.
#[derive(Drop)]
pub struct Scripts {
    chosen: Script,
    vectors: Vectors,
    buildings: Buildings,
    pods: PodVectors,
}

impl Scripts {
    /// Before any line.
    pub fn new(alloc: Global) -> Scripts {
        Scripts {
            chosen: Script::Vectors,
            vectors: Vectors::new(alloc),
            buildings: Buildings::new(alloc),
            pods: PodVectors::new(alloc),
        }
    }

    // Refused where the word names no script.
    fn choose(&mut self, page: &mut Page, word: &str) {
        match word {
            "vectors" => self.chosen = Script::Vectors,
            "buildings" => self.chosen = Script::Buildings,
            "pods" => self.chosen = Script::Pods,
            _ => page.unread(Unread::Word),
        }
    }
}

impl Player for Scripts {
    fn play(&mut self, page: &mut Page, lines: &[String], place: usize) {
        let line = match lines.get(place) {
            Some(line) => line.as_str(),
            None => return,
        };
        if let Some(word) = line.strip_prefix("script ") {
            return self.choose(page, word);
        }
        match self.chosen {
            Script::Vectors => self.vectors.play(page, lines, place),
            Script::Buildings => self.buildings.play(page, lines, place),
            Script::Pods => self.pods.play(page, lines, place),
        }
    }
}
