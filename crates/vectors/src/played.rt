// The lines of a script of calls on names, manifests, paths, trees, bundles and command lines.
use crate::answers::answer;
use scripts::{Page, Player};
use short_texts::{TextNames, print_answer};
use std::alloc::Global;

/// The names that the script has given so far.
#[derive(Drop)]
pub struct Vectors {
    names: TextNames,
}

impl Vectors {
    /// Before any line.
    pub fn new(alloc: Global) -> Vectors {
        Vectors {
            names: TextNames::new(alloc),
        }
    }
}

impl Player for Vectors {
    fn play(&mut self, page: &mut Page, lines: &[String], place: usize) {
        let line = match lines.get(place) {
            Some(line) => line.as_str(),
            None => "",
        };
        if line.is_empty() || line.starts_with('#') {
            return;
        }
        match line.strip_prefix("let ") {
            Some(rest) => self.names.define(page, rest),
            None => {
                answer(page, &self.names, line);
                print_answer(page, &self.names);
            }
        }
    }
}
