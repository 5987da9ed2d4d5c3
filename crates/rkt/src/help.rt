// What the program answers by itself.

use crate::texts::{COMMANDS, HELP, IMAGE_COMMANDS, VERSION};

fn text_of(texts: &[(&'static str, &'static str)], name: &str) -> Option<&'static str> {
    for (word, text) in texts {
        if *word == name {
            return Some(*text);
        }
    }
    None
}

/// The text that answers these words, before anything is asked of the host.
pub fn text_alone(words: &[String]) -> Option<&'static str> {
    match words {
        [word] => match word.as_str() {
            "--help" | "-h" | "help" => Some(HELP),
            "--version" => Some(VERSION),
            _ => None,
        },
        [command, option] => match option.as_str() {
            "--help" => text_of(&COMMANDS, command.as_str()),
            _ => None,
        },
        [group, command, option] => match (group.as_str(), option.as_str()) {
            ("image", "--help") => text_of(&IMAGE_COMMANDS, command.as_str()),
            _ => None,
        },
        _ => None,
    }
}
