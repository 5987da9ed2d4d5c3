// The words of a line of the script.
use scripts::{Page, unfolded};

/// The words behind the name of the program, parted by single spaces: `""` is the empty word, `a^64` is 64
/// times the letter `a`.
pub fn words_of(page: &mut Page, line: &str) -> Vec<String> {
    let mut words = Vec::new(page.alloc());
    for word in line.split(' ') {
        let word = if word == "\"\"" { "" } else { word };
        let word = unfolded(page, word);
        page.push(&mut words, word);
    }
    words
}
