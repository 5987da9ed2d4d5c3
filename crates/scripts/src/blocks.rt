// The blocks of a script: lines between two empty ones.
use crate::page::Page;

/// Whether something is said by the line: it is neither a comment nor an answer nor empty.
pub fn says(line: &str) -> bool {
    !line.is_empty() && !line.starts_with('#') && !line.starts_with("  ")
}

fn is_empty_at(lines: &[String], place: usize) -> bool {
    match lines.get(place) {
        Some(line) => line.is_empty(),
        None => true,
    }
}

// Where the block begins to which the line at a place belongs.
fn start_of(lines: &[String], place: usize) -> usize {
    let mut start = place;
    for _ in 0..place {
        let above = start.saturating_sub(1);
        if is_empty_at(lines, above) {
            break;
        }
        start = above;
    }
    start
}

/// What is said above a place in its block.
pub fn block_above<'a>(page: &mut Page, lines: &'a [String], place: usize) -> Vec<&'a str> {
    let start = start_of(lines, place);
    let count = place.saturating_sub(start);
    let mut block = Vec::new(page.alloc());
    for line in lines.iter().skip(start).take(count) {
        if says(line.as_str()) {
            page.push(&mut block, line.as_str());
        }
    }
    block
}
