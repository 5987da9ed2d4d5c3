// Lines of a script that are read at several places of it: `define NAME`, and what is said below.
use scripts::{Line, Page, Unread, says};

fn is_definition(line: &str, name: &str) -> bool {
    line.strip_prefix("define ") == Some(name)
}

// The place behind the line that begins the definition. Refused where there is none.
fn definition_at(page: &mut Page, lines: &[String], name: &str) -> usize {
    for (place, line) in lines.iter().enumerate() {
        if is_definition(line.as_str(), name) {
            return place.saturating_add(1);
        }
    }
    page.unread(Unread::Name);
    lines.len()
}

/// Adds the lines of a definition, at most so many. Refused where there is none of that name.
pub fn add_definition<'a>(
    page: &mut Page,
    found: &mut Vec<&'a str>,
    lines: &'a [String],
    name: &str,
    most: u64,
) {
    let start = definition_at(page, lines, name);
    let mut left = most;
    for line in lines.iter().skip(start) {
        if line.is_empty() || left == 0 {
            break;
        }
        if says(line.as_str()) {
            page.push(found, line.as_str());
            left = left.saturating_sub(1);
        }
    }
}

/// The lines of a definition. Refused where there is none of that name.
pub fn definition<'a>(page: &mut Page, lines: &'a [String], name: &str) -> Vec<&'a str> {
    let mut found = Vec::new(page.alloc());
    add_definition(page, &mut found, lines, name, u64::MAX);
    found
}

/// How many lines the next word asks for: all where there is none.
pub fn most_of(page: &mut Page, line: &mut Line) -> u64 {
    if line.rest().is_empty() {
        return u64::MAX;
    }
    line.number(page)
}
