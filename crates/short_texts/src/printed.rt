// What is printed below a line.
use crate::names::TextNames;
use scripts::Page;

/// Lays out the answer that is on the page: each of its lines after two spaces, in which long texts are shown by
/// their names; `nothing` where the answer is empty.
pub fn print_answer(page: &mut Page, names: &TextNames) {
    let answer = page.take();
    let shown = names.shortened(page, answer);
    if shown.is_empty() {
        page.put("  nothing\n");
    }
    for line in shown.lines() {
        page.put_all(&["  ", line, "\n"]);
    }
}
