// Which call a line makes.
use crate::choices::{best_answer, best_dependency_answer};
use crate::image_texts::ImageText;
use crate::launches::launch_answer;
use crate::plans::{plan_answer, token_answer};
use crate::pods::pod_answer;
use crate::roots::{laid_answer, root_answer};
use crate::trees::{no_memory_answer, tree_answer};
use scripts::{Page, Unread};
use short_texts::TextNames;

// The calls of words.
fn words_answer(page: &mut Page, images: &[ImageText], call: &str, words: &[String]) {
    match call {
        "pod" | "pod-names" | "pod-size" => pod_answer(page, images, call, words),
        "plan" => plan_answer(page, images, words),
        "launch" => launch_answer(page, words, false),
        "environment" => launch_answer(page, words, true),
        _ => page.unread(Unread::Line),
    }
}

// The calls of one text or none. False where the call is another.
fn is_text_call(page: &mut Page, images: &[ImageText], call: &str, text: &str) -> bool {
    match call {
        "best" => best_answer(page, images, text),
        "best-dependency" => best_dependency_answer(page, images, text),
        "tree" => tree_answer(page, images, true),
        "tree-size" => tree_answer(page, images, false),
        "root" => root_answer(page, images, false),
        "root-listing" => root_answer(page, images, true),
        "laid" => laid_answer(page, images),
        "token" => token_answer(page, text),
        "numbers-of-no-memory" => no_memory_answer(page),
        _ => return false,
    }
    true
}

/// What the call of a line answers. Refused where the line says something that isn't known.
pub fn answer(page: &mut Page, names: &TextNames, images: &[ImageText], line: &str) {
    let (call, rest) = line.split_once(' ').unwrap_or((line, ""));
    let text = names.text_of(page, rest);
    if !is_text_call(page, images, call, text.as_str()) {
        let words = names.words_of(page, rest);
        words_answer(page, images, call, words.as_slice());
    }
}
