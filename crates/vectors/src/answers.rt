// Which call a line makes.
use crate::bundles::{Told, bundle_answer, failing_answers};
use crate::command_lines::is_command_line;
use crate::documents::{document_answer, image_answer, pod_answer};
use crate::fields::field_answer;
use crate::listings::{
    digest_answer, file_check_answer, image_digest_answer, line_answer, line_length_answer,
    listing_answer, map_listing_answer, map_of_listing_answer, written_listing_answer,
};
use crate::maps::{count_answer, keep_answer, lay_answer, look_answer};
use crate::names::{
    id_answer, identifier_answer, key_answer, labels_answer, name_answer, reference_answer,
};
use crate::parts::{image_parts_answer, pod_parts_answer};
use crate::paths::{below_answer, listed_answer, parent_answer, path_answer};
use crate::phases::phase_answer;
use crate::sections::{json_answer, section_answer, written_section_answer};
use crate::sequences::{no_memory_answer, numbers_answer};
use crate::wide::wide_answer;
use scripts::{Page, Unread};
use short_texts::TextNames;
use std::str;

// The calls of bytes. False where the call is another.
fn is_bytes_call(page: &mut Page, call: &str, bytes: &[u8]) -> bool {
    match call {
        "image" => image_answer(page, bytes),
        "pod" => pod_answer(page, bytes),
        "document-again" => document_answer(page, bytes),
        "image-parts" => image_parts_answer(page, bytes),
        "pod-parts" => pod_parts_answer(page, bytes),
        "listing" => listing_answer(page, bytes),
        "listing-again" => written_listing_answer(page, bytes),
        "listing-of-its-map" => map_of_listing_answer(page, bytes),
        "digest" => digest_answer(page, bytes),
        _ => return false,
    }
    true
}

// The calls of one text. False where the call is another.
fn is_text_call(page: &mut Page, call: &str, text: &str) -> bool {
    match call {
        "name" => name_answer(page, text),
        "identifier" => identifier_answer(page, text),
        "reference" => reference_answer(page, text),
        "id" => id_answer(page, text),
        "key" => key_answer(page, text),
        "json" => json_answer(page, text),
        "section" => section_answer(page, text),
        "section-again" => written_section_answer(page, text),
        "path" => path_answer(page, text),
        "parent" => parent_answer(page, text),
        "listed" => listed_answer(page, text),
        "line-length" => line_length_answer(page, text),
        "numbers-of-no-memory" => no_memory_answer(page),
        _ => return false,
    }
    true
}

// The calls of words.
fn words_answer(page: &mut Page, call: &str, words: &[String]) {
    match call {
        "labels" => labels_answer(page, words),
        "field" => field_answer(page, words),
        "numbers" => numbers_answer(page, words),
        "below" => below_answer(page, words),
        "lay" => lay_answer(page, words),
        "count" => count_answer(page, words),
        "keep" => keep_answer(page, words),
        "look" => look_answer(page, words),
        "map-listing" => map_listing_answer(page, words),
        "line" => line_answer(page, words),
        "image-digest" => image_digest_answer(page, words),
        "phase" => phase_answer(page, words),
        "file-check" => file_check_answer(page, words),
        "bundle" => bundle_answer(page, words, Told::Listing),
        "bundle-parts" => bundle_answer(page, words, Told::Parts),
        "each-failing-call-of-bundle" => failing_answers(page, words),
        "wide-bundle" => wide_answer(page, words),
        _ => page.unread(Unread::Line),
    }
}

/// What the call of a line answers. Refused where the line says something that isn't known.
pub fn answer(page: &mut Page, names: &TextNames, line: &str) {
    if is_command_line(page, line) {
        return;
    }
    let (call, rest) = line.split_once(' ').unwrap_or((line, ""));
    let bytes = names.bytes_of(page, rest);
    if is_bytes_call(page, call, bytes.as_slice()) {
        return;
    }
    match str::from_utf8(bytes.as_slice()) {
        Ok(text) if is_text_call(page, call, text) => (),
        Ok(_) => {
            let words = names.words_of(page, rest);
            words_answer(page, call, words.as_slice());
        }
        Err(_) => page.unread(Unread::Text),
    }
}
