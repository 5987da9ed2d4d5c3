// Which call a line makes.
use crate::replies::{Found, written_answer};
use crate::requests::request_answer;
use crate::served_pods::ServedPod;
use crate::signatures::{sign_answer, verify_answer};
use scripts::{Page, Unread};
use short_texts::TextNames;

// What is written to a connection with that input, where the pod runs.
fn reply_answer(page: &mut Page, pod: &ServedPod, input: &[u8]) {
    let view = &pod.view;
    let Ok(is_whole) = view.is_whole(page.alloc()) else {
        return page.no_memory();
    };
    if !is_whole {
        return page.unread(Unread::Text);
    }
    let found = Found {
        token: &pod.token,
        view,
        key: &pod.key,
    };
    written_answer(page, input, &found);
}

fn reply_line(page: &mut Page, pod: &Option<ServedPod>, input: &[u8]) {
    match pod {
        Some(pod) => reply_answer(page, pod, input),
        None => page.unread(Unread::Missing),
    }
}

// The signatures of some words. False where the call is another.
fn is_signature_call(page: &mut Page, names: &TextNames, call: &str, rest: &str) -> bool {
    if call != "sign" && call != "verify" {
        return false;
    }
    let words = names.words_of(page, rest);
    if call == "sign" {
        sign_answer(page, words.as_slice());
    } else {
        verify_answer(page, words.as_slice());
    }
    true
}

/// The calls of the metadata service: `sign`, `verify`, `request`, or `reply` where the pod of the block runs.
/// False where the line is another call.
pub fn is_metadata_call(
    page: &mut Page,
    names: &TextNames,
    pod: &Option<ServedPod>,
    line: &str,
) -> bool {
    let (call, rest) = line.split_once(' ').unwrap_or((line, ""));
    if call != "request" && call != "reply" {
        return is_signature_call(page, names, call, rest);
    }
    let input = names.bytes_of(page, rest);
    if call == "request" {
        request_answer(page, input.as_slice());
    } else {
        reply_line(page, pod, input.as_slice());
    }
    true
}
