// Names, references, labels, IDs and keys.
use ac_types::{AcIdentifier, AcName, ImageId, ImageRef, Label, Labels, Sequence, StoreKey, Text};
use scripts::{Page, Unread};

fn print_name(page: &mut Page, name: &AcName) {
    if let Some(copy) = page.made(name.copy()) {
        page.put(copy.as_str());
    }
}

/// `name TEXT`: the name, or why it is none.
pub fn name_answer(page: &mut Page, text: &str) {
    match AcName::parse(page.alloc(), text) {
        Ok(name) => print_name(page, &name),
        Err(error) => page.tell(&error),
    }
}

fn print_identifier(page: &mut Page, name: &AcIdentifier) {
    if let Some(copy) = page.made(name.copy()) {
        page.put(copy.as_str());
    }
}

/// `identifier TEXT`: the identifier, or why it is none.
pub fn identifier_answer(page: &mut Page, text: &str) {
    match AcIdentifier::parse(page.alloc(), text) {
        Ok(name) => print_identifier(page, &name),
        Err(error) => page.tell(&error),
    }
}

/// Prints labels, each ` NAME=VALUE`.
pub fn print_labels(page: &mut Page, labels: &Labels) {
    for label in labels.as_slice() {
        page.put_all(&[" ", label.name.as_str(), "=", label.value.as_str()]);
    }
}

// How many digits, and which; behind them stand zeros.
fn print_digits(page: &mut Page, digits: &[u8; 128], length: u8) {
    page.tell(&length);
    page.put(" ");
    for digit in digits {
        if *digit != 0 {
            page.tell(&char::from(*digit));
        }
    }
}

fn print_reference(page: &mut Page, wanted: &ImageRef) {
    match wanted {
        ImageRef::Named { name, labels } => {
            print_identifier(page, name);
            print_labels(page, labels);
        }
        ImageRef::ById { digits, len } => print_digits(page, digits, *len),
    }
}

fn print_copy(page: &mut Page, wanted: &ImageRef) {
    if let Some(copy) = page.made(wanted.copy()) {
        print_reference(page, &copy);
    }
}

/// `reference WORD`: the name and the labels, or how many digits of an ID and which, or where it stops to be a reference.
pub fn reference_answer(page: &mut Page, word: &str) {
    match ImageRef::parse(page.alloc(), word) {
        Ok(wanted) => print_copy(page, &wanted),
        Err(error) => page.tell(&error),
    }
}

fn add_label(page: &mut Page, list: &mut Vec<Label>, word: &str) {
    let (name, value) = word.split_once('=').unwrap_or(("", ""));
    if let Some(name) = page.read(AcIdentifier::parse(page.alloc(), name), Unread::Name) {
        let value = Text::from_string(page.text(value));
        page.push(list, Label { name, value });
    }
}

fn labels_of(page: &mut Page, words: &[String]) -> Labels {
    let mut list = Vec::new(page.alloc());
    for word in words {
        add_label(page, &mut list, word.as_str());
    }
    Sequence::from_vec(list)
}

// What the one test of labels says.
fn checked(page: &mut Page, labels: &Labels) -> String {
    match labels.check() {
        Ok(()) => page.put("taken"),
        Err(fault) => page.tell(&fault),
    }
    page.take()
}

// What the other says.
fn first_fault(page: &mut Page, labels: &Labels) -> String {
    match labels.first_fault(page.alloc()) {
        Ok(None) => page.put("taken"),
        Ok(Some(fault)) => page.tell(&fault),
        Err(_) => page.no_memory(),
    }
    page.take()
}

// What the two tests of labels say; they have to say the same.
fn print_both(page: &mut Page, labels: &Labels) {
    let checked = checked(page, labels);
    let first = first_fault(page, labels);
    page.put(checked.as_str());
    if checked.as_str() != first.as_str() {
        page.put_all(&[", but first: ", first.as_str()]);
    }
}

/// `labels NAME=VALUE ..`: whether labels may stand together.
pub fn labels_answer(page: &mut Page, words: &[String]) {
    let labels = labels_of(page, words);
    if let Some(copy) = page.made(labels.copy()) {
        print_both(page, &copy);
    }
}

fn print_id(page: &mut Page, id: ImageId) {
    if let Some(text) = page.made(id.text(page.alloc())) {
        page.put(text.as_str());
    }
}

/// `id TEXT`: the image ID as it is written.
pub fn id_answer(page: &mut Page, text: &str) {
    match ImageId::parse(text) {
        Ok(id) => print_id(page, id),
        Err(error) => page.tell(&error),
    }
}

fn print_key(page: &mut Page, key: StoreKey) {
    if let Some(text) = page.made(key.text(page.alloc())) {
        page.put(text.as_str());
    }
}

/// `key TEXT`: the key of the image ID, or which an image ID's beginning is.
pub fn key_answer(page: &mut Page, text: &str) {
    match (StoreKey::parse(text), ImageId::parse(text)) {
        (Ok(key), Ok(id)) if key != StoreKey::of(id) => page.put("two keys"),
        (Ok(key), _) => print_key(page, key),
        (Err(error), _) => page.tell(&error),
    }
}
