// Paths, their parents, and what lists them.
use path_map::{AbsPath, Listed};
use scripts::{Page, Unread};
use short_texts::path_of;

/// `path TEXT`: the path, or why it is none.
pub fn path_answer(page: &mut Page, text: &str) {
    match AbsPath::parse(page.alloc(), text) {
        Ok(path) => page.put(path.as_str()),
        Err(error) => page.tell_both(&error.number().unwrap_or(0), &error),
    }
}

/// `below PATH OTHER`: whether the path is the other or lies below it.
pub fn below_answer(page: &mut Page, words: &[String]) {
    let [path, other] = words else {
        return page.unread(Unread::Missing);
    };
    let Some(other) = path_of(page, other.as_str()) else {
        return;
    };
    if let Some(path) = path_of(page, path.as_str()) {
        page.tell(&path.starts_with(&other));
    }
}

// The parent twice, as a path and as a text; they have to be the same.
fn print_same(page: &mut Page, parent: &str, text: &str) {
    if parent != text {
        page.put_all(&["two parents: ", parent, " and "]);
    }
    page.put(if text.is_empty() { "none" } else { text });
}

fn print_parent(page: &mut Page, path: &AbsPath) {
    match path.parent(page.alloc()) {
        Ok(Some(parent)) => print_same(page, parent.as_str(), path.parent_text()),
        Ok(None) => print_same(page, "", path.parent_text()),
        Err(_) => page.no_memory(),
    }
}

/// `parent PATH`: the path of the directory in which it stands.
pub fn parent_answer(page: &mut Page, text: &str) {
    let Some(path) = path_of(page, text) else {
        return;
    };
    if let Some(copy) = page.made(path.copy()) {
        print_parent(page, &copy);
    }
}

/// The path that a whitelist's text lists. Refused where it lists none.
pub fn listed_of(page: &mut Page, text: &str) -> Option<Listed> {
    let short = text.strip_suffix('/');
    let path = path_of(page, short.unwrap_or(text))?;
    let empty = short.is_some();
    Some(Listed { path, empty })
}

fn print_listed(page: &mut Page, listed: &Listed) {
    let kind = if listed.empty {
        "a directory "
    } else {
        "a path "
    };
    page.put(kind);
    page.put(listed.path.as_str());
}

/// `listed TEXT`: what a whitelist's text lists.
pub fn listed_answer(page: &mut Page, text: &str) {
    let Some(listed) = listed_of(page, text) else {
        return;
    };
    if let Some(copy) = page.made(listed.copy()) {
        print_listed(page, &copy);
    }
}
