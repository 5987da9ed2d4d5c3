// The plan of a listing's tree.
use crate::rows::{Row, plan_of};
use dir_trait::Name;
use folder_building::{Content, Origin, PlanEntry, tree_plan};
use scripts::{Line, Page, ShortNames, Unread};
use tree_digest::Listing;

// The listing of the lines `line LINE`.
fn listing_of(page: &mut Page, block: &[&str]) -> Option<Listing> {
    for line in block {
        if let Some(line) = line.strip_prefix("line ") {
            page.put(line);
            page.put("\n");
        }
    }
    let text = page.take();
    page.read(Listing::read(page.alloc(), text.as_bytes()), Unread::Text)
}

fn print_copied(page: &mut Page, names: &ShortNames, origin: &Origin, size: u64, sha: &[u8; 64]) {
    page.put(" ");
    match &origin.folder {
        Some(name) => names.print(page, name.as_str()),
        None => page.put("."),
    }
    page.put(" ");
    page.put(origin.path.as_str());
    page.put(" ");
    if let Some(digits) = page.made(hex::encode(page.alloc(), sha)) {
        names.print(page, digits.as_str());
    }
    print_size(page, size);
}

fn print_size(page: &mut Page, size: u64) {
    page.put(" ");
    page.tell(&size);
    page.put(" bytes");
}

fn print_entry(page: &mut Page, names: &ShortNames, entry: &PlanEntry) {
    let path = entry.path.as_str();
    match &entry.content {
        Content::Directory => page.put_all(&["  dir ", path]),
        Content::Given(bytes) => {
            page.put_all(&["  given ", path]);
            print_size(page, bytes.as_slice().len() as u64);
        }
        Content::Copied { origin, size, sha } => {
            page.put_all(&["  copy ", path]);
            print_copied(page, names, origin, *size, sha);
        }
    }
    page.put("\n");
}

fn print_plan(page: &mut Page, names: &ShortNames, plan: &[PlanEntry]) {
    for entry in plan {
        print_entry(page, names, entry);
    }
}

/// Prints the plan that a listing has in an image's folder, after the rows: `IMAGE PREFIX FROM`.
pub fn print_tree(page: &mut Page, names: &ShortNames, block: &[&str], rows: &[Row], text: &str) {
    let Some(listing) = listing_of(page, block) else {
        return;
    };
    let before = plan_of(page, names, rows);
    let mut line = Line::of(text);
    let folder = Name::of(names.long(line.word()));
    let prefix = line.word();
    match tree_plan(page.alloc(), &listing, prefix, &folder, line.word(), before) {
        Ok(plan) => print_plan(page, names, plan.as_slice()),
        Err(_) => page.no_memory(),
    }
}
