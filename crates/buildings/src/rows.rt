// Plans and bundles as lines.
use ac_types::Text;
use dir_memory::MemoryBundle;
use dir_trait::{Bytes, Name};
use folder_building::{Content, Origin, PlanEntry};
use scripts::{Line, Page, ShortNames, Unread, unfolded};

/// What an entry of a plan is.
#[derive(Clone, Copy, PartialEq, Eq)]
pub enum RowKind {
    Directory,
    Given,
    Copied,
}

/// An entry of a plan at its path. A file that is copied is so from a path in an image's folder or in a
/// bundle. It has the size of the text, and this SHA-512 in hexadecimal digits.
#[derive(Clone, Copy, Drop)]
pub struct Row<'a> {
    pub kind: RowKind,
    pub path: &'a str,
    pub text: &'a str,
    image: &'a str,
    from: &'a str,
    sha: &'a str,
}

// `PATH` or `PATH TEXT`. Nothing is copied.
fn plain_row<'a>(kind: RowKind, line: &mut Line<'a>) -> Row<'a> {
    let path = line.word();
    Row {
        kind,
        path,
        text: line.rest(),
        image: path,
        from: path,
        sha: path,
    }
}

// `PATH IMAGE FROM SHA TEXT`, where a bundle is the image `.`
fn copied<'a>(line: &mut Line<'a>) -> Row<'a> {
    let path = line.word();
    let image = line.word();
    let from = line.word();
    let sha = line.word();
    Row {
        kind: RowKind::Copied,
        path,
        text: line.rest(),
        image,
        from,
        sha,
    }
}

/// The entry of a plan that a line says: `dir PATH`, `given PATH TEXT`, or `copy PATH IMAGE FROM SHA TEXT`.
/// None of any other line.
pub fn row_of(text: &str) -> Option<Row<'_>> {
    let mut line = Line::of(text);
    match line.word() {
        "dir" => Some(plain_row(RowKind::Directory, &mut line)),
        "given" => Some(plain_row(RowKind::Given, &mut line)),
        "copy" => Some(copied(&mut line)),
        _ => None,
    }
}

/// The entries of a plan among the lines.
pub fn rows_of<'a>(page: &mut Page, block: &[&'a str]) -> Vec<Row<'a>> {
    let mut rows = Vec::new(page.alloc());
    for text in block {
        if let Some(row) = row_of(text) {
            page.push(&mut rows, row);
        }
    }
    rows
}

/// The bytes of a file that a line says.
pub fn bytes_of(page: &mut Page, text: &str) -> Bytes {
    let text = unfolded(page, text);
    page.bytes(text.as_bytes())
}

fn sha_of(page: &mut Page, digits: &str) -> [u8; 64] {
    let mut sha = [0; 64];
    if hex::decode_to_slice(digits, &mut sha).is_err() {
        page.unread(Unread::Text);
    }
    sha
}

fn copied_of(page: &mut Page, names: &ShortNames, row: &Row) -> Content {
    let sha = sha_of(page, names.long(row.sha));
    let size = bytes_of(page, row.text).as_slice().len() as u64;
    let origin = Origin {
        folder: Name::of(names.long(row.image)),
        path: Text::from_string(page.text(row.from)),
    };
    Content::Copied { origin, size, sha }
}

fn content_of(page: &mut Page, names: &ShortNames, row: &Row) -> Content {
    match row.kind {
        RowKind::Directory => Content::Directory,
        RowKind::Given => Content::Given(bytes_of(page, row.text)),
        RowKind::Copied => copied_of(page, names, row),
    }
}

fn entry_of(page: &mut Page, names: &ShortNames, row: &Row) -> PlanEntry {
    PlanEntry {
        path: Text::from_string(page.text(row.path)),
        content: content_of(page, names, row),
    }
}

/// The plan of the rows.
pub fn plan_of(page: &mut Page, names: &ShortNames, rows: &[Row]) -> Vec<PlanEntry> {
    let mut plan = Vec::new(page.alloc());
    for row in rows {
        let entry = entry_of(page, names, row);
        page.push(&mut plan, entry);
    }
    plan
}

// `PATH TEXT`
fn with_file(page: &mut Page, bundle: MemoryBundle, text: &str) -> Option<MemoryBundle> {
    let mut line = Line::of(text);
    let path = line.word();
    let bytes = bytes_of(page, line.rest());
    page.made(bundle.file(page.alloc(), path, bytes.as_slice()))
}

/// The bundle with the files of the lines `file PATH TEXT`. None where memory ran out.
pub fn bundle_of(page: &mut Page, block: &[&str]) -> Option<MemoryBundle> {
    let mut bundle = MemoryBundle::new(page.alloc());
    for text in block {
        if let Some(file) = text.strip_prefix("file ") {
            bundle = with_file(page, bundle, file)?;
        }
    }
    Some(bundle)
}
