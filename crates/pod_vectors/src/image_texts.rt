// Images as lines of a script say them.
use scripts::{Page, Unread, number_of};
use short_texts::TextNames;

/// An image as texts: what its ID and its key are made of, when it was imported, its manifest, and its own
/// entries, as letters and paths between commas or as a listing.
#[derive(Drop)]
pub struct ImageText {
    pub byte: u8,
    pub moment: u64,
    pub manifest: String,
    pub own: String,
    pub tree: String,
}

const KEYS: [&str; 7] = [
    "version", "moment", "needs", "keeps", "own", "files", "tree",
];

fn is_known(word: &str) -> bool {
    let (key, _) = word.split_once('=').unwrap_or(("", ""));
    for known in KEYS {
        if known == key {
            return true;
        }
    }
    false
}

// The value of a key among words `KEY=VALUE`; the empty text where it isn't there.
fn value_of<'a>(words: &'a [String], key: &str) -> &'a str {
    for word in words {
        if let Some((found, value)) = word.split_once('=') {
            if found == key {
                return value;
            }
        }
    }
    ""
}

// Each element of a list between two texts.
fn put_each(page: &mut Page, list: &str, before: &str, behind: &str) {
    if list.is_empty() {
        return;
    }
    for (place, item) in list.split(',').enumerate() {
        page.put_all(&[if place > 0 { "," } else { "" }, before, item, behind]);
    }
}

// The manifest of an image of that name, or the JSON that stands in place of it.
fn manifest_text(page: &mut Page, name: &str, words: &[String]) -> String {
    if name.starts_with('{') {
        return page.text(name);
    }
    page.put("{\"acKind\":\"ImageManifest\",\"acVersion\":\"0.8.0\",\"name\":\"");
    page.put_all(&[name, "\",\"labels\":["]);
    let version = value_of(words, "version");
    put_each(page, version, "{\"name\":\"version\",\"value\":\"", "\"}");
    page.put("],\"dependencies\":[");
    put_each(page, value_of(words, "needs"), "{\"imageName\":\"", "\"}");
    page.put("],\"pathWhitelist\":[");
    put_each(page, value_of(words, "keeps"), "\"", "\"");
    page.put("]}");
    page.take()
}

// So many files, numbered from 0.
fn files_text(page: &mut Page, count: u64) -> String {
    for number in 0..count {
        page.put(if number == 0 { "f/f" } else { ",f/f" });
        page.tell(&number);
    }
    page.take()
}

fn own_text(page: &mut Page, words: &[String]) -> String {
    let files = value_of(words, "files");
    if files.is_empty() {
        return page.text(value_of(words, "own"));
    }
    let count = number_of(page, files);
    files_text(page, count)
}

fn moment_of(page: &mut Page, words: &[String]) -> u64 {
    let moment = value_of(words, "moment");
    if moment.is_empty() {
        return 0;
    }
    number_of(page, moment)
}

fn check_words(page: &mut Page, words: &[String]) {
    for word in words {
        if !is_known(word.as_str()) {
            page.unread(Unread::Word);
        }
    }
}

fn image_of(page: &mut Page, byte: u8, name: &str, words: &[String]) -> ImageText {
    check_words(page, words);
    ImageText {
        byte,
        moment: moment_of(page, words),
        manifest: manifest_text(page, name, words),
        own: own_text(page, words),
        tree: page.text(value_of(words, "tree")),
    }
}

/// `image BYTE NAME|MANIFEST [version=V] [moment=N] [needs=NAME,..] [keeps=PATH,..] [own=ENTRY,..] [files=N]
/// [tree=LISTING]`: one more image of the block, whose ID and key are that byte, of two hexadecimal digits,
/// again and again.
pub fn add_image(page: &mut Page, names: &TextNames, images: &mut Vec<ImageText>, rest: &str) {
    let words = names.words_of(page, rest);
    let [byte, name, parts @ ..] = words.as_slice() else {
        return page.unread(Unread::Missing);
    };
    if let Some(byte) = page.read(u8::from_str_radix(byte.as_str(), 16), Unread::Number) {
        let image = image_of(page, byte, name.as_str(), parts);
        page.push(images, image);
    }
}

// An image of the text, with a number in place of each `#`, and the next one in place of each `%` and as the
// byte.
fn numbered(page: &mut Page, text: &str, number: u8) -> String {
    let next = number.saturating_add(1);
    page.put_byte(next);
    page.put(" ");
    for character in text.chars() {
        match character {
            '#' => page.tell(&number),
            '%' => page.tell(&next),
            _ => page.tell(&character),
        }
    }
    page.take()
}

/// `images COUNT NAME|MANIFEST [PART ..]`: so many images, with a number from 0 on in place of `#`, the next one
/// in place of `%`, and that next number as the byte of the ID.
pub fn add_numbered_images(
    page: &mut Page,
    names: &TextNames,
    images: &mut Vec<ImageText>,
    rest: &str,
) {
    let (count, image) = rest.split_once(' ').unwrap_or(("", ""));
    let count = page.read(count.parse::<u8>(), Unread::Number).unwrap_or(0);
    for number in 0..count {
        let line = numbered(page, image, number);
        add_image(page, names, images, line.as_str());
    }
}
