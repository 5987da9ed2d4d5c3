// What words are read as, as a text.
use crate::asked_pods::print_asked;
use crate::command_words::words_of;
use ac_types::StoreKey;
use rkt_words::{Asked, Line, WordsError, read_line};
use scripts::Page;

fn print_key(page: &mut Page, key: &StoreKey) {
    let text = key.text(page.alloc());
    if let Some(text) = page.made(text) {
        page.put_all(&["image-rm ", text.as_str()]);
    }
}

fn print_run(page: &mut Page, asked: &Asked, address: &str) {
    page.put_all(&["run ", address]);
    print_asked(page, asked);
}

fn print_line(page: &mut Page, line: &Line) {
    match line {
        Line::Status(pod) => page.put_all(&["status ", pod.as_str()]),
        Line::List => page.put("list"),
        Line::Prepare(asked) => {
            page.put("prepare");
            print_asked(page, asked);
        }
        Line::Run { asked, address } => print_run(page, asked, address.as_str()),
        Line::RunPrepared { pod, address } => {
            page.put_all(&["run-prepared ", address.as_str(), " ", pod.as_str()]);
        }
        Line::Rm(pod) => page.put_all(&["rm ", pod.as_str()]),
        Line::Gc { grace, expire } => {
            page.put("gc ");
            page.tell_both(grace, expire);
        }
        Line::CatManifest(pod) => page.put_all(&["cat-manifest ", pod.as_str()]),
        Line::Validate(file) => page.put_all(&["validate ", file.as_str()]),
        Line::ImageImport(path) => page.put_all(&["import ", path.as_str()]),
        Line::ImageList => page.put("images"),
        Line::ImageRm(key) => print_key(page, key),
        Line::ImageGc => page.put("image-gc"),
        Line::Metadata { address, count } => {
            page.put_all(&["metadata ", address.as_str(), " "]);
            page.tell(count);
        }
        Line::Demo(images) => {
            page.put("demo ");
            page.tell(images);
        }
    }
}

// What the words are read as: the command with its values, or `usage` and the place of what is wrong.
fn print_read(page: &mut Page, words: &[String]) {
    match read_line(page.alloc(), words) {
        Ok(line) => print_line(page, &line),
        Err(WordsError::Usage(place)) => {
            page.put("usage ");
            page.tell(&place);
        }
        Err(WordsError::NoMemory) => page.no_memory(),
    }
}

/// `rkt WORDS`: what the words are read as. False where the line is no command line.
pub fn is_command_line(page: &mut Page, line: &str) -> bool {
    let words = match line.split_once(' ') {
        None if line == "rkt" => Vec::new(page.alloc()),
        Some(("rkt", rest)) => words_of(page, rest),
        _ => return false,
    };
    print_read(page, words.as_slice());
    true
}
