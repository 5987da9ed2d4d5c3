// Bundles in memory: their listings, or why they hold no image.
use crate::listings::{print_digest, print_written};
use bundle_image::{BundleImage, BundleRefusal, read_bundle};
use dir_memory::MemoryBundle;
use dir_trait::{Bundle, NoMemory};
use scripts::{Page, Unread};

/// Where the bundle stands.
const PLACE: &str = "b";

// What may be put into a bundle. None of a word that isn't known.
fn with_put(
    page: &mut Page,
    bundle: MemoryBundle,
    kind: &str,
    path: &str,
    text: &str,
) -> Result<MemoryBundle, NoMemory> {
    let alloc = page.alloc();
    match kind {
        "file" => bundle.file(alloc, path, text.as_bytes()),
        "link" => bundle.link(alloc, path, text),
        "dir" => bundle.dir(alloc, path),
        "other" => bundle.other(alloc, path),
        _ => {
            page.unread(Unread::Word);
            Ok(bundle)
        }
    }
}

// The bundle with what a word puts into it: `file:PATH:TEXT`, `link:PATH:TARGET`, `dir:PATH`, `other:PATH`.
fn with_word(page: &mut Page, bundle: MemoryBundle, word: &str) -> MemoryBundle {
    let (kind, rest) = word.split_once(':').unwrap_or(("", ""));
    let (path, text) = rest.split_once(':').unwrap_or((rest, ""));
    match with_put(page, bundle, kind, path, text) {
        Ok(bundle) => bundle,
        Err(_) => {
            page.no_memory();
            MemoryBundle::new(page.alloc())
        }
    }
}

fn bundle_of(page: &mut Page, words: &[String]) -> MemoryBundle {
    let mut bundle = MemoryBundle::new(page.alloc());
    for word in words {
        bundle = with_word(page, bundle, word.as_str());
    }
    bundle
}

// Why a bundle holds no image.
fn print_refusal(page: &mut Page, refusal: &BundleRefusal) {
    match refusal {
        BundleRefusal::NoFile(path) => page.put_all(&["no file ", path.as_str()]),
        BundleRefusal::Manifest(fault) => {
            page.put_all(&["manifest ", fault.path.as_str(), " "]);
            page.tell(&fault.kind.number());
        }
        BundleRefusal::Id(_) => page.put("bad id"),
        BundleRefusal::Listing(error) => page.tell_both(&error.number().unwrap_or(0), error),
        BundleRefusal::BadKind(path) => page.put_all(&["bad kind ", path.as_str()]),
        BundleRefusal::BundleFault => page.put("bundle fault"),
        BundleRefusal::NoMemory => page.put("out of memory"),
    }
}

fn print_parts(page: &mut Page, image: &BundleImage) {
    page.put(image.manifest.name.as_str());
    page.put("\nid ");
    print_digest(page, &image.id.bytes);
    page.put(if image.listed {
        "\nlisted\n"
    } else {
        "\nnot listed\n"
    });
    page.put_bytes(image.bytes.as_slice());
}

/// What is told of the image of a bundle.
#[derive(Clone, Copy)]
pub enum Told {
    Listing,
    Parts,
    Length,
}

fn print_image(page: &mut Page, image: &BundleImage, told: Told) {
    match told {
        Told::Listing => print_written(page, &image.listing),
        Told::Parts => print_parts(page, image),
        Told::Length => page.tell_both(&image.listing.as_slice().len(), &"lines"),
    }
}

/// Prints what is told of the image of the bundle at `b`, or why it holds none.
pub fn print_bundle<B: Bundle>(page: &mut Page, bundle: &mut B, told: Told) {
    match read_bundle(page.alloc(), bundle, PLACE) {
        Ok(image) => print_image(page, &image, told),
        Err(refusal) => print_refusal(page, &refusal),
    }
}

/// `bundle PUT ..`: the listing of the image of the bundle at `b`, or why it holds none. `bundle-parts PUT ..`: the
/// name, the ID and the manifest's bytes of the image, and whether a listing was given.
pub fn bundle_answer(page: &mut Page, words: &[String], told: Told) {
    let mut bundle = bundle_of(page, words);
    print_bundle(page, &mut bundle, told);
}

// The listing, with a call that fails.
fn failing_answer(page: &mut Page, words: &[String], call: u64) -> String {
    let bundle = bundle_of(page, words);
    match bundle.fail(page.alloc(), call) {
        Ok(bundle) => {
            let mut bundle = bundle;
            print_bundle(page, &mut bundle, Told::Listing);
        }
        Err(_) => page.no_memory(),
    }
    page.take()
}

fn add_line(page: &mut Page, text: &mut String, call: u64, answer: &str) {
    page.tell_both(&call, &answer);
    page.put("\n");
    let line = page.take();
    if text.push_str(line.as_str()).is_err() {
        page.no_memory();
    }
}

/// `each-failing-call-of-bundle PUT ..`: what the bundle answers where each call on it fails in turn, up to the
/// first that makes no difference.
pub fn failing_answers(page: &mut Page, words: &[String]) {
    bundle_answer(page, words, Told::Listing);
    let whole = page.take();
    let mut text = String::new(page.alloc());
    for call in 1..1000 {
        let answer = failing_answer(page, words, call);
        if answer.as_str() == whole.as_str() {
            break;
        }
        add_line(page, &mut text, call, answer.as_str());
    }
    page.put(text.as_str());
}
