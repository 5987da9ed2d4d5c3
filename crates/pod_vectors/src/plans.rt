// The plans of pods' folders, entry by entry.
use crate::image_texts::ImageText;
use crate::images::{listing_of, maps_of, stored_images};
use crate::roots::rendered;
use ac_types::{AcName, lower_hex};
use dep_match::Stored;
use dir_trait::Name;
use folder_building::{Content, Origin, PlanEntry};
use pod_plan::{PodApp, pod_plan, token_text};
use render::Rendering;
use scripts::{Page, Unread, name_of, number_of};

fn root_of(page: &mut Page, images: &[ImageText], place: usize) -> Option<Rendering> {
    let list = stored_images(page, images);
    let maps = maps_of(page, images);
    let root = rendered(page, list.as_slice(), maps.as_slice(), place, false);
    page.read(root, Unread::Missing)
}

// The app `NAME|PLACE|MANIFEST|LISTING` of the image at a place.
fn app_of(page: &mut Page, images: &[ImageText], word: &str) -> Option<PodApp> {
    let (name, word) = word.split_once('|')?;
    let (place, word) = word.split_once('|')?;
    let (manifest, listing) = word.split_once('|')?;
    let place = page.read(place.parse::<usize>(), Unread::Number)?;
    let name = page.read(AcName::parse(page.alloc(), name), Unread::Name)?;
    let listing = listing_of(page, listing)?;
    let rendering = root_of(page, images, place)?;
    Some(PodApp {
        name,
        manifest: page.bytes(manifest.as_bytes()),
        rendering,
        listing,
    })
}

fn add_folder(page: &mut Page, names: &mut Vec<Name>, image: &Stored) {
    if let Some(text) = page.made(image.key.text(page.alloc())) {
        let name = name_of(page, text.as_str());
        page.push(names, name);
    }
}

// The folders of the images.
fn folders_of(page: &mut Page, images: &[ImageText]) -> Vec<Name> {
    let list = stored_images(page, images);
    let mut names = Vec::new(page.alloc());
    for image in list.as_slice() {
        add_folder(page, &mut names, image);
    }
    names
}

fn put_given(page: &mut Page, bytes: &[u8]) {
    if !bytes.is_empty() {
        page.put(" ");
    }
    page.put_bytes(bytes);
}

fn folder_text(origin: &Origin) -> &str {
    match &origin.folder {
        Some(name) => name.as_str(),
        None => "the bundle",
    }
}

fn put_copied(page: &mut Page, origin: &Origin, size: u64, sha: &[u8; 64]) {
    page.put(" ");
    page.tell(&size);
    page.put(" ");
    page.put_bytes(&lower_hex(sha));
    page.put_all(&[" of ", folder_text(origin), " ", origin.path.as_str()]);
}

fn put_entry(page: &mut Page, entry: &PlanEntry) {
    let path = entry.path.as_str();
    match &entry.content {
        Content::Directory => page.put_all(&["dir ", path]),
        Content::Given(bytes) => {
            page.put_all(&["file ", path]);
            put_given(page, bytes.as_slice());
        }
        Content::Copied { origin, size, sha } => {
            page.put_all(&["copy ", path]);
            put_copied(page, origin, *size, sha);
        }
    }
    page.put("\n");
}

fn put_plan(page: &mut Page, plan: &[PlanEntry]) {
    for entry in plan {
        put_entry(page, entry);
    }
}

fn token_of(page: &mut Page, digits: &str) -> [u8; 16] {
    let mut token = [0; 16];
    if hex::decode_to_slice(digits, &mut token).is_err() {
        page.unread(Unread::Text);
    }
    token
}

fn two_apps(
    page: &mut Page,
    images: &[ImageText],
    first: &str,
    second: &str,
) -> Option<(PodApp, PodApp)> {
    let first = app_of(page, images, first)?;
    let second = app_of(page, images, second)?;
    Some((first, second))
}

// The plan of the pod of two apps of different names.
fn plan_of(
    page: &mut Page,
    now: u64,
    token: &[u8; 16],
    pod: &str,
    folders: &[Name],
    first: PodApp,
    second: PodApp,
) {
    if first.name.as_str() == second.name.as_str() {
        return page.unread(Unread::Name);
    }
    let apps = [first, second];
    match pod_plan(
        page.alloc(),
        now,
        token,
        pod.as_bytes(),
        folders,
        apps.as_slice(),
    ) {
        Ok(plan) => put_plan(page, plan.as_slice()),
        Err(_) => page.no_memory(),
    }
}

/// `plan MOMENT TOKEN POD APP APP`: the entries of the folder of a pod of two apps, each
/// `NAME|PLACE|MANIFEST|LISTING` with the place of its image.
pub fn plan_answer(page: &mut Page, images: &[ImageText], words: &[String]) {
    let [now, token, pod, first, second] = words else {
        return page.unread(Unread::Missing);
    };
    let now = number_of(page, now.as_str());
    let token = token_of(page, token.as_str());
    let folders = folders_of(page, images);
    let folders = folders.as_slice();
    match two_apps(page, images, first.as_str(), second.as_str()) {
        Some((first, second)) => plan_of(page, now, &token, pod.as_str(), folders, first, second),
        None => page.unread(Unread::Missing),
    }
}

/// `token DIGITS`: the token as it is written.
pub fn token_answer(page: &mut Page, digits: &str) {
    let token = token_of(page, digits);
    if let Some(text) = page.made(token_text(page.alloc(), &token)) {
        page.put(text.as_str());
    }
}
