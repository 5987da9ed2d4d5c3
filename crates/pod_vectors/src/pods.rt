// Pod manifests of images: their bytes, the names in them, and why there is none.
use crate::image_texts::ImageText;
use crate::images::stored_images;
use crate::wishes::{in_range, options_of, picks_of};
use ac_types::NoMemory;
use dep_match::Stored;
use manifests::{PodManifest, pod_bytes};
use pod_manifest::{GenError, Options, generate};
use scripts::Page;
use std::alloc::Global;

// What comes of the images at some places, by a copy of the wishes.
fn generated(
    alloc: Global,
    list: &[Stored],
    picks: &[usize],
    options: &Options,
) -> Result<PodManifest, GenError> {
    let picks = in_range(alloc, picks, list.len())?;
    let options = options.copy()?;
    generate(alloc, list, picks.as_slice(), &options)
}

fn pod_of(
    page: &mut Page,
    images: &[ImageText],
    words: &[String],
) -> Result<PodManifest, GenError> {
    let Some(options) = options_of(page, words) else {
        return Err(GenError::from(NoMemory));
    };
    let picks = picks_of(page, words);
    let list = stored_images(page, images);
    generated(page.alloc(), list.as_slice(), picks.as_slice(), &options)
}

fn print_error(page: &mut Page, error: &GenError) {
    if let Some(copy) = page.made(error.copy()) {
        page.tell_both(&copy.number().unwrap_or(0), &copy);
    }
}

fn print_written(page: &mut Page, pod: &PodManifest) {
    if let Some(bytes) = page.made(pod_bytes(page.alloc(), pod)) {
        page.put_bytes(bytes.as_slice());
    }
}

fn print_names(page: &mut Page, pod: &PodManifest) {
    for app in pod.apps.as_slice() {
        page.put_all(&["app ", app.name.as_str(), "\n"]);
    }
    for volume in pod.volumes.as_slice() {
        page.put_all(&["volume ", volume.name.as_str(), "\n"]);
    }
}

fn print_pod(page: &mut Page, call: &str, pod: &PodManifest) {
    match call {
        "pod-names" => print_names(page, pod),
        "pod-size" => page.tell_both(&pod.apps.len(), &"apps"),
        _ => print_written(page, pod),
    }
}

/// `pod PLACE .. [volume:NAME[:SOURCE] ..] [mount:VOLUME:PATH ..]`: the bytes of the manifest of a pod of the
/// images at these places, or the first reason why there is none. `3^65` is 65 times the place 3, and `0..64` are
/// the places below 64. `pod-names`: the names of that pod's apps and volumes. `pod-size`: how many apps it has.
pub fn pod_answer(page: &mut Page, images: &[ImageText], call: &str, words: &[String]) {
    match pod_of(page, images, words) {
        Ok(pod) => print_pod(page, call, &pod),
        Err(error) => print_error(page, &error),
    }
}

/// The number of want of memory, which there is none.
pub fn no_memory_number() -> Option<u8> {
    GenError::from(NoMemory).number()
}
