// Which image a reference or a dependency means.
use crate::image_texts::ImageText;
use crate::images::stored_images;
use ac_types::{FromElement, ImageRef};
use dep_match::{best, best_dependency};
use manifests::Dependency;
use scripts::{Page, Unread};
use serde_json::Value;

fn print_place(page: &mut Page, place: Option<usize>) {
    match place {
        Some(place) => page.tell_both(&"image", &place),
        None => page.put("none"),
    }
}

/// `best WORD`: the place of the image that a reference means, counted from 0.
pub fn best_answer(page: &mut Page, images: &[ImageText], word: &str) {
    if let Some(wanted) = page.read(ImageRef::parse(page.alloc(), word), Unread::Text) {
        let list = stored_images(page, images);
        print_place(page, best(list.as_slice(), &wanted));
    }
}

fn dependency_of(page: &mut Page, text: &str) -> Option<Dependency> {
    let value = page.read(Value::from_str(page.alloc(), text), Unread::Text)?;
    page.read(Dependency::read(page.alloc(), &value, "$"), Unread::Text)
}

/// `best-dependency JSON`: the place of the image that a dependency means.
pub fn best_dependency_answer(page: &mut Page, images: &[ImageText], text: &str) {
    if let Some(wanted) = dependency_of(page, text) {
        let list = stored_images(page, images);
        print_place(page, best_dependency(list.as_slice(), &wanted));
    }
}
