// Manifests as bytes: read, refused, and written again.
use crate::fields::print_fault;
use ac_types::ReadError;
use manifests::{Document, image_bytes, pod_bytes, read_document, read_image, read_pod};
use scripts::Page;

/// Prints whether something was taken, or the number and the path of its first fault.
pub fn print_taken<T: Drop>(page: &mut Page, read: Result<T, ReadError>) {
    match read {
        Ok(_) => page.put("taken"),
        Err(error) => print_fault(page, &error),
    }
}

/// `image JSON`: whether an image manifest is taken, or its first fault.
pub fn image_answer(page: &mut Page, bytes: &[u8]) {
    print_taken(page, read_image(page.alloc(), bytes));
}

/// `pod JSON`: the same of a pod manifest.
pub fn pod_answer(page: &mut Page, bytes: &[u8]) {
    print_taken(page, read_pod(page.alloc(), bytes));
}

fn print_written(page: &mut Page, document: &Document) {
    let written = match document {
        Document::Image(manifest) => image_bytes(page.alloc(), manifest),
        Document::Pod(manifest) => pod_bytes(page.alloc(), manifest),
    };
    if let Some(bytes) = page.made(written) {
        page.put_bytes(bytes.as_slice());
    }
}

fn print_copy(page: &mut Page, document: &Document) {
    if let Some(copy) = page.made(document.copy()) {
        print_written(page, &copy);
    }
}

/// `document-again JSON`: what is written of a copy of the manifest that was read.
pub fn document_answer(page: &mut Page, bytes: &[u8]) {
    match read_document(page.alloc(), bytes) {
        Ok(document) => print_copy(page, &document),
        Err(error) => print_fault(page, &error),
    }
}
