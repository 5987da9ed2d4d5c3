// The parts of manifests that were read.
use crate::fields::print_fault;
use crate::names::print_labels;
use app_section::App;
use manifests::{Dependency, ImageManifest, PodManifest, RuntimeApp, read_image, read_pod};
use scripts::Page;

fn print_app(page: &mut Page, app: &App) {
    page.put_all(&["\nuser ", app.user.as_str(), "\nwords"]);
    for word in app.exec.as_slice() {
        page.put_all(&[" ", word.as_str()]);
    }
}

fn print_dependencies(page: &mut Page, dependencies: &[Dependency]) {
    for dependency in dependencies {
        page.put_all(&["\nneeds ", dependency.image_name.as_str()]);
        print_labels(page, &dependency.labels);
    }
}

fn print_image(page: &mut Page, manifest: &ImageManifest) {
    page.put(manifest.name.as_str());
    print_labels(page, &manifest.labels);
    if let Some(app) = &manifest.app {
        print_app(page, app);
    }
    print_dependencies(page, manifest.dependencies.as_slice());
}

/// `image-parts JSON`: the name, the labels, the user, the words and the dependencies of an image.
pub fn image_parts_answer(page: &mut Page, bytes: &[u8]) {
    match read_image(page.alloc(), bytes) {
        Ok(manifest) => print_image(page, &manifest),
        Err(error) => print_fault(page, &error),
    }
}

fn print_id(page: &mut Page, app: &RuntimeApp) {
    if let Some(id) = page.made(app.image.id.text(page.alloc())) {
        page.put_all(&["\nimage ", id.as_str()]);
    }
    if let Some(name) = &app.image.name {
        page.put_all(&[" ", name.as_str()]);
    }
    print_labels(page, &app.image.labels);
}

fn print_mounts(page: &mut Page, app: &RuntimeApp) {
    page.put(if app.read_only_root_fs {
        "\nread-only, mounts "
    } else {
        "\nwritable, mounts "
    });
    page.tell(&app.mounts.len());
    page.put("\n");
}

fn print_apps(page: &mut Page, pod: &PodManifest) {
    for app in pod.apps.as_slice() {
        page.put(app.name.as_str());
        print_id(page, app);
        if let Some(section) = &app.app {
            print_app(page, section);
        }
        print_mounts(page, app);
    }
}

/// `pod-parts JSON`: of each app of a pod the name, the image, the user, the words, and how many mounts.
pub fn pod_parts_answer(page: &mut Page, bytes: &[u8]) {
    match read_pod(page.alloc(), bytes) {
        Ok(manifest) => print_apps(page, &manifest),
        Err(error) => print_fault(page, &error),
    }
}
