// The lines of a script of calls on images, pods and apps.
use crate::answers::answer;
use crate::image_texts::{ImageText, add_image, add_numbered_images};
use crate::metadata_answers::is_metadata_call;
use crate::served_pods::{ServedPod, served_pod};
use scripts::{Page, Player};
use short_texts::{TextNames, print_answer};
use std::alloc::Global;

/// The names that the script has given so far, and of its block the images and the pod that runs.
#[derive(Drop)]
pub struct PodVectors {
    names: TextNames,
    images: Vec<ImageText>,
    served: Option<ServedPod>,
}

impl PodVectors {
    /// Before any line.
    pub fn new(alloc: Global) -> PodVectors {
        PodVectors {
            names: TextNames::new(alloc),
            images: Vec::new(alloc),
            served: None,
        }
    }

    // The pod that is served from here on, or none.
    fn serve(&mut self, served: Option<ServedPod>) {
        self.served = served;
    }

    // What a line sets up; false where it is a call.
    fn set_up(&mut self, page: &mut Page, line: &str) -> bool {
        match line.split_once(' ') {
            None if line.is_empty() => {
                self.images.clear();
                self.serve(None);
            }
            None => return line == "#",
            Some(("#", _)) => (),
            Some(("let", rest)) => self.names.define(page, rest),
            Some(("served", rest)) => {
                let served = served_pod(page, &self.names, rest);
                self.serve(served);
            }
            Some(("image", rest)) => add_image(page, &self.names, &mut self.images, rest),
            Some(("images", rest)) => {
                add_numbered_images(page, &self.names, &mut self.images, rest);
            }
            Some(_) => return false,
        }
        true
    }
}

impl Player for PodVectors {
    fn play(&mut self, page: &mut Page, lines: &[String], place: usize) {
        let line = match lines.get(place) {
            Some(line) => line.as_str(),
            None => "",
        };
        if self.set_up(page, line) {
            return;
        }
        if !is_metadata_call(page, &self.names, &self.served, line) {
            answer(page, &self.names, self.images.as_slice(), line);
        }
        print_answer(page, &self.names);
    }
}
