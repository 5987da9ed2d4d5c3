//! Plays a script of single calls on images, pods and apps: which image is meant, what it stands on, what its
//! root holds, pod manifests, the plans of pods' folders, what apps start with, and what the metadata service
//! replies. Prints each line again, and below it what the call really answers.
#![tactic(auto)]

mod answers;
mod choices;
mod digits;
mod image_texts;
mod images;
mod launches;
mod metadata_answers;
mod plans;
mod played;
mod pods;
mod replies;
mod requests;
mod roots;
mod served_pods;
mod signatures;
mod trees;
mod wishes;

pub use played::PodVectors;
