// What apps start with.
use crate::images::map_of_listing;
use launch::{AppLaunch, LaunchError, app_launch};
use manifests::{PodManifest, RuntimeApp, read_pod};
use path_map::PathMap;
use scripts::{Page, Unread};
use spawner::Words;

const ADDRESS: &str = "127.0.0.1:18112";

const TOKEN: &str = "11111111111111111111111111111111";

fn pod_of(page: &mut Page, text: &str) -> Option<PodManifest> {
    page.read(read_pod(page.alloc(), text.as_bytes()), Unread::Text)
}

fn put_words(page: &mut Page, title: &str, words: &Words) {
    page.put(title);
    for place in 0..words.len() {
        page.put_all(&[" ", words.get(place).unwrap_or("")]);
    }
    page.put("\n");
}

fn put_handler(page: &mut Page, title: &str, words: &Option<Words>) {
    if let Some(words) = words {
        put_words(page, title, words);
    }
}

fn put_programs(page: &mut Page, launch: &AppLaunch) {
    put_handler(page, "before", &launch.pre_start);
    put_words(page, "app", &launch.main);
    put_handler(page, "after", &launch.post_stop);
    page.put_all(&["in ", launch.directory.as_str()]);
}

fn put_variables(page: &mut Page, variables: &Words) {
    for place in 0..variables.len() {
        page.put_all(&[variables.get(place).unwrap_or(""), "\n"]);
    }
}

fn put_launch(page: &mut Page, launch: &AppLaunch, variables: bool) {
    if variables {
        put_variables(page, &launch.environment);
    } else {
        put_programs(page, launch);
    }
}

fn app_answer(page: &mut Page, app: &RuntimeApp, tree: &PathMap, variables: bool) {
    match app_launch(page.alloc(), app, tree, ADDRESS, TOKEN) {
        Ok(launch) => put_launch(page, &launch, variables),
        Err(LaunchError::NoProgram(word)) => {
            page.put_all(&["no program \"", word.as_str(), "\""]);
        }
        Err(LaunchError::NoMemory) => page.no_memory(),
    }
}

/// `launch ROOT POD`: the words that the programs of a pod's first app start with in the root of that listing,
/// and its directory, or the word that names no program. `environment ROOT POD`: its variables.
pub fn launch_answer(page: &mut Page, words: &[String], variables: bool) {
    let [root, pod] = words else {
        return page.unread(Unread::Missing);
    };
    let Some(pod) = pod_of(page, pod.as_str()) else {
        return;
    };
    let tree = map_of_listing(page, root.as_str());
    match pod.apps.as_slice().first() {
        Some(app) => app_answer(page, app, &tree, variables),
        None => page.unread(Unread::Missing),
    }
}
