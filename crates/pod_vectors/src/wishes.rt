// The volumes and mounts that are asked for, and the places of the images that are picked.
ghost use Rattle.std.specs.Prelude.{◌<◌, IfOk, map};
ghost use Rattle.std.specs.List.{All};
ghost use Rattle.manifests.specs.ManifestRules.{IsMount, IsPodManifest, IsRuntimeApp};
ghost use Rattle.manifests.specs.PodData.{pod_data, runtime_app_data};

use ac_types::{NoMemory, Sequence};
use manifests::{Mounts, PodManifest, RuntimeApp, read_pod};
use pod_manifest::Options;
use scripts::{Page, Unread};
use std::alloc::Global;

/// What stands before the mounts of a pod's one app.
const POD: &str = "{\"acKind\":\"PodManifest\",\"acVersion\":\"0.8.0\",\
    \"apps\":[{\"name\":\"x\",\"image\":{\"id\":\"sha512-\
    0000000000000000000000000000000000000000000000000000000000000000\
    0000000000000000000000000000000000000000000000000000000000000000\"},\
    \"mounts\":[";

/// The volumes of a pod, and the mounts of its first app.
fn asked(alloc: Global, pod: PodManifest) -> Result<Options, NoMemory>
    requires { IsPodManifest (pod_data pod) }
{
    let mounts = first_mounts(alloc, pod.apps.as_slice())?;
    Ok(Options {
        volumes: pod.volumes,
        mounts,
    })
}

fn first_mounts(alloc: Global, apps: &[RuntimeApp]) -> Result<Mounts, NoMemory>
    requires { All IsRuntimeApp (map runtime_app_data apps.now) }
    ensures { IfOk result (λ mounts. All IsMount mounts) }
{
    if apps.is_empty() {
        return Ok(Sequence::new(alloc));
    }
    apps[0].mounts.copy()
}

/// Those of the places that are below a length.
pub fn in_range(alloc: Global, places: &[usize], size: usize) -> Result<Vec<usize>, NoMemory>
    ensures { IfOk result (λ v. All (λ i. i < size) v.items) }
{
    let mut inside = Vec::new(alloc);
    for place in places {
        if *place < size {
            inside.push(*place)?;
        }
    }
    Ok(inside)
}

// `mount:VOLUME:PATH`, `volume:NAME:SOURCE` or `volume:NAME`.
fn put_wish(page: &mut Page, wish: &str) {
    let (kind, rest) = wish.split_once(':').unwrap_or((wish, ""));
    match (kind, rest.split_once(':')) {
        ("mount", Some((volume, path))) => {
            page.put_all(&["{\"volume\":\"", volume, "\",\"path\":\"", path, "\"}"]);
        }
        ("volume", Some((name, source))) => {
            page.put_all(&["{\"name\":\"", name, "\",\"kind\":\"host\""]);
            page.put_all(&[",\"source\":\"", source, "\"}"]);
        }
        ("volume", None) => {
            page.put_all(&["{\"name\":\"", rest, "\",\"kind\":\"empty\"}"]);
        }
        _ => page.unread(Unread::Word),
    }
}

// The wishes of one kind among the words, between commas.
fn put_wishes(page: &mut Page, words: &[String], kind: &str) {
    let mut comma = "";
    for word in words {
        if word.starts_with(kind) {
            page.put(comma);
            put_wish(page, word.as_str());
            comma = ",";
        }
    }
}

/// What the words `volume:NAME[:SOURCE]` and `mount:VOLUME:PATH` ask for; a volume without a source is an empty
/// one.
pub fn options_of(page: &mut Page, words: &[String]) -> Option<Options> {
    page.put(POD);
    put_wishes(page, words, "mount:");
    page.put("]}],\"volumes\":[");
    put_wishes(page, words, "volume:");
    page.put("]}");
    let text = page.take();
    match read_pod(page.alloc(), text.as_bytes()) {
        Ok(pod) => page.made(asked(page.alloc(), pod)),
        Err(_) => {
            page.unread(Unread::Text);
            None
        }
    }
}

fn number(page: &mut Page, text: &str) -> usize {
    page.read(text.parse::<usize>(), Unread::Number)
        .unwrap_or(0)
}

fn add_range(page: &mut Page, places: &mut Vec<usize>, from: &str, end: &str) {
    let from = number(page, from);
    for place in from..number(page, end) {
        page.push(places, place);
    }
}

fn add_times(page: &mut Page, places: &mut Vec<usize>, place: &str, times: &str) {
    let place = number(page, place);
    for _ in 0..number(page, times) {
        page.push(places, place);
    }
}

// The places of a word: `N`, `N^TIMES` or `FROM..END`.
fn add_places(page: &mut Page, places: &mut Vec<usize>, word: &str) {
    match (word.split_once(".."), word.split_once('^')) {
        (Some((from, end)), _) => add_range(page, places, from, end),
        (None, Some((place, times))) => add_times(page, places, place, times),
        (None, None) => add_times(page, places, word, "1"),
    }
}

/// The places that the words name which ask for nothing.
pub fn picks_of(page: &mut Page, words: &[String]) -> Vec<usize> {
    let mut places = Vec::new(page.alloc());
    for word in words {
        if !word.contains(':') {
            add_places(page, &mut places, word.as_str());
        }
    }
    places
}
