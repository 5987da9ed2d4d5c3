// Images that are rendered over each other.
use ac_types::{AcIdentifier, ImageId, NoMemory, Sequence, StoreKey, Text};
use anyhow::Result;
use dep_match::{Stored, closure};
use manifests::{Dependencies, Dependency, ImageManifest};
use path_map::{AbsPath, Entry, Meta, PathMap};
use render::render_tree;
use std::alloc::Global;

/// Which image needs which, and where the files lie.
#[derive(Clone, Copy)]
enum Shape {
    /// The first image needs all others; each has the files.
    Flat,
    /// The same, and the files lie below 2,000 directories, each in the one before.
    Deep,
    /// Each image needs the next; each has the files.
    Chain,
    /// Each image needs a small one and then the next; the last has the files.
    Late,
    /// Each image needs two, so that those of each level are half as large; the lowest have the files.
    Halves,
    /// The same, and each of the lowest has one file more than the one before it.
    Uneven,
}

/// So many images, besides the small one, with so many files.
#[derive(Clone, Copy)]
struct Plan {
    shape: Shape,
    images: u32,
    files: u32,
}

fn dependency(alloc: Global, number: u32) -> Result<Dependency> {
    Ok(Dependency {
        image_name: name(alloc, number)?,
        image_id: None,
        labels: Sequence::new(alloc),
        size: None,
    })
}

/// Dependencies on the images from a number on, up to another.
fn dependencies(alloc: Global, from: u32, to: u32) -> Result<Dependencies> {
    let mut list = Sequence::new(alloc);
    for number in from..to {
        list = list.push(dependency(alloc, number)?)?;
    }
    Ok(list)
}

/// What the image of a number needs.
fn needs(alloc: Global, plan: Plan, number: u32) -> Result<Dependencies> {
    let next = number.saturating_add(1);
    if matches!(plan.shape, Shape::Flat) || matches!(plan.shape, Shape::Deep) {
        let to = if number == 0 { plan.images } else { 0 };
        return dependencies(alloc, 1, to);
    }
    if has_halves(plan) {
        let first = number.saturating_add(next);
        return dependencies(alloc, first, first.saturating_add(2).min(plan.images));
    }
    if next >= plan.images {
        return Ok(Sequence::new(alloc));
    }
    if matches!(plan.shape, Shape::Chain) {
        return dependencies(alloc, next, next.saturating_add(1));
    }
    let small = Sequence::new(alloc).push(dependency(alloc, plan.images)?)?;
    Ok(small.push(dependency(alloc, next)?)?)
}

/// Whether each image but the lowest needs two.
fn has_halves(plan: Plan) -> bool {
    matches!(plan.shape, Shape::Halves) || matches!(plan.shape, Shape::Uneven)
}

/// How many files the image of a number has.
fn files_of(plan: Plan, number: u32) -> u32 {
    if has_halves(plan) && number < plan.images / 2 {
        return 0;
    }
    if matches!(plan.shape, Shape::Uneven) {
        return plan.files.saturating_add(number);
    }
    if matches!(plan.shape, Shape::Late) && number.saturating_add(1) != plan.images {
        return if number == plan.images { 1 } else { 0 };
    }
    plan.files
}

/// Where the files of an image lie: in a directory of its own.
fn directory(alloc: Global, shape: Shape, number: u32) -> Result<String> {
    let depth = if matches!(shape, Shape::Deep) {
        2000
    } else {
        0
    };
    let above = "/1".repeat(alloc, depth)?;
    Ok(format!(in alloc; "{above}/d{number}")?)
}

/// The path of a file in a directory.
fn file_path(alloc: Global, directory: &str, number: u32) -> Result<AbsPath> {
    let path = format!(in alloc; "{directory}/f{number}")?;
    Ok(AbsPath::parse(alloc, path.as_str())?)
}

/// The files of an image.
fn map_of(alloc: Global, shape: Shape, number: u32, files: u32) -> Result<PathMap> {
    let directory = directory(alloc, shape, number)?;
    let mut map = PathMap::new(alloc);
    for file in 0..files {
        let path = file_path(alloc, directory.as_str(), file)?;
        let meta = Meta {
            mode: 0o644,
            uid: 0,
            gid: 0,
        };
        let entry = Entry::File {
            meta,
            size: 0,
            sha: [0; 64],
        };
        map = map.overlay(alloc, path, entry)?;
    }
    Ok(map)
}

/// The name of the image of a number.
fn name(alloc: Global, number: u32) -> Result<AcIdentifier> {
    let name = format!(in alloc; "n{number}")?;
    Ok(AcIdentifier::parse(alloc, name.as_str())?)
}

fn image(alloc: Global, plan: Plan, number: u32) -> Result<Stored> {
    let ac_version = Text::of(alloc, "0.8.0")?;
    let name = name(alloc, number)?;
    let dependencies = needs(alloc, plan, number)?;
    Ok(Stored {
        key: StoreKey { bytes: [0; 32] },
        id: ImageId { bytes: [0; 64] },
        manifest: ImageManifest {
            ac_version,
            name,
            labels: Sequence::new(alloc),
            app: None,
            dependencies,
            path_whitelist: Sequence::new(alloc),
            annotations: Sequence::new(alloc),
        },
        moment: 0,
    })
}

/// The images of a plan.
fn images_of(alloc: Global, plan: Plan) -> Result<Vec<Stored>> {
    let mut list = Vec::new(alloc);
    for number in 0..plan.images.saturating_add(1) {
        let image = image(alloc, plan, number)?;
        list.push(image).map_err(NoMemory::from)?;
    }
    Ok(list)
}

/// Their files.
fn maps(alloc: Global, plan: Plan) -> Result<Vec<PathMap>> {
    let mut maps = Vec::new(alloc);
    for number in 0..plan.images.saturating_add(1) {
        let map = map_of(alloc, plan.shape, number, files_of(plan, number))?;
        maps.push(map).map_err(NoMemory::from)?;
    }
    Ok(maps)
}

/// Renders the first of some images, and prints how many nodes and entries there are.
fn render(rt: &(impl Print + Alloc<A = Global>), list: &[Stored], maps: &[PathMap]) -> Result<()> {
    let alloc = rt.alloc();
    if list.is_empty() || maps.len() != list.len() {
        return Ok(());
    }
    let Ok(tree) = closure(alloc, list, 0) else {
        println!(rt; "no tree")?;
        return Ok(());
    };
    let nodes = tree.nodes.as_slice().len();
    let rendering = render_tree(alloc, &tree, list, maps)?;
    let entries = rendering.map().len();
    println!(rt; "{nodes} nodes, {entries} entries")?;
    Ok(())
}

/// The shape of a word.
fn shape_of(word: &str) -> Shape {
    match word {
        "deep" => Shape::Deep,
        "chain" => Shape::Chain,
        "late" => Shape::Late,
        "halves" => Shape::Halves,
        "uneven" => Shape::Uneven,
        _ => Shape::Flat,
    }
}

/// `SHAPE IMAGES FILES`: renders so many images with so many files.
pub fn measure_rendering(
    rt: &(impl Print + Alloc<A = Global>),
    word: &str,
    images: u32,
    files: u32,
) -> Result<()> {
    let plan = Plan {
        shape: shape_of(word),
        images,
        files,
    };
    let list = images_of(rt.alloc(), plan)?;
    let maps = maps(rt.alloc(), plan)?;
    render(rt, list.as_slice(), maps.as_slice())
}
