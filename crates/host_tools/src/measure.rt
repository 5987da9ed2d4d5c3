// Lays, keeps, reads, writes and renders entries, as many as it is told, to measure the time; told nothing, a
// few of each.

use crate::measure_entries::measure_entries;
use crate::measure_rendering::measure_rendering;
use anyhow::Result;
use std::alloc::Global;

/// Two words are entries and how many, three a shape of images, how many they are, and their files.
pub fn run(rt: &(impl Print + Alloc<A = Global>), words: &[String]) -> Result<()> {
    match words {
        [kind, count] => measure_entries(rt, kind.as_str(), count.as_str().parse::<u32>()?),
        [shape, images, files] => {
            let images = images.as_str().parse::<u32>()?;
            measure_rendering(rt, shape.as_str(), images, files.as_str().parse::<u32>()?)
        }
        _ => {
            measure_entries(rt, "keep", 512)?;
            measure_rendering(rt, "late", 8, 64)
        }
    }
}
