// A plan as lines of a text: `d PATH` is a directory, `g PATH TEXT` a file with that text, which may be
// left out, and `c PATH SIZE SHA FROM` a file that is copied.
use crate::shared::out_of_memory;
use ac_types::Text;
use anyhow::{Result, anyhow};
use dir_trait::Bytes;
use folder_building::{Content, Origin, PlanEntry};
use std::alloc::Global;

fn text_of(alloc: Global, text: &str) -> Result<Text> {
    Ok(Text::from_string(String::from_str(alloc, text)?))
}

fn given(alloc: Global, text: &str) -> Result<Content> {
    let bytes = Bytes::of(alloc, text.as_bytes()).map_err(out_of_memory)?;
    Ok(Content::Given(bytes))
}

fn sha_of(digits: &str) -> Result<[u8; 64]> {
    let mut sha = [0; 64];
    match hex::decode_to_slice(digits, &mut sha) {
        Ok(()) => Ok(sha),
        Err(_) => Err(anyhow!("no SHA-512")),
    }
}

fn copied(alloc: Global, size: &str, digits: &str, from: &str) -> Result<Content> {
    let origin = Origin {
        folder: None,
        path: text_of(alloc, from)?,
    };
    let Ok(size) = size.parse::<u64>() else {
        return Err(anyhow!("no size"));
    };
    let sha = sha_of(digits)?;
    Ok(Content::Copied { origin, size, sha })
}

fn content_of(alloc: Global, words: &[&str]) -> Result<Content> {
    match words {
        ["d", _] => Ok(Content::Directory),
        ["g", _] => given(alloc, ""),
        ["g", _, text] => given(alloc, text),
        ["c", _, size, digits, from] => copied(alloc, size, digits, from),
        _ => Err(anyhow!("no such line")),
    }
}

fn entry_of(alloc: Global, line: &str) -> Result<PlanEntry> {
    let words: Vec<&str> = line.split(' ').collect(alloc)?;
    let content = content_of(alloc, words.as_slice())?;
    match words.get(1) {
        Some(path) => Ok(PlanEntry {
            path: text_of(alloc, path)?,
            content,
        }),
        None => Err(anyhow!("no path")),
    }
}

/// The plan of a text.
pub fn plan_of(alloc: Global, text: &str) -> Result<Vec<PlanEntry>> {
    let mut plan = Vec::new(alloc);
    'lines: for line in text.lines() {
        let entry = entry_of(alloc, line)?;
        plan.push(entry)?;
    }
    Ok(plan)
}
