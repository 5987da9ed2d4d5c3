// Where a program is found, and the words with which it starts.
ghost use Rattle.std.specs.Prelude.{◌≡◌, ◌∷◌, ◌==◌, ℕ, List, Some, None, Ok, Err, IfOk, IsErrOf, map, cond, drop, string_bytes};
ghost use Rattle.std.specs.List.{slice_split};
ghost use Rattle.std.specs.Option.{option_copied};
ghost use Rattle.path_map.specs.Entries.{entry_at};
ghost use Rattle.launch.specs.Programs.{is_absolute_path, is_startable, word_path_in, program_in_directory, found_among, program_of, program_word_of, argv_of};

use crate::error::{LaunchError, no_memory};
use crate::words::with_word;
use ac_types::{NoMemory, Text};
use path_map::{AbsPath, Entry, PathError, PathMap};
use spawner::Words;
use std::alloc::{AllocError, Global};

// The path that a text is, or none.
fn path_of(alloc: Global, text: &str) -> Result<Option<AbsPath>, NoMemory>
    ensures { IfOk result (λ path. path ≡ cond (is_absolute_path text.now) (Some text.now) None) }
{
    match AbsPath::parse(alloc, text) {
        Ok(path) => Ok(Some(path)),
        Err(PathError::NoMemory) => Err(NoMemory),
        Err(_) => Ok(None),
    }
}

fn is_startable(entry: Option<&Entry>) -> bool
    ensures { result ≡ is_startable (option_copied entry.entry) }
{
    match entry {
        Some(Entry::File { .. } | Entry::Link { .. }) => true,
        _ => false,
    }
}

// The path of a word in a directory.
fn below(alloc: Global, directory: &str, word: &str) -> Result<String, NoMemory>
    ensures { IfOk result (λ path. string_bytes path ≡ word_path_in word.now directory.now) }
{
    let mut path = String::from_str(alloc, directory)?;
    path.push_str("/")?;
    path.push_str(word)?;
    Ok(path)
}

// The program of that name in a directory, or none.
fn program_in(
    alloc: Global,
    directory: &str,
    word: &str,
    tree: &PathMap,
) -> Result<Option<Text>, NoMemory>
    ensures { IfOk result (λ found. found ≡ program_in_directory (entry_at tree.now) word.now directory.now) }
{
    let text = below(alloc, directory, word)?;
    if path_of(alloc, directory)?.is_none() {
        return Ok(None);
    }
    match path_of(alloc, text.as_str())? {
        Some(path) if is_startable(tree.get(&path)) => Ok(Some(Text::from_string(text))),
        _ => Ok(None),
    }
}

fn parts_of(alloc: Global, search: &str) -> Result<Vec<&str>, AllocError>
    ensures { IfOk result (λ parts. map (λ p. p.now) parts.items ≡ slice_split (λ b. b == 58) search.now) }
{
    search.split(':').collect(alloc)
}

// The first program of that name in the directories of a search path, or none.
fn searched(
    alloc: Global,
    word: &str,
    search: &str,
    tree: &PathMap,
) -> Result<Option<Text>, NoMemory>
    ensures { IfOk result (λ found. found ≡ found_among (entry_at tree.now) word.now (slice_split (λ b. b == 58) search.now)) }
{
    let parts = parts_of(alloc, search)?;
    'parts: for part in parts.iter() {
        if let Some(path) = program_in(alloc, part, word, tree)? {
            return Ok(Some(path));
        }
    }
    Ok(None)
}

// The path of the program that a word names, or none.
fn program_path(
    alloc: Global,
    word: &str,
    search: &str,
    tree: &PathMap,
) -> Result<Option<Text>, NoMemory>
    ensures { IfOk result (λ found. found ≡ program_of word.now search.now (entry_at tree.now)) }
{
    if word.starts_with('/') {
        return Ok(Some(Text::of(alloc, word)?));
    }
    searched(alloc, word, search, tree)
}

fn word_of(exec: &[Text]) -> &str
    ensures { result.now ≡ program_word_of exec.now }
{
    match exec.first() {
        Some(word) => word.as_str(),
        None => "",
    }
}

// What comes after the program word.
fn arguments_of(exec: &[Text]) -> &[Text]
    ensures { result.now ≡ drop 1 exec.now }
{
    match exec.split_first() {
        Some((_, arguments)) => arguments,
        None => exec,
    }
}

// A program's path, and then its arguments.
fn words_with(alloc: Global, path: &str, arguments: &[Text]) -> Result<Words, NoMemory>
    ensures { IfOk result (λ words. words ≡ path.now ∷ arguments.now) }
{
    let mut words = with_word(alloc, Words::new(alloc), path)?;
    'arguments: for word in arguments {
        words = with_word(alloc, words, word.as_str())?;
    }
    Ok(words)
}

/// The words with which a program starts. `NoProgram` with its word where no path of it is a file or a
/// link of the root; `NoMemory` where memory ran out.
pub(crate) fn argv(
    alloc: Global,
    exec: &[Text],
    search: &str,
    tree: &PathMap,
) -> Result<Words, LaunchError>
    ensures found { IfOk result (λ words. argv_of exec.now search.now (entry_at tree.now) ≡ Ok words) }
    ensures missing { (word : List ℕ) → IsErrOf result (LaunchError.NoProgram word) → argv_of exec.now search.now (entry_at tree.now) ≡ Err word }
{
    let word = word_of(exec);
    match program_path(alloc, word, search, tree) {
        Ok(Some(path)) => words_with(alloc, path.as_str(), arguments_of(exec)).map_err(no_memory),
        Ok(None) => Err(LaunchError::NoProgram(Text::of(alloc, word).map_err(no_memory)?)),
        Err(error) => Err(no_memory(error)),
    }
}
