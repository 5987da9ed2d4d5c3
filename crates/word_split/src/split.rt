//! Words cut into options and plain words.
ghost use Rattle.std.specs.Prelude.{◌≡◌, false, map, IfOk, string_bytes, [], unwrap_or};
ghost use Rattle.clap.specs.Words.{found_of, rows_of, first_of, all_of};
ghost use Rattle.clap.specs.Walk.{texts};
ghost use Rattle.word_split.specs.Parts.{is_one_of, name_texts, is_short, has_short, split_of, IsSplit};
ghost use Rattle.word_split.specs.Rows.{split_rows};

use crate::command::matches_of;
use ac_types::{NoMemory, Sequence, Text, Texts};
use clap::ArgMatches;
use clap::error::ErrorKind;
use std::alloc::Global;

/// The words behind a command's name.
#[derive(Drop)]
pub struct Split {
    /// The value of each option of the command, where it was given.
    pub values: Sequence<Option<Text>>,
    /// The plain words, in order.
    pub plain: Texts,
}

/// Why words weren't cut.
#[derive(Clone, Copy, Debug, PartialEq, Eq)]
pub enum SplitError {
    /// The words don't have the form of any command with these options.
    Usage,
    /// Memory ran out.
    NoMemory,
}

fn value_of(alloc: Global, name: &str, matches: &ArgMatches<'_>) -> Result<Option<Text>, NoMemory>
    ensures { IfOk result (λ value. value ≡ first_of name.now (rows_of (found_of matches.now))) }
{
    match matches.get_str(name) {
        Some(value) => Ok(Some(Text::of(alloc, value)?)),
        None => Ok(None),
    }
}

fn values_of(
    alloc: Global,
    names: &[&str],
    matches: &ArgMatches<'_>,
) -> Result<Sequence<Option<Text>>, NoMemory>
    ensures { IfOk result (λ values. values ≡ map (λ name. first_of name (rows_of (found_of matches.now))) (texts names.now)) }
{
    let mut values = Vec::new(alloc);
    'names: for name in names {
        values.push(value_of(alloc, *name, matches)?)?;
    }
    Ok(Sequence::from_vec(values))
}

fn texts_of(alloc: Global, words: &[&str]) -> Result<Texts, NoMemory>
    ensures { IfOk result (λ list. list ≡ texts words.now) }
{
    let mut list = Vec::new(alloc);
    'words: for word in words {
        list.push(Text::of(alloc, *word)?)?;
    }
    Ok(Sequence::from_vec(list))
}

fn plain_of(alloc: Global, matches: &ArgMatches<'_>) -> Result<Texts, NoMemory>
    ensures { IfOk result (λ list. list ≡ unwrap_or (all_of [] (rows_of (found_of matches.now))) []) }
{
    match matches.get_strs("") {
        Some(words) => texts_of(alloc, words),
        None => Ok(Sequence::new(alloc)),
    }
}

fn gather(alloc: Global, names: &[&str], matches: &ArgMatches<'_>) -> Result<Split, NoMemory>
    ensures { IfOk result (λ split. split ≡ split_rows (texts names.now) (rows_of (found_of matches.now))) }
{
    Ok(Split {
        values: values_of(alloc, names, matches)?,
        plain: plain_of(alloc, matches)?,
    })
}

/// Whether the word begins with one hyphen.
fn is_short(word: &str) -> bool
    ensures { result ≡ is_short word.now }
{
    match word.as_bytes() {
        [first] => *first == b'-',
        [first, second, ..] => *first == b'-' && *second != b'-',
        _ => false,
    }
}

/// Whether a word before `--` begins with one hyphen. `clap` takes `-` alone for a plain word or a value.
fn has_short(words: &[String]) -> bool
    ensures { result ≡ has_short (map string_bytes words.now) }
{
    'words: for word in words {
        if word.as_str() == "--" {
            return false;
        }
        if is_short(word.as_str()) {
            return true;
        }
    }
    false
}

/// The options and the plain words that the words are, where `names` are the options: `--name=value` or `--name value`,
/// each at most once, before, between or behind plain words; behind `--` each word is plain. `Usage` for other words:
/// an option that is none of these or is given twice or without a value, and a word that begins with a hyphen, by itself
/// or as the value in the second form. No name is empty.
pub fn split_words<'a>(
    alloc: Global,
    names: &'a [&'a str],
    words: &'a [String],
) -> Result<Split, SplitError>
    requires named { is_one_of [] (name_texts names.now) ≡ false }
    ensures { IsSplit (split_of (name_texts names.now) (map string_bytes words.now)) result }
{
    if has_short(words) {
        return Err(SplitError::Usage);
    }
    match matches_of(alloc, names, words) {
        Ok(matches) => match gather(alloc, names, &matches) {
            Ok(split) => Ok(split),
            Err(_) => Err(SplitError::NoMemory),
        },
        Err(error) => Err(match error.kind() {
            ErrorKind::OutOfMemory => SplitError::NoMemory,
            _ => SplitError::Usage,
        }),
    }
}
