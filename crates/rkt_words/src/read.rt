// The line that the words are.
ghost use Rattle.std.specs.Prelude.{◌≡◌, map, string_bytes, IfOk};
ghost use Rattle.rkt_words.specs.Lines.{demo_of, gc_of, gc_times, image_line, line_by, line_of, line_of_rest, read_metadata_line, none, or_rest, prepare_of, run_of, run_prepared_of, IsReading};
ghost use Rattle.rkt_words.specs.Readings.{ReadsValue};
ghost use Rattle.rkt_words.specs.Wishes.{AsksWell};

use crate::command::{Command, command_of, image_command_of, options_of};
use crate::error::WordsError;
use crate::line::Line;
use crate::options::{address_or_default, asked, duration_or};
use crate::plain::{address, one_filled, one_key, one_pod, small_number};
use ac_types::Text;
use std::alloc::Global;
use word_split::{Split, SplitError, split_words};

/// The grace period of `gc` where none is given, in seconds.
const GRACE: u64 = 1800;

/// The time after which a prepared pod expires where none is given, in seconds.
const EXPIRE: u64 = 86_400;

/// The most connections of one service.
const MAX_CONNECTIONS: u32 = 65_535;

/// The most images of one demonstration.
const MAX_DEMO: u32 = 100;

fn no_words(words: &[Text], line: Line) -> Result<Line, WordsError>
    ensures { ReadsValue (none words.now line) result }
{
    if words.is_empty() {
        Ok(line)
    } else {
        Err(WordsError::Usage(2))
    }
}

fn prepare_line(alloc: Global, values: &[Option<Text>], words: &[Text]) -> Result<Line, WordsError>
    ensures { ReadsValue (prepare_of values.now words.now) result }
{
    match values {
        [volume, mount] => Ok(Line::Prepare(asked(alloc, volume, mount, words)?)),
        _ => Err(WordsError::Usage(2)),
    }
}

fn run_line(alloc: Global, values: &[Option<Text>], words: &[Text]) -> Result<Line, WordsError>
    ensures { ReadsValue (run_of values.now words.now) result }
{
    match values {
        [volume, mount, metadata] => {
            let asked = asked(alloc, volume, mount, words)?;
            let address = address_or_default(alloc, metadata)?;
            Ok(Line::Run { asked, address })
        }
        _ => Err(WordsError::Usage(2)),
    }
}

fn run_prepared_line(
    alloc: Global,
    values: &[Option<Text>],
    words: &[Text],
) -> Result<Line, WordsError>
    ensures { ReadsValue (run_prepared_of values.now words.now) result }
{
    match values {
        [metadata] => {
            let pod = one_pod(words)?;
            let address = address_or_default(alloc, metadata)?;
            Ok(Line::RunPrepared { pod, address })
        }
        _ => Err(WordsError::Usage(2)),
    }
}

fn gc_times(values: &[Option<Text>]) -> Result<Line, WordsError>
    ensures { ReadsValue (gc_times values.now) result }
{
    match values {
        [grace, expire] => {
            let grace = duration_or(GRACE, grace)?;
            let expire = duration_or(EXPIRE, expire)?;
            Ok(Line::Gc { grace, expire })
        }
        _ => Err(WordsError::Usage(2)),
    }
}

fn gc_line(values: &[Option<Text>], words: &[Text]) -> Result<Line, WordsError>
    ensures { ReadsValue (gc_of values.now words.now) result }
{
    if !words.is_empty() {
        return Err(WordsError::Usage(2));
    }
    gc_times(values)
}

fn metadata_line(alloc: Global, words: &[Text]) -> Result<Line, WordsError>
    ensures { ReadsValue (read_metadata_line words.now) result }
{
    match words {
        [text, count] => {
            let address = address(alloc, text.as_str())?;
            let count = small_number(count.as_str(), MAX_CONNECTIONS)?;
            Ok(Line::Metadata { address, count })
        }
        _ => Err(WordsError::Usage(2)),
    }
}

fn demo_line(words: &[Text]) -> Result<Line, WordsError>
    ensures { ReadsValue (demo_of words.now) result }
{
    match words {
        [word] => Ok(Line::Demo(small_number(word.as_str(), MAX_DEMO)?)),
        _ => Err(WordsError::Usage(2)),
    }
}

/// What the words behind a command's name make of it.
fn read_split(alloc: Global, command: Command, split: &Split) -> Result<Line, WordsError>
    ensures { ReadsValue (line_by command split.now) result }
{
    let values = split.values.as_slice();
    let words = split.plain.as_slice();
    match command {
        Command::Status => Ok(Line::Status(one_pod(words)?)),
        Command::List => no_words(words, Line::List),
        Command::Prepare => prepare_line(alloc, values, words),
        Command::Run => run_line(alloc, values, words),
        Command::RunPrepared => run_prepared_line(alloc, values, words),
        Command::Rm => Ok(Line::Rm(one_pod(words)?)),
        Command::Gc => gc_line(values, words),
        Command::CatManifest => Ok(Line::CatManifest(one_pod(words)?)),
        Command::Validate => Ok(Line::Validate(one_filled(alloc, words)?)),
        Command::ImageImport => Ok(Line::ImageImport(one_filled(alloc, words)?)),
        Command::ImageList => no_words(words, Line::ImageList),
        Command::ImageRm => Ok(Line::ImageRm(one_key(words)?)),
        Command::ImageGc => no_words(words, Line::ImageGc),
        Command::Metadata => metadata_line(alloc, words),
        Command::Demo => demo_line(words),
    }
}

fn read_rest(alloc: Global, command: Command, words: &[String]) -> Result<Line, WordsError>
    ensures { IsReading (or_rest (line_of_rest command (map string_bytes words.now))) result }
{
    match split_words(alloc, options_of(command), words) {
        Ok(split) => read_split(alloc, command, &split),
        Err(SplitError::Usage) => Err(WordsError::Usage(2)),
        Err(SplitError::NoMemory) => Err(WordsError::NoMemory),
    }
}

fn read_image_line(alloc: Global, words: &[String]) -> Result<Line, WordsError>
    ensures { IsReading (image_line (map string_bytes words.now)) result }
{
    match words {
        [] => Err(WordsError::Usage(1)),
        [word, ..] => match image_command_of(word.as_str()) {
            Some(command) => read_rest(alloc, command, &words[1..]),
            None => Err(WordsError::Usage(1)),
        },
    }
}

#[tactic(auto, unfolding(crate::specs::Lines::line_of))]
fn read_words(alloc: Global, words: &[String]) -> Result<Line, WordsError>
    ensures { IsReading (line_of (map string_bytes words.now)) result }
{
    match words {
        [] => Err(WordsError::Usage(0)),
        [word, ..] => {
            if word.as_str() == "image" {
                return read_image_line(alloc, &words[1..]);
            }
            match command_of(word.as_str()) {
                Some(command) => read_rest(alloc, command, &words[1..]),
                None => Err(WordsError::Usage(0)),
            }
        }
    }
}

/// The command that the words are. `Usage` at 0 where the first word is no command or is missing, at 1 where the second
/// one behind `image` is, and at 2 where the others don't have the command's form: an option that it hasn't, one given
/// twice or without a value, too few or too many plain words, or a value without a reading. `NoMemory` at any words.
pub fn read_line(alloc: Global, words: &[String]) -> Result<Line, WordsError>
    ensures line { IsReading (line_of (map string_bytes words.now)) result }
    ensures asked { IfOk result AsksWell }
{
    read_words(alloc, words)
}
