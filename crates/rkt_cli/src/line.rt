// The words of a command line.
ghost use Rattle.std.specs.Option.{option_copied};
ghost use Rattle.std.specs.Prelude.{◌≡◌, Some, IfOk, IfErr};
ghost use Rattle.pod_manifest.specs.Wishes.{AreWishes};
ghost use Rattle.rkt_words.specs.Wishes.{AsksWell, MayBeAsked};
ghost use Rattle.rkt_cli.specs.Lines.{IsLineRead, IsWithinLimits, known_line, line_of_arguments, wants_of};
ghost use Rattle.rkt_cli.specs.Paths.{path_of_line};
ghost use Rattle.rkt_cli.specs.Tasks.{pod_word_of};

use ac_types::{NoMemory, StoreKey, Text};
use commands::Wanted;
use dir_trait::PodPrefix;
use pod_manifest::Options;
use rkt_words::{Asked, WordsError};
use std::alloc::Global;

/// A command with its words.
#[derive(Drop)]
pub enum Line {
    /// `status POD`: print the phase of a pod.
    Status(PodPrefix),
    /// `list`: print the pods.
    PodList,
    /// `cat-manifest POD`: print the manifest of a pod.
    CatManifest(PodPrefix),
    /// `validate FILE`: judge a file of the bundle as a manifest.
    Validate(Text),
    /// `image list`: print the images of the store.
    ImageList,
    /// `image import PATH`: import the image of a bundle into the store.
    ImageImport(Text),
    /// `image rm KEY`: remove an image from the store.
    ImageRm(StoreKey),
    /// `image gc`: sweep what dead processes left in the store.
    ImageGc,
    /// `prepare IMAGE...`: prepare a pod of these images.
    Prepare(Wanted),
    /// `run-prepared POD`: run a prepared pod, with this address of the metadata service.
    RunPrepared(PodPrefix, Text),
    /// `run IMAGE...`: make a pod of these images and run it, with this address of the metadata service.
    Run(Wanted, Text),
    /// `rm POD`: remove a pod.
    Rm(PodPrefix),
    /// `gc`: sweep pods; how long an exited one rests since it was marked, and a prepared one since it was made, in
    /// seconds.
    Gc(u64, u64),
    /// `metadata-service ADDRESS COUNT`: serve so many connections at that address.
    Metadata(Text, u32),
    /// `demo N`: play the demo of so many images, on a data folder of its own.
    Demo(u32),
}

fn options_of(asked: &Asked) -> Result<Options, NoMemory>
    requires { MayBeAsked asked.now }
    ensures { IfOk result (λ options. options ≡ (wants_of asked.now).wishes) }
{
    let volumes = asked.volumes.copy()?;
    let mounts = asked.mounts.copy()?;
    Ok(Options { volumes, mounts })
}

fn wanted(alloc: Global, asked: &Asked) -> Result<Wanted, WordsError>
    requires { MayBeAsked asked.now }
    ensures wants { IfOk result (λ wanted. wanted ≡ wants_of asked.now) }
    ensures memory { IfErr result (λ e. e ≡ WordsError.NoMemory) }
{
    let options = match options_of(asked) {
        Ok(options) => options,
        Err(_) => return Err(WordsError::NoMemory),
    };
    match Wanted::of(alloc, &asked.images, options) {
        Ok(wanted) => Ok(wanted),
        Err(_) => Err(WordsError::NoMemory),
    }
}

fn prepare_line(alloc: Global, asked: &Asked) -> Result<Line, WordsError>
    requires { MayBeAsked asked.now }
    ensures { IsLineRead (Some (Line.Prepare (wants_of asked.now))) result }
{
    match wanted(alloc, asked) {
        Ok(wanted) => Ok(Line::Prepare(wanted)),
        Err(error) => Err(error),
    }
}

fn run_line(alloc: Global, asked: &Asked, address: Text) -> Result<Line, WordsError>
    requires { MayBeAsked asked.now }
    ensures { IsLineRead (Some (Line.Run (wants_of asked.now) address)) result }
{
    match wanted(alloc, asked) {
        Ok(wanted) => Ok(Line::Run(wanted, address)),
        Err(error) => Err(error),
    }
}

fn known_line(alloc: Global, words: rkt_words::Line) -> Result<Line, WordsError>
    requires { AsksWell words }
    ensures { IsLineRead (Some (known_line words)) result }
{
    match words {
        rkt_words::Line::Status(pod) => Ok(Line::Status(pod)),
        rkt_words::Line::List => Ok(Line::PodList),
        rkt_words::Line::CatManifest(pod) => Ok(Line::CatManifest(pod)),
        rkt_words::Line::Prepare(asked) => prepare_line(alloc, &asked),
        rkt_words::Line::Run { asked, address } => run_line(alloc, &asked, address),
        rkt_words::Line::RunPrepared { pod, address } => Ok(Line::RunPrepared(pod, address)),
        rkt_words::Line::Rm(pod) => Ok(Line::Rm(pod)),
        rkt_words::Line::Gc { grace, expire } => Ok(Line::Gc(grace, expire)),
        rkt_words::Line::Validate(path) => Ok(Line::Validate(path)),
        rkt_words::Line::ImageImport(path) => Ok(Line::ImageImport(path)),
        rkt_words::Line::ImageList => Ok(Line::ImageList),
        rkt_words::Line::ImageRm(key) => Ok(Line::ImageRm(key)),
        rkt_words::Line::ImageGc => Ok(Line::ImageGc),
        rkt_words::Line::Demo(count) => Ok(Line::Demo(count)),
        rkt_words::Line::Metadata { address, count } => Ok(Line::Metadata(address, count)),
    }
}

/// The command that the words are. `Usage` where they are none, with the place of the first word that can't be part of
/// one; `NoMemory` at any words.
pub fn read_line(alloc: Global, words: &[String]) -> Result<Line, WordsError>
    ensures line { IsLineRead (line_of_arguments words.now) result }
    ensures few { IfOk result IsWithinLimits }
{
    match rkt_words::read_line(alloc, words) {
        Ok(line) => known_line(alloc, line),
        Err(error) => Err(error),
    }
}

/// The word by which the line names a pod.
pub(crate) fn line_word(line: &Line) -> Option<PodPrefix>
    ensures { result ≡ pod_word_of line.now }
{
    match line {
        Line::Status(word)
        | Line::CatManifest(word)
        | Line::RunPrepared(word, _)
        | Line::Rm(word) => Some(*word),
        _ => None,
    }
}

/// The path of the file or of the bundle that the line names.
pub fn named_path(line: &Line) -> Option<&str>
    ensures { option_copied result ≡ path_of_line line.now }
{
    match line {
        Line::Validate(path) | Line::ImageImport(path) => Some(path.as_str()),
        _ => None,
    }
}
