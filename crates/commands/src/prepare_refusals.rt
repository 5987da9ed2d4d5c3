// What is said of a pod that isn't prepared.
ghost use Rattle.std.specs.Prelude.{◌≡◌, ◌<◌, ℕ, length, IfOk};
ghost use Rattle.commands.specs.PrepareRefusals.{dependency_refusal, pod_manifest_refusal, root_refusal, root_listing_refusal, word_at, refusal_of_build, IsSaidOfBuild};

use ac_types::{NoMemory, Text};
use command_outcomes::Refusal;
use dep_match::DepError;
use dep_match::refusals::{MAX_DEPTH, MAX_NODES};
use pod_build::BuildError;
use pod_manifest::GenError;
use pod_manifest::refusals::{APP_TWICE, MAX_APPS, NO_APP, NO_EXEC, NO_VOLUME};
use render::RenderError;
use render::refusals::MAX_ENTRIES;
use std::alloc::Global;
use tree_digest::ListingError;

fn dependency_refusal(alloc: Global, fault: DepError) -> Result<Refusal, NoMemory>
    ensures { IfOk result (λ refusal. refusal ≡ dependency_refusal fault) }
{
    match fault {
        DepError::NoDependency(name) => Ok(Refusal::NoDependency(Text::of(alloc, name.as_str())?)),
        DepError::Cycle(key) => Ok(Refusal::Cycle(key.text(alloc)?)),
        DepError::TooDeep => Ok(Refusal::Limit(MAX_DEPTH as u64)),
        DepError::TooMany => Ok(Refusal::Limit(MAX_NODES as u64)),
        DepError::NoMemory => Ok(Refusal::NoMemory),
    }
}

// What is wrong with the pod's manifest, at the name of what it is about.
fn named_fault(alloc: Global, name: &str, number: u8) -> Result<Refusal, NoMemory>
    ensures { IfOk result (λ refusal. refusal ≡ Refusal.BadManifest name.now number) }
{
    let path = Text::of(alloc, name)?;
    Ok(Refusal::BadManifest { path, number })
}

fn manifest_refusal(alloc: Global, refusal: GenError) -> Result<Refusal, NoMemory>
    ensures { IfOk result (λ said. said ≡ pod_manifest_refusal refusal) }
{
    match refusal {
        GenError::TooManyApps => Ok(Refusal::Limit(MAX_APPS as u64)),
        GenError::NoApp(name) => named_fault(alloc, name.as_str(), NO_APP),
        GenError::NoExec(name) => named_fault(alloc, name.as_str(), NO_EXEC),
        GenError::AppTwice(name) => named_fault(alloc, name.as_str(), APP_TWICE),
        GenError::NoVolume(name) => named_fault(alloc, name.as_str(), NO_VOLUME),
        GenError::NoMemory => Ok(Refusal::NoMemory),
    }
}

fn root_refusal(refusal: RenderError) -> Refusal
    ensures { result ≡ root_refusal refusal }
{
    match refusal {
        RenderError::TooManyEntries => Refusal::Limit(MAX_ENTRIES as u64),
        RenderError::NoMemory => Refusal::NoMemory,
    }
}

// The listing of a root is only ever too large.
fn listing_refusal(refusal: ListingError) -> Refusal
    ensures { result ≡ root_listing_refusal refusal }
{
    match refusal {
        ListingError::TooMany(limit) => Refusal::Limit(limit),
        _ => Refusal::NoMemory,
    }
}

fn no_match(words: &[Text], place: usize) -> Result<Refusal, NoMemory>
    requires { place < length words.now }
    ensures { IfOk result (λ refusal. refusal ≡ Refusal.NoImage (word_at words.now place)) }
{
    let word = words[place].copy()?;
    Ok(Refusal::NoImage(word))
}

fn said(alloc: Global, words: &[Text], error: BuildError) -> Result<Refusal, NoMemory>
    requires { (place : ℕ) → error ≡ BuildError.NoMatch place → place < length words.now }
    ensures { IfOk result (λ refusal. refusal ≡ refusal_of_build words.now error) }
{
    match error {
        BuildError::Busy(area) => Ok(Refusal::Busy(area)),
        BuildError::Damaged(path) => Ok(Refusal::Damaged(path)),
        BuildError::NoMatch(place) => no_match(words, place),
        BuildError::DepError(fault) => dependency_refusal(alloc, fault),
        BuildError::GenError(refusal) => manifest_refusal(alloc, refusal),
        BuildError::RenderError(refusal) => Ok(root_refusal(refusal)),
        BuildError::ListingError(refusal) => Ok(listing_refusal(refusal)),
        BuildError::Taken(pod) => Ok(Refusal::Taken(pod)),
        BuildError::DirFault => Ok(Refusal::DirFault),
        BuildError::Stray => Ok(Refusal::Stray),
        BuildError::NoMemory => Ok(Refusal::NoMemory),
    }
}

/// What is said of a pod for these words that isn't prepared; or that memory ran out.
pub fn build_refusal(alloc: Global, words: &[Text], error: BuildError) -> Refusal
    requires { (place : ℕ) → error ≡ BuildError.NoMatch place → place < length words.now }
    ensures { IsSaidOfBuild words.now error result }
{
    match said(alloc, words, error) {
        Ok(refusal) => refusal,
        Err(_) => Refusal::NoMemory,
    }
}
