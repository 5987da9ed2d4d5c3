//! Lists of labels, and which of them may stand.
ghost use Rattle.std.specs.Prelude.{◌≡◌, Some, None, MatchResult, option_map, ◌<◌, ◌≤◌, length, map, MatchOption, IfOk, ⊤};
ghost use Rattle.ac_types.specs.declared.label.Label.{Label};
ghost use Rattle.std.specs.List.{list_any};
ghost use Rattle.std.specs.Str.{bytes_eq};
ghost use Rattle.ac_types.specs.Labels.{architectures, label_fault, name_fault, place_of, platform_fault, value_of};

use crate::label::{Label, LabelFault};
use crate::memory::NoMemory;
use crate::seen_texts::SeenTexts;
use crate::sequence::Sequence;
use std::alloc::Global;

/// A list of labels.
pub type Labels = Sequence<Label>;

impl Sequence<Label> {
    /// The value of the first label of that name. Takes no memory.
    pub fn get(&self, name: &str) -> Option<&str>
        ensures { option_map (λ v. v.now) result ≡ value_of name.now self.now }
    {
        let labels = self.as_slice();
        match place_of(labels, name) {
            Some(place) => Some(labels[place].value.as_str()),
            None => None,
        }
    }

    /// Whether the labels may stand beside one another: no name comes twice, none is `name`, and
    /// `os` and `arch` are of the table. The first fault otherwise: the names in order, then `os`,
    /// then `arch`, which without `os` is not judged. Takes no memory.
    pub fn check(&self) -> Result<(), LabelFault>
        ensures { MatchResult result (λ _. label_fault self.now ≡ None) (λ fault. label_fault self.now ≡ Some fault) }
    {
        check_names(self.as_slice())?;
        check_platform(self.as_slice())
    }

    /// The same fault, where there is one: the names are looked up in an ordered set, so that many
    /// labels are judged in the time in which they are sorted.
    pub fn first_fault(&self, alloc: Global) -> Result<Option<LabelFault>, NoMemory>
        ensures fault { IfOk result (λ fault. fault ≡ label_fault self.now) }
    {
        match first_name_fault(alloc, self.as_slice())? {
            Some(fault) => Ok(Some(fault)),
            None => Ok(check_platform(self.as_slice()).err()),
        }
    }
}

fn place_of(labels: &[Label], name: &str) -> Option<usize>
    ensures place { result ≡ place_of name.now labels.now }
    ensures within { MatchOption result ⊤ (λ place. place < length labels.now) }
{
    for (i, label) in labels.iter().enumerate() {
        if label.name.as_str() == name {
            return Some(i);
        }
    }
    None
}

fn has_name(labels: &[Label], name: &str) -> bool
    ensures { result ≡ list_any (λ (l : Label). bytes_eq l.name name.now) labels.now }
{
    labels.iter().any(|label| label.name.as_str() == name)
}

fn check_names(labels: &[Label]) -> Result<(), LabelFault>
    ensures { MatchResult result (λ _. name_fault labels.now ≡ None) (λ fault. name_fault labels.now ≡ Some fault) }
{
    for (i, label) in labels.iter().enumerate() {
        let name = label.name.as_str();
        if name == "name" {
            return Err(LabelFault::LabelName(i));
        }
        if has_name(&labels[..i], name) {
            return Err(LabelFault::LabelTwice(i));
        }
    }
    Ok(())
}

/// What `check_names` refuses, by the set of the names that came before.
fn first_name_fault(alloc: Global, labels: &[Label]) -> Result<Option<LabelFault>, NoMemory>
    ensures fault { IfOk result (λ fault. fault ≡ name_fault labels.now) }
{
    let mut seen = SeenTexts::new(alloc);
    for (i, label) in labels.iter().enumerate() {
        let name = label.name.as_str();
        if name == "name" {
            return Ok(Some(LabelFault::LabelName(i)));
        }
        if !seen.add(alloc, name)? {
            return Ok(Some(LabelFault::LabelTwice(i)));
        }
    }
    Ok(None)
}

fn check_platform(labels: &[Label]) -> Result<(), LabelFault>
    ensures { MatchResult result (λ _. platform_fault labels.now ≡ None) (λ fault. platform_fault labels.now ≡ Some fault) }
{
    let Some(os) = place_of(labels, "os") else {
        return Ok(());
    };
    let known = architectures(labels[os].value.as_str());
    if known.is_empty() {
        return Err(LabelFault::BadOs(os));
    }
    let Some(arch) = place_of(labels, "arch") else {
        return Ok(());
    };
    if !is_among(known, labels[arch].value.as_str()) {
        return Err(LabelFault::BadArch(arch));
    }
    Ok(())
}

fn is_among(texts: &[&str], text: &str) -> bool
    ensures { result ≡ list_any (λ t. bytes_eq t.now text.now) texts.now }
{
    texts.iter().any(|t| *t == text)
}

/// The architectures on which an operating system runs; none where it is not known.
fn architectures(os: &str) -> &'static [&'static str]
    ensures { map (λ t. t.now) result.now ≡ architectures os.now }
{
    if os == "linux" {
        return &[
            "amd64",
            "i386",
            "aarch64",
            "aarch64_be",
            "armv6l",
            "armv7l",
            "armv7b",
            "ppc64",
            "ppc64le",
            "s390x",
        ];
    }
    if os == "freebsd" {
        return &["amd64", "i386", "arm"];
    }
    if os == "darwin" {
        return &["x86_64", "i386"];
    }
    &[]
}
