// What a user wants of a pod that is to be made.
ghost use Rattle.std.specs.Prelude.{◌≡◌, ◌∷◌, [], true, IfOk};
ghost use Rattle.commands.specs.References.{are_references, AreReferences};
ghost use Rattle.commands.specs.Wants.{Wants};

use ac_types::{ImageRef, NoMemory, RefError, Text};
use pod_manifest::Options;
use spawner::Words;
use std::alloc::Global;
use std::marker::Model;

/// The images of which a pod is to be made, by the words that the user gave, and the volumes and mounts that are asked
/// for beside them.
#[derive(Drop)]
pub struct Wanted {
    words: Vec<Text>,
    refs: Vec<ImageRef>,
    options: Options,
}

impl Model for Wanted {
    ghost use Rattle.commands.specs.References.{AreReferences};
    ghost use Rattle.commands.specs.Wants.{Wants};

    ghost Value = { Wants };

    ghost view = { λ w. record { images = w.words.items; wishes = w.options } };

    ghost invariant = { λ w. AreReferences w.words.items w.refs.items };
}

fn texts_of(alloc: Global, words: &Words) -> Result<Vec<Text>, NoMemory>
    ensures { IfOk result (λ texts. texts.items ≡ words.now) }
{
    let mut texts = Vec::new(alloc);
    'words: for place in 0..words.len() {
        match words.get(place) {
            Some(word) => texts.push(Text::of(alloc, word)?)?,
            None => unreachable!(),
        }
    }
    Ok(texts)
}

fn ref_of(alloc: Global, word: &Text) -> Result<ImageRef, NoMemory>
    requires { are_references (word.now ∷ []) ≡ true }
    ensures { IfOk result (λ image. AreReferences (word.now ∷ []) (image ∷ [])) }
{
    match ImageRef::parse(alloc, word.as_str()) {
        Ok(image) => Ok(image),
        Err(RefError::NoMemory) => Err(NoMemory),
        Err(RefError::BadRef(_)) => unreachable!(),
    }
}

fn refs_of(alloc: Global, words: &[Text]) -> Result<Vec<ImageRef>, NoMemory>
    requires { are_references words.now ≡ true }
    ensures { IfOk result (λ refs. AreReferences words.now refs.items) }
{
    let mut refs = Vec::new(alloc);
    'words: for word in words {
        refs.push(ref_of(alloc, word)?)?;
    }
    Ok(refs)
}

impl Wanted {
    /// The images that the words name, with these options. Each of the words is a reference. Refused only where memory
    /// ran out.
    pub fn of(alloc: Global, words: &Words, options: Options) -> Result<Wanted, NoMemory>
        requires { are_references words.now ≡ true }
        ensures { IfOk result (λ wanted. wanted ≡ record { images = words.now; wishes = options }) }
    {
        let words = texts_of(alloc, words)?;
        let refs = refs_of(alloc, words.as_slice())?;
        Ok(Wanted {
            words,
            refs,
            options,
        })
    }

    /// The words.
    pub fn words(&self) -> &[Text]
        ensures { result.now ≡ self.now.images }
    {
        self.words.as_slice()
    }

    /// What they are as references, in the same order.
    pub fn refs(&self) -> &[ImageRef]
        ensures { AreReferences self.now.images result.now }
    {
        self.refs.as_slice()
    }

    /// The volumes and mounts.
    pub fn options(&self) -> &Options
        ensures { result.now ≡ self.now.wishes }
    {
        &self.options
    }
}
