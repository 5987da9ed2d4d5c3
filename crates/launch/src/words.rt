// Lists of words that grow.
ghost use Rattle.std.specs.Prelude.{◌≡◌, ◌++◌, ◌∷◌, [], IfOk, string_bytes};
ghost use Rattle.launch.specs.Environment.{variable};

use ac_types::NoMemory;
use spawner::Words;
use std::alloc::Global;

/// The list with one word more. Refused only where memory ran out.
pub(crate) fn with_word(alloc: Global, words: Words, word: &str) -> Result<Words, NoMemory>
    ensures { IfOk result (λ longer. longer ≡ words ++ word.now ∷ []) }
{
    match words.push(alloc, word) {
        Ok(longer) => Ok(longer),
        Err(_) => Err(NoMemory),
    }
}

// NAME=VALUE
fn variable(alloc: Global, name: &str, value: &str) -> Result<String, NoMemory>
    ensures { IfOk result (λ text. string_bytes text ≡ variable name.now value.now) }
{
    let mut text = String::from_str(alloc, name)?;
    text.push_str("=")?;
    text.push_str(value)?;
    Ok(text)
}

/// The list with one variable more. Refused only where memory ran out.
pub(crate) fn with_variable(
    alloc: Global,
    words: Words,
    name: &str,
    value: &str,
) -> Result<Words, NoMemory>
    ensures { IfOk result (λ longer. longer ≡ words ++ variable name.now value.now ∷ []) }
{
    let text = variable(alloc, name, value)?;
    with_word(alloc, words, text.as_str())
}
