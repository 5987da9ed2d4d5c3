// The names of marks.
ghost use Rattle.std.specs.Prelude.{◌≡◌, ◌≤◌, ◌<◌, ◌+◌, ◌++◌, ◌∷◌, [], IfOk, string_bytes};
ghost use Rattle.dir_rules.specs.Marks.{digits, mark};

use ac_types::{NoMemory, Text};
use std::alloc::Global;

// One decimal digit.
fn digit(number: u64) -> &'static str
    requires { number < 10 }
    ensures { result.now ≡ (48 + number) ∷ [] }
{
    match number {
        0 => "0",
        1 => "1",
        2 => "2",
        3 => "3",
        4 => "4",
        5 => "5",
        6 => "6",
        7 => "7",
        8 => "8",
        _ => "9",
    }
}

// Appends the last digits of a number, so many of them.
fn push_digits(text: &mut String, count: u8, number: u64) -> Result<(), NoMemory>
    ensures { IfOk result (λ done. string_bytes text.new ≡ string_bytes text.old ++ digits count number) }
{
    if count == 0 {
        return Ok(());
    }
    push_digits(text, count - 1, number / 10)?;
    text.push_str(digit(number % 10))?;
    Ok(())
}

/// The name of a mark: the text, and the moment in exactly 20 decimal digits.
pub fn mark_text(alloc: Global, text: &str, moment: u64) -> Result<Text, NoMemory>
    ensures { IfOk result (λ name. name ≡ mark text.now moment) }
{
    let mut name = String::from_str(alloc, text)?;
    push_digits(&mut name, 20, moment)?;
    Ok(Text::from_string(name))
}
