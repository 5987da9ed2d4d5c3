// Durations of a command line.
ghost use Rattle.std.specs.Prelude.{◌≡◌, ◌≤◌, option_map, IfSome};
ghost use Rattle.ac_types.specs.References.{cut};
ghost use Rattle.rkt_words.specs.Durations.{amount, counted, duration_of, in_all, longest, with_units};

use crate::number::number;

/// The greatest duration, in seconds.
const LONGEST: u64 = 4_294_967_295;

fn cut_at_hours(text: &str) -> Option<(&str, &str)>
    ensures { option_map (λ p. (p.0.now, p.1.now)) result ≡ cut 104 text.now }
{
    text.split_once('h')
}

fn cut_at_minutes(text: &str) -> Option<(&str, &str)>
    ensures { option_map (λ p. (p.0.now, p.1.now)) result ≡ cut 109 text.now }
{
    text.split_once('m')
}

fn cut_at_seconds(text: &str) -> Option<(&str, &str)>
    ensures { option_map (λ p. (p.0.now, p.1.now)) result ≡ cut 115 text.now }
{
    text.split_once('s')
}

/// The number before a unit, and what stands behind it.
fn counted<'a>(text: &'a str, cut: Option<(&'a str, &'a str)>) -> Option<(u64, &'a str)>
    ensures amount { option_map (λ p. (p.0, p.1.now)) result ≡ counted text.now (option_map (λ p. (p.0.now, p.1.now)) cut.entry) }
    ensures few { IfSome result (λ p. p.0 ≤ 4294967295) }
{
    match cut {
        None => Some((0, text)),
        Some((before, behind)) => match number(before, 0, LONGEST) {
            Some(number) => Some((number, behind)),
            None => None,
        },
    }
}

fn in_all(hours: u64, minutes: u64, seconds: u64, behind: &str) -> Option<u64>
    requires { (hours ≤ 4294967295) × (minutes ≤ 4294967295) × (seconds ≤ 4294967295) }
    ensures { result ≡ in_all hours minutes (seconds, behind.now) }
{
    let all = hours * 3600 + minutes * 60 + seconds;
    if behind.is_empty() && all <= LONGEST {
        Some(all)
    } else {
        None
    }
}

fn with_units(text: &str) -> Option<u64>
    ensures { result ≡ with_units text.now }
{
    match counted(text, cut_at_hours(text)) {
        None => None,
        Some((hours, behind)) => match counted(behind, cut_at_minutes(behind)) {
            None => None,
            Some((minutes, behind)) => match counted(behind, cut_at_seconds(behind)) {
                None => None,
                Some((seconds, behind)) => in_all(hours, minutes, seconds, behind),
            },
        },
    }
}

/// The seconds of a duration: decimal digits, or numbers with `h`, `m` and `s`, each unit at most once and in this
/// order. At most 4,294,967,295 in all.
pub(crate) fn duration(text: &str) -> Option<u64>
    ensures { result ≡ duration_of text.now }
{
    if let Some(seconds) = number(text, 0, LONGEST) {
        return Some(seconds);
    }
    if text.is_empty() {
        return None;
    }
    with_units(text)
}
