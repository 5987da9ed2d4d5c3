// Which pods a process was asked to remove.
ghost use Rattle.std.specs.Prelude.{◌≡◌, map, find, bytes_eq};
ghost use Rattle.std.specs.Option.{option_copied};
ghost use Rattle.dir_rules.specs.Standing.{intends};
ghost use Rattle.dir_rules.specs.Rules.{asks_for, has_asked_for_removal};
ghost use Rattle.conformance.specs.Tables.{created_of};
ghost use Rattle.conformance.specs.Asked.{asks_at};

use crate::table::CreatedMark;
use dir_model::{Intent, Kind, Name};
use dir_rules::{Created, Seen};

// By the greatest moment that a listing of the pod's folder showed.
fn asks_at(intent: &Option<Intent>, moment: Option<u64>, name: &Name) -> bool
    ensures { result ≡ intends (λ i. asks_at i.kind i moment name.now) intent.now }
{
    let Some(intent) = intent else {
        return false;
    };
    match (intent.kind, moment) {
        (Kind::Rm, _) => name
            .as_str()
            .as_bytes()
            .starts_with(intent.word.as_str().as_bytes()),
        (Kind::Gc, Some(moment)) => { intent.expire <= intent.now.saturating_sub(moment) }
        _ => false,
    }
}

fn find_mark<'a>(created: &'a [CreatedMark], name: &Name) -> Option<&'a CreatedMark>
    ensures { option_copied result ≡ find (λ c. bytes_eq c.name name.now) created.now }
{
    created.iter().find(|mark| mark.name == *name)
}

fn find_created<'a>(created: &'a [Created], name: &Name) -> Option<&'a Created>
    ensures { option_copied result ≡ find (λ c. bytes_eq c.name name.now) created.now }
{
    created.iter().find(|mark| mark.name == *name)
}

/// Whether the intent asks for the removal of this pod, by the marks that listings showed.
pub fn asks_for(intent: &Option<Intent>, created: &[CreatedMark], name: &Name) -> bool
    ensures { result ≡ intends (λ i. asks_for i.kind i (map created_of created.now) name.now) intent.now }
{
    match find_mark(created, name) {
        None => asks_at(intent, None, name),
        Some(mark) => asks_at(intent, Some(mark.moment), name),
    }
}

/// Whether the process was asked to remove this pod: an rm by its word, a gc by the age of the
/// greatest `created-` mark that its own listing of the pod's folder showed.
pub fn is_removal_requested(seen: &Seen, name: &Name) -> bool
    ensures { result ≡ has_asked_for_removal seen.now name.now }
{
    let intent = &seen.standing.intent;
    match find_created(seen.created.as_slice(), name) {
        None => asks_at(intent, None, name),
        Some(mark) => asks_at(intent, Some(mark.moment), name),
    }
}
