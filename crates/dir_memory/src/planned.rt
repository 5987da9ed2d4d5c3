// Steps that other processes are to take.
ghost use Rattle.std.specs.Prelude.{◌≡◌, ◌+◌, ◌==◌, nat_le};
ghost use Rattle.std.specs.List.{list_any};

use dir_model::Request;

/// A step of another process, before this process's call with that number, or inside it where that
/// is a listing.
#[derive(Drop)]
pub struct Planned {
    pub before: u64,
    pub inside: bool,
    pub process: u32,
    pub request: Request,
}

/// Whether the number is at most that of the call after so many.
pub fn is_up_to_next(number: u64, calls: u64) -> bool
    ensures { result ≡ nat_le number (calls + 1) }
{
    number.saturating_sub(1) <= calls
}

// Whether the number is that of the call after so many.
fn is_next(number: u64, calls: u64) -> bool
    ensures { result ≡ (number == calls + 1) }
{
    number > calls && number - 1 == calls
}

/// Whether the call after so many is listed.
pub fn is_listed(failing: &[u64], calls: u64) -> bool
    ensures { result ≡ list_any (λ number. number == calls + 1) failing.now }
{
    failing.iter().any(|number| is_next(*number, calls))
}

impl Planned {
    ghost use Rattle.std.specs.Prelude.{◌≡◌, ◌+◌, ◌<◌, true, length, position};
    ghost use Rattle.std.specs.List.{list_any, position_or_len};
    ghost use Rattle.dir_memory.specs.Schedules.{is_due};

    fn is_due(&self, calls: u64, listing: bool) -> bool
        ensures { result ≡ is_due (calls + 1) listing self.now }
    {
        is_up_to_next(self.before, calls)
            && !(listing && self.inside && is_next(self.before, calls))
    }

    /// Whether a step is due before the call after so many.
    pub fn is_any_due(pending: &[Planned], calls: u64, listing: bool) -> bool
        ensures { result ≡ list_any (is_due (calls + 1) listing) pending.now }
    {
        pending.iter().any(|step| step.is_due(calls, listing))
    }

    fn find_due(pending: &[Planned], calls: u64, listing: bool) -> Option<usize>
        ensures { result ≡ position (is_due (calls + 1) listing) pending.now }
    {
        pending.iter().position(|step| step.is_due(calls, listing))
    }

    /// The place of the first step that is due before the call after so many.
    pub fn first_due(pending: &[Planned], calls: u64, listing: bool) -> usize
        requires { list_any (is_due (calls + 1) listing) pending.now ≡ true }
        ensures place { result ≡ position_or_len (is_due (calls + 1) listing) pending.now }
        ensures within { result < length pending.now }
    {
        match Planned::find_due(pending, calls, listing) {
            Some(place) => place,
            None => unreachable!(),
        }
    }
}
