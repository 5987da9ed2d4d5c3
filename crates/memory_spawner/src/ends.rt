// How programs end that nobody runs, and which calls fail.
ghost use Rattle.std.specs.Prelude.{◌≡◌, ◌+◌, ◌==◌, find};
ghost use Rattle.std.specs.List.{list_any};
ghost use Rattle.std.specs.Option.{option_copied};
ghost use Rattle.memory_spawner.specs.SpawnerMemories.{end_status_of};

/// The status with which the child of a start ends. Starts are counted from 1.
#[derive(Clone, Copy)]
pub struct End {
    pub start: u64,
    pub status: u8,
}

fn find_end(ends: &[End], number: u32) -> Option<&End>
    ensures { option_copied result ≡ find (λ end. end.start == number + 1) ends.now }
{
    ends.iter().find(|end| end.start == u64::from(number) + 1)
}

/// The status with which the child of a number ends: 0, unless another was told for its start.
pub fn status_of(ends: &[End], number: u32) -> u8
    ensures { result ≡ end_status_of ends.now number }
{
    match find_end(ends, number) {
        Some(end) => end.status,
        None => 0,
    }
}

// Whether the number is that of the call after so many.
fn is_next(number: u64, calls: u64) -> bool
    ensures { result ≡ (number == calls + 1) }
{
    number > calls && number - 1 == calls
}

/// Whether the call after so many is listed.
pub fn is_listed(failing: &[u64], calls: u64) -> bool
    ensures { result ≡ list_any (λ number. number == calls + 1) failing.now }
{
    failing.iter().any(|number| is_next(*number, calls))
}
