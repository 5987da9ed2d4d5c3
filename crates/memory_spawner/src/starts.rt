// The starts among the calls of a spawner.
ghost use Rattle.std.specs.Prelude.{◌≡◌, length};
ghost use Rattle.std.specs.Option.{option_copied};
ghost use Rattle.memory_spawner.specs.SpawnerMemories.{is_start, ok_starts_of, start_at, given_at, argv_of_start, env_of, cwd_of};

use spawner::{SpawnCall, SpawnReply, SpawnRequest, Words};

/// Whether the call started a program.
fn is_start(call: &SpawnCall) -> bool
    ensures { result ≡ is_start call.now }
{
    match call.reply {
        SpawnReply::Started(_) => true,
        SpawnReply::Done | SpawnReply::Ended(_) | SpawnReply::Refused(_) => false,
    }
}

/// The number of calls that started a program.
pub fn count_starts(calls: &[SpawnCall]) -> usize
    ensures { result ≡ length (ok_starts_of calls.now) }
{
    let mut count = 0;
    'calls: for call in calls {
        if is_start(call) {
            count += 1;
        }
    }
    count
}

/// The call that started a program, counted from 1 among those that did.
fn start_at(calls: &[SpawnCall], start: u64) -> Option<&SpawnCall>
    ensures { option_copied result ≡ start_at calls.now start }
{
    let mut count = 0;
    'calls: for call in calls {
        if is_start(call) {
            count += 1;
            if count == start {
                return Some(call);
            }
        }
    }
    None
}

/// The words that a start was given.
pub fn argv_at(calls: &[SpawnCall], start: u64) -> Option<&Words>
    ensures { option_copied result ≡ given_at argv_of_start calls.now start }
{
    match &start_at(calls, start)?.request {
        SpawnRequest::Start { argv, .. } => Some(argv),
        SpawnRequest::Ready { .. } | SpawnRequest::Wait(_) => None,
    }
}

/// The environment that a start was given.
pub fn env_at(calls: &[SpawnCall], start: u64) -> Option<&Words>
    ensures { option_copied result ≡ given_at env_of calls.now start }
{
    match &start_at(calls, start)?.request {
        SpawnRequest::Start { env, .. } => Some(env),
        SpawnRequest::Ready { .. } | SpawnRequest::Wait(_) => None,
    }
}

/// The working directory that a start was given.
pub fn cwd_at(calls: &[SpawnCall], start: u64) -> Option<&str>
    ensures { option_copied result ≡ given_at cwd_of calls.now start }
{
    match &start_at(calls, start)?.request {
        SpawnRequest::Start { cwd, .. } => Some(cwd.as_str()),
        SpawnRequest::Ready { .. } | SpawnRequest::Wait(_) => None,
    }
}
