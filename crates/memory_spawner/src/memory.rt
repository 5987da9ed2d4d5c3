// A spawner in memory.
ghost use Rattle.std.specs.Prelude.{◌≡◌, cond, IfOk};
ghost use Rattle.spawner.specs.declared.call.SpawnRequest.TheVariants.{Ready, Start};

use crate::ends::{End, is_listed, status_of};
use crate::starts::{argv_at, count_starts, cwd_at, env_at};
use dir_trait::{Bytes, Dir, NoMemory};
use spawner::{
    Child, RootPlace, SpawnCall, SpawnError, SpawnReply, SpawnRequest, Spawner, Words,
    WorkingDirectory,
};
use std::alloc::Global;
use std::marker::Model;

/// A spawner that runs nothing and keeps its calls. Only calls that were listed so fail, and each
/// program ends as it was told.
#[derive(Drop)]
pub struct MemorySpawner {
    calls: Vec<SpawnCall>,
    faults: u64,
    counted: u64,
    ends: Vec<End>,
    failing: Vec<u64>,
}

impl Model for MemorySpawner {
    ghost use Rattle.memory_spawner.specs.SpawnerMemories.{SpawnerMemory, AreNumbered};

    ghost Value = { SpawnerMemory };

    ghost view = { λ s. record { calls = s.calls.items; faults = s.faults; counted = s.counted; ends = s.ends.items; failing = s.failing.items } };

    ghost invariant = { λ s. AreNumbered s.calls.items };
}

/// What is noted of a call that makes a root ready.
fn ready_request(alloc: Global, root: &RootPlace, listing: &[u8]) -> Result<SpawnRequest, NoMemory>
    ensures { IfOk result (λ request. request ≡ Ready root.now listing.now) }
{
    let listing = Bytes::of(alloc, listing)?;
    Ok(SpawnRequest::Ready {
        root: *root,
        listing,
    })
}

/// What is noted of a start.
fn start_request(
    alloc: Global,
    root: &RootPlace,
    argv: &Words,
    env: &Words,
    cwd: &str,
) -> Result<SpawnRequest, NoMemory>
    ensures { IfOk result (λ request. request ≡ Start root.now argv.now env.now cwd.now) }
{
    let argv = argv.copy()?;
    let env = env.copy()?;
    let cwd = WorkingDirectory::of(alloc, cwd)?;
    Ok(SpawnRequest::Start {
        root: *root,
        argv,
        env,
        cwd,
    })
}

fn reply_unless(fails: bool, reply: SpawnReply) -> SpawnReply
    ensures { result ≡ cond fails (SpawnReply.Refused SpawnError.Failed) reply }
{
    if fails {
        SpawnReply::Refused(SpawnError::Failed)
    } else {
        reply
    }
}

impl MemorySpawner {
    ghost use Rattle.std.specs.Prelude.{◌≡◌, ◌+◌, ◌++◌, ◌∷◌, ◌≤◌, [], true, false, length, IfOk, IsErrOf};
    ghost use Rattle.std.specs.Option.{option_copied};
    ghost use Rattle.dir_model.specs.Causes.{Rose};
    ghost use Rattle.memory_spawner.specs.SpawnerMemories.{ok_starts_of, given_at, argv_of_start, env_of, cwd_of, is_spawner_failure_due, is_below, is_refusal, with_count, reply_or, SpawnerMemoryAnswers};

    /// Nothing was asked for, no call is to fail, and every program ends with 0. Takes no memory.
    pub fn new(alloc: Global) -> MemorySpawner
        ensures { result ≡ record { calls = []; faults = 0; counted = 0; ends = []; failing = [] } }
    {
        MemorySpawner {
            calls: Vec::new(alloc),
            faults: 0,
            counted: 0,
            ends: Vec::new(alloc),
            failing: Vec::new(alloc),
        }
    }

    /// The call with that number, counted from 1 and without `faults`, fails. Refused only where memory
    /// ran out.
    pub fn fail(self, alloc: Global, call: u64) -> Result<MemorySpawner, NoMemory>
        ensures { IfOk result (λ s. s ≡ record self { failing = self.failing ++ call ∷ [] }) }
    {
        let _alloc = alloc;
        let mut spawner = self;
        spawner.failing.push(call)?;
        Ok(spawner)
    }

    /// The child of that start, counted from 1 among the Ok starts, ends with this status. Refused only
    /// where memory ran out.
    pub fn ends(self, alloc: Global, start: u64, status: u8) -> Result<MemorySpawner, NoMemory>
        ensures { IfOk result (λ s. s ≡ record self { ends = record { start = start; status = status } ∷ self.ends }) }
    {
        let _alloc = alloc;
        let mut spawner = self;
        spawner.ends.insert(0, End { start, status })?;
        Ok(spawner)
    }

    /// The number of Ok starts.
    pub fn starts(&self) -> u64
        ensures { result ≡ length (ok_starts_of self.now.calls) }
    {
        count_starts(&self.calls) as u64
    }

    /// The words that the Ok start of that number, counted from 1, was given. None where there was no
    /// such start.
    pub fn argv(&self, start: u64) -> Option<&Words>
        ensures { option_copied result ≡ given_at argv_of_start self.now.calls start }
    {
        argv_at(&self.calls, start)
    }

    /// The environment that the Ok start of that number, counted from 1, was given. None where there was
    /// no such start.
    pub fn env(&self, start: u64) -> Option<&Words>
        ensures { option_copied result ≡ given_at env_of self.now.calls start }
    {
        env_at(&self.calls, start)
    }

    /// The working directory that the Ok start of that number, counted from 1, was given. None where
    /// there was no such start.
    pub fn cwd(&self, start: u64) -> Option<&str>
        ensures { option_copied result ≡ given_at cwd_of self.now.calls start }
    {
        cwd_at(&self.calls, start)
    }

    /// Counts a call, and tells whether it is to fail.
    fn count(&mut self) -> bool
        ensures fails { result ≡ is_spawner_failure_due self.old }
        ensures after { self.new ≡ with_count self.old }
        ensures faultless { self.new.faults ≡ self.old.faults }
    {
        let fails = is_listed(&self.failing, self.counted);
        self.counted = self.counted.saturating_add(1);
        fails
    }

    /// Notes a call with its reply, or with its failure where it is to fail.
    fn answer(
        &mut self,
        fails: bool,
        request: SpawnRequest,
        reply: SpawnReply,
    ) -> Result<(), SpawnError>
        requires next { is_below (length (ok_starts_of self.old.calls) + 1) reply ≡ true }
        requires answered { is_refusal reply ≡ false }
        ensures kept { self.old.faults ≤ self.new.faults }
        ensures cause { IsErrOf result SpawnError.Failed → Rose self.old.faults self.new.faults }
        ensures answers { SpawnerMemoryAnswers fails self.old request reply (reply_or reply result) self.new }
    {
        let reply = reply_unless(fails, reply);
        let Ok(()) = self.calls.push(SpawnCall { request, reply }) else {
            return Err(SpawnError::NoMemory);
        };
        if fails {
            self.faults = self.faults.saturating_add(1);
            return Err(SpawnError::Failed);
        }
        Ok(())
    }
}

impl Spawner for MemorySpawner {
    ghost use Rattle.std.specs.Prelude.{◌≡◌, ◌≤◌, Bool, true, false, length, IfOk, IsErrOf};
    ghost use Rattle.dir_model.specs.Causes.{Rose};
    ghost use Rattle.spawner.specs.Calls.{ready_reply, start_reply, wait_reply, has_started, Tells};
    ghost use Rattle.spawner.specs.Conditions.{MayStart, MayWait};
    ghost use Rattle.memory_spawner.specs.SpawnerMemories.{spawner_of_memory, ok_starts_of, end_status_of, Spawns};

    ghost observed = { true };

    ghost shown = { λ s. spawner_of_memory s };

    fn faults(&self) -> u64 {
        self.faults
    }

    fn ready<D: Dir>(
        &mut self,
        alloc: Global,
        _dir: &D,
        root: &RootPlace,
        listing: &[u8],
    ) -> Result<(), SpawnError>
        requires may { D.observed ≡ true → MayStart (D.shown _dir.now) root.now }
        ensures kept { self.old.faults ≤ self.new.faults }
        ensures cause { IsErrOf result SpawnError.Failed → Rose self.old.faults self.new.faults }
        ensures recorded { true ≡ true → Tells (spawner_of_memory self.old) (SpawnRequest.Ready root.now listing.now) (ready_reply result) (spawner_of_memory self.new) }
        ensures spawns { Spawns self.old (SpawnRequest.Ready root.now listing.now) SpawnReply.Done (ready_reply result) self.new }
    {
        let fails = self.count();
        let Ok(request) = ready_request(alloc, root, listing) else {
            return Err(SpawnError::NoMemory);
        };
        match self.answer(fails, request, SpawnReply::Done) {
            Ok(()) => Ok(()),
            Err(error) => Err(error),
        }
    }

    fn start<D: Dir>(
        &mut self,
        alloc: Global,
        _dir: &D,
        root: &RootPlace,
        argv: &Words,
        env: &Words,
        cwd: &str,
    ) -> Result<Child, SpawnError>
        requires may { D.observed ≡ true → MayStart (D.shown _dir.now) root.now }
        ensures kept { self.old.faults ≤ self.new.faults }
        ensures cause { IsErrOf result SpawnError.Failed → Rose self.old.faults self.new.faults }
        ensures recorded { true ≡ true → Tells (spawner_of_memory self.old) (SpawnRequest.Start root.now argv.now env.now cwd.now) (start_reply result) (spawner_of_memory self.new) }
        ensures fresh { IfOk result (λ child. true ≡ true → has_started child self.old.calls ≡ false) }
        ensures spawns { Spawns self.old (SpawnRequest.Start root.now argv.now env.now cwd.now)
            (SpawnReply.Started (record { number = length (ok_starts_of self.old.calls) })) (start_reply result) self.new }
    {
        let fails = self.count();
        let Ok(request) = start_request(alloc, root, argv, env, cwd) else {
            return Err(SpawnError::NoMemory);
        };
        let Ok(number) = u32::try_from(count_starts(&self.calls)) else {
            return Err(SpawnError::NoMemory);
        };
        let child = Child { number };
        match self.answer(fails, request, SpawnReply::Started(child)) {
            Ok(()) => Ok(child),
            Err(error) => Err(error),
        }
    }

    fn wait<D: Dir>(&mut self, _alloc: Global, _dir: &D, child: Child) -> Result<u8, SpawnError>
        requires may { D.observed ≡ true → true ≡ true → MayWait (D.shown _dir.now) self.old.calls child }
        ensures kept { self.old.faults ≤ self.new.faults }
        ensures cause { IsErrOf result SpawnError.Failed → Rose self.old.faults self.new.faults }
        ensures recorded { true ≡ true → Tells (spawner_of_memory self.old) (SpawnRequest.Wait child) (wait_reply result) (spawner_of_memory self.new) }
        ensures status { IfOk result (λ status. true ≡ true → status ≡ end_status_of self.old.ends child.number) }
        ensures spawns { Spawns self.old (SpawnRequest.Wait child) (SpawnReply.Ended (end_status_of self.old.ends child.number)) (wait_reply result) self.new }
    {
        let fails = self.count();
        let request = SpawnRequest::Wait(child);
        let status = status_of(&self.ends, child.number);
        match self.answer(fails, request, SpawnReply::Ended(status)) {
            Ok(()) => Ok(status),
            Err(error) => Err(error),
        }
    }
}
