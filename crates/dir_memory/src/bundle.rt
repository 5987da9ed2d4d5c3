// A bundle in memory.
ghost use Rattle.std.specs.Prelude.{◌≡◌, ◌≤◌, ◌-◌, ◌++◌, min, length, take, drop};
ghost use Rattle.dir_trait.specs.Bundles.{Fills};

use crate::entry::{Entry, file_at, link_at};
use crate::listing::list_at;
use crate::planned::is_listed;
use dir_model::NoMemory;
use dir_trait::{
    Bundle, BundleAction, BundleError, BundleItems, BundleKind, BundleRequest, Bytes, Node,
};
use std::alloc::Global;
use std::marker::Model;

/// A bundle of what was put into it. Only calls that were listed so fail.
#[derive(Drop)]
pub struct MemoryBundle {
    entries: Vec<Entry>,
    faults: u64,
    calls: u64,
    given: u64,
    asked: Vec<BundleRequest>,
    failing: Vec<u64>,
}

impl Model for MemoryBundle {
    ghost use Rattle.dir_memory.specs.MemoryBundles.{BundleMemory};

    ghost Value = { BundleMemory };

    ghost view = { λ b. record { entries = b.entries.items; faults = b.faults; calls = b.calls; given = b.given; asked = b.asked.items; failing = b.failing.items } };
}

impl MemoryBundle {
    ghost use Rattle.std.specs.Prelude.{◌≡◌, ◌≤◌, ◌++◌, ◌∷◌, [], IfOk, OnOk, OnErr};
    ghost use Rattle.dir_trait.specs.Bundles.{request_at};
    ghost use Rattle.dir_memory.specs.MemoryBundles.{bundle_with_entry, is_bundle_failure_due, bundle_after_call, Entered, with_given};

    /// A root without entries, and no call is to fail. Takes no memory.
    pub fn new(alloc: Global) -> MemoryBundle
        ensures { result ≡ record { entries = []; faults = 0; calls = 0; given = 0; asked = []; failing = [] } }
    {
        MemoryBundle {
            entries: Vec::new(alloc),
            faults: 0,
            calls: 0,
            given: 0,
            asked: Vec::new(alloc),
            failing: Vec::new(alloc),
        }
    }

    /// The call with that number, counted from 1 and without `faults`, fails. Refused only where memory
    /// ran out.
    pub fn fail(self, alloc: Global, call: u64) -> Result<MemoryBundle, NoMemory>
        ensures { IfOk result (λ bundle. bundle ≡ record self { failing = self.failing ++ call ∷ [] }) }
    {
        let _alloc = alloc;
        let mut bundle = self;
        bundle.failing.push(call)?;
        Ok(bundle)
    }

    /// Puts a file at a path, in place of what stands there, with the directories above it. Refused only
    /// where memory ran out.
    pub fn file(self, alloc: Global, path: &str, bytes: &[u8]) -> Result<MemoryBundle, NoMemory>
        ensures { IfOk result (λ bundle. bundle ≡ bundle_with_entry self path.now (Node.File bytes.now)) }
    {
        let bytes = Bytes::of(alloc, bytes)?;
        self.put(alloc, path, Node::File(bytes))
    }

    /// Puts a symbolic link at a path, in place of what stands there, with the directories above it.
    /// Refused only where memory ran out.
    pub fn link(self, alloc: Global, path: &str, target: &str) -> Result<MemoryBundle, NoMemory>
        ensures { IfOk result (λ bundle. bundle ≡ bundle_with_entry self path.now (Node.Link target.now)) }
    {
        let target = Bytes::of(alloc, target.as_bytes())?;
        self.put(alloc, path, Node::Link(target))
    }

    /// Puts a directory at a path, with the directories above it. One that stands there keeps what it
    /// holds. Refused only where memory ran out.
    pub fn dir(self, alloc: Global, path: &str) -> Result<MemoryBundle, NoMemory>
        ensures { IfOk result (λ bundle. bundle ≡ bundle_with_entry self path.now Node.Directory) }
    {
        self.put(alloc, path, Node::Directory)
    }

    /// Puts a thing of another kind at a path, in place of what stands there, with the directories above
    /// it. Refused only where memory ran out.
    pub fn other(self, alloc: Global, path: &str) -> Result<MemoryBundle, NoMemory>
        ensures { IfOk result (λ bundle. bundle ≡ bundle_with_entry self path.now Node.Other) }
    {
        self.put(alloc, path, Node::Other)
    }

    fn put(self, alloc: Global, path: &str, node: Node) -> Result<MemoryBundle, NoMemory>
        ensures { IfOk result (λ bundle. bundle ≡ bundle_with_entry self path.now node) }
    {
        let path = Bytes::of(alloc, path.as_bytes())?;
        let mut bundle = self;
        bundle.entries.insert(0, Entry { path, node })?;
        Ok(bundle)
    }

    /// Counts a call, and a fault where it is listed to fail.
    fn count_call(&mut self) -> bool
        ensures fails { result ≡ is_bundle_failure_due self.old }
        ensures after { self.new ≡ bundle_after_call self.old [] }
        ensures faults { self.old.faults ≤ self.new.faults }
    {
        let fails = is_listed(&self.failing, self.calls);
        self.calls = self.calls.saturating_add(1);
        if fails {
            self.faults = self.faults.saturating_add(1);
        }
        fails
    }

    fn note(&mut self, alloc: Global, action: BundleAction, path: &str) -> Result<(), NoMemory>
        ensures ok { OnOk result (self.new ≡ record self.old { asked = self.old.asked ++ request_at action path.now ∷ [] }) }
        ensures err { OnErr result (self.new ≡ self.old) }
    {
        let path = Bytes::of(alloc, path.as_bytes())?;
        self.asked.push(BundleRequest { action, path })?;
        Ok(())
    }

    /// Begins a call: it is counted and noted, and fails where it is listed so.
    fn enter(&mut self, alloc: Global, action: BundleAction, path: &str) -> Result<(), BundleError>
        ensures entered { Entered self.old (request_at action path.now) result self.new }
        ensures faults { self.old.faults ≤ self.new.faults }
    {
        let fails = self.count_call();
        match self.note(alloc, action, path) {
            Ok(()) if fails => Err(BundleError::Failed),
            Ok(()) => Ok(()),
            Err(_) => Err(BundleError::NoMemory),
        }
    }

    /// Counts bytes that were given.
    fn count_bytes(&mut self, count: usize)
        ensures { self.new ≡ with_given self.old count }
    {
        self.given = self.given.saturating_add(count as u64);
    }
}

fn fill(room: &mut [u8], bytes: &[u8])
    requires { length bytes.now ≤ length room.old }
    ensures { room.new ≡ bytes.now ++ drop (length bytes.now) room.old }
{
    room[..bytes.len()].copy_from_slice(bytes);
}

/// Fills the room with the bytes from a place on, and answers how many.
fn fill_from(room: &mut [u8], bytes: &[u8], at: u64) -> usize
    ensures { Fills bytes.now at room.old result room.new }
{
    let start = bytes.len().min(at as usize);
    let rest = &bytes[start..];
    let count = rest.len().min(room.len());
    fill(room, &rest[..count]);
    count
}

impl Bundle for MemoryBundle {
    ghost use Rattle.std.specs.Prelude.{◌≡◌, ◌≢◌, ◌≤◌, true, length, None, Some, IfOk, IsErrOf, IsSomeAnd};
    ghost use Rattle.dir_model.specs.Causes.{Rose};
    ghost use Rattle.dir_trait.specs.Bundles.{kind_at, bytes_of_node, link_target, bytes_given, Fills, IsBundleListing, Lists, BundleCall, request_at};
    ghost use Rattle.dir_memory.specs.MemoryBundles.{bundle_tree_of, bundle_of_memory, AnswersCall, AnswersListing};

    ghost observed = { true };

    ghost shown = { λ b. bundle_of_memory b };

    fn faults(&self) -> u64 {
        self.faults
    }

    fn read(
        &mut self,
        alloc: Global,
        path: &str,
        at: u64,
        room: &mut [u8],
    ) -> Result<usize, BundleError>
        ensures cause { IsErrOf result BundleError.Failed → Rose self.old.faults self.new.faults }
        ensures most { IfOk result (λ n. n ≤ length room.old) }
        ensures read { IfOk result (λ n. true ≡ true
            → IsSomeAnd (bytes_of_node (bundle_tree_of self.old.entries path.now)) (λ bytes. Fills bytes at room.old n room.new)) }
        ensures missing { IsErrOf result BundleError.Missing → true ≡ true → bytes_of_node (bundle_tree_of self.old.entries path.now) ≡ None }
        ensures called { BundleCall true (bundle_of_memory self.old) (request_at BundleAction.Read path.now) (bytes_given result) (bundle_of_memory self.new) }
        ensures answers { AnswersCall self.old (request_at BundleAction.Read path.now) result self.new }
    {
        self.enter(alloc, BundleAction::Read, path)?;
        let Some(bytes) = file_at(&self.entries, path.as_bytes()) else {
            return Err(BundleError::Missing);
        };
        let count = fill_from(room, bytes, at);
        self.count_bytes(count);
        Ok(count)
    }

    fn read_link(
        &mut self,
        alloc: Global,
        path: &str,
        room: &mut [u8],
    ) -> Result<usize, BundleError>
        ensures cause { IsErrOf result BundleError.Failed → Rose self.old.faults self.new.faults }
        ensures most { IfOk result (λ n. n ≤ length room.old) }
        ensures read { IfOk result (λ n. true ≡ true
            → IsSomeAnd (link_target (bundle_tree_of self.old.entries path.now)) (λ target. Fills target 0 room.old n room.new)) }
        ensures missing { IsErrOf result BundleError.Missing → true ≡ true → link_target (bundle_tree_of self.old.entries path.now) ≡ None }
        ensures called { BundleCall true (bundle_of_memory self.old) (request_at BundleAction.ReadLink path.now) (bytes_given result) (bundle_of_memory self.new) }
        ensures answers { AnswersCall self.old (request_at BundleAction.ReadLink path.now) result self.new }
    {
        self.enter(alloc, BundleAction::ReadLink, path)?;
        let Some(target) = link_at(&self.entries, path.as_bytes()) else {
            return Err(BundleError::Missing);
        };
        let count = fill_from(room, target, 0);
        self.count_bytes(count);
        Ok(count)
    }

    fn list(&mut self, alloc: Global, path: &str) -> Result<BundleItems, BundleError>
        ensures cause { IsErrOf result BundleError.Failed → Rose self.old.faults self.new.faults }
        ensures ordered { IfOk result IsBundleListing }
        ensures listed { IfOk result (λ items. true ≡ true → Lists (bundle_tree_of self.old.entries) path.now items) }
        ensures missing { IsErrOf result BundleError.Missing → true ≡ true
            → kind_at (bundle_tree_of self.old.entries path.now) ≢ Some BundleKind.Dir }
        ensures called { BundleCall true (bundle_of_memory self.old) (request_at BundleAction.List path.now) 0 (bundle_of_memory self.new) }
        ensures answers { AnswersListing self.old (request_at BundleAction.List path.now) result self.new }
    {
        self.enter(alloc, BundleAction::List, path)?;
        list_at(alloc, &self.entries, path.as_bytes())
    }
}
