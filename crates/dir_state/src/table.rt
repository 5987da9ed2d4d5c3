// How events change the state as data.
ghost use Rattle.std.specs.Prelude.{◌≡◌, ◌+◌, ◌<◌, ◌≤◌, ◌++◌, cond, MatchOption, option_to_list, vec_len, vec_capacity};
ghost use Rattle.dir_model.specs.Listings.{is_listing_request, without_listing};
ghost use Rattle.dir_model.specs.Trace.{changes_names, removed_in, entries_kept};
ghost use Rattle.dir_state.specs.Parts.{namespace_of, state_of, closes_listing, IsBrought};

use crate::listings::end_listing;
use crate::namespace::NamespaceTable;
use crate::parts::{Brought, Table, TreeTable};
use crate::trees::remove_path;
use dir_model::{NoMemory, OpenListing, Reply, Request, TreeEntry};
use std::alloc::Global;

/// Whether a listing is asked for.
pub fn is_listing_request(request: &Request) -> bool
    ensures { result ≡ is_listing_request request.now }
{
    matches!(request, Request::ListArea(_) | Request::ListIn(_))
}

/// Whether the listing of the process goes with this event.
pub fn closes_listing(request: &Request, reply: &Reply) -> bool
    ensures { result ≡ closes_listing request.now reply.now }
{
    match reply {
        Reply::Done => matches!(request, Request::Finish | Request::Kill),
        Reply::Names(_) => is_listing_request(request),
        Reply::Items(_) => is_listing_request(request),
        Reply::Refused { error: _, left: _ } => is_listing_request(request),
        _ => false,
    }
}

/// Whether the request changes what stands in some directory or area.
pub fn changes_names(request: &Request) -> bool
    ensures { result ≡ changes_names request.now }
{
    match request {
        Request::MakeFolder(_) => true,
        Request::MoveFolder { from: _, to: _ } => true,
        Request::MakeDirIn(_) => true,
        Request::MakeFileIn(_) => true,
        Request::RemoveFileIn(_) => true,
        Request::RemoveDirIn(_) => true,
        Request::RemoveFolder(_) => true,
        _ => false,
    }
}

fn remove_at(entries: &mut Vec<TreeEntry>, folder: Option<usize>, path: &[u8])
    ensures items { entries.new.items ≡ removed_in folder path.now entries.old.items }
    ensures fewer { vec_len entries.new ≤ vec_len entries.old }
    ensures capacity { vec_capacity entries.new ≡ vec_capacity entries.old }
{
    if let Some(folder) = folder {
        remove_path(entries, folder, path);
    }
}

fn remove_done(entries: &mut Vec<TreeEntry>, namespace: &NamespaceTable, request: &Request)
    ensures items { entries.new.items ≡ entries_kept (namespace_of namespace.now) entries.old.items request.now Reply.Done }
    ensures fewer { vec_len entries.new ≤ vec_len entries.old }
    ensures capacity { vec_capacity entries.new ≡ vec_capacity entries.old }
{
    match request {
        Request::RemoveFileIn(inner) => remove_at(
            entries,
            namespace.folder_at(&inner.spot),
            inner.path.as_slice(),
        ),
        Request::RemoveDirIn(inner) => remove_at(
            entries,
            namespace.folder_at(&inner.spot),
            inner.path.as_slice(),
        ),
        _ => (),
    }
}

// What a removal takes is gone.
fn drop_removed(
    entries: &mut Vec<TreeEntry>,
    namespace: &NamespaceTable,
    request: &Request,
    reply: &Reply,
)
    ensures items { entries.new.items ≡ entries_kept (namespace_of namespace.now) entries.old.items request.now reply.now }
    ensures fewer { vec_len entries.new ≤ vec_len entries.old }
    ensures capacity { vec_capacity entries.new ≡ vec_capacity entries.old }
{
    if let Reply::Done = reply {
        remove_done(entries, namespace, request);
    }
}

// What was made is added, for which there is room.
fn add_made<T: Drop>(items: &mut Vec<T>, made: Option<T>)
    requires { vec_len items.old < vec_capacity items.old }
    ensures items { items.new.items ≡ items.old.items ++ option_to_list made }
    ensures len { vec_len items.new ≤ vec_len items.old + 1 }
    ensures capacity { vec_capacity items.new ≡ vec_capacity items.old }
{
    if let Some(item) = made {
        items.push_reserved(item);
    }
}

fn change_listings(
    listings: &mut Vec<OpenListing>,
    process: u32,
    closes: bool,
    brought: Option<Vec<OpenListing>>,
)
    ensures { MatchOption brought (listings.new.items ≡ cond closes (without_listing process listings.old.items) listings.old.items) (λ ls. listings.new.items ≡ ls.items) }
{
    match brought {
        Some(changed) => *listings = changed,
        None if closes => end_listing(listings, process),
        None => (),
    }
}

impl TreeTable {
    ghost use Rattle.std.specs.Prelude.{◌≡◌, ◌+◌, ◌<◌, ◌≤◌, [], max, OnOk};
    ghost use Rattle.dir_model.specs.Trace.{state_next};
    ghost use Rattle.dir_model.specs.Calls.{event};

    /// Nothing was made. Takes no memory.
    pub fn new(alloc: Global) -> TreeTable
        ensures entries { result.entries.items ≡ [] }
        ensures apps { result.apps.items ≡ [] }
        ensures listings { result.listings.items ≡ [] }
        ensures room { result.spare ≡ 0 }
    {
        TreeTable {
            entries: Vec::new(alloc),
            apps: Vec::new(alloc),
            listings: Vec::new(alloc),
            spare: 0,
        }
    }

    /// Room for `more` events at least. Refused only where memory ran out.
    pub fn reserve(&mut self, more: usize) -> Result<(), NoMemory>
        ensures entries { self.new.entries.items ≡ self.old.entries.items }
        ensures apps { self.new.apps.items ≡ self.old.apps.items }
        ensures listings { self.new.listings.items ≡ self.old.listings.items }
        ensures room { OnOk result (more ≤ self.new.spare) }
        ensures kept { self.old.spare ≤ self.new.spare }
        ensures most { self.new.spare ≤ max self.old.spare more }
    {
        if self.spare < more {
            self.entries.reserve(more)?;
            self.apps.reserve(more)?;
            self.spare = more;
        }
        Ok(())
    }

    /// An event comes, for which there is room. Takes no memory.
    pub fn apply(
        &mut self,
        namespace: &NamespaceTable,
        process: u32,
        request: &Request,
        reply: &Reply,
        brought: Brought,
    )
        requires room { 0 < self.old.spare }
        requires brought { IsBrought (state_of namespace.now self.old) process request.now reply.now brought }
        ensures room { self.new.spare + 1 ≡ self.old.spare }
        ensures entries { self.new.entries.items ≡ (state_next (state_of namespace.now self.old) (event process request.now reply.now)).entries }
        ensures apps { self.new.apps.items ≡ (state_next (state_of namespace.now self.old) (event process request.now reply.now)).apps }
        ensures listings { self.new.listings.items ≡ (state_next (state_of namespace.now self.old) (event process request.now reply.now)).listings }
    {
        self.spare -= 1;
        drop_removed(&mut self.entries, namespace, request, reply);
        add_made(&mut self.entries, brought.entry);
        add_made(&mut self.apps, brought.app);
        change_listings(
            &mut self.listings,
            process,
            closes_listing(request, reply),
            brought.listings,
        );
    }
}

impl Table {
    ghost use Rattle.std.specs.Prelude.{◌≡◌, ◌+◌, ◌<◌, ◌≤◌, max, OnOk};
    ghost use Rattle.dir_model.specs.State.{empty_state};
    ghost use Rattle.dir_model.specs.Trace.{state_next};
    ghost use Rattle.dir_model.specs.Calls.{event};
    ghost use Rattle.dir_state.specs.Parts.{table_state};

    /// Nothing was made. Takes no memory.
    pub fn new(alloc: Global) -> Table
        ensures state { table_state result ≡ empty_state }
        ensures namespace { result.namespace.spare ≡ 0 }
        ensures trees { result.trees.spare ≡ 0 }
    {
        Table {
            namespace: NamespaceTable::new(alloc),
            trees: TreeTable::new(alloc),
        }
    }

    /// Room for `more` events at least. Refused only where memory ran out.
    pub fn reserve(&mut self, more: usize) -> Result<(), NoMemory>
        ensures state { table_state self.new ≡ table_state self.old }
        ensures namespace { OnOk result (more ≤ self.new.namespace.spare) }
        ensures trees { OnOk result (more ≤ self.new.trees.spare) }
        ensures namespace_kept { self.old.namespace.spare ≤ self.new.namespace.spare }
        ensures trees_kept { self.old.trees.spare ≤ self.new.trees.spare }
        ensures namespace_most { self.new.namespace.spare ≤ max self.old.namespace.spare more }
        ensures trees_most { self.new.trees.spare ≤ max self.old.trees.spare more }
    {
        self.namespace.reserve(more)?;
        self.trees.reserve(more)?;
        Ok(())
    }

    /// An event comes, for which there is room, and what it brings was made. Takes no memory.
    pub fn apply(&mut self, process: u32, request: &Request, reply: &Reply, brought: Brought)
        requires namespace { 0 < self.old.namespace.spare }
        requires trees { 0 < self.old.trees.spare }
        requires brought { IsBrought (table_state self.old) process request.now reply.now brought }
        ensures namespace { self.new.namespace.spare + 1 ≡ self.old.namespace.spare }
        ensures trees { self.new.trees.spare + 1 ≡ self.old.trees.spare }
        ensures state { table_state self.new ≡ state_next (table_state self.old) (event process request.now reply.now) }
    {
        self.trees
            .apply(&self.namespace, process, request, reply, brought);
        self.namespace.apply(process, request, reply);
    }
}
