// The answers that follow the state exactly.
ghost use Rattle.std.specs.Prelude.{◌≡◌, cond, take, drop, Some, None, IfOk};
ghost use Rattle.dir_model.specs.Replies.{make_refusal, file_refusal, sync_refusal, dir_refusal, folder_refusal, open_refusal};
ghost use Rattle.dir_model.specs.Paths.{is_well_formed};
ghost use Rattle.dir_model.specs.Calls.{is_kill};
ghost use Rattle.dir_state.specs.Answers.{opened_or_refused, shown};

use crate::listings::{is_listing, items_in_order, names_in_order};
use crate::parts::Table;
use crate::table::is_listing_request;
use crate::trees::{
    content, has_any, has_children, has_file, has_inner_dir, has_parent, holds_any,
};
use dir_model::{
    Bytes, DirError, Handle, Inner, Items, Listed, Names, NoMemory, OpenListing, Reply, Request,
    Spot, TreeEntry, Which, is_path,
};
use std::alloc::Global;

fn refused_if(refused: bool, error: DirError) -> Option<DirError>
    ensures { result ≡ cond refused (Some error) None }
{
    if refused { Some(error) } else { None }
}

fn missing_unless(stands: bool) -> Option<DirError>
    ensures { result ≡ cond stands None (Some DirError.Missing) }
{
    if stands {
        None
    } else {
        Some(DirError::Missing)
    }
}

fn make_refusal(path: &[u8], entries: &[TreeEntry], folder: usize) -> Option<DirError>
    ensures { result ≡ make_refusal path.now entries.now folder }
{
    if has_any(entries, folder, path) {
        return Some(DirError::Exists);
    }
    missing_unless(has_parent(entries, folder, path))
}

fn file_refusal(path: &[u8], entries: &[TreeEntry], folder: usize) -> Option<DirError>
    ensures { result ≡ file_refusal path.now entries.now folder }
{
    missing_unless(has_file(entries, folder, path))
}

fn sync_refusal(path: &[u8], entries: &[TreeEntry], folder: usize) -> Option<DirError>
    ensures { result ≡ sync_refusal path.now entries.now folder }
{
    missing_unless(has_any(entries, folder, path))
}

fn dir_refusal(path: &[u8], entries: &[TreeEntry], folder: usize) -> Option<DirError>
    ensures { result ≡ dir_refusal path.now entries.now folder }
{
    if !has_inner_dir(entries, folder, path) {
        return Some(DirError::Missing);
    }
    refused_if(has_children(entries, folder, path), DirError::NotEmpty)
}

fn folder_refusal(entries: &[TreeEntry], folder: usize) -> Option<DirError>
    ensures { result ≡ folder_refusal entries.now folder }
{
    refused_if(holds_any(entries, folder), DirError::NotEmpty)
}

fn open_refusal(which: Which, entries: &[TreeEntry], folder: usize) -> Option<DirError>
    ensures { result ≡ open_refusal which entries.now folder }
{
    match which {
        Which::Own => None,
        Which::Claim => file_refusal(b"pod", entries, folder),
    }
}

fn opened_or_refused(handle: Option<Handle>) -> Reply
    ensures { result ≡ opened_or_refused handle }
{
    match handle {
        Some(handle) => Reply::Opened(handle),
        None => Reply::Refused {
            error: DirError::NoMemory,
            left: 0,
        },
    }
}

/// What a listing shows: exactly what stood all the time. Refused only where memory ran out.
pub fn shown(alloc: Global, listed: &Listed) -> Result<Reply, NoMemory>
    ensures { IfOk result (λ reply. reply ≡ shown listed.now) }
{
    match listed {
        Listed::Area {
            area: _,
            through,
            ever: _,
        } => {
            let names = names_in_order(alloc, through.as_slice())?;
            Ok(Reply::Names(Names::from_vec(names)))
        }
        Listed::Missing(_) => Ok(Reply::Refused {
            error: DirError::Missing,
            left: 0,
        }),
        Listed::Inside {
            inner: _,
            folder: _,
            through,
            ever: _,
        } => {
            let items = items_in_order(alloc, through.as_slice())?;
            Ok(Reply::Items(Items::from_vec(items)))
        }
    }
}

impl Table {
    ghost use Rattle.std.specs.Prelude.{◌≡◌, find, IfOk};
    ghost use Rattle.std.specs.Option.{option_copied};
    ghost use Rattle.dir_model.specs.State.{folder_at};
    ghost use Rattle.dir_model.specs.Listings.{is_listing_of, is_listing};
    ghost use Rattle.dir_model.specs.Replies.{refusal, bytes_at, refused_in, make_refusal, file_refusal, sync_refusal, dir_refusal, folder_refusal, open_refusal};
    ghost use Rattle.dir_model.specs.Calls.{may_step};
    ghost use Rattle.dir_state.specs.Parts.{table_state, namespace_of};
    ghost use Rattle.dir_state.specs.Answers.{granted, answer_by, answer, listing_answer, finds_handle, is_met, is_possible};

    fn move_refusal(&self, process: u32, from: &Spot, to: &Spot) -> Option<DirError>
        ensures { result ≡ refusal (table_state self.now) process (Request.MoveFolder from.now to.now) }
    {
        if !self.namespace.stands(from) {
            return Some(DirError::Missing);
        }
        refused_if(self.namespace.stands(to), DirError::Exists)
    }

    fn open_refused(&self, spot: &Spot, which: Which) -> Option<DirError>
        ensures { result ≡ refused_in (open_refusal which) self.now.trees.entries.items (folder_at (namespace_of self.now.namespace) spot.now) }
    {
        match self.namespace.folder_at(spot) {
            Some(folder) => open_refusal(which, &self.trees.entries, folder),
            None => Some(DirError::Missing),
        }
    }

    fn make_refused(&self, inner: &Inner) -> Option<DirError>
        ensures { result ≡ refused_in (make_refusal inner.now.path) self.now.trees.entries.items (folder_at (namespace_of self.now.namespace) inner.now.spot) }
    {
        match self.namespace.folder_at(&inner.spot) {
            Some(folder) => make_refusal(inner.path.as_slice(), &self.trees.entries, folder),
            None => Some(DirError::Missing),
        }
    }

    fn file_refused(&self, inner: &Inner) -> Option<DirError>
        ensures { result ≡ refused_in (file_refusal inner.now.path) self.now.trees.entries.items (folder_at (namespace_of self.now.namespace) inner.now.spot) }
    {
        match self.namespace.folder_at(&inner.spot) {
            Some(folder) => file_refusal(inner.path.as_slice(), &self.trees.entries, folder),
            None => Some(DirError::Missing),
        }
    }

    fn sync_refused(&self, inner: &Inner) -> Option<DirError>
        ensures { result ≡ refused_in (sync_refusal inner.now.path) self.now.trees.entries.items (folder_at (namespace_of self.now.namespace) inner.now.spot) }
    {
        match self.namespace.folder_at(&inner.spot) {
            Some(folder) => sync_refusal(inner.path.as_slice(), &self.trees.entries, folder),
            None => Some(DirError::Missing),
        }
    }

    fn dir_refused(&self, inner: &Inner) -> Option<DirError>
        ensures { result ≡ refused_in (dir_refusal inner.now.path) self.now.trees.entries.items (folder_at (namespace_of self.now.namespace) inner.now.spot) }
    {
        match self.namespace.folder_at(&inner.spot) {
            Some(folder) => dir_refusal(inner.path.as_slice(), &self.trees.entries, folder),
            None => Some(DirError::Missing),
        }
    }

    fn folder_refused(&self, spot: &Spot) -> Option<DirError>
        ensures { result ≡ refused_in folder_refusal self.now.trees.entries.items (folder_at (namespace_of self.now.namespace) spot.now) }
    {
        match self.namespace.folder_at(spot) {
            Some(folder) => folder_refusal(&self.trees.entries, folder),
            None => Some(DirError::Missing),
        }
    }

    /// How the state refuses a request, if it does.
    pub fn refusal(&self, process: u32, request: &Request) -> Option<DirError>
        ensures { result ≡ refusal (table_state self.now) process request.now }
    {
        match request {
            Request::MakeFolder(spot) => refused_if(self.namespace.stands(spot), DirError::Exists),
            Request::MoveFolder { from, to } => self.move_refusal(process, from, to),
            Request::Open { spot, which } => self.open_refused(spot, *which),
            Request::TryLock { handle, mode } => refused_if(
                self.namespace.is_locked(process, *handle, *mode),
                DirError::Locked,
            ),
            Request::MakeDirIn(inner) => self.make_refused(inner),
            Request::MakeFileIn(inner) => self.make_refused(inner),
            Request::AppendIn { inner, piece: _ } => self.file_refused(inner),
            Request::ReadIn {
                inner,
                at: _,
                room: _,
            } => self.file_refused(inner),
            Request::SyncIn(inner) => self.sync_refused(inner),
            Request::RemoveFileIn(inner) => self.file_refused(inner),
            Request::RemoveDirIn(inner) => self.dir_refused(inner),
            Request::RemoveFolder(spot) => self.folder_refused(spot),
            _ => None,
        }
    }

    // The bytes of a file from a place on, as many as fit.
    fn bytes_at(&self, inner: &Inner, at: u64, room: u64) -> Result<Bytes, NoMemory>
        ensures { IfOk result (λ bytes. bytes ≡ bytes_at self.now.trees.entries.items inner.now.path at room (folder_at (namespace_of self.now.namespace) inner.now.spot)) }
    {
        let alloc = self.alloc();
        let Some(folder) = self.namespace.folder_at(&inner.spot) else {
            return Ok(Bytes::from_vec(Vec::new(alloc)));
        };
        let whole = content(alloc, &self.trees.entries, folder, inner.path.as_slice())?;
        let rest = rest_from(&whole, at);
        let part = Vec::from_slice(alloc, first_of(rest, room))?;
        Ok(Bytes::from_vec(part))
    }

    fn granted(&self, process: u32, request: &Request) -> Result<Reply, NoMemory>
        ensures { IfOk result (λ reply. reply ≡ granted (table_state self.now) process request.now) }
    {
        Ok(match request {
            Request::Open { spot: _, which: _ } => opened_or_refused(
                self.namespace.free_handle(process),
            ),
            Request::OpenArea(_) => opened_or_refused(self.namespace.free_handle(process)),
            Request::ReadIn { inner, at, room } => Reply::Read(self.bytes_at(inner, *at, *room)?),
            _ => Reply::Done,
        })
    }

    fn plain_answer(&self, process: u32, request: &Request) -> Result<Reply, NoMemory>
        ensures { IfOk result (λ reply. reply ≡ answer_by (refusal (table_state self.now) process request.now) (granted (table_state self.now) process request.now)) }
    {
        match self.refusal(process, request) {
            Some(error) => Ok(Reply::Refused { error, left: 0 }),
            None => self.granted(process, request),
        }
    }

    /// The state's own answer to a request; a listing begins. Refused only where memory ran out.
    pub fn answer(&self, process: u32, request: &Request) -> Result<Reply, NoMemory>
        ensures { IfOk result (λ reply. reply ≡ answer (table_state self.now) process request.now) }
    {
        if is_listing_request(request) {
            return Ok(Reply::Begun);
        }
        self.plain_answer(process, request)
    }

    fn open_listing(&self, process: u32) -> Option<&OpenListing>
        ensures { option_copied result ≡ find (is_listing_of process) self.now.trees.listings.items }
    {
        self.trees
            .listings
            .iter()
            .find(|listing| listing.process == process)
    }

    /// The end of the listing that the process has open. Refused only where memory ran out.
    pub fn listing_answer(&self, process: u32) -> Result<Reply, NoMemory>
        ensures { IfOk result (λ reply. reply ≡ listing_answer (table_state self.now) process) }
    {
        match self.open_listing(process) {
            Some(listing) => {
                let noted = self.noted_by(listing)?;
                shown(self.alloc(), &noted.listed)
            }
            None => Ok(Reply::Refused {
                error: DirError::NoMemory,
                left: 0,
            }),
        }
    }

    /// Whether the process has a listing open.
    pub fn is_listing(&self, process: u32) -> bool
        ensures { result ≡ is_listing (table_state self.now) process }
    {
        is_listing(&self.trees.listings, process)
    }

    fn may_step(&self, process: u32, request: &Request) -> bool
        ensures { result ≡ may_step (table_state self.now) process request.now }
    {
        if !is_well_formed(request) {
            return false;
        }
        match request {
            Request::Begin(_) => !self.namespace.has_begun(process),
            _ => self.namespace.lives(process),
        }
    }

    /// Whether the process may take the step now.
    pub fn is_possible(&self, process: u32, request: &Request) -> bool
        ensures { result ≡ is_possible (table_state self.now) process request.now }
    {
        self.may_step(process, request) && self.is_met(process, request)
    }

    // Whether a lock is asked for by an open handle without one, and an open handle is closed.
    fn finds_handle(&self, process: u32, request: &Request) -> bool
        ensures { result ≡ finds_handle (table_state self.now) process request.now }
    {
        match request {
            Request::TryLock { handle, mode: _ } => self.namespace.has_unlocked(process, *handle),
            Request::Close(handle) => self.namespace.has_open(process, *handle),
            _ => true,
        }
    }

    /// Whether no listing of the process is open, unless it is killed, and the handle is as it has
    /// to be.
    pub fn is_met(&self, process: u32, request: &Request) -> bool
        ensures { result ≡ is_met (table_state self.now) process request.now }
    {
        (is_kill(request) || !self.is_listing(process)) && self.finds_handle(process, request)
    }
}

fn is_kill(request: &Request) -> bool
    ensures { result ≡ is_kill request.now }
{
    matches!(request, Request::Kill)
}

fn rest_from(bytes: &[u8], at: u64) -> &[u8]
    ensures { result.now ≡ drop at bytes.now }
{
    if at >= bytes.len() as u64 {
        return &[];
    }
    &bytes[at as usize..]
}

fn first_of(bytes: &[u8], room: u64) -> &[u8]
    ensures { result.now ≡ take room bytes.now }
{
    if room >= bytes.len() as u64 {
        return bytes;
    }
    &bytes[..room as usize]
}

fn is_well_formed(request: &Request) -> bool
    ensures { result ≡ is_well_formed request.now }
{
    match request {
        Request::ListIn(inner) => is_path(inner.path.as_slice()),
        Request::MakeDirIn(inner) => is_path(inner.path.as_slice()),
        Request::MakeFileIn(inner) => is_path(inner.path.as_slice()),
        Request::AppendIn { inner, piece: _ } => is_path(inner.path.as_slice()),
        Request::ReadIn {
            inner,
            at: _,
            room: _,
        } => is_path(inner.path.as_slice()),
        Request::SyncIn(inner) => is_path(inner.path.as_slice()),
        Request::RemoveFileIn(inner) => is_path(inner.path.as_slice()),
        Request::RemoveDirIn(inner) => is_path(inner.path.as_slice()),
        _ => true,
    }
}
