// What an event brings, made before it comes.
ghost use Rattle.std.specs.Prelude.{◌≡◌, ℕ, true, take, IfOk};
ghost use Rattle.dir_model.specs.Areas.{is_run_or_later};
ghost use Rattle.dir_model.specs.Trees.{app_root};
ghost use Rattle.dir_model.specs.State.{DirState};
ghost use Rattle.dir_model.specs.declared.request.Request.{Request};
ghost use Rattle.dir_model.specs.declared.request.Reply.{Reply};
ghost use Rattle.dir_state.specs.Parts.{brings_nothing, IsBrought};
ghost use Rattle.dir_model.specs.Trace.{placed, is_mark, marked_app};

use crate::answer::shown;
use crate::listings::{kept_items, kept_names, names_in};
use crate::parts::{Brought, Table};
use crate::table::changes_names;
use crate::trees::{has_dir, has_slash, items_in};
use dir_model::{
    Area, Bytes, DirError, Inner, Items, Listed, Names, NoMemory, OpenListing, Reply, Request,
    StartedApp, TreeEntry, TreeNode,
};
use std::alloc::Global;

const MARK: &[u8] = b"started-";

const ROOTS: &[u8] = b"stage1/rootfs/opt/stage2/";

const ROOT: &[u8] = b"/rootfs";

fn placed(
    folder: Option<usize>,
    path: &Bytes,
    node: TreeNode,
) -> Result<Option<TreeEntry>, NoMemory>
    ensures { IfOk result (λ entry. entry ≡ placed folder path.now node) }
{
    match folder {
        Some(folder) => Ok(Some(TreeEntry {
            folder,
            path: path.copy()?,
            node,
        })),
        None => Ok(None),
    }
}

fn is_mark(path: &[u8]) -> bool
    ensures { result ≡ is_mark path.now }
{
    path.starts_with(MARK) && !has_slash(path)
}

fn app_root(alloc: Global, app: &[u8]) -> Result<Bytes, NoMemory>
    ensures { IfOk result (λ root. root ≡ app_root app.now) }
{
    let mut root = Vec::from_slice(alloc, ROOTS)?;
    root.extend_from_slice(app)?;
    root.extend_from_slice(ROOT)?;
    Ok(Bytes::from_vec(root))
}

fn is_run_or_later(area: Area) -> bool
    ensures { result ≡ is_run_or_later area }
{
    matches!(area, Area::Run | Area::ExitedGarbage | Area::Garbage)
}

fn marked_app(
    alloc: Global,
    folder: Option<usize>,
    path: &[u8],
) -> Result<Option<StartedApp>, NoMemory>
    ensures { IfOk result (λ app. app ≡ marked_app folder path.now) }
{
    let Some(folder) = folder else {
        return Ok(None);
    };
    if !is_mark(path) {
        return Ok(None);
    }
    Ok(Some(StartedApp {
        folder,
        root: app_root(alloc, &path[MARK.len()..])?,
    }))
}

/// Nothing: for an event that makes no entry, starts no app and begins or notes no listing.
pub fn nothing() -> Brought
    ensures { (s : DirState) (p : ℕ) (request : Request) (reply : Reply) → brings_nothing request reply ≡ true → IsBrought s p request reply result }
{
    Brought {
        entry: None,
        app: None,
        listings: None,
    }
}

impl Table {
    ghost use Rattle.std.specs.Prelude.{◌≡◌, [], option_map, IfOk, MatchOption};
    ghost use Rattle.dir_state.specs.Answers.{shown_or_refused};
    ghost use Rattle.dir_model.specs.State.{folder_at};
    ghost use Rattle.dir_model.specs.Trees.{names_in};
    ghost use Rattle.dir_model.specs.Listings.{listing_noted, noted_by, noted_all, begun_at, listing_begun};
    ghost use Rattle.dir_model.specs.Trace.{entry_made, app_started, listings_replied};
    ghost use Rattle.dir_state.specs.Parts.{table_state, namespace_of, LeavesListings, AreListings, IsBrought};

    /// The allocator.
    pub fn alloc(&self) -> Global {
        *self.trees.entries.allocator()
    }

    // Of a piece, the bytes that a reply says were added.
    fn appended(
        &self,
        inner: &Inner,
        piece: &Bytes,
        reply: &Reply,
    ) -> Result<Option<TreeEntry>, NoMemory>
        ensures { IfOk result (λ entry. entry ≡ entry_made (namespace_of self.now.namespace) (Request.AppendIn inner.now piece.now) reply.now) }
    {
        match reply {
            Reply::Done => placed(
                self.namespace.folder_at(&inner.spot),
                &inner.path,
                TreeNode::Piece(piece.copy()?),
            ),
            Reply::Refused { error: _, left } if *left > 0 => placed(
                self.namespace.folder_at(&inner.spot),
                &inner.path,
                TreeNode::Piece(first_bytes(piece, *left)?),
            ),
            _ => Ok(None),
        }
    }

    fn entry_made(&self, request: &Request, reply: &Reply) -> Result<Option<TreeEntry>, NoMemory>
        ensures { IfOk result (λ entry. entry ≡ entry_made (namespace_of self.now.namespace) request.now reply.now) }
    {
        match (request, reply) {
            (Request::MakeDirIn(inner), Reply::Done) => placed(
                self.namespace.folder_at(&inner.spot),
                &inner.path,
                TreeNode::Dir,
            ),
            (Request::MakeFileIn(inner), Reply::Done) => placed(
                self.namespace.folder_at(&inner.spot),
                &inner.path,
                TreeNode::Piece(Bytes::from_vec(Vec::new(self.alloc()))),
            ),
            (Request::AppendIn { inner, piece }, reply) => self.appended(inner, piece, reply),
            _ => Ok(None),
        }
    }

    // The app that a mark starts, in a pod that runs.
    fn app_marked(&self, inner: &Inner) -> Result<Option<StartedApp>, NoMemory>
        ensures { IfOk result (λ app. app ≡ app_started (namespace_of self.now.namespace) (Request.MakeFileIn inner.now) Reply.Done) }
    {
        if !is_run_or_later(inner.spot.area) {
            return Ok(None);
        }
        marked_app(
            self.alloc(),
            self.namespace.folder_at(&inner.spot),
            inner.path.as_slice(),
        )
    }

    fn app_started(&self, request: &Request, reply: &Reply) -> Result<Option<StartedApp>, NoMemory>
        ensures { IfOk result (λ app. app ≡ app_started (namespace_of self.now.namespace) request.now reply.now) }
    {
        match (request, reply) {
            (Request::MakeFileIn(inner), Reply::Done) => self.app_marked(inner),
            _ => Ok(None),
        }
    }

    fn noted_area(&self, area: Area, through: &Names, ever: &Names) -> Result<Listed, NoMemory>
        ensures { IfOk result (λ l. l ≡ listing_noted (table_state self.now) (Listed.Area area through.now ever.now)) }
    {
        let now = names_in(self.alloc(), &self.namespace.folders, area)?;
        let through = kept_names(self.alloc(), through.as_slice(), &now)?;
        let mut ever = ever.copy()?.into_vec();
        ever.extend_from_slice(&now)?;
        Ok(Listed::Area {
            area,
            through: Names::from_vec(through),
            ever: Names::from_vec(ever),
        })
    }

    fn noted_inside(
        &self,
        inner: &Inner,
        folder: usize,
        through: &Items,
        ever: &Items,
    ) -> Result<Listed, NoMemory>
        ensures { IfOk result (λ l. l ≡ listing_noted (table_state self.now) (Listed.Inside inner.now folder through.now ever.now)) }
    {
        let now = items_in(
            self.alloc(),
            &self.trees.entries,
            folder,
            inner.path.as_slice(),
        )?;
        let through = kept_items(self.alloc(), through.as_slice(), &now)?;
        let mut ever = ever.copy()?.into_vec();
        ever.extend_from_slice(&now)?;
        Ok(Listed::Inside {
            inner: inner.copy()?,
            folder,
            through: Items::from_vec(through),
            ever: Items::from_vec(ever),
        })
    }

    fn noted(&self, listed: &Listed) -> Result<Listed, NoMemory>
        ensures { IfOk result (λ l. l ≡ listing_noted (table_state self.now) listed.now) }
    {
        match listed {
            Listed::Area {
                area,
                through,
                ever,
            } => self.noted_area(*area, through, ever),
            Listed::Missing(inner) => Ok(Listed::Missing(inner.copy()?)),
            Listed::Inside {
                inner,
                folder,
                through,
                ever,
            } => self.noted_inside(inner, *folder, through, ever),
        }
    }

    /// The listing, with what stands now noted. Refused only where memory ran out.
    pub fn noted_by(&self, listing: &OpenListing) -> Result<OpenListing, NoMemory>
        ensures { IfOk result (λ l. l ≡ noted_by (table_state self.now) listing.now) }
    {
        Ok(OpenListing {
            process: listing.process,
            listed: self.noted(&listing.listed)?,
        })
    }

    fn noted_all(&self) -> Result<Vec<OpenListing>, NoMemory>
        ensures { IfOk result (λ ls. ls.items ≡ noted_all (table_state self.now) self.now.trees.listings.items) }
    {
        let mut all = Vec::new(self.alloc());
        'listings: for listing in &self.trees.listings {
            all.push(self.noted_by(listing)?)?;
        }
        Ok(all)
    }

    fn begun_at(&self, inner: &Inner) -> Result<Listed, NoMemory>
        ensures { IfOk result (λ l. l ≡ begun_at (table_state self.now) inner.now (folder_at (namespace_of self.now.namespace) inner.now.spot)) }
    {
        let path = inner.path.as_slice();
        match self.namespace.folder_at(&inner.spot) {
            Some(folder) if has_dir(&self.trees.entries, folder, path) => {
                let items = items_in(self.alloc(), &self.trees.entries, folder, path)?;
                Ok(Listed::Inside {
                    inner: inner.copy()?,
                    folder,
                    through: Items::from_vec(items),
                    ever: Items::from_vec(Vec::new(self.alloc())),
                })
            }
            _ => Ok(Listed::Missing(inner.copy()?)),
        }
    }

    fn begun_area(&self, area: Area) -> Result<Listed, NoMemory>
        ensures { IfOk result (λ l. l ≡ Listed.Area area (names_in area (namespace_of self.now.namespace).folders) []) }
    {
        let names = names_in(self.alloc(), &self.namespace.folders, area)?;
        Ok(Listed::Area {
            area,
            through: Names::from_vec(names),
            ever: Names::from_vec(Vec::new(self.alloc())),
        })
    }

    // The listing that begins and ends at once.
    fn whole_listing(
        &self,
        process: u32,
        request: &Request,
    ) -> Result<Option<OpenListing>, NoMemory>
        ensures { IfOk result (λ l. l ≡ option_map (noted_by (table_state self.now)) (listing_begun (table_state self.now) process request.now)) }
    {
        match self.begun(process, request)? {
            Some(listing) => Ok(Some(self.noted_by(&listing)?)),
            None => Ok(None),
        }
    }

    /// What a listing shows that begins and ends at once. Refused only where memory ran out.
    pub fn whole_answer(&self, process: u32, request: &Request) -> Result<Reply, NoMemory>
        ensures { IfOk result (λ reply. reply ≡ shown_or_refused (option_map (noted_by (table_state self.now)) (listing_begun (table_state self.now) process request.now))) }
    {
        match self.whole_listing(process, request)? {
            Some(listing) => shown(self.alloc(), &listing.listed),
            None => Ok(Reply::Refused {
                error: DirError::NoMemory,
                left: 0,
            }),
        }
    }

    fn begun(&self, process: u32, request: &Request) -> Result<Option<OpenListing>, NoMemory>
        ensures { IfOk result (λ l. l ≡ listing_begun (table_state self.now) process request.now) }
    {
        let listed = match request {
            Request::ListArea(area) => self.begun_area(*area)?,
            Request::ListIn(inner) => self.begun_at(inner)?,
            _ => return Ok(None),
        };
        Ok(Some(OpenListing { process, listed }))
    }

    fn copied(&self) -> Result<Vec<OpenListing>, NoMemory>
        ensures { IfOk result (λ ls. ls.items ≡ self.now.trees.listings.items) }
    {
        let mut all = Vec::new(self.alloc());
        'listings: for listing in &self.trees.listings {
            all.push(listing.copy()?)?;
        }
        Ok(all)
    }

    fn with_begun(&self, process: u32, request: &Request) -> Result<Vec<OpenListing>, NoMemory>
        ensures { IfOk result (λ ls. ls.items ≡ listings_replied (table_state self.now) process request.now Reply.Begun) }
    {
        let mut all = self.copied()?;
        if let Some(listing) = self.begun(process, request)? {
            all.push(listing)?;
        }
        Ok(all)
    }

    fn listings_done(
        &self,
        process: u32,
        request: &Request,
    ) -> Result<Option<Vec<OpenListing>>, NoMemory>
        ensures { IfOk result (λ o. MatchOption o (LeavesListings (table_state self.now) process request.now Reply.Done)
            (λ ls. AreListings (table_state self.now) process request.now Reply.Done ls.items)) }
    {
        if changes_names(request) {
            return Ok(Some(self.noted_all()?));
        }
        Ok(None)
    }

    fn listings_after(
        &self,
        process: u32,
        request: &Request,
        reply: &Reply,
    ) -> Result<Option<Vec<OpenListing>>, NoMemory>
        ensures { IfOk result (λ o. MatchOption o (LeavesListings (table_state self.now) process request.now reply.now)
            (λ ls. AreListings (table_state self.now) process request.now reply.now ls.items)) }
    {
        match reply {
            Reply::Done => self.listings_done(process, request),
            Reply::Begun => Ok(Some(self.with_begun(process, request)?)),
            _ => Ok(None),
        }
    }

    /// What an event brings. Refused only where memory ran out.
    pub fn bring(&self, process: u32, request: &Request, reply: &Reply) -> Result<Brought, NoMemory>
        ensures { IfOk result (IsBrought (table_state self.now) process request.now reply.now) }
    {
        Ok(Brought {
            entry: self.entry_made(request, reply)?,
            app: self.app_started(request, reply)?,
            listings: self.listings_after(process, request, reply)?,
        })
    }
}

fn first_bytes(piece: &Bytes, left: u64) -> Result<Bytes, NoMemory>
    ensures { IfOk result (λ bytes. bytes ≡ take left piece.now) }
{
    let mut bytes = piece.copy()?.into_vec();
    bytes.truncate(left as usize);
    Ok(Bytes::from_vec(bytes))
}
