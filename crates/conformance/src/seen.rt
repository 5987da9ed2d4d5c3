// What a process learns from its answers.
ghost use Rattle.std.specs.Prelude.{◌≡◌, ◌&&◌, not, filter, OnOk};
ghost use Rattle.dir_model.specs.State.{spot_eq};
ghost use Rattle.dir_rules.specs.Standing.{is_in, has_place};
ghost use Rattle.dir_rules.specs.Seen.{is_own_mark, is_exists, with_mark, with_note, put_in};

use crate::making::{move_making, note_dir, note_piece, note_sync, spoil};
use crate::shown::{
    drop_item, forget_items, forget_listed, keep_known, keep_listed, keep_shown, move_all_away,
    note_created, note_items, note_names,
};
use crate::table::{ContentsTable, MakingTable};
use dir_model::{
    Area, DirError, Handle, Inner, Intent, Item, Names, NoMemory, Reply, Request, Spot,
};
use lock_rules::{StandingTable, gives_up_shared_gate};
use marks::{is_in, is_mark, parent, push_front, same_spot};
use std::alloc::Global;

/// Whether it is the mark of the process's own moment.
pub fn is_own_mark(intent: &Option<Intent>, path: &[u8]) -> bool
    ensures { result ≡ is_own_mark intent.now path.now }
{
    match intent {
        None => false,
        Some(intent) => is_mark(b"marked-", u128::from(intent.now), path),
    }
}

fn is_exists(error: DirError) -> bool
    ensures { result ≡ is_exists error }
{
    matches!(error, DirError::Exists)
}

// Whether it is the process's own mark in a pod in run, whose own lock it had shared.
fn is_marking(standing: &StandingTable, inner: &Inner) -> bool
    ensures { result ≡ ((is_in inner.now.spot.area Area.Run && is_own_mark standing.now.intent inner.now.path) && has_place inner.now.spot.name inner.now.spot.area standing.now.seen_unowned.items) }
{
    is_in(inner.spot.area, Area::Run)
        && is_own_mark(&standing.intent, inner.path.as_slice())
        && standing.has_looked(&inner.spot.name, inner.spot.area)
}

fn note_mark(marked: &mut Vec<Spot>, marks: bool, spot: &Spot) -> Result<(), NoMemory>
    ensures { OnOk result (marked.new.items ≡ with_mark marks spot.now marked.old.items) }
{
    if marks {
        return push_front(marked, *spot);
    }
    Ok(())
}

fn note_file(notes: &mut Vec<Inner>, inner: &Inner) -> Result<(), NoMemory>
    ensures { OnOk result (notes.new.items ≡ with_note inner.now notes.old.items) }
{
    if is_in(inner.spot.area, Area::Run) {
        return push_front(notes, inner.copy()?);
    }
    Ok(())
}

fn put_in(put_away: &mut Vec<Spot>, to: &Spot) -> Result<(), NoMemory>
    ensures { OnOk result (put_away.new.items ≡ put_in to.now put_away.old.items) }
{
    if is_in(to.area, Area::Removed) {
        return push_front(put_away, *to);
    }
    Ok(())
}

fn drop_put_away(put_away: &mut Vec<Spot>, spot: &Spot)
    ensures { put_away.new.items ≡ filter (λ p. not (spot_eq p spot.now)) put_away.old.items }
{
    put_away.retain(|put| !same_spot(put, spot))
}

impl ContentsTable {
    ghost use Rattle.std.specs.Prelude.{◌≡◌, ◌∷◌, cond, OnOk};
    ghost use Rattle.dir_rules.specs.LockRules.{may_remove};
    ghost use Rattle.lock_rules.specs.declared.standing.StandingTable.{StandingTable};
    ghost use Rattle.dir_rules.specs.Seen.{closed, folder_made, folder_moved, file_made, file_refused, seen_after_listing, area_listed, item_removed, folder_removed, learned_done, learned_refused, learned_items, learned_names, learned};
    ghost use Rattle.conformance.specs.Tables.{seen_with};

    fn alloc(&self) -> Global {
        *self.marked.allocator()
    }

    fn close(&mut self, standing: &StandingTable, handle: Handle)
        ensures { seen_with standing.now self.new ≡ closed (seen_with standing.now self.old) handle }
    {
        let gives_up = gives_up_shared_gate(Area::Incoming, handle, &standing.holdings);
        self.image_under_lock = !gives_up && self.image_under_lock;
        keep_listed(&mut self.listed, handle, &standing.holdings);
        keep_shown(&mut self.items, handle, &standing.holdings);
        keep_known(&mut self.areas, handle, &standing.holdings);
    }

    fn make_folder(&mut self, standing: &StandingTable, spot: &Spot)
        ensures { seen_with standing.now self.new ≡ folder_made (seen_with standing.now self.old) spot.now }
    {
        let alloc = self.alloc();
        self.image_under_lock = is_in(Area::Incoming, spot.area)
            && standing.holds_gate(Area::Incoming);
        self.making = Some(MakingTable {
            spot: *spot,
            clean: true,
            entries: Vec::new(alloc),
            unsynced: Vec::new(alloc),
        });
    }

    fn move_folder(&mut self, from: &Spot, to: &Spot) -> Result<(), NoMemory>
        ensures { OnOk result ((s : StandingTable) → seen_with s self.new ≡ folder_moved (seen_with s self.old) from.now to.now) }
    {
        let alloc = self.alloc();
        self.image_under_lock = !is_in(Area::Incoming, from.area) && self.image_under_lock;
        forget_listed(&mut self.listed, to);
        forget_items(&mut self.items, to);
        move_all_away(&mut self.areas, alloc, from);
        move_making(&mut self.making, from, to);
        put_in(&mut self.put_away, to)
    }

    fn make_file(&mut self, standing: &StandingTable, inner: &Inner) -> Result<(), NoMemory>
        ensures { OnOk result (seen_with standing.now self.new ≡ file_made (seen_with standing.now self.old) inner.now) }
    {
        let marks = is_marking(standing, inner);
        note_mark(&mut self.marked, marks, &inner.spot)?;
        note_file(&mut self.notes, inner)?;
        note_piece(&mut self.making, inner, &[], parent(inner.path.as_slice()))
    }

    fn append(&mut self, inner: &Inner, piece: &[u8]) -> Result<(), NoMemory>
        ensures { OnOk result ((s : StandingTable) → seen_with s self.new ≡ learned_done (seen_with s self.old) (Request.AppendIn inner.now piece.now)) }
    {
        note_piece(&mut self.making, inner, piece, inner.path.as_slice())
    }

    fn refuse_file(
        &mut self,
        standing: &StandingTable,
        inner: &Inner,
        error: DirError,
    ) -> Result<(), NoMemory>
        ensures { OnOk result (seen_with standing.now self.new ≡ learned_refused (seen_with standing.now self.old) (Request.MakeFileIn inner.now) error) }
    {
        let marks = is_marking(standing, inner) && is_exists(error);
        spoil(&mut self.making, &inner.spot);
        note_mark(&mut self.marked, marks, &inner.spot)
    }

    fn list(
        &mut self,
        standing: &StandingTable,
        inner: &Inner,
        items: &[Item],
    ) -> Result<(), NoMemory>
        ensures { OnOk result (seen_with standing.now self.new ≡ seen_after_listing (seen_with standing.now self.old) inner.now items.now) }
    {
        note_created(&mut self.created, inner, items)?;
        if !standing.may_remove(&inner.spot) {
            return Ok(());
        }
        push_front(&mut self.listed, inner.copy()?)?;
        note_items(&mut self.items, inner, items)
    }

    fn list_area(
        &mut self,
        standing: &StandingTable,
        area: Area,
        names: &Names,
    ) -> Result<(), NoMemory>
        ensures { OnOk result (seen_with standing.now self.new ≡ area_listed (seen_with standing.now self.old) area names.now) }
    {
        if standing.closes_gate(area) {
            return note_names(&mut self.areas, area, names);
        }
        Ok(())
    }

    fn remove_folder(&mut self, spot: &Spot)
        ensures { (s : StandingTable) → seen_with s self.new ≡ folder_removed (seen_with s self.old) spot.now }
    {
        forget_listed(&mut self.listed, spot);
        forget_items(&mut self.items, spot);
        let alloc = self.alloc();
        move_all_away(&mut self.areas, alloc, spot);
        drop_put_away(&mut self.put_away, spot);
    }

    fn finish(&mut self)
        ensures { (s : StandingTable) → seen_with s self.new ≡ learned_done (seen_with s self.old) Request.Finish }
    {
        self.image_under_lock = false;
        self.listed.clear();
        self.items.clear();
        self.areas.clear();
    }

    fn done(&mut self, standing: &StandingTable, request: &Request) -> Result<(), NoMemory>
        ensures { OnOk result (seen_with standing.now self.new ≡ learned_done (seen_with standing.now self.old) request.now) }
    {
        match request {
            Request::MakeFolder(spot) => self.make_folder(standing, spot),
            Request::MoveFolder { from, to } => return self.move_folder(from, to),
            Request::Close(handle) => self.close(standing, *handle),
            Request::MakeDirIn(inner) => return note_dir(&mut self.making, inner),
            Request::MakeFileIn(inner) => return self.make_file(standing, inner),
            Request::AppendIn { inner, piece } => {
                return self.append(inner, piece.as_slice());
            }
            Request::SyncIn(inner) => note_sync(&mut self.making, inner),
            Request::RemoveFileIn(inner) => drop_item(&mut self.items, inner),
            Request::RemoveDirIn(inner) => drop_item(&mut self.items, inner),
            Request::RemoveFolder(spot) => self.remove_folder(spot),
            Request::Finish => self.finish(),
            _ => (),
        }
        Ok(())
    }

    fn refused(
        &mut self,
        standing: &StandingTable,
        request: &Request,
        error: DirError,
    ) -> Result<(), NoMemory>
        ensures { OnOk result (seen_with standing.now self.new ≡ learned_refused (seen_with standing.now self.old) request.now error) }
    {
        match request {
            Request::MakeDirIn(inner) => spoil(&mut self.making, &inner.spot),
            Request::MakeFileIn(inner) => return self.refuse_file(standing, inner, error),
            Request::AppendIn { inner, piece: _ } => spoil(&mut self.making, &inner.spot),
            Request::SyncIn(inner) => spoil(&mut self.making, &inner.spot),
            _ => (),
        }
        Ok(())
    }

    /// What a reply tells beside what stands and is held. Refused only where memory ran out.
    pub fn learn(
        &mut self,
        standing: &StandingTable,
        request: &Request,
        reply: &Reply,
    ) -> Result<(), NoMemory>
        ensures { OnOk result (seen_with standing.now self.new ≡ learned (seen_with standing.now self.old) request.now reply.now) }
    {
        match (reply, request) {
            (Reply::Done, _) => self.done(standing, request),
            (Reply::Names(names), Request::ListArea(area)) => {
                self.list_area(standing, *area, names)
            }
            (Reply::Items(items), Request::ListIn(inner)) => {
                self.list(standing, inner, items.as_slice())
            }
            (Reply::Refused { error, left: _ }, _) => self.refused(standing, request, *error),
            _ => Ok(()),
        }
    }
}
