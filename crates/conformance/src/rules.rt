// What the rules on contents, and on the store and the removals, let a process ask for.
ghost use Rattle.std.specs.Prelude.{◌≡◌, bytes_eq, not};
ghost use Rattle.std.specs.List.{list_any};
ghost use Rattle.dir_model.specs.State.{spot_eq};
ghost use Rattle.dir_rules.specs.Marks.{created_mark};
ghost use Rattle.dir_rules.specs.Standing.{intends};
ghost use Rattle.dir_rules.specs.Rules.{is_deleting, keeps_name, is_file_item, is_item_shown};

use crate::asked::asks_for;
use crate::making::{
    has_all_done, has_file, has_made_file, has_made_none, has_to_sync, has_whole_pod, is_new_path,
    makes_at,
};
use crate::seen::is_own_mark;
use crate::shown::{is_item_at, stands_in};
use crate::table::{MakingTable, SeenTable};
use dir_model::{Area, Inner, Intent, ItemKind, Name, Request, Spot};
use dir_rules::{Entry, Held, ShownItem};
use lock_rules::{area_of, is_own_held};
use marks::{
    is_empty, is_garbage, is_in, is_mark, is_stage, is_started_mark, is_status_file, same_inner,
    same_spot,
};

fn is_deleting(name: &Name, held: &Held) -> bool
    ensures { result ≡ is_deleting name.now held.now }
{
    is_own_held(name, held) && is_garbage(area_of(&held.target))
}

fn keeps_name(from: Area, to: Area) -> bool
    ensures { result ≡ keeps_name from to }
{
    match from {
        Area::Images => false,
        _ => match to {
            Area::Images => false,
            _ => true,
        },
    }
}

fn is_file_item(kind: ItemKind) -> bool
    ensures { result ≡ is_file_item kind }
{
    match kind {
        ItemKind::Dir => false,
        _ => true,
    }
}

fn shows_file(inner: &Inner, items: &[ShownItem]) -> bool
    ensures { result ≡ is_item_shown is_file_item inner.now items.now }
{
    items
        .iter()
        .any(|item| is_item_at(inner, item) && is_file_item(item.kind))
}

fn shows_dir(inner: &Inner, items: &[ShownItem]) -> bool
    ensures { result ≡ is_item_shown (λ k. not (is_file_item k)) inner.now items.now }
{
    items
        .iter()
        .any(|item| is_item_at(inner, item) && !is_file_item(item.kind))
}

// Whether it is the created- mark of the process's own moment.
fn is_own_created(intent: &Option<Intent>, path: &[u8]) -> bool
    ensures { result ≡ intends (λ i. bytes_eq path.now (created_mark i.now)) intent.now }
{
    match intent {
        None => false,
        Some(intent) => is_mark(b"created-", u128::from(intent.now), path),
    }
}

fn has_spot(spot: &Spot, spots: &[Spot]) -> bool
    ensures { result ≡ list_any (spot_eq spot.now) spots.now }
{
    spots.iter().any(|other| same_spot(spot, other))
}

impl SeenTable {
    ghost use Rattle.std.specs.Prelude.{◌≡◌};
    ghost use Rattle.dir_rules.specs.Standing.{is_in, last_move_of};
    ghost use Rattle.dir_rules.specs.LockRules.{on_spot};
    ghost use Rattle.dir_rules.specs.Seen.{inner_eq, makes_at, is_item_in};
    ghost use Rattle.dir_rules.specs.Rules.{runs, deletes, of_making, may_make_in, has_done, is_whole_pod, is_all_done, has_asked_for_removal, contents_allow_move, may_move_by_contents, may_read_area, makes_here, is_in_order, may_make_entry, may_make_dir, has_note, may_note, may_mark, may_make_file_in, may_append_in, may_sync_in, spares_deleted_pod, is_emptied, may_remove_file, may_remove_dir, content_rules_allow, allows};
    ghost use Rattle.conformance.specs.Tables.{table_making, table_seen};

    fn is_moved_to_run(&self, name: &Name) -> bool
        ensures { result ≡ on_spot (λ spot. is_in Area.Run spot.area) (last_move_of name.now (table_seen self.now).standing.moves) }
    {
        match self.standing.last_of(name) {
            None => false,
            Some(spot) => is_in(Area::Run, spot.area),
        }
    }

    fn runs(&self, name: &Name) -> bool
        ensures { result ≡ runs (table_seen self.now) name.now }
    {
        self.standing.holds_own(name) && self.is_moved_to_run(name)
    }

    fn deletes(&self, name: &Name) -> bool
        ensures { result ≡ deletes (table_seen self.now) name.now }
    {
        self.standing
            .holdings
            .iter()
            .any(|held| is_deleting(name, held))
    }

    // A folder is made once: a pod in embryo, or an image in incoming, named by the draw.
    fn may_make_in(&self, name: &Name, area: Area) -> bool
        ensures { result ≡ may_make_in (table_seen self.now) name.now area }
    {
        match area {
            Area::Embryo => has_made_none(&self.contents.making),
            Area::Incoming => {
                (self.standing.began_as_import() && self.standing.holds_gate(Area::Incoming))
                    && (self.standing.draws(name) && has_made_none(&self.contents.making))
            }
            _ => false,
        }
    }

    fn makes_at(&self, spot: &Spot) -> bool
        ensures { result ≡ makes_at (table_seen self.now).making spot.now }
    {
        makes_at(&self.contents.making, spot)
    }

    fn has_pod_done(&self, spot: &Spot) -> bool
        ensures { result ≡ has_done is_whole_pod (table_seen self.now) spot.now }
    {
        self.makes_at(spot) && has_whole_pod(&self.contents.making)
    }

    fn has_image_done(&self, spot: &Spot) -> bool
        ensures { result ≡ has_done is_all_done (table_seen self.now) spot.now }
    {
        self.makes_at(spot) && has_all_done(&self.contents.making)
    }

    fn is_asked(&self, name: &Name) -> bool
        ensures { result ≡ has_asked_for_removal (table_seen self.now) name.now }
    {
        asks_for(&self.standing.intent, &self.contents.created, name)
    }

    fn may_leave_embryo(&self, from: &Spot, to: &Spot, area: Area) -> bool
        ensures { result ≡ contents_allow_move (table_seen self.now) from.now to.now Area.Embryo area }
    {
        match area {
            Area::Prepare => self.makes_at(from),
            Area::Garbage => true,
            _ => false,
        }
    }

    fn may_leave_prepare(&self, from: &Spot, to: &Spot, area: Area) -> bool
        ensures { result ≡ contents_allow_move (table_seen self.now) from.now to.now Area.Prepare area }
    {
        match area {
            Area::Prepared => self.has_pod_done(from),
            Area::Run => self.has_pod_done(from),
            Area::Garbage => true,
            _ => false,
        }
    }

    fn may_leave_prepared(&self, from: &Spot, to: &Spot, area: Area) -> bool
        ensures { result ≡ contents_allow_move (table_seen self.now) from.now to.now Area.Prepared area }
    {
        match area {
            Area::Run => true,
            Area::Garbage => self.is_asked(&from.name),
            _ => false,
        }
    }

    fn may_leave_run(&self, from: &Spot, to: &Spot, area: Area) -> bool
        ensures { result ≡ contents_allow_move (table_seen self.now) from.now to.now Area.Run area }
    {
        match area {
            Area::ExitedGarbage => has_spot(from, &self.contents.marked),
            _ => false,
        }
    }

    fn may_leave_incoming(&self, from: &Spot, to: &Spot, area: Area) -> bool
        ensures { result ≡ contents_allow_move (table_seen self.now) from.now to.now Area.Incoming area }
    {
        match area {
            Area::Images => self.has_image_done(from) && self.contents.image_under_lock,
            Area::Removed => self.standing.closes_gate(Area::Incoming),
            _ => false,
        }
    }

    fn may_leave_images(&self, from: &Spot, to: &Spot, area: Area) -> bool
        ensures { result ≡ contents_allow_move (table_seen self.now) from.now to.now Area.Images area }
    {
        match area {
            Area::Removed => {
                self.standing.closes_gate(Area::Images)
                    && (self.standing.draws(&to.name) && !has_spot(to, &self.contents.put_away))
            }
            _ => false,
        }
    }

    fn may_bring_between(&self, from: &Spot, to: &Spot) -> bool
        ensures { result ≡ contents_allow_move (table_seen self.now) from.now to.now from.now.area to.now.area }
    {
        match from.area {
            Area::Embryo => self.may_leave_embryo(from, to, to.area),
            Area::Prepare => self.may_leave_prepare(from, to, to.area),
            Area::Prepared => self.may_leave_prepared(from, to, to.area),
            Area::Run => self.may_leave_run(from, to, to.area),
            Area::Incoming => self.may_leave_incoming(from, to, to.area),
            Area::Images => self.may_leave_images(from, to, to.area),
            _ => false,
        }
    }

    // Only what goes into images or out of it gets another name.
    fn may_bring(&self, from: &Spot, to: &Spot) -> bool
        ensures { result ≡ may_move_by_contents (table_seen self.now) from.now to.now }
    {
        self.may_bring_between(from, to)
            && ((!keeps_name(from.area, to.area) || from.name == to.name)
                && !(is_stage(from.area) && self.deletes(&from.name)))
    }

    // Images are listed and read only under their lock.
    fn may_look(&self, area: Area) -> bool
        ensures { result ≡ may_read_area (table_seen self.now) area }
    {
        match area {
            Area::Images => {
                self.standing.holds_gate(Area::Images) || self.standing.closes_gate(Area::Images)
            }
            _ => true,
        }
    }

    // Where a folder is changed by its maker.
    fn makes_here(&self, spot: &Spot, area: Area) -> bool
        ensures { result ≡ makes_here (table_seen self.now) spot.now area }
    {
        match area {
            Area::Prepare => self.makes_at(spot) && self.standing.holds_own(&spot.name),
            Area::Incoming => self.makes_at(spot) && self.contents.image_under_lock,
            _ => false,
        }
    }

    // In a pod the created- mark comes first, and pod is the last file.
    fn in_order(&self, area: Area, file: bool, path: &[u8], entries: &[Entry]) -> bool
        ensures { result ≡ is_in_order (table_seen self.now) area file path.now entries.now }
    {
        match area {
            Area::Prepare => {
                (!is_empty(entries) || (file && is_own_created(&self.standing.intent, path)))
                    && !(file && has_file(b"pod", entries))
            }
            _ => true,
        }
    }

    fn may_make_entry(&self, file: bool, inner: &Inner, making: &MakingTable) -> bool
        ensures { result ≡ may_make_entry (table_seen self.now) file inner.now (table_making making.now) }
    {
        let path = inner.path.as_slice();
        is_new_path(path, &making.entries)
            && self.in_order(inner.spot.area, file, path, &making.entries)
    }

    fn may_make(&self, file: bool, inner: &Inner) -> bool
        ensures { result ≡ of_making (may_make_entry (table_seen self.now) file inner.now) (table_seen self.now).making }
    {
        match &self.contents.making {
            None => false,
            Some(making) => self.may_make_entry(file, inner, making),
        }
    }

    fn may_make_dir(&self, inner: &Inner) -> bool
        ensures { result ≡ may_make_dir (table_seen self.now) inner.now }
    {
        self.makes_here(&inner.spot, inner.spot.area) && self.may_make(false, inner)
    }

    // Whether it made the file in a pod in run.
    fn has_note(&self, inner: &Inner) -> bool
        ensures { result ≡ has_note (table_seen self.now) inner.now }
    {
        self.contents
            .notes
            .iter()
            .any(|note| same_inner(inner, note))
    }

    fn may_note(&self, inner: &Inner) -> bool
        ensures { result ≡ may_note (table_seen self.now) inner.now }
    {
        let path = inner.path.as_slice();
        self.runs(&inner.spot.name)
            && ((is_started_mark(path) || is_status_file(path)) && !self.has_note(inner))
    }

    fn may_mark(&self, inner: &Inner) -> bool
        ensures { result ≡ may_mark (table_seen self.now) inner.now }
    {
        self.standing.began_as_remover()
            && (is_own_mark(&self.standing.intent, inner.path.as_slice())
                && self.standing.has_looked(&inner.spot.name, inner.spot.area))
    }

    fn may_make_file_in(&self, inner: &Inner, area: Area) -> bool
        ensures { result ≡ may_make_file_in (table_seen self.now) inner.now area }
    {
        match area {
            Area::Run => self.may_note(inner) || self.may_mark(inner),
            _ => self.makes_here(&inner.spot, area) && self.may_make(true, inner),
        }
    }

    fn may_append_in(&self, inner: &Inner, area: Area) -> bool
        ensures { result ≡ may_append_in (table_seen self.now) inner.now area }
    {
        let path = inner.path.as_slice();
        match area {
            Area::Run => {
                self.runs(&inner.spot.name) && (is_status_file(path) && self.has_note(inner))
            }
            _ => {
                self.makes_here(&inner.spot, area) && has_made_file(path, &self.contents.making)
            }
        }
    }

    fn may_sync_in(&self, inner: &Inner, area: Area) -> bool
        ensures { result ≡ may_sync_in (table_seen self.now) inner.now area }
    {
        match area {
            Area::Run => {
                self.runs(&inner.spot.name)
                    && (is_empty(inner.path.as_slice()) || self.has_note(inner))
            }
            _ => { self.makes_here(&inner.spot, area) && has_to_sync(inner, &self.contents.making) }
        }
    }

    // A pod that it deletes isn't changed otherwise.
    fn spares(&self, inner: &Inner) -> bool
        ensures { result ≡ spares_deleted_pod (table_seen self.now) inner.now }
    {
        !(is_stage(inner.spot.area) && self.deletes(&inner.spot.name))
    }

    fn has_listed(&self, spot: &Spot, path: &[u8]) -> bool
        ensures { result ≡ list_any (inner_eq (record { spot = spot.now; path = path.now })) (table_seen self.now).listed }
    {
        self.contents.listed.iter().any(|other| same_spot(spot, &other.spot)
            && path == other.path.as_slice())
    }

    fn has_shown(&self, spot: &Spot, path: &[u8]) -> bool
        ensures { result ≡ list_any (is_item_in (record { spot = spot.now; path = path.now })) (table_seen self.now).items }
    {
        self.contents
            .items
            .iter()
            .any(|item| stands_in(spot, path, item))
    }

    // The directory was listed, and everything that its last listing showed was removed.
    fn is_emptied(&self, spot: &Spot, path: &[u8]) -> bool
        ensures { result ≡ is_emptied (table_seen self.now) (record { spot = spot.now; path = path.now }) }
    {
        self.has_listed(spot, path) && !self.has_shown(spot, path)
    }

    fn may_remove_file(&self, inner: &Inner) -> bool
        ensures { result ≡ may_remove_file (table_seen self.now) inner.now }
    {
        shows_file(inner, &self.contents.items)
    }

    fn may_remove_dir(&self, inner: &Inner) -> bool
        ensures { result ≡ may_remove_dir (table_seen self.now) inner.now }
    {
        shows_dir(inner, &self.contents.items)
            && self.is_emptied(&inner.spot, inner.path.as_slice())
    }

    fn may_change(&self, request: &Request) -> bool
        ensures { result ≡ content_rules_allow (table_seen self.now) request.now }
    {
        match request {
            Request::MakeFolder(spot) => self.may_make_in(&spot.name, spot.area),
            Request::MoveFolder { from, to } => self.may_bring(from, to),
            Request::ListArea(area) => self.may_look(*area),
            Request::ListIn(inner) => self.may_look(inner.spot.area),
            Request::MakeDirIn(inner) => self.may_make_dir(inner) && self.spares(inner),
            Request::MakeFileIn(inner) => {
                self.may_make_file_in(inner, inner.spot.area) && self.spares(inner)
            }
            Request::AppendIn { inner, piece: _ } => {
                self.may_append_in(inner, inner.spot.area) && self.spares(inner)
            }
            Request::ReadIn {
                inner,
                at: _,
                room: _,
            } => self.may_look(inner.spot.area),
            Request::SyncIn(inner) => {
                self.may_sync_in(inner, inner.spot.area) && self.spares(inner)
            }
            Request::RemoveFileIn(inner) => self.may_remove_file(inner),
            Request::RemoveDirIn(inner) => self.may_remove_dir(inner),
            Request::RemoveFolder(spot) => self.is_emptied(spot, &[]),
            _ => true,
        }
    }

    /// Whether the local rules allow the request.
    pub fn allows(&self, request: &Request) -> bool
        ensures { result ≡ allows (table_seen self.now) request.now }
    {
        self.standing.may_ask(request) && self.may_change(request)
    }
}
