// What a process knows of locks and places, as it changes.
ghost use Rattle.std.specs.Prelude.{◌≡◌, find};
ghost use Rattle.std.specs.Option.{option_copied};
ghost use Rattle.dir_rules.specs.Standing.{is_spot_of_pod, is_handle_held};

use crate::change::{
    drop_cleared, drop_held, lock_held, note_cleared, note_move, note_place, recover_all,
    uncover_all,
};
use crate::held::{
    gives_up_shared_gate, is_claim_held, is_gate_exclusive, is_gate_shared, is_number, is_own_held,
    is_own_in_prepared, target_of,
};
use crate::kind::{began_as_import, began_as_remover, draws};
use dir_model::{Area, Handle, Intent, Mode, Name, NoMemory, Reply, Request, Spot, Target, Which};
use dir_rules::Held;
use marks::{is_in, is_of, is_stage, push_front};
use std::alloc::Global;

/// What a process knows of locks and places by its own answers, as lists that change.
#[derive(Drop)]
pub struct StandingTable {
    pub intent: Option<Intent>,
    pub made: bool,
    pub embryo_under_lock: bool,
    pub holdings: Vec<Held>,
    pub moves: Vec<Spot>,
    pub seen_unowned: Vec<Spot>,
    pub seen_unowned_under_claim: Vec<Name>,
}

fn find_move<'a>(moves: &'a [Spot], name: &Name) -> Option<&'a Spot>
    ensures { option_copied result ≡ find (is_spot_of_pod name.now) moves.now }
{
    moves.iter().find(|spot| is_of(name, spot))
}

fn find_open<'a>(holdings: &'a [Held], handle: Handle) -> Option<&'a Held>
    ensures { option_copied result ≡ find (is_handle_held handle) holdings.now }
{
    holdings.iter().find(|held| is_number(handle, held))
}

impl StandingTable {
    ghost use Rattle.std.specs.Prelude.{◌≡◌, OnOk};
    ghost use Rattle.dir_rules.specs.Standing.{nothing_standing, draws, began_as, is_remover, holds_own, holds_claim, shares_area, excludes_area, is_name_among, has_place, last_move_of, find_held, looked_by, given_up, standing_done, standing_opened, standing_replied};
    ghost use Rattle.dir_rules.specs.Rules.{is_import};
    ghost use Rattle.lock_rules.specs.Tables.{table_standing};

    /// It hasn't begun. Takes no memory.
    pub fn new(alloc: Global) -> StandingTable
        ensures { table_standing result ≡ nothing_standing }
    {
        StandingTable {
            intent: None,
            made: false,
            embryo_under_lock: false,
            holdings: Vec::new(alloc),
            moves: Vec::new(alloc),
            seen_unowned: Vec::new(alloc),
            seen_unowned_under_claim: Vec::new(alloc),
        }
    }

    /// Whether the pod is the one that its intent would make.
    pub fn draws(&self, name: &Name) -> bool
        ensures { result ≡ draws name.now (table_standing self.now) }
    {
        draws(name, &self.intent)
    }

    /// Whether the process makes images.
    pub fn began_as_import(&self) -> bool
        ensures { result ≡ began_as is_import (table_standing self.now) }
    {
        began_as_import(&self.intent)
    }

    /// Whether the process removes pods.
    pub fn began_as_remover(&self) -> bool
        ensures { result ≡ began_as is_remover (table_standing self.now) }
    {
        began_as_remover(&self.intent)
    }

    /// Whether it holds the pod's own lock exclusively.
    pub fn holds_own(&self, name: &Name) -> bool
        ensures { result ≡ holds_own name.now (table_standing self.now) }
    {
        self.holdings.iter().any(|held| is_own_held(name, held))
    }

    /// Whether it holds the pod's activation lock.
    pub fn holds_claim(&self, name: &Name) -> bool
        ensures { result ≡ holds_claim name.now (table_standing self.now) }
    {
        self.holdings.iter().any(|held| is_claim_held(name, held))
    }

    /// Whether it holds the area's lock shared.
    pub fn holds_gate(&self, area: Area) -> bool
        ensures { result ≡ shares_area area (table_standing self.now) }
    {
        self.holdings.iter().any(|held| is_gate_shared(area, held))
    }

    /// Whether it holds the area's lock exclusively.
    pub fn closes_gate(&self, area: Area) -> bool
        ensures { result ≡ excludes_area area (table_standing self.now) }
    {
        self.holdings
            .iter()
            .any(|held| is_gate_exclusive(area, held))
    }

    /// Whether it had the pod's own lock shared in prepared, covered by the activation lock that it
    /// holds.
    pub fn has_cleared(&self, name: &Name) -> bool
        ensures { result ≡ is_name_among name.now (table_standing self.now).seen_unowned_under_claim }
    {
        self.seen_unowned_under_claim.iter().any(|seen_unowned_under_claim| seen_unowned_under_claim
            == name)
    }

    /// Whether it had the own lock shared that it opened there.
    pub fn has_looked(&self, name: &Name, area: Area) -> bool
        ensures { result ≡ has_place name.now area (table_standing self.now).seen_unowned }
    {
        self.seen_unowned
            .iter()
            .any(|spot| spot.name == *name && is_in(area, spot.area))
    }

    /// Where its last move of the pod led.
    pub fn last_of(&self, name: &Name) -> Option<Spot>
        ensures { result ≡ last_move_of name.now (table_standing self.now).moves }
    {
        find_move(&self.moves, name).copied()
    }

    /// What is known of an open handle.
    pub fn find_held(&self, handle: Handle) -> Option<Held>
        ensures { result ≡ find_held handle (table_standing self.now) }
    {
        find_open(&self.holdings, handle).copied()
    }

    fn note_look(&mut self, held: &Held) -> Result<(), NoMemory>
        ensures { OnOk result (table_standing self.new ≡ looked_by (Some held.now) (table_standing self.old)) }
    {
        note_place(&mut self.seen_unowned, &held.target)?;
        note_cleared(&mut self.seen_unowned_under_claim, held)
    }

    fn lock_shared(&mut self, handle: Handle) -> Result<(), NoMemory>
        ensures { OnOk result (table_standing self.new ≡ standing_done (table_standing self.old) (Request.TryLock handle Mode.Shared)) }
    {
        let held = self.find_held(handle);
        lock_held(&mut self.holdings, handle, Mode::Shared);
        match &held {
            None => Ok(()),
            Some(held) => self.note_look(held),
        }
    }

    fn lock(&mut self, handle: Handle, mode: Mode) -> Result<(), NoMemory>
        ensures { OnOk result (table_standing self.new ≡ standing_done (table_standing self.old) (Request.TryLock handle mode)) }
    {
        match mode {
            Mode::Shared => self.lock_shared(handle),
            Mode::Exclusive => {
                lock_held(&mut self.holdings, handle, Mode::Exclusive);
                Ok(())
            }
        }
    }

    fn give_up(&mut self, handle: Handle) -> Result<(), NoMemory>
        ensures { OnOk result (table_standing self.new ≡ given_up handle (table_standing self.old)) }
    {
        let before = Vec::from_slice(*self.holdings.allocator(), &self.holdings)?;
        self.embryo_under_lock = !gives_up_shared_gate(Area::Embryo, handle, &before)
            && self.embryo_under_lock;
        drop_held(&mut self.holdings, handle);
        recover_all(&mut self.holdings, handle, &before);
        drop_cleared(&mut self.seen_unowned_under_claim, handle, &before);
        Ok(())
    }

    fn make(&mut self, spot: &Spot)
        ensures { table_standing self.new ≡ standing_done (table_standing self.old) (Request.MakeFolder spot.now) }
    {
        if is_stage(spot.area) {
            self.embryo_under_lock = self.holds_gate(Area::Embryo);
            self.made = true;
        }
    }

    fn move_folder(&mut self, from: &Spot, to: &Spot) -> Result<(), NoMemory>
        ensures { OnOk result (table_standing self.new ≡ standing_done (table_standing self.old) (Request.MoveFolder from.now to.now)) }
    {
        let own = is_in(Area::Embryo, from.area) && self.draws(&from.name);
        self.embryo_under_lock = !own && self.embryo_under_lock;
        note_move(&mut self.moves, to)?;
        uncover_all(&mut self.holdings, from);
        Ok(())
    }

    fn finish(&mut self)
        ensures { table_standing self.new ≡ standing_done (table_standing self.old) Request.Finish }
    {
        self.holdings.clear();
        self.embryo_under_lock = false;
        self.seen_unowned_under_claim.clear();
    }

    fn done(&mut self, request: &Request) -> Result<(), NoMemory>
        ensures { OnOk result (table_standing self.new ≡ standing_done (table_standing self.old) request.now) }
    {
        match request {
            Request::Begin(intent) => {
                self.intent = Some(*intent);
                Ok(())
            }
            Request::MakeFolder(spot) => {
                self.make(spot);
                Ok(())
            }
            Request::MoveFolder { from, to } => self.move_folder(from, to),
            Request::TryLock { handle, mode } => self.lock(*handle, *mode),
            Request::Close(handle) => self.give_up(*handle),
            Request::Finish => {
                self.finish();
                Ok(())
            }
            _ => Ok(()),
        }
    }

    fn open(&mut self, spot: &Spot, which: Which, handle: Handle) -> Result<(), NoMemory>
        ensures { OnOk result (table_standing self.new ≡ standing_opened (table_standing self.old) (Request.Open spot.now which) handle) }
    {
        let covered = is_own_in_prepared(spot, which) && self.holds_claim(&spot.name);
        let target: Target = target_of(spot, which);
        let held = Held {
            handle,
            target,
            lock: None,
            covered,
        };
        push_front(&mut self.holdings, held)
    }

    fn open_area(&mut self, area: Area, handle: Handle) -> Result<(), NoMemory>
        ensures { OnOk result (table_standing self.new ≡ standing_opened (table_standing self.old) (Request.OpenArea area) handle) }
    {
        let target: Target = Target::Gate(area);
        let held = Held {
            handle,
            target,
            lock: None,
            covered: false,
        };
        push_front(&mut self.holdings, held)
    }

    fn opened(&mut self, request: &Request, handle: Handle) -> Result<(), NoMemory>
        ensures { OnOk result (table_standing self.new ≡ standing_opened (table_standing self.old) request.now handle) }
    {
        match request {
            Request::Open { spot, which } => self.open(spot, *which, handle),
            Request::OpenArea(area) => self.open_area(*area, handle),
            _ => Ok(()),
        }
    }

    /// A request was answered. Refused only where memory ran out.
    pub fn note(&mut self, request: &Request, reply: &Reply) -> Result<(), NoMemory>
        ensures { OnOk result (table_standing self.new ≡ standing_replied (table_standing self.old) request.now reply.now) }
    {
        match reply {
            Reply::Done => self.done(request),
            Reply::Opened(handle) => self.opened(request, *handle),
            _ => Ok(()),
        }
    }
}
