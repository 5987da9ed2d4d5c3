// What the rules on locks and places let a process ask for.
ghost use Rattle.std.specs.Prelude.{◌≡◌};
ghost use Rattle.dir_rules.specs.LockRules.{may_open};

use crate::held::{gives_up_shared_gate, is_alone, is_removal_held};
use crate::kind::{
    began_as_gc, began_as_maker, began_as_prepare, began_as_remover, began_as_run,
    began_as_run_prepared, may_close_area,
};
use crate::standing::StandingTable;
use dir_model::{Area, Handle, Mode, Name, Request, Spot, Target, Which};
use dir_rules::Held;
use marks::{is_in, is_stage};

// The activation lock is opened only in prepared.
fn may_open(spot: &Spot, which: Which) -> bool
    ensures { result ≡ may_open spot.now which }
{
    match which {
        Which::Own => true,
        Which::Claim => is_in(Area::Prepared, spot.area),
    }
}

impl StandingTable {
    ghost use Rattle.std.specs.Prelude.{◌≡◌};
    ghost use Rattle.dir_model.specs.Pods.{pod_text};
    ghost use Rattle.dir_rules.specs.Standing.{intends, holds_own};
    ghost use Rattle.dir_rules.specs.LockRules.{may_make, locks_allow_move, may_move_by_locks, may_lock_own, may_lock_gate, may_lock_target, may_lock_by, may_close, may_remove, lock_rules_allow};
    ghost use Rattle.lock_rules.specs.Tables.{table_standing};

    // A pod is made once, by its maker, with the drawn name, under the lock of embryo.
    fn may_make(&self, spot: &Spot) -> bool
        ensures { result ≡ may_make (table_standing self.now) spot.now }
    {
        (is_in(Area::Embryo, spot.area) && self.draws(&spot.name))
            && ((!self.made && began_as_maker(&self.intent)) && self.holds_gate(Area::Embryo))
    }

    fn may_leave_embryo(&self, name: &Name, to: Area) -> bool
        ensures { result ≡ locks_allow_move (table_standing self.now) name.now Area.Embryo to }
    {
        match to {
            Area::Prepare => (self.embryo_under_lock && self.draws(name)) && self.holds_own(name),
            Area::Garbage => began_as_gc(&self.intent) && self.closes_gate(Area::Embryo),
            _ => false,
        }
    }

    fn may_leave_prepare(&self, name: &Name, to: Area) -> bool
        ensures { result ≡ locks_allow_move (table_standing self.now) name.now Area.Prepare to }
    {
        match to {
            Area::Prepared => began_as_prepare(&self.intent) && self.holds_own(name),
            Area::Run => began_as_run(&self.intent) && self.holds_own(name),
            Area::Garbage => {
                began_as_remover(&self.intent) && self.has_looked(name, Area::Prepare)
            }
            _ => false,
        }
    }

    fn may_leave_prepared(&self, name: &Name, to: Area) -> bool
        ensures { result ≡ locks_allow_move (table_standing self.now) name.now Area.Prepared to }
    {
        match to {
            Area::Run => {
                began_as_run_prepared(&self.intent)
                    && (self.holds_own(name) && self.holds_claim(name))
            }
            Area::Garbage => began_as_remover(&self.intent) && self.has_cleared(name),
            _ => false,
        }
    }

    fn may_leave_run(&self, name: &Name, to: Area) -> bool
        ensures { result ≡ locks_allow_move (table_standing self.now) name.now Area.Run to }
    {
        match to {
            Area::ExitedGarbage => {
                began_as_remover(&self.intent) && self.has_looked(name, Area::Run)
            }
            _ => false,
        }
    }

    fn may_move_between(&self, name: &Name, from: Area, to: Area) -> bool
        ensures { result ≡ locks_allow_move (table_standing self.now) name.now from to }
    {
        match from {
            Area::Embryo => self.may_leave_embryo(name, to),
            Area::Prepare => self.may_leave_prepare(name, to),
            Area::Prepared => self.may_leave_prepared(name, to),
            Area::Run => self.may_leave_run(name, to),
            _ => false,
        }
    }

    // A pod keeps its name, and stays among the places of pods.
    fn may_move(&self, from: &Spot, to: &Spot) -> bool
        ensures { result ≡ may_move_by_locks (table_standing self.now) from.now to.now }
    {
        if is_stage(from.area) || is_stage(to.area) {
            return from.name == to.name && self.may_move_between(&from.name, from.area, to.area);
        }
        true
    }

    fn may_take_own(&self, covered: bool, name: &Name, area: Area) -> bool
        ensures { result ≡ may_lock_own (table_standing self.now) covered name.now area Mode.Exclusive }
    {
        match area {
            Area::Embryo => self.embryo_under_lock && self.draws(name),
            Area::Prepared => began_as_run_prepared(&self.intent) && covered,
            Area::ExitedGarbage => began_as_remover(&self.intent),
            Area::Garbage => began_as_remover(&self.intent),
            _ => false,
        }
    }

    fn may_share_own(&self, covered: bool, name: &Name, area: Area) -> bool
        ensures { result ≡ may_lock_own (table_standing self.now) covered name.now area Mode.Shared }
    {
        match area {
            Area::Prepare => true,
            Area::Prepared => began_as_remover(&self.intent) && covered,
            Area::Run => true,
            Area::ExitedGarbage => true,
            Area::Garbage => true,
            _ => false,
        }
    }

    fn may_lock_own(&self, covered: bool, spot: &Spot, mode: Mode) -> bool
        ensures { result ≡ may_lock_own (table_standing self.now) covered spot.now.name spot.now.area mode }
    {
        match mode {
            Mode::Shared => self.may_share_own(covered, &spot.name, spot.area),
            Mode::Exclusive => self.may_take_own(covered, &spot.name, spot.area),
        }
    }

    fn may_lock_gate(&self, area: Area, mode: Mode) -> bool
        ensures { result ≡ may_lock_gate (table_standing self.now) area mode }
    {
        match mode {
            Mode::Shared => true,
            Mode::Exclusive => may_close_area(&self.intent, area),
        }
    }

    fn may_lock_target(&self, covered: bool, target: &Target, mode: Mode) -> bool
        ensures { result ≡ may_lock_target (table_standing self.now) covered target.now mode }
    {
        match target {
            Target::Own(spot) => self.may_lock_own(covered, spot, mode),
            Target::Claim(_) => matches!(mode, Mode::Exclusive),
            Target::Gate(area) => self.may_lock_gate(*area, mode),
        }
    }

    fn may_lock_by(&self, held: &Option<Held>, mode: Mode) -> bool
        ensures { result ≡ may_lock_by (table_standing self.now) held.now mode }
    {
        match held {
            None => false,
            Some(held) => {
                held.lock.is_none()
                    && (is_alone(held, &self.holdings)
                        && self.may_lock_target(held.covered, &held.target, mode))
            }
        }
    }

    // Whether it holds the own lock of the pod that it would make.
    fn holds_drawn(&self) -> bool
        ensures { result ≡ intends (λ i. holds_own (pod_text i.draw.bytes) (table_standing self.now)) self.now.intent }
    {
        match &self.intent {
            None => false,
            Some(intent) => self.holds_own(&intent.draw.name()),
        }
    }

    // The lock of embryo over a pod that it made isn't given up while it holds that pod's own lock.
    fn may_close(&self, handle: Handle) -> bool
        ensures { result ≡ may_close (table_standing self.now) handle }
    {
        !((gives_up_shared_gate(Area::Embryo, handle, &self.holdings) && self.embryo_under_lock)
            && self.holds_drawn())
    }

    /// Whether it holds the lock that a removal at this spot needs.
    pub fn may_remove(&self, spot: &Spot) -> bool
        ensures { result ≡ may_remove (table_standing self.now) spot.now }
    {
        self.holdings.iter().any(|held| is_removal_held(spot, held))
    }

    /// Whether the rules on locks and places allow the request.
    pub fn may_ask(&self, request: &Request) -> bool
        ensures { result ≡ lock_rules_allow (table_standing self.now) request.now }
    {
        match request {
            Request::MakeFolder(spot) => !is_stage(spot.area) || self.may_make(spot),
            Request::MoveFolder { from, to } => self.may_move(from, to),
            Request::Open { spot, which } => may_open(spot, *which),
            Request::TryLock { handle, mode } => self.may_lock_by(&self.find_held(*handle), *mode),
            Request::Close(handle) => self.may_close(*handle),
            Request::RemoveFolder(spot) => self.may_remove(spot),
            Request::RemoveFileIn(inner) => self.may_remove(&inner.spot),
            Request::RemoveDirIn(inner) => self.may_remove(&inner.spot),
            _ => true,
        }
    }
}
