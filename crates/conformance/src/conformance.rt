// Whether a process kept the local rules.
ghost use Rattle.std.specs.Prelude.{◌≡◌, IfOk};
ghost use Rattle.dir_model.specs.Calls.{is_kill};
ghost use Rattle.dir_rules.specs.Conforms.{seen_of};

use crate::table::{ContentsTable, SeenTable};
use dir_model::{Event, History, NoMemory, Reply, Request};
use lock_rules::StandingTable;
use std::alloc::Global;

fn is_kill(request: &Request) -> bool
    ensures { result ≡ is_kill request.now }
{
    matches!(request, Request::Kill)
}

impl SeenTable {
    ghost use Rattle.std.specs.Prelude.{◌≡◌, OnOk};
    ghost use Rattle.dir_rules.specs.Conforms.{nothing_seen, seen_replied, seen_after_event};
    ghost use Rattle.conformance.specs.Tables.{table_seen};

    fn new(alloc: Global) -> SeenTable
        ensures { table_seen result ≡ nothing_seen }
    {
        SeenTable {
            standing: StandingTable::new(alloc),
            contents: ContentsTable {
                making: None,
                image_under_lock: false,
                created: Vec::new(alloc),
                marked: Vec::new(alloc),
                notes: Vec::new(alloc),
                put_away: Vec::new(alloc),
                listed: Vec::new(alloc),
                items: Vec::new(alloc),
                areas: Vec::new(alloc),
                kept: true,
            },
        }
    }

    // One request more: what its reply tells, and whether it was allowed.
    fn replied(&mut self, request: &Request, reply: &Reply) -> Result<(), NoMemory>
        ensures { OnOk result (table_seen self.new ≡ seen_replied (table_seen self.old) request.now reply.now) }
    {
        let kept = self.allows(request) && self.contents.kept;
        self.contents.learn(&self.standing, request, reply)?;
        self.contents.kept = kept;
        self.standing.note(request, reply)
    }

    // The events of others aren't seen, nor its own kill.
    fn saw(&mut self, me: u32, event: &Event) -> Result<(), NoMemory>
        ensures { OnOk result (table_seen self.new ≡ seen_after_event me (table_seen self.old) event.now) }
    {
        if event.process != me || is_kill(&event.request) {
            return Ok(());
        }
        self.replied(&event.request, &event.reply)
    }
}

/// Whether the requests of this process in the history were each allowed by the local rules. Refused
/// only where memory ran out.
pub fn keeps_rules(alloc: Global, history: &History, process: u32) -> Result<bool, NoMemory>
    ensures { IfOk result (λ kept. kept ≡ (seen_of process history.now.items).kept) }
{
    let mut seen = SeenTable::new(alloc);
    'events: for event in history.as_slice() {
        seen.saw(process, event)?;
    }
    Ok(seen.contents.kept)
}
