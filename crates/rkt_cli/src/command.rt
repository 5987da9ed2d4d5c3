// What a line says, done: a command performed, or the demo played.
ghost use Rattle.std.specs.Prelude.{◌≡◌, ◌≤◌, true, false, None, IsErrOf};
ghost use Rattle.dir_model.specs.Causes.{Rose};
ghost use Rattle.dir_trait.specs.Local.{nothing_local};
ghost use Rattle.command_outcomes.specs.Moments.{is_well, outcome_of, outside_at, spawner_at};
ghost use Rattle.rkt_cli.specs.Commands.{uses_dir, reads_bundle, runs_apps, any_task};
ghost use Rattle.rkt_cli.specs.DemoCommand.{EndsDemo};
ghost use Rattle.rkt_cli.specs.Histories.{HandsOverFaithfulPods};
ghost use Rattle.rkt_cli.specs.Lines.{IsWithinLimits};
ghost use Rattle.rkt_cli.specs.Links.{LinksOf};
ghost use Rattle.rkt_cli.specs.Lookups.{Acts};
ghost use Rattle.rkt_cli.specs.Tasks.{takes_links};

use crate::line::Line;
use crate::perform::perform;
use crate::playing::demo;
use command_outcomes::{Refusal, Told};
use dir_trait::{Bundle, Dir, Draw};
use listener::Listener;
use spawner::Spawner;
use std::alloc::Global;

// The demo, of which nothing fails that it tells.
fn played(alloc: Global, count: u32) -> Result<Told, Refusal>
    requires few { count ≤ 100 }
    ensures ends { EndsDemo count (outcome_of result) }
    ensures well { is_well result ≡ true }
{
    match demo(alloc, count) {
        Ok(text) => Ok(Told { text, well: true }),
        Err(refusal) => Err(refusal),
    }
}

/// Does what the line says. The demo asks for nothing of what is handed in.
pub(crate) fn carry_out<D: Dir, B: Bundle, S: Spawner, L: Listener>(
    alloc: Global,
    line: &Line,
    now: u64,
    draw: &Draw,
    dir: &mut D,
    bundle: &mut B,
    spawner: &mut S,
    listener: &mut L,
) -> Result<Told, Refusal>
    requires fresh { (D.shown dir.old).local ≡ nothing_local }
    requires few { IsWithinLimits line.now }
    ensures apart { uses_dir (any_task line.now) ≡ false → dir.new ≡ dir.old }
    ensures unread { reads_bundle (any_task line.now) ≡ false → bundle.new ≡ bundle.old }
    ensures unasked { runs_apps (any_task line.now) ≡ false → spawner.new ≡ spawner.old }
    ensures makers { D.observed ≡ true → HandsOverFaithfulPods (D.shown dir.old) (D.shown dir.new) }
    ensures acts { Acts line.now now draw.now (outside_at D.Dir B.Bundle dir.old bundle.old) (outside_at D.Dir B.Bundle dir.new bundle.new)
        (spawner_at S.Spawner spawner.old) (spawner_at S.Spawner spawner.new) result }
    ensures unlinked { takes_links line.now ≡ false → listener.new ≡ listener.old }
    ensures link_cause { IsErrOf result Refusal.LinkFault → Rose (L.shown listener.old).faults (L.shown listener.new).faults }
    ensures serves { L.observed ≡ true → D.observed ≡ true → (L.shown listener.old).current ≡ None
        → LinksOf line.now now draw.now result (L.shown listener.old) (L.shown listener.new) (D.shown dir.old) (D.shown dir.new) }
{
    match line {
        Line::Demo(count) => played(alloc, *count),
        _ => perform(alloc, line, now, draw, dir, bundle, spawner, listener),
    }
}
