// The top call.
ghost use Rattle.std.specs.Prelude.{◌≡◌, ◌⊎◌, true, false, None};
ghost use Rattle.command_outcomes.specs.Moments.{bundle_at};
ghost use Rattle.dir_trait.specs.Local.{nothing_local};
ghost use Rattle.pod_build.specs.LegalExecutions.{IsLegal};
ghost use Rattle.headline.specs.Roots.{PodsReadAsMade};
ghost use Rattle.rkt_cli.specs.Between.{EndedBetween, ToldBetween, PhasesBetween, QuietBetween, RunBetween};
ghost use Rattle.dir_model.specs.Causes.{Rose};
ghost use Rattle.rkt_cli.specs.Commands.{uses_dir_in, reads_bundle_in, runs_apps_in, takes_links_in};
ghost use Rattle.rkt_cli.specs.Histories.{HandsOverFaithfulPods, StaysLawful};
ghost use Rattle.rkt_cli.specs.Lines.{line_of_arguments};
ghost use Rattle.rkt_cli.specs.Links.{LinksIn};
ghost use Rattle.rkt_cli.specs.LinksAlone.{LinksAlone};
ghost use Rattle.rkt_cli.specs.Headlines.{KeepsTheHeadline};
ghost use Rattle.rkt_cli.specs.Promises.{IsExitStatus, IsOutput, IsOver, ReadsIn};
ghost use Rattle.rkt_cli.specs.Strays.{StraysOfApps};

use crate::command::carry_out;
use crate::line::read_line;
use crate::print::{print, refuse, report};
use command_outcomes::Refusal;
use dir_trait::{Bundle, Dir, Draw, Sink};
use listener::Listener;
use rkt_words::WordsError;
use spawner::Spawner;
use std::alloc::Global;

// The run itself, told by one clause from which the others follow.
fn run<D: Dir, B: Bundle, S: Spawner, L: Listener, O: Sink, E: Sink>(
    alloc: Global,
    words: &[String],
    now: u64,
    draw: &Draw,
    dir: &mut D,
    bundle: &mut B,
    spawner: &mut S,
    listener: &mut L,
    out: &mut O,
    err: &mut E,
) -> u8
    requires fresh { (D.shown dir.old).local ≡ nothing_local }
    ensures ran { RunBetween D.Dir B.Bundle S.Spawner O.Sink E.Sink (line_of_arguments words.now) now draw.now result
        (dir.old, bundle.old, spawner.old, out.old, err.old) (dir.new, bundle.new, spawner.new, out.new, err.new) }
    ensures apart { uses_dir_in (line_of_arguments words.now) ≡ false → dir.new ≡ dir.old }
    ensures unread { reads_bundle_in (line_of_arguments words.now) ≡ false → bundle.new ≡ bundle.old }
    ensures unasked { runs_apps_in (line_of_arguments words.now) ≡ false → spawner.new ≡ spawner.old }
    ensures unlinked { takes_links_in (line_of_arguments words.now) ≡ false → listener.new ≡ listener.old }
    ensures link_cause { result ≡ 13 → Rose (L.shown listener.old).faults (L.shown listener.new).faults }
    ensures serves { L.observed ≡ true → D.observed ≡ true → (L.shown listener.old).current ≡ None
        → LinksIn (line_of_arguments words.now) now draw.now result (L.shown listener.old) (L.shown listener.new) (D.shown dir.old) (D.shown dir.new) }
    ensures makers { D.observed ≡ true → HandsOverFaithfulPods (D.shown dir.old) (D.shown dir.new) }
{
    match read_line(alloc, words) {
        Err(WordsError::Usage(_)) => refuse(alloc, err, &Refusal::Usage),
        Err(WordsError::NoMemory) => refuse(alloc, err, &Refusal::NoMemory),
        Ok(line) => {
            let answer = carry_out(alloc, &line, now, draw, dir, bundle, spawner, listener);
            let end = print(alloc, out, answer);
            report(alloc, err, &end)
        }
    }
}

/// Does all that the program does with a command line: reads the words, begins a process on the
/// directory with what the command is for where the command works on the directory, performs the
/// command, finishes the process, writes the command's text to `out` or the refusal to `err`, and
/// answers the exit status. The clauses hold for every directory, bundle and sink, whatever other
/// processes do between the calls.
pub fn rkt<D: Dir, B: Bundle, S: Spawner, L: Listener, O: Sink, E: Sink>(
    alloc: Global,
    words: &[String],
    now: u64,
    draw: &Draw,
    dir: &mut D,
    bundle: &mut B,
    spawner: &mut S,
    listener: &mut L,
    out: &mut O,
    err: &mut E,
) -> u8
    requires fresh { (D.shown dir.old).local ≡ nothing_local }
    ensures statuses { IsExitStatus result }
    ensures usage { result ≡ 1 → line_of_arguments words.now ≡ None }
    ensures unread_words { line_of_arguments words.now ≡ None → (result ≡ 1) ⊎ (result ≡ 14) }
    ensures ended { EndedBetween D.Dir B.Bundle S.Spawner O.Sink E.Sink (line_of_arguments words.now) now draw.now result
        (dir.old, bundle.old, spawner.old, out.old, err.old) (dir.new, bundle.new, spawner.new, out.new, err.new) }
    ensures tells { ToldBetween D.Dir B.Bundle S.Spawner O.Sink E.Sink (line_of_arguments words.now) now draw.now result
        (dir.old, bundle.old, spawner.old, out.old, err.old) (dir.new, bundle.new, spawner.new, out.new, err.new) }
    ensures phases { PhasesBetween D.Dir B.Bundle S.Spawner O.Sink E.Sink (line_of_arguments words.now) now draw.now result
        (dir.old, bundle.old, spawner.old, out.old, err.old) (dir.new, bundle.new, spawner.new, out.new, err.new) }
    ensures out { O.observed ≡ true → IsOutput (line_of_arguments words.now) draw.now (bundle_at B.Bundle bundle.old) result (O.shown out.old).bytes (O.shown out.new).bytes }
    ensures apart { uses_dir_in (line_of_arguments words.now) ≡ false → dir.new ≡ dir.old }
    ensures unread { reads_bundle_in (line_of_arguments words.now) ≡ false → bundle.new ≡ bundle.old }
    ensures unasked { runs_apps_in (line_of_arguments words.now) ≡ false → spawner.new ≡ spawner.old }
    ensures unlinked { takes_links_in (line_of_arguments words.now) ≡ false → listener.new ≡ listener.old }
    ensures link_cause { result ≡ 13 → Rose (L.shown listener.old).faults (L.shown listener.new).faults }
    ensures serves { L.observed ≡ true → D.observed ≡ true → (L.shown listener.old).current ≡ None
        → LinksIn (line_of_arguments words.now) now draw.now result (L.shown listener.old) (L.shown listener.new) (D.shown dir.old) (D.shown dir.new) }
    ensures serves_alone { L.observed ≡ true → D.observed ≡ true → (L.shown listener.old).current ≡ None
        → LinksAlone (line_of_arguments words.now) draw.now result (L.shown listener.old) (L.shown listener.new) (D.shown dir.old) (D.shown dir.new) }
    ensures reads { ReadsIn (line_of_arguments words.now) (bundle_at B.Bundle bundle.old) (bundle_at B.Bundle bundle.new) }
    ensures over { IsOver (line_of_arguments words.now) now draw.now result (D.shown dir.old).local (D.shown dir.new).local }
    ensures headline { D.observed ≡ true → KeepsTheHeadline (line_of_arguments words.now) now draw.now (D.shown dir.old) (D.shown dir.new) }
    ensures lawful { D.observed ≡ true → StaysLawful draw.now (D.shown dir.old) (D.shown dir.new) }
    ensures strays { D.observed ≡ true → StraysOfApps (line_of_arguments words.now) result (D.shown dir.old) (D.shown dir.new) }
    ensures as_made { D.observed ≡ true → IsLegal (D.shown dir.new).trace → PodsReadAsMade (D.shown dir.new).trace }
    ensures quiet { QuietBetween D.Dir B.Bundle S.Spawner O.Sink E.Sink (line_of_arguments words.now) now draw.now result
        (dir.old, bundle.old, spawner.old, out.old, err.old) (dir.new, bundle.new, spawner.new, out.new, err.new) }
    ensures ran { RunBetween D.Dir B.Bundle S.Spawner O.Sink E.Sink (line_of_arguments words.now) now draw.now result
        (dir.old, bundle.old, spawner.old, out.old, err.old) (dir.new, bundle.new, spawner.new, out.new, err.new) }
{
    run(
        alloc, words, now, draw, dir, bundle, spawner, listener, out, err,
    )
}
