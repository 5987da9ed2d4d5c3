// The law of the roots in which apps start, as the contract of a function.
ghost use Rattle.std.specs.Prelude.{◌≡◌, ℕ, List, [], ◌++◌};
ghost use Rattle.dir_model.specs.declared.event.Event.{Event};
ghost use Rattle.pod_build.specs.FaithfulBuild.{HandsOverFaithfully};
ghost use Rattle.pod_build.specs.LegalExecutions.{IsLegal, MakersAreFaithful};
ghost use Rattle.headline.specs.Roots.{PodsStandFaithfully, AppsStartFaithfully, PodsReadAsMade};

use dir_model::History;

/// An execution is legal where every process keeps the local rules in it, no identity and no token is
/// drawn twice, and whoever hands a pod over, to prepared or to run, has made it faithfully. A beginning of
/// a legal execution is legal. Where each process hands over only what it made faithfully, as the program
/// does, every maker is faithful.
///
/// In a legal execution each pod in prepared or in run holds, but for what is noted while it runs, exactly
/// what its maker made faithfully: its manifest, its token, and of each app the manifest of its image and
/// the tree of its image's rendering. So it does just after the mark of each app is made: there the app
/// starts. And whoever reads a file of such a pod, as the process that runs it reads its manifest, its token and
/// its apps' listings, gets what its maker made. What a started app itself writes is no call on the directory, and nothing is said of it.
pub fn roots(history: &History)
    ensures begins { IsLegal history.now.items → (before later : List Event) → history.now.items ≡ before ++ later → IsLegal before }
    ensures makers { ((p : ℕ) → HandsOverFaithfully p [] history.now.items) → MakersAreFaithful history.now.items }
    ensures stand { IsLegal history.now.items → PodsStandFaithfully history.now.items }
    ensures start { IsLegal history.now.items → AppsStartFaithfully history.now.items }
    ensures read { IsLegal history.now.items → PodsReadAsMade history.now.items }
{
    let _events = history.as_slice();
}
