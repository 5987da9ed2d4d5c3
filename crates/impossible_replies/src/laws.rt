// The laws of replies in conforming executions, each the contract of a function.
ghost use Rattle.lifecycle.specs.Executions.{IsConforming};
ghost use Rattle.impossible_replies.specs.Replies.{MakersReply, NoneIsImpossible, ForeignWritesAreApps, PathsAreShort};

use dir_model::History;

/// A maker never finds its embryo gone or locked by another. No pod, no import and nothing that is put
/// away meets another folder. And no change, sync or move of a maker's own folder is answered as if
/// the folder weren't its own.
pub fn makers_replies(history: &History)
    ensures { IsConforming history.now.items → MakersReply history.now.items }
{
    let _events = history.as_slice();
}

/// No reply comes that no rule-keeping process brings about: what a process makes, owns or deletes is
/// as it left it, notes in a pod that it runs included. The replies by which a started app shows that
/// it still writes come at and below its root alone.
pub fn impossible_replies(history: &History)
    ensures none { IsConforming history.now.items → NoneIsImpossible history.now.items }
    ensures apps { IsConforming history.now.items → ForeignWritesAreApps history.now.items }
{
    let _events = history.as_slice();
}

/// No path inside a folder has more than 8,192 bytes.
pub fn path_lengths(history: &History)
    ensures { IsConforming history.now.items → PathsAreShort history.now.items }
{
    let _events = history.as_slice();
}
