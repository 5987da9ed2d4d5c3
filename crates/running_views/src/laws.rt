// The laws of the service where nobody else steps, each the contract of a function.
ghost use Rattle.running_views.specs.Laws.{FindsBefore, RepliesBefore, ServesBefore, OneReply};

use dir_model::History;

/// Where nobody else steps and every process keeps the local rules, the pod that a look for a token found is one
/// that the state before has: its token, that it runs, its manifest and its images are all of that state. Where
/// none was found, that state has none.
pub fn found(history: &History)
    ensures { FindsBefore history.now.items }
{
    let _events = history.as_slice();
}

/// So the reply to an input is told by the input, the key and the state before.
pub fn replied(history: &History)
    ensures { RepliesBefore history.now.items }
{
    let _events = history.as_slice();
}

/// However many connections are served one after the other, each owes the reply by the state before the first.
pub fn served(history: &History)
    ensures { ServesBefore history.now.items }
{
    let _events = history.as_slice();
}

/// Where at most one pod has a view for each token, an input has one reply.
pub fn one_reply(history: &History)
    ensures { OneReply history.now.items }
{
    let _events = history.as_slice();
}
