//! Theorems about two ends over a connection. Each is the contract of a function with an empty body.
ghost use Rattle.bt_loop.specs.Runs.{RoundsAreSteps, RunFetches};

/// States that rounds of two ends over a connection are steps of their link.
///
/// Nothing is on its way at first, and the connection's bytes are known. What is sent and received is a delivery of the link, and
/// a turn that handles an item is a turn of it. A turn that finds no whole item changes nothing there. So what `bt_session` proves of
/// the link of two ends holds for them.
pub fn rounds_are_steps()
    ensures { RoundsAreSteps }
{}

/// States that a run of an end that serves and one that fetches has the metadata.
///
/// Nothing is on its way at first, and the connection's bytes are known, as in memory. No end stops the run. If it ends before as
/// many rounds as may be made, the right end has the metadata, and nothing is to be sent.
pub fn run_fetches()
    ensures { RunFetches }
{}
