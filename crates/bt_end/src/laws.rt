//! Theorems about the definitions. Each is the contract of a function with an empty body.
ghost use Rattle.bt_end.specs.Laws.{FetchedIsFinished, DoneStays, RefusalStays, BeliefIsPeerContext};

/// States that fetched metadata has the announced size and the right SHA-1.
pub fn fetched_is_finished()
    ensures { FetchedIsFinished }
{}

/// States that an end that has the metadata keeps it.
pub fn done_stays()
    ensures { DoneStays }
{}

/// States that a refusal stays until the end is reset.
pub fn refusal_stays()
    ensures { RefusalStays }
{}

/// States that [`End::belief`](crate::End::belief) is `bt_feed::peer_context`.
pub fn belief_is_peer_context()
    ensures { BeliefIsPeerContext }
{}
