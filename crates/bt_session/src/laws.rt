//! Theorems about links of two ends. Each is the contract of a function with an empty body.
ghost use Rattle.bt_session.specs.LinkLaws.{ByteLinkIsMessageLink, MessageLinkIsByteLink, NothingIsRefused, HandledInOrder, FetchedIsServed, FewStepsStaySmall, OutcomesAreOne, QueuedMayBeSent};
ghost use Rattle.bt_session.specs.FetchLaws.{FetchIsShort, FetchIsWhole, FetchIsFree};

/// States that two ends over bytes do what two ends over messages do.
///
/// However the bytes are split and whenever they come, the outcomes are the same, the ends are, and so are the items that each
/// sends and handles on each connection.
pub fn links_agree()
    ensures bytes { ByteLinkIsMessageLink }
    ensures messages { MessageLinkIsByteLink }
{}

/// States that two honest ends never refuse each other.
///
/// The items that an end handled on a connection are a prefix of those that the other one sent. The blocks and the metadata
/// that an end fetched are those that the other one serves.
pub fn honest_ends()
    ensures accepted { NothingIsRefused }
    ensures in_order { HandledInOrder }
    ensures fetched { FetchedIsServed }
{}

/// States that 4,294,967,296 steps send fewer than 2^62 bytes in each direction.
///
/// It is so on each connection.
pub fn runs_stay_small()
    ensures { FewStepsStaySmall }
{}

/// States that steps have only one list of outcomes.
pub fn one_outcome()
    ensures { OutcomesAreOne }
{}

/// States that each message that an end queues is legal for the other end.
///
/// The context is that of `End::belief`.
pub fn queued_may_be_sent()
    ensures { QueuedMayBeSent }
{}

/// States that a fetch from an end that serves ends with the metadata.
///
/// The two ends send few bytes. Once each has handled all that the other one sent, the metadata is there; and no step finds
/// that too much waits to be sent.
pub fn fetch_ends()
    ensures short { FetchIsShort }
    ensures whole { FetchIsWhole }
    ensures free { FetchIsFree }
{}
