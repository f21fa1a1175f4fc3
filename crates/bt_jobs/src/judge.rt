//! Checks of whole items one after the other, without a copy of them.
ghost use Rattle.std.specs.Prelude.{◌≡◌, ◌≤◌, ◌<◌, ◌^◌};
ghost use Rattle.bt_feed.specs.Feeds.{waiting};
ghost use Rattle.bt_feed.specs.Stages.{number_of, start_of};
ghost use Rattle.bt_jobs.specs.PackSteps.{IsJudged};

use bt_feed::Stage;
use bt_wire::{
    Front, Opening, Order, Own, Reason, negotiate, next_of_view, read_front, read_opening,
};
use std::marker::Model;

/// The id of an extended message (BEP 10).
const EXTENDED: u8 = 20;

/// The number of the copy of [`Judge::take_copy`] for ids that have no meaning, and for what has no id.
const OTHER: u8 = 255;

/// What is known of a stream whose items come one at a time.
///
/// A contract sees it as a feed that has no bytes.
#[derive(Drop)]
pub struct Judge {
    stage: Stage,
}

impl Model for Judge {
    ghost use Rattle.bt_feed.specs.Feeds.{FeedState, waiting};
    ghost use Rattle.bt_jobs.specs.PackSteps.{IsWithin};

    ghost Value = { FeedState };

    ghost view = { λ j. waiting j.stage };

    ghost invariant = { λ j. IsWithin j.stage };
}

impl Judge {
    /// Makes a judge that awaits the handshake of a stream.
    pub fn new(own: Own) -> Judge
        requires { own.limit ≤ 1048576 }
        ensures { result ≡ waiting (Stage.Handshake own) }
    {
        Judge {
            stage: Stage::Handshake(own),
        }
    }

    /// Returns the number of the next item: 0 for the handshake, then 1, 2, ..
    pub fn number(&self) -> u64
        ensures value { result ≡ number_of self.now.stage }
        ensures range { result < 2 ^ 63 }
    {
        self.stage.number()
    }

    /// Returns the offset at which the next item starts.
    pub fn start(&self) -> u64
        ensures { result ≡ start_of self.now.stage }
    {
        match &self.stage {
            Stage::Handshake(_) => 0,
            Stage::Message { start, .. } => *start,
        }
    }

    /// Returns whether bytes are one whole item, and goes on to the next if they are.
    ///
    /// # Errors
    /// The reason why the bytes are refused; nothing changes then.
    #[inline(always)]
    pub fn take_item(&mut self, bytes: &[u8]) -> Result<bool, Reason>
        ensures { IsJudged self.old bytes.now self.new result }
    {
        match bytes.get(4) {
            Some(0) => self.take_copy::<0>(bytes),
            Some(1) => self.take_copy::<1>(bytes),
            Some(2) => self.take_copy::<2>(bytes),
            Some(3) => self.take_copy::<3>(bytes),
            Some(4) => self.take_copy::<4>(bytes),
            Some(5) => self.take_copy::<5>(bytes),
            Some(6) => self.take_copy::<6>(bytes),
            Some(7) => self.take_copy::<7>(bytes),
            Some(8) => self.take_copy::<8>(bytes),
            Some(9) => self.take_copy::<9>(bytes),
            Some(13) => self.take_copy::<13>(bytes),
            Some(14) => self.take_copy::<14>(bytes),
            Some(15) => self.take_copy::<15>(bytes),
            Some(16) => self.take_copy::<16>(bytes),
            Some(17) => self.take_copy::<17>(bytes),
            Some(20) => self.take_extended(bytes),
            _ => self.take_copy::<OTHER>(bytes),
        }
    }

    /// Returns whether bytes are one whole item, by the copy for an extended message.
    #[inline(never)]
    fn take_extended(&mut self, bytes: &[u8]) -> Result<bool, Reason>
        ensures { IsJudged self.old bytes.now self.new result }
    {
        self.take_copy::<EXTENDED>(bytes)
    }

    /// Returns whether bytes are one whole item, and goes on to the next if they are.
    ///
    /// `COPY` has no meaning of its own: the compiler makes a copy of this function for each number. At its one call the message's
    /// id is known, so its kind isn't looked at again.
    #[inline(always)]
    fn take_copy<const COPY: u8>(&mut self, bytes: &[u8]) -> Result<bool, Reason>
        ensures { IsJudged self.old bytes.now self.new result }
    {
        match &mut self.stage {
            Stage::Handshake(own) => match read_opening(own, bytes) {
                Opening::Refused(fault) => Err(fault.reason),
                Opening::Partial => Ok(false),
                Opening::Whole(handshake) => {
                    if bytes.len() > 68 {
                        return Ok(false);
                    }
                    self.stage = Stage::Message {
                        context: negotiate(own, handshake.reserved),
                        order: Order::Fresh,
                        start: 68,
                        number: 1,
                    };
                    Ok(true)
                }
            },
            Stage::Message {
                context,
                order,
                start,
                number,
            } => match read_front(context, *order, *start, bytes) {
                Front::Refused(fault) => Err(fault.reason),
                Front::Partial => Ok(false),
                Front::Whole(message, size) => {
                    if bytes.len() > size {
                        return Ok(false);
                    }
                    *order = next_of_view(*order, &message);
                    *start += size as u64;
                    *number += 1;
                    Ok(true)
                }
            },
        }
    }
}
