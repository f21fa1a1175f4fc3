//! What finds addresses while a fetch goes on.
ghost use Rattle.std.specs.Prelude.{◌≡◌, take, length};

use std::net::SocketAddr;

/// Finds addresses, a turn at a time.
pub trait Finder {
    ghost use Rattle.std.specs.Prelude.{List, Bool, true, false};
    ghost use Rattle.std.specs.declared.net.socket_addr.SocketAddr.{SocketAddr};

    /// The addresses that were found so far, in order.
    ghost found: { Self → List SocketAddr };

    /// Whether the search was ended.
    ghost has_ended: { Self → Bool };

    /// Returns the addresses that were found so far, in order.
    fn found(&self) -> &[SocketAddr]
        ensures { result.now ≡ found self.now };

    /// Goes on with the search, and returns whether more addresses may be found. It doesn't wait for answers.
    ///
    /// What was found stays, and what is found now comes after it.
    ///
    /// `is_urgent` says that nobody gave anything to the fetch yet.
    fn turn(&mut self, is_urgent: bool) -> bool
        requires { has_ended self.old ≡ false }
        ensures goes_on { has_ended self.new ≡ false }
        ensures grown { take (length (found self.old)) (found self.new) ≡ found self.old };

    /// Ends the search, and tells those that were asked. It waits for no answer.
    fn end(&mut self)
        requires { has_ended self.old ≡ false }
        ensures ended { has_ended self.new ≡ true }
        ensures found { found self.new ≡ found self.old };
}
