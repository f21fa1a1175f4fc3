//! Theorems about the lines of a script: what is written for a stream's items is parsed as the stream's bytes. Each is the
//! contract of a function with an empty body.
ghost use Rattle.bt_text.specs.ScriptLaws.{LineIsOne, MessageIsLine, HandshakeIsLine, MessageFits, HandshakeFits};

/// States that a text names at most one list of bytes.
pub fn one_reading()
    ensures { LineIsOne }
{}

/// States that the words of a message are a line that names the message's bytes.
pub fn message_is_line()
    ensures { MessageIsLine }
{}

/// States that the words of a handshake are a first line that names its bytes.
pub fn handshake_is_line()
    ensures { HandshakeIsLine }
{}

/// States that the words of a message have no line feed.
///
/// They aren't longer than twice its body and 256 bytes.
pub fn message_fits()
    ensures { MessageFits }
{}

/// States that the words of a handshake have no line feed and at most 256 bytes.
pub fn handshake_fits()
    ensures { HandshakeFits }
{}
