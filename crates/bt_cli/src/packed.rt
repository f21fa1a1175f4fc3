//! Captures that are compressed: which command reads them.
ghost use Rattle.std.specs.Prelude.{◌≡◌, option_map};
ghost use Rattle.bt_cli.specs.Packed.{packed_words};

/// Returns the line that says which command reads a capture that is compressed, as its first bytes tell.
///
/// `None` if they aren't those of gzip, bzip2, xz, Zstandard or LZ4.
pub fn packed_line(bytes: &[u8]) -> Option<&'static [u8]>
    ensures { option_map (λ line. line.now) result ≡ packed_words bytes.now }
{
    if bytes.starts_with(b"\x1f\x8b") {
        return Some(
            b"capture: compressed by gzip; this reads it: gunzip -c FILE | bt_tool capture\n",
        );
    }
    if bytes.starts_with(b"BZh") {
        return Some(
            b"capture: compressed by bzip2; this reads it: bunzip2 -c FILE | bt_tool capture\n",
        );
    }
    if bytes.starts_with(b"\xfd7zXZ\x00") {
        return Some(b"capture: compressed by xz; this reads it: unxz -c FILE | bt_tool capture\n");
    }
    if bytes.starts_with(b"\x28\xb5\x2f\xfd") {
        return Some(
            b"capture: compressed by zstd; this reads it: unzstd -c FILE | bt_tool capture\n",
        );
    }
    if bytes.starts_with(b"\x04\x22\x4d\x18") {
        return Some(
            b"capture: compressed by lz4; this reads it: unlz4 -c FILE | bt_tool capture\n",
        );
    }
    None
}
