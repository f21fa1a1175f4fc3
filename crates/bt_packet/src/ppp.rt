//! PPP (RFC 1661), alone, framed like HDLC (RFC 1662) and over Ethernet (RFC 2516), as far as it carries IP.
ghost use Rattle.std.specs.Prelude.{◌≡◌, option_map};
ghost use Rattle.bt_packet.specs.Links.{is_ppp_ip as is_ppp_ip_of, ppp as ppp_of, ppp_low as ppp_low_of, session as session_of, unframed as unframed_of};

fn is_ppp_ip(protocol: u8) -> bool
    ensures { result ≡ is_ppp_ip_of protocol }
{
    matches!(protocol, 0x21 | 0x57)
}

/// Returns what follows the second byte of a protocol of IP.
#[tactic(auto, using(crate::proofs::Sessions::low_cut, crate::proofs::Sessions::low_ip, crate::proofs::Sessions::low_other))]
fn ppp_low(bytes: &[u8]) -> Option<&[u8]>
    ensures { option_map (λ b. b.now) result ≡ ppp_low_of bytes.now }
{
    let [protocol, rest @ ..] = bytes else {
        return None;
    };
    if is_ppp_ip(*protocol) {
        Some(rest)
    } else {
        None
    }
}

/// Returns the packet of IP after a protocol, whose first byte may be left out.
#[tactic(auto, using(crate::proofs::Sessions::ppp_cut, crate::proofs::Sessions::ppp_two, crate::proofs::Sessions::ppp_one))]
pub fn ppp(bytes: &[u8]) -> Option<&[u8]>
    ensures { option_map (λ b. b.now) result ≡ ppp_of bytes.now }
{
    let [first, rest @ ..] = bytes else {
        return None;
    };
    if *first == 0 {
        ppp_low(rest)
    } else {
        ppp_low(bytes)
    }
}

/// Returns what follows the address and the control field, if they are there.
#[tactic(auto, using(crate::proofs::Sessions::unframed_cut, crate::proofs::Sessions::unframed_whole))]
pub fn unframed(bytes: &[u8]) -> &[u8]
    ensures { result.now ≡ unframed_of bytes.now }
{
    let [address, control, rest @ ..] = bytes else {
        return bytes;
    };
    if *address == 0xff && *control == 0x03 {
        rest
    } else {
        bytes
    }
}

/// Returns the packet of IP in a session of PPP over Ethernet.
#[tactic(auto, using(crate::proofs::Sessions::session_cut, crate::proofs::Sessions::session_other, crate::proofs::Sessions::session_whole))]
#[inline(never)]
pub fn session(bytes: &[u8]) -> Option<&[u8]>
    ensures { option_map (λ b. b.now) result ≡ session_of bytes.now }
{
    let [first, code, _, _, _, _, rest @ ..] = bytes else {
        return None;
    };
    if *first == 0x11 && *code == 0 {
        ppp(rest)
    } else {
        None
    }
}
