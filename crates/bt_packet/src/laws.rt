//! Theorems about the definitions. Each is the contract of a function with an empty body.
ghost use Rattle.bt_packet.specs.Frames.{CutIsRead, GreIsRead, Ipv4IsRead, Ipv6IsRead, MplsIsRead, PppoeIsRead};
ghost use Rattle.bt_packet.specs.Segments.{SegmentIsRead};
ghost use Rattle.bt_packet.specs.Datagrams.{ChainHasToFit, UtpIsRead};

/// States that a frame of Ethernet, IPv4 and TCP is read as its segment, with any options, tags and padding.
pub fn ipv4_is_read()
    ensures { Ipv4IsRead }
{}

/// States that such a frame is read as its segment too if it was captured only up to some place in its data.
pub fn cut_is_read()
    ensures { CutIsRead }
{}

/// States that a frame of Ethernet, IPv6 and TCP is read as its segment, with any extension headers, options, tags and padding.
pub fn ipv6_is_read()
    ensures { Ipv6IsRead }
{}

/// States that a frame of Ethernet with labels of MPLS before such a packet of IPv4 is read as its segment.
pub fn mpls_is_read()
    ensures { MplsIsRead }
{}

/// States that a frame of Ethernet with such a packet of IPv4 in a session of PPP is read as its segment.
pub fn pppoe_is_read()
    ensures { PppoeIsRead }
{}

/// States that a packet of IPv4 in GRE in another packet of IPv4 is read as its segment.
pub fn gre_is_read()
    ensures { GreIsRead }
{}

/// States which segment `segment_of` returns, and when: for each link type, by what stands after what.
pub fn segment_is_read()
    ensures { SegmentIsRead }
{}

/// States which packet of uTP `utp_of` returns, and when: for each link type, by what stands after what.
pub fn utp_is_read()
    ensures { UtpIsRead }
{}

/// States that no packet is read if its last extension says more bytes than there are.
pub fn chain_has_to_fit()
    ensures { ChainHasToFit }
{}
