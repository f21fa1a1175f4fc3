//! Dictionaries of extended messages (BEP 10, BEP 9), as clients send them and as hostile peers do.

use crate::draft::Draft;
use crate::draw::Draw;

/// The names that clients announce, in the order of their bytes.
const NAMES: [&[u8]; 8] = [
    b"11:lt_donthave",
    b"10:share_mode",
    b"11:upload_only",
    b"10:ut_comment",
    b"12:ut_holepunch",
    b"11:ut_metadata",
    b"6:ut_pex",
    b"12:ut_recommend",
];

/// Appends 5 to 8 of the usual names with their ids.
fn put_usual(dict: &mut Draft, draw: &mut Draw) {
    for k in draw.below(4)..8 {
        dict.put(NAMES[k as usize]);
        dict.put_integer(1 + k);
    }
}

/// Appends up to 4 names of nobody's with their ids.
fn put_unusual(dict: &mut Draft, draw: &mut Draw) {
    for k in 0..draw.below(5) {
        dict.put_form(&[b"10:x"], &[k]);
        dict.put_hex(draw.next());
        dict.put_integer(20 + k);
    }
}

/// Appends an extended handshake's dictionary as a client sends it, 200 to 400 bytes.
pub fn put_greeting(dict: &mut Draft, size: u32, draw: &mut Draw) {
    dict.put(b"d12:complete_agoi-1e1:ei0e4:ipv44:");
    dict.put_number(draw.next());
    dict.put(b"1:md");
    put_usual(dict, draw);
    put_unusual(dict, draw);
    dict.put_form(
        &[
            b"e13:metadata_sizei",
            b"e1:pi",
            b"e4:reqqi",
            b"e1:v17:qBittorrent/4.6.",
        ],
        &[
            size,
            draw.below(65_536),
            250 + draw.below(1_750),
            draw.below(10),
        ],
    );
    dict.put(b"6:yourip4:");
    dict.put_number(draw.next());
    dict.put_form(&[b"2:ypi", b"ee"], &[draw.below(65_536)]);
}

/// Appends a handshake's dictionary with `count` names of nobody's from the number `first` on.
pub fn put_strangers(dict: &mut Draft, first: u32, count: u32) {
    dict.put(b"d1:md");
    for k in 0..count {
        dict.put(b"8:");
        dict.put_hex(first.wrapping_add(k));
        dict.put_integer(1 + k % 255);
    }
    dict.put(b"ee");
}

/// Appends `count` short pairs in front of the end of a dictionary.
pub fn put_pairs(dict: &mut Draft, count: u32, end: &[u8], draw: &mut Draw) {
    dict.put(b"d");
    for k in 0..count {
        dict.put(b"8:");
        dict.put_hex(k);
        dict.put_integer(draw.below(1_000));
    }
    dict.put(end);
}

/// Appends `count` pairs of 11 bytes in front of the end of a dictionary.
pub fn put_short_pairs(dict: &mut Draft, count: u32, end: &[u8]) {
    dict.put(b"d");
    for k in 0..count {
        dict.put_form(&[b"6:", b"i5e"], &[k.saturating_add(100_000)]);
    }
    dict.put(end);
}

/// Appends a handshake's dictionary whose lists and dictionaries nest 31 deep, with pairs at each depth.
pub fn put_nested(dict: &mut Draft, draw: &mut Draw) {
    dict.put(b"d");
    for _depth in 0..15 {
        dict.put_form(&[b"1:ai", b"e1:bl5:hellod"], &[draw.below(100_000)]);
    }
    dict.put(&[b'e'; 31]);
}

/// Appends a metadata request (`kind` 0), or a rejection (2), of a block (BEP 9).
pub fn put_asking(dict: &mut Draft, kind: u32, piece: u32) {
    dict.put_form(&[b"d8:msg_typei", b"e5:piecei", b"ee"], &[kind, piece]);
}

/// Appends the dictionary of a metadata message with a block.
pub fn put_data(dict: &mut Draft, piece: u32, total: u32) {
    dict.put_form(
        &[b"d8:msg_typei1e5:piecei", b"e10:total_sizei", b"ee"],
        &[piece, total],
    );
}

/// Appends an extended handshake's dictionary whose keys aren't in order, as some clients send it.
pub fn put_unsorted(dict: &mut Draft, draw: &mut Draw) {
    dict.put_form(
        &[b"d1:md11:ut_metadatai", b"e6:ut_pexi", b"e11:lt_donthavei"],
        &[1 + draw.below(20), 1 + draw.below(20), 1 + draw.below(20)],
    );
    dict.put_form(
        &[
            b"ee1:pi",
            b"e1:v13:BitLord 2.4.613:metadata_sizei",
            b"e4:reqqi",
            b"ee",
        ],
        &[
            draw.below(65_536),
            draw.below(60_000_000),
            250 + draw.below(1_750),
        ],
    );
}

/// Appends the dictionary of a peer exchange (BEP 11) with up to 50 addresses.
pub fn put_peers(dict: &mut Draft, draw: &mut Draw) {
    let count = 1 + draw.below(50);
    dict.put_form(&[b"d5:added", b":"], &[count * 6]);
    for _peer in 0..count {
        dict.put_number(draw.next());
        dict.put(b"\x1A\xE1");
    }
    dict.put_form(&[b"7:added.f", b":"], &[count]);
    dict.put(&[0x10; 50][..count as usize]);
    dict.put(b"7:dropped0:e");
}

/// Appends a metadata request with the greatest integers that there are.
pub fn put_greatest(dict: &mut Draft, piece: u32) {
    dict.put_form(
        &[
            b"d8:msg_typei0e5:piecei",
            b"e10:total_sizei9223372036854775807e1:zi-9223372036854775808ee",
        ],
        &[piece],
    );
}

/// Appends the dictionary of a handshake that changes the ids of up to 4 names of nobody's, and often of the two that are
/// registered. The id 0 takes a name back.
pub fn put_renaming(dict: &mut Draft, first: u32, draw: &mut Draw) {
    dict.put(b"d1:md");
    for k in 0..1 + draw.below(4) {
        dict.put(b"8:");
        dict.put_hex(first.wrapping_add(k));
        let id = (1 + draw.below(255)) * (draw.below(4).min(1));
        dict.put_integer(id);
    }
    for name in [b"11:lt_donthavei", b"11:ut_metadatai"] {
        if draw.below(2) == 0 {
            dict.put_form(&[name, b"e"], &[draw.below(256)]);
        }
    }
    dict.put(b"ee");
}
