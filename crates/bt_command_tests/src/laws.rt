//! Each law once.
use bt_jobs::pack_laws;
use bt_text::script::laws;

#[test]
fn each_law() {
    laws::one_reading();
    laws::message_is_line();
    laws::handshake_is_line();
    laws::message_fits();
    laws::handshake_fits();
    pack_laws::one_split();
    pack_laws::script_packs();
    pack_laws::one_packing();
}
