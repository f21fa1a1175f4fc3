//! The lines on packets of uTP.
ghost use Rattle.std.specs.Prelude.{◌≡◌, ◌++◌, ◌+◌, take, List, IfOk, OnOk, string_bytes};
ghost use Rattle.bt_packet.specs.Utp.{UtpPacket};
ghost use Rattle.bt_utp.specs.Flows.{flows as flows_of};
ghost use Rattle.bt_utp.specs.States.{AreCounted};
ghost use Rattle.bt_capture.specs.FlowTexts.{flow_text, flow_texts};

use bt_report::{UtpObject, UtpPackets};
use bt_utp::{Counted, UtpFlows};
use std::alloc::{AllocError, Global};

/// Appends the line on a flow, as text or as a JSON object, if one of its datagrams has another one near.
fn put_flow(json: bool, flow: Counted, text: &mut String) -> Result<(), AllocError>
    ensures { OnOk result (string_bytes text.new ≡ string_bytes text.old ++ flow_text json flow) }
{
    if flow.count == 0 {
        return Ok(());
    }
    let packets = UtpPackets {
        source: flow.source,
        target: flow.target,
        count: flow.count,
        is_least: flow.is_least,
        source_reason: flow.source_reason,
        target_reason: flow.target_reason,
    };
    if json {
        let object = UtpObject(&packets);
        write!(text, "{object}")
    } else {
        write!(text, "{packets}")
    }
}

/// Appends the line on the flow at a place, if there is one.
fn put_place(
    json: bool,
    flows: &UtpFlows,
    place: usize,
    text: &mut String,
) -> Result<(), AllocError>
    ensures { OnOk result ((ds : List UtpPacket) → AreCounted ds flows.now → string_bytes text.old ≡ flow_texts json (take place (flows_of ds))
        → string_bytes text.new ≡ flow_texts json (take (place + 1) (flows_of ds))) }
{
    match flows.counted(place) {
        Some(flow) => put_flow(json, flow, text),
        None => Ok(()),
    }
}

/// Returns the lines on all flows, as text or as JSON objects.
///
/// # Errors
/// `AllocError` when out of memory.
pub fn flow_lines(alloc: Global, flows: &UtpFlows, json: bool) -> Result<Vec<u8>, AllocError>
    ensures { IfOk result (λ text. (ds : List UtpPacket) → AreCounted ds flows.now → text.items ≡ flow_texts json (flows_of ds)) }
{
    let mut text = String::new(alloc);
    for place in 0..flows.len() {
        match put_place(json, flows, place, &mut text) {
            Ok(()) => {}
            Err(error) => return Err(error),
        }
    }
    Ok(text.into_bytes())
}
