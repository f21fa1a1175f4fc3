//! Theorems on what is told of a capture.
ghost use Rattle.std.specs.Prelude.{◌≡◌, ◌<◌, ◌-◌, ◌^◌, ℕ, List, Option, Some, None, false};
ghost use Rattle.std.specs.List.{All};
ghost use Rattle.bt_io.specs.Seen.{SourceSeen, TargetSeen};
ghost use Rattle.bt_pcap.specs.Formats.{Captured};
ghost use Rattle.bt_remarks.specs.declared.events.Side.{Side};
ghost use Rattle.bt_report.specs.declared.report.Report.{Report};
ghost use Rattle.bt_capture.specs.declared.ending.CaptureEnd.{CaptureEnd};
ghost use Rattle.bt_capture.specs.declared.ending.Form.{Form};
ghost use Rattle.bt_capture.specs.Arrivals.{Arrival};
ghost use Rattle.bt_capture.specs.Following.{Finished};
ghost use Rattle.bt_capture.specs.Runs.{AreAllOver, IsEndOf, IsOnlyStream, Origin};
ghost use Rattle.bt_capture.specs.Tellings.{AreTexts, chosen_by, texts};

/// If neither rows nor a stream are told, what is told are the texts of the chosen reports, in order, and nothing else.
pub fn only_reports()
    ensures { (form : Form) (reports : List Report) (text : List ℕ) → form.show ≡ false → form.stream ≡ None → AreTexts form reports text
        → text ≡ texts form.json (chosen_by form reports) }
{}

/// If a stream is asked for and reading ended, nothing is written if no connection has the number. Otherwise one has it, and
/// if there is a report on that, the stream of its side is written, and nothing else. It begins with the handshake, or with the first byte if no
/// handshake started in the opening, and ends at the first gap.
pub fn only_stream()
    ensures { (o : Origin) (after : SourceSeen) (now : TargetSeen) (end : CaptureEnd) (n : ℕ) (side : Side) → o.form.stream ≡ Some (n, side)
        → n < 2 ^ 64 - 1 → (i : IsEndOf o after now end) → IsOnlyStream o now end i.packets i.fs n side }
{}

/// The segments of a connection are all of TCP, or all of one connection of uTP.
pub fn only_one_link()
    ensures { (o : Origin) (packets : List Captured) (came : List Arrival) (fs : List Finished) → AreAllOver o packets came fs
        → All (λ f. All (λ x. x.link ≡ f.pair.link) f.taken) fs }
{}
