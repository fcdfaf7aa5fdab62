//! What a call is given beside its words.

use byte_streams::{Files, Sink, Source};
use std::marker::Model;

/// What a call of the program reads and what it writes: the files by their names, the input, and
/// where the output, the report and the images are put. It is seen as what each of them tells.
#[derive(Drop)]
pub struct Devices<F: Files, I: Source, O: Sink, P: Sink, G: Sink> {
    pub files: F,
    pub input: I,
    pub out: O,
    pub report: P,
    pub images: G,
}

impl<F: Files, I: Source, O: Sink, P: Sink, G: Sink> Model for Devices<F, I, O, P, G> {
    ghost use Rattle.jfluid_cli.specs.Sinks.{DevicesView, files_view, sink_view, source_view};

    ghost Value = { DevicesView };

    ghost view = { λ d. record {
      told = F.contents d.files;
      files = files_view (F.faults d.files) (F.last_failed d.files);
      input = source_view (I.left d.input) (I.faults d.input);
      out = sink_view (O.taken d.out) (O.faults d.out);
      report = sink_view (P.taken d.report) (P.faults d.report);
      images = sink_view (G.taken d.images) (G.faults d.images);
    } };
}
