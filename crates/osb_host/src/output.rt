//! Standard output as a sink.
ghost use Rattle.std.specs.Prelude.{◌≡◌, None};
ghost use Rattle.osb_base.specs.Faults.{HasCause};

use crate::writings::write_piece;
use osb_base::{Failed, Sink};
use std::io;

#[derive(Drop)]
pub struct Output<R: Print> {
    printer: R,
    faults: u64,
}

impl<R: Print> Output<R> {
    pub fn new(printer: R) -> Self
        ensures sound { ⟦<Output<R> as Sink>⟧.sink_faults result ≡ 0 }
    {
        Output { printer, faults: 0 }
    }
}

impl<R: Print> Sink for Output<R> {
    ghost taken = { λ _. None };

    ghost sink_faults = { λ s. s.faults };

    fn write(&mut self, piece: &[u8]) -> Result<usize, Failed> {
        let taken = write_piece(&mut io::writer(&self.printer), piece);
        if taken.is_err() {
            self.faults = self.faults.saturating_add(1);
        }
        taken
    }
}
