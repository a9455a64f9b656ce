//! Writes the text, line by line.
ghost use Rattle.std.specs.Prelude.{◌≡◌, ◌<◌, ◌≤◌, ◌==◌, length, position, OnOk, OnErr};
ghost use Rattle.std.specs.Io.KnownBytes.{Appends};
ghost use Rattle.cd_outside.specs.Outside.{HasCause, AppendsFront, Gives};
ghost use Rattle.cd_report.specs.Pieces.{first_line_length, pieces_of, StopsInLine};

use cd_outside::{Sink, SinkFailed};

/// Writes the text, each line with its line feed in one call. After a failed write nothing more is written.
pub fn send<K: Sink>(sink: &mut K, text: &[u8]) -> Result<(), SinkFailed>
    ensures cause { HasCause (K.faults sink.old) (K.faults sink.new) result }
    ensures whole { OnOk result (Appends (K.taken sink.old) (K.taken sink.new) text.now) }
    ensures front { OnErr result (AppendsFront (K.taken sink.old) (K.taken sink.new) text.now) }
    ensures pieces { OnOk result (Gives (K.pieces sink.old) (K.pieces sink.new) (pieces_of text.now)) }
    ensures short { OnErr result (StopsInLine (K.taken sink.old) (K.taken sink.new) (K.pieces sink.old) (K.pieces sink.new) text.now) }
{
    let mut rest = text;
    while !rest.is_empty() {
        let (line, after) = rest.split_at(first_line(rest));
        sink.write(line)?;
        rest = after;
    }
    Ok(())
}

// How many bytes the first line has, with its line feed.
fn first_line(text: &[u8]) -> usize
    requires { 0 < length text.now }
    ensures length { result ≡ first_line_length text.now }
    ensures some { 0 < result }
    ensures within { result ≤ length text.now }
{
    match first_feed(text) {
        Some(place) => place + 1,
        None => text.len(),
    }
}

fn first_feed(text: &[u8]) -> Option<usize>
    ensures { result ≡ position (λ b. b == 10) text.now }
{
    text.iter().position(|b| *b == b'\n')
}
