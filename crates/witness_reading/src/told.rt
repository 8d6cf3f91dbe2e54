//! What is told of the first line that fails.
ghost use Rattle.std.specs.Prelude.{◌≡◌};
ghost use Rattle.witness_reading.specs.Ends.{line_from, told_of};

use crate::lines::line_count;
use witness_laws::WitnessFault;
use witness_runs::Stop;

// The number of the line at the front of the last bytes, of which there are so many. Lines count
// from 1, and the three of the header stand before.
fn line_at(bytes: &[u8], left: usize) -> u64
    ensures { result ≡ line_from bytes.now left }
{
    let here = &bytes[bytes.len().saturating_sub(left)..];
    line_count(bytes).saturating_sub(line_count(here)) + 4
}

/// The fault of a text whose bytes behind the header are these, where its reading stops.
pub fn fault_at(bytes: &[u8], stop: Stop) -> WitnessFault
    ensures { result ≡ told_of bytes.now stop }
{
    match stop {
        Stop::At { left, law } => WitnessFault::At {
            line: line_at(bytes, left),
            law,
        },
        Stop::NoMemory => WitnessFault::NoMemory,
    }
}
