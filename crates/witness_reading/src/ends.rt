//! The last line.
ghost use Rattle.std.specs.Prelude.{◌≡◌, codes, OnOk, IfErr};
ghost use Rattle.witness_reading.specs.Ends.{StopsEnd};

use witness_laws::Law;
use witness_runs::Stop;
use witness_scanning::after;

/// The last line stands at the front, and nothing behind it.
pub fn end_due(bytes: &[u8]) -> Result<(), Stop>
    ensures ok { OnOk result (bytes.now ≡ codes "end\n") }
    ensures err { IfErr result (StopsEnd bytes.now) }
{
    let Some(behind) = after(bytes, b"end\n") else {
        return Err(Stop::At {
            left: bytes.len(),
            law: Law::Text,
        });
    };
    if behind.is_empty() {
        Ok(())
    } else {
        Err(Stop::At {
            left: behind.len(),
            law: Law::Text,
        })
    }
}
