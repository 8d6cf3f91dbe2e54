//! The file that is to be written, and then the report.
ghost use Rattle.std.specs.Prelude.{◌≡◌, [], option_map};
ghost use Rattle.outside.specs.Told.{Gains, GainsFront};
ghost use Rattle.outside.specs.Causes.{NoneFell, Rose};
ghost use Rattle.witness_delivery.specs.Delivery.{HoldsFile, LacksFile, whole};

use crate::whole_file::put_file;
use outside::{Files, Sink, send_all};

/// How far the writing came.
#[derive(Clone, Copy, Debug, PartialEq, Eq)]
pub enum Delivered {
    /// All was written.
    Whole,
    /// The file was written, and of the report a front.
    NoReport,
    /// The file was not written whole, and of the report nothing.
    NoFile,
}

/// Writes a file, where there is one, by its name and bytes, and then the report. `NoFile` comes
/// only where `write_faults` of its name rose, and `NoReport` only where `faults` of `out` rose. It
/// takes no memory.
pub fn deliver<F: Files, O: Sink>(
    file: Option<(&str, &[u8])>,
    text: &[u8],
    files: &mut F,
    out: &mut O,
) -> Delivered
    ensures whole { result ≡ Delivered.Whole
        → HoldsFile (option_map (λ w. whole w.0.now w.1.now) file.entry)
        (F.seen files.old).holds (F.seen files.new).holds
        × Gains (O.written out.old) (O.written out.new) text.now }
    ensures report { result ≡ Delivered.NoReport
        → HoldsFile (option_map (λ w. whole w.0.now w.1.now) file.entry)
        (F.seen files.old).holds (F.seen files.new).holds
        × GainsFront (O.written out.old) (O.written out.new) text.now
        × Rose (O.faults out.old) (O.faults out.new) }
    ensures file { result ≡ Delivered.NoFile
        → LacksFile (option_map (λ w. whole w.0.now w.1.now) file.entry)
        (F.seen files.old) (F.seen files.new)
        × Gains (O.written out.old) (O.written out.new) [] }
    ensures reads { NoneFell (F.seen files.old).read_faults (F.seen files.new).read_faults }
    ensures given { (F.seen files.new).given ≡ (F.seen files.old).given }
{
    if let Some((name, bytes)) = file {
        if put_file(files, name, bytes).is_err() {
            return Delivered::NoFile;
        }
    }
    if send_all(out, text).is_err() {
        return Delivered::NoReport;
    }
    Delivered::Whole
}
