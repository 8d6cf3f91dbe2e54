//! What a run writes: a file and its report, or one line on its fault.
ghost use Rattle.std.specs.Prelude.{◌≡◌, ◌⊎◌, []};
ghost use Rattle.outside.specs.Told.{Gains};
ghost use Rattle.faults.specs.FaultText.{fault_text};
ghost use Rattle.faults.specs.Statuses.{status_of};
ghost use Rattle.witness_delivery.specs.Delivery.{HoldsFile};
ghost use Rattle.tool.specs.Ends.{IsLineOn, Says, StopsAt};

use crate::output::Output;
use faults::{Fault, Status, fault_text};
use outside::{Files, Sink, send_all};
use std::alloc::Global;
use witness_delivery::Delivered;

/// Writes what is to be written, or as much of it as can be and the line on that, which is given for
/// the file.
pub fn deliver<F: Files, O: Sink, E: Sink>(
    output: &Output,
    line: &[u8],
    files: &mut F,
    out: &mut O,
    err: &mut E,
) -> Status
    requires { IsLineOn output.now.file line.now }
    ensures status { (result ≡ Status.Done) ⊎ (result ≡ Status.Write) }
    ensures done { result ≡ Status.Done
        → HoldsFile output.now.file (F.seen files.old).holds (F.seen files.new).holds
        × Gains (O.written out.old) (O.written out.new) output.now.text }
    ensures quiet { result ≡ Status.Done → Gains (E.written err.old) (E.written err.new) [] }
    ensures write { result ≡ Status.Write → (fault : Fault)
        × StopsAt fault output.now (F.seen files.old) (F.seen files.new)
        (O.written out.old) (O.written out.new) (O.faults out.old) (O.faults out.new)
        × Says (E.written err.old) (E.written err.new)
        (E.faults err.old) (E.faults err.new) (fault_text fault) }
    ensures given { (F.seen files.new).given ≡ (F.seen files.old).given }
{
    match witness_delivery::deliver(output.file(), output.text(), files, out) {
        Delivered::Whole => Status::Done,
        Delivered::NoReport => {
            say(b"error: cannot write standard output\n", err);
            Status::Write
        }
        Delivered::NoFile => {
            say(line, err);
            Status::Write
        }
    }
}

/// Writes the line on a fault, or the one on want of memory where there is none for that line.
pub fn refuse<E: Sink>(alloc: Global, fault: &Fault, err: &mut E) -> Status
    ensures { (said : Fault) × ((said ≡ fault.now) ⊎ (said ≡ Fault.OutOfMemory))
        × (result ≡ status_of said) × Says (E.written err.old) (E.written err.new)
        (E.faults err.old) (E.faults err.new) (fault_text said) }
{
    match fault_text(alloc, fault) {
        Ok(line) => {
            say(&line, err);
            Status::of(fault)
        }
        Err(_) => say_no_memory(err),
    }
}

/// Writes the line on want of memory.
pub fn say_no_memory<E: Sink>(err: &mut E) -> Status
    ensures status { result ≡ Status.NoMemory }
    ensures line { Says (E.written err.old) (E.written err.new)
        (E.faults err.old) (E.faults err.new) (fault_text Fault.OutOfMemory) }
{
    say(b"error: out of memory\n", err);
    Status::NoMemory
}

// Writes a line as far as it can be.
fn say<E: Sink>(line: &[u8], err: &mut E)
    ensures { Says (E.written err.old) (E.written err.new)
        (E.faults err.old) (E.faults err.new) line.now }
{
    let _ = send_all(err, line);
}
