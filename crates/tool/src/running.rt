//! The top call: what is asked, files and sinks in, a status out.
ghost use Rattle.std.specs.Prelude.{◌≡◌, ◌≢◌, ◌≤◌, ◌+◌, ◌⊎◌, [], List, ℕ, Result, Some, IfSome};
ghost use Rattle.outside.specs.Told.{Gains};
ghost use Rattle.faults.specs.FaultText.{fault_text};
ghost use Rattle.faults.specs.Statuses.{status_of};
ghost use Rattle.loading.specs.Readings.{reading};
ghost use Rattle.loading.specs.Jobs.{IsJudged, IsRefusedWith, RestsOn, Leaves};
ghost use Rattle.witness_delivery.specs.Delivery.{HoldsFile};
ghost use Rattle.tool.specs.Tasks.{IsTaskAnswer, Written};
ghost use Rattle.tool.specs.Ends.{Says, ReadFailed, WriteFailed, StopsAt, OthersStay, EndsAs};

use crate::delivery::{deliver, refuse, say_no_memory};
use crate::output::Output;
use crate::tool::Tool;
use faults::{Fault, Status};
use outside::{Files, Sink};
use std::alloc::Global;

/// Does what is asked, and writes the file of the answer, where there is one, and its text to `out`,
/// or one line on a fault to `err`. All is read and computed, and all texts are made, before the
/// first write.
pub fn run<T: Tool, F: Files, O: Sink, E: Sink>(
    alloc: Global,
    tool: &T,
    files: &mut F,
    out: &mut O,
    err: &mut E,
) -> Status
    // Done: the file and the whole text of a right answer were written, and nothing else.
    ensures done { result ≡ Status.Done → (written : Written)
        × IsTaskAnswer (T.task tool.now) (F.seen files.old) written
        × HoldsFile written.file (F.seen files.old).holds (F.seen files.new).holds
        × Gains (O.written out.old) (O.written out.new) written.text }
    ensures quiet { result ≡ Status.Done → Gains (E.written err.old) (E.written err.new) [] }

    // A failed write: of the file, and then nothing of the text was written; or of the text, of which
    // a front was written behind the whole file. The count rose, and the line says which.
    ensures write { result ≡ Status.Write → (written : Written)
        × IsTaskAnswer (T.task tool.now) (F.seen files.old) written × (fault : Fault)
        × StopsAt fault written (F.seen files.old) (F.seen files.new)
        (O.written out.old) (O.written out.new) (O.faults out.old) (O.faults out.new)
        × Says (E.written err.old) (E.written err.new)
        (E.faults err.old) (E.faults err.new) (fault_text fault) }

    // A fault before the writing: its status, what it rests on, its line, nothing on `out`, and files
    // that hold what they held.
    ensures fault { result ≢ Status.Done → result ≢ Status.Write → (fault : Fault)
        × (result ≡ status_of fault)
        × RestsOn (T.task tool.now).job (F.seen files.old) (F.seen files.new) fault
        × Says (E.written err.old) (E.written err.new)
        (E.faults err.old) (E.faults err.new) (fault_text fault)
        × Gains (O.written out.old) (O.written out.new) []
        × Leaves (T.task tool.now).job (F.seen files.old) (F.seen files.new) }

    // What is refused whatever the files hold is refused so, also where they tell nothing.
    ensures refused { (fault : Fault) → IsRefusedWith (T.task tool.now).job fault
        → (result ≡ status_of fault) ⊎ (result ≡ Status.NoMemory) }

    // What the files are judged to be decides, but for a failed read or write that was counted, and
    // want of memory.
    ensures exact { IfSome (F.seen files.old).holds (λ disk.
        (outcome : Result (T.task tool.now).job.Input Fault)
        → IsJudged (T.task tool.now).job (reading (Some disk)) outcome
        → EndsAs outcome
        (ReadFailed (T.task tool.now).job.names (F.seen files.old) (F.seen files.new))
        (WriteFailed (T.task tool.now).file (F.seen files.old) (F.seen files.new)
        (O.faults out.old) (O.faults out.new)) result) }

    // All other files hold what they held, and no more bytes were read than may be.
    ensures left { OthersStay (T.task tool.now).file
        (F.seen files.old).holds (F.seen files.new).holds }
    ensures given { (F.seen files.new).given
        ≤ (F.seen files.old).given + (T.task tool.now).job.most }
{
    match tool.answer(alloc, files) {
        Ok(output) => conclude(alloc, &output, files, out, err),
        Err(fault) => refuse(alloc, &fault, err),
    }
}

// Makes the line that may be due, and then writes.
fn conclude<F: Files, O: Sink, E: Sink>(
    alloc: Global,
    output: &Output,
    files: &mut F,
    out: &mut O,
    err: &mut E,
) -> Status
    ensures ends { (result ≡ Status.Done) ⊎ (result ≡ Status.Write) ⊎ (result ≡ Status.NoMemory) }
    ensures done { result ≡ Status.Done
        → HoldsFile output.now.file (F.seen files.old).holds (F.seen files.new).holds
        × Gains (O.written out.old) (O.written out.new) output.now.text }
    ensures quiet { result ≡ Status.Done → Gains (E.written err.old) (E.written err.new) [] }
    ensures write { result ≡ Status.Write → (fault : Fault)
        × StopsAt fault output.now (F.seen files.old) (F.seen files.new)
        (O.written out.old) (O.written out.new) (O.faults out.old) (O.faults out.new)
        × Says (E.written err.old) (E.written err.new)
        (E.faults err.old) (E.faults err.new) (fault_text fault) }
    ensures memory { result ≡ Status.NoMemory → Says (E.written err.old) (E.written err.new)
        (E.faults err.old) (E.faults err.new) (fault_text Fault.OutOfMemory)
        × Gains (O.written out.old) (O.written out.new) []
        × ((F.seen files.new).holds ≡ (F.seen files.old).holds) }
    ensures given { (F.seen files.new).given ≡ (F.seen files.old).given }
{
    match output.line_on_file(alloc) {
        Ok(line) => deliver(output, &line, files, out, err),
        Err(_) => say_no_memory(err),
    }
}
