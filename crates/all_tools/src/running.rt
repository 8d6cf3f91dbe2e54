//! The top call: words, files and sinks in, a status out.
ghost use Rattle.std.specs.Prelude.{◌≡◌, ◌≢◌, ◌≤◌, ◌+◌, ◌⊎◌, [], List, ℕ, Result, IfErr, IfSome, Some};
ghost use Rattle.outside.specs.Told.{Gains};
ghost use Rattle.faults.specs.FaultText.{fault_text};
ghost use Rattle.faults.specs.Statuses.{status_of};
ghost use Rattle.command_line.specs.Forms.{spoken};
ghost use Rattle.command_line.specs.Words.{command_of};
ghost use Rattle.loading.specs.Readings.{reading};
ghost use Rattle.loading.specs.Jobs.{IsJudged, RestsOn, Leaves};
ghost use Rattle.witness_delivery.specs.Delivery.{HoldsFile};
ghost use Rattle.tool.specs.Tasks.{IsTaskAnswer, Written};
ghost use Rattle.tool.specs.Ends.{Says, ReadFailed, WriteFailed, StopsAt, OthersStay, EndsAs};
ghost use Rattle.all_tools.specs.Lines.{asked};

use crate::words::Line;
use faults::{Fault, Status};
use outside::{Files, Gate, Sink};
use std::alloc::Global;
use std::thread::Threads;

/// Reads what the words ask for, and writes the file of the answer, where there is one, and its text
/// to `out`, or one line on a fault to `err`. The words are those after the program's name. All is
/// read and computed before the first write.
/// The runtime and the gate are not used yet.
pub fn run<R: Threads, F: Files, O: Sink, E: Sink, G: Gate + Sync>(
    _rt: &R,
    alloc: Global,
    words: &[String],
    files: &mut F,
    out: &mut O,
    err: &mut E,
    _gate: &G,
) -> Status
    // Done: the file, where one is written, and the whole text of a right answer were written, and
    // nothing else.
    ensures done { result ≡ Status.Done → (written : Written)
        × IsTaskAnswer (asked (spoken words.now)) (F.seen files.old) written
        × HoldsFile written.file (F.seen files.old).holds (F.seen files.new).holds
        × Gains (O.written out.old) (O.written out.new) written.text }
    ensures quiet { result ≡ Status.Done → Gains (E.written err.old) (E.written err.new) [] }

    // A failed write: of the file, and then nothing of the text was written; or of the text, of which
    // a front was written behind the whole file. The count rose, and the line says which.
    ensures write { result ≡ Status.Write → (written : Written)
        × IsTaskAnswer (asked (spoken words.now)) (F.seen files.old) written × (fault : Fault)
        × StopsAt fault written (F.seen files.old) (F.seen files.new)
        (O.written out.old) (O.written out.new) (O.faults out.old) (O.faults out.new)
        × Says (E.written err.old) (E.written err.new)
        (E.faults err.old) (E.faults err.new) (fault_text fault) }

    // A fault before the writing: its status, what it rests on, its line, nothing on `out`, and files
    // that hold what they held.
    ensures fault { result ≢ Status.Done → result ≢ Status.Write → (fault : Fault)
        × (result ≡ status_of fault)
        × RestsOn (asked (spoken words.now)).job (F.seen files.old) (F.seen files.new) fault
        × Says (E.written err.old) (E.written err.new)
        (E.faults err.old) (E.faults err.new) (fault_text fault)
        × Gains (O.written out.old) (O.written out.new) []
        × Leaves (asked (spoken words.now)).job (F.seen files.old) (F.seen files.new) }

    // Words of no form are refused, whatever the files tell.
    ensures words { IfErr (command_of (spoken words.now))
        (λ fault. (result ≡ status_of fault) ⊎ (result ≡ Status.NoMemory)) }

    // What words and files are judged to be decides, the first refusal or that there is none, but
    // for a failed read or write that was counted, and want of memory. So what is not refused is
    // done where no count rose, or memory was wanting.
    ensures exact { IfSome (F.seen files.old).holds (λ disk.
        (outcome : Result (asked (spoken words.now)).job.Input Fault)
        → IsJudged (asked (spoken words.now)).job (reading (Some disk)) outcome
        → EndsAs outcome
        (ReadFailed (asked (spoken words.now)).job.names (F.seen files.old) (F.seen files.new))
        (WriteFailed (asked (spoken words.now)).file (F.seen files.old) (F.seen files.new)
        (O.faults out.old) (O.faults out.new)) result) }

    // All other files hold what they held, and no more bytes were read than may be.
    ensures left { OthersStay (asked (spoken words.now)).file
        (F.seen files.old).holds (F.seen files.new).holds }
    ensures given { (F.seen files.new).given
        ≤ (F.seen files.old).given + (asked (spoken words.now)).job.most }
{
    tool::run(alloc, &Line::of(words), files, out, err)
}
