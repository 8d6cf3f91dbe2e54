//! A whole file is written in pieces.
ghost use Rattle.std.specs.Prelude.{◌≡◌, true, OnOk, OnErr};
ghost use Rattle.outside.specs.Told.{Told};
ghost use Rattle.outside.specs.Causes.{HasCause, NoneFell};
ghost use Rattle.outside.specs.Disk.{Puts, MayPut};

use outside::{Failed, Files};

// The most bytes of one piece.
const PIECE: usize = 65536;

/// Makes a file anew with these bytes, in pieces of at most 65,536. `Failed` comes only where
/// `write_faults` of the name rose; the file then holds what it held, or a front of the bytes. All
/// other files stay. It takes no memory.
#[tactic(auto, using(crate::proofs::Pieces::put_front))]
pub fn put_file<F: Files>(files: &mut F, name: &str, bytes: &[u8]) -> Result<(), Failed>
    ensures put { OnOk result (Told (F.seen files.old).holds (F.seen files.new).holds
        (Puts name.now bytes.now)) }
    ensures front { OnErr result (Told (F.seen files.old).holds (F.seen files.new).holds
        (MayPut true name.now bytes.now)) }
    ensures cause { HasCause ((F.seen files.old).write_faults name.now)
        ((F.seen files.new).write_faults name.now) result }
    ensures reads { NoneFell (F.seen files.old).read_faults (F.seen files.new).read_faults }
    ensures writes { NoneFell (F.seen files.old).write_faults (F.seen files.new).write_faults }
    ensures given { (F.seen files.new).given ≡ (F.seen files.old).given }
{
    let mut done = bytes.len().min(PIECE);
    files.append(name, &bytes[..done], true)?;
    while done < bytes.len() {
        let next = done + (bytes.len() - done).min(PIECE);
        files.append(name, &bytes[done..next], false)?;
        done = next;
    }
    Ok(())
}
