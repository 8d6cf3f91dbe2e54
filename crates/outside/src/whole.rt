//! Whole files, whole texts and numbers.
ghost use Rattle.std.specs.Prelude.{◌≡◌, ◌++◌, ◌+◌, ◌<◌, ◌≤◌, ◌^◌, length, IfOk, OnOk, OnErr, IfSome, IsErrOf};
ghost use Rattle.outside.specs.Told.{Gains, GainsFront};
ghost use Rattle.outside.specs.Causes.{Rose, HasCause, NoneFell, more};
ghost use Rattle.outside.specs.Disk.{content};
ghost use Rattle.outside.specs.Decimal.{decimal};
ghost use Rattle.outside.specs.Handing.{HandsAll};
ghost use Rattle.outside.specs.declared.whole.ReadFault.TheVariants.{NoMemory};

use crate::{Failed, Files, Sink};
use itoa::Buffer;
use std::alloc::{AllocError as NoMemory, Global};
use thiserror::Error;

/// Why a file was not read as a whole.
#[derive(Clone, Copy, Debug, PartialEq, Eq, Error)]
pub enum ReadFault {
    #[error("a read failed")]
    Failed,
    #[error("the file is too long")]
    TooLong,
    #[error("out of memory")]
    NoMemory,
}

impl From<NoMemory> for ReadFault {
    ghost use Rattle.std.specs.Prelude.{◌≡◌};
    ghost use Rattle.outside.specs.declared.whole.ReadFault.TheVariants.{NoMemory};

    ghost from_gives = { λ _ fault. fault ≡ NoMemory };

    fn from(_e: NoMemory) -> ReadFault {
        ReadFault::NoMemory
    }
}

const BLOCK: usize = 65536;

/// All bytes of a file that has at most `limit`, itself at most `2 ^ 30`. `Failed` comes only where
/// `read_faults` of the name rose in this call. `TooLong` comes exactly where the file has more
/// than `limit` bytes and no read failed before that was seen; of a file that is not told only
/// where `given` rose by at least `limit + 1`. At most `limit + 1` bytes are read.
pub fn read_whole<F: Files>(
    alloc: Global,
    files: &mut F,
    name: &str,
    limit: u64,
) -> Result<Vec<u8>, ReadFault>
    requires { limit ≤ 2 ^ 30 }
    ensures bytes { IfOk result (λ bytes. IfSome (F.seen files.old).holds
        (λ disk. bytes.items ≡ content disk name.now)) }
    ensures within { IfOk result (λ bytes. length bytes.items ≤ limit) }
    ensures counted { IfOk result (λ bytes. (F.seen files.new).given
        ≡ more (F.seen files.old).given (length bytes.items)) }
    ensures failed { IsErrOf result ReadFault.Failed
        → Rose ((F.seen files.old).read_faults name.now) ((F.seen files.new).read_faults name.now) }
    ensures too_long { IsErrOf result ReadFault.TooLong
        → IfSome (F.seen files.old).holds (λ disk. limit < length (content disk name.now)) }
    ensures too_many { IsErrOf result ReadFault.TooLong → more (F.seen files.old).given (limit + 1)
        ≤ (F.seen files.new).given }
    ensures given { (F.seen files.new).given ≤ (F.seen files.old).given + (limit + 1) }
    ensures holds { (F.seen files.new).holds ≡ (F.seen files.old).holds }
    ensures reads { NoneFell (F.seen files.old).read_faults (F.seen files.new).read_faults }
    ensures writes { NoneFell (F.seen files.old).write_faults (F.seen files.new).write_faults }
{
    let limit = limit as usize;
    let mut bytes = Vec::new(alloc);
    let mut block = [0u8; BLOCK];
    while bytes.len() <= limit {
        let room = (limit + 1 - bytes.len()).min(BLOCK);
        let at = bytes.len();
        match files.read_at(name, at as u64, &mut block[..room]) {
            Ok(0) => return Ok(bytes),
            Ok(n) => bytes.extend_from_slice(&block[..n])?,
            Err(_) => return Err(ReadFault::Failed),
        }
    }
    Err(ReadFault::TooLong)
}

/// Writes all the bytes, handing the whole rest to each write. `Failed` comes only where `faults`
/// rose, and then a prefix was written. Takes no memory.
#[tactic(auto, using(crate::proofs::Gaining::gains_more, crate::proofs::Gaining::gains_front))]
pub fn send_all<S: Sink>(sink: &mut S, bytes: &[u8]) -> Result<(), Failed>
    ensures sent { OnOk result (Gains (S.written sink.old) (S.written sink.new) bytes.now) }
    ensures front { OnErr result (GainsFront (S.written sink.old) (S.written sink.new) bytes.now) }
    ensures cause { HasCause (S.faults sink.old) (S.faults sink.new) result }
    ensures hands { HandsAll S.may_write sink.old bytes.now result sink.new }
{
    let mut sent = 0;
    while sent < bytes.len() {
        let n = sink.write(&bytes[sent..])?;
        if n == 0 {
            return Err(Failed);
        }
        sent += n;
    }
    Ok(())
}

/// Appends the decimal text of a number. After want of memory the vector is as it was.
pub fn put_number(to: &mut Vec<u8>, n: i64) -> Result<(), NoMemory>
    ensures ok { OnOk result (to.new.items ≡ to.old.items ++ decimal n) }
    ensures err { OnErr result (to.new.items ≡ to.old.items) }
{
    let mut buffer = Buffer::new();
    to.extend_from_slice(buffer.format(n).as_bytes())
}
