//! The outside: each public call once, on values from outside, and a real file of many blocks.
ghost use Rattle.std.specs.Prelude.{◌≤◌, ◌^◌, length};

use outside::{
    Failed, Files, Gate, Lexer, MemFiles, MemSink, OpenGate, QuietFiles, QuietSink, ReadFault,
    RealFiles, RealSink, Sink, Token, put_number, read_whole, send_all,
};
use std::alloc::{AllocError, Global};
use std::fs::File;
use std::io::Write;
use std::process::Abort;
use std::test::Fail;
use std::{fs, io};

const TEXT: &[u8] = b"(0 0)";

// One file of the name `q`.
fn one_file(alloc: Global) -> Result<Vec<(String, Vec<u8>)>, AllocError> {
    let mut files = Vec::new(alloc);
    let name = String::from_str(alloc, "q")?;
    files.push((name, Vec::from_slice(alloc, TEXT)?))?;
    Ok(files)
}

// That file in memory, where calls of these numbers fail.
fn in_memory(alloc: Global, failing: &[u64]) -> Result<MemFiles, AllocError> {
    let held = one_file(alloc)?;
    Ok(MemFiles::of(alloc, held, Vec::from_slice(alloc, failing)?))
}

// Whether the whole file has these bytes, and a limit of one less refuses it.
fn holds<F: Files>(alloc: Global, files: &mut F, name: &str, bytes: &[u8]) -> bool
    requires { length bytes.now ≤ 2 ^ 30 }
{
    let limit = bytes.len() as u64;
    let Ok(found) = read_whole(alloc, files, name, limit) else {
        return false;
    };
    let whole = found.as_slice() == bytes;
    whole && (limit == 0 || refuses(alloc, files, name, limit - 1, ReadFault::TooLong))
}

// Whether the file is refused with the fault.
fn refuses<F: Files>(alloc: Global, files: &mut F, name: &str, limit: u64, fault: ReadFault) -> bool
    requires { limit ≤ 2 ^ 30 }
{
    match read_whole(alloc, files, name, limit) {
        Ok(_) => false,
        Err(found) => found == fault,
    }
}

#[test]
fn whole_files_have_at_most_the_limit(rt: HostRuntime) -> Result<(), Fail> {
    let alloc = rt.alloc();
    let mut files = in_memory(alloc, &[])?;
    assert!(rt; holds(alloc, &mut files, "q", TEXT));
    assert!(rt; refuses(alloc, &mut files, "p", 5, ReadFault::Failed));
    let mut failing = in_memory(alloc, &[2])?;
    assert!(rt; refuses(alloc, &mut failing, "q", 5, ReadFault::Failed));
    Ok(())
}

#[test]
fn memory_keeps_what_is_appended(rt: HostRuntime) -> Result<(), Fail> {
    let mut files = in_memory(rt.alloc(), &[3])?;
    assert!(rt; files.append("q", b"[1]", false).is_ok());
    assert!(rt; files.append("w", b"new", false).is_ok());
    assert!(rt; files.append("w", b"lost", true).is_err());
    assert!(rt; files.refused() == 0);
    assert!(rt; holds(rt.alloc(), &mut files, "q", b"(0 0)[1]"));
    assert!(rt; holds(rt.alloc(), &mut files, "w", b"new"));
    Ok(())
}

#[test]
fn sinks_in_memory_take_a_few_bytes_at_a_time(rt: HostRuntime) -> Result<(), Fail> {
    let alloc = rt.alloc();
    let mut sink = MemSink::of(alloc, Vec::from_slice(alloc, &[4])?, 5);
    assert!(rt; send_all(&mut sink, b"H_0 = Z_2\n").is_ok());
    assert!(rt; send_all(&mut sink, b"H_1 = 0\n").is_err());
    assert!(rt; sink.bytes() == b"H_0 = Z_2\nH_1 =".as_slice() && sink.refused() == 0);
    Ok(())
}

#[test]
fn quiet_objects_never_fail(rt: HostRuntime) -> Result<(), Fail> {
    let mut files = QuietFiles::of(one_file(rt.alloc())?);
    assert!(rt; files.append("q", b"dropped", true).is_ok());
    assert!(rt; holds(rt.alloc(), &mut files, "q", TEXT));
    assert!(rt; holds(rt.alloc(), &mut files, "p", b""));
    assert!(rt; send_all(&mut QuietSink::new(), b"dropped").is_ok());
    OpenGate.enter(0);
    OpenGate.leave(0);
    Ok(())
}

#[test]
fn a_real_sink_writes_what_real_files_read(rt: HostRuntime) -> Result<(), Fail> {
    let name = "outside_real_sink.tmp";
    let mut sink = RealSink::of(File::create(&rt, name)?);
    assert!(rt; send_all(&mut sink, TEXT).is_ok());
    drop(sink);
    let mut real = RealFiles::of(rt.clone()?);
    assert!(rt; holds(rt.alloc(), &mut real, name, TEXT));
    fs::remove_file(&rt, name)?;
    assert!(rt; refuses(rt.alloc(), &mut real, name, 9, ReadFault::Failed));
    assert!(rt; refuses(rt.alloc(), &mut real, ".", 9, ReadFault::Failed));
    Ok(())
}

#[test]
fn real_files_keep_what_is_appended(rt: HostRuntime) -> Result<(), Fail> {
    let name = "outside_real_files.tmp";
    let mut real = RealFiles::of(rt.clone()?);
    assert!(rt; real.append(name, TEXT, true).is_ok());
    assert!(rt; real.append(name, b" (1 1)", false).is_ok());
    assert!(rt; holds(rt.alloc(), &mut real, name, b"(0 0) (1 1)"));
    assert!(rt; real.append(name, b"anew", true).is_ok());
    assert!(rt; holds(rt.alloc(), &mut real, name, b"anew"));
    fs::remove_file(&rt, name)?;
    Ok(())
}

// As many bytes as three blocks of 65,536 and some more have, no two of which are alike.
fn long_text(alloc: Global) -> Result<Vec<u8>, AllocError> {
    let mut bytes = Vec::with_capacity(alloc, 200_001)?;
    for place in 0..200_001usize {
        bytes.push((place % 251) as u8)?;
    }
    Ok(bytes)
}

// Whether a file that holds these bytes gives as many from a place on, at most 2 ^ 30, as there is
// room for, up to the end.
fn gives<F: Files>(files: &mut F, name: &str, bytes: &[u8], at: usize) -> bool {
    let at = at.min(1 << 30);
    let mut block = [0u8; 4096];
    let start = at.min(bytes.len());
    let end = (at + 4096).min(bytes.len());
    match files.read_at(name, at as u64, &mut block) {
        Ok(n) => {
            let found = &block[..n];
            found == &bytes[start..end]
        }
        Err(_) => false,
    }
}

// Whether a new file of the name takes the bytes in five pieces.
fn takes<F: Files>(files: &mut F, name: &str, bytes: &[u8]) -> bool {
    if bytes.len() < 196_609 || bytes.len() > 262_145 {
        return false;
    }
    files.append(name, &bytes[..1], true).is_ok()
        && files.append(name, &bytes[1..65_537], false).is_ok()
        && files.append(name, &bytes[65_537..131_073], false).is_ok()
        && files.append(name, &bytes[131_073..196_609], false).is_ok()
        && files.append(name, &bytes[196_609..], false).is_ok()
}

#[test]
fn a_long_real_file_is_read_from_each_place(rt: HostRuntime) -> Result<(), Fail> {
    let name = "outside_long_file.tmp";
    let bytes = long_text(rt.alloc())?;
    assert!(rt; bytes.len() == 200_001);
    let mut real = RealFiles::of(rt.clone()?);
    assert!(rt; takes(&mut real, name, &bytes) && holds(rt.alloc(), &mut real, name, &bytes));
    for at in [
        0, 1, 63, 65, 65_535, 65_536, 65_537, 131_072, 196_608, 199_999, 200_000, 200_001, 200_002,
        265_537,
    ] {
        assert!(rt; gives(&mut real, name, &bytes, at), "at {at}");
    }
    assert!(rt; real.read_at(name, 70_000, &mut []) == Ok(0));
    fs::remove_file(&rt, name)?;
    Ok(())
}

#[test]
fn what_is_no_file_gives_no_bytes(rt: HostRuntime) -> Result<(), Fail> {
    let mut real = RealFiles::of(rt.clone()?);
    assert!(rt; real.read_at("outside_no_file.tmp", 0, &mut [0u8; 4]) == Err(Failed));
    assert!(rt; real.read_at(".", 0, &mut [0u8; 4]) == Err(Failed));
    Ok(())
}

// A stream that takes two bytes at a time, and nothing more after so many.
#[derive(Drop)]
struct Narrow {
    left: usize,
}

impl Write for Narrow {
    fn write(&mut self, buf: &[u8]) -> io::Result<usize> {
        let n = buf.len().min(2).min(self.left);
        self.left -= n;
        Ok(n)
    }

    fn flush(&mut self) -> io::Result<()> {
        Ok(())
    }
}

#[test]
fn a_stream_that_stalls_takes_a_front(rt: HostRuntime) {
    let mut sink = RealSink::of(Narrow { left: 7 });
    assert!(rt; sink.write(b"even") == Ok(4));
    assert!(rt; sink.write(b"longer") == Ok(3));
    assert!(rt; sink.write(b"ger") == Err(Failed));
    assert!(rt; sink.write(b"") == Ok(0));
    assert!(rt; send_all(&mut sink, TEXT) == Err(Failed));
}

#[test]
fn numbers_are_decimal(rt: HostRuntime) -> Result<(), Fail> {
    let mut text = Vec::new(rt.alloc());
    put_number(&mut text, -7)?;
    put_number(&mut text, 120)?;
    assert!(rt; text.as_slice() == b"-7120".as_slice());
    Ok(())
}

#[test]
fn every_kind_of_token_has_its_place(rt: HostRuntime) {
    let text = b"ab,-7 -> 007;-1 (\n9223372036854775808 -9223372036854775808\t-x$[";
    let mut lexer = Lexer::new(text);
    for (place, token) in [
        (0, Token::Word(b"ab")),
        (3, Token::Number(-7)),
        (6, Token::Arrow),
        (9, Token::Number(7)),
        (18, Token::Wide),
        (38, Token::Number(i64::MIN)),
        (59, Token::Other(b'-')),
        (60, Token::Word(b"x")),
        (61, Token::Other(b'$')),
        (62, Token::Mark(b'[')),
        (63, Token::End),
        (63, Token::End),
    ] {
        assert!(rt; lexer.next() == (place, token), "at {place}");
    }
}

#[test]
fn the_rest_of_a_line_ends_at_its_line_feed(rt: HostRuntime) {
    let mut lexer = Lexer::new(b"note (1) ; 2\n3");
    assert!(rt; lexer.next() == (0, Token::Word(b"note")));
    assert!(rt; lexer.line_rest() == (4, b" (1) ; 2".as_slice()));
    assert!(rt; lexer.line_rest().1.is_empty());
    assert!(rt; lexer.next() == (13, Token::Number(3)));
    assert!(rt; lexer.line_rest().0 == 14);
}
