//! Rows of words with what a run of them has to answer.
use all_tools::run;
use faults::Status;
use outside::{MemFiles, MemSink, OpenGate};
use std::alloc::Global;
use std::process::Abort;
use std::test::Fail;
use std::thread::Threads;

/// Words, which reads and writes fail, how many bytes a write takes, and what a run has to answer.
#[derive(Clone, Copy, Drop)]
pub struct Row {
    pub words: &'static [&'static str],
    pub failing_reads: &'static [u64],
    pub failing_writes: &'static [u64],
    pub most: usize,
    pub status: Status,
    pub out: &'static str,
    pub err: &'static str,
}

/// A run that is done and prints nothing.
pub const DONE: Row = Row {
    words: &[],
    failing_reads: &[],
    failing_writes: &[],
    most: 1000,
    status: Status::Done,
    out: "",
    err: "",
};

/// The words of a run.
pub fn words_of(alloc: Global, words: &[&str]) -> Result<Vec<String>, Fail> {
    let mut list = Vec::new(alloc);
    for word in words {
        list.push(String::from_str(alloc, word)?)?;
    }
    Ok(list)
}

/// Files in memory, by their names and texts.
pub fn held(alloc: Global, named: &[(&str, &str)]) -> Result<Vec<(String, Vec<u8>)>, Fail> {
    let mut files = Vec::new(alloc);
    for (name, text) in named {
        let name = String::from_str(alloc, name)?;
        files.push((name, Vec::from_slice(alloc, text.as_bytes())?))?;
    }
    Ok(files)
}

/// With ample memory each row has its status, which is never that of want of memory.
pub fn answers<R: Threads + Abort>(
    rt: &R,
    alloc: Global,
    named: &[(&str, &str)],
    row: &Row,
) -> Result<(), Fail> {
    let words = words_of(alloc, row.words)?;
    let failing = Vec::from_slice(alloc, row.failing_reads)?;
    let mut files = MemFiles::of(alloc, held(alloc, named)?, failing);
    let failing = Vec::from_slice(alloc, row.failing_writes)?;
    let mut out = MemSink::of(alloc, failing, row.most.max(1));
    let mut err = MemSink::of(alloc, Vec::new(alloc), 1000);
    let status = run(rt, alloc, &words, &mut files, &mut out, &mut err, &OpenGate);
    assert!(rt; status == row.status, "{:?}", status);
    assert!(rt; status != Status::NoMemory);
    assert_eq!(rt; out.bytes(), row.out.as_bytes());
    assert_eq!(rt; err.bytes(), row.err.as_bytes());
    Ok(())
}

/// Each of the rows, over the same files.
pub fn all_answer<R: Threads + Abort>(
    rt: &R,
    alloc: Global,
    named: &[(&str, &str)],
    rows: &[Row],
) -> Result<(), Fail> {
    for row in rows {
        answers(rt, alloc, named, row)?;
    }
    Ok(())
}

/// With ample memory a run ends with this status, and prints these texts to `out` and `err`.
pub fn ends<R: Threads + Abort>(
    rt: &R,
    alloc: Global,
    named: &[(&str, &str)],
    words: &[&str],
    wanted: Status,
    texts: (&str, &str),
) -> Result<(), Fail> {
    let mut files = MemFiles::of(alloc, held(alloc, named)?, Vec::new(alloc));
    ends_over(rt, alloc, &mut files, words, wanted, texts)
}

/// The same over files that stay, with what the run writes to them.
pub fn ends_over<R: Threads + Abort>(
    rt: &R,
    alloc: Global,
    files: &mut MemFiles,
    words: &[&str],
    wanted: Status,
    texts: (&str, &str),
) -> Result<(), Fail> {
    let words = words_of(alloc, words)?;
    let mut out = MemSink::of(alloc, Vec::new(alloc), 1000);
    let mut err = MemSink::of(alloc, Vec::new(alloc), 1000);
    let status = run(rt, alloc, &words, files, &mut out, &mut err, &OpenGate);
    assert_eq!(rt; err.bytes(), texts.1.as_bytes());
    assert_eq!(rt; out.bytes(), texts.0.as_bytes());
    assert!(rt; status == wanted, "{:?}", status);
    Ok(())
}

/// With ample memory a run is done, and prints this.
pub fn prints<R: Threads + Abort>(
    rt: &R,
    alloc: Global,
    named: &[(&str, &str)],
    words: &[&str],
    text: &str,
) -> Result<(), Fail> {
    ends(rt, alloc, named, words, Status::Done, (text, ""))
}

/// The status of a run of a tool over one file.
pub fn status_over<R: Threads>(
    rt: &R,
    alloc: Global,
    words: &[&str],
    name: &str,
    text: Vec<u8>,
) -> Result<Status, Fail> {
    let mut named = Vec::new(alloc);
    named.push((String::from_str(alloc, name)?, text))?;
    status_with(rt, alloc, words, named)
}

/// The status of a run of a tool over files of these names and bytes.
pub fn status_with<R: Threads>(
    rt: &R,
    alloc: Global,
    words: &[&str],
    named: Vec<(String, Vec<u8>)>,
) -> Result<Status, Fail> {
    let words = words_of(alloc, words)?;
    let mut files = MemFiles::of(alloc, named, Vec::new(alloc));
    let mut out = MemSink::of(alloc, Vec::new(alloc), 1_000_000);
    let mut err = MemSink::of(alloc, Vec::new(alloc), 1000);
    Ok(run(rt, alloc, &words, &mut files, &mut out, &mut err, &OpenGate))
}
