//! Runs of the program over a desk in memory.

use sample_files::{E2, F2};
use sbpl_cli::{Gate, MemoryDesk, run};
use std::alloc::Global;
use std::sync::Wait;
use std::test::Fail;
use std::thread::Threads;

/// The texts of the files `e`, `m` and `c` of a desk, where it holds them.
pub(crate) type Files<'a> = [Option<&'a str>; 3];

/// A way around a cell at (2, 1), which changes, and changes back.
pub(crate) static DETOUR: Files<'static> = [
    Some(E2),
    Some(F2),
    Some("cell 2 1 100\nreplan\ncell 2 1 0\nreplan\n"),
];

/// Holds these files.
pub(crate) fn hold(files: &Files, desk: &mut MemoryDesk) -> Result<(), Fail> {
    for (name, text) in ["e", "m", "c"].iter().zip(files) {
        if let Some(text) = text {
            desk.hold(name, text.as_bytes())?;
        }
    }
    Ok(())
}

/// The words of a line.
pub(crate) fn words_of(alloc: Global, line: &str) -> Result<Vec<String>, Fail> {
    let mut words = Vec::new(alloc);
    for word in line.split(' ') {
        words.push(String::from_str(alloc, word)?)?;
    }
    Ok(words)
}

/// The status of a run of these words. Nothing is said of it here, so that what the run promises is not gone through at each call.
fn status_of<R: Threads + Wait + Sync, T: Gate + Sync>(
    rt: &R,
    alloc: Global,
    words: &str,
    gate: &T,
    desk: &mut MemoryDesk,
) -> Result<u8, Fail> {
    let words = words_of(alloc, words)?;
    Ok(run(rt, alloc, words.as_slice(), desk, gate))
}

/// Whether a report is as wanted, where up to two `..` stand for any text.
fn is_as(report: &[u8], wanted: &str) -> bool {
    let Ok(report) = str::from_utf8(report) else {
        return false;
    };
    let Some((start, rest)) = wanted.split_once("..") else {
        return report == wanted;
    };
    let (middle, end) = rest.split_once("..").unwrap_or(("", rest));
    report.starts_with(start) && report.contains(middle) && report.ends_with(end)
}

/// Whether a run of these words on a desk with these files, whose workers call a gate, ends with status 0 and this report,
/// in which up to two `..` stand for any text.
pub(crate) fn reports<R: Threads + Wait + Sync, T: Gate + Sync>(
    rt: &R,
    alloc: Global,
    files: &Files,
    words: &str,
    report: &str,
    gate: &T,
    desk: &mut MemoryDesk,
) -> Result<bool, Fail> {
    hold(files, desk)?;
    let status = status_of(rt, alloc, words, gate, desk)?;
    Ok(status == 0 && is_as(desk.written("-"), report))
}
