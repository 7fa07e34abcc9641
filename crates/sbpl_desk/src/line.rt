//! The lines of an input, taken from the bytes that have come.
ghost use Rattle.std.specs.Prelude.{◌≡◌, ◌≤◌, ◌==◌, ◌&&◌, true, [], Vec, MatchOption, OnOk, OnErr, drop, length, take, vec_len};
ghost use Rattle.std.specs.Io.BufRead.{drop_through, ends_with_byte, strip_last, take_through};
ghost use Rattle.sbpl_desk.specs.Hearing.{HasNoFeed, IsFeedAt, heard_of, without_end};

use crate::desk::MOST_OF_LINE;
use std::alloc::{AllocError, Allocator};

/// Where the first line feed stands.
pub(crate) fn feed_at(bytes: &[u8]) -> Option<usize>
    ensures { MatchOption result (HasNoFeed bytes.now) (λ at. IsFeedAt bytes.now at) }
{
    bytes.iter().position(|byte| *byte == b'\n')
}

/// How many bytes the first line has, with what ends it.
pub(crate) fn line_len(bytes: &[u8]) -> usize
    ensures within { result ≤ length bytes.now }
    ensures line { take result bytes.now ≡ take_through 10 bytes.now }
    ensures rest { drop result bytes.now ≡ drop_through 10 bytes.now }
{
    match feed_at(bytes) {
        Some(at) => at + 1,
        None => bytes.len(),
    }
}

/// Drops the last byte where it is this one, and tells whether it was.
fn drop_last(line: &mut Vec<u8>, byte: u8) -> bool
    ensures line { line.new.items ≡ strip_last byte line.old.items }
    ensures there { result ≡ ends_with_byte byte line.old.items }
{
    let is_there = line.last() == Some(&byte);
    if is_there {
        line.pop();
    }
    is_there
}

/// Drops what ends a line, and of a long line what is not heard.
pub(crate) fn end_line(line: &mut Vec<u8>)
    ensures line { line.new.items ≡ heard_of (without_end line.old.items) }
    ensures short { vec_len line.new ≤ 4097 }
{
    if drop_last(line, b'\n') {
        drop_last(line, b'\r');
    }
    line.truncate(MOST_OF_LINE + 1);
}

/// Takes the first bytes, a line with its end, from those that are to come, and puts the line into `into` as it is heard.
pub(crate) fn take_line<A: Allocator>(
    coming: &mut Vec<u8, A>,
    end: usize,
    into: &mut Vec<u8>,
) -> Result<(), AllocError>
    requires within { end ≤ vec_len coming.old }
    requires empty { into.old.items ≡ [] }
    ensures line { OnOk result (into.new.items ≡ heard_of (without_end (take end coming.old.items))) }
    ensures rest { OnOk result (coming.new.items ≡ drop end coming.old.items) }
    ensures short { vec_len into.new ≤ 4097 }
    ensures refused { OnErr result (into.new.items ≡ []) }
    ensures kept { OnErr result (coming.new.items ≡ coming.old.items) }
{
    into.extend_from_slice(&coming[..end])?;
    end_line(into);
    coming.drain(..end);
    Ok(())
}
