//! The real outside: files, the standard output and the standard input.
ghost use Rattle.std.specs.Prelude.{◌≡◌, ◌≢◌, ◌≤◌, ◌<◌, ◌^◌, ◌++◌, [], length, take, true, false, Ok, Err, IfOk};
ghost use Rattle.std.specs.Prelude.{IfSome, OnOk, OnErr, vec_len};
ghost use Rattle.std.specs.Io.KnownBytes.{Consumes, IsAtEnd, prepend_known};
ghost use Rattle.sbpl_desk.specs.Counts.{read_count, write_count};
ghost use Rattle.sbpl_desk.specs.Desk.{Appends, AppendsPrefix, TooLongWhere};
ghost use Rattle.sbpl_desk.specs.Hearing.{GivesLine};
ghost use Rattle.sbpl_desk.specs.Real.{real_is_over, real_read_faults, real_state, real_write_faults};

use crate::desk::{MOST, MOST_OF_LINE};
use crate::line::{feed_at, take_line};
use crate::{Desk, ReadStop, Trouble, WriteStop};
use std::alloc::Allocator;
use std::fs::{Metadata, OpenFile, OpenOptions};
use std::io::{Read, Write};
use std::os::unix::fs::MetadataExt;
use std::rt::Files;
use std::{fs, io};

/// The bytes that are asked of the system at once.
const PIECE: usize = 8192;

/// What a file is, whatever its names: its device, and its number there.
#[derive(Clone, Copy, PartialEq, Eq)]
struct FileId {
    device: u64,
    number: u64,
}

/// What a file is, where it is a regular one. A pipe or a device keeps nothing that a write could destroy.
fn id_of(metadata: &Metadata) -> Option<FileId> {
    metadata.is_file().then_some(FileId {
        device: metadata.dev(),
        number: metadata.ino(),
    })
}

/// What an error of the system says was in the way.
fn trouble_of(error: &io::Error) -> Trouble {
    match error.kind() {
        io::ErrorKind::NotFound => Trouble::Missing,
        io::ErrorKind::IsADirectory => Trouble::Folder,
        io::ErrorKind::PermissionDenied => Trouble::Forbidden,
        io::ErrorKind::BrokenPipe => Trouble::Unread,
        _ => Trouble::Untold,
    }
}

/// The files of the system, the standard output and the standard input. It tells no bytes and no lines.
///
/// A file that was read, or that is written under another name, is not written: the write fails, and the file stays as it is. Files
/// are known by what they are, so a link is the file that it leads to.
///
/// Its counts of failed reads and of failed writes are those of every name. Each rises where a call
/// answers `Failed`: where the system answers with an error, or takes nothing of what is to be written.
#[derive(Drop)]
pub struct RealDesk<R: Files + Print + Alloc> {
    rt: R,
    /// The names under which something was written.
    begun: Vec<String<R::A>, R::A>,
    /// The files that were read or written.
    used: Vec<FileId, R::A>,
    trouble: Trouble,
    read_faults: u64,
    write_faults: u64,
    /// What was read of the standard input and is still to be heard.
    coming: Vec<u8, R::A>,
    is_over: bool,
}

impl<R: Files + Print + Alloc> RealDesk<R> {
    /// A desk that has written nothing. The first write under a name makes the file, or empties it, and
    /// the later ones append.
    pub fn new(rt: R) -> RealDesk<R>
        ensures reads { real_read_faults result ≡ 0 }
        ensures writes { real_write_faults result ≡ 0 }
        ensures open { real_is_over result ≡ false }
    {
        let begun = Vec::new(rt.alloc());
        let used = Vec::new(rt.alloc());
        let coming = Vec::new(rt.alloc());
        RealDesk {
            rt,
            begun,
            used,
            trouble: Trouble::Untold,
            read_faults: 0,
            write_faults: 0,
            coming,
            is_over: false,
        }
    }
}

/// One read, whose bytes are appended. It tells how many there are.
fn read_piece<F: Read, A: Allocator>(
    file: &mut F,
    piece: &mut [u8],
    into: &mut Vec<u8, A>,
) -> Result<usize, ReadStop>
    ensures appended { IfOk result (λ count. into.new.items ≡ into.old.items ++ take count piece.new) }
    ensures consumed { IfOk result (λ count. Consumes (F.remaining file.old) (F.remaining file.new) (take count piece.new)) }
    ensures end { IfOk result (λ count. count ≡ 0 → 0 < length piece.old → IsAtEnd (F.remaining file.new)) }
    ensures within { IfOk result (λ count. count ≤ length piece.old) }
    ensures short { result ≢ Err ReadStop.TooLong }
{
    let Ok(count) = file.read(piece) else {
        return Err(ReadStop::Failed);
    };
    into.extend_from_slice(&piece[..count])?;
    Ok(count)
}

/// Reads to the end, and stops after 2^30 + 1 bytes.
fn read_whole<F: Read>(file: &mut F, into: &mut Vec<u8>) -> Result<(), ReadStop>
    requires empty { into.old.items ≡ [] }
    ensures bytes { OnOk result (IfSome (F.remaining file.old) (λ bytes. into.new.items ≡ bytes)) }
    ensures bounded { OnOk result (vec_len into.new ≤ 2 ^ 30) }
    ensures long { IfSome (F.remaining file.old) (TooLongWhere result) }
{
    let mut piece = [0u8; PIECE];
    while into.len() <= MOST {
        let room = (MOST + 1 - into.len()).min(PIECE);
        if read_piece(file, &mut piece[..room], into)? == 0 {
            return Ok(());
        }
    }
    Err(ReadStop::TooLong)
}

/// Takes the next line of an input from what was read of it, and reads on as long as no line is there. It answers false at the end
/// of the input.
fn hear_line<F: Read, A: Allocator>(
    input: &mut F,
    coming: &mut Vec<u8, A>,
    into: &mut Vec<u8>,
) -> Result<bool, ReadStop>
    requires empty { into.old.items ≡ [] }
    ensures line { result ≡ Ok true → GivesLine (prepend_known coming.old.items (F.remaining input.old))
        (prepend_known coming.new.items (F.remaining input.new)) into.new.items }
    ensures end { result ≡ Ok false → IsAtEnd (prepend_known coming.old.items (F.remaining input.old)) }
    ensures none { result ≡ Ok false → into.new.items ≡ [] }
    ensures bounded { vec_len into.new ≤ 4097 }
    ensures refused { OnErr result (into.new.items ≡ []) }
    ensures short { result ≢ Err ReadStop.TooLong }
{
    let mut piece = [0u8; PIECE];
    for _ in 0..u64::MAX {
        if let Some(at) = feed_at(coming) {
            take_line(coming, at + 1, into)?;
            return Ok(true);
        }
        // Of a line that is longer no more is heard, whatever ends it.
        coming.truncate(MOST_OF_LINE + 3);
        if read_piece(input, &mut piece, coming)? == 0 {
            let end = coming.len();
            if end == 0 {
                return Ok(false);
            }
            take_line(coming, end, into)?;
            return Ok(true);
        }
    }
    Err(ReadStop::Failed)
}

/// Writes all of the bytes, in as many calls as it takes.
fn write_whole<W: Write>(to: &mut W, bytes: &[u8], trouble: &mut Trouble) -> Result<(), WriteStop>
    ensures bytes { OnOk result (Appends (W.contents to.old) (W.contents to.new) bytes.now) }
    ensures prefix { OnErr result (AppendsPrefix (W.contents to.old) (W.contents to.new) bytes.now) }
    ensures failed { result ≢ Err WriteStop.NoMemory }
{
    let mut rest = bytes;
    while !rest.is_empty() {
        match to.write(rest) {
            Ok(count) if count > 0 => rest = &rest[count..],
            Ok(_) => return Err(WriteStop::Failed),
            Err(error) => {
                *trouble = trouble_of(&error);
                return Err(WriteStop::Failed);
            }
        }
    }
    Ok(())
}

/// Reads a file, with room for it from the start, and notes it as used.
fn read_file<R: Files + Alloc>(
    rt: &R,
    used: &mut Vec<FileId, R::A>,
    trouble: &mut Trouble,
    name: &str,
    into: &mut Vec<u8>,
) -> Result<(), ReadStop>
    requires empty { into.old.items ≡ [] }
    ensures bounded { OnOk result (vec_len into.new ≤ 2 ^ 30) }
{
    let mut file = match fs::open(rt, name) {
        Ok(file) => file,
        Err(error) => {
            *trouble = trouble_of(&error);
            return Err(ReadStop::Failed);
        }
    };
    let Ok(metadata) = file.metadata() else {
        return Err(ReadStop::Failed);
    };
    if metadata.is_dir() {
        *trouble = Trouble::Folder;
        return Err(ReadStop::Failed);
    }
    if let Some(id) = id_of(&metadata) {
        used.push(id)?;
    }
    into.reserve(metadata.len().min(MOST as u64 + 1) as usize)?;
    read_whole(&mut file, into)
}

/// Opens a file that is to be written from its beginning, makes it or empties it, and notes it as used. One that was used is left as it
/// is.
fn begin_output<R: Files + Alloc>(
    rt: &R,
    used: &mut Vec<FileId, R::A>,
    trouble: &mut Trouble,
    name: &str,
) -> Result<R::File, WriteStop> {
    used.reserve(1)?;
    let opened = OpenOptions::new().write(true).create(true).open(rt, name);
    let file = match opened {
        Ok(file) => file,
        Err(error) => {
            *trouble = trouble_of(&error);
            return Err(WriteStop::Failed);
        }
    };
    let Ok(metadata) = file.metadata() else {
        return Err(WriteStop::Failed);
    };
    if let Some(id) = id_of(&metadata) {
        if used.contains(&id) {
            *trouble = Trouble::Taken;
            return Err(WriteStop::Failed);
        }
        if file.set_len(0).is_err() {
            return Err(WriteStop::Failed);
        }
        used.push_reserved(id);
    }
    Ok(file)
}

/// Opens the file of a name to append to it. The first time it makes the file, or empties it.
fn open_output<R: Files + Alloc>(
    rt: &R,
    begun: &mut Vec<String<R::A>, R::A>,
    used: &mut Vec<FileId, R::A>,
    trouble: &mut Trouble,
    name: &str,
) -> Result<R::File, WriteStop> {
    if begun.iter().any(|other| other.as_str() == name) {
        return OpenOptions::new()
            .append(true)
            .open(rt, name)
            .map_err(|_| WriteStop::Failed);
    }
    begun.push(String::from_str(rt.alloc(), name)?)?;
    let opened = begin_output(rt, used, trouble, name);
    if opened.is_err() {
        begun.pop();
    }
    opened
}

impl<R: Files + Print + Input + Alloc> Desk for RealDesk<R> {
    ghost state = { λ desk. real_state desk };

    fn read(&mut self, name: &str, into: &mut Vec<u8>) -> Result<(), ReadStop>
        ensures bounded { OnOk result (vec_len into.new ≤ 2 ^ 30) }
        ensures refused { OnErr result (into.new.items ≡ []) }
        ensures reads { real_read_faults self.new ≡ read_count result (real_read_faults self.old) }
        ensures counts { real_read_faults self.old ≤ real_read_faults self.new }
        ensures writes { real_write_faults self.new ≡ real_write_faults self.old }
        ensures over { real_is_over self.new ≡ real_is_over self.old }
    {
        into.clear();
        self.trouble = Trouble::Untold;
        let result = read_file(&self.rt, &mut self.used, &mut self.trouble, name, into);
        if let Err(stop) = result {
            into.clear();
            if stop == ReadStop::Failed {
                self.read_faults = self.read_faults.saturating_add(1);
            }
        }
        result
    }

    fn write(&mut self, name: &str, bytes: &[u8]) -> Result<(), WriteStop>
        ensures reads { real_read_faults self.new ≡ real_read_faults self.old }
        ensures writes { real_write_faults self.new ≡ write_count result (real_write_faults self.old) }
        ensures counts { real_write_faults self.old ≤ real_write_faults self.new }
        ensures over { real_is_over self.new ≡ real_is_over self.old }
    {
        self.trouble = Trouble::Untold;
        let result = if name == "-" {
            write_whole(&mut io::writer(&self.rt), bytes, &mut self.trouble)
        } else {
            match open_output(
                &self.rt,
                &mut self.begun,
                &mut self.used,
                &mut self.trouble,
                name,
            ) {
                Ok(mut file) => write_whole(&mut file, bytes, &mut self.trouble),
                Err(stop) => Err(stop),
            }
        };
        if let Err(WriteStop::Failed) = result {
            self.write_faults = self.write_faults.saturating_add(1);
        }
        result
    }

    fn hear(&mut self, into: &mut Vec<u8>) -> Result<bool, ReadStop>
        ensures bounded { vec_len into.new ≤ 4097 }
        ensures line { result ≡ Ok true → real_is_over self.old ≡ false }
        ensures open { result ≡ Ok true → real_is_over self.new ≡ false }
        ensures over { result ≡ Ok false → real_is_over self.new ≡ true }
        ensures end { result ≡ Ok false → into.new.items ≡ [] }
        ensures refused { OnErr result (into.new.items ≡ []) }
        ensures kept { OnErr result (real_is_over self.new ≡ real_is_over self.old) }
        ensures short { result ≢ Err ReadStop.TooLong }
        ensures reads { real_read_faults self.new ≡ read_count result (real_read_faults self.old) }
        ensures counts { real_read_faults self.old ≤ real_read_faults self.new }
        ensures writes { real_write_faults self.new ≡ real_write_faults self.old }
    {
        into.clear();
        self.trouble = Trouble::Untold;
        if self.is_over {
            return Ok(false);
        }
        let result = hear_line(&mut self.rt.reader(), &mut self.coming, into);
        match result {
            Ok(is_line) => self.is_over = !is_line,
            Err(ReadStop::Failed) => self.read_faults = self.read_faults.saturating_add(1),
            Err(_) => {}
        }
        result
    }

    fn trouble(&self) -> Trouble {
        self.trouble
    }
}
