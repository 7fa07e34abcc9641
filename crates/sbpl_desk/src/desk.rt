//! What the program sees of the outside.
ghost use Rattle.std.specs.Prelude.{◌≡◌, ◌≢◌, ◌≤◌, ◌^◌, true, false, [], OnOk, OnErr, IfSome, IsErrOf, codes, vec_len};
ghost use Rattle.sbpl_desk.specs.Desk.{Appends, AppendsPrefix, DeskState, HearsEnd, HearsLine, HearsNothing, HearsOnly, Keeps};
ghost use Rattle.sbpl_desk.specs.Desk.{ReadFailed, ReadsOnly, TooLongWhere, WriteFailed, WritesOnly};
ghost use Rattle.sbpl_desk.specs.declared.desk.ReadStop.TheVariants as ReadStops;
ghost use Rattle.sbpl_desk.specs.declared.desk.WriteStop.TheVariants as WriteStops;

use std::alloc::{AllocError, AllocFailed};
use thiserror::Error;

/// The most bytes that a read gives.
pub(crate) const MOST: usize = 1 << 30;

/// The most bytes of a line that is heard whole. Of a longer line these are heard, and one more, which tells that it was longer.
pub const MOST_OF_LINE: usize = 4096;

/// Why a read stopped.
#[derive(Clone, Copy, Debug, PartialEq, Eq, Error)]
pub enum ReadStop {
    /// The outside failed, or holds no such name.
    #[error("the read failed")]
    Failed,
    /// More than 2^30 bytes are held.
    #[error("more than 2^30 bytes are held")]
    TooLong,
    /// Memory ran out.
    #[error("out of memory")]
    NoMemory,
}

/// Why a write stopped.
#[derive(Clone, Copy, Debug, PartialEq, Eq, Error)]
pub enum WriteStop {
    /// The outside failed, and took some prefix of the bytes.
    #[error("the write failed")]
    Failed,
    /// Memory ran out, and nothing was written.
    #[error("out of memory")]
    NoMemory,
}

/// What was in the way where the outside failed, as far as it says. It is for messages to people: no clause speaks of it.
#[derive(Clone, Copy, Debug, PartialEq, Eq)]
pub enum Trouble {
    /// The outside does not say.
    Untold,
    /// There is no such file.
    Missing,
    /// The name is that of a folder.
    Folder,
    /// The program is not allowed to.
    Forbidden,
    /// The file is one that was read, or that is written under another name.
    Taken,
    /// Nobody reads what is written any more.
    Unread,
}

impl From<AllocError> for ReadStop {
    ghost from_gives = { λ _ stop. stop ≡ ReadStops.NoMemory };

    fn from(_error: AllocError) -> ReadStop {
        ReadStop::NoMemory
    }
}

impl<T: Drop> From<AllocFailed<T>> for ReadStop {
    ghost from_gives = { λ _ stop. stop ≡ ReadStops.NoMemory };

    fn from(_error: AllocFailed<T>) -> ReadStop {
        ReadStop::NoMemory
    }
}

impl From<AllocError> for WriteStop {
    ghost from_gives = { λ _ stop. stop ≡ WriteStops.NoMemory };

    fn from(_error: AllocError) -> WriteStop {
        WriteStop::NoMemory
    }
}

impl<T: Drop> From<AllocFailed<T>> for WriteStop {
    ghost from_gives = { λ _ stop. stop ≡ WriteStops.NoMemory };

    fn from(_error: AllocFailed<T>) -> WriteStop {
        WriteStop::NoMemory
    }
}

/// The outside, by names that are texts, and the standard input. The name `-` is the standard output; failed reads of the standard
/// input are counted under it too.
///
/// A clause on bytes or lines holds where the desk tells them. The clauses on the counts and on the end of the input hold for every
/// desk.
pub trait Desk {
    /// What each name holds, and the bytes written under it so far: `None` where the desk doesn't tell, or holds no such name.
    /// And how many reads and how many writes of each name failed. A count that stands at 2^64 - 1 stays there. And the lines of
    /// the standard input that were heard so far, `None` where the desk doesn't tell, and whether it was heard to its end.
    ghost state: { Self → DeskState };

    /// Puts the bytes that `name` holds, 2^30 at most, into `into` in place of what is there.
    /// After a refusal `into` is empty.
    ///
    /// # Errors
    ///
    /// - `Failed` only where the name's count of failed reads rose. A `MemoryDesk` fails where it holds no such name.
    /// - `TooLong` exactly where more than 2^30 bytes are held and the read did not fail.
    /// - `NoMemory` where memory ran out.
    fn read(&mut self, name: &str, into: &mut Vec<u8>) -> Result<(), ReadStop>
        ensures bytes { OnOk result (IfSome ((state self.old).held name.now) (λ bytes. into.new.items ≡ bytes)) }
        ensures bounded { OnOk result (vec_len into.new ≤ 2 ^ 30) }
        ensures refused { OnErr result (into.new.items ≡ []) }
        ensures failed { IsErrOf result ReadStop.Failed → ReadFailed (state self.old) (state self.new) name.now }
        ensures long { IfSome ((state self.old).held name.now) (TooLongWhere result) }
        ensures frame { ReadsOnly (state self.old) (state self.new) };

    /// Appends the bytes to what is written under `name`, and changes nothing else that is held or written.
    ///
    /// # Errors
    ///
    /// - `Failed` only where the name's count of failed writes rose. A prefix of the bytes was appended.
    /// - `NoMemory` where memory ran out. Nothing was appended.
    fn write(&mut self, name: &str, bytes: &[u8]) -> Result<(), WriteStop>
        ensures bytes { OnOk result (Appends ((state self.old).written name.now) ((state self.new).written name.now) bytes.now) }
        ensures prefix { IsErrOf result WriteStop.Failed → AppendsPrefix ((state self.old).written name.now)
            ((state self.new).written name.now) bytes.now }
        ensures memory { IsErrOf result WriteStop.NoMemory → Keeps ((state self.old).written name.now)
            ((state self.new).written name.now) }
        ensures failed { IsErrOf result WriteStop.Failed → WriteFailed (state self.old) (state self.new) name.now }
        ensures frame { WritesOnly (λ other. other ≡ name.now) (state self.old) (state self.new) };

    /// Puts the next line of the standard input into `into` in place of what is there, and answers `true`; or answers `false` at
    /// the end of the input. It waits until a line has come, and no longer.
    ///
    /// A line is its bytes up to its line feed, without it; one carriage return right before the line feed is dropped. An input
    /// that ends within a line has that line too. Of a line of more than `MOST_OF_LINE` bytes (4096) the first 4097 are given, so
    /// that a caller can tell that it was longer; the next call goes on after its line feed. Once the end was answered, every call
    /// answers it.
    ///
    /// After `false` and after a refusal `into` is empty. A call after a refusal goes on where that one stopped.
    ///
    /// # Errors
    ///
    /// - `Failed` only where the count of failed reads of the name `-` rose.
    /// - `NoMemory` where memory ran out.
    fn hear(&mut self, into: &mut Vec<u8>) -> Result<bool, ReadStop>
        ensures line { result ≡ Ok true → HearsLine (state self.old) (state self.new) into.new.items }
        ensures end { result ≡ Ok false → HearsEnd (state self.old) (state self.new) into.new.items }
        ensures refused { OnErr result (HearsNothing (state self.old) (state self.new) into.new.items) }
        ensures failed { IsErrOf result ReadStop.Failed → ReadFailed (state self.old) (state self.new) (codes "-") }
        ensures short { result ≢ Err ReadStop.TooLong }
        ensures frame { HearsOnly (state self.old) (state self.new) };

    /// What was in the way in the last call that failed.
    fn trouble(&self) -> Trouble {
        Trouble::Untold
    }
}
