//! A desk in memory, for tests.
ghost use Rattle.std.specs.Prelude.{◌≡◌, ◌≢◌, ◌≤◌, ◌^◌, ◌++◌, [], Some, None, Err, IsSome, IsNone};
ghost use Rattle.std.specs.Prelude.{◌∷◌, true, false, map, IfSome, IsErr, IsErrOf};
ghost use Rattle.std.specs.Prelude.{IsOkUnless, OnOk, OnErr, ℕ, List, replicate, take, vec_len};
ghost use Rattle.std.specs.BTreeMap.{get};
ghost use Rattle.std.specs.Ordering.{nat_cmp};
ghost use Rattle.sbpl_desk.specs.Counts.{risen, read_count, write_count};
ghost use Rattle.sbpl_desk.specs.Desk.{AppendsPrefix, Stays, TooLongWhere};
ghost use Rattle.sbpl_desk.specs.Hearing.{after_line, next_line};
ghost use Rattle.sbpl_desk.specs.Memory.{KeepsInput, MakesNoCall, TakesEnd, TakesLine, memory_held, memory_written};
ghost use Rattle.sbpl_desk.specs.Memory.{memory_calls, memory_coming, memory_failing, memory_heard, memory_is_over};
ghost use Rattle.sbpl_desk.specs.Memory.{memory_read_faults, memory_state, memory_write_faults, text_at, content_bytes};

use crate::desk::MOST;
use crate::line::{end_line, line_len, take_line};
use crate::{Desk, ReadStop, WriteStop};
use sbpl_fixed::NoMemory;
use std::alloc::{AllocError, Global};
use std::collections::BTreeMap;

/// What a name holds.
#[derive(Drop)]
enum Content {
    /// These bytes.
    Stored(Vec<u8>),
    /// A number of equal bytes, which are not stored.
    Filled(u64, u8),
}

/// An outside in memory, which tells its bytes.
#[derive(Drop)]
pub struct MemoryDesk {
    alloc: Global,
    held: BTreeMap<String, Content>,
    written: BTreeMap<String, Vec<u8>>,
    failing: BTreeMap<u64, usize>,
    calls: u64,
    read_faults: u64,
    write_faults: u64,
    /// What was said and is still to be heard.
    coming: Vec<u8>,
    heard: Vec<Vec<u8>>,
    is_over: bool,
}

impl MemoryDesk {
    /// A desk with nothing held, nothing written, nothing said and no failing call.
    pub fn new(alloc: Global) -> MemoryDesk
        ensures held { (name : List ℕ) → memory_held result name ≡ None }
        ensures written { (name : List ℕ) → memory_written result name ≡ [] }
        ensures failing { (call : ℕ) → memory_failing result call ≡ None }
        ensures calls { memory_calls result ≡ 0 }
        ensures reads { memory_read_faults result ≡ 0 }
        ensures writes { memory_write_faults result ≡ 0 }
        ensures coming { memory_coming result ≡ [] }
        ensures heard { memory_heard result ≡ [] }
        ensures open { memory_is_over result ≡ false }
    {
        MemoryDesk {
            alloc,
            held: BTreeMap::new(alloc),
            written: BTreeMap::new(alloc),
            failing: BTreeMap::new(alloc),
            calls: 0,
            read_faults: 0,
            write_faults: 0,
            coming: Vec::new(alloc),
            heard: Vec::new(alloc),
            is_over: false,
        }
    }

    /// Holds the bytes under `name`, in place of what it held. After `NoMemory` nothing has changed.
    pub fn hold(&mut self, name: &str, bytes: &[u8]) -> Result<(), NoMemory>
        ensures held { OnOk result (memory_held self.new name.now ≡ Some bytes.now) }
        ensures others { (other : List ℕ) → other ≢ name.now → memory_held self.new other ≡ memory_held self.old other }
        ensures memory { OnErr result (Stays (memory_held self.old) (memory_held self.new)) }
        ensures failing { Stays (memory_failing self.old) (memory_failing self.new) }
        ensures coming { memory_coming self.new ≡ memory_coming self.old }
        ensures rest { MakesNoCall self.old self.new }
    {
        let mut copy = Vec::new(self.alloc);
        copy.extend_from_slice(bytes)?;
        let key = String::from_str(self.alloc, name)?;
        self.held.insert(key, Content::Stored(copy))?;
        Ok(())
    }

    /// Holds `len` times `byte` under `name`, in place of what it held, without storing these bytes.
    /// After `NoMemory` nothing has changed.
    pub fn hold_filled(&mut self, name: &str, len: u64, byte: u8) -> Result<(), NoMemory>
        ensures held { OnOk result (memory_held self.new name.now ≡ Some (replicate len byte)) }
        ensures others { (other : List ℕ) → other ≢ name.now → memory_held self.new other ≡ memory_held self.old other }
        ensures memory { OnErr result (Stays (memory_held self.old) (memory_held self.new)) }
        ensures failing { Stays (memory_failing self.old) (memory_failing self.new) }
        ensures coming { memory_coming self.new ≡ memory_coming self.old }
        ensures rest { MakesNoCall self.old self.new }
    {
        let key = String::from_str(self.alloc, name)?;
        self.held.insert(key, Content::Filled(len, byte))?;
        Ok(())
    }

    /// Lets the call with this number fail, counted from 0 over reads, writes and calls of `hear`. A write then takes
    /// `after` bytes, or its whole length if that is less. A number that is listed already takes the
    /// new `after`. After `NoMemory` nothing has changed.
    pub fn fail(&mut self, call: u64, after: usize) -> Result<(), NoMemory>
        ensures failing { OnOk result (memory_failing self.new call ≡ Some after) }
        ensures others { (other : ℕ) → other ≢ call → memory_failing self.new other ≡ memory_failing self.old other }
        ensures memory { OnErr result (Stays (memory_failing self.old) (memory_failing self.new)) }
        ensures held { Stays (memory_held self.old) (memory_held self.new) }
        ensures coming { memory_coming self.new ≡ memory_coming self.old }
        ensures rest { MakesNoCall self.old self.new }
    {
        self.failing.insert(call, after)?;
        Ok(())
    }

    /// Appends to the standard input of the desk. A line may be said in several calls, all of them before it is heard: what stands
    /// after the last line feed is heard as a line of its own. What is said after the end was heard is never heard. After
    /// `NoMemory` nothing has changed.
    pub fn say(&mut self, text: &[u8]) -> Result<(), NoMemory>
        ensures coming { OnOk result (memory_coming self.new ≡ memory_coming self.old ++ text.now) }
        ensures memory { OnErr result (memory_coming self.new ≡ memory_coming self.old) }
        ensures held { Stays (memory_held self.old) (memory_held self.new) }
        ensures failing { Stays (memory_failing self.old) (memory_failing self.new) }
        ensures rest { MakesNoCall self.old self.new }
    {
        self.coming.extend_from_slice(text)?;
        Ok(())
    }

    /// The bytes written under `name` so far.
    pub fn written(&self, name: &str) -> &[u8]
        ensures written { result.now ≡ memory_written self.now name.now }
    {
        match self.written.get(name) {
            Some(text) => text,
            None => &[],
        }
    }
}

/// After how many bytes the call that begins now fails, if it does. The call is counted.
fn begin_call(calls: &mut u64, failing: &BTreeMap<u64, usize>) -> Option<usize>
    ensures after { result ≡ get nat_cmp failing.now calls.old }
    ensures calls { calls.new ≡ risen calls.old }
{
    let after = failing.get(&*calls).copied();
    *calls = calls.saturating_add(1);
    after
}

/// Begins a call that reads into `into`: empties that, and counts the call. After how many bytes it fails, if it does.
fn begin_read(calls: &mut u64, failing: &BTreeMap<u64, usize>, into: &mut Vec<u8>) -> Option<usize>
    ensures empty { into.new.items ≡ [] }
    ensures after { result ≡ get nat_cmp failing.now calls.old }
    ensures calls { calls.new ≡ risen calls.old }
{
    into.clear();
    begin_call(calls, failing)
}

/// Counts a read that failed.
fn failed_read(read_faults: &mut u64) -> ReadStop
    ensures stop { result ≡ ReadStop.Failed }
    ensures counted { read_faults.new ≡ risen read_faults.old }
    ensures kept { read_faults.old ≤ read_faults.new }
{
    *read_faults = read_faults.saturating_add(1);
    ReadStop::Failed
}

/// The first bytes, up to this number of them.
#[tactic(auto, using(std::proofs::lemmas::List::take_min))]
fn prefix_of(bytes: &[u8], most: usize) -> &[u8]
    ensures prefix { result.now ≡ take most bytes.now }
{
    &bytes[..most.min(bytes.len())]
}

/// Appends to the text of a name. After an error nothing has changed.
fn append(
    alloc: Global,
    texts: &mut BTreeMap<String, Vec<u8>>,
    name: &str,
    bytes: &[u8],
) -> Result<(), AllocError>
    ensures appended { OnOk result (text_at texts.new name.now ≡ text_at texts.old name.now ++ bytes.now) }
    ensures others { (other : List ℕ) → other ≢ name.now → text_at texts.new other ≡ text_at texts.old other }
    ensures memory { OnErr result (Stays (text_at texts.old) (text_at texts.new)) }
{
    if let Some(text) = texts.get_mut(name) {
        text.extend_from_slice(bytes)?;
        return Ok(());
    }
    let mut text = Vec::new(alloc);
    text.extend_from_slice(bytes)?;
    texts.insert(String::from_str(alloc, name)?, text)?;
    Ok(())
}

/// Copies what is held, where that is at most 2^30 bytes.
fn copy(content: &Content, into: &mut Vec<u8>) -> Result<(), ReadStop>
    requires empty { into.old.items ≡ [] }
    ensures bytes { OnOk result (into.new.items ≡ content_bytes content.now) }
    ensures refused { OnErr result (into.new.items ≡ []) }
    ensures long { TooLongWhere result (content_bytes content.now) }
    ensures answered { result ≢ Err ReadStop.Failed }
{
    match content {
        Content::Stored(bytes) => {
            if bytes.len() > MOST {
                return Err(ReadStop::TooLong);
            }
            into.extend_from_slice(bytes)?;
        }
        Content::Filled(len, byte) => {
            if *len > MOST as u64 {
                return Err(ReadStop::TooLong);
            }
            into.resize(*len as usize, *byte)?;
        }
    }
    Ok(())
}

/// Hears the first line of what is to come: takes it from there, and puts it at the end of what was heard and into `into`. Where
/// memory runs out nothing has changed.
fn hear_line(
    alloc: Global,
    coming: &mut Vec<u8>,
    heard: &mut Vec<Vec<u8>>,
    into: &mut Vec<u8>,
) -> Result<(), AllocError>
    requires empty { into.old.items ≡ [] }
    ensures line { OnOk result (into.new.items ≡ next_line coming.old.items) }
    ensures rest { OnOk result (coming.new.items ≡ after_line coming.old.items) }
    ensures heard { OnOk result (map (λ line. line.items) heard.new.items
        ≡ map (λ line. line.items) heard.old.items ++ into.new.items ∷ []) }
    ensures short { vec_len into.new ≤ 4097 }
    ensures refused { OnErr result (into.new.items ≡ []) }
    ensures kept { OnErr result (coming.new.items ≡ coming.old.items) }
    ensures unheard { OnErr result (heard.new.items ≡ heard.old.items) }
{
    let end = line_len(coming);
    heard.reserve(1)?;
    let mut told = Vec::new(alloc);
    told.extend_from_slice(&coming[..end])?;
    end_line(&mut told);
    take_line(coming, end, into)?;
    heard.push_reserved(told);
    Ok(())
}

impl Desk for MemoryDesk {
    ghost state = { λ desk. memory_state desk };

    fn read(&mut self, name: &str, into: &mut Vec<u8>) -> Result<(), ReadStop>
        // As each desk.
        ensures bytes { OnOk result (IfSome (memory_held self.old name.now) (λ bytes. into.new.items ≡ bytes)) }
        ensures bounded { OnOk result (vec_len into.new ≤ 2 ^ 30) }
        ensures refused { OnErr result (into.new.items ≡ []) }
        ensures long { IfSome (memory_held self.old name.now) (TooLongWhere result) }
        ensures held { Stays (memory_held self.old) (memory_held self.new) }
        ensures written { Stays (memory_written self.old) (memory_written self.new) }

        // It fails exactly where the call is listed or the name isn't held, and counts that.
        ensures listed { IsSome (memory_failing self.old (memory_calls self.old)) → IsErrOf result ReadStop.Failed }
        ensures absent { IsNone (memory_held self.old name.now) → IsErrOf result ReadStop.Failed }
        ensures present { IsNone (memory_failing self.old (memory_calls self.old)) → IsSome (memory_held self.old name.now)
            → result ≢ Err ReadStop.Failed }
        ensures reads { memory_read_faults self.new ≡ read_count result (memory_read_faults self.old) }
        ensures counts { memory_read_faults self.old ≤ memory_read_faults self.new }
        ensures input { KeepsInput self.old self.new }
        ensures writes { memory_write_faults self.new ≡ memory_write_faults self.old }
        ensures calls { memory_calls self.new ≡ risen (memory_calls self.old) }
        ensures failing { Stays (memory_failing self.old) (memory_failing self.new) }
    {
        if begin_read(&mut self.calls, &self.failing, into).is_none() {
            if let Some(content) = self.held.get(name) {
                return copy(content, into);
            }
        }
        Err(failed_read(&mut self.read_faults))
    }

    fn write(&mut self, name: &str, bytes: &[u8]) -> Result<(), WriteStop>
        // As each desk.
        ensures bytes { OnOk result (memory_written self.new name.now ≡ memory_written self.old name.now ++ bytes.now) }
        ensures prefix { IsErrOf result WriteStop.Failed → AppendsPrefix (Some (memory_written self.old name.now))
            (Some (memory_written self.new name.now)) bytes.now }
        ensures memory { IsErrOf result WriteStop.NoMemory → Stays (memory_written self.old) (memory_written self.new) }
        ensures others { (other : List ℕ) → other ≢ name.now
            → memory_written self.new other ≡ memory_written self.old other }
        ensures held { Stays (memory_held self.old) (memory_held self.new) }

        // It fails exactly where the call is listed, after as many bytes as listed, and counts that.
        ensures listed { IsSome (memory_failing self.old (memory_calls self.old)) → IsErr result }
        ensures after { IfSome (memory_failing self.old (memory_calls self.old))
            (λ after. IsErrOf result WriteStop.Failed → memory_written self.new name.now ≡ memory_written self.old name.now
            ++ take after bytes.now) }
        ensures unlisted { IsNone (memory_failing self.old (memory_calls self.old)) → IsOkUnless result WriteStop.NoMemory }
        ensures reads { memory_read_faults self.new ≡ memory_read_faults self.old }
        ensures writes { memory_write_faults self.new ≡ write_count result (memory_write_faults self.old) }
        ensures counts { memory_write_faults self.old ≤ memory_write_faults self.new }
        ensures input { KeepsInput self.old self.new }
        ensures calls { memory_calls self.new ≡ risen (memory_calls self.old) }
        ensures failing { Stays (memory_failing self.old) (memory_failing self.new) }
    {
        match begin_call(&mut self.calls, &self.failing) {
            None => Ok(append(self.alloc, &mut self.written, name, bytes)?),
            Some(after) => {
                append(self.alloc, &mut self.written, name, prefix_of(bytes, after))?;
                self.write_faults = self.write_faults.saturating_add(1);
                Err(WriteStop::Failed)
            }
        }
    }

    fn hear(&mut self, into: &mut Vec<u8>) -> Result<bool, ReadStop>
        // As each desk.
        ensures line { result ≡ Ok true → TakesLine self.old self.new into.new.items }
        ensures end { result ≡ Ok false → TakesEnd self.old self.new into.new.items }
        ensures bounded { vec_len into.new ≤ 4097 }
        ensures refused { OnErr result (into.new.items ≡ []) }
        ensures kept { OnErr result (KeepsInput self.old self.new) }
        ensures short { result ≢ Err ReadStop.TooLong }
        ensures held { Stays (memory_held self.old) (memory_held self.new) }
        ensures written { Stays (memory_written self.old) (memory_written self.new) }

        // It fails exactly where the call is listed, and counts that.
        ensures listed { IsSome (memory_failing self.old (memory_calls self.old)) → IsErrOf result ReadStop.Failed }
        ensures unlisted { IsNone (memory_failing self.old (memory_calls self.old)) → IsOkUnless result ReadStop.NoMemory }
        ensures reads { memory_read_faults self.new ≡ read_count result (memory_read_faults self.old) }
        ensures counts { memory_read_faults self.old ≤ memory_read_faults self.new }
        ensures writes { memory_write_faults self.new ≡ memory_write_faults self.old }
        ensures calls { memory_calls self.new ≡ risen (memory_calls self.old) }
        ensures failing { Stays (memory_failing self.old) (memory_failing self.new) }
    {
        if begin_read(&mut self.calls, &self.failing, into).is_some() {
            return Err(failed_read(&mut self.read_faults));
        }
        if self.is_over || self.coming.is_empty() {
            self.is_over = true;
            return Ok(false);
        }
        hear_line(self.alloc, &mut self.coming, &mut self.heard, into)?;
        Ok(true)
    }
}
