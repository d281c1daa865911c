// Printing through a buffer.
ghost use Rattle.std.specs.Prelude.{◌≡◌, ℕ, ◌<◌, ◌≤◌, Bool, true, false, List, [], ◌++◌, length, take, decimal, OnOk, OnErr};
ghost use Rattle.std.specs.Bool.{OnTrue, OnFalse};
ghost use Rattle.arrayvec.specs.ArrayVec.{array_vec_len};
ghost use Rattle.outside.specs.Faults.{one_more};
ghost use Rattle.report_text.specs.Writing.{Wrote, WrotePart, Prints};
ghost use Rattle.report_text.specs.Printing.{IsPrinting, Adds, Finishes, Stops};
ghost use Rattle.report_text.specs.Printed.{OnDone, OnWriteFault};

use crate::report::Printed;
use arrayvec::ArrayVec;
use itoa::Buffer;
use outside::{Putting, Sink};

/// How many bytes wait at most before they are put.
const BUFFER_SIZE: usize = 4096;

/// A put failed.
#[derive(Clone, Copy, Debug)]
struct WriteFault;

/// Puts all of a text, in as many puts as the sink takes.
fn put_all<K: Sink>(sink: &mut K, text: &[u8]) -> Result<(), WriteFault>
    ensures ok { OnOk result (Wrote K.got sink.old sink.new text.now) }
    ensures err { OnErr result (WrotePart K.got sink.old sink.new text.now) }
    ensures kept { OnOk result (K.faults sink.new ≡ K.faults sink.old) }
    ensures counted { OnErr result (K.faults sink.new ≡ one_more (K.faults sink.old)) }
{
    let mut rest = text;
    while !rest.is_empty() {
        match sink.put(rest) {
            Putting::Took(count) => rest = &rest[count..],
            Putting::Failed => return Err(WriteFault),
        }
    }
    Ok(())
}

/// Puts what waits, unless a put has failed, and says whether one has failed now.
fn put_unless<K: Sink>(failed: bool, sink: &mut K, waiting: &[u8]) -> bool
    ensures { (before : K) (text : List ℕ)
        → Prints K.got K.faults before sink.old failed waiting.now text
        → Prints K.got K.faults before sink.new result [] text }
{
    if failed {
        return true;
    }
    match put_all(sink, waiting) {
        Ok(()) => false,
        Err(WriteFault) => true,
    }
}

/// Prints to a sink through a buffer, which is put when it is full and at the end. After a put that
/// failed it puts nothing more.
pub struct Printer<'a, K: Sink> {
    sink: &'a mut K,
    waiting: ArrayVec<u8, BUFFER_SIZE>,
    failed: bool,
}

impl<'a, K: Sink> Printer<'a, K> {
    /// A printer that has printed nothing.
    pub fn new(sink: &'a mut K) -> Self
        ensures same_sink { result.sink.ghost_name ≡ sink.entry.ghost_name }
        ensures nothing { IsPrinting K.got K.faults sink.old result [] }
    {
        Printer {
            sink,
            waiting: ArrayVec::new(),
            failed: false,
        }
    }

    /// Puts what waits.
    fn flush(&mut self)
        ensures adds { Adds K.got K.faults self.old self.new [] }
        ensures flushed { self.new.waiting.items ≡ [] }
    {
        self.failed = put_unless(self.failed, self.sink, self.waiting.as_slice());
        self.waiting.clear();
    }

    /// Puts what waits, if no more fits behind it.
    fn make_room(&mut self)
        ensures adds { Adds K.got K.faults self.old self.new [] }
        ensures room { array_vec_len self.new.waiting < BUFFER_SIZE }
    {
        if self.waiting.is_full() {
            self.flush();
        }
    }

    /// Takes as much of the front of the text as there is room for, and says how much.
    fn take_front(&mut self, text: &[u8]) -> usize
        requires { 0 < length text.now }
        ensures some { 0 < result }
        ensures within { result ≤ length text.now }
        ensures adds { Adds K.got K.faults self.old self.new (take result text.now) }
    {
        self.make_room();
        let count = text.len().min(self.waiting.remaining_capacity());
        match self.waiting.try_extend_from_slice(&text[..count]) {
            Ok(()) => count,
            Err(_) => unreachable!(),
        }
    }

    /// Prints a text.
    pub fn text(&mut self, text: &[u8])
        ensures { Adds K.got K.faults self.old self.new text.now }
    {
        // Most texts are short and find room behind what waits.
        if !self.waits(text) {
            self.pieces(text);
        }
    }

    /// Lets a text wait where there is room for all of it, and says whether there is.
    fn waits(&mut self, text: &[u8]) -> bool
        ensures waits { OnTrue result (Adds K.got K.faults self.old self.new text.now) }
        ensures no_room { OnFalse result (Adds K.got K.faults self.old self.new []) }
    {
        match self.waiting.try_extend_from_slice(text) {
            Ok(()) => true,
            Err(_) => false,
        }
    }

    /// Prints a text in pieces, as many bytes as there is room for in each.
    fn pieces(&mut self, text: &[u8])
        ensures { Adds K.got K.faults self.old self.new text.now }
    {
        let mut rest = text;
        while !rest.is_empty() {
            let count = self.take_front(rest);
            rest = &rest[count..];
        }
    }

    /// Prints a number in decimal digits.
    pub fn number(&mut self, number: u64)
        ensures { Adds K.got K.faults self.old self.new (decimal number) }
    {
        self.text(Buffer::new().format(number).as_bytes());
    }

    /// Prints a number of up to 128 bits in decimal digits.
    pub fn wide_number(&mut self, number: u128)
        ensures { Adds K.got K.faults self.old self.new (decimal number) }
    {
        self.text(Buffer::new().format(number).as_bytes());
    }

    /// Puts what waits, and says whether all was put.
    pub fn finish(self) -> Printed
        ensures done { OnDone result (Finishes K.got K.faults self.entry self.exit.0.now) }
        ensures write_fault { OnWriteFault result (Stops K.got K.faults self.entry self.exit.0.now) }
    {
        let Printer {
            sink,
            waiting,
            failed,
        } = self;
        if put_unless(failed, sink, waiting.as_slice()) {
            return Printed::WriteFault;
        }
        Printed::Done
    }
}
