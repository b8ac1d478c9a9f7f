// A call of any public operation, and its reply, as plain numbers.
ghost use Rattle.std.specs.Prelude.{◌≡◌, min, length};
ghost use Rattle.exports.specs.Reply.{filled};
ghost use Rattle.harness.specs.Calls.{refused, given, held_reply, record_of, entry_of, ran_of, reply_to};
ghost use Rattle.harness.specs.Calls.{kind_of, is_range, writes, marked, written_out, open_words, stays, outcome};

use plot::Record;
use raw::{blocks, words};
use std::fmt;
use store::{to_index, word};

// The kinds of calls.
#[derive(Clone, Copy, PartialEq)]
pub enum Kind {
    SetUp,
    Enter,
    Find,
    Next,
    Range,
    Summary,
    Balance,
    KeyOf,
    LabelOf,
    Convert,
}

impl From<u32> for Kind {
    ghost from_gives = { λ n k. k ≡ kind_of n };

    // The kind with a number of a table; any number past the others converts a key.
    fn from(number: u32) -> Kind {
        match number {
            0 => Kind::SetUp,
            1 => Kind::Enter,
            2 => Kind::Find,
            3 => Kind::Next,
            4 => Kind::Range,
            5 => Kind::Summary,
            6 => Kind::Balance,
            7 => Kind::KeyOf,
            8 => Kind::LabelOf,
            _ => Kind::Convert,
        }
    }
}

impl Kind {
    // Whether a call writes records to its output.
    pub fn is_range(self) -> bool
        ensures { result ≡ is_range self }
    {
        match self {
            Kind::Range => true,
            _ => false,
        }
    }

    // Whether a call may write the store.
    fn writes(self) -> bool
        ensures { result ≡ writes self }
    {
        match self {
            Kind::SetUp => true,
            Kind::Enter => true,
            _ => false,
        }
    }
}

// What the words of an output hold before a call.
pub const MARK: u32 = 4277009102;

#[derive(Clone, Copy)]
pub struct Call {
    pub kind: Kind,
    pub a: u32,
    pub b: u32,
    pub c: u32,
    pub d: u32,
}

// The number of the answer, as C gets it, and the values with it: 0 where there is none.
#[derive(Clone, Copy, PartialEq)]
pub struct Reply {
    pub number: u32,
    pub a: u64,
    pub b: u64,
    pub c: u64,
    pub d: u64,
}

impl fmt::Display for Reply {
    fn fmt<W: fmt::Write>(&self, f: &mut fmt::Formatter<W>) -> fmt::Result {
        write!(
            f,
            "{} {} {} {} {}",
            self.number, self.a, self.b, self.c, self.d
        )
    }
}

// A reply, and whether every word that the call may not change is as it was.
#[derive(Clone, Copy)]
pub struct Outcome {
    pub reply: Reply,
    pub kept: bool,
}

// A reply with no values.
pub fn refusal(number: u32) -> Reply
    ensures { result ≡ refused number }
{
    Reply {
        number,
        a: 0,
        b: 0,
        c: 0,
        d: 0,
    }
}

// An answer 0 with its values.
pub fn done(a: u64, b: u64, c: u64, d: u64) -> Reply
    ensures { result ≡ given a b c d }
{
    Reply {
        number: 0,
        a,
        b,
        c,
        d,
    }
}

// A call by its values, on one line where many are written.
pub fn ask(kind: Kind, a: u32, b: u32, c: u32, d: u32) -> Call
    ensures { result ≡ record { kind = kind; a = a; b = b; c = c; d = d } }
{
    Call { kind, a, b, c, d }
}

// A range's reply: the records written, and the first key not written.
pub fn listing(count: u32, more: u32) -> Reply
    ensures { result ≡ given count more 0 0 }
{
    done(count as u64, more as u64, 0, 0)
}

// The reply with a record.
pub fn held(plot: Record) -> Reply
    ensures { result ≡ held_reply plot }
{
    done(
        plot.key as u64,
        plot.price as u64,
        plot.lease as u64,
        plot.last as u64,
    )
}

// A record by its values, on one line where many are written.
pub fn record(key: u32, price: u32, lease: u32, last: u32) -> Record
    ensures { result ≡ record { key = key; price = price; lease = lease; last = last } }
{
    Record {
        key,
        price,
        lease,
        last,
    }
}

// An entry's record.
pub fn record_of(call: Call) -> Record
    ensures { result ≡ record_of call }
{
    record(call.a, call.b, call.c, call.d)
}

// The call that enters a record.
pub fn entry(plot: Record) -> Call
    ensures { result ≡ entry_of plot }
{
    ask(Kind::Enter, plot.key, plot.price, plot.lease, plot.last)
}

// Makes a call: the answer's number, and its values in `values`.
fn call_with(store: &mut [u32], out: &mut [u32], call: Call, values: &mut [u64]) -> u32
    ensures { let a = ran_of call store.old out.old in
        (result ≡ a.number) × (store.new ≡ a.store) × (out.new ≡ a.out)
        × (values.new ≡ filled a.values values.old) }
{
    match call.kind {
        Kind::SetUp => exports::plots_set_up(store, call.a, call.b, call.c, call.d, values),
        Kind::Enter => exports::plots_enter(store, call.a, call.b, call.c, call.d, values),
        Kind::Find => exports::plots_find(store, call.a, values),
        Kind::Next => exports::plots_next(store, call.a, values),
        Kind::Range => exports::plots_range(store, call.a, call.b, out, values),
        Kind::Summary => exports::plots_summary(store, call.a, call.b, call.c, values),
        Kind::Balance => exports::plots_balance(call.a, call.b, call.c, call.d, values),
        Kind::KeyOf => exports::plots_key_of(call.a, call.b, call.c, call.d, values),
        Kind::LabelOf => exports::plots_label_of(call.a, values),
        Kind::Convert => exports::plots_convert(call.a, values),
    }
}

// Makes a call.
pub fn reply_to(store: &mut [u32], out: &mut [u32], call: Call) -> Reply
    ensures { let s = store.old in let o = out.old in
        (result ≡ reply_to call s o) × (store.new ≡ (ran_of call s o).store) × (out.new ≡ (ran_of call s o).out) }
{
    let mut values = [0u64; 4];
    let number = call_with(store, out, call, &mut values);
    Reply {
        number,
        a: values[0],
        b: values[1],
        c: values[2],
        d: values[3],
    }
}

// How many words of the output a call has written.
fn written(kind: Kind, reply: Reply) -> usize
    ensures { result ≡ written_out kind reply }
{
    if !kind.is_range() {
        return 0;
    }
    if reply.number != 0 {
        return 0;
    }
    4 * to_index(words::low(reply.a))
}

// How many words of the store a call with this answer may change: the store's size, or none.
fn open_words(store: &[u32], kind: Kind, number: u32) -> usize
    ensures { result ≡ open_words store.now kind number }
{
    if !kind.writes() {
        return 0;
    }
    if number != 0 {
        return 0;
    }
    blocks::page_at(store, word(store, 3).saturating_add(1))
}

// Whether a call has left every word that it may not change.
fn stayed(store: &[u32], kept: &[u32], out: &[u32], kind: Kind, reply: Reply) -> bool
    ensures { result ≡ stays store.now kept.now out.now kind reply }
{
    if !words::all_from(out, written(kind, reply), MARK) {
        return false;
    }
    let from = open_words(store, kind, reply.number);
    words::same(store, from, kept, from, store.len().saturating_sub(from))
}

// Makes a call with a marked output, and looks at every word that it may not change. A store has at most 16,384 words here.
pub fn watched(store: &mut [u32], out: &mut [u32], call: Call) -> Outcome
    ensures { let s = store.old in let o = marked (length out.old) in
        (result ≡ outcome call s o) × (store.new ≡ (ran_of call s o).store) × (out.new ≡ (ran_of call s o).out) }
{
    let mut kept = [0u32; 16384];
    words::copy(store, &mut kept, store.len());
    out.fill(MARK);
    let reply = reply_to(store, out, call);
    Outcome {
        reply,
        kept: stayed(store, &kept, out, call.kind, reply),
    }
}

// The same with an output of `room` words, at most 64, of its own.
pub fn watched_in(store: &mut [u32], room: usize, call: Call) -> Outcome
    ensures { let s = store.old in let o = marked (min room 64) in
        (result ≡ outcome call s o) × (store.new ≡ (ran_of call s o).store) }
{
    let mut out = [0u32; 64];
    watched(store, &mut out[0..room.min(64)], call)
}
