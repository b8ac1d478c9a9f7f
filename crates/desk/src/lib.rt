// The desk of the counter program: lines in, reply bytes and the store's words out. No input or output happens here.

#![tactic(auto)]

ghost use Rattle.std.specs.Prelude.{◌≡◌, true, is_some, [], ◌++◌, ◌⊎◌, ◌+◌, ◌*◌, ◌^◌, ◌≤◌, ◌<◌, min, length, drop};
ghost use Rattle.store.specs.declared.Format.TheVariants.{Plots};
ghost use Rattle.store.specs.SetUp;
ghost use Rattle.scan.specs.Range.{range_of};
ghost use Rattle.index.specs.Answers.{reply, enter_reply, range_reply, summary_reply};
ghost use Rattle.lines.specs.Request.{parsed};
ghost use Rattle.desk.specs.Replies.{set_up_told, enter_told, found_told, summary_told, listed_told, listed_lines};
ghost use Rattle.desk.specs.Listing.{part_bytes, part_of, item_from, items_of, survey_told, surveyed};
ghost use Rattle.desk.specs.Listing.{kind_listed, last_line, part_lines, listing_after};
ghost use Rattle.desk.specs.Transcript.{opened, dumped, answered_line};
ghost use Rattle.desk.specs.Serving.{line_of, kept_line, until_feed, goes_on, GetsOn, Answers, Serves, Finishes};
ghost use Rattle.desk.specs.Serving.{finished};

use answers::Refusal;
use index::{Entered, Summed};
use lines::{Kind, Reply, Request};
use plot::Record;

// The bytes of a part of a listing at most: 64 records and the last line, 45 bytes each.
pub const PART_BYTES: usize = 2925;

// A range that is listed in parts, or, if dump, the register written out: the next key wanted, the high end, and how many records the
// whole has.
#[derive(Clone, Copy)]
pub struct Listing {
    pub dump: bool,
    pub at: u32,
    pub high: u32,
    pub count: u32,
}

// What a request is answered with: one line, a listing in parts, or a line and then a listing.
#[derive(Clone, Copy)]
pub enum Outcome {
    Line(Reply),
    Parts(Listing),
    Register(Reply, Listing),
}

// What is under way between two bytes: the line so far (one byte more than a line has, so that a longer one is seen to be too long), how
// many bytes of it are held, and a listing that is not at its end. (A fixed line with its length beside: there is no heap.)
#[derive(Clone, Copy)]
pub struct Desk {
    pub line: [u8; 43],
    pub held: usize,
    pub listing: Option<Listing>,
}

// The desk after some bytes of input, how many were taken, and how many bytes of output were put.
#[derive(Clone, Copy)]
pub struct Progress {
    pub desk: Desk,
    pub taken: usize,
    pub put: usize,
}

#[tactic(auto, using(crate::proofs::Told::refused_told), unfolding(crate::specs::Replies::told, crate::specs::Replies::set_up_told))]
fn set_up_told(a: Result<u32, Refusal>) -> Reply
    ensures { result ≡ set_up_told (SetUp.reply a) }
{
    match a {
        Ok(size) => Reply::SetUpDone(size),
        Err(e) => Reply::Refused(Kind::SetUp.number(), e.number()),
    }
}

#[tactic(auto, using(crate::proofs::Told::refused_told), unfolding(crate::specs::Replies::told, crate::specs::Replies::enter_told))]
fn enter_told(a: Result<Entered, Refusal>) -> Reply
    ensures { result ≡ enter_told (enter_reply a) }
{
    match a {
        Ok(e) => Reply::Entered(e.key, e.levels, e.nodes, e.pages),
        Err(e) => Reply::Refused(Kind::Enter.number(), e.number()),
    }
}

// The answer of find, next or remove, under its kind.
#[tactic(auto, using(crate::proofs::Told::refused_told), unfolding(crate::specs::Replies::told, crate::specs::Replies::found_told))]
fn found_told(kind: Kind, a: Result<Option<Record>, Refusal>) -> Reply
    ensures { result ≡ found_told kind (reply a) }
{
    let number = kind.number();
    match a {
        Ok(Some(r)) => Reply::Found(number, r.key, r.price, r.lease, r.last),
        Ok(None) => Reply::Refused(number, 1),
        Err(e) => Reply::Refused(number, e.number()),
    }
}

#[tactic(auto, using(crate::proofs::Told::refused_told), unfolding(crate::specs::Replies::told, crate::specs::Replies::summary_told))]
fn summary_told(a: Result<Summed, Refusal>) -> Reply
    requires { (summary_reply a).count < 2 ^ 32 }
    ensures { result ≡ summary_told (summary_reply a) }
{
    match a {
        Ok(s) => Reply::Totals(s.count as u32, s.total, s.key),
        Err(e) => Reply::Refused(Kind::Summary.number(), e.number()),
    }
}

// One call of range, with room for a part.
fn read_part(
    store: &[u32],
    low: u32,
    high: u32,
    part: &mut [u32],
) -> Result<index::Listing, Refusal>
    ensures { (range_reply result ≡ (range_of Plots store.now low high part.old).reply)
        × (part.new ≡ (range_of Plots store.now low high part.old).words) }
{
    index::range(store, low, high, part)
}

// The same, for what it says alone.
#[tactic(auto, unfolding(crate::specs::Listing::part_of))]
fn probe(store: &[u32], low: u32, high: u32) -> Result<index::Listing, Refusal>
    ensures { range_reply result ≡ (part_of store.now low high).reply }
{
    let mut part = [0u32; 256];
    read_part(store, low, high, &mut part)
}

// Calls range from the first key not written, as long as one is named, and counts the records; or gives what refuses a call.
fn count_range(store: &[u32], low: u32, high: u32) -> Result<u32, Refusal>
    ensures { survey_told result ≡ surveyed store.now low high }
{
    let mut p = probe(store, low, high)?;
    let mut count = p.count as u32;
    // no index is counted: each call names the key from which the next one reads
    while p.more != 0 {
        p = probe(store, p.more, high)?;
        count += p.count as u32;
    }
    Ok(count)
}

// A range: refused with one line, or counted and then listed from low on.
fn open_range(store: &[u32], low: u32, high: u32) -> Outcome
    ensures { result ≡ opened store.now low high }
{
    match count_range(store, low, high) {
        Ok(count) => Outcome::Parts(Listing {
            dump: false,
            at: low,
            high,
            count,
        }),
        Err(e) => Outcome::Line(Reply::Refused(Kind::Range.number(), e.number())),
    }
}

// The register written out: refused with one line, or counted and then a line with the sizes and the listing.
fn open_dump(store: &[u32]) -> Outcome
    ensures { result ≡ dumped store.now }
{
    match count_range(store, 1, 4294967295) {
        Ok(count) => Outcome::Register(
            Reply::SetUpLine(
                store::word(store, 0),
                store::word(store, 1),
                store::word(store, 2),
                store::word(store, 3),
            ),
            Listing {
                dump: true,
                at: 1,
                high: 4294967295,
                count,
            },
        ),
        Err(e) => Outcome::Line(Reply::Refused(Kind::Dump.number(), e.number())),
    }
}

// Answers what a line makes: a request, or none where the line is wrong.
#[tactic(auto, unfolding(crate::specs::Transcript::answered))]
pub fn answer(store: &mut [u32], request: Option<Request>) -> Outcome
    ensures { (result ≡ (answered_line store.old request).outcome)
        × (store.new ≡ (answered_line store.old request).words) }
{
    let Some(request) = request else {
        return Outcome::Line(Reply::WrongLine);
    };
    match request {
        Request::SetUp(theta, capacity, nodes, pages) => {
            Outcome::Line(set_up_told(index::set_up(store, theta, capacity, nodes, pages)))
        }
        Request::Enter(key, price, lease, last) => Outcome::Line(enter_told(index::enter(
            store,
            Record {
                key,
                price,
                lease,
                last,
            },
        ))),
        Request::Find(key) => Outcome::Line(found_told(Kind::Find, index::find(store, key))),
        Request::Next(key) => Outcome::Line(found_told(Kind::Next, index::next(store, key))),
        Request::Range(low, high) => open_range(store, low, high),
        Request::Summary(low, high, today) => {
            Outcome::Line(summary_told(index::summary(store, low, high, today)))
        }
        Request::Dump => open_dump(store),
        Request::Remove(key) => Outcome::Line(found_told(Kind::Remove, index::remove(store, key))),
    }
}

// The line of the record whose words stand at an index.
fn record_told(words: &[u32], at: usize, dump: bool) -> Reply
    requires { at + 4 ≤ length words.now }
    ensures { result ≡ listed_told dump (item_from words.now at) }
{
    if dump {
        return Reply::EnterLine(words[at], words[at + 1], words[at + 2], words[at + 3]);
    }
    Reply::Listed(words[at], words[at + 1], words[at + 2], words[at + 3])
}

// Writes a line for each of n records, and says how many bytes they have.
fn write_records(words: &[u32], dump: bool, n: u32, out: &mut [u8]) -> usize
    requires { (4 * n ≤ length words.now) × (n ≤ 64) × (45 * n ≤ length out.old) }
    ensures { (result ≡ length (listed_lines dump (items_of n words.now))) × (result ≤ 45 * n)
        × (out.new ≡ listed_lines dump (items_of n words.now) ++ drop result out.old) }
{
    let mut at: usize = 0;
    for i in 0..n as usize {
        at += lines::write(&mut out[at..], record_told(words, 4 * i, dump));
    }
    at
}

fn kind_listed(dump: bool) -> Kind
    ensures { result ≡ kind_listed dump }
{
    if dump { Kind::Dump } else { Kind::Range }
}

// Puts the line after the records of a listing, none after those of the register, and says how many bytes it has.
#[tactic(auto, unfolding(crate::specs::Listing::last_line))]
fn put_last(dump: bool, count: u32, out: &mut [u8]) -> usize
    requires { 45 ≤ length out.old }
    ensures { (result ≡ length (last_line dump count)) × (result ≤ 45) × (out.new ≡ last_line dump count ++ drop result out.old) }
{
    if dump {
        return 0;
    }
    lines::write(out, Reply::RangeEnd(count))
}

// What is left of a listing, and how many bytes of it were put.
#[derive(Clone, Copy)]
pub struct Listed {
    pub listing: Option<Listing>,
    pub put: usize,
}

// Puts the next part of a listing: a line for each record, and at the end of the listing its last line.
fn list_part(store: &[u32], l: Listing, out: &mut [u8]) -> Listed
    requires { part_bytes ≤ length out.old }
    ensures { (result.listing ≡ listing_after store.now l) × (result.put ≡ length (part_lines store.now l))
        × (out.new ≡ part_lines store.now l ++ drop result.put out.old) }
{
    let mut part = [0u32; 256];
    match read_part(store, l.at, l.high, &mut part) {
        Err(e) => {
            let put = lines::write(
                out,
                Reply::Refused(kind_listed(l.dump).number(), e.number()),
            );
            Listed { listing: None, put }
        }
        Ok(p) => {
            let put = write_records(&part, l.dump, p.count as u32, out);
            if p.more != 0 {
                return Listed {
                    listing: Some(Listing { at: p.more, ..l }),
                    put,
                };
            }
            let end = put_last(l.dump, l.count, &mut out[put..]);
            Listed {
                listing: None,
                put: put + end,
            }
        }
    }
}

// How many bytes stand before the first 0A.
fn until_feed(input: &[u8]) -> usize
    ensures { (result ≡ until_feed input.now) × (result ≤ length input.now) }
{
    input
        .iter()
        .position(|b| *b == b'\n')
        .unwrap_or(input.len())
}

// The desk with more bytes of its line; of a line that is too long only as many as show that.
fn add_to(d: Desk, bytes: &[u8]) -> Desk
    ensures { (line_of result ≡ kept_line (line_of d ++ bytes.now)) × (result.listing ≡ d.listing) × (result.held ≤ 43) }
{
    let mut line = d.line;
    let held = d.held.min(43);
    let n = bytes.len().min(43 - held);
    line[held..held + n].copy_from_slice(&bytes[..n]);
    Desk {
        line,
        held: held + n,
        listing: d.listing,
    }
}

// A desk that holds no byte of a line.
#[tactic(auto, unfolding(crate::specs::Serving::line_of))]
fn fresh(listing: Option<Listing>) -> Desk
    ensures { (line_of result ≡ []) × (result.listing ≡ listing) }
{
    Desk {
        line: [0; 43],
        held: 0,
        listing,
    }
}

// Answers a line.
fn outcome_of(store: &mut [u32], line: &[u8]) -> Outcome
    ensures { (result ≡ (answered_line store.old (parsed line.now)).outcome)
        × (store.new ≡ (answered_line store.old (parsed line.now)).words) }
{
    answer(store, lines::parse(line))
}

// Answers the line that is held: with one line, or by opening a listing, or with both.
fn answer_line(store: &mut [u32], d: Desk, taken: usize, out: &mut [u8]) -> Progress
    requires { (d.held ≤ 43) × (part_bytes ≤ length out.old) }
    ensures { Answers store.old (line_of d) taken out.old store.new out.new result }
{
    let line = d.line;
    let held = d.held;
    match outcome_of(store, &line[..held]) {
        Outcome::Line(reply) => {
            let put = lines::write(out, reply);
            Progress {
                desk: fresh(None),
                taken,
                put,
            }
        }
        Outcome::Parts(listing) => Progress {
            desk: fresh(Some(listing)),
            taken,
            put: 0,
        },
        Outcome::Register(reply, listing) => {
            let put = lines::write(out, reply);
            Progress {
                desk: fresh(Some(listing)),
                taken,
                put,
            }
        }
    }
}

// Takes the bytes up to the end of a line, and answers it; or all, where no line ends.
fn take_line(store: &mut [u32], d: Desk, input: &[u8], out: &mut [u8]) -> Progress
    requires { (part_bytes ≤ length out.old) × (d.listing ≡ None) × (1 ≤ length input.now) }
    ensures { Serves store.old d input.now out.old store.new out.new result
        × GetsOn d result }
{
    let n = until_feed(input);
    let next = add_to(d, &input[..n]);
    if n == input.len() {
        return Progress {
            desk: next,
            taken: n,
            put: 0,
        };
    }
    answer_line(store, next, n + 1, out)
}

// One turn: the next part of a listing, or the input up to the end of a line.
fn turn(store: &mut [u32], d: Desk, input: &[u8], out: &mut [u8]) -> Progress
    requires { (part_bytes ≤ length out.old) × ((is_some d.listing ≡ true) ⊎ (1 ≤ length input.now)) }
    ensures { Serves store.old d input.now out.old store.new out.new result
        × GetsOn d result }
{
    if let Some(listing) = d.listing {
        let p = list_part(store, listing, out);
        return Progress {
            desk: Desk {
                listing: p.listing,
                ..d
            },
            taken: 0,
            put: p.put,
        };
    }
    take_line(store, d, input, out)
}

// Takes input and puts replies, until the input is taken and no listing is open, or the output has no room for a part.
pub fn serve(store: &mut [u32], d: Desk, input: &[u8], out: &mut [u8]) -> Progress
    ensures { Serves store.old d input.now out.old store.new out.new result
        × Finishes input.now out.old result }
{
    let mut desk = d;
    let mut taken: usize = 0;
    let mut put: usize = 0;
    // no index is counted: each turn says how many bytes it took and put
    while goes_on(desk, input.len() - taken, out.len() - put) {
        let t = turn(store, desk, &input[taken..], &mut out[put..]);
        desk = t.desk;
        taken += t.taken;
        put += t.put;
    }
    Progress { desk, taken, put }
}

// Whether there is something to do, and room for it.
#[tactic(auto, unfolding(crate::specs::Serving::goes_on))]
fn goes_on(d: Desk, left: usize, room: usize) -> bool
    ensures { result ≡ goes_on d left room }
{
    room >= PART_BYTES && (d.listing.is_some() || left > 0)
}

// A desk at which nothing is under way.
pub fn start() -> Desk
    ensures { (line_of result ≡ []) × (result.listing ≡ None) }
{
    fresh(None)
}

// Puts the reply to bytes after the last 0A, and says how many bytes it has.
#[tactic(auto, unfolding(crate::specs::Serving::finished))]
pub fn finish(d: Desk, out: &mut [u8]) -> usize
    ensures { (result ≡ (finished d out.old).count) × (out.new ≡ (finished d out.old).bytes) }
{
    if d.held == 0 {
        return 0;
    }
    lines::write(out, Reply::WrongLine)
}
