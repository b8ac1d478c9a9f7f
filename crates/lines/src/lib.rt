// Lines of the counter program: requests read from bytes, replies written as bytes. No input or output happens here.

#![tactic(auto)]

ghost use Rattle.std.specs.Prelude.{◌≡◌, ◌++◌, ◌+◌, ◌≤◌, length, drop};
ghost use Rattle.lists.specs.Lists.{part, replaced};
ghost use Rattle.lines.specs.Columns.{skipped, column};
ghost use Rattle.lines.specs.Request.{kind_number, kind_numbered, unused, request_of, parsed};
ghost use Rattle.lines.specs.Reply.{four_fields, request_fields, summary_fields, line_size, written};
ghost use Rattle.lines.specs.Steps.{spelled_by, number_in, digit_or};

// What a line asks for: the kind with the fields that it uses.
#[derive(Clone, Copy)]
pub enum Request {
    SetUp(u32, u32, u32, u32),
    Enter(u32, u32, u32, u32),
    Find(u32),
    Next(u32),
    Range(u32, u32),
    Summary(u32, u32, u32),
    Dump,
    Remove(u32),
}

// The kinds of requests, in the order of their numbers.
#[derive(Clone, Copy, Debug, PartialEq, Eq)]
pub enum Kind {
    SetUp,
    Enter,
    Find,
    Next,
    Range,
    Summary,
    Dump,
    Remove,
}

impl Kind {
    // The number of a kind.
    pub fn number(self) -> u32
        ensures { result ≡ kind_number self }
    {
        match self {
            Kind::SetUp => 0,
            Kind::Enter => 1,
            Kind::Find => 2,
            Kind::Next => 3,
            Kind::Range => 4,
            Kind::Summary => 5,
            Kind::Dump => 6,
            Kind::Remove => 7,
        }
    }

    // The kind of a number.
    #[tactic(auto, unfolding(crate::specs::Request::kind_numbered))]
    fn from_number(number: u32) -> Option<Kind>
        ensures { result ≡ kind_numbered number }
    {
        match number {
            0 => Some(Kind::SetUp),
            1 => Some(Kind::Enter),
            2 => Some(Kind::Find),
            3 => Some(Kind::Next),
            4 => Some(Kind::Range),
            5 => Some(Kind::Summary),
            6 => Some(Kind::Dump),
            7 => Some(Kind::Remove),
            8..=99 => None,
            _ => None,
        }
    }
}

// The kind of the reply to a wrong line.
const WRONG_KIND: u32 = 99;

// What is replied. The first field of Found and of Refused is the number in the line's first column, whatever it is: the number of the
// request's kind (Found: of find, next or remove). SetUpLine and EnterLine are lines of a register written out: requests, with no answer.
#[derive(Clone, Copy)]
pub enum Reply {
    SetUpDone(u32),
    Entered(u32, u32, u32, u32),
    Found(u32, u32, u32, u32, u32),
    Listed(u32, u32, u32, u32),
    RangeEnd(u32),
    Totals(u32, u64, u32),
    Refused(u32, u32),
    SetUpLine(u32, u32, u32, u32),
    EnterLine(u32, u32, u32, u32),
    WrongLine,
}

// The columns without the blanks before.
fn trimmed(cols: &[u8]) -> &[u8]
    ensures { (result.now ≡ skipped cols.now) × (length result.now ≤ length cols.now) }
{
    let blanks = cols.iter().position(|b| *b != b' ').unwrap_or(cols.len());
    &cols[blanks..]
}

// The number that bytes spell, if all are digits and it has 32 bits.
fn spelled(digits: &[u8]) -> Option<u32>
    requires { length digits.now ≤ 10 }
    ensures { result ≡ spelled_by 0 digits.now }
{
    let mut n: u64 = 0;
    for b in digits {
        if !b.is_ascii_digit() {
            return None;
        }
        n = 10 * n + u64::from(*b - b'0');
    }
    u32::try_from(n).ok()
}

// The number in columns: right-justified, blanks before, no leading zero.
fn number_in(cols: &[u8]) -> Option<u32>
    requires { length cols.now ≤ 10 }
    ensures { result ≡ number_in cols.now }
{
    match trimmed(cols) {
        [] => None,
        [b'0'] => Some(0),
        [b'0', ..] => None,
        digits => spelled(digits),
    }
}

// The number in w columns of a line from one on.
fn field(line: &[u8], at: usize, w: usize) -> Option<u32>
    requires { (w ≤ 10) × (at + w ≤ length line.now) }
    ensures { result ≡ number_in (part line.now at w) }
{
    number_in(&line[at..at + w])
}

// A request, if the fields that it does not use are 0.
fn unless_used(request: Request, others: &[u32]) -> Option<Request>
    ensures { result ≡ unused request others.now }
{
    others.iter().all(|n| *n == 0).then_some(request)
}

// The request that a kind and four fields make.
#[tactic(auto, unfolding(crate::specs::Request::request_of))]
fn request_of(kind: Kind, a: u32, b: u32, c: u32, d: u32) -> Option<Request>
    ensures { result ≡ request_of kind a b c d }
{
    match kind {
        Kind::SetUp => Some(Request::SetUp(a, b, c, d)),
        Kind::Enter => Some(Request::Enter(a, b, c, d)),
        Kind::Find => unless_used(Request::Find(a), &[b, c, d]),
        Kind::Next => unless_used(Request::Next(a), &[b, c, d]),
        Kind::Range => unless_used(Request::Range(a, b), &[c, d]),
        Kind::Summary => unless_used(Request::Summary(a, b, c), &[d]),
        Kind::Dump => unless_used(Request::Dump, &[a, b, c, d]),
        Kind::Remove => unless_used(Request::Remove(a), &[b, c, d]),
    }
}

// The request that a line makes, none where it is wrong. A line has 42 bytes here: its byte 0A is left out.
pub fn parse(line: &[u8]) -> Option<Request>
    ensures { result ≡ parsed line.now }
{
    if line.len() != 42 {
        return None;
    }
    let kind = Kind::from_number(field(line, 0, 2)?)?;
    let a = field(line, 2, 10)?;
    let b = field(line, 12, 10)?;
    let c = field(line, 22, 10)?;
    let d = field(line, 32, 10)?;
    request_of(kind, a, b, c, d)
}

// The byte of a column before the last: the low digit, or a blank where no digit is left.
#[tactic(auto, unfolding(crate::specs::Steps::digit_or))]
fn shown(n: u64) -> u8
    ensures { result ≡ digit_or n }
{
    if n == 0 {
        return b' ';
    }
    b'0' + (n % 10) as u8
}

// Puts a number into w columns from one on, its last digit first.
fn put(out: &mut [u8], at: usize, w: usize, number: u64)
    requires { (1 ≤ w) × (at + w ≤ length out.old) }
    ensures { out.new ≡ replaced at w (column w number) out.old }
{
    let last = at + w - 1;
    out[last] = b'0' + (number % 10) as u8;
    let mut n = number / 10;
    for k in (at..last).rev() {
        out[k] = shown(n);
        n /= 10;
    }
}

// Puts two numbers into w columns each, side by side.
fn put_two(out: &mut [u8], at: usize, w: usize, a: u32, b: u32)
    requires { (1 ≤ w) × (at + w + w ≤ length out.old) }
    ensures { out.new ≡ replaced (at + w) w (column w b) (replaced at w (column w a) out.old) }
{
    put(out, at, w, u64::from(a));
    put(out, at + w, w, u64::from(b));
}

// Puts a reply with four fields.
fn put_fields(out: &mut [u8], kind: u32, answer: u32, a: u32, b: u32, c: u32, d: u32) -> usize
    requires { 45 ≤ length out.old }
    ensures { (result ≡ 45) × (out.new ≡ four_fields kind answer a b c d ++ drop 45 out.old) }
{
    put_two(out, 0, 2, kind, answer);
    put_two(out, 4, 10, a, b);
    put_two(out, 24, 10, c, d);
    out[44] = b'\n';
    45
}

// Puts a request with four fields.
fn put_request(out: &mut [u8], kind: Kind, a: u32, b: u32, c: u32, d: u32) -> usize
    requires { 43 ≤ length out.old }
    ensures { (result ≡ 43) × (out.new ≡ request_fields (kind_number kind) a b c d ++ drop 43 out.old) }
{
    put(out, 0, 2, u64::from(kind.number()));
    put_two(out, 2, 10, a, b);
    put_two(out, 22, 10, c, d);
    out[42] = b'\n';
    43
}

// Puts a summary: count, total in 20 columns, earliest key.
fn put_summary(out: &mut [u8], count: u32, total: u64, key: u32) -> usize
    requires { 45 ≤ length out.old }
    ensures { (result ≡ 45) × (out.new ≡ summary_fields count total key ++ drop 45 out.old) }
{
    put_two(out, 0, 2, Kind::Summary.number(), 0);
    put(out, 4, 10, u64::from(count));
    put(out, 14, 20, total);
    put(out, 34, 10, u64::from(key));
    out[44] = b'\n';
    45
}

// How many bytes the line of a reply has.
fn size_of(reply: Reply) -> usize
    ensures { result ≡ line_size reply }
{
    match reply {
        Reply::SetUpLine(..) | Reply::EnterLine(..) => 43,
        _ => 45,
    }
}

// Writes the line of a reply, and says how many bytes it has; nothing is written where it does not fit.
#[tactic(auto, unfolding(crate::specs::Reply::written, crate::specs::Reply::reply_line))]
pub fn write(out: &mut [u8], reply: Reply) -> usize
    ensures { (result ≡ (written reply out.old).count) × (out.new ≡ (written reply out.old).bytes) }
{
    if out.len() < size_of(reply) {
        return 0;
    }
    match reply {
        Reply::SetUpDone(size) => put_fields(out, Kind::SetUp.number(), 0, size, 0, 0, 0),
        Reply::Entered(key, levels, nodes, pages) => put_fields(
            out,
            Kind::Enter.number(),
            0,
            key,
            levels,
            nodes,
            pages,
        ),
        Reply::Found(kind, key, price, lease, last) => put_fields(
            out, kind, 0, key, price, lease, last,
        ),
        Reply::Listed(key, price, lease, last) => put_fields(
            out,
            Kind::Range.number(),
            0,
            key,
            price,
            lease,
            last,
        ),
        Reply::RangeEnd(count) => put_fields(out, Kind::Range.number(), 1, count, 0, 0, 0),
        Reply::Totals(count, total, key) => put_summary(out, count, total, key),
        Reply::Refused(kind, answer) => put_fields(out, kind, answer, 0, 0, 0, 0),
        Reply::SetUpLine(theta, capacity, nodes, pages) => put_request(
            out,
            Kind::SetUp,
            theta,
            capacity,
            nodes,
            pages,
        ),
        Reply::EnterLine(key, price, lease, last) => put_request(
            out,
            Kind::Enter,
            key,
            price,
            lease,
            last,
        ),
        Reply::WrongLine => put_fields(out, WRONG_KIND, 2, 0, 0, 0, 0),
    }
}
