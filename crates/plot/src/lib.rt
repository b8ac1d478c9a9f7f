// Plots and money: a record's limits, what is left of a price, and the labels of keys.
#![tactic(auto)]

ghost use Rattle.std.specs.Prelude.{◌≡◌, ◌*◌, ◌/◌, ◌<◌, ◌≤◌, ◌^◌, true};
ghost use Rattle.plot.specs.Plot.{lawful_day, lawful_term, lawful};
ghost use Rattle.plot.specs.Money.{days_left, amount, reply, balance_reply};
ghost use Rattle.plot.specs.Label.{lawful_label, key_reply, key_of_reply, label_reply, label_of_reply, convert_reply};

use answers::Refusal;

// What is held of a plot: its key, the price in pence, the lease days (0: perpetual) and the last day.
#[derive(Clone, Copy)]
pub struct Record {
    pub key: u32,
    pub price: u32,
    pub lease: u32,
    pub last: u32,
}

// Where a plot lies: section, row, place, and the letter of a plot between two places (0: none, 1 to 15: A to O).
#[derive(Clone, Copy)]
pub struct Label {
    pub section: u32,
    pub row: u32,
    pub place: u32,
    pub letter: u32,
}

// Whether a number is a day number.
pub fn lawful_day(day: u32) -> bool
    ensures { result ≡ lawful_day day }
{
    day <= 99999
}

// Whether lease days and a last day are within their limits. Both cases are worked out, without a branch.
fn lawful_term(lease: u32, last: u32) -> bool
    ensures { result ≡ lawful_term lease last }
{
    let none = lease == 0;
    let days = lease <= 36525;
    (none & (last == 0)) | (!none & days & lawful_day(last))
}

// Whether a record may be held.
pub fn lawful_record(record: Record) -> bool
    ensures { result ≡ lawful «record» }
{
    (record.key != 0) & lawful_term(record.lease, record.last)
}

// The days of a lease that are left today; the last day counts.
fn days_left(lease: u32, last: u32, today: u32) -> u32
    requires { last ≤ 99999 }
    ensures { result ≡ days_left lease last today }
{
    if last < today {
        return 0;
    }
    (last - today + 1).min(lease)
}

// The product of two 32-bit numbers, with nothing lost.
pub fn wide_product(a: u32, b: u32) -> u64
    ensures { result ≡ a * b }
{
    (a as u64) * (b as u64)
}

// A quotient that fits 32 bits. The dividend is raised by 2^32 times the divisor, so that it never fits 32 bits: the test for that which the
// compiler puts before a division of 64 bits always comes out the same way, and no branch depends on the record.
fn quotient(product: u64, by: u32) -> u32
    requires { (1 ≤ by) × (by < 2 ^ 16) × (product < by * 2 ^ 32) }
    ensures { result ≡ product / by }
{
    let wide = by as u64;
    ((wide * 4294967296 + product) / wide - 4294967296) as u32
}

// What is left of the price of a lawful term: price × days left / lease days, rounded down, the product in 64 bits.
pub fn amount_left(price: u32, lease: u32, last: u32, today: u32) -> u32
    requires { lawful_term lease last ≡ true }
    ensures { result ≡ amount price lease last today }
{
    quotient(
        wide_product(price, days_left(lease, last, today)),
        lease.max(1),
    )
}

// What is left of a price, where the term and today are within their limits.
pub fn balance(price: u32, lease: u32, last: u32, today: u32) -> Result<u32, Refusal>
    ensures { reply result ≡ balance_reply price lease last today }
{
    if !lawful_term(lease, last) {
        return Err(Refusal::RecordOutside);
    }
    if !lawful_day(today) {
        return Err(Refusal::RecordOutside);
    }
    Ok(amount_left(price, lease, last, today))
}

// Whether section, row, place and letter are within their limits.
fn lawful_label(label: Label) -> bool
    ensures { result ≡ lawful_label label.section label.row label.place label.letter }
{
    (1 <= label.section)
        & (label.section <= 255)
        & (label.row <= 4095)
        & (label.place <= 255)
        & (label.letter <= 15)
}

// The key of a label.
pub fn key_of(label: Label) -> Result<u32, Refusal>
    ensures { key_reply result ≡ key_of_reply label }
{
    if !lawful_label(label) {
        return Err(Refusal::NoLabel);
    }
    Ok(label.section * 16777216 + label.row * 4096 + label.place * 16 + label.letter)
}

// The label of a key.
pub fn label_of(key: u32) -> Result<Label, Refusal>
    ensures { label_reply result ≡ label_of_reply key }
{
    if key < 16777216 {
        return Err(Refusal::NoLabel);
    }
    Ok(Label {
        section: key / 16777216,
        row: key / 4096 % 4096,
        place: key / 16 % 256,
        letter: key % 16,
    })
}

// The key, with letter 0, of a key of the old packing, whose lowest 12 bits are the place.
pub fn convert(key: u32) -> Result<u32, Refusal>
    ensures { key_reply result ≡ convert_reply key }
{
    let place = key % 4096;
    if key <= 16777215 {
        return Err(Refusal::NoLabel);
    }
    if place > 255 {
        return Err(Refusal::NoLabel);
    }
    Ok(key / 4096 * 4096 + place * 16)
}
