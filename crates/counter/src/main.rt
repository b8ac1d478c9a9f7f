// The counter program: requests on standard input, replies on standard output, over a store of 8,192 words. What it writes is crate
// desk's transcript; here bytes are only moved, from any reader to any writer.

#![tactic(auto)]

ghost use Rattle.std.specs.Prelude.{◌≡◌, ℕ, ◌-◌, ◌≤◌, ◌<◌, IfOk, IfErr, OnOk, Ok, None, length, take, replicate};
ghost use Rattle.std.specs.Io.KnownBytes.{Appends, Consumes, IsAtEnd};
ghost use Rattle.desk.specs.Listing.{part_bytes};
ghost use Rattle.desk.specs.Transcript.{ending, store_words};
ghost use Rattle.desk.specs.Serving.{line_of, Serves, Finishes};
ghost use Rattle.counter.specs.declared.Failure.TheVariants.{Writing, Ending};
ghost use Rattle.counter.specs.Program.{Whole, CameOrFailed, Turned, ServedAll, Ended};

use desk::{Desk, Progress};
use std::fmt;
use std::io::{Read, Write};
use std::process::ExitCode;

// The store's words.
pub const STORE_WORDS: usize = 8192;

// The bytes of a read, and of a write.
const BUFFER_BYTES: usize = 65536;

// Why a run ends before it is done: a read failed, or a write of replies, or the write of the last reply.
#[derive(Clone, Copy, Debug, PartialEq, Eq)]
pub enum Failure {
    Reading,
    Writing,
    Ending,
}

impl fmt::Display for Failure {
    fn fmt<W: fmt::Write>(&self, f: &mut fmt::Formatter<W>) -> fmt::Result {
        f.write_str(match self {
            Failure::Reading => "reading failed",
            Failure::Writing | Failure::Ending => "writing failed",
        })
    }
}

// Hands bytes on; where that fails, it is the failure named.
fn hand_on<W: Write>(writer: &mut W, bytes: &[u8], failure: Failure) -> Result<(), Failure>
    ensures sent { OnOk result (Appends (W.contents writer.old) (W.contents writer.new) bytes.now) }
    ensures failed { IfErr result (λ f. f ≡ failure) }
{
    writer.write_all(bytes).map_err(|_| failure)
}

// Serves input as far as the output has room, and hands the replies on.
fn serve_once<W: Write>(
    writer: &mut W,
    store: &mut [u32],
    d: Desk,
    input: &[u8],
    out: &mut [u8],
) -> Result<Progress, Failure>
    ensures served { IfOk result (λ p. Serves store.old d input.now out.old store.new out.new p
        × Finishes input.now out.old p
        × Appends (W.contents writer.old) (W.contents writer.new) (take p.put out.new)) }
    ensures failed { IfErr result (λ f. f ≡ Writing) }
{
    let p = desk::serve(store, d, input, out);
    hand_on(writer, &out[..p.put], Failure::Writing)?;
    Ok(p)
}

// Serves a chunk: its replies go out in one write, or in several where the output has no room for all.
fn serve_chunk<W: Write>(
    writer: &mut W,
    store: &mut [u32],
    d: Desk,
    input: &[u8],
    out: &mut [u8],
) -> Result<Desk, Failure>
    requires { part_bytes ≤ length out.old }
    ensures served { IfOk result
        (λ e. Whole store.old d input.now store.new e (W.contents writer.old) (W.contents writer.new)) }
    ensures failed { IfErr result (λ f. f ≡ Writing) }
{
    let mut desk = d;
    let mut from: usize = 0;
    loop {
        let p = serve_once(writer, store, desk, &input[from..], out)?;
        desk = p.desk;
        from += p.taken;
        if out.len() - p.put >= desk::PART_BYTES {
            return Ok(desk);
        }
    }
}

// Reads once: how many bytes came.
fn read_some<R: Read>(reader: &mut R, input: &mut [u8]) -> Result<usize, Failure>
    ensures came { CameOrFailed (R.remaining reader.old) (R.remaining reader.new) input.new result }
{
    reader.read(input).map_err(|_| Failure::Reading)
}

// Serves what a read brought; none where it brought nothing, at the end of the input.
fn serve_read<W: Write>(
    writer: &mut W,
    store: &mut [u32],
    d: Desk,
    input: &[u8],
    out: &mut [u8],
) -> Result<Option<Desk>, Failure>
    requires { (part_bytes ≤ length out.old) × (d.listing ≡ None) }
    ensures served { Turned store.old d input.now store.new (W.contents writer.old) (W.contents writer.new) result }
    ensures failed { IfErr result (λ f. f ≡ Writing) }
{
    if input.is_empty() {
        return Ok(None);
    }
    let desk = serve_chunk(writer, store, d, input, out)?;
    Ok(Some(desk))
}

// Reads once, and serves what was read; none where the input is at its end.
fn read_once<R: Read, W: Write>(
    reader: &mut R,
    writer: &mut W,
    store: &mut [u32],
    d: Desk,
    input: &mut [u8],
    out: &mut [u8],
) -> Result<Option<Desk>, Failure>
    requires { (part_bytes ≤ length out.old) × (d.listing ≡ None) }
    ensures came { (n : ℕ) × (n ≤ length input.new)
        × Consumes (R.remaining reader.old) (R.remaining reader.new) (take n input.new)
        × Turned store.old d (take n input.new) store.new (W.contents writer.old) (W.contents writer.new) result }
    ensures ended { result ≡ Ok None → 0 < length input.new → IsAtEnd (R.remaining reader.new) }
{
    let n = read_some(reader, input)?;
    serve_read(writer, store, d, &input[..n], out)
}

// Reads to the end of the input, and serves what is read. (A proved loop has to end, and no run makes so many reads.)
fn serve_all<R: Read, W: Write>(
    reader: &mut R,
    writer: &mut W,
    store: &mut [u32],
    input: &mut [u8],
    out: &mut [u8],
) -> Result<Desk, Failure>
    requires { (store.old ≡ replicate store_words 0) × (part_bytes ≤ length out.old) }
    ensures { ServedAll store.new (length input.old) (R.remaining reader.old) (R.remaining reader.new)
        (W.contents writer.old) (W.contents writer.new) result }
{
    let mut desk = desk::start();
    for _ in 0..u64::MAX {
        match read_once(reader, writer, store, desk, input, out)? {
            Some(next) => desk = next,
            None => return Ok(desk),
        }
    }
    Ok(desk)
}

// Puts the reply to bytes after the last 0A, and hands it on.
fn end_line<W: Write>(writer: &mut W, d: Desk, out: &mut [u8]) -> Result<(), Failure>
    requires { part_bytes ≤ length out.old }
    ensures last { (put : ℕ) × (take put out.new ≡ ending (line_of d))
        × OnOk result (Appends (W.contents writer.old) (W.contents writer.new) (take put out.new)) }
    ensures failed { IfErr result (λ f. f ≡ Ending) }
{
    let put = desk::finish(d, out);
    hand_on(writer, &out[..put], Failure::Ending)
}

// Reads to the end of the input, or until a read or a write fails, and replies to all that was read.
fn run<R: Read, W: Write>(
    reader: &mut R,
    writer: &mut W,
    store: &mut [u32],
    input: &mut [u8],
    out: &mut [u8],
) -> Result<(), Failure>
    requires { (store.old ≡ replicate store_words 0) × (part_bytes ≤ length out.old) }
    ensures { Ended store.new out.new (length input.old) (R.remaining reader.old) (R.remaining reader.new)
        (W.contents writer.old) (W.contents writer.new) result }
{
    let desk = serve_all(reader, writer, store, input, out)?;
    end_line(writer, desk, out)
}

fn main(rt: HostRuntime) -> ExitCode {
    let mut store = [0u32; STORE_WORDS];
    let mut input = [0u8; BUFFER_BYTES];
    let mut out = [0u8; BUFFER_BYTES];
    let mut reader = rt.stdin();
    let mut writer = rt.stdout();
    match run(&mut reader, &mut writer, &mut store, &mut input, &mut out) {
        Ok(()) => ExitCode::SUCCESS,
        Err(failure) => {
            // Where that fails too, there is nobody left to tell.
            let _ = eprintln!(rt; "counter: {failure}");
            ExitCode::FAILURE
        }
    }
}
