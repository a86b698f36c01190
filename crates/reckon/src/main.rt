// Reads lines from standard input to its end, and writes each line's record to standard output.
#![tactic(auto)]

ghost use Rattle.std.specs.Prelude.{◌≡◌, ◌≤◌, IfErr, length};
ghost use Rattle.text.specs.Streams.{Tells, TellsLast};
ghost use Rattle.text.specs.Promises.{Ready};
ghost use Rattle.reckon.specs.Passing.{Turns, Relays, Passes, Buffers};
ghost use Rattle.reckon.specs.Reading.{read_most, Runs};

use std::io::{Read, Stdin};
use text::{Fed, Stream};

// The standard output, by its descriptor: `io` tells whether all was written, and no clause says what a `Write` took.
const STDOUT: i32 = 1;

// A proved loop has to end, and nothing says that an input does. So the reads are counted, up to a number that no run reaches.
const BUDGET: u64 = 1 << 47;

// A write that took nothing or failed, and how many of the bytes at hand the stream is past all the same.
#[derive(Drop)]
struct WriteFailed {
    used: usize,
}

// Why a run ended: a read brought nothing, a write failed, or the budget of reads is used up.
#[derive(Drop)]
enum End {
    Input,
    Output,
    Budget,
}

// A run that has ended: why, and the stream after so many reads that brought bytes.
#[derive(Drop)]
struct Ran {
    end: End,
    reads: u64,
    stream: Stream,
}

// Writes the text of the lines that end in these bytes after s: the two say what the text has to be.
fn tell(s: Stream, bytes: &[u8], text: &[u8]) -> Result<(), WriteFailed>
    requires { Tells s bytes.now text.now }
    ensures { IfErr result (λ e. e.used ≡ length bytes.now) }
{
    let used = bytes.len();
    io::write_all(STDOUT, text)
        .then_some(())
        .ok_or(WriteFailed { used })
}

// Writes the text of the last line of s, which no LF ends. Apart from `tell`, since it asks another fact of its text.
fn tell_last(s: Stream, text: &[u8]) -> Result<(), WriteFailed>
    requires { TellsLast s text.now }
    ensures { IfErr result (λ e. e.used ≡ 0) }
{
    io::write_all(STDOUT, text)
        .then_some(())
        .ok_or(WriteFailed { used: 0 })
}

// Feeds as much of a part as the area has room for the records of, and writes them. How many bytes were used.
fn relay(stream: &mut Stream, part: &[u8], out: &mut [u8]) -> Result<usize, WriteFailed>
    requires { Ready stream.old (length part.now) out.old }
    ensures { Relays stream.old part.now result stream.new }
{
    let before = *stream;
    let Fed { used, written } = stream.feed(part, out);
    tell(before, &part[..used], &out[..written])?;
    Ok(used)
}

// Feeds a whole part and writes its records; stops at a write that fails.
fn pass(stream: &mut Stream, part: &[u8], out: &mut [u8]) -> Result<(), WriteFailed>
    requires { Ready stream.old (length part.now) out.old }
    ensures { Passes stream.old part.now result stream.new }
{
    let mut used = 0;
    // no `for`: each call tells how much it used
    while used < part.len() {
        match relay(stream, &part[used..], out) {
            Ok(n) => used += n,
            Err(failed) => {
                used += failed.used;
                return Err(WriteFailed { used });
            }
        }
    }
    Ok(())
}

// Writes the record of a last line that no LF ends.
fn last(s: Stream, out: &mut [u8]) -> Result<(), WriteFailed>
    requires { Ready s 1 out.old }
    ensures { IfErr result (λ e. e.used ≡ 0) }
{
    let n = s.finish(out);
    tell_last(s, &out[..n])
}

// One read: how many bytes it brought. One that fails counts as the input's end.
fn read_some(source: &mut Stdin, input: &mut [u8]) -> usize
    ensures { result ≤ length input.new }
{
    source.read(input).unwrap_or(0)
}

// One read, and all that comes of it. How many bytes were used: none where the input has ended.
fn turn(
    source: &mut Stdin,
    stream: &mut Stream,
    input: &mut [u8],
    out: &mut [u8],
) -> Result<usize, WriteFailed>
    requires buffers { Buffers input.old out.old }
    requires ready { Ready stream.old read_most out.old }
    ensures { Turns stream.old input.new result stream.new }
{
    let n = read_some(source, input);
    if n == 0 {
        last(*stream, out)?;
    } else {
        pass(stream, &input[..n], out)?;
    }
    Ok(n)
}

fn run(source: &mut Stdin, input: &mut [u8], out: &mut [u8]) -> Ran
    requires { Buffers input.old out.old }
    ensures { Runs result }
{
    let mut stream = Stream::new();
    for reads in 0..BUDGET {
        let before = stream;
        let end = match turn(source, &mut stream, input, out) {
            Ok(0) => End::Input,
            Ok(_) => continue,
            Err(WriteFailed { .. }) => End::Output,
        };
        return Ran {
            end,
            reads,
            stream: before,
        };
    }
    Ran {
        end: End::Budget,
        reads: BUDGET,
        stream,
    }
}

fn main(rt: HostRuntime) {
    let mut source = rt.stdin();
    let mut input = io::large_buffer();
    let mut out = io::large_buffer();
    run(&mut source, &mut input, &mut out);
}
