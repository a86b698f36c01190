// What the test programs of requests share: the input read whole, the frame that a line spells, and what is shown.
#![tactic(auto)]

ghost use Rattle.std.specs.Prelude.{◌*◌, ◌≡◌, ◌≤◌, Some, IfSome, codes, length};
ghost use Rattle.std.specs.Option.{option_copied, option_map_or};
ghost use Rattle.std.specs.Io.KnownBytes.{Consumes};
ghost use Rattle.requests.specs.Frames.{spelled_in, frame_size, frame_of, bytes_of};

use std::io::Read;
use std::{fmt, io};

// What is read of the input: all of it, as far as there is room and no read fails.
pub fn read_all<'a, R: Read>(input: &mut R, room: &'a mut [u8]) -> &'a [u8]
    ensures { Consumes (R.remaining input.old) (R.remaining input.new) result.now }
{
    let mut done = 0;
    // no `for`: each read tells how far it came
    while done < room.len() {
        match input.read(&mut room[done..]) {
            Ok(0) | Err(_) => break,
            Ok(n) => done += n,
        }
    }
    &room[..done]
}

fn spelled<'a>(text: &[u8], room: &'a mut [u8]) -> Option<&'a [u8]>
    requires { length room.old ≤ 24 }
    ensures bytes { option_copied result ≡ spelled_in (length room.old) text.now }
    ensures size { IfSome result (λ b. length b.now ≡ length room.old) }
{
    if hexadecimals::spell(text, room) {
        Some(room)
    } else {
        None
    }
}

// The frame that a line spells, if it spells one: 24 bytes of 48 characters, 22 of any other number.
pub fn frame_of<'a>(line: &[u8], room: &'a mut [u8; 24]) -> Option<&'a [u8]>
    ensures frame { option_copied result ≡ frame_of line.now }
    ensures size { IfSome result (λ f. length f.now ≡ frame_size line.now) }
{
    let size = if line.len() == 48 { 24 } else { 22 };
    spelled(line, &mut room[..size])
}

// The bytes that a text of two digits each spells, if they are at most 24.
pub fn bytes_of<'a>(text: &[u8], room: &'a mut [u8; 24]) -> Option<&'a [u8]>
    ensures { option_copied result ≡ bytes_of text.now }
{
    let size = text.len() / 2;
    if size <= 24 {
        spelled(text, &mut room[..size])
    } else {
        None
    }
}

fn print_in(rt: &impl Print, room: &mut [u8], bytes: &[u8]) -> io::Result<()>
    requires { 2 * length bytes.now ≤ length room.old }
{
    hexadecimals::write(bytes, room);
    rt.write_all(&room[..2 * bytes.len()])
}

// In one write what fills an area of 1,600 bytes, the largest that a program shows.
fn print_many(rt: &impl Print, bytes: &[u8]) -> io::Result<()> {
    let mut room = [0; 3200];
    for part in bytes.chunks(1600) {
        print_in(rt, &mut room, part)?;
    }
    Ok(())
}

// Two digits for each byte. The few of a frame have a small room, which is sooner made.
pub fn print_digits(rt: &impl Print, bytes: &[u8]) -> io::Result<()> {
    if bytes.len() <= 64 {
        print_in(rt, &mut [0; 128], bytes)
    } else {
        print_many(rt, bytes)
    }
}

// A space and two digits for each byte, if there are any. As of all that prints, no clause says what a terminal took.
pub fn print_bytes(rt: &impl Print, bytes: &[u8]) -> io::Result<()> {
    if bytes.is_empty() {
        return Ok(());
    }
    print!(rt; " ")?;
    print_digits(rt, bytes)
}

// A space and a text, if it has any bytes.
pub fn print_text(rt: &impl Print, text: &[u8]) -> io::Result<()> {
    if text.is_empty() {
        return Ok(());
    }
    print!(rt; " ")?;
    rt.write_all(text)
}

// A value, or - where there is none.
#[derive(Drop)]
pub struct OrDash<T>(pub Option<T>);

impl<T: fmt::Display> fmt::Display for OrDash<T> {
    ghost output = { λ x. option_map_or T.output x.0 (Some (codes "-")) };

    fn fmt<W: fmt::Write>(&self, f: &mut fmt::Formatter<W>) -> fmt::Result {
        match &self.0 {
            Some(x) => write!(f, "{x}"),
            None => write!(f, "-"),
        }
    }
}
