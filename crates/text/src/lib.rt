// The lines of an input that comes in parts, and the records of the output.
#![tactic(auto)]

ghost use Rattle.std.specs.Prelude.{◌≡◌, ◌≤◌, ◌==◌, length, position};
ghost use Rattle.text.specs.Lines.{lf};

mod digits;
mod records;

use records::{LONGEST, put_record};

// An input so far: how many lines have ended, and of the characters since then the first 49 and their number up to 49. A line of
// more than 48 characters is refused for its length, whatever they are.
// No ArrayVec, which is not Copy: `tell` of reckon says its text by the stream as it was before the bytes.
#[derive(Clone, Copy)]
pub struct Stream {
    pub lines: u64,
    pub held: usize,
    pub line: [u8; 49],
    pub ghost size: { length line ≡ 49 },
    pub ghost within: { held ≤ 49 },
}

// How many bytes of a part of the input are used, and how many of the area are written.
#[derive(Drop)]
pub struct Fed {
    pub used: usize,
    pub written: usize,
}

// Where the first line ends, if one does.
fn line_end(part: &[u8]) -> Option<usize>
    ensures { result ≡ position (λ b. b == lf) part.now }
{
    part.iter().position(|b| *b == b'\n')
}

// What `Ready` asks is of a lent area and of the part that comes, which no stream holds.
impl Stream {
    ghost use Rattle.std.specs.Prelude.{◌+◌, []};
    ghost use Rattle.text.specs.Streams.{Stands};
    ghost use Rattle.text.specs.Promises.{Ready, Feeds, Finishes};
    ghost use Rattle.text.specs.Feeding.{Held, Ends, Steps};

    // The stream before any input.
    pub fn new() -> Stream
        ensures { Stands result 0 [] }
    {
        Stream {
            lines: 0,
            held: 0,
            line: [0; 49],
        }
    }

    // More characters of the line, of which those past the 49th are let go.
    fn hold(&mut self, chars: &[u8])
        ensures { Held self.old chars.now self.new }
    {
        let n = (self.line.len() - self.held).min(chars.len());
        let end = self.held + n;
        self.line[self.held..end].copy_from_slice(&chars[..n]);
        self.held = end;
    }

    // The record of the line that is held.
    fn put_held(&self, out: &mut [u8]) -> usize
        requires { Ready self.now 1 out.old }
        ensures { Ends self.now [] out.old out.new result }
    {
        put_record(self.lines + 1, &self.line[..self.held], out)
    }

    // The record of the line that these characters end; the next one begins.
    fn end_line(&mut self, chars: &[u8], out: &mut [u8]) -> usize
        requires { Ready self.old 1 out.old }
        ensures printed { Ends self.old chars.now out.old out.new result }
        ensures counted { self.new.lines ≡ self.old.lines + 1 }
        ensures none_held { self.new.held ≡ 0 }
    {
        let written = if 0 < self.held {
            self.hold(chars);
            self.put_held(out)
        } else {
            put_record(self.lines + 1, chars, out)
        };
        self.lines += 1;
        self.held = 0;
        written
    }

    // Up to the end of the first line of the part, or all of it.
    fn step(&mut self, part: &[u8], out: &mut [u8]) -> Fed
        requires { Ready self.old (length part.now) out.old }
        ensures { Steps self.old part.now out.old self.new result out.new }
    {
        match line_end(part) {
            Some(end) => {
                let written = self.end_line(&part[..end], out);
                Fed {
                    used: end + 1,
                    written,
                }
            }
            None => {
                self.hold(part);
                Fed {
                    used: part.len(),
                    written: 0,
                }
            }
        }
    }

    // As many bytes of the part as the area has room for the records of.
    pub fn feed(&mut self, part: &[u8], out: &mut [u8]) -> Fed
        requires { Ready self.old (length part.now) out.old }
        ensures { Feeds self.old part.now out.old self.new result out.new }
    {
        let mut fed = Fed {
            used: 0,
            written: 0,
        };
        // no `for`: a step tells how far it came
        while fed.used < part.len() && LONGEST <= out.len() - fed.written {
            let more = self.step(&part[fed.used..], &mut out[fed.written..]);
            fed.used += more.used;
            fed.written += more.written;
        }
        fed
    }

    // The end of the input: characters that no LF ends are a line.
    pub fn finish(self, out: &mut [u8]) -> usize
        requires { Ready self 1 out.old }
        ensures { Finishes self out.old result out.new }
    {
        if self.held == 0 {
            return 0;
        }
        self.put_held(out)
    }
}
