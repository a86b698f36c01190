// The record of a line, written at the start of an area.
ghost use Rattle.std.specs.Prelude.{◌≤◌, length};
ghost use Rattle.text.specs.Writers.{Printed, Space, Puts};
ghost use Rattle.text.specs.Records.{longest, said};

use crate::digits::{put_decimal, put_hexadecimal};
use frame::Refusal;
use guidance::Case;
use refusals::Reason;

// Room for a record: none is longer.
pub const LONGEST: usize = 192;

// R and the refusal's number, or A and the answer frame's digits.
fn put_said(v: Result<Case, Refusal>, answer: &[u8], out: &mut [u8]) -> usize
    requires { Space answer.now out.old }
    ensures { Puts (said v answer.now) 155 out.old out.new result }
{
    match v {
        Err(r) => {
            out[0] = b'R';
            1 + put_decimal(r.number(), &mut out[1..])
        }
        Ok(_) => {
            out[0] = b'A';
            1 + put_hexadecimal(answer, &mut out[1..])
        }
    }
}

// The record of line k.
pub fn put_record(k: u64, line: &[u8], out: &mut [u8]) -> usize
    requires { longest ≤ length out.old }
    ensures { Printed k line.now out.old out.new result }
{
    let mut bytes = [0u8; 77];
    let v = answer::from_line(line, &mut bytes);
    let n = put_decimal(k, out);
    out[n] = b' ';
    let at = n + 1;
    let m = put_said(v, &bytes, &mut out[at..]);
    let end = at + m;
    out[end] = b'\n';
    end + 1
}
