// Frames stored by column: like beside like, for an archive that packs them; and turned back.
#![tactic(auto)]

ghost use Rattle.std.specs.Prelude.{◌≡◌, ◌*◌, ◌<◌, length};
ghost use Rattle.columns.specs.Transposed.{column, transposed};
ghost use Rattle.columns.specs.Refusals.{number, word, told, shortage_number, shortage_word, shortage_told};
ghost use Rattle.columns.specs.Stored.{Frames, stored, Stores, Restores};

use refusals::Reason;

// The bytes of a frame, and the most frames.
pub const FRAME: usize = 24;

pub const FRAMES: usize = 64;

// Why stored bytes are not turned back, in the order of the tests: 20, then 8.
#[derive(Clone, Copy, Debug, PartialEq, Eq)]
pub enum Refusal {
    // they are empty, or their number of frames or their length is wrong
    Columns,
    Space,
}

// The only reason for which frames are not stored, 8: the area is shorter than their columns.
#[derive(Clone, Copy, Debug, PartialEq, Eq)]
pub struct Shortage;

impl Reason for Refusal {
    ghost number_told = { number };

    ghost word_told = { word };

    ghost tells = { told };

    fn number(self) -> u64 {
        match self {
            Refusal::Columns => 20,
            Refusal::Space => 8,
        }
    }

    fn word(self) -> [u8; 12] {
        match self {
            Refusal::Columns => *b"columns\0\0\0\0\0",
            Refusal::Space => *b"space\0\0\0\0\0\0\0",
        }
    }
}

impl Reason for Shortage {
    ghost number_told = { shortage_number };

    ghost word_told = { shortage_word };

    ghost tells = { shortage_told };

    fn number(self) -> u64 {
        Refusal::Space.number()
    }

    fn word(self) -> [u8; 12] {
        Refusal::Space.word()
    }
}

// One column: a byte of each row.
fn put_column(from: &[u8], start: usize, width: usize, to: &mut [u8])
    requires { (start < width) × (length from.now ≡ length to.old * width) }
    ensures { to.new ≡ column (length to.old) start width from.now }
{
    // by place, as the promise has it
    for (row, byte) in to.iter_mut().enumerate() {
        *byte = from[start + row * width];
    }
}

// Rows that follow one another, column by column.
fn transpose(rows: usize, width: usize, from: &[u8], to: &mut [u8])
    requires { (length from.now ≡ rows * width) × (length to.old ≡ width * rows) }
    ensures { to.new ≡ transposed rows width from.now }
{
    // by number: rows may be none, and of what is written through `chunks_exact_mut` no more is known than its length
    for j in 0..width {
        put_column(from, j, width, &mut to[j * rows..(j + 1) * rows]);
    }
}

// The number of frames and their columns, into the area's first bytes; how many bytes that is.
pub fn store(n: usize, frames: &[u8], area: &mut [u8]) -> Result<usize, Shortage>
    requires { Frames n frames.now }
    ensures { Stores (stored n frames.now) area.old result area.new }
{
    let size = 1 + FRAME * n;
    if area.len() < size {
        return Err(Shortage);
    }
    area[0] = n as u8;
    transpose(n, FRAME, frames, &mut area[1..size]);
    Ok(size)
}

// The frames of stored columns, 24 bytes each, into the area's first bytes; how many bytes that is.
pub fn restore(from: &[u8], area: &mut [u8]) -> Result<usize, Refusal>
    ensures { Restores from.now area.old result area.new }
{
    let Some((count, columns)) = from.split_first() else {
        return Err(Refusal::Columns);
    };
    let n = usize::from(*count);
    let size = FRAME * n;
    if FRAMES < n || columns.len() != size {
        return Err(Refusal::Columns);
    }
    if area.len() < size {
        return Err(Refusal::Space);
    }
    transpose(FRAME, n, columns, &mut area[..size]);
    Ok(size)
}
