// The writers of the answer frame: numbers high byte first, each into a part of the lent area.
// Every contract gives all that was lent at exit: `Stored l i bs L` says that L is l with the bytes bs stored from index i on (`sets l i bs`).
#![tactic(auto)]

ghost use Rattle.std.specs.Prelude.{◌≡◌, IsTrue, ◌++◌, ◌*◌, ◌+◌, ◌^◌, ◌≤◌, ◌<◌, length};
ghost use Rattle.std.proofs.lemmas.List.Edits.{sets};
ghost use Rattle.byte_numbers.specs.Numbers.{is_size, last_bytes};
ghost use Rattle.byte_numbers.specs.Storing.{Stored};
ghost use Rattle.layout.specs.Fitting.{Fits, Fit};
ghost use Rattle.layout.specs.Places.{probit_of, wave_bytes, probit_bytes, damage_bytes, range_byte, answer_bytes};

// The two ends of an interval.
#[derive(Clone, Copy)]
pub struct Interval<T> {
    pub lower: T,
    pub upper: T,
}

// Of pressure in Pa, of impulse in Pa·s, or of damage in tenths of a percent.
pub type Ends = Interval<u64>;

// Of a probit, thousandths.
pub type Probit = Interval<i64>;

// One for each of Pr1 to Pr5, by name: each is of a formula of its own.
#[derive(Clone, Copy)]
pub struct Five<T> {
    pub first: T,
    pub second: T,
    pub third: T,
    pub fourth: T,
    pub fifth: T,
}

impl<T> Five<T> {
    // What a function gives of each.
    pub fn map<U, F: Fn(T) -> U>(self, f: F) -> Five<U>
        requires { F.IsAlwaysCallable f }
        ensures first { F.post f self.first result.first }
        ensures second { F.post f self.second result.second }
        ensures third { F.post f self.third result.third }
        ensures fourth { F.post f self.fourth result.fourth }
        ensures fifth { F.post f self.fifth result.fifth }
    {
        Five {
            first: f(self.first),
            second: f(self.second),
            third: f(self.third),
            fourth: f(self.fourth),
            fifth: f(self.fifth),
        }
    }
}

pub type Probits = Five<Probit>;

// The damages that the probits read.
pub type Damages = Five<Ends>;

// The two ends of an interval, N bytes each.
fn put_ends<const N: usize>(s: &mut [u8], at: usize, e: Ends)
    requires size { IsTrue (is_size N) }
    requires in_bounds { at + 2 * N ≤ length s.old }
    ensures { Stored s.old at (last_bytes N e.lower ++ last_bytes N e.upper) s.new }
{
    byte_numbers::put::<N>(s, at, e.lower);
    byte_numbers::put::<N>(s, at + N, e.upper);
}

// The two ends of a probit in two's complement, four bytes each. That they fit is asked here and above: an interval says nothing of how large its ends are.
fn put_probit(s: &mut [u8], at: usize, p: Probit)
    requires at_in_bounds { at + 8 ≤ length s.old }
    requires fits { Fits p }
    ensures { Stored s.old at (probit_of p) s.new }
{
    let lower = p.lower.cast_unsigned();
    let upper = p.upper.cast_unsigned();
    put_ends::<4>(s, at, Ends { lower, upper });
}

// Pressure and impulse, into their own part of the area.
fn put_wave(s: &mut [u8], pressure: Ends, impulse: Ends)
    requires { 16 ≤ length s.old }
    ensures { Stored s.old 0 (wave_bytes pressure impulse) s.new }
{
    put_ends::<4>(s, 0, pressure);
    put_ends::<4>(s, 8, impulse);
}

// The five probits, into their own part of the area.
fn put_probits(s: &mut [u8], p: Probits)
    requires in_bounds { 40 ≤ length s.old }
    requires fit { Fit p }
    ensures { Stored s.old 0 (probit_bytes p) s.new }
{
    put_probit(s, 0, p.first);
    put_probit(s, 8, p.second);
    put_probit(s, 16, p.third);
    put_probit(s, 24, p.fourth);
    put_probit(s, 32, p.fifth);
}

// The five damages, into their own part of the area.
fn put_damages(s: &mut [u8], d: Damages)
    requires { 20 ≤ length s.old }
    ensures { Stored s.old 0 (damage_bytes d) s.new }
{
    put_ends::<2>(s, 0, d.first);
    put_ends::<2>(s, 4, d.second);
    put_ends::<2>(s, 8, d.third);
    put_ends::<2>(s, 12, d.fourth);
    put_ends::<2>(s, 16, d.fifth);
}

// The range, one byte.
fn put_range(s: &mut [u8], range: u64)
    requires in_bounds { 1 ≤ length s.old }
    requires range_bound { range < 256 }
    ensures { Stored s.old 0 (range_byte range) s.new }
{
    s[0] = range as u8;
}

// A whole answer into the area's first 77 bytes: the range, then each writer in its own part.
pub fn put_answer(
    s: &mut [u8],
    range: u64,
    pressure: Ends,
    impulse: Ends,
    probits: Probits,
    damages: Damages,
)
    requires in_bounds { 77 ≤ length s.old }
    requires range_bound { range < 256 }
    requires fit { Fit probits }
    ensures { s.new ≡ sets s.old 0 (answer_bytes range pressure impulse probits damages) }
{
    put_range(s, range);
    put_wave(&mut s[1..17], pressure, impulse);
    put_probits(&mut s[17..57], probits);
    put_damages(&mut s[57..77], damages);
}
