// The study sheet: the cases of a yard's receptors, up to 64, each at its place.
// A refused operation hands the sheet back equal. Of every value of the type each operation ends, and does as on the list that it stands for.
// The totals are kept up: right ones stay right, and those of the empty sheet are.
#![tactic(auto)]

ghost use Rattle.std.specs.Prelude.{◌≡◌, [], ◌≤◌, ◌<◌, length};
ghost use Rattle.std.proofs.Math.Option.{none};
ghost use Rattle.guidance.specs.CloudWords.{Heated};
ghost use Rattle.places.specs.Holes.{withdrawn};
ghost use Rattle.totals.specs.Keeping.{after_withdrawing};
ghost use Rattle.limits.specs.Checks.{HeatedIfSound};
ghost use Rattle.sheet.specs.declared.Refusal.TheVariants.{Faulty};
ghost use Rattle.sheet.specs.Refusals.{number, word, told, vacancy_number, vacancy_word, vacancy_told};
ghost use Rattle.sheet.specs.Operations.{add_frame, add_line, withdraw, close, placing, finding, counting, adding, list_of, Right, found, Gives, Does, DoesWith};
ghost use Rattle.sheet.specs.Steps.{Enters};

use guidance::Case;
use places::{Held, Places};
use refusals::{Fault, Reason};
use totals::Totals;

#[derive(Clone, Copy)]
pub struct Sheet {
    pub places: Places,
    pub totals: Totals,
}

// Why a case is not added, in the order of the tests: a fault of its own, then 7 and 17.
#[derive(Clone, Copy, Debug, PartialEq, Eq)]
pub enum Refusal {
    Faulty(Fault),
    Beyond,
    // the last place that holds a case is the 64th
    Full,
}

// The only reason for which a place gives no case, 18: it holds none.
#[derive(Clone, Copy, Debug, PartialEq, Eq)]
pub struct Vacancy;

impl From<Fault> for Refusal {
    ghost from_gives = { λ f r. r ≡ Faulty f };

    fn from(f: Fault) -> Refusal {
        Refusal::Faulty(f)
    }
}

impl Reason for Refusal {
    ghost number_told = { number };

    ghost word_told = { word };

    ghost tells = { told };

    fn number(self) -> u64 {
        match self {
            Refusal::Faulty(f) => f.number(),
            Refusal::Beyond => 7,
            Refusal::Full => 17,
        }
    }

    fn word(self) -> [u8; 12] {
        match self {
            Refusal::Faulty(f) => f.word(),
            Refusal::Beyond => *b"beyond\0\0\0\0\0\0",
            Refusal::Full => *b"full\0\0\0\0\0\0\0\0",
        }
    }
}

impl Reason for Vacancy {
    ghost number_told = { vacancy_number };

    ghost word_told = { vacancy_word };

    ghost tells = { vacancy_told };

    fn number(self) -> u64 {
        18
    }

    fn word(self) -> [u8; 12] {
        *b"vacant\0\0\0\0\0\0"
    }
}

// What a method hands back: the sheet, and its answer.
#[derive(Clone, Copy)]
pub struct Handed<A> {
    pub sheet: Sheet,
    pub answer: A,
}

impl Sheet {
    pub fn empty() -> Self
        ensures { (list_of result ≡ []) × (Right result) }
    {
        Sheet {
            places: Places::empty(),
            totals: Totals::none(),
        }
    }

    // A case right after the last; its place.
    fn put(&mut self, last: usize, held: Held) -> usize
        requires { (last ≡ length (list_of self.old)) × (last < 64) }
        ensures { Gives self.old (adding none (list_of self.old) held) self.new (placing (Ok result)) }
    {
        let place = last + 1;
        self.places.put(place, Some(held));
        self.totals = self.totals.after_adding(&self.places, place, held);
        place
    }

    // Tests 7 and 17, then the case with the upper end of its overpressure.
    fn place(&mut self, c: Case) -> Result<usize, Refusal>
        requires { Heated c }
        ensures { Enters self.old (Ok c) self.new result }
    {
        if frame::is_beyond(c) {
            return Err(Refusal::Beyond);
        }
        let last = self.places.last();
        if last == 64 {
            return Err(Refusal::Full);
        }
        let ends = blast::pressure(c, guidance::air_of(c));
        let upper = ends.upper;
        Ok(self.put(last, Held { case: c, upper }))
    }

    // What tests 1 to 6 found stands, else 7 and 17 decide.
    fn enter(&mut self, tested: Result<Case, Fault>) -> Result<usize, Refusal>
        requires { HeatedIfSound tested }
        ensures { Enters self.old tested self.new result }
    {
        self.place(tested?)
    }

    // The case of a frame's bytes, right after the last one; its place, or the first test that applies. In place, as `leave` and
    // `close_up` are, for a caller that holds the sheet: by value it is copied.
    pub fn enter_frame(&mut self, frame: &[u8]) -> Result<usize, Refusal>
        ensures { DoesWith self.old (add_frame frame.now) self.new (placing result) }
    {
        self.enter(frame::check_frame(frame))
    }

    // The same, and the sheet is handed back.
    pub fn add_frame(mut self, frame: &[u8]) -> Handed<Result<usize, Refusal>>
        ensures { DoesWith self (add_frame frame.now) result.sheet (placing result.answer) }
    {
        let answer = self.enter_frame(frame);
        Handed {
            sheet: self,
            answer,
        }
    }

    // The same for a case given as a line.
    pub fn add_line(mut self, line: &[u8]) -> Handed<Result<usize, Refusal>>
        ensures { DoesWith self (add_line line.now) result.sheet (placing result.answer) }
    {
        let answer = self.enter(frame::check_line(line));
        Handed {
            sheet: self,
            answer,
        }
    }

    // A gap in the place of a case.
    fn take(&mut self, place: usize)
        requires { (1 ≤ place) × (place ≤ 64) }
        ensures { (list_of self.new ≡ withdrawn (list_of self.old) place) × (self.new.totals ≡ after_withdrawing self.old.totals self.new.places place) }
    {
        self.places.put(place, None);
        self.totals = self.totals.after_withdrawing(&self.places, place);
    }

    // The case at a place goes and leaves a gap; nothing moves.
    pub fn leave(&mut self, place: usize) -> Result<Case, Vacancy>
        ensures { Does self.old (withdraw place) self.new (finding result) }
    {
        let held = self.places.content_at(place).ok_or(Vacancy)?;
        self.take(place);
        Ok(held.case)
    }

    // The same, and the sheet is handed back.
    pub fn withdraw(mut self, place: usize) -> Handed<Result<Case, Vacancy>>
        ensures { Does self (withdraw place) result.sheet (finding result.answer) }
    {
        let answer = self.leave(place);
        Handed {
            sheet: self,
            answer,
        }
    }

    // The gaps go, the cases in order from place 1 on; how many there are.
    pub fn close_up(&mut self) -> usize
        ensures { Does self.old close self.new (counting result) }
    {
        self.places.close();
        self.totals = totals::afresh(&self.places);
        self.places.last()
    }

    // The same, and the sheet is handed back.
    pub fn close(mut self) -> Handed<usize>
        ensures { Does self close result.sheet (counting result.answer) }
    {
        let answer = self.close_up();
        Handed {
            sheet: self,
            answer,
        }
    }

    // The case at a place.
    pub fn case_at(&self, place: usize) -> Result<Case, Vacancy>
        ensures { result ≡ found (list_of self.now) place }
    {
        let held = self.places.content_at(place).ok_or(Vacancy)?;
        Ok(held.case)
    }
}
