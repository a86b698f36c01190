// What an entry refuses by: reasons with a number and a word, and the faults of a case, which are among the reasons of every entry that has one.
#![tactic(auto)]

ghost use Rattle.std.specs.Prelude.{◌≡◌, ℕ, List};
ghost use Rattle.refusals.specs.Faults.{number, word, fault_told};
ghost use Rattle.refusals.specs.Told.{filled, code, Tells};

// A reason for refusing, which a caller is told by a number and by a word.
pub trait Reason {
    ghost number_told: { Self → ℕ };

    ghost word_told: { Self → List ℕ };

    fn number(self) -> u64
        ensures { result ≡ number_told self };

    // The word, filled with zeros to 12 bytes.
    fn word(self) -> [u8; 12]
        ensures { result ≡ filled (word_told self) };

    // No reason has the number 0, which says that there is none, and 12 bytes hold every word.
    ghost tells: { Tells number_told word_told };
}

// 0 for what is accepted, else the number of the refusal.
pub fn code_of<T: Drop, R: Reason>(answer: Result<T, R>) -> u64
    ensures { result ≡ code R.number_told answer }
{
    match answer {
        Ok(_) => 0,
        Err(r) => r.number(),
    }
}

// What is wrong with a case itself, in the order of the tests.
#[derive(Clone, Copy, Debug, PartialEq, Eq)]
pub enum Fault {
    Length,
    Digit,
    Substance,
    State,
    Placement,
    Surroundings,
    Quantity,
    Heat,
}

impl Reason for Fault {
    ghost number_told = { number };

    ghost word_told = { word };

    ghost tells = { fault_told };

    fn number(self) -> u64 {
        match self {
            Fault::Length => 1,
            Fault::Digit => 2,
            Fault::Substance => 3,
            Fault::State => 12,
            Fault::Placement => 13,
            Fault::Surroundings => 14,
            Fault::Quantity => 5,
            Fault::Heat => 6,
        }
    }

    fn word(self) -> [u8; 12] {
        match self {
            Fault::Length => *b"length\0\0\0\0\0\0",
            Fault::Digit => *b"digit\0\0\0\0\0\0\0",
            Fault::Substance => *b"substance\0\0\0",
            Fault::State => *b"state\0\0\0\0\0\0\0",
            Fault::Placement => *b"placement\0\0\0",
            Fault::Surroundings => *b"surroundings",
            Fault::Quantity => *b"quantity\0\0\0\0",
            Fault::Heat => *b"heat\0\0\0\0\0\0\0\0",
        }
    }
}
