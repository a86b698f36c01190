// Faults that are planted in an answer, for the judging to find.
use scan::Words;
use vectors::judging::{Answer, FILL};

// The verdict that the data plant where a line is to spell no frame.
const NO_FRAME: u64 = 9;

// The byte that is put at a place of the area; at a place past its end, the verdict's number.
#[derive(Clone, Copy)]
pub struct Fault {
    at: u64,
    byte: u8,
}

impl Fault {
    pub fn put(self, answer: &mut Answer) {
        if self.at < 80 {
            answer.area[self.at as usize] = self.byte;
        } else {
            answer.verdict = u64::from(self.byte);
        }
    }

    // The same where there may be no frame and so no answer: a verdict that is planted makes one.
    pub fn put_in_frame(self, answer: Option<Answer>) -> Option<Answer> {
        let mut answer = answer.unwrap_or(Answer {
            verdict: NO_FRAME,
            area: [FILL; 80],
        });
        self.put(&mut answer);
        Some(answer).filter(|a| a.verdict != NO_FRAME)
    }
}

// What is planted in the line's answer, and what in the frame's.
#[derive(Clone, Copy, Default)]
pub struct Plant {
    pub in_line: Option<Fault>,
    pub in_frame: Option<Fault>,
}

impl Plant {
    // Two words: B for both answers, N for none, else the frame's, with the place; the byte.
    pub fn read(words: &mut Words) -> Plant {
        let place = words.next_word();
        let byte = (words.next_word().value % 256) as u8;
        let fault = Fault {
            at: place.value,
            byte,
        };
        Plant {
            in_line: (place.lead == b'B').then_some(fault),
            in_frame: (place.lead != b'N').then_some(fault),
        }
    }
}
