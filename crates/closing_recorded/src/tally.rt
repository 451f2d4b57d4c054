// What was seen of each case, and the counts.
ghost use Rattle.std.specs.Prelude.{◌≡◌};
ghost use Rattle.closing_recorded.specs.Tally.{more_of, malformed, none, with_of};

// The answer's number, and whether it and the measured gap are the recorded ones.
#[derive(Clone, Copy)]
pub struct Seen {
    pub answer: u32,
    pub same: bool,
}

impl Seen {
    // The case is none.
    pub fn malformed() -> Seen
        ensures { result ≡ malformed }
    {
        Seen {
            answer: 1000,
            same: false,
        }
    }
}

#[derive(Clone, Copy)]
pub struct Tally {
    pub closed: u32,
    pub open: u32,
    pub refused_3: u32,
    pub refused_4: u32,
    pub refused_27: u32,
    pub refused_6: u32,
    pub refused_7: u32,
    pub refused_18: u32,
    pub other: u32,
    pub differ: u32,
}

// One more where the test holds.
fn more(n: u32, holds: bool) -> u32
    ensures { result ≡ more_of n holds }
{
    if holds {
        std::num::wrapping_add_u32(n, 1)
    } else {
        n
    }
}

impl Tally {
    pub fn none() -> Tally
        ensures { result ≡ none }
    {
        Tally {
            closed: 0,
            open: 0,
            refused_3: 0,
            refused_4: 0,
            refused_27: 0,
            refused_6: 0,
            refused_7: 0,
            refused_18: 0,
            other: 0,
            differ: 0,
        }
    }

    pub fn with(self, seen: Seen) -> Tally
        ensures { result ≡ with_of self seen }
    {
        let answer = seen.answer;
        let verdict = answer <= 1;
        let refused = (answer == 3)
            | (answer == 4)
            | (answer == 27)
            | (answer == 6)
            | (answer == 7)
            | (answer == 18);
        Tally {
            closed: more(self.closed, answer == 1),
            open: more(self.open, answer == 0),
            refused_3: more(self.refused_3, answer == 3),
            refused_4: more(self.refused_4, answer == 4),
            refused_27: more(self.refused_27, answer == 27),
            refused_6: more(self.refused_6, answer == 6),
            refused_7: more(self.refused_7, answer == 7),
            refused_18: more(self.refused_18, answer == 18),
            other: more(self.other, !(verdict | refused)),
            differ: more(self.differ, !seen.same),
        }
    }
}
