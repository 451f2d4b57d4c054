// The counts.
// What is seen of a record: the inverse's number (of a factor by hand the solve's), and how it compares.
#[derive(Clone, Copy, Debug, PartialEq, Eq)]
pub struct Seen {
    pub by_hand: bool,
    pub number: u32,
    pub compared: u32,
}

// How two numbers, or all of a record's, compare: bit 0 where a zero has the other sign, bit 1 where they differ.
pub const SIGN: u32 = 1;

pub const DIFFER: u32 = 2;

#[derive(Clone, Copy, Debug, PartialEq, Eq)]
pub struct Tally {
    pub matrices: u32,
    pub accepted: u32,
    pub refused_21: u32,
    pub refused_22: u32,
    pub refused_23: u32,
    pub refused_12: u32,
    pub by_hand: u32,
    pub signs: u32,
    pub differ: u32,
}

// One more where the test holds.
fn more(n: u32, holds: bool) -> u32 {
    if holds {
        std::num::wrapping_add_u32(n, 1)
    } else {
        n
    }
}

impl Tally {
    pub fn none() -> Tally {
        Tally {
            matrices: 0,
            accepted: 0,
            refused_21: 0,
            refused_22: 0,
            refused_23: 0,
            refused_12: 0,
            by_hand: 0,
            signs: 0,
            differ: 0,
        }
    }

    pub fn with(self, seen: Seen) -> Tally {
        let matrix = !seen.by_hand;
        Tally {
            matrices: more(self.matrices, matrix),
            accepted: more(self.accepted, matrix & (seen.number == 0)),
            refused_21: more(self.refused_21, matrix & (seen.number == 21)),
            refused_22: more(self.refused_22, matrix & (seen.number == 22)),
            refused_23: more(self.refused_23, matrix & (seen.number == 23)),
            refused_12: more(self.refused_12, matrix & (seen.number == 12)),
            by_hand: more(self.by_hand, seen.by_hand),
            signs: more(self.signs, seen.compared == SIGN),
            differ: more(self.differ, DIFFER <= seen.compared),
        }
    }

    pub fn cut_short(self) -> Tally {
        self.with(Seen {
            by_hand: true,
            number: 0,
            compared: DIFFER,
        })
    }
}
