// The counts of what was seen, and where the list goes on.
ghost use Rattle.std.specs.Prelude.{◌≡◌};
ghost use Rattle.solve_recorded.specs.Tally.{more_of, with_of, missing_of, from_of, closed_of, none_yet};

use solve_replay::Seen;

#[derive(Clone, Copy)]
pub struct Count {
    pub jobs: u32,
    pub met: u32,
    pub open: u32,
    pub refused: u32,
    pub differ: u32,
    pub end: usize,
}

// One more where the test holds.
fn more(n: u32, holds: bool) -> u32
    ensures { result ≡ more_of n holds }
{
    if holds {
        return std::num::wrapping_add_u32(n, 1);
    }
    n
}

impl Count {
    pub fn none() -> Count
        ensures { result ≡ none_yet }
    {
        Count {
            jobs: 0,
            met: 0,
            open: 0,
            refused: 0,
            differ: 0,
            end: 0,
        }
    }

    pub fn with(self, seen: Seen) -> Count
        ensures { result ≡ with_of self seen }
    {
        Count {
            jobs: more(self.jobs, true),
            met: more(self.met, seen.outcome == 2),
            open: more(self.open, seen.outcome == 1),
            refused: more(self.refused, seen.outcome == 0),
            differ: more(self.differ, !seen.same),
            end: seen.end,
        }
    }

    // What a list should hold and does not.
    pub fn missing(self) -> Count
        ensures { result ≡ missing_of self }
    {
        let mut next = self;
        next.differ = more(self.differ, true);
        next
    }

    // The same counts, from there on.
    pub fn from(self, at: usize) -> Count
        ensures { result ≡ from_of self at }
    {
        let mut next = self;
        next.end = at;
        next
    }

    // The lists end where their bytes do.
    pub fn closed(self, size: usize) -> Count
        ensures { result ≡ closed_of self size }
    {
        let mut next = self;
        next.differ = more(self.differ, self.end != size);
        next
    }
}
