// Why a call was turned back: the refusals of documents 01 and 02 by name. docs/refusals.tsv has the words of each.

#![tactic(auto)]

ghost use Rattle.std.specs.Prelude.{◌≡◌};
ghost use Rattle.refusals.specs.Number.{number_of};

#[derive(Clone, Copy, Debug, PartialEq, Eq)]
pub enum Refusal {
    File = 1,
    Sections = 2,
    Length = 3,
    Word = 4,
    Opening = 5,
    Mass = 6,
    Row = 7,
    Diagonal = 8,
    Immovable = 9,
    Pairs = 10,
    Block = 11,
    Value = 12,
    Pivot = 13,
    Residual = 14,
    Direction = 15,
    Step = 16,
    Result = 17,
    Range = 18,
    Root = 19,
    Speed = 20,
    Number = 21,
    Symmetry = 22,
    Definite = 23,
    Layout = 24,
    Shift = 25,
    Tolerance = 26,
    Rule = 27,
    RulesOfRow = 28,
    Committed = 29,
    Moved = 30,
}

impl Refusal {
    // The documents' number.
    pub fn number(self) -> u32
        ensures { result ≡ number_of self }
    {
        self as u32
    }
}
