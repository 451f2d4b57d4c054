// What the solve gave beside what is recorded, bit for bit.
ghost use Rattle.std.specs.Prelude.{◌≡◌, ◌+◌, ◌*◌, ◌<◌, ◌≤◌, length};
ghost use Rattle.solve_replay.specs.Compare.{same_number, same_double, same_doubles, kept_number, kept_numbers, same_answer, same_answers, unwritten_of};

fn same_double(x: f64, bits: u64) -> bool
    ensures { result ≡ same_double x bits }
{
    binary64::to_bits(x) == bits
}

// The number that was read from these bits. (A NaN's payload is not kept.)
fn same_number(x: f64, bits: u64) -> bool
    ensures { result ≡ same_number x bits }
{
    binary64::to_bits(x) == binary64::to_bits(binary64::from_bits(bits))
}

pub fn same_doubles(numbers: &[f64], words: &[u64]) -> bool
    requires { length numbers.now ≤ length words.now }
    ensures { result ≡ same_doubles numbers.now words.now }
{
    let mut i = 0;
    while i < numbers.len() {
        if !same_double(numbers[i], words[i]) {
            return false;
        }
        i += 1;
    }
    true
}

// Is number i of the rows as it was read? An accepted answer writes each row's number at `place`.
fn kept_number(place: usize, accepted: bool, numbers: &[f64], words: &[u64], i: usize) -> bool
    requires { (i < length numbers.now) × (35 * length numbers.now ≤ 27 * length words.now) × (length numbers.now ≤ 13851) }
    ensures { result ≡ kept_number place accepted numbers.now words.now i }
{
    if accepted & (i % 27 == place) {
        return true;
    }
    same_number(numbers[i], words[35 * (i / 27) + i % 27])
}

pub fn kept_numbers(place: usize, accepted: bool, numbers: &[f64], words: &[u64]) -> bool
    requires { (35 * length numbers.now ≤ 27 * length words.now) × (length numbers.now ≤ 13851) }
    ensures { result ≡ kept_numbers place accepted numbers.now words.now }
{
    let mut i = 0;
    while i < numbers.len() {
        if !kept_number(place, accepted, numbers, words, i) {
            return false;
        }
        i += 1;
    }
    true
}

// Of each row, two words: the solution and the new accumulated number.
fn same_answer(place: usize, solution: &[f64], numbers: &[f64], words: &[u64], i: usize) -> bool
    requires { (i < length solution.now) × (length numbers.now ≡ 27 * length solution.now) × (2 * length solution.now ≤ length words.now) × (length solution.now ≤ 513) × (place < 27) }
    ensures { result ≡ same_answer place solution.now numbers.now words.now i }
{
    same_double(solution[i], words[2 * i]) & same_double(numbers[27 * i + place], words[2 * i + 1])
}

pub fn same_answers(place: usize, solution: &[f64], numbers: &[f64], words: &[u64]) -> bool
    requires { (length numbers.now ≡ 27 * length solution.now) × (2 * length solution.now ≤ length words.now) × (length solution.now ≤ 513) × (place < 27) }
    ensures { result ≡ same_answers place solution.now numbers.now words.now }
{
    let mut i = 0;
    while i < solution.len() {
        if !same_answer(place, solution, numbers, words, i) {
            return false;
        }
        i += 1;
    }
    true
}

// Is each number still 0.5, as it was lent?
pub fn unwritten(numbers: &[f64]) -> bool
    ensures { result ≡ unwritten_of numbers.now }
{
    let mut i = 0;
    while i < numbers.len() {
        if !same_double(numbers[i], 4602678819172646912) {
            return false;
        }
        i += 1;
    }
    true
}
