// Memory for the largest job that is recorded, one row or body larger than any that may be solved. What takes an answer is lent as 0.5 throughout, so that what is written shows.
ghost use Rattle.std.specs.Prelude.{◌≡◌, length, replicate};
ghost use Rattle.solve_replay.specs.Seen.{marked};

// 35 words for each row,
pub fn row_word_room() -> [u64; 17955]
    ensures { result ≡ replicate 17955 0 }
{
    [0; 17955]
}

// of them 27 numbers
pub fn number_room() -> [f64; 13851]
    ensures { 13851 ≡ length result }
{
    [0.0; 13851]
}

// and eight u32;
pub fn word_room() -> [u32; 4104]
    ensures { 4104 ≡ length result }
{
    [0; 4104]
}

// ten words for each mass,
pub fn mass_word_room() -> [u64; 2570]
    ensures { result ≡ replicate 2570 0 }
{
    [0; 2570]
}

// all of them numbers;
pub fn mass_room() -> [f64; 2570]
    ensures { 2570 ≡ length result }
{
    [0.0; 2570]
}

// three words for each centre or, of velocities, one for each row,
pub fn beside_word_room() -> [u64; 771]
    ensures { result ≡ replicate 771 0 }
{
    [0; 771]
}

// numbers too;
pub fn beside_room() -> [f64; 771]
    ensures { 771 ≡ length result }
{
    [0.0; 771]
}

// three words for each new centre,
pub fn centre_word_room() -> [u64; 771]
    ensures { result ≡ replicate 771 0 }
{
    [0; 771]
}

// solution and accumulated number of each row,
pub fn answer_room() -> [u64; 1026]
    ensures { result ≡ replicate 1026 0 }
{
    [0; 1026]
}

// six impulses of each body;
pub fn body_word_room() -> [u64; 1542]
    ensures { result ≡ replicate 1542 0 }
{
    [0; 1542]
}

// what the solve writes them to.
pub fn solution_room() -> [f64; 513]
    ensures { result ≡ replicate 513 marked }
{
    [0.5; 513]
}

pub fn impulse_room() -> [f64; 1542]
    ensures { result ≡ replicate 1542 marked }
{
    [0.5; 1542]
}

pub fn new_centre_room() -> [f64; 771]
    ensures { result ≡ replicate 771 marked }
{
    [0.5; 771]
}
