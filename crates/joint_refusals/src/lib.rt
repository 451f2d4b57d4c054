// Refusals 3 (of the counts) to 7 and 26 over the lent tables, each judged by itself: true where it does not apply.

#![tactic(auto)]

pub mod counts; // counts.rt: of the counts and the mode
pub mod judge; // judge.rt: of one row or mass, and of a whole table
pub mod tolerances; // tolerances.rt: of the two tolerances

pub use counts::{counts_fit, table_counts_fit};
pub use judge::{
    bodies_below, centres_finite, is_valid_at, masses_finite, residuals_finite, row_opens,
    row_words_fit, rows_open, rows_valid, scalars_finite, scalars_in_range, velocity_row_opens,
    velocity_rows_open, words_fit,
};
pub use tolerances::{tolerance_fits, tolerances_fit};
