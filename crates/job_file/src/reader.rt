// A reader of the row section: it refers to the lent file and stands at one row.
ghost use Rattle.std.specs.Prelude.{◌≡◌, ◌+◌, ◌*◌, ◌<◌, ◌≤◌, length};
ghost use Rattle.job_file.specs.Layout.{rows_end};
ghost use Rattle.job_file.specs.File.{section_numbers, section_words};
ghost use Rattle.job_file.specs.Refusals.{keys_fit};
ghost use Rattle.job_file.specs.Walk.{Standing, reader_of, stepped, keys_here, numbers_here, words_here};

use crate::fit::row_keys_fit;
use crate::sections::put_row;

// `rows` rows from the byte `offset` on, at number `row` of them.
#[derive(Clone, Copy)]
pub struct Reader<'a> {
    pub file: &'a [u8],
    pub offset: usize,
    pub rows: usize,
    pub row: usize,
}

// It may stand at the end too: that there is a row is asked where one is read.
pub fn reader_at<'a>(file: &'a [u8], offset: usize, rows: usize, row: usize) -> Reader<'a>
    ensures { result ≡ reader_of file.entry offset rows row }
{
    Reader {
        file,
        offset,
        rows,
        row,
    }
}

// The next row, or the end after the last.
pub fn next_row<'a>(r: Reader<'a>) -> Reader<'a>
    requires { r.row < r.rows }
    ensures { result ≡ stepped r.entry }
{
    Reader {
        file: r.file,
        offset: r.offset,
        rows: r.rows,
        row: r.row + 1,
    }
}

// Does refusal 4 pass the row where it stands,
pub fn keys_here<'a>(r: Reader<'a>) -> bool
    requires { Standing r }
    ensures { result ≡ keys_here r.entry }
{
    row_keys_fit(r.file, r.offset, r.row)
}

// and all rows? One reader is walked from the first to the end, here and in `read_rows`.
pub fn keys_fit(file: &[u8], offset: usize, rows: usize) -> bool
    requires { rows_end offset rows ≤ length file.now }
    ensures { result ≡ keys_fit file.now offset rows }
{
    let mut fit = true;
    let mut r = reader_at(file, offset, rows, 0);
    while r.row < r.rows {
        fit = fit & keys_here(r);
        r = next_row(r);
    }
    fit
}

// The 27 numbers and 8 words of the row where it stands, to the places that are the row's.
pub fn row_here<'a, 'b, 'c>(r: Reader<'a>, numbers: &'b mut [f64], words: &'c mut [u32])
    requires { Standing r × (27 * (r.row + 1) ≤ length numbers.old) × (8 * (r.row + 1) ≤ length words.old) }
    ensures { (numbers.new ≡ numbers_here r.entry numbers.old) × (words.new ≡ words_here r.entry words.old) }
{
    put_row(r.file, r.offset, r.row, numbers, words)
}

// All rows.
pub fn read_rows(file: &[u8], offset: usize, rows: usize, numbers: &mut [f64], words: &mut [u32])
    requires { (rows_end offset rows ≤ length file.now) × (length numbers.old ≡ 27 * rows) × (length words.old ≡ 8 * rows) }
    ensures { (numbers.new ≡ section_numbers file.now offset rows) × (words.new ≡ section_words file.now offset rows) }
{
    let mut r = reader_at(file, offset, rows, 0);
    while r.row < r.rows {
        row_here(r, numbers, words);
        r = next_row(r);
    }
}
