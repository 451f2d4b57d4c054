// Which program's lines are printed of a job.
#[derive(Clone, Copy)]
pub enum Sheet {
    Job,
    Margins,
    Gaps,
}
