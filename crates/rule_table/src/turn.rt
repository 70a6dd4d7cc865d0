use design_base::{Query, Verdict};

/// What comes next where a question is under evaluation.
#[derive(Drop)]
pub enum Turn {
    /// The verdict of this premise is wanted.
    Ask(Query),
    /// This is the verdict of the question.
    Done(Verdict),
}
