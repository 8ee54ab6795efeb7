/// A job (activity) of a project, numbered from 1 to 128.
#[derive(Clone, Copy, Debug, PartialEq, Eq)]
pub struct Job(pub u8);
