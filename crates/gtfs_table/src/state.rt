/// What is known of a kept file.
#[derive(Clone, Copy, Debug, PartialEq, Eq)]
pub enum State {
    /// The folder has no such file.
    Absent,
    /// The file is there, and what follows its byte order marks is not UTF-8.
    /// None of its records are kept.
    NotUtf8,
    /// The file is there, and its records were read.
    Read,
}
