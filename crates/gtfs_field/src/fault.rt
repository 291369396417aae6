use thiserror::Error;

/// Why a text is not a value of its kind of field.
#[derive(Clone, Copy, Debug, PartialEq, Eq, Error)]
pub enum FieldFault {
    /// The text does not have the shape of its kind.
    #[error("not of this form")]
    Form = 1,
    /// The text has the shape, and its value lies outside the limits of its kind.
    #[error("out of range")]
    Range = 2,
}
