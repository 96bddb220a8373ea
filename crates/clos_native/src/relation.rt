//! What the answers of stored functions meet.

/// What the answer of a stored function meets, whatever it is given.
#[derive(Drop)]
pub enum Relation {
    /// It is none below `lo` and none above `hi`.
    Within {
        lo: i64,
        hi: i64,
    },
    /// It is the constant and each argument times its coefficient, all added as whole numbers, so that no sum wraps. Where that is
    /// below `lo` it is `lo`, and where it is above `hi` it is `hi`.
    Clamped {
        coefficients: Vec<i64>,
        constant: i64,
        lo: i64,
        hi: i64,
    },
}
