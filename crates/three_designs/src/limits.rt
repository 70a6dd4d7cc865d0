// The limits of the questions on arrays of strength three.

/// The most columns of an orthogonal array of strength three.
pub const OA3_K_MAX: u16 = 18;
/// The most symbols of an orthogonal array of strength three.
pub const OA3_N_MAX: u16 = 16;
