//! Who asks a site for something, and in what role.
use fed_stamp::Word;

/// What somebody may do, as in the batch services of POSIX.1-2017, XCU chapter 3: a user works on jobs of their own, an
/// operator on all jobs and on reservations, an administrator on system holds too.
#[derive(Clone, Copy, PartialEq, Eq, Debug)]
pub enum Role {
    /// Works on jobs of their own, with user holds.
    User,
    /// Works on all jobs, with user and operator holds, and on reservations.
    Operator,
    /// Does what an operator does, with system holds too.
    Administrator,
}

/// Who asks: a user by name, in a role.
#[derive(Clone, Copy, PartialEq, Eq, Debug)]
pub struct Who {
    /// The user's name.
    pub user: Word,
    /// What the user may do.
    pub role: Role,
}
