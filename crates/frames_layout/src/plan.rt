//! What new code stands for.

/// What an instruction of the new code stands for.
#[derive(Clone, Copy, Debug)]
pub struct Stand {
    /// The number of the old instruction.
    pub old: usize,
    /// Where it leads if it is a jump or a branch, as a number of the new code.
    pub place: usize,
    /// It is a jump, though the old instruction may do nothing.
    pub is_jump: bool,
    /// The old code has passed a jump more than the new code.
    pub is_owed: bool,
}
