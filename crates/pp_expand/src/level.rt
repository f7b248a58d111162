//! Lists that are being expanded.
use crate::run_end::RunEnd;
use macros_substitution::HiddenToken;
use std::collections::VecDeque;

/// A list that is being expanded: the rest of it, and its expansion so far.
#[derive(Drop)]
pub(crate) struct Level<'a> {
    pub(crate) rest: VecDeque<HiddenToken<'a>>,
    pub(crate) out: Vec<HiddenToken<'a>>,
    pub(crate) end: RunEnd,
}
