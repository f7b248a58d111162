//! The findings of an analysis so far.

use srcset::Pos;
use verify_expressions::{Alarm, Summary, Wanted};

/// The recorded places with their reasons; what was shown of calls; and the requested calls, the latest last.
#[derive(Drop)]
pub struct Work {
    pub listed: Vec<Pos>,
    pub alarms: Vec<Alarm>,
    pub summaries: Vec<Summary>,
    pub wanted: Vec<Wanted>,
}
