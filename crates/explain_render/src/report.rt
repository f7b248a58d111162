//! A report on a place.

use explain_findings::{Certainty, Shown, Undefined};

/// A report about a place of the sources.
#[derive(Clone, Copy)]
pub struct Report<'a> {
    /// The code of the report: the digits of a fault's, U1 to U8, or a word.
    pub code: &'a str,
    pub text: &'a str,
    /// How grave it is (SARIF 2.1.0, 3.27.10): `error` or `warning`.
    pub level: &'static str,
    /// The name of the file; empty where it is about none.
    pub file: &'a str,
    /// The line, counted from 1; 0 where it is about the whole file.
    pub line: u32,
    pub shown: &'a Shown,
}

impl<'a> Report<'a> {
    /// Undefined behaviour with its code.
    pub fn of_act(undefined: &'a Undefined, code: &'a str) -> Report<'a> {
        Report {
            code,
            text: undefined.title(),
            level: match undefined.certainty {
                Certainty::Met => "error",
                Certainty::Possible => "warning",
            },
            file: undefined.file.as_str(),
            line: undefined.line,
            shown: &undefined.shown,
        }
    }
}
