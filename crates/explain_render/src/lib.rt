//! Explained faults as text for a person, as JSON, and as a SARIF log.
#![tactic(auto)]

mod json_lines;
mod report;
mod sarif;
mod text;

pub use json_lines::{put_json, put_json_report, put_json_undefined};
pub use report::Report;
pub use sarif::{
    put_sarif_act_rules, put_sarif_end, put_sarif_report, put_sarif_result, put_sarif_results,
    put_sarif_rule, put_sarif_start, put_sarif_tool, put_sarif_undefined,
};
pub use text::{Style, put_finding, put_source, put_undefined};
