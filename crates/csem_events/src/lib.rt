//! The observable events of a run, for all layers that deal with runs.
#![tactic(auto)]
