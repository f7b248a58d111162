//! Declarations: the scope after them (ISO/IEC 9899:2011 6.7, 6.9.2).
#![tactic(auto)]

mod begun_object;
mod begun_objects;
mod copies;
mod declaration_scopes;
mod declared_items;
mod finished_objects;
mod initialised_sizes;

pub use begun_object::BegunObject;
pub use begun_objects::begun;
pub use declaration_scopes::{asserted, declare};
pub use declared_items::function_at;
pub use finished_objects::finished;
