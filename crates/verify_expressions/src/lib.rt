//! The analysis of expressions: the values that they may have, and the state after them. Each answer is a triple that is
//! proved of every run.
#![tactic(auto)]

mod arguments;
mod calls;
mod comparisons;
mod conditions;
mod expressions;
mod facts;
mod memory;
mod objects;
mod operators;
mod parts;
mod places;
mod scope;
mod state;
mod stop;

pub use conditions::Tested;
pub use expressions::{Evaluated, evaluate, test};
pub use facts::{FOLLOWED_ELEMENTS, elements_read};
pub use memory::{
    Memory, enter_body, enter_loop, first_guess, follows_elements, leave_loop, may_unroll,
    met_elements, new_memory, recalled, remember, take_statement, take_step,
};
pub use objects::{
    content_at, copied, copied_known, imply, joined, replaced, value_in, with_value, written,
};
pub use places::{is_scalar, literal_count, shape};
pub use scope::{Scope, Summary};
pub use state::{AbsState, Known, is_reached, unreachable};
pub use stop::{Alarm, Stop, Wanted};
