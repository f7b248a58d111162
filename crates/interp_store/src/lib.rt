//! The state of the interpreter, that is, of the abstract machine in memory: objects, environments and continuations (ISO/IEC 9899:2011 5.1.2.3).
#![tactic(auto)]

mod element_tree;
pub mod expressions;
pub mod frames;
mod grid;
pub mod kept;
pub mod laws;
pub mod machine;
pub mod operands;
pub mod operators;
mod path;
mod reference;
pub mod scene;
pub mod stop;
mod store;

pub use element_tree::Tree;
pub use grid::Grid;
pub use path::Path;
pub use reference::Reference;
pub use store::Store;
