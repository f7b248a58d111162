//! The meanings of names and tags (6.2.1 to 6.2.4).

use typed_ast::{DeclaredType, FunctionType, ObjectType, Storage};

/// The meaning of an ordinary identifier.
#[derive(Drop)]
pub enum Meaning {
    Object(Storage, DeclaredType),
    /// The number of an array parameter among those, and the type of its elements.
    ArrayParameter(usize, ObjectType),
    Function(FunctionType),
    /// An enumerator, with its value.
    Enumerator(i64),
}

/// The linkage of a name (6.2.2).
#[derive(Clone, Copy, PartialEq, Eq, Debug)]
pub enum Linkage {
    None,
    Internal,
    External,
}

/// Whether a name is only declared, tentatively defined, or defined (6.9, 6.9.2).
#[derive(Clone, Copy, PartialEq, Eq, Debug)]
pub enum State {
    Mentioned,
    Tentative,
    Defined,
}

/// A name, and how deep the block is that declares it, 0 being the file.
#[derive(Drop)]
pub struct Binding {
    pub name: usize,
    pub level: usize,
    pub meaning: Meaning,
    pub linkage: Linkage,
    pub state: State,
}

/// A tag, and whether its list has ended (6.2.1p7, 6.7.2.3p4).
#[derive(Clone, Copy)]
pub struct Tag {
    pub name: usize,
    pub level: usize,
    pub complete: bool,
}

/// An object with static storage: its name, which is for tools, and its type as declared so far, where a size still unknown is 1 (6.9.2p5).
#[derive(Drop)]
pub struct StaticObject {
    pub name: usize,
    pub object_type: ObjectType,
    pub defined: bool,
}
