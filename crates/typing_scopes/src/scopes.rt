//! Scopes: the meaning of each name (6.2.1 to 6.2.4), and the declarations of the program so far.

ghost use Rattle.std.specs.Prelude.{◌≡◌, List, [], ◌∷◌, ◌++◌, map, OnOk, OnErr, IfOk, IfErr, drop, length};
ghost use Rattle.typing_spec.specs.Scope as typed;
ghost use Rattle.typing_scopes.specs.Scopes.{option_binding, seen_tag, meaning_of, linkage_of, state_of, bindings_names, tags_names, newest_first, newest_tags, static_of, block_of, one_name_less, one_tag_less, names_left, tags_left, with_objects, with_statics};
ghost use Rattle.typing_spec.specs.Linkage.{put_static};
ghost use Rattle.typing_spec.specs.Declarations.{put_object};
ghost use Rattle.typed_ast.specs.View.{object_type_of};
ghost use Rattle.srcset.specs.declared.refusal.Refusal.TheVariants.{Memory};

use crate::bindings::{Binding, Linkage, Meaning, State, StaticObject, Tag};
use crate::depth::Depth;
use crate::first_names::FirstNames;
use crate::newest_names::NewestNames;
use srcset::Refusal;
use std::alloc::Global;
use std::marker::Model;
use std::mem::replace;
use typed_ast::ObjectType;

/// Where a block begins: how many names and tags there are, and how deep the block around it is.
#[derive(Clone, Copy)]
pub struct Block {
    names: usize,
    tags: usize,
    level: Depth,
}

/// The names and tags in scope, and the declarations of the program so far.
///
/// A look-up of a name or tag takes constant time; leaving a block takes time in proportion to its declarations.
#[derive(Drop)]
pub struct Scope {
    definitions: FirstNames,
    bindings: Vec<Binding>,
    names: NewestNames,
    tags: Vec<Tag>,
    tag_names: NewestNames,
    level: Depth,
    // A byte for each level of the deepest block so far.
    levels: Vec<u8>,
    literals: Vec<usize>,
    statics: Vec<StaticObject>,
    objects: Vec<ObjectType>,
}

impl Model for Scope {
    ghost Value = { typed.Scope };

    ghost view = { λ s. record { texts = []; definitions = s.definitions; bindings = newest_first s.bindings.items; tags = newest_tags s.tags.items; level = s.level; literals = s.literals.items; statics = map static_of s.statics.items; objects = map object_type_of s.objects.items } };

    ghost invariant = { λ s. (s.names ≡ bindings_names (newest_first s.bindings.items)) × (s.tag_names ≡ tags_names (newest_tags s.tags.items)) };
}

impl Scope {
    /// The scope at the beginning of a unit that defines functions with these names, in this order.
    pub fn file(alloc: Global, definitions: Vec<usize>) -> Result<Scope, Refusal>
        ensures ok { IfOk result (λ s. s ≡ typed.file_scope [] definitions.items) }
        ensures err { IfErr result (λ e. e ≡ Memory) }
    {
        let Ok(definitions) = FirstNames::new(alloc, definitions) else {
            return Err(Refusal::Memory);
        };
        Ok(Scope {
            definitions,
            bindings: Vec::new(alloc),
            names: NewestNames::new(alloc),
            tags: Vec::new(alloc),
            tag_names: NewestNames::new(alloc),
            level: Depth::file(),
            levels: Vec::new(alloc),
            literals: Vec::new(alloc),
            statics: Vec::new(alloc),
            objects: Vec::new(alloc),
        })
    }

    /// The innermost binding of a name.
    pub fn lookup(&self, name: usize) -> Option<&Binding>
        ensures { option_binding result ≡ typed.lookup self.now name }
    {
        match self.names.find(name) {
            Some(place) => self.bindings.get(place),
            None => None,
        }
    }

    /// The innermost tag with a name.
    pub fn lookup_tag(&self, name: usize) -> Option<Tag>
        ensures { seen_tag result ≡ typed.tag_in self.now.tags name }
    {
        match self.tag_names.find(name) {
            Some(place) => self.tags.get(place).copied(),
            None => None,
        }
    }

    /// The place of the definition of the function with this name.
    pub fn definition(&self, name: usize) -> Option<usize>
        ensures { result ≡ typed.place_from 0 self.now.definitions name }
    {
        self.definitions.find(name)
    }

    /// The string literals so far, by the numbers of their texts.
    pub fn literals(&self) -> &[usize]
        ensures { result.now ≡ self.now.literals }
    {
        &self.literals
    }

    /// How deep the present block is, 0 being the file.
    pub fn level(&self) -> usize
        ensures { result ≡ self.now.level }
    {
        self.level.get()
    }

    /// How many objects with static storage there are so far.
    pub fn static_count(&self) -> usize
        ensures { result ≡ length self.now.statics }
    {
        self.statics.len()
    }

    /// How many objects the present function has so far.
    pub fn object_count(&self) -> usize
        ensures { result ≡ length self.now.objects }
    {
        self.objects.len()
    }

    /// One more string literal, by the number of its text.
    pub fn with_literal(&mut self, name: usize) -> Result<(), Refusal>
        ensures ok { OnOk result (self.new ≡ typed.with_literals self.old (name ∷ [])) }
        ensures err { OnErr result (self.new ≡ self.old) }
        ensures refusal { IfErr result (λ e. e ≡ Memory) }
    {
        match self.literals.push(name) {
            Ok(()) => Ok(()),
            Err(_) => Err(Refusal::Memory),
        }
    }

    /// One more object of the present function.
    pub fn with_object(&mut self, object: ObjectType) -> Result<(), Refusal>
        ensures ok { OnOk result (self.new ≡ with_objects (self.old.objects ++ object_type_of object ∷ []) self.old) }
        ensures err { OnErr result (self.new ≡ self.old) }
        ensures refusal { IfErr result (λ e. e ≡ Memory) }
    {
        match self.objects.push(object) {
            Ok(()) => Ok(()),
            Err(_) => Err(Refusal::Memory),
        }
    }

    /// The object of the present function with this number, or the next one, has this type.
    #[tactic(auto, using(crate::proofs::Puts::object_set, crate::proofs::Puts::object_pushed))]
    pub fn put_object(&mut self, place: usize, object: ObjectType) -> Result<(), Refusal>
        ensures ok { OnOk result (self.new ≡ with_objects (put_object self.old.objects place (object_type_of object)) self.old) }
        ensures err { OnErr result (self.new ≡ self.old) }
        ensures refusal { IfErr result (λ e. e ≡ Memory) }
    {
        if place < self.objects.len() {
            self.objects[place] = object;
            return Ok(());
        }
        match self.objects.push(object) {
            Ok(()) => Ok(()),
            Err(_) => Err(Refusal::Memory),
        }
    }

    /// The object with static storage with this number, or the next one, is this one.
    #[tactic(auto, using(crate::proofs::Puts::static_set, crate::proofs::Puts::static_pushed))]
    pub fn put_static(&mut self, place: usize, object: StaticObject) -> Result<(), Refusal>
        ensures ok { OnOk result (self.new ≡ with_statics (put_static self.old.statics place (static_of object)) self.old) }
        ensures err { OnErr result (self.new ≡ self.old) }
        ensures refusal { IfErr result (λ e. e ≡ Memory) }
    {
        if place < self.statics.len() {
            self.statics[place] = object;
            return Ok(());
        }
        match self.statics.push(object) {
            Ok(()) => Ok(()),
            Err(_) => Err(Refusal::Memory),
        }
    }

    /// Another function begins with these objects, or continues. Returns those of the one before.
    pub fn change_objects(&mut self, objects: Vec<ObjectType>) -> Vec<ObjectType>
        ensures new { self.new ≡ with_objects (map object_type_of objects.items) self.old }
        ensures old { map object_type_of result.items ≡ self.old.objects }
    {
        replace(&mut self.objects, objects)
    }

    /// Replaces the objects with static storage. Returns those so far.
    pub fn change_statics(&mut self, statics: Vec<StaticObject>) -> Vec<StaticObject>
        ensures new { self.new ≡ with_statics (map static_of statics.items) self.old }
        ensures old { map static_of result.items ≡ self.old.statics }
    {
        replace(&mut self.statics, statics)
    }

    /// One more name, in the present block.
    pub fn with_name(
        &mut self,
        name: usize,
        meaning: Meaning,
        linkage: Linkage,
        state: State,
    ) -> Result<(), Refusal>
        ensures ok { OnOk result (self.new ≡ typed.with_name self.old name (meaning_of meaning) (linkage_of linkage) (state_of state)) }
        ensures err { OnErr result (self.new ≡ self.old) }
        ensures refusal { IfErr result (λ e. e ≡ Memory) }
    {
        let binding = Binding {
            name,
            level: self.level.get(),
            meaning,
            linkage,
            state,
        };
        let Ok(()) = self.names.declare(name) else {
            return Err(Refusal::Memory);
        };
        match self.bindings.push(binding) {
            Ok(()) => Ok(()),
            Err(_) => {
                self.names.leave();
                Err(Refusal::Memory)
            }
        }
    }

    /// One more tag, in the present block.
    pub fn with_tag(&mut self, name: usize, complete: bool) -> Result<(), Refusal>
        ensures ok { OnOk result (self.new ≡ typed.with_tag self.old name complete) }
        ensures err { OnErr result (self.new ≡ self.old) }
        ensures refusal { IfErr result (λ e. e ≡ Memory) }
    {
        let tag = Tag {
            name,
            level: self.level.get(),
            complete,
        };
        let Ok(()) = self.tag_names.declare(name) else {
            return Err(Refusal::Memory);
        };
        match self.tags.push(tag) {
            Ok(()) => Ok(()),
            Err(_) => {
                self.tag_names.leave();
                Err(Refusal::Memory)
            }
        }
    }

    /// Enters a block.
    pub fn inside(&mut self) -> Result<Block, Refusal>
        ensures ok { IfOk result (λ b. (b ≡ block_of self.old) × (self.new ≡ typed.inside self.old)) }
        ensures err { OnErr result (self.new ≡ self.old) }
        ensures refusal { IfErr result (λ e. e ≡ Memory) }
    {
        let block = Block {
            names: self.bindings.len(),
            tags: self.tags.len(),
            level: self.level,
        };
        let Ok(level) = self.level.deeper(&mut self.levels) else {
            return Err(Refusal::Memory);
        };
        self.level = level;
        Ok(block)
    }

    /// Removes the most recently declared name.
    fn drop_name(&mut self)
        ensures { self.new ≡ one_name_less self.old }
    {
        self.names.leave();
        self.bindings.pop();
    }

    /// Removes the most recently declared tag.
    fn drop_tag(&mut self)
        ensures { self.new ≡ one_tag_less self.old }
    {
        self.tag_names.leave();
        self.tags.pop();
    }

    /// Removes the names after the first `count`.
    fn leave_names(&mut self, count: usize)
        ensures { self.new ≡ names_left count self.old }
    {
        for _ in 0..self.bindings.len().saturating_sub(count) {
            self.drop_name();
        }
    }

    /// Removes the tags after the first `count`.
    fn leave_tags(&mut self, count: usize)
        ensures { self.new ≡ tags_left count self.old }
    {
        for _ in 0..self.tags.len().saturating_sub(count) {
            self.drop_tag();
        }
    }

    /// Leaves a block: removes its names and tags, keeps its objects and literals. It costs as much as the block has declarations.
    pub fn outside(&mut self, block: Block)
        ensures { (outer : typed.Scope) (names : List typed.Binding) (tags : List typed.Tag) → block ≡ block_of outer → self.old.bindings ≡ names ++ outer.bindings → self.old.tags ≡ tags ++ outer.tags → self.new ≡ typed.outside outer self.old }
    {
        self.leave_names(block.names);
        self.leave_tags(block.tags);
        self.level = block.level;
    }
}
