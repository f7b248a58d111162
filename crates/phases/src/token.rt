//! Preprocessing tokens.
ghost use Rattle.std.specs.Prelude.{◌≡◌, true, IfOk, IfSome, IsOk};
ghost use Rattle.phases.specs.Spelled.{token_of, is_lent};

use srcset::Pos;
use std::alloc::AllocError;
use std::borrow::CowSlice;
use std::marker::Model;
use std::rc::RcSlice;

/// The kinds of preprocessing tokens (ISO/IEC 9899:2011 6.4).
#[derive(Clone, Copy, Debug, PartialEq, Eq)]
pub enum Kind {
    /// 6.4.2, keywords among them.
    Identifier,
    /// A preprocessing number, 6.4.8.
    Number,
    /// 6.4.4.4, with its prefix and its quotes.
    CharacterConstant,
    /// 6.4.5, with its prefix and its quotes.
    StringLiteral,
    /// 6.4.7, with its quotes or angle brackets.
    HeaderName,
    /// 6.4.6, digraphs among them.
    Punctuator,
    /// A character that begins none of the others.
    Other,
}

/// Where on its line a token is, as far as header names depend on it (ISO/IEC 9899:2011 6.4.7).
#[derive(Clone, Copy, Debug, PartialEq, Eq)]
pub enum Place {
    /// First on its line.
    Start,
    /// Directly after a `#` that is first on its line.
    AfterHash,
    /// Directly after `# include`.
    AfterInclude,
    /// Anywhere else.
    Elsewhere,
}

/// The piece at the front of a text (ISO/IEC 9899:2011 5.1.1.2, phase 3).
#[derive(Clone, Copy)]
pub enum Piece {
    /// The end of a line.
    Newline,
    /// White space or a comment.
    Gap,
    /// A comment that is not closed, through the end of the text.
    Unclosed,
    /// A preprocessing token.
    Word(Kind),
}

/// The parts of a preprocessing token; the variant says whether the bytes of its spelling are borrowed or owned.
/// All parts are in each variant so that the tag, the kind and the mark share four bytes: with the fields in
/// this order a token takes 32 bytes.
#[derive(Drop)]
enum Held<'a> {
    /// Borrowed from the bytes of the file.
    Lent {
        kind: Kind,
        space_before: bool,
        line: u32,
        file: usize,
        spelling: &'a [u8],
    },
    /// Shared by the token and its copies, so that a spelling is stored once however often its token is copied.
    Owned {
        kind: Kind,
        space_before: bool,
        line: u32,
        file: usize,
        spelling: RcSlice<u8>,
    },
}

/// A preprocessing token (ISO/IEC 9899:2011 6.4).
///
/// Its spelling has no trigraphs and no splices. It is borrowed from the bytes of the file, and owned, by it and its
/// copies together, only where something was rewritten inside it.
#[derive(Drop)]
pub struct PpToken<'a> {
    held: Held<'a>,
}

impl<'a> Model for PpToken<'a> {
    ghost use Rattle.phases.specs.Token.{Token};
    ghost use Rattle.phases.specs.inside.Held.{token_held};

    ghost Value = { Token };

    ghost view = { λ t. token_held t.held };
}

impl<'a> PpToken<'a> {
    /// The token with this kind and spelling, at this place. `space_before` says whether white space or
    /// a comment directly precedes it. Fails only where memory runs out, which only an owned spelling
    /// causes.
    #[inline(always)]
    pub fn new(
        kind: Kind,
        spelling: CowSlice<'a, u8>,
        space_before: bool,
        pos: Pos,
    ) -> Result<PpToken<'a>, AllocError>
        ensures ok { IfOk result (λ t. t ≡ token_of kind spelling.entry space_before pos) }
        ensures lent { is_lent spelling.entry ≡ true → IsOk result }
    {
        let Pos { file, line } = pos;
        let held = match spelling {
            CowSlice::Borrowed(spelling) => Held::Lent {
                kind,
                space_before,
                line,
                file,
                spelling,
            },
            CowSlice::Owned(spelling) => Held::Owned {
                kind,
                space_before,
                line,
                file,
                spelling: RcSlice::from_vec(spelling)?,
            },
        };
        Ok(PpToken { held })
    }

    /// The kind of the token.
    pub fn kind(&self) -> Kind
        ensures { result ≡ self.now.kind }
    {
        match &self.held {
            Held::Lent { kind, .. } => *kind,
            Held::Owned { kind, .. } => *kind,
        }
    }

    /// Its text, after phases 1 and 2.
    pub fn spelling(&self) -> &[u8]
        ensures { result.now ≡ self.now.spelling }
    {
        match &self.held {
            Held::Lent { spelling, .. } => spelling,
            Held::Owned { spelling, .. } => spelling.as_slice(),
        }
    }

    /// Its text, for as long as the bytes of the file are borrowed; `None` where the token owns it.
    pub fn lent_spelling(&self) -> Option<&'a [u8]>
        ensures { IfSome result (λ s. s.now ≡ self.now.spelling) }
    {
        match &self.held {
            Held::Lent { spelling, .. } => Some(*spelling),
            Held::Owned { .. } => None,
        }
    }

    /// Whether white space or a comment directly precedes it on its line.
    pub fn space_before(&self) -> bool
        ensures { result ≡ self.now.space_before }
    {
        match &self.held {
            Held::Lent { space_before, .. } => *space_before,
            Held::Owned { space_before, .. } => *space_before,
        }
    }

    /// Its file, and the physical line of its first character, counted from 1.
    pub fn pos(&self) -> Pos
        ensures { result ≡ self.now.pos }
    {
        let (file, line) = match &self.held {
            Held::Lent { file, line, .. } => (*file, *line),
            Held::Owned { file, line, .. } => (*file, *line),
        };
        Pos { file, line }
    }

    /// The same token with this mark: whether white space or a comment directly precedes it.
    pub fn with_space(self, space_before: bool) -> PpToken<'a>
        ensures { result ≡ record self.entry { space_before = space_before } }
    {
        let held = match self.held {
            Held::Lent {
                kind,
                line,
                file,
                spelling,
                ..
            } => Held::Lent {
                kind,
                space_before,
                line,
                file,
                spelling,
            },
            Held::Owned {
                kind,
                line,
                file,
                spelling,
                ..
            } => Held::Owned {
                kind,
                space_before,
                line,
                file,
                spelling,
            },
        };
        PpToken { held }
    }

    /// The same token at this place.
    pub fn with_pos(self, pos: Pos) -> PpToken<'a>
        ensures { result ≡ record self.entry { pos = pos } }
    {
        let (file, line) = (pos.file, pos.line);
        let held = match self.held {
            Held::Lent {
                kind,
                space_before,
                spelling,
                ..
            } => Held::Lent {
                kind,
                space_before,
                line,
                file,
                spelling,
            },
            Held::Owned {
                kind,
                space_before,
                spelling,
                ..
            } => Held::Owned {
                kind,
                space_before,
                line,
                file,
                spelling,
            },
        };
        PpToken { held }
    }

    /// A copy of the token, with the same spelling in memory. Fails only where an owned spelling has as many copies as
    /// can be counted.
    #[inline(always)]
    pub fn copy(&self) -> Result<PpToken<'a>, AllocError>
        ensures { IfOk result (λ t. t ≡ self.now) }
    {
        let held = match &self.held {
            Held::Lent {
                kind,
                space_before,
                line,
                file,
                spelling,
            } => Held::Lent {
                kind: *kind,
                space_before: *space_before,
                line: *line,
                file: *file,
                spelling: *spelling,
            },
            Held::Owned {
                kind,
                space_before,
                line,
                file,
                spelling,
            } => Held::Owned {
                kind: *kind,
                space_before: *space_before,
                line: *line,
                file: *file,
                spelling: spelling.clone()?,
            },
        };
        Ok(PpToken { held })
    }

    /// A copy of the token, with this mark and at this place. Fails as `copy` does.
    pub fn copy_at(&self, space_before: bool, pos: Pos) -> Result<PpToken<'a>, AllocError>
        ensures { IfOk result (λ t. t ≡ record self.now { space_before = space_before; pos = pos }) }
    {
        let token = self.copy()?;
        Ok(token.with_space(space_before).with_pos(pos))
    }
}
