//! The types that specifiers name (6.7.2, 6.7.3).
#![tactic(auto, using(typing_expressions::proofs::Verdicts::each_left, typing_expressions::proofs::Verdicts::each_right, typing_expressions::proofs::Verdicts::each_fine))]

ghost use Rattle.std.specs.Prelude.{◌≡◌, ◌≤◌, ◌∷◌, [], length, IfErr, IfSome, OnOk, IfOk, nat_eq, not, map};
ghost use Rattle.typing_spec.specs.Specifiers as typed;
ghost use Rattle.typing_spec.specs.Verdict.{fine, refuse_if};
ghost use Rattle.typing_spec.specs.Scope.{tag_in};
ghost use Rattle.srcset.specs.declared.code.Code.TheVariants as code;
ghost use Rattle.typing_expressions.specs.Refused.{IsOf};
ghost use Rattle.const_expr.specs.Typings.{base_type_of, word_set_of, is_empty, tag_of};

use ctypes::IntType;
use srcset::{Code, Pos, Refusal};
use tree::{TypeSpecifier, TypeSpecifiers, Word};
use typing_scopes::Scope;

/// The type that specifiers name, none for `void`, and whether `const` is among them.
#[derive(Clone, Copy)]
pub struct BaseType {
    pub named: Option<IntType>,
    pub constant: bool,
}

/// Words, and the type that they name in any order.
#[derive(Clone, Copy)]
struct WordSet {
    words: &'static [Word],
    named: Option<IntType>,
}

/// How often a word occurs among words.
fn times(word: Word, words: &[Word]) -> usize
    ensures count { result ≡ typed.times word words.now }
    ensures most { result ≤ length words.now }
{
    let mut count = 0;
    for first in words {
        if *first == word {
            count += 1;
        }
    }
    count
}

/// How often a word is a specifier.
fn times_here(word: Word, specifier: &TypeSpecifier) -> usize
    ensures count { result ≡ typed.times word (typed.words_of (specifier.now ∷ [])) }
    ensures most { result ≤ 1 }
{
    match specifier {
        TypeSpecifier::Word(first) => {
            if *first == word {
                return 1;
            }
            0
        }
        TypeSpecifier::Const => 0,
        TypeSpecifier::Enum(_) => 0,
    }
}

/// How often a word occurs among specifiers.
fn times_among(word: Word, specifiers: &[TypeSpecifier]) -> usize
    ensures count { result ≡ typed.times word (typed.words_of specifiers.now) }
    ensures most { result ≤ length specifiers.now }
{
    let mut count = 0;
    for specifier in specifiers {
        count += times_here(word, specifier);
    }
    count
}

/// How many enumerated types a specifier is.
fn tags_here(specifier: &TypeSpecifier) -> usize
    ensures count { result ≡ typed.count (typed.tags_of (specifier.now ∷ [])) }
    ensures most { result ≤ 1 }
{
    match specifier {
        TypeSpecifier::Enum(_) => 1,
        TypeSpecifier::Const => 0,
        TypeSpecifier::Word(_) => 0,
    }
}

fn tags_count(specifiers: &[TypeSpecifier]) -> usize
    ensures count { result ≡ typed.count (typed.tags_of specifiers.now) }
    ensures most { result ≤ length specifiers.now }
{
    let mut count = 0;
    for specifier in specifiers {
        count += tags_here(specifier);
    }
    count
}

fn is_no_word(specifier: &TypeSpecifier) -> bool
    ensures { result ≡ is_empty (typed.words_of (specifier.now ∷ [])) }
{
    match specifier {
        TypeSpecifier::Word(_) => false,
        TypeSpecifier::Const => true,
        TypeSpecifier::Enum(_) => true,
    }
}

fn has_no_word(specifiers: &[TypeSpecifier]) -> bool
    ensures { result ≡ is_empty (typed.words_of specifiers.now) }
{
    for specifier in specifiers {
        if !is_no_word(specifier) {
            return false;
        }
    }
    true
}

fn names_const(specifier: &TypeSpecifier) -> bool
    ensures { result ≡ typed.is_const (specifier.now ∷ []) }
{
    match specifier {
        TypeSpecifier::Const => true,
        TypeSpecifier::Word(_) => false,
        TypeSpecifier::Enum(_) => false,
    }
}

fn is_const(specifiers: &[TypeSpecifier]) -> bool
    ensures { result ≡ typed.is_const specifiers.now }
{
    for specifier in specifiers {
        if names_const(specifier) {
            return true;
        }
    }
    false
}

/// `enum tag` may appear only after the end of the tag's list (6.7.2.3p3).
fn tag_known(scope: &Scope, pos: Pos, tag: usize) -> Result<(), Refusal>
    ensures ok { OnOk result (refuse_if (not (typed.is_complete (tag_in scope.now.tags tag))) code.BadEnumTag pos ≡ fine tt) }
    ensures err { IfErr result (λ r. IsOf r (refuse_if (not (typed.is_complete (tag_in scope.now.tags tag))) code.BadEnumTag pos)) }
{
    match scope.lookup_tag(tag) {
        Some(known) if known.complete => Ok(()),
        _ => Err(Refusal::At {
            code: Code::BadEnumTag,
            pos,
        }),
    }
}

/// A specifier that is no `enum tag`, or one that may appear here.
fn tag_here(scope: &Scope, pos: Pos, specifier: &TypeSpecifier) -> Result<(), Refusal>
    ensures ok { OnOk result (tag_of scope.now pos specifier.now ≡ fine tt) }
    ensures err { IfErr result (λ r. IsOf r (tag_of scope.now pos specifier.now)) }
{
    match specifier {
        TypeSpecifier::Enum(tag) => tag_known(scope, pos, *tag),
        TypeSpecifier::Const => Ok(()),
        TypeSpecifier::Word(_) => Ok(()),
    }
}

fn tags_known(scope: &Scope, pos: Pos, specifiers: &[TypeSpecifier]) -> Result<(), Refusal>
    ensures ok { OnOk result (typed.tags_known scope.now pos (typed.tags_of specifiers.now) ≡ fine tt) }
    ensures err { IfErr result (λ r. IsOf r (typed.tags_known scope.now pos (typed.tags_of specifiers.now))) }
{
    for specifier in specifiers {
        match tag_here(scope, pos, specifier) {
            Ok(()) => {}
            Err(refusal) => return Err(refusal),
        }
    }
    Ok(())
}

/// Whether a word occurs as often among the one as among the other.
fn as_often(word: Word, words: &[Word], specifiers: &[TypeSpecifier]) -> bool
    ensures { result ≡ nat_eq (typed.times word words.now) (typed.times word (typed.words_of specifiers.now)) }
{
    times(word, words) == times_among(word, specifiers)
}

/// The same words in any order.
fn same_words(words: &[Word], specifiers: &[TypeSpecifier]) -> bool
    ensures { result ≡ typed.same_words words.now (typed.words_of specifiers.now) }
{
    as_often(Word::Void, words, specifiers)
        && as_often(Word::Char, words, specifiers)
        && as_often(Word::Short, words, specifiers)
        && as_often(Word::Int, words, specifiers)
        && as_often(Word::Long, words, specifiers)
        && as_often(Word::Signed, words, specifiers)
        && as_often(Word::Unsigned, words, specifiers)
        && as_often(Word::Bool, words, specifiers)
}

/// The type of the first of these sets that has the words.
fn type_among(sets: &[WordSet], specifiers: &[TypeSpecifier]) -> Option<Option<IntType>>
    ensures { result ≡ typed.type_among (map word_set_of sets.now) (typed.words_of specifiers.now) }
{
    for set in sets {
        if same_words(set.words, specifiers) {
            return Some(set.named);
        }
    }
    None
}

/// The sets of words (6.7.2p2).
const SETS: [WordSet; 22] = [
    WordSet {
        words: &[Word::Void],
        named: None,
    },
    WordSet {
        words: &[Word::Char],
        named: Some(IntType::Char),
    },
    WordSet {
        words: &[Word::Signed, Word::Char],
        named: Some(IntType::SChar),
    },
    WordSet {
        words: &[Word::Unsigned, Word::Char],
        named: Some(IntType::UChar),
    },
    WordSet {
        words: &[Word::Short],
        named: Some(IntType::Short),
    },
    WordSet {
        words: &[Word::Signed, Word::Short],
        named: Some(IntType::Short),
    },
    WordSet {
        words: &[Word::Short, Word::Int],
        named: Some(IntType::Short),
    },
    WordSet {
        words: &[Word::Signed, Word::Short, Word::Int],
        named: Some(IntType::Short),
    },
    WordSet {
        words: &[Word::Unsigned, Word::Short],
        named: Some(IntType::UShort),
    },
    WordSet {
        words: &[Word::Unsigned, Word::Short, Word::Int],
        named: Some(IntType::UShort),
    },
    WordSet {
        words: &[Word::Int],
        named: Some(IntType::Int),
    },
    WordSet {
        words: &[Word::Signed],
        named: Some(IntType::Int),
    },
    WordSet {
        words: &[Word::Signed, Word::Int],
        named: Some(IntType::Int),
    },
    WordSet {
        words: &[Word::Unsigned],
        named: Some(IntType::UInt),
    },
    WordSet {
        words: &[Word::Unsigned, Word::Int],
        named: Some(IntType::UInt),
    },
    WordSet {
        words: &[Word::Long],
        named: Some(IntType::Long),
    },
    WordSet {
        words: &[Word::Signed, Word::Long],
        named: Some(IntType::Long),
    },
    WordSet {
        words: &[Word::Long, Word::Int],
        named: Some(IntType::Long),
    },
    WordSet {
        words: &[Word::Signed, Word::Long, Word::Int],
        named: Some(IntType::Long),
    },
    WordSet {
        words: &[Word::Unsigned, Word::Long],
        named: Some(IntType::ULong),
    },
    WordSet {
        words: &[Word::Unsigned, Word::Long, Word::Int],
        named: Some(IntType::ULong),
    },
    WordSet {
        words: &[Word::Bool],
        named: Some(IntType::Bool),
    },
];

/// The type that a word names alone (6.7.2p2).
fn type_of_word(word: Word) -> Option<Option<IntType>>
    ensures { result ≡ typed.type_among typed.sets (word ∷ []) }
{
    match word {
        Word::Void => Some(None),
        Word::Char => Some(Some(IntType::Char)),
        Word::Short => Some(Some(IntType::Short)),
        Word::Int => Some(Some(IntType::Int)),
        Word::Long => Some(Some(IntType::Long)),
        Word::Signed => Some(Some(IntType::Int)),
        Word::Unsigned => Some(Some(IntType::UInt)),
        Word::Bool => Some(Some(IntType::Bool)),
    }
}

/// The word that a specifier is.
fn word_of(specifier: &TypeSpecifier) -> Option<Word>
    ensures { IfSome result (λ word. typed.words_of (specifier.now ∷ []) ≡ word ∷ []) }
{
    match specifier {
        TypeSpecifier::Word(word) => Some(*word),
        TypeSpecifier::Const => None,
        TypeSpecifier::Enum(_) => None,
    }
}

/// The word that the specifiers are, where there is one alone.
fn only_word(specifiers: &[TypeSpecifier]) -> Option<Word>
    ensures { IfSome result (λ word. typed.words_of specifiers.now ≡ word ∷ []) }
{
    let Some((first, further)) = specifiers.split_first() else {
        return None;
    };
    if !further.is_empty() {
        return None;
    }
    word_of(first)
}

/// The type that words name (6.7.2p2).
fn type_of_words(specifiers: &[TypeSpecifier]) -> Option<Option<IntType>>
    ensures { result ≡ typed.type_among typed.sets (typed.words_of specifiers.now) }
{
    match only_word(specifiers) {
        Some(word) => type_of_word(word),
        None => type_among(&SETS, specifiers),
    }
}

/// The type of words alone, or of one enumerated type alone, which is `int`, this profile's choice (6.7.2.2p4).
fn named_type(specifiers: &[TypeSpecifier]) -> Option<Option<IntType>>
    ensures { result ≡ typed.named_type (typed.count (typed.tags_of specifiers.now)) (typed.words_of specifiers.now) }
{
    match tags_count(specifiers) {
        0 => type_of_words(specifiers),
        1 if has_no_word(specifiers) => Some(Some(IntType::Int)),
        _ => None,
    }
}

/// The type of specifiers that bring no list of enumerators. Else it fails at them with 525 where `enum tag` names no complete type, and with 511 where they
/// name no type.
#[inline(never)]
pub fn base_type(scope: &Scope, specifiers: &TypeSpecifiers) -> Result<BaseType, Refusal>
    ensures ok { IfOk result (λ b. typed.base_type scope.now specifiers.now.pos specifiers.now.list.items ≡ fine (base_type_of b)) }
    ensures err { IfErr result (λ r. IsOf r (typed.base_type scope.now specifiers.now.pos specifiers.now.list.items)) }
{
    let list = specifiers.list.as_slice();
    match tags_known(scope, specifiers.pos, list) {
        Ok(()) => {}
        Err(refusal) => return Err(refusal),
    }
    match named_type(list) {
        Some(named) => Ok(BaseType {
            named,
            constant: is_const(list),
        }),
        None => Err(Refusal::At {
            code: Code::BadTypeSpecifiers,
            pos: specifiers.pos,
        }),
    }
}
