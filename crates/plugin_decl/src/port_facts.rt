ghost use Rattle.std.specs.Prelude.{◌≡◌, ◌∷◌, ◌++◌, ◌||◌, List, [], find, take, if◌then◌else◌, Some, None};
ghost use Rattle.std.specs.List.{list_any};
ghost use Rattle.std.specs.Option.{option_copied, option_or};
ghost use Rattle.triple_store.specs.declared.term.Term.{Term};
ghost use Rattle.vocabulary.specs.declared.word.Word.{Word};
ghost use Rattle.vocabulary.specs.declared.word.Word.TheVariants.{RdfType, Lv2Name, Lv2InputPort, Lv2OutputPort, Lv2AudioPort, Lv2CvPort, Lv2ControlPort, Lv2PortProperty, Lv2ConnectionOptional, Lv2Designation, Lv2Control, Lv2Default, Lv2Minimum, Lv2Maximum, AtomAtomPort, AtomSupports, PatchMessage};
ghost use Rattle.plugin_decl.specs.Naming.{names};
ghost use Rattle.plugin_decl.specs.Objects.{objects_of};
ghost use Rattle.plugin_decl.specs.Values.{is_literal, is_untagged};
ghost use Rattle.plugin_decl.specs.PortFacts.{two_of, told, AreFacts};

use crate::first_two::FirstTwo;
use crate::naming::is_word;
use crate::values::{is_literal, is_untagged};
use triple_store::{Matching, Store, Term, Triple};
use vocabulary::Word;

/// What the rows of a port say, as far as its declaration and the rules ask. It is read in one pass over them.
#[derive(Clone, Copy)]
pub struct PortFacts<'a> {
    pub(crate) index: FirstTwo<'a>,
    pub(crate) symbol: FirstTwo<'a>,
    pub(crate) size: FirstTwo<'a>,
    pub(crate) bounds: Bounds<'a>,
    pub(crate) name: PortName<'a>,
    pub(crate) classes: Classes,
    pub(crate) uses: Uses,
}

/// The objects of `lv2:default`, `lv2:minimum` and `lv2:maximum`.
#[derive(Clone, Copy)]
pub struct Bounds<'a> {
    pub(crate) default: FirstTwo<'a>,
    pub(crate) minimum: FirstTwo<'a>,
    pub(crate) maximum: FirstTwo<'a>,
}

/// Among the objects of `lv2:name` the first without a language tag, and the first literal.
#[derive(Clone, Copy)]
pub struct PortName<'a> {
    pub(crate) untagged: Option<&'a Term>,
    pub(crate) literal: Option<&'a Term>,
}

/// The classes that it is of.
#[derive(Clone, Copy)]
pub struct Classes {
    pub(crate) input: bool,
    pub(crate) output: bool,
    pub(crate) audio: bool,
    pub(crate) cv: bool,
    pub(crate) control: bool,
    pub(crate) atom: bool,
}

/// What it is for: whether it may be left unconnected, is designated `lv2:control`, and supports `patch:Message`.
#[derive(Clone, Copy)]
pub struct Uses {
    pub(crate) optional: bool,
    pub(crate) control: bool,
    pub(crate) patch: bool,
}

/// Whether it was so, or a row has this predicate and this object.
#[tactic(auto, using(crate::proofs::PortFacts::any_told))]
fn or_told(before: bool, row: &Triple, predicate: Word, word: Word) -> bool
    ensures { result ≡ (before || list_any (names word) (told (row.now ∷ []) predicate)) }
{
    before || (is_word(predicate, &row.p) && is_word(word, &row.o))
}

/// The term that was found before, else this one if it passes.
fn or_passing<'a>(before: Option<&'a Term>, passes: bool, term: &'a Term) -> Option<&'a Term>
    ensures { option_copied result ≡ option_or (option_copied before.entry) (if passes then Some term.now else None) }
{
    match before {
        Some(before) => Some(before),
        None => { if passes { Some(term) } else { None } }
    }
}

impl<'a> Bounds<'a> {
    fn with_row(self, row: &'a Triple) -> Self
        ensures default { two_of result.default ≡ take 2 (two_of self.entry.default ++ told (row.now ∷ []) Lv2Default) }
        ensures minimum { two_of result.minimum ≡ take 2 (two_of self.entry.minimum ++ told (row.now ∷ []) Lv2Minimum) }
        ensures maximum { two_of result.maximum ≡ take 2 (two_of self.entry.maximum ++ told (row.now ∷ []) Lv2Maximum) }
    {
        Bounds {
            default: self.default.with_row(Word::Lv2Default, row),
            minimum: self.minimum.with_row(Word::Lv2Minimum, row),
            maximum: self.maximum.with_row(Word::Lv2Maximum, row),
        }
    }
}

impl<'a> PortName<'a> {
    #[tactic(auto, using(crate::proofs::PortFacts::find_told))]
    fn with_row(self, row: &'a Triple) -> Self
        ensures untagged { option_copied result.untagged ≡ option_or (option_copied self.entry.untagged) (find is_untagged (told (row.now ∷ []) Lv2Name)) }
        ensures literal { option_copied result.literal ≡ option_or (option_copied self.entry.literal) (find is_literal (told (row.now ∷ []) Lv2Name)) }
    {
        let is_name = is_word(Word::Lv2Name, &row.p);
        PortName {
            untagged: or_passing(self.untagged, is_name && is_untagged(&row.o), &row.o),
            literal: or_passing(self.literal, is_name && is_literal(&row.o), &row.o),
        }
    }
}

impl Classes {
    fn with_row(self, row: &Triple) -> Self
        ensures input { result.input ≡ (self.input || list_any (names Lv2InputPort) (told (row.now ∷ []) RdfType)) }
        ensures output { result.output ≡ (self.output || list_any (names Lv2OutputPort) (told (row.now ∷ []) RdfType)) }
        ensures audio { result.audio ≡ (self.audio || list_any (names Lv2AudioPort) (told (row.now ∷ []) RdfType)) }
        ensures cv { result.cv ≡ (self.cv || list_any (names Lv2CvPort) (told (row.now ∷ []) RdfType)) }
        ensures control { result.control ≡ (self.control || list_any (names Lv2ControlPort) (told (row.now ∷ []) RdfType)) }
        ensures atom { result.atom ≡ (self.atom || list_any (names AtomAtomPort) (told (row.now ∷ []) RdfType)) }
    {
        Classes {
            input: or_told(self.input, row, Word::RdfType, Word::Lv2InputPort),
            output: or_told(self.output, row, Word::RdfType, Word::Lv2OutputPort),
            audio: or_told(self.audio, row, Word::RdfType, Word::Lv2AudioPort),
            cv: or_told(self.cv, row, Word::RdfType, Word::Lv2CvPort),
            control: or_told(self.control, row, Word::RdfType, Word::Lv2ControlPort),
            atom: or_told(self.atom, row, Word::RdfType, Word::AtomAtomPort),
        }
    }
}

impl Uses {
    fn with_row(self, row: &Triple) -> Self
        ensures optional { result.optional ≡ (self.optional || list_any (names Lv2ConnectionOptional) (told (row.now ∷ []) Lv2PortProperty)) }
        ensures control { result.control ≡ (self.control || list_any (names Lv2Control) (told (row.now ∷ []) Lv2Designation)) }
        ensures patch { result.patch ≡ (self.patch || list_any (names PatchMessage) (told (row.now ∷ []) AtomSupports)) }
    {
        Uses {
            optional: or_told(
                self.optional,
                row,
                Word::Lv2PortProperty,
                Word::Lv2ConnectionOptional,
            ),
            control: or_told(self.control, row, Word::Lv2Designation, Word::Lv2Control),
            patch: or_told(self.patch, row, Word::AtomSupports, Word::PatchMessage),
        }
    }
}

impl<'a> PortFacts<'a> {
    /// The facts of a port without rows.
    fn none() -> Self
        ensures { AreFacts (λ word. []) result }
    {
        PortFacts {
            index: FirstTwo::Neither,
            symbol: FirstTwo::Neither,
            size: FirstTwo::Neither,
            bounds: Bounds {
                default: FirstTwo::Neither,
                minimum: FirstTwo::Neither,
                maximum: FirstTwo::Neither,
            },
            name: PortName {
                untagged: None,
                literal: None,
            },
            classes: Classes {
                input: false,
                output: false,
                audio: false,
                cv: false,
                control: false,
                atom: false,
            },
            uses: Uses {
                optional: false,
                control: false,
                patch: false,
            },
        }
    }

    /// With one row more.
    fn with_row(self, row: &'a Triple) -> Self
        ensures { (objects : Word → List Term) → AreFacts objects self.entry → AreFacts (λ word. objects word ++ told (row.now ∷ []) word) result }
    {
        let index = self.index.with_row(Word::Lv2Index, row);
        let symbol = self.symbol.with_row(Word::Lv2Symbol, row);
        let size = self.size.with_row(Word::RszMinimumSize, row);
        let bounds = self.bounds.with_row(row);
        let name = self.name.with_row(row);
        let classes = self.classes.with_row(row);
        let uses = self.uses.with_row(row);
        PortFacts {
            index,
            symbol,
            size,
            bounds,
            name,
            classes,
            uses,
        }
    }

    /// With these rows, where there was none.
    fn with_rows(self, rows: Matching<'a>) -> Self
        requires { AreFacts (λ word. []) self }
        ensures { AreFacts (told rows.entry) result }
    {
        let mut facts = self;
        for row in rows {
            facts = facts.with_row(row);
        }
        facts
    }

    /// The facts of a port, by one pass over its rows.
    pub(crate) fn read(store: &'a Store, port: &'a Term) -> Self
        ensures { AreFacts (objects_of store.now port.now) result }
    {
        PortFacts::none().with_rows(store.matching(Some(port), None, None))
    }
}
