ghost use Rattle.std.specs.Prelude.{◌≡◌, [], IfOk};
ghost use Rattle.std.specs.Option.{option_copied, option_map};
ghost use Rattle.triple_store.specs.declared.term.Term.TheVariants as terms;
ghost use Rattle.turtle_document.specs.Machine.{as_shorthand};
ghost use Rattle.turtle_document.specs.Vocabulary as words;
ghost use Rattle.vocabulary.specs.Words.{iri_of};
ghost use Rattle.turtle_grammar.specs.Tree.Shorthand.{integer as integers, decimal as decimals, double_number, true_word};

use lv_base::{NoMemory, Text};
use std::alloc::Global;
use std::marker::Model;
use triple_store::Term;
use turtle_grammar::TokenKind;
use vocabulary::Word;

/// The IRIs that short forms stand for, made once for a document. Contracts see nothing of them but what the methods answer.
#[derive(Drop)]
pub struct ShortForms {
    kind: Text,
    lists: Lists,
    strings: Strings,
    numbers: Numbers,
}

// The IRIs of collections.
#[derive(Drop)]
struct Lists {
    first: Text,
    rest: Text,
    nil: Text,
}

// The datatypes of strings, and the language tag of those without one.
#[derive(Drop)]
struct Strings {
    tagged: Text,
    string: Text,
    no_tag: Text,
}

// The datatypes of numbers and truth values.
#[derive(Drop)]
struct Numbers {
    integer: Text,
    decimal: Text,
    double: Text,
    boolean: Text,
}

fn text(alloc: Global, word: Word) -> Result<Text, NoMemory>
    ensures { IfOk result (λ iri. iri ≡ iri_of word) }
{
    Text::from_str(alloc, word.iri())
}

impl Lists {
    fn new(alloc: Global) -> Result<Self, NoMemory>
        ensures first { IfOk result (λ lists. lists.first ≡ words.rdf_first) }
        ensures rest { IfOk result (λ lists. lists.rest ≡ words.rdf_rest) }
        ensures nil { IfOk result (λ lists. lists.nil ≡ words.rdf_nil) }
    {
        Ok(Lists {
            first: text(alloc, Word::RdfFirst)?,
            rest: text(alloc, Word::RdfRest)?,
            nil: text(alloc, Word::RdfNil)?,
        })
    }
}

impl Strings {
    fn new(alloc: Global) -> Result<Self, NoMemory>
        ensures tagged { IfOk result (λ strings. strings.tagged ≡ words.rdf_lang_string) }
        ensures string { IfOk result (λ strings. strings.string ≡ words.xsd_string) }
        ensures no_tag { IfOk result (λ strings. strings.no_tag ≡ []) }
    {
        Ok(Strings {
            tagged: text(alloc, Word::RdfLangString)?,
            string: text(alloc, Word::XsdString)?,
            no_tag: Text::from_str(alloc, "")?,
        })
    }
}

impl Numbers {
    fn new(alloc: Global) -> Result<Self, NoMemory>
        ensures integer { IfOk result (λ numbers. numbers.integer ≡ words.datatype_of integers) }
        ensures decimal { IfOk result (λ numbers. numbers.decimal ≡ words.datatype_of decimals) }
        ensures double { IfOk result (λ numbers. numbers.double ≡ words.datatype_of double_number) }
        ensures boolean { IfOk result (λ numbers. numbers.boolean ≡ words.datatype_of true_word) }
    {
        Ok(Numbers {
            integer: text(alloc, Word::XsdInteger)?,
            decimal: text(alloc, Word::XsdDecimal)?,
            double: text(alloc, Word::XsdDouble)?,
            boolean: text(alloc, Word::XsdBoolean)?,
        })
    }
}

impl Model for ShortForms {
    ghost use Rattle.std.specs.Prelude.{ℕ};
    ghost use Rattle.turtle_read.specs.ShortForms.{AreShortForms};

    ghost Value = { ℕ };

    ghost view = { λ _. 0 };

    ghost invariant = { λ v. AreShortForms v.kind v.lists.first v.lists.rest v.lists.nil v.strings.tagged v.strings.string v.numbers.integer v.numbers.decimal v.numbers.double v.numbers.boolean v.strings.no_tag };
}

impl ShortForms {
    pub fn new(alloc: Global) -> Result<Self, NoMemory> {
        let kind = text(alloc, Word::RdfType)?;
        let lists = Lists::new(alloc)?;
        let strings = Strings::new(alloc)?;
        let numbers = Numbers::new(alloc)?;
        Ok(ShortForms {
            kind,
            lists,
            strings,
            numbers,
        })
    }

    /// rdf:type
    pub fn kind(&self) -> Result<Term, NoMemory>
        ensures { IfOk result (λ term. term ≡ terms.Iri words.rdf_type) }
    {
        Ok(Term::Iri(self.kind.clone()?))
    }

    /// rdf:first
    pub fn first(&self) -> Result<Term, NoMemory>
        ensures { IfOk result (λ term. term ≡ terms.Iri words.rdf_first) }
    {
        Ok(Term::Iri(self.lists.first.clone()?))
    }

    /// rdf:rest
    pub fn rest(&self) -> Result<Term, NoMemory>
        ensures { IfOk result (λ term. term ≡ terms.Iri words.rdf_rest) }
    {
        Ok(Term::Iri(self.lists.rest.clone()?))
    }

    /// rdf:nil
    pub fn nil(&self) -> Result<Term, NoMemory>
        ensures { IfOk result (λ term. term ≡ terms.Iri words.rdf_nil) }
    {
        Ok(Term::Iri(self.lists.nil.clone()?))
    }

    /// A string.
    pub fn plain(&self, text: Text) -> Result<Term, NoMemory>
        ensures { IfOk result (λ term. term ≡ terms.Literal text words.xsd_string []) }
    {
        let datatype = self.strings.string.clone()?;
        self.typed(text, datatype)
    }

    /// A string with a language tag.
    pub fn tagged(&self, text: Text, lang: Text) -> Result<Term, NoMemory>
        ensures { IfOk result (λ term. term ≡ terms.Literal text words.rdf_lang_string lang) }
    {
        let datatype = self.strings.tagged.clone()?;
        Ok(Term::Literal {
            text,
            datatype,
            lang,
        })
    }

    /// A literal with a datatype.
    pub fn typed(&self, text: Text, datatype: Text) -> Result<Term, NoMemory>
        ensures { IfOk result (λ term. term ≡ terms.Literal text datatype []) }
    {
        let lang = self.strings.no_tag.clone()?;
        Ok(Term::Literal {
            text,
            datatype,
            lang,
        })
    }

    /// The datatype of a number or of a truth value, `None` where a token is neither.
    pub fn datatype_of(&self, kind: TokenKind) -> Option<&Text>
        ensures { option_copied result ≡ option_map words.datatype_of (as_shorthand kind) }
    {
        match kind {
            TokenKind::Integer => Some(&self.numbers.integer),
            TokenKind::Decimal => Some(&self.numbers.decimal),
            TokenKind::Double => Some(&self.numbers.double),
            TokenKind::True | TokenKind::False => Some(&self.numbers.boolean),
            _ => None,
        }
    }
}
