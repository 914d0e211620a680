use crate::reader::Reader;
use crate::token_fault::TokenFault;
use lv_base::{NoMemory, Text};
use triple_store::Term;
use turtle_document::{Chain, Expected, Hole};

const MOST_OPEN: usize = 256;

impl Reader {
    ghost use Rattle.std.specs.Prelude.{◌≡◌, [], length, ◌^◌, ◌<◌};
    ghost use Rattle.triple_store.specs.declared.term.Term.TheVariants as terms;
    ghost use Rattle.turtle_document.specs.Vocabulary.{xsd_string};
    ghost use Rattle.turtle_read.specs.Moves.{filled, closed, add};
    ghost use Rattle.turtle_document.specs.Meaning as meaning;
    ghost use Rattle.turtle_document.specs.Meaning.{may_open};
    ghost use Rattle.turtle_read.specs.Faults.{Follows, Leads, Gives};
    ghost use Rattle.turtle_document.specs.Below.{IsBelow, HoleBelow};
    ghost use Rattle.turtle_read.specs.Readers.{config_of, inside, kept};

    // Fills a hole with a term whose last token stands at `at`.
    #[inline(always)]
    pub(crate) fn fill(&mut self, hole: Hole, at: usize, term: Term) -> Result<(), TokenFault>
        requires hole { HoleBelow (2 ^ 31) hole }
        requires term { IsBelow (2 ^ 31) term }
        ensures moves { Leads result (config_of self.new) (inside self.new) (filled hole at term self.old.outer (inside self.old)) }
        ensures kept { kept self.new ≡ kept self.old }
    {
        match hole {
            Hole::Subject => {
                self.expect(Expected::Verb { subject: term });
                Ok(())
            }
            Hole::ListedSubject => {
                self.expect(Expected::AfterListed { subject: term });
                Ok(())
            }
            Hole::Object { subject, predicate } => self.add_object(subject, predicate, at, term),
            Hole::Item { first, node } => self.add_item(first, node, at, term),
        }
    }

    // Fills a hole with a string of a datatype.
    pub(crate) fn fill_typed(
        &mut self,
        hole: Hole,
        at: usize,
        text: Text,
        datatype: Text,
    ) -> Result<(), TokenFault>
        requires hole { HoleBelow (2 ^ 31) hole }
        ensures moves { Leads result (config_of self.new) (inside self.new) (filled hole at (terms.Literal text datatype []) self.old.outer (inside self.old)) }
        ensures kept { kept self.new ≡ kept self.old }
    {
        let term = self.words.typed(text, datatype)?;
        self.fill(hole, at, term)
    }

    // Fills a hole with a string alone.
    pub(crate) fn fill_plain(&mut self, hole: Hole, at: usize, text: Text) -> Result<(), TokenFault>
        requires hole { HoleBelow (2 ^ 31) hole }
        ensures moves { Leads result (config_of self.new) (inside self.new) (filled hole at (terms.Literal text xsd_string []) self.old.outer (inside self.old)) }
        ensures kept { kept self.new ≡ kept self.old }
    {
        let term = self.words.plain(text)?;
        self.fill(hole, at, term)
    }

    #[inline(always)]
    fn add_object(
        &mut self,
        subject: Term,
        predicate: Term,
        at: usize,
        term: Term,
    ) -> Result<(), TokenFault>
        requires subject { IsBelow (2 ^ 31) subject }
        requires predicate { IsBelow (2 ^ 31) predicate }
        requires term { IsBelow (2 ^ 31) term }
        ensures moves { Leads result (config_of self.new) (inside self.new) (filled (Hole.Object subject predicate) at term self.old.outer (inside self.old)) }
        ensures kept { kept self.new ≡ kept self.old }
    {
        self.add_of(&subject, &predicate, at, term)?;
        self.expect(Expected::AfterObject { subject, predicate });
        Ok(())
    }

    // Adds a triple whose subject and predicate are those of the next one too.
    #[inline(always)]
    fn add_of(
        &mut self,
        subject: &Term,
        predicate: &Term,
        at: usize,
        term: Term,
    ) -> Result<(), TokenFault>
        requires subject { IsBelow (2 ^ 31) subject.now }
        requires predicate { IsBelow (2 ^ 31) predicate.now }
        requires term { IsBelow (2 ^ 31) term }
        ensures value { Gives (λ _. inside self.new) result (add at subject.now predicate.now term (inside self.old)) }
        ensures same { config_of self.new ≡ config_of self.old }
        ensures kept { kept self.new ≡ kept self.old }
    {
        let s = subject.clone()?;
        let p = predicate.clone()?;
        self.environment.add(at, s, p, term)
    }

    fn add_item(&mut self, first: u32, node: u32, at: usize, term: Term) -> Result<(), TokenFault>
        requires node { node < 2 ^ 31 }
        requires term { IsBelow (2 ^ 31) term }
        ensures moves { Leads result (config_of self.new) (inside self.new) (filled (Hole.Item first node) at term self.old.outer (inside self.old)) }
        ensures kept { kept self.new ≡ kept self.old }
    {
        let p = self.words.first()?;
        self.environment.add(at, Term::Blank(node), p, term)?;
        self.expect(Expected::Item {
            chain: Chain::Nodes { first, last: node },
        });
        Ok(())
    }

    // Fills the innermost hole.
    pub(crate) fn close(&mut self, at: usize, term: Term) -> Result<(), TokenFault>
        requires term { IsBelow (2 ^ 31) term }
        ensures moves { Follows at result (config_of self.new) (inside self.new) (closed at term self.old.outer (inside self.old)) }
        ensures kept { kept self.new ≡ kept self.old }
    {
        match self.outer.pop() {
            Some(hole) => self.fill(hole, at, term),
            None => Err(TokenFault::Syntax(at)),
        }
    }

    // One more bracket may open at a place.
    pub(crate) fn may_open(&self, at: usize) -> Result<(), TokenFault>
        ensures { Gives (λ _. inside self.now) result (may_open at (length self.now.outer) (inside self.now)) }
    {
        if self.outer.len() < MOST_OPEN {
            Ok(())
        } else {
            Err(TokenFault::Depth(at))
        }
    }
}
