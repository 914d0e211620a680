use lv_base::Text;
use triple_store::Term;

/// What the next term that is read in full stands for.
#[derive(Drop)]
pub enum Hole {
    /// The subject of a statement.
    Subject,
    /// The subject of a statement, which a property list in brackets makes.
    ListedSubject,
    /// An object of a subject and a predicate.
    Object { subject: Term, predicate: Term },
    /// The item of a collection whose node has the number `node`; the collection's first node has the number `first`.
    Item { first: u32, node: u32 },
}

/// How far a collection has been read.
#[derive(Clone, Copy)]
pub enum Chain {
    /// No item so far.
    Empty,
    /// The numbers of its first node and of its last one so far.
    Nodes { first: u32, last: u32 },
}

/// What has to come next.
#[derive(Drop)]
pub enum Expected {
    /// A statement, or the end.
    Statement,
    /// The prefix of a directive, which ends with a dot or without one.
    Prefix { dot: bool },
    /// The IRI for this prefix.
    Namespace { dot: bool, prefix: Text },
    /// The IRI of a base.
    Base { dot: bool },
    /// The dot of a directive.
    DirectiveDot,
    /// A verb.
    Verb { subject: Term },
    /// What may follow a `;`.
    AfterSemicolon { subject: Term },
    /// What may follow an object.
    AfterObject { subject: Term, predicate: Term },
    /// What may follow a property list in brackets that is a subject.
    AfterListed { subject: Term },
    /// An object.
    Object { subject: Term, predicate: Term },
    /// An item of a collection, or its end.
    Item { chain: Chain },
    /// A verb in brackets that were opened for this node, or their end.
    Property { node: u32 },
    /// What may follow a string that fills this hole: a language tag, `^^`, or the next token of the sentence. The string began at `at`.
    Suffix { text: Text, at: usize, hole: Hole },
    /// The datatype of a string that fills this hole.
    Datatype { text: Text, hole: Hole },
}
