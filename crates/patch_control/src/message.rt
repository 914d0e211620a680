use atom_core::AtomView;
use std::error::Error;
use std::fmt;

/// What an object says as a message of the patch extension. A property or a subject of 0 is absent.
#[derive(Clone, Copy)]
pub enum Message<'a> {
    /// patch:Get asks for a property, or for all.
    Get {
        property: u32,
        subject: u32,
    },
    /// patch:Set gives a property a value.
    Set {
        property: u32,
        subject: u32,
        value: AtomView<'a>,
    },
    /// patch:Put gives the properties of its body, which is an Object, their values.
    Put {
        subject: u32,
        body: AtomView<'a>,
    },
    /// An object of another type.
    Other,
}

/// Why an atom is no message.
#[derive(Clone, Copy, Debug, PartialEq, Eq)]
pub enum PatchFault {
    /// The atom isn't an Object.
    NotPatch,
    /// A Set has no patch:property that is a URID other than 0.
    NoProperty,
    /// A Set has no patch:value.
    NoValue,
    /// A Put has no patch:body that is an Object.
    NoBody,
    /// One of the four keys stands twice in a Get, a Set or a Put.
    SameKey,
}

impl fmt::Display for PatchFault {
    fn fmt<W: fmt::Write>(&self, f: &mut fmt::Formatter<W>) -> fmt::Result {
        f.write_str(match self {
            PatchFault::NotPatch => "no object",
            PatchFault::NoProperty => "no property",
            PatchFault::NoValue => "no value",
            PatchFault::NoBody => "no body",
            PatchFault::SameKey => "one key stands twice",
        })
    }
}

impl Error for PatchFault {}
