use atom_core::read;
use lv_base::{Bytes, Fixed, NoMemory};
use patch_control::{Message, PatchFault, read_message};
use std::alloc::Global;

/// A patch:property of 26.
const PROPERTY: [u8; 24] = [
    18, 0, 0, 0, 0, 0, 0, 0, 4, 0, 0, 0, 4, 0, 0, 0, 26, 0, 0, 0, 0, 0, 0, 0,
];

/// A patch:property of 0.
const NO_PROPERTY: [u8; 24] = [
    18, 0, 0, 0, 0, 0, 0, 0, 4, 0, 0, 0, 4, 0, 0, 0, 0, 0, 0, 0, 0, 0, 0, 0,
];

/// A patch:property that is the Int 26.
const INT_PROPERTY: [u8; 24] = [
    18, 0, 0, 0, 0, 0, 0, 0, 4, 0, 0, 0, 1, 0, 0, 0, 26, 0, 0, 0, 0, 0, 0, 0,
];

/// A patch:value of 0.25.
const VALUE: [u8; 24] = [
    19, 0, 0, 0, 0, 0, 0, 0, 8, 0, 0, 0, 14, 0, 0, 0, 0, 0, 64, 0, 0, 0, 0, 0,
];

/// A patch:subject of 30.
const SUBJECT: [u8; 24] = [
    20, 0, 0, 0, 0, 0, 0, 0, 4, 0, 0, 0, 4, 0, 0, 0, 30, 0, 0, 0, 0, 0, 0, 0,
];

/// A patch:subject of 0.
const NO_SUBJECT: [u8; 24] = [
    20, 0, 0, 0, 0, 0, 0, 0, 4, 0, 0, 0, 4, 0, 0, 0, 0, 0, 0, 0, 0, 0, 0, 0,
];

/// A patch:body that is an Object with no properties.
const BODY: [u8; 24] = [
    21, 0, 0, 0, 0, 0, 0, 0, 8, 0, 0, 0, 9, 0, 0, 0, 0, 0, 0, 0, 0, 0, 0, 0,
];

/// A patch:body that is the Int 7.
const INT_BODY: [u8; 24] = [
    21, 0, 0, 0, 0, 0, 0, 0, 4, 0, 0, 0, 1, 0, 0, 0, 7, 0, 0, 0, 0, 0, 0, 0,
];

/// An Int under a key that messages don't know.
const FURTHER: [u8; 24] = [
    40, 0, 0, 0, 0, 0, 0, 0, 4, 0, 0, 0, 1, 0, 0, 0, 7, 0, 0, 0, 0, 0, 0, 0,
];

/// The property that a letter names.
fn property(letter: u8) -> [u8; 24] {
    match letter {
        b'p' => PROPERTY,
        b'0' => NO_PROPERTY,
        b'i' => INT_PROPERTY,
        b'v' => VALUE,
        b's' => SUBJECT,
        b'n' => NO_SUBJECT,
        b'b' => BODY,
        b'j' => INT_BODY,
        _ => FURTHER,
    }
}

/// An object of a type, with the properties that some letters name.
fn object(alloc: Global, kind: u8, letters: &[u8]) -> Result<Bytes, NoMemory> {
    let size = 8 + 24 * (letters.len() % 8) as u8;
    let mut object = Bytes::from_slice(
        alloc,
        &[size, 0, 0, 0, 9, 0, 0, 0, 0, 0, 0, 0, kind, 0, 0, 0],
    )?;
    for letter in letters {
        object.push_all(&property(*letter))?;
    }
    Ok(object)
}

/// Why such an object is no message, if it is none.
pub fn fault_of(alloc: Global, kind: u8, letters: &[u8]) -> Result<Option<PatchFault>, NoMemory> {
    let object = object(alloc, kind, letters)?;
    let Ok(view) = read(object.as_slice()) else {
        return Ok(None);
    };
    Ok(read_message(view).err())
}

/// Whether it is a patch:Get of a property, with a subject.
pub fn is_get(
    alloc: Global,
    letters: &[u8],
    property: u32,
    subject: u32,
) -> Result<bool, NoMemory> {
    let object = object(alloc, 15, letters)?;
    let Ok(view) = read(object.as_slice()) else {
        return Ok(false);
    };
    match read_message(view) {
        Ok(
            Message::Get {
                property: found,
                subject: about,
            },
        ) => Ok((found, about) == (property, subject)),
        _ => Ok(false),
    }
}

/// Whether bytes are a patch:Set of the property 26 to 0.25, with a subject.
pub fn sets(bytes: &[u8], subject: u32) -> bool {
    let Ok(view) = read(bytes) else {
        return false;
    };
    match read_message(view) {
        Ok(
            Message::Set {
                property,
                subject: about,
                value,
            },
        ) => (property, about) == (26, subject) && value.fixed() == Some(Fixed(1 << 22)),
        _ => false,
    }
}

/// Whether such an object is that.
pub fn is_set(alloc: Global, letters: &[u8], subject: u32) -> Result<bool, NoMemory> {
    let object = object(alloc, 16, letters)?;
    Ok(sets(object.as_slice(), subject))
}

/// Whether it is a patch:Put of a body with no properties, with a subject.
pub fn is_put(alloc: Global, letters: &[u8], subject: u32) -> Result<bool, NoMemory> {
    let object = object(alloc, 17, letters)?;
    let Ok(view) = read(object.as_slice()) else {
        return Ok(false);
    };
    match read_message(view) {
        Ok(
            Message::Put {
                subject: about,
                body,
            },
        ) => Ok(about == subject && body.body() == [0; 8].as_slice()),
        _ => Ok(false),
    }
}

/// Whether an object of a type is another than a message.
pub fn is_other(alloc: Global, kind: u8, letters: &[u8]) -> Result<bool, NoMemory> {
    let object = object(alloc, kind, letters)?;
    let Ok(view) = read(object.as_slice()) else {
        return Ok(false);
    };
    Ok(matches!(read_message(view), Ok(Message::Other)))
}
