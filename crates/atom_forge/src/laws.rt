ghost use Rattle.atom_forge.specs.Laws.{ContainerIsAtom, PartIsPut, BackIsBefore};

/// A container that is opened, filled with the bytes of its parts and closed is the atom of these parts.
pub fn container_is_atom()
    ensures { ContainerIsAtom }
{}

/// What a forge holds up to a mark is what it held when the mark was given, whatever piece was written since.
pub fn back_is_before()
    ensures { BackIsBefore }
{}

/// A key or a time and then an atom are the part of both.
pub fn part_is_put()
    ensures { PartIsPut }
{}
