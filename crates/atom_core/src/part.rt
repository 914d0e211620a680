ghost use Rattle.std.specs.Prelude.{◌≡◌, ◌≤◌, ◌<◌, ◌+◌, ◌^◌, true, length, MatchResult};
ghost use Rattle.atom_core.specs.Form.{is_container};
ghost use Rattle.atom_core.specs.Place.{padded};
ghost use Rattle.atom_core.specs.Parts.{PartFault};
ghost use Rattle.atom_core.specs.Steps.{IsStep};

use crate::content::{judge_own, judge_zeros};
use crate::fault::AtomFault;
use crate::form::{Form, is_container, lead_len};
use crate::number::u32_at;

/// A container that is open: its form, and where it ends.
#[derive(Clone, Copy)]
pub struct Open {
    pub form: Form,
    pub end: usize,
}

/// What a part turned out to be.
#[derive(Clone, Copy)]
pub enum Step {
    /// It is whole, and the next place is here.
    Past(usize),
    /// Its atom holds atoms: the container, and where its parts begin.
    Into(Open, usize),
}

/// A number of bytes up to the next multiple of 8.
pub fn padded(size: usize) -> usize
    requires { size < 2 ^ 33 }
    ensures { result ≡ padded size }
{
    (size + 7) / 8 * 8
}

/// Judges the part that begins at a place of a container, up to the parts of its own atom. Within it may stand `levels` containers.
pub fn judge_part(bytes: &[u8], at: usize, inside: Open, levels: usize) -> Result<Step, AtomFault>
    requires container { is_container inside.form ≡ true }
    requires begins { at < inside.end }
    requires ends { inside.end ≤ length bytes.now }
    ensures { MatchResult result (λ step. IsStep levels bytes.now inside.form at inside.end step) (λ fault. PartFault levels bytes.now inside.form at inside.end fault) }
{
    let lead = lead_len(inside.form);
    if inside.end - at < lead + 8 {
        return Err(AtomFault::BadSize(at));
    }
    if levels == 0 {
        return Err(AtomFault::Depth);
    }
    let header = at + lead;
    let size = u32_at(bytes, header) as usize;
    let next = header + padded(8 + size);
    if inside.end < next {
        return Err(AtomFault::BadSize(header));
    }
    let form = judge_own(bytes, header)?;
    let end = header + 8 + size;
    if is_container(form) {
        return Ok(Step::Into(Open { form, end }, header + 8 + lead_len(form)));
    }
    judge_zeros(bytes, end, next)?;
    Ok(Step::Past(next))
}
