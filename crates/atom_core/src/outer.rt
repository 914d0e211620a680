ghost use Rattle.std.specs.Prelude.{◌≡◌, ◌≤◌, true, length, MatchResult};
ghost use Rattle.atom_core.specs.Form.{is_container};
ghost use Rattle.atom_core.specs.Steps.{ArePartsThere};
ghost use Rattle.atom_core.specs.Parts.{PartsFault};
ghost use Rattle.atom_core.specs.Answer.{IsAtom, HasFault};

use crate::content::judge_own;
use crate::fault::AtomFault;
use crate::form::{is_container, lead_len};
use crate::number::u32_at;
use crate::part::{Open, Step, judge_part};

/// In how many containers an atom may stand.
pub const MOST_CONTAINERS: usize = 16;
/// How many containers may be open: the last of them has no parts.
const MOST_OPEN: usize = 17;

/// Whether bytes are an atom, and else their first fault in order of place.
///
/// It goes over the bytes once, without recursion, and takes no memory.
pub fn check(bytes: &[u8]) -> Result<(), AtomFault>
    ensures { MatchResult result (λ _. IsAtom bytes.now) (λ fault. HasFault bytes.now fault) }
{
    if bytes.len() < 8 {
        return Err(AtomFault::Short);
    }
    let end = 8 + u32_at(bytes, 0) as usize;
    if bytes.len() < end {
        return Err(AtomFault::Short);
    }
    let form = judge_own(bytes, 0)?;
    if is_container(form) {
        judge_parts(bytes, Open { form, end }, 8 + lead_len(form))?;
    }
    if end < bytes.len() {
        return Err(AtomFault::BadSize(end));
    }
    Ok(())
}

/// Judges the parts of the outer atom, and the parts of theirs.
fn judge_parts(bytes: &[u8], outer: Open, from: usize) -> Result<(), AtomFault>
    requires container { is_container outer.form ≡ true }
    requires begins { from ≤ outer.end }
    requires ends { outer.end ≤ length bytes.now }
    ensures { MatchResult result (λ _. ArePartsThere MOST_CONTAINERS bytes.now outer.form from outer.end) (λ fault. PartsFault MOST_CONTAINERS bytes.now outer.form from outer.end fault) }
{
    let mut stack = [outer; MOST_OPEN];
    let mut depth = 0;
    let mut at = from;
    loop {
        let inside = stack[depth];
        if at == inside.end {
            if depth == 0 {
                return Ok(());
            }
            depth -= 1;
            continue;
        }
        match judge_part(bytes, at, inside, MOST_CONTAINERS - depth)? {
            Step::Past(next) => at = next,
            Step::Into(container, first) => {
                depth += 1;
                stack[depth] = container;
                at = first;
            }
        }
    }
}
