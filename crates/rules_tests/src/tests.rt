ghost use Rattle.std.specs.Prelude.{◌≡◌, ◌<◌, ◌≤◌, ◌↔◌, ◌∷◌, [], length, IsTrue, All};
ghost use Rattle.record_law.specs.declared.shape.ShapeAction.{ShapeAction};
ghost use Rattle.record_law.specs.declared.shape.ShapeInst.{ShapeInst};
ghost use Rattle.record_terms.specs.Session.{IsSession};

use lv_base::{Items, NoMemory};
use record_law::{ActionKind, Broken, Shape, ShapeAction, ShapeInst};
use record_rules::Counts;
use record_terms::Message;
use std::alloc::Global;
use std::test::Fail;
use step_record::{Actor, Call, Entry, Ring, read};

/// A job in a block, and a restore with both parts of the instance.
const RECORD: &[u8] = b"lv2fx-record 1
C begin make 0
C end make 0
C begin activate 0
C end activate 0
A block 0
A look CA 0
A begin run 0
A send J0
A end run 0
W1 take J0
W1 begin work 0
W1 send R0
W1 end work 0
A look R0 1
A take R0
A begin response 0
A end response 0
A begin end_run 0
A end end_run 0
A done 0
C beat 1
C send CA
A block 1
A look CA 1
A take CA
A send AC
A done 1
A stop
C take AC
C send CW1
W1 take CW1
W1 send WC1
C take WC1
C begin restore 0
C end restore 0
C send CW1
C send CA
C beat 3
C send CW1
W1 take CW1
W1 take CW1
W1 stop
C join
C begin deactivate 0
C end deactivate 0
C begin cleanup 0
C end cleanup 0
end
";

/// What each of its lines is about: a letter for each.
const ABOUT: &[u8] = b".......b.b.b..b......l..lp..pllppr.gg.cgc.......";

/// An instance with a worker, two blocks, two cells, a restore at block 1.
fn session(alloc: Global) -> Result<Shape, NoMemory> {
    let mut insts = Items::new(alloc);
    insts.push(ShapeInst {
        worker: 1,
        works: true,
        replies: false,
    })?;
    let mut actions = Items::new(alloc);
    actions.push(ShapeAction {
        block: 1,
        kind: ActionKind::Restore,
        inst: 0,
    })?;
    let plan = Items::from_slice(alloc, &[0])?;
    Ok(Shape {
        blocks: 2,
        cells: 2,
        workers: 1,
        plan,
        insts,
        actions,
    })
}

// Whether a session is one, of an instance that is in the plan, whose records can be judged.
fn is_session(shape: &Shape) -> bool
    ensures { IsTrue result → IsSession shape.now }
{
    keeps_limits(shape)
        && are_owned(shape.insts.as_slice(), shape.workers)
        && are_on_insts(shape.actions.as_slice(), 1)
        && is_first(shape.plan.as_slice())
}

fn keeps_limits(shape: &Shape) -> bool
    ensures { IsTrue result → (length shape.now.insts ≡ 1) × (shape.now.workers ≡ 1) × (shape.now.cells ≡ 2) × (shape.now.blocks ≡ 2) × (length shape.now.actions ≡ 1) }
{
    shape.insts.len() == 1
        && shape.workers == 1
        && shape.cells == 2
        && shape.blocks == 2
        && shape.actions.len() == 1
}

fn are_owned(insts: &[ShapeInst], workers: u32) -> bool
    ensures { IsTrue result ↔ All (λ (it : ShapeInst). (0 < it.worker) × (it.worker ≤ workers)) insts.now }
{
    insts.iter().all(|it| 0 < it.worker && it.worker <= workers)
}

fn are_on_insts(actions: &[ShapeAction], count: usize) -> bool
    ensures { IsTrue result ↔ All (λ (it : ShapeAction). it.inst < count) actions.now }
{
    actions.iter().all(|it| (it.inst as usize) < count)
}

fn is_first(plan: &[u32]) -> bool
    ensures { IsTrue result → plan.now ≡ 0 ∷ [] }
{
    plan.len() == 1 && plan[0] == 0
}

fn message(letter: u8) -> Option<Message> {
    match letter {
        b'.' => Some(Message::Nothing),
        b'b' => Some(Message::Body),
        b'l' => Some(Message::Lend(0)),
        b'p' => Some(Message::Part(0)),
        b'g' => Some(Message::Give(0)),
        b'r' => Some(Message::Restore { action: 0, inst: 0 }),
        b'c' => Some(Message::Close),
        _ => None,
    }
}

/// An entry that comes before a line of the record, and what it is about.
#[derive(Clone, Copy)]
struct Extra {
    line: usize,
    entry: Entry,
    about: u8,
}

/// The first broken rule, and its line, where some entries come before lines of the worked record.
fn first_broken(alloc: Global, extras: &[Extra]) -> Result<Option<(usize, Broken)>, Fail> {
    let shape = session(alloc)?;
    let steps = read(alloc, RECORD)?;
    if !is_session(&shape) {
        return Ok(None);
    }
    let mut judge = Judge {
        counts: Counts::new(alloc, &shape)?,
        line: 1,
    };
    for (place, (entry, about)) in steps.entries().iter().zip(ABOUT).enumerate() {
        for extra in extras {
            if extra.line == place + 2 {
                if let Some(broken) = judge.next(&shape, extra.entry, extra.about) {
                    return Ok(Some((judge.line, broken)));
                }
            }
        }
        if let Some(broken) = judge.next(&shape, *entry, *about) {
            return Ok(Some((judge.line, broken)));
        }
    }
    Ok(None)
}

#[derive(Drop)]
struct Judge {
    counts: Counts,
    line: usize,
}

impl Judge {
    ghost use Rattle.record_terms.specs.Session.{IsSession};

    fn next(&mut self, shape: &Shape, entry: Entry, about: u8) -> Option<Broken>
        requires { IsSession shape.now }
    {
        self.line = self.line.saturating_add(1);
        self.counts.judge(shape, entry, message(about))
    }
}

fn one(line: usize, entry: Entry, about: u8) -> [Extra; 1] {
    [Extra { line, entry, about }]
}

#[test]
fn worked_record_keeps_the_rules(rt: HostRuntime) -> Result<(), Fail> {
    assert_eq!(rt; first_broken(rt.alloc(), &[])?, None);
    Ok(())
}

#[test]
fn looks_show_what_is_there(rt: HostRuntime) -> Result<(), Fail> {
    let less = one(15, Entry::look(Actor::Audio, Ring::Responses(0), 0), b'.');
    let more = one(15, Entry::look(Actor::Audio, Ring::Responses(0), 2), b'.');
    let early = one(22, Entry::beat(2), b'.');
    assert_eq!(rt; first_broken(rt.alloc(), &less)?, Some((15, Broken::Look)));
    assert_eq!(rt; first_broken(rt.alloc(), &more)?, Some((16, Broken::Look)));
    assert_eq!(rt; first_broken(rt.alloc(), &early)?, Some((23, Broken::Look)));
    Ok(())
}

#[test]
fn forms_and_order_come_first(rt: HostRuntime) -> Result<(), Fail> {
    let absent = one(
        32,
        Entry::take(Actor::Worker(2), Ring::ControlToWorker(1)),
        b'.',
    );
    let refused = one(24, Entry::block(2), b'-');
    let ended = one(48, Entry::last(), b'-');
    assert_eq!(rt;
        first_broken(rt.alloc(), &absent)?,
        Some((32, Broken::Syntax))
    );
    assert_eq!(rt;
        first_broken(rt.alloc(), &refused)?,
        Some((24, Broken::Order))
    );
    assert_eq!(rt; first_broken(rt.alloc(), &ended)?, Some((48, Broken::End)));
    Ok(())
}

#[test]
fn rings_have_messages_and_room(rt: HostRuntime) -> Result<(), Fail> {
    let send = Extra {
        line: 9,
        entry: Entry::send(Actor::Audio, Ring::Jobs(0)),
        about: b'b',
    };
    let taken = one(9, Entry::take(Actor::Worker(1), Ring::Jobs(0)), b'b');
    let full = one(10, Entry::full(Actor::Audio, Ring::Jobs(0)), b'b');
    assert_eq!(rt; first_broken(rt.alloc(), &taken)?, Some((9, Broken::Ring)));
    assert_eq!(rt; first_broken(rt.alloc(), &full)?, Some((10, Broken::Full)));
    assert_eq!(rt;
        first_broken(rt.alloc(), &[send; 5])?,
        Some((13, Broken::Room))
    );
    Ok(())
}

#[test]
fn calls_need_their_parts_and_keep_classes(rt: HostRuntime) -> Result<(), Fail> {
    let owned = one(7, Entry::begin(Actor::Control, Call::Restore, 0), b'.');
    let twice = one(9, Entry::begin(Actor::Audio, Call::Run, 0), b'.');
    // a run may begin beside a work; the response then begins while it lasts
    let beside = one(13, Entry::begin(Actor::Audio, Call::Run, 0), b'.');
    assert_eq!(rt;
        first_broken(rt.alloc(), &owned)?,
        Some((7, Broken::Holder))
    );
    assert_eq!(rt; first_broken(rt.alloc(), &twice)?, Some((9, Broken::Class)));
    assert_eq!(rt;
        first_broken(rt.alloc(), &beside)?,
        Some((18, Broken::Class))
    );
    Ok(())
}
