ghost use Rattle.std.specs.Prelude.{◌≡◌, ◌<◌, ℕ};
ghost use Rattle.replay_core.specs.PlainRecord.{plain_record};
ghost use Rattle.replay_core.specs.Threading.{IsOneAtATime, calls_on, whole_life};

/// A law, with nothing to run: the record of every whole run keeps LV2's threading classes.
pub fn keeps_threading_classes(insts: u32, blocks: u32)
    ensures one_at_a_time { IsOneAtATime (plain_record insts blocks) }
    ensures each_in_order { (i : ℕ) → i < insts → calls_on i (plain_record insts blocks) ≡ whole_life blocks }
{}
