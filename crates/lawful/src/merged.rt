ghost use Rattle.lawful.specs.Merged.{RingsKeepRules, LooksKeepRules};

/// Where each ring keeps its rules in the list of all entries by ticket, each entry keeps the rules of a record on takes, on rings that are
/// full and on sends. Where besides the beat keeps its rules, and the senders are those of the session, each entry keeps the rule on looks: a
/// look shows at least what the sender has gone on from, and nothing that comes after the looker's next entry.
pub fn keeps_rings()
    ensures rings { RingsKeepRules }
    ensures looks { LooksKeepRules }
{}
