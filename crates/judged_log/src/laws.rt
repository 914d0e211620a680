ghost use Rattle.judged_log.specs.Followed.{FollowedIsLawful};

/// A record that was followed to its end is lawful, but for its values.
pub fn followed_is_lawful()
    ensures { FollowedIsLawful }
{}
