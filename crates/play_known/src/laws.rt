ghost use Rattle.play_known.specs.Keeping.{ValuesGoOn, BothAreAll};
ghost use Rattle.play_known.specs.Laws.{KnownGoesOn, CallIsKnown, CallKeepsValues};
ghost use Rattle.play_known.specs.Rings.{TakesStaySent};
ghost use Rattle.play_known.specs.Telling.{TakesBringTheOldest, NoticesAreTold, NoticesKeepValues, PlainHaveNoValue, OthersKeepValues};

/// Each entry changes what is known in one way.
pub fn known_goes_on<F, B>()
    ensures { KnownGoesOn F B }
{}

/// No ring gives more messages than were sent on it.
pub fn takes_stay_sent()
    ensures { TakesStaySent }
{}

/// What is known says the value of each entry outside of calls, and whether it keeps the rule on values.
pub fn values_are_told<F, B>()
    ensures takes { TakesBringTheOldest F B }
    ensures notices { NoticesAreTold F B }
    ensures plain { PlainHaveNoValue F B }
    ensures notices_keep { NoticesKeepValues F B }
    ensures others_keep { OthersKeepValues F B }
{}

/// A whole call changes what is known in one way, and its entries keep the rule on values.
pub fn calls_are_known<F, B>()
    ensures known { CallIsKnown F B }
    ensures keep { CallKeepsValues F B }
{}

/// Entries that keep the rule on values go on with others that do.
pub fn values_go_on<F, B>()
    ensures { ValuesGoOn F B }
{}

/// A record is lawful if it is lawful but for its values and keeps the rule on them.
pub fn both_are_all<F, B>()
    ensures { BothAreAll F B }
{}
