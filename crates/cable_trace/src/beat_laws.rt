ghost use Rattle.cable_trace.specs.BeatLaws.{BeatBegins, AboveBeat, WriterGoesOn, WriterDraws, WriterStores, ReaderGoesOn, ReaderDraws, ReaderLoads};
ghost use Rattle.cable_trace.specs.BeatLaws.{EventStoresNothing, EventLoadsNothing, MergedKeepsBeat};

/// All holds of the beat where nothing has been done: it is 0.
pub fn beat_begins<M>()
    ensures { BeatBegins M }
{}

/// A ticket above all of an actor's is above those that it has on the beat.
pub fn beat_is_above<M>()
    ensures { AboveBeat M }
{}

/// An event that stores or loads nothing leaves what was stored or loaded.
pub fn leaves_beat<M>()
    ensures stores { EventStoresNothing M }
    ensures loads { EventLoadsNothing M }
{}

/// What the storing actor does besides keeps what holds of the beat, whether it draws a ticket or not.
pub fn writer_goes_on<M>()
    ensures same { WriterGoesOn M }
    ensures draws { WriterDraws M }
{}

/// A higher number stored keeps what holds of the beat, and is then the last.
pub fn writer_stores<M>()
    ensures { WriterStores M }
{}

/// What the loading actor does besides keeps what holds of the beat, whether it draws a ticket or not.
pub fn reader_goes_on<M>()
    ensures same { ReaderGoesOn M }
    ensures draws { ReaderDraws M }
{}

/// A load of the last number keeps what holds of the beat.
pub fn reader_loads<M>()
    ensures { ReaderLoads M }
{}

/// The list of all entries by ticket keeps the rules of the beat.
pub fn merged_keeps_beat<M>()
    ensures { MergedKeepsBeat M }
{}
