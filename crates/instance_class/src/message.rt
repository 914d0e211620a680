use crate::{BackOf, FrontOf};
use lv_base::Fixed;
use plug_api::Codes;
use state_store::Props;
use step_record::Parcel;

/// What goes from one actor to another.
#[derive(Drop)]
pub enum Msg<C: Codes> {
    /// From control to audio: an input's value.
    Set { inst: u32, port: u32, value: Fixed },
    /// A patch message, the whole atom.
    Patch { inst: u32, body: Parcel },
    /// Audio shall lend this instance's front.
    LendFront(u32),
    GiveFront(FrontOf<C>),
    /// From audio to control: a patch message of a reply port, the whole atom.
    Notice { inst: u32, body: Parcel },
    LentFront(FrontOf<C>),
    /// From control to a worker: this instance shall be saved.
    Save(u32),
    /// It shall be given these properties back, beside its runs.
    RestoreSafe(u32, Props),
    /// The worker shall lend this instance's back.
    LendBack(u32),
    GiveBack(BackOf<C>),
    Close,
    /// From a worker to control: the status of a save, and the properties.
    Saved(u32, u8, Props),
    /// The status of a restore.
    Restored(u32, u8),
    LentBack(BackOf<C>),
    /// The worker had no memory.
    Want,
    /// Between audio and a worker: the body of a job or of a response.
    Body(Parcel),
}

impl<C: Codes> From<Parcel> for Msg<C> {
    ghost use Rattle.std.specs.Prelude.{◌≡◌};
    ghost use Rattle.instance_class.specs.declared.message.Msg.TheVariants.{Body};

    ghost from_gives = { λ parcel made. made ≡ Body parcel };

    fn from(parcel: Parcel) -> Self {
        Msg::Body(parcel)
    }
}
