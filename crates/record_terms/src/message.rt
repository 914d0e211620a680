/// What goes through a ring, or what a call is made for. Actions and instances are counted from 0.
#[derive(Clone, Copy)]
pub enum Message {
    /// Nothing of all this.
    Nothing,
    /// A job or a response.
    Body,
    /// What this instance answers on its reply port.
    Notice(u32),
    /// This action's value of a control input, or its patch message.
    Input(u32),
    /// A part of this instance is asked for.
    Lend(u32),
    /// A part of this instance is sent to control.
    Part(u32),
    /// A part of this instance is given back.
    Give(u32),
    /// An action saves an instance.
    Save { action: u32, inst: u32 },
    /// An action restores an instance.
    Restore { action: u32, inst: u32 },
    /// What this action asked for is done.
    Answer(u32),
    /// A worker is to stop.
    Close,
}
