ghost use Rattle.std.specs.Prelude.{◌≡◌, ℕ, ◌≤◌, ◌++◌, [], ◌∷◌, List, length, false, IfOk};
ghost use Rattle.atom_core.specs.Value.{Value};
ghost use Rattle.atom_sequence.specs.Event.{Event};
ghost use Rattle.plug_api.specs.Buffers.{begun_forge, event_bytes};
ghost use Rattle.plugin_decl.specs.Valid.{IsValid};
ghost use Rattle.session_play.specs.Signals.{at_start};
ghost use Rattle.block_signals.specs.Messages.{AreBytesOf, Keeps, KeepsFor};

use atom_core::AtomView;
use atom_forge::Forge;
use atom_sequence::put_event;
use event_signals::begin_sequence;
use lv_base::NoMemory;
use plugin_decl::{Decl, patch_port};
use std::alloc::Global;

/// The messages that were taken for an instance in the block at hand: the events of a sequence that is still open, for its patch port.
#[derive(Drop)]
pub struct Messages {
    pub(crate) port: u32,
    pub(crate) forge: Forge,
    pub(crate) full: bool,
}

impl Messages {
    /// Room for the messages to the ports of a declaration, if one of them takes any.
    pub(crate) fn of(alloc: Global, decl: &Decl) -> Result<Option<Messages>, NoMemory>
        requires { IsValid decl.now }
        ensures { IfOk result (KeepsFor decl.now.ports []) }
    {
        let Some(port) = patch_port(decl) else {
            return Ok(None);
        };
        let room = decl.ports.as_slice()[port as usize].room;
        let messages = Messages::with_room(alloc, port, room)?;
        Ok(Some(messages))
    }

    fn with_room(alloc: Global, port: u32, room: u32) -> Result<Messages, NoMemory>
        requires { 16 ≤ room }
        ensures { IfOk result (λ kept. kept ≡ record { port = port; forge = begun_forge room; full = false }) }
    {
        let mut forge = Forge::with_room(alloc, room)?;
        begin_sequence(&mut forge);
        Ok(Messages {
            port,
            forge,
            full: false,
        })
    }

    /// Forgets all of them, since a block begins.
    pub(crate) fn begin_block(&mut self)
        requires { 16 ≤ self.old.forge.room }
        ensures { self.new ≡ record self.old { forge = begun_forge self.old.forge.room; full = false } }
    {
        begin_sequence(&mut self.forge);
        self.full = false;
    }

    /// Takes one more, given as the bytes of its atom. Once one has no room, no other is kept.
    pub(crate) fn take(&mut self, atom: &[u8])
        requires known { (room : ℕ) × (messages : List Event) × Keeps room messages self.old }
        requires atom { (value : Value) × AreBytesOf atom.now value }
        ensures port { self.new.port ≡ self.old.port }
        ensures kept { (room : ℕ) (messages : List Event) (value : Value) → Keeps room messages self.old → AreBytesOf atom.now value
            → Keeps room (messages ++ at_start value ∷ []) self.new }
    {
        if !self.full {
            self.full = put_event(&mut self.forge, 0, AtomView::over(atom)).is_err();
        }
    }

    /// The bytes of those that are kept, as events.
    pub(crate) fn events(&self) -> &[u8]
        requires { 16 ≤ length self.now.forge.bytes }
        ensures { result.now ≡ event_bytes self.now.forge }
    {
        event_bytes(&self.forge)
    }
}

/// The bytes of the events of a sequence, which stand after its first 16 bytes.
pub(crate) fn event_bytes(forge: &Forge) -> &[u8]
    requires { 16 ≤ length forge.now.bytes }
    ensures { result.now ≡ event_bytes forge.now }
{
    &forge.done()[16..]
}
