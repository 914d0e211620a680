ghost use Rattle.std.specs.Prelude.{◌≡◌, ◌++◌, IfOk};
ghost use Rattle.step_record.specs.RecordText.{record_text};
ghost use Rattle.replay_core.specs.StateText.{state_text};
ghost use Rattle.host_main.specs.Status.{name_of};
ghost use Rattle.host_main.specs.declared.refusal.Target.TheVariants.{Record as Steps, State};

use crate::refusal::Target;
use lv_base::{Bytes, NoMemory, Text};
use lv_outside::{Put, Vault};
use replay_core::Outcome;
use std::alloc::Global;
use step_record::Record;

/// A file to be written.
#[derive(Debug, Drop)]
pub struct File {
    pub path: Bytes,
    pub bytes: Bytes,
}

/// All that a run writes. It is made before the first write, so that no write is left out for want of memory.
#[derive(Debug, Drop)]
pub struct Rendering {
    pub steps: File,
    pub sound: File,
    pub state: File,
    pub summary: Bytes,
}

impl Rendering {
    ghost use Rattle.std.specs.Prelude.{◌≡◌, ◌++◌, IfOk, IfErr, OnOk, IsTrue};
    ghost use Rattle.lv_outside.specs.Count.{Rose};
    ghost use Rattle.host_main.specs.GoesOn.{VaultGoesOn};
    ghost use Rattle.host_main.specs.Files.{rendering, IsFile, AreApart, HoldsAll, HoldsBefore};

    /// What a run's outcome is written as, under this name.
    pub fn of(alloc: Global, name: &Text, outcome: Outcome) -> Result<Self, NoMemory>
        ensures { IfOk result (λ made. made ≡ rendering name.now outcome.steps outcome.pcm outcome.summary) }
    {
        let Outcome {
            steps,
            pcm,
            summary,
        } = outcome;
        let state = state_file(alloc, name)?;
        let sound = file_of(alloc, name, ".pcm", pcm)?;
        let steps = steps_file(alloc, name, &steps)?;
        Ok(Rendering {
            steps,
            sound,
            state,
            summary,
        })
    }

    /// Writes the three files in order, up to the first that fails.
    pub fn write<V: Vault>(&self, vault: &mut V) -> Result<(), Target>
        requires { AreApart self.now }
        ensures ok { OnOk result (IsTrue (V.state vault.old).tells → HoldsAll self.now (V.state vault.old).file (V.state vault.new).file) }
        ensures file { IfErr result IsFile }
        ensures failed { IfErr result (λ _. Rose (V.state vault.old).faults (V.state vault.new).faults) }
        ensures goes_on { VaultGoesOn (V.state vault.old) (V.state vault.new) }
        ensures err { IfErr result (λ target. IsTrue (V.state vault.old).tells
            → HoldsBefore target self.now (V.state vault.old).file (V.state vault.new).file) }
    {
        if vault.write(self.steps.path.as_slice(), self.steps.bytes.as_slice()) == Put::Failed {
            return Err(Target::Record);
        }
        if vault.write(self.sound.path.as_slice(), self.sound.bytes.as_slice()) == Put::Failed {
            return Err(Target::Sound);
        }
        if vault.write(self.state.path.as_slice(), self.state.bytes.as_slice()) == Put::Failed {
            return Err(Target::State);
        }
        Ok(())
    }

    /// The summary alone.
    pub fn into_summary(self) -> Bytes
        ensures { result ≡ self.summary }
    {
        let Rendering {
            steps,
            sound,
            state,
            summary,
        } = self;
        drop(steps);
        drop(sound);
        drop(state);
        summary
    }
}

fn state_file(alloc: Global, name: &Text) -> Result<File, NoMemory>
    ensures { IfOk result (λ file. file ≡ record { path = name_of State name.now; bytes = state_text }) }
{
    let text = Bytes::from_slice(alloc, replay_core::STATE_TEXT.as_bytes())?;
    file_of(alloc, name, ".ttl", text)
}

fn steps_file(alloc: Global, name: &Text, steps: &Record) -> Result<File, NoMemory>
    ensures { IfOk result (λ file. file ≡ record { path = name_of Steps name.now; bytes = record_text steps.now }) }
{
    let text = step_record::write(alloc, steps)?;
    file_of(alloc, name, ".rec", text)
}

/// A file under this name, with this ending.
fn file_of(alloc: Global, name: &Text, ending: &str, bytes: Bytes) -> Result<File, NoMemory>
    ensures { IfOk result (λ file. file ≡ record { path = name.now ++ ending.now; bytes = bytes }) }
{
    let path = path_of(alloc, name, ending)?;
    Ok(File { path, bytes })
}

fn path_of(alloc: Global, name: &Text, ending: &str) -> Result<Bytes, NoMemory>
    ensures { IfOk result (λ path. path ≡ name.now ++ ending.now) }
{
    let mut path = Bytes::from_slice(alloc, name.as_bytes())?;
    path.push_all(ending.as_bytes())?;
    Ok(path)
}
