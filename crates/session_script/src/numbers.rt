ghost use Rattle.std.specs.Prelude.{◌≡◌, None};
ghost use Rattle.session_script.specs.Limits as limits;
ghost use Rattle.session_script.specs.Step.{with_setting};

use crate::keyword::Setting;

/// The numbers of the settings whose lines stand.
#[derive(Clone, Copy)]
pub(crate) struct Numbers {
    pub rate: Option<u32>,
    pub block: Option<u32>,
    pub blocks: Option<u32>,
    pub workers: Option<u32>,
    pub cells: Option<u32>,
    pub reserve: Option<u32>,
}

impl Numbers {
    pub(crate) fn new() -> Self
        ensures { result ≡ limits.no_numbers }
    {
        Numbers {
            rate: None,
            block: None,
            blocks: None,
            workers: None,
            cells: None,
            reserve: None,
        }
    }

    /// The number of a setting, if its line stands.
    pub(crate) fn get(&self, setting: Setting) -> Option<u32>
        ensures { result ≡ limits.standing self.now setting }
    {
        match setting {
            Setting::Rate => self.rate,
            Setting::Block => self.block,
            Setting::Blocks => self.blocks,
            Setting::Workers => self.workers,
            Setting::Cells => self.cells,
            Setting::Record => self.reserve,
        }
    }

    /// Takes the number of a setting, unless it has one.
    pub(crate) fn set(&mut self, setting: Setting, number: u32)
        ensures { self.new ≡ with_setting self.old setting number }
    {
        let number = Some(number);
        match setting {
            Setting::Rate => self.rate = self.rate.or(number),
            Setting::Block => self.block = self.block.or(number),
            Setting::Blocks => self.blocks = self.blocks.or(number),
            Setting::Workers => self.workers = self.workers.or(number),
            Setting::Cells => self.cells = self.cells.or(number),
            Setting::Record => self.reserve = self.reserve.or(number),
        }
    }

    pub(crate) fn workers(&self) -> u32
        ensures { result ≡ limits.workers_or_default self.now }
    {
        self.workers.unwrap_or(1)
    }

    pub(crate) fn blocks(&self) -> u32
        ensures { result ≡ limits.blocks_or_default self.now }
    {
        self.blocks.unwrap_or(0)
    }
}
