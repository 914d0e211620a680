ghost use Rattle.std.specs.Prelude.{◌≡◌, ◌<◌, ◌^◌};
ghost use Rattle.session_script.specs.Sections as spec;
ghost use Rattle.session_script.specs.Draft as draft;
ghost use Rattle.session_script.specs.Limits as limits;

/// The settings of a session.
#[derive(Clone, Copy)]
pub(crate) enum Setting {
    Rate,
    Block,
    Blocks,
    Workers,
    Cells,
    Record,
}

impl Setting {
    /// The least number that the setting may have.
    pub(crate) fn least(self) -> u64
        ensures { result ≡ limits.least self }
    {
        match self {
            Setting::Blocks => 0,
            _ => 1,
        }
    }

    /// The greatest number that the setting may have.
    pub(crate) fn most(self) -> u64
        ensures { result ≡ limits.most self }
    {
        match self {
            Setting::Rate => 1_000_000,
            Setting::Block => 4096,
            Setting::Blocks => 65_536,
            Setting::Workers => 8,
            Setting::Cells => 64,
            Setting::Record => 4_194_304,
        }
    }
}

/// The first words that a line may have after the first line.
#[derive(Clone, Copy)]
pub(crate) enum Keyword {
    /// One of a setting, which has a number.
    Number(Setting),
    Bundle,
    Inst,
    Set,
    Cable,
    Out,
    At,
}

impl Keyword {
    /// The section that its lines belong to.
    pub(crate) fn section(self) -> Section
        ensures { result ≡ spec.section_by self }
    {
        match self {
            Keyword::Number(_) => Section::Settings,
            Keyword::Bundle => Section::Bundles,
            Keyword::Inst => Section::Insts,
            Keyword::Set => Section::Sets,
            Keyword::Cable => Section::Cables,
            Keyword::Out => Section::Outs,
            Keyword::At => Section::Actions,
        }
    }
}

/// The sections of a script, in their order.
#[derive(Clone, Copy)]
pub(crate) enum Section {
    /// Before `lv2fx 1`.
    Start,
    Settings,
    Bundles,
    Insts,
    Sets,
    Cables,
    Outs,
    Actions,
}

impl Section {
    pub(crate) fn order(self) -> u32
        ensures { result ≡ spec.order self }
    {
        self as u32
    }

    /// The later one of two sections.
    pub(crate) fn latest(self, other: Section) -> Section
        ensures { result ≡ draft.latest self other }
    {
        if self.order() <= other.order() {
            other
        } else {
            self
        }
    }
}
