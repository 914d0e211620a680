ghost use Rattle.std.specs.Prelude.{◌≡◌, find, not};
ghost use Rattle.std.specs.Option.{option_copied};
ghost use Rattle.vocabulary.specs.declared.word.Word.TheVariants.{Lv2RequiredFeature, OptionsRequiredOption};
ghost use Rattle.plugin_decl.specs.Objects.{objects_of};
ghost use Rattle.plugin_decl.specs.Features.{features, is_among, is_supported, is_given};
ghost use Rattle.plugin_decl.specs.Rules.{AreKeptBelow};
ghost use Rattle.plugin_decl.specs.Checks.{Checked};

use crate::declaration::DeclFault;
use crate::naming::is_word;
use crate::objects::{copy_of, objects};
use crate::plugin::Plugin;
use triple_store::Term;
use vocabulary::Word;

/// Whether a feature is supported, whatever the block's length.
fn is_always_supported(feature: &Term) -> bool
    ensures { result ≡ is_among features feature.now }
{
    [
        Word::UridMap,
        Word::UridUnmap,
        Word::OptionsOptions,
        Word::WorkSchedule,
        Word::StateThreadSafeRestore,
        Word::Lv2HardRtCapable,
        Word::Lv2InPlaceBroken,
        Word::Lv2IsLive,
        Word::BufszBoundedBlockLength,
        Word::BufszFixedBlockLength,
    ]
    .iter()
    .any(|word| is_word(*word, feature))
}

/// Whether a feature is supported for blocks of this length.
#[tactic(auto, unfolding(crate::specs::Features::is_supported))]
fn is_supported(block: u32, feature: &Term) -> bool
    ensures { result ≡ is_supported block feature.now }
{
    is_always_supported(feature)
        || (block.is_power_of_two() && is_word(Word::BufszPowerOf2BlockLength, feature))
}

/// Whether an option is one that instances are given.
#[tactic(auto, unfolding(crate::specs::Features::is_given))]
fn is_given(option: &Term) -> bool
    ensures { result ≡ is_given option.now }
{
    is_word(Word::BufszMaxBlockLength, option) || is_word(Word::BufszMinBlockLength, option)
}

impl<'a> Plugin<'a> {
    /// The first required feature that isn't supported.
    fn unsupported(&self) -> Option<&'a Term>
        ensures { option_copied result ≡ find (λ feature. not (is_supported self.now.block feature)) (objects_of self.now.store.now self.now.term.now Lv2RequiredFeature) }
    {
        let block = self.block;
        objects(self.store, self.term, Word::Lv2RequiredFeature).find(|feature| !is_supported(
            block, *feature,
        ))
    }

    /// The first required option that isn't given.
    fn not_given(&self) -> Option<&'a Term>
        ensures { option_copied result ≡ find (λ option. not (is_given option)) (objects_of self.now.store.now self.now.term.now OptionsRequiredOption) }
    {
        objects(self.store, self.term, Word::OptionsRequiredOption).find(|option| !is_given(
            *option,
        ))
    }

    pub(crate) fn check_features(&self) -> Result<(), DeclFault>
        requires { AreKeptBelow self.now.store.now self.now.term.now self.now.block 10 }
        ensures { Checked self.now.store.now self.now.term.now self.now.block 11 result }
    {
        match self.unsupported() {
            Some(feature) => Err(DeclFault::Feature(copy_of(feature)?)),
            None => Ok(()),
        }
    }

    pub(crate) fn check_options(&self) -> Result<(), DeclFault>
        requires { AreKeptBelow self.now.store.now self.now.term.now self.now.block 11 }
        ensures { Checked self.now.store.now self.now.term.now self.now.block 12 result }
    {
        match self.not_given() {
            Some(option) => Err(DeclFault::RequiredOption(copy_of(option)?)),
            None => Ok(()),
        }
    }
}
