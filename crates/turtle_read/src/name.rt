ghost use Rattle.std.specs.Prelude.{◌≡◌};
ghost use Rattle.std.proofs.Common.{ap};
ghost use Rattle.std.specs.Cmp.Lexicographic.{bytes_decides, nat_list_eq_equiv};
ghost use Rattle.std.specs.Hash as fed;
ghost use Rattle.std.specs.Str.{bytes_eq};

use indexmap::Equivalent;
use lv_base::Text;

/// A text that is looked up among texts, without a `Text` made of it.
#[derive(Clone, Copy, PartialEq, Eq, Hash)]
pub struct Name<'a>(pub &'a str);

impl<'a> Equivalent<Text> for Name<'a> {
    ghost equivalent = { λ name text. bytes_eq name.0.now text };

    ghost respects_hash = { λ name text same. ap fed.str ((bytes_decides name.0.now text).0 same) };

    ghost respects_eq = { λ name x y. nat_list_eq_equiv.congr name.0.now x y };

    fn equivalent(&self, text: &Text) -> bool {
        self.0 == text.as_str()
    }
}
