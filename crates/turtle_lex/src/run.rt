use crate::class::Class;

/// Characters of which a token has a whole run.
#[derive(Clone, Copy)]
pub enum Run {
    Digits,
    Letters,
    LettersOrDigits,
}

impl Run {
    ghost use Rattle.turtle_lex.specs.Picks.{IsRun};
    ghost use Rattle.turtle_lex.specs.Places.{IsPlace};
    ghost use Rattle.turtle_lex.specs.Run.{run_class};

    /// The end of the run that begins at a place, maybe an empty one.
    pub fn end(self, text: &str, from: usize) -> usize
        requires { IsPlace text.now from }
        ensures { IsRun (run_class self) text.now from result }
    {
        Class::Alphanumeric(self).run_end(text, from)
    }
}
