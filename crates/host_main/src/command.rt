ghost use Rattle.std.specs.Prelude.{IfSome, IfNone};
ghost use Rattle.host_main.specs.Words.{Commands, IsOfNoForm};

use lv_base::Text;

/// What the words of the command line ask for.
#[derive(Clone, Copy)]
pub enum Command<'a> {
    /// `check BUNDLE`
    Check { bundle: &'a Text },
    /// `render SESSION OUT`
    Render { session: &'a Text, name: &'a Text },
}

/// The command that the words say, if they match one of the forms.
pub fn command_of(words: &[Text]) -> Option<Command<'_>>
    ensures some { IfSome result (Commands words.now) }
    ensures none { IfNone result (IsOfNoForm words.now) }
{
    match words {
        [command, bundle] if command.as_str() == "check" => Some(Command::Check { bundle }),
        [command, session, name] if command.as_str() == "render" => {
            Some(Command::Render { session, name })
        }
        _ => None,
    }
}
