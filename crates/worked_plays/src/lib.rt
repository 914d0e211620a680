//! Worked records, played with codes that are given as plain functions: each is the record of one thread, and has the sound and the summary
//! that it is to have; altered copies break the rule on values where they are to.
#![tactic(auto)]

ghost use Rattle.record_law.specs.declared.shape.Broken.TheVariants.{Value};
ghost use Rattle.record_law.specs.Case.{drop_line, double_line, put_line};
ghost use Rattle.std.specs.Prelude.{◌∷◌, [], ◌++◌, true, false};
ghost use Rattle.step_law.specs.declared.actor.Actor.TheVariants.{Audio};
ghost use Rattle.step_law.specs.declared.ring.Ring.TheVariants.{Jobs};
ghost use Rattle.step_law.specs.Entry.{long_of};
ghost use Rattle.worked_plays.specs.Sessions.{amplified, amplified_steps, bursting, bursting_steps, empty_steps, fetching, fetching_steps, telling, telling_steps};
ghost use Rattle.std.specs.Prelude.{codes};
ghost use Rattle.worked_plays.specs.Scenes.{setting, set_to, setting_steps, late_steps, keeping, keep_decl, tank_decl, restore_at, save_at, state_with, restoring_steps, restored_late_steps, saving_steps, messaging, message_steps};
ghost use Rattle.worked_plays.specs.Shows.{Saves, setting_summary, late_summary, restoring_summary, restored_late_summary, saving_summary, message_summary, states_text};
ghost use Rattle.worked_plays.specs.Shows.{PlaysAs, Breaks, times, amplified_summary, empty_summary, fetching_summary, bursting_summary, telling_summary};

/// A constant of 0.5 through an amplifier by half: two blocks, none, and two where the cable is a block late.
pub fn a_constant_is_amplified()
    ensures two { PlaysAs (amplified 2 false) amplified_steps (times 8 (0 ∷ 32 ∷ [])) amplified_summary }
    ensures none { PlaysAs (amplified 0 false) empty_steps [] empty_summary }
    ensures delayed { PlaysAs (amplified 2 true) amplified_steps (times 8 (0 ∷ []) ++ times 4 (0 ∷ 32 ∷ [])) amplified_summary }
{}

/// A job in each block, whose response is heard in the next.
pub fn a_job_is_answered()
    ensures { PlaysAs fetching fetching_steps (times 4 (0 ∷ []) ++ times 2 (128 ∷ 0 ∷ []) ++ times 2 (0 ∷ 1 ∷ [])) fetching_summary }
{}

/// Three jobs at once, where there is room for two.
pub fn a_burst_finds_no_space()
    ensures { PlaysAs bursting bursting_steps [] bursting_summary }
{}

/// An answer on a reply port is told.
pub fn an_answer_is_told()
    ensures { PlaysAs telling telling_steps [] telling_summary }
{}

/// A record that tells of a job too few, of one too many, or of one that is long and wasn't; of a notice too few, or of one too many.
pub fn values_are_kept()
    ensures job_too_few { Breaks fetching fetching_steps (drop_line 9) 9 Value }
    ensures job_too_many { Breaks fetching fetching_steps (double_line 9) 10 Value }
    ensures job_too_long { Breaks fetching fetching_steps (put_line 9 (long_of Audio (Jobs 0))) 9 Value }
    ensures notice_too_few { Breaks telling telling_steps (drop_line 10) 10 Value }
    ensures notice_too_many { Breaks telling telling_steps (double_line 10) 11 Value }
{}

/// Values that are set while a constant plays: the second waits for room, and one comes too late.
pub fn values_are_set()
    ensures in_turn { PlaysAs (setting 3 1 (set_to 0 8388608 ∷ set_to 0 4194304 ∷ [])) setting_steps (0 ∷ 64 ∷ 0 ∷ 32 ∷ 0 ∷ 32 ∷ []) setting_summary }
    ensures too_late { PlaysAs (setting 1 8 (set_to 1 0 ∷ [])) late_steps (times 2 (0 ∷ [])) late_summary }
{}

/// A restore that needs both parts: between two blocks, or once all are played.
pub fn a_state_is_restored()
    ensures between { PlaysAs (keeping 4 (codes "k") keep_decl (restore_at 2 ∷ []) (state_with 4194304 ∷ [])) restoring_steps (times 12 (0 ∷ []) ++ times 2 (0 ∷ 32 ∷ [])) restoring_summary }
    ensures afterwards { PlaysAs (keeping 4 (codes "k") keep_decl (restore_at 4 ∷ []) (state_with 4194304 ∷ [])) restored_late_steps (times 16 (0 ∷ [])) restored_late_summary }
{}

/// A restore beside the runs, between two saves.
pub fn states_are_saved()
    ensures played { PlaysAs (keeping 3 (codes "t") tank_decl (save_at 0 ∷ restore_at 1 ∷ save_at 2 ∷ []) (state_with 8388608 ∷ [])) saving_steps (times 8 (0 ∷ []) ++ times 2 (0 ∷ 64 ∷ [])) saving_summary }
    ensures saved { Saves (keeping 3 (codes "t") tank_decl (save_at 0 ∷ restore_at 1 ∷ save_at 2 ∷ []) (state_with 8388608 ∷ [])) saving_steps states_text }
{}

/// Messages that set a level and ask for it, and the answers to them.
pub fn messages_are_answered()
    ensures { PlaysAs messaging message_steps (times 4 (0 ∷ 32 ∷ [])) message_summary }
{}
