ghost use Rattle.std.specs.Prelude.{List, [], ◌∷◌};
ghost use Rattle.interaction.specs.Attempts.{Attempt};
ghost use Rattle.plug_api.specs.Chains.{ChainsAttempts};

/// What a front schedules jobs with: `LV2_Worker_Schedule`. It is lent for one call.
pub trait Sched {
    /// It made these attempts, in order, and became this.
    ghost went: { Self → List Attempt → Self → Type 0 };

    /// Attempts to schedule a job, whose body is copied. The answer is a status: 0 where the job was accepted.
    fn schedule_work(&mut self, body: &[u8]) -> u8
        ensures { went self.old (record { body = body.now; answer = result } ∷ []) self.new };

    ghost chains: { ChainsAttempts went };
}

/// What a back responds with: `LV2_Worker_Respond_Function`. It is lent for one call.
pub trait Respond {
    /// It made these attempts, in order, and became this.
    ghost went: { Self → List Attempt → Self → Type 0 };

    /// Attempts to send a response, whose body is copied. The answer is a status: 0 where the response was accepted.
    fn respond(&mut self, body: &[u8]) -> u8
        ensures { went self.old (record { body = body.now; answer = result } ∷ []) self.new };

    ghost chains: { ChainsAttempts went };
}
