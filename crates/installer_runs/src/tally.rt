//! What was heard of a run.
ghost use Rattle.installer.specs.RepliesOf.{reply_of};
ghost use Rattle.installer.specs.Reply.{Reply};
ghost use Rattle.installer.specs.Reply as told;
ghost use Rattle.installer_runs.specs.Faults.{is_by_rule, is_fault, is_for_a_fault};
ghost use Rattle.std.specs.Prelude.{◌≡◌, ◌++◌, ◌∷◌, [], List, find, map, option_map};

use cfb_medium::Error;
use installer::Answer;

/// What was heard of the answers of a run: the first refusal by a rule, and the first fault.
#[derive(Clone, Copy, Debug)]
pub struct Tally {
    refusal: Option<Error>,
    fault: Option<Error>,
}

impl Tally {
    ghost use Rattle.installer_runs.specs.Tallies.{HasHeard};

    /// Nothing was heard yet.
    pub fn new() -> Tally
        ensures { HasHeard result [] }
    {
        Tally {
            refusal: None,
            fault: None,
        }
    }

    /// Takes in the next answers.
    pub fn hear(&mut self, answers: &[Answer])
        ensures { (before : List Reply) → HasHeard self.old before
            → HasHeard self.new (before ++ map reply_of answers.now) }
    {
        for answer in answers {
            self.note(answer);
        }
    }

    // Takes in an answer.
    fn note(&mut self, answer: &Answer)
        ensures { (before : List Reply) → HasHeard self.old before
            → HasHeard self.new (before ++ reply_of answer.now ∷ []) }
    {
        if let Answer::Refused(error) = answer {
            if is_fault(*error) {
                self.fault = Some(self.fault.unwrap_or(*error));
            } else {
                self.refusal = Some(self.refusal.unwrap_or(*error));
            }
        }
    }

    /// The error of the first answer that was a refusal by a rule.
    pub fn refusal(&self) -> Option<Error>
        ensures { (replies : List Reply) → HasHeard self.now replies
            → option_map told.refused result ≡ find is_by_rule replies }
    {
        self.refusal
    }

    /// The error of the first answer that was a fault.
    pub fn fault(&self) -> Option<Error>
        ensures { (replies : List Reply) → HasHeard self.now replies
            → option_map told.refused result ≡ find is_for_a_fault replies }
    {
        self.fault
    }
}

/// Whether an error is a fault, and no refusal by a rule.
pub fn is_fault(error: Error) -> bool
    ensures { result ≡ is_fault error }
{
    matches!(
        error,
        Error::Full | Error::Memory | Error::Device | Error::Failed
    )
}
