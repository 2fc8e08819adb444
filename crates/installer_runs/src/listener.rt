//! What hears the answers of a run.
ghost use Rattle.installer.specs.Reply.{Reply};
ghost use Rattle.installer.specs.RepliesOf.{reply_of};
ghost use Rattle.std.specs.Prelude.{List, [], map};

use installer::Answer;

/// What hears the answers of a run, in order, as they come.
pub trait Listener {
    /// What it is after it heard these replies.
    ghost hears: { Self → List Reply → Self → Type 0 };

    /// Takes the next answers.
    fn hear(&mut self, answers: &[Answer])
        ensures { hears self.old (map reply_of answers.now) self.new };

    /// Takes the first of the texts for which the next commit is refused: the page of the package, or of its summary, lacks a character
    /// of each, or it is too long. That is no answer.
    fn keep_back(&mut self, texts: &[String])
        ensures { hears self.old [] self.new };
}
