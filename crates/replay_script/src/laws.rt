//! Laws of scripts. A call does nothing: its contract is the statement.
ghost use Rattle.std.specs.Prelude.{◌≡◌, ◌↔◌, ℕ, List, [], map};
ghost use Rattle.expander_model.specs.Meaning.{Layers};
ghost use Rattle.expander_session.specs.Answers.{AreAnswers};
ghost use Rattle.expander_session.specs.declared.commands.Answer.{Answer};
ghost use Rattle.expander_session.specs.declared.commands.Command.{Command};
ghost use Rattle.replay_script.specs.Progress.{AreLineAnswers, begun_with};
ghost use Rattle.replay_script.specs.declared.answer.LineAnswer.{LineAnswer};
ghost use Rattle.replay_script.specs.declared.answer.LineAnswer.TheVariants as told;
ghost use Rattle.replay_script.specs.declared.line.Line.TheVariants as asked;

/// A script without `source` and `prelude` lines that begins with no prelude is answered as a list
/// of commands is: its answers are exactly those that `replay` of `expander_session` may give.
pub fn commands_are_answered_alone()
    ensures { (layers : Layers) (depth : ℕ) (commands : List Command) (answers : List LineAnswer) →
        AreLineAnswers layers depth (begun_with []) (map asked.Command commands) answers
        ↔ ((alone : List Answer) × (answers ≡ map told.Command alone)
        × AreAnswers layers depth [] [] commands alone) }
{}
