//! Laws of answers and of words, as contracts of functions that do nothing, so that the check proves them.

ghost use Rattle.std.specs.Prelude.{◌≡◌, ℕ, List, Option, option_map, String};
ghost use Rattle.std.specs.Global.{Global};
ghost use Rattle.verdict_report.specs.declared.report.Report.{Report};
ghost use Rattle.kaos_program.specs.declared.status.Status.{Status as StatusForm};
ghost use Rattle.kaos_program.specs.Commands.{CommandForm, AreWords};
ghost use Rattle.kaos_program.specs.Answering.{Answers};
ghost use Rattle.kaos_program.specs.Laws.{verdicts_in};

/// No words are those of two commands.
pub fn law_of_words()
    ensures { (words : List (String Global)) (first second : CommandForm) → AreWords words first → AreWords words second → first ≡ second }
{}

/// Two answers that are right for the same bytes under the same command have the same status, and the same verdicts under the same labels:
/// they are a function of the text and the budget.
pub fn law_of_answers()
    ensures status { (bytes : List ℕ) (command : CommandForm) (first second : StatusForm) (report other : Option Report) (output further : List ℕ)
        → Answers bytes command first report output → Answers bytes command second other further → first ≡ second }
    ensures verdicts { (bytes : List ℕ) (command : CommandForm) (first second : StatusForm) (report other : Option Report) (output further : List ℕ)
        → Answers bytes command first report output → Answers bytes command second other further → option_map verdicts_in report ≡ option_map verdicts_in other }
{}
