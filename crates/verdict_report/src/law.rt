//! The laws of verdicts, as the contract of a function that does nothing, so that the check proves them.

ghost use Rattle.std.specs.Prelude.{◌≡◌, ℕ, Bool, List, Option};
ghost use Rattle.goal_model.specs.declared.item.Part.{Part};
ghost use Rattle.goal_model.specs.declared.item.Wanted.{Wanted};
ghost use Rattle.goal_model.specs.declared.pattern.PatternKind.{PatternKind};
ghost use Rattle.goal_model.specs.Models.{ModelForm};
ghost use Rattle.verdict_report.specs.declared.report.Verdict.{Verdict};
ghost use Rattle.verdict_report.specs.declared.report.Evidence.{Evidence};
ghost use Rattle.verdict_report.specs.Verdicts.{IsRight, IsRightCover};
ghost use Rattle.verdict_report.specs.Laws.{Tells};

/// A right verdict tells how its demand stands. Two that are right of one demand, under one budget, are
/// the same, and so are two of one assignment.
pub fn law_of_verdicts()
    ensures tells { (m : ModelForm) (budget : ℕ) (wanted : Wanted) (parts : List (Part × Bool)) (named : Option PatternKind) (verdict : Verdict) (evidence : Evidence)
        → IsRight m budget wanted parts named verdict evidence → Tells m budget wanted parts named verdict }
    ensures one { (m : ModelForm) (budget : ℕ) (wanted : Wanted) (parts : List (Part × Bool)) (named : Option PatternKind) (first second : Verdict) (shown other : Evidence)
        → IsRight m budget wanted parts named first shown → IsRight m budget wanted parts named second other → first ≡ second }
    ensures assignment { (m : ModelForm) (goal agent : ℕ) (first second : Verdict) (shown other : Evidence)
        → IsRightCover m goal agent first shown → IsRightCover m goal agent second other → first ≡ second }
{}
