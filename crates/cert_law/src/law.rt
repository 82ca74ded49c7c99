// The law of certificates.
ghost use Rattle.std.specs.Prelude.{◌≤◌, ◌^◌, List, length};
ghost use Rattle.application.specs.declared.app.App.{App};
ghost use Rattle.bounded_check.specs.declared.decide.Verdict.{Verdict};
ghost use Rattle.cert_law.specs.Accepted.{IsAccepted};
ghost use Rattle.cert_text.specs.declared.front.Bounds.{Bounds};
ghost use Rattle.certified_run.specs.Certified.{IsEvidence, ending_by, text_with};
ghost use Rattle.clause_form.specs.declared.line.Line.{Line};
ghost use Rattle.one_stack.specs.declared.label.Label.{Label};
ghost use Rattle.step_ir.specs.declared.code.Code.{Code};
ghost use Rattle.cert_law.specs.Named.{HaveNames};
ghost use Rattle.turn_encoding.specs.declared.encoding.Encoding.{Encoding};

/// The certificate of a run that is decided, of an application whose tasks and routines have names, is good: its text is read, its lines are
/// derived, and its verdict fits.
pub fn certificates_are_good()
    ensures { (app : App) (code : Code) (bounds : Bounds) (e : Encoding) (labels : List Label) (log : List Line) (v : Verdict)
        → HaveNames app → 1 ≤ bounds.turns → bounds.turns ≤ 512 → bounds.arrivals ≤ 15 → bounds.budget ≤ 10 ^ 12
        → IsEvidence app code bounds e labels log v → length (text_with app bounds e labels log (ending_by v)) ≤ 2 ^ 30
        → IsAccepted (text_with app bounds e labels log (ending_by v)) v }
{}
