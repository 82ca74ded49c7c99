// The law of the text, and of pieces that are appended one after another.
ghost use Rattle.std.specs.Prelude.{◌≡◌, ◌++◌, ℕ, List, Err, IsSome, Ok, Result};
ghost use Rattle.chk_base.specs.Desk.{AppendsAll, DeskState};
ghost use Rattle.chk_base.specs.declared.desk.PutFault.{PutFault};
ghost use Rattle.chk_base.specs.declared.desk.PutFault.TheVariants.{Memory};
ghost use Rattle.cert_form.specs.Certificate.{Ending};
ghost use Rattle.clause_form.specs.declared.line.Line.{Line};
ghost use Rattle.turn_encoding.specs.declared.encoding.Encoding.{Encoding};
ghost use Rattle.cert_text.specs.declared.front.Bounds.{Bounds};
ghost use Rattle.cert_text.specs.declared.label.LabelText.{LabelText};
ghost use Rattle.cert_text.specs.CertificateParts.{front_text, rest_text};
ghost use Rattle.cert_text.specs.CertificateText.{certificate_of, certificate_text};

/// What stands before the log and the rest are together the text of the certificate with these parts.
pub fn front_and_rest_are_whole()
    ensures { (bounds : Bounds) (encoding : Encoding) (labels : List LabelText) (log : List Line) (ending : Ending) → front_text bounds encoding labels ++ rest_text log ending ≡ certificate_text (certificate_of bounds encoding labels log ending) }
{}

/// A piece after another is the piece of both, where a file was begun: where the second isn't whole, or where the first isn't and no second
/// follows, or where there was no memory for either, a prefix of both was appended.
pub fn pieces_in_turn()
    ensures follows { (a b c : DeskState) (xs ys : List ℕ) (result : Result Unit PutFault) → IsSome a.current → AppendsAll a b xs (Ok tt) → AppendsAll b c ys result → AppendsAll a c (xs ++ ys) result }
    ensures stops { (a b : DeskState) (xs ys : List ℕ) (error : PutFault) → IsSome a.current → AppendsAll a b xs (Err error) → AppendsAll a b (xs ++ ys) (Err error) }
    ensures refuses { (a : DeskState) (xs : List ℕ) → IsSome a.current → AppendsAll a a xs (Err Memory) }
{}
