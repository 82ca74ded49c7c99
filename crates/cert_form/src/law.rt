// The laws of certificates' texts.
ghost use Rattle.std.specs.Prelude.{◌≡◌, List, true};
ghost use Rattle.cert_form.specs.Certificate.{Certificate};
ghost use Rattle.cert_form.specs.CertificateText.{certificate_words};
ghost use Rattle.cert_form.specs.IsCertificate.{IsCertificateText, is_certificate};
ghost use Rattle.cert_form.specs.Words.{Token};
ghost use Rattle.grammar.specs.FirstFault.{HasOneOutcome};

/// A text is that of one certificate at most, and each list of tokens is a certificate's text, or has a first fault, or is cut
/// off, and only one of these.
pub fn certificate_texts()
    ensures one_certificate { (c : Certificate) → (d : Certificate) → is_certificate c ≡ true → is_certificate d ≡ true
        → certificate_words c ≡ certificate_words d → c ≡ d }
    ensures one_outcome { (text : List Token) → HasOneOutcome IsCertificateText text }
{}
