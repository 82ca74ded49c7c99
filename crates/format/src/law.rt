// The laws of formats: what is made of exact ones is exact, and exact reading has exact outcomes.
ghost use Rattle.std.specs.Prelude.{◌≡◌, ℕ, Bool, true, List, [], ◌∷◌, Option};
ghost use Rattle.format.specs.Exact.{BeginsApart, HasSome, IsExact, IsRenaming, IsSpelling, Stops};
ghost use Rattle.format.specs.Faults.{IsText, IsWhole};
ghost use Rattle.format.specs.Format.{Format, Got, Stuck, counted, mapped, never, nothing, one, pair, times, until};
ghost use Rattle.grammar.specs.FirstFault.{IsCutOff, IsFirstFault};

/// No token, and no text at all, are exact formats, and so is one token where each value has its own.
pub fn single_tokens<A, T>()
    ensures nothing { IsExact (nothing {T = T}) }
    ensures never { IsExact (never {A = A} {T = T}) }
    ensures one { (valid : A → Bool) (token : A → T) (meaning : T → Option A) → IsSpelling valid token meaning
        → IsExact (one valid token meaning) }
{}

/// Exact formats one after another are exact, also where the second depends on the first's value, if the second always has a value;
/// so is an exact format whose values are renamed one for one.
pub fn sequences<A, B, T>()
    ensures pair { (F : Format A T) (G : A → Format B T) → IsExact F
        → ((x : A) → F.valid x ≡ true → IsExact (G x)) → ((x : A) → F.valid x ≡ true → HasSome (G x)) → IsExact (pair F G) }
    ensures mapped { (to : A → B) (from : B → Option A) (F : Format A T) → IsRenaming F.valid to from
        → IsExact F → IsExact (mapped to from F) }
{}

/// So many exact formats are exact, whether their number is given or read first, if each has a value;
/// so are exact items until a token with which none of them begins.
pub fn repetitions<S, A, T>()
    ensures times { (item : ℕ → Format A T) → ((i : ℕ) → IsExact (item i)) → ((i : ℕ) → HasSome (item i))
        → (i n : ℕ) → IsExact (times item i n) }
    ensures counted { (number : Format ℕ T) (item : ℕ → Format A T) → IsExact number
        → ((i : ℕ) → IsExact (item i)) → ((i : ℕ) → HasSome (item i)) → IsExact (counted number item) }
    ensures until { (stop : T) (is_stop : T → Bool) (item : S → Format A T) (next : S → A → S) → Stops stop is_stop
        → ((s : S) → IsExact (item s)) → ((s : S) (x : A) → (item s).valid x ≡ true → BeginsApart is_stop ((item s).spell x))
        → (s : S) → IsExact (until stop is_stop item next s) }
{}

/// An exact format reads exactly the whole texts, each as its one value; elsewhere it stops at the first fault, or at the end where the text is cut off.
pub fn outcomes<A, T>()
    ensures read { (F : Format A T) → IsExact F → (text : List T) (x : A) → F.read text ≡ Got x [] → IsText F text x }
    ensures whole { (F : Format A T) → IsExact F → (text : List T) (x : A) → IsText F text x → F.read text ≡ Got x [] }
    ensures one_value { (F : Format A T) → IsExact F → (text : List T) (x y : A) → IsText F text x → IsText F text y → x ≡ y }
    ensures fault { (F : Format A T) → IsExact F → HasSome F → (text : List T) (bad : T) (rest : List T)
        → F.read text ≡ Stuck (bad ∷ rest) → IsFirstFault (IsWhole F) text bad rest }
    ensures trailing { (F : Format A T) → IsExact F → (text : List T) (x : A) (bad : T) (rest : List T)
        → F.read text ≡ Got x (bad ∷ rest) → IsFirstFault (IsWhole F) text bad rest }
    ensures cut_off { (F : Format A T) → IsExact F → HasSome F → (text : List T)
        → F.read text ≡ Stuck [] → IsCutOff (IsWhole F) text }
{}
