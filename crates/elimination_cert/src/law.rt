//! The laws of the texts of certificates. Each is the contract of a function that does nothing, so
//! that the check proves it.

ghost use Rattle.std.specs.Prelude.{◌≡◌, ℕ, ◌≤◌, All, List, length};
ghost use Rattle.tableau_rules.specs.Certificates.{CertNodeForm};
ghost use Rattle.elimination_cert.specs.Readings.{Spells, HasTooMany};

/// No bytes spell two certificates over the variables of a space, of which there are at most 64 with
/// at most 64 values each. Bytes that spell a certificate have not too many nodes.
pub fn law_of_texts()
    ensures one { (sizes : List ℕ) → length sizes ≤ 64 → All (λ size. size ≤ 64) sizes
        → (bytes : List ℕ) (a b : List CertNodeForm) → Spells sizes bytes a → Spells sizes bytes b → a ≡ b }
    ensures not_too_many { (sizes bytes : List ℕ) (a : List CertNodeForm) (count : ℕ)
        → Spells sizes bytes a → ¬ (HasTooMany bytes count) }
{}
