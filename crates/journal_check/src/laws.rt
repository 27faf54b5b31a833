//! What a check of a report finds is one thing.
ghost use Rattle.std.specs.Prelude.{◌≡◌, ℕ, List};
ghost use Rattle.journal_check.specs.Faults.{CanBeChecked, Checked, IsFaultIn, IsVerified};
ghost use Rattle.journal_check.specs.declared.fault.CheckFault.{CheckFault};

use journal_laws::each_prefix_of_a_legal_journal_is_legal;

/// A text is the report of a legal and complete journal of one number of entries, or it has one fault, and never both: so each row of
/// the table of faults stands exactly where none above it does.
///
/// A caller that printed a line `journal` could make two reports of one text.
pub fn a_report_has_one_answer()
    ensures counted { (x : Checked) (text : List ℕ) (n m : ℕ) → CanBeChecked x → IsVerified x text n → IsVerified x text m → n ≡ m }
    ensures faultless { (x : Checked) (text : List ℕ) (n : ℕ) (f : CheckFault) → CanBeChecked x → IsVerified x text n → IsFaultIn x text f → ⊥ }
    ensures fault { (x : Checked) (text : List ℕ) (f g : CheckFault) → CanBeChecked x → IsFaultIn x text f → IsFaultIn x text g → f ≡ g }
{
    each_prefix_of_a_legal_journal_is_legal();
}
