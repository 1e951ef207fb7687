//! Laws of an owner's lines, over their definitions alone.
ghost use Rattle.std.specs.Prelude.{◌≡◌, ◌∷◌, ℕ, List, codes, true};
ghost use Rattle.sms_script.specs.Lines.{is_word};
ghost use Rattle.sms_script.specs.ScriptReading.{act_in};
ghost use Rattle.sms_script.specs.owner.OwnersLines.{delete_in, discard_in, write_in};
ghost use Rattle.sms_script.specs.owner.ScriptsLines.{read_in_script};

/// With the number of a handset behind its first word, an owner's line says in a script what it says here.
pub fn a_line_is_a_scripts()
    ensures write { (number : List ℕ) (words : List (List ℕ)) → is_word number ≡ true
        → act_in (codes "write" ∷ number ∷ words) ≡ read_in_script number (write_in words) }
    ensures delete { (number : List ℕ) (words : List (List ℕ)) → is_word number ≡ true
        → act_in (codes "delete" ∷ number ∷ words) ≡ read_in_script number (delete_in words) }
    ensures discard { (number : List ℕ) (words : List (List ℕ)) → is_word number ≡ true
        → act_in (codes "discard" ∷ number ∷ words) ≡ read_in_script number (discard_in words) }
{}
