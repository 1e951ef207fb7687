//! Laws of scripts, over their definitions alone.
ghost use Rattle.std.specs.Prelude.{◌≡◌, ◌≢◌, ◌++◌, ◌∷◌, ℕ, List, []};
ghost use Rattle.sms_script.specs.Limits.{IsEnoughOf};
ghost use Rattle.sms_script.specs.WholeScript.{script_in};
ghost use Rattle.sms_script.specs.Lines.{lines_of, words_of, spaced, ended, AllWithout};
ghost use Rattle.sms_script.specs.ScriptGrammar.{IsScript};
ghost use Rattle.sms_script.specs.declared.script.Script.{Script as ScriptOf};

/// A text is one script at most.
pub fn a_text_is_one_script()
    ensures { (text : List ℕ) (one other : ScriptOf) → IsScript text one → IsScript text other → one ≡ other }
{}

/// A line is its words with a space between each two; and words without spaces are those of the line that they make.
pub fn a_line_is_its_words()
    ensures line { (line : List ℕ) → spaced (words_of line) ≡ line }
    ensures words { (word : List ℕ) (words : List (List ℕ)) → AllWithout 32 (word ∷ words) → words_of (spaced (word ∷ words)) ≡ word ∷ words }
{}

/// Lines without LF are those of the text in which each ends with LF, and also of the text whose last line lacks it.
pub fn a_text_is_its_lines()
    ensures whole { (lines : List (List ℕ)) → AllWithout 10 lines → lines_of (ended lines) ≡ lines }
    ensures open_end { (lines : List (List ℕ)) (last : List ℕ) → AllWithout 10 lines → AllWithout 10 (last ∷ []) → last ≢ []
        → lines_of (ended lines ++ last) ≡ lines ++ last ∷ [] }
{}

/// A front in which a line passes a limit is judged as the whole text.
pub fn a_front_is_judged_as_its_text()
    ensures { (text front : List ℕ) → IsEnoughOf text front → script_in front ≡ script_in text }
{}
