//! What the log of a run has besides, by its word.
ghost use Rattle.std.specs.Prelude.{◌≡◌, Some, option_map, IfNone, IfSome};
ghost use Rattle.smsc_cli.specs.declared.words.detail.LogDetail.{LogDetail as LogDetailOf};
ghost use Rattle.smsc_cli.specs.words.LogWords.{SpellsLog, is_log_word as is_log_word_of};

/// What the log has besides the lines of the run itself.
#[derive(Clone, Copy, PartialEq, Eq)]
pub enum LogDetail {
    /// Nothing.
    Runs,
    /// A line as a message is accepted, and one as it ends.
    Messages,
    /// A line of each message at its end, with what became of it.
    Access,
}

/// Whether the option takes this word.
pub(crate) fn is_log_word(word: &str) -> bool
    ensures { result ≡ is_log_word_of word.now }
{
    word == "messages" || word == "access"
}

// What a word says that the option may take.
#[tactic(auto, using(crate::proofs::words::Details::neither))]
fn detail_by(word: &str) -> Option<LogDetail>
    ensures found { IfSome result (λ detail. SpellsLog (Some word.now) detail) }
    ensures none { IfNone result ((detail : LogDetailOf) → ¬ SpellsLog (Some word.now) detail) }
{
    if word == "messages" {
        Some(LogDetail::Messages)
    } else if word == "access" {
        Some(LogDetail::Access)
    } else {
        None
    }
}

/// What the log has besides; none where the word is another one.
pub(crate) fn detail_of(word: Option<&str>) -> Option<LogDetail>
    ensures found { IfSome result (λ detail. SpellsLog (option_map (λ s. s.now) word.entry) detail) }
    ensures none { IfNone result ((detail : LogDetailOf) → ¬ SpellsLog (option_map (λ s. s.now) word.entry) detail) }
{
    match word {
        Some(word) => detail_by(word),
        None => Some(LogDetail::Runs),
    }
}
