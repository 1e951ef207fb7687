//! The first words of lines.
ghost use Rattle.std.specs.Prelude.{◌≡◌, bytes_eq};
ghost use Rattle.sms_script.specs.Keywords.{keyword_text, keyword_of};

/// The first word of a line.
#[derive(Clone, Copy, PartialEq, Eq)]
pub(crate) enum Keyword {
    Start,
    Centre,
    Account,
    Handset,
    Submit,
    Urgent,
    Query,
    Cancel,
    Write,
    Delete,
    Discard,
    Deliver,
    Tick,
    Restart,
    Stopped,
}

static KEYWORDS: [Keyword; 15] = [
    Keyword::Start,
    Keyword::Centre,
    Keyword::Account,
    Keyword::Handset,
    Keyword::Submit,
    Keyword::Urgent,
    Keyword::Query,
    Keyword::Cancel,
    Keyword::Write,
    Keyword::Delete,
    Keyword::Discard,
    Keyword::Deliver,
    Keyword::Tick,
    Keyword::Restart,
    Keyword::Stopped,
];

impl Keyword {
    /// The word itself.
    fn text(self) -> &'static str
        ensures { result.now ≡ keyword_text self }
    {
        match self {
            Keyword::Start => "start",
            Keyword::Centre => "centre",
            Keyword::Account => "account",
            Keyword::Handset => "handset",
            Keyword::Submit => "submit",
            Keyword::Urgent => "urgent",
            Keyword::Query => "query",
            Keyword::Cancel => "cancel",
            Keyword::Write => "write",
            Keyword::Delete => "delete",
            Keyword::Discard => "discard",
            Keyword::Deliver => "deliver",
            Keyword::Tick => "tick",
            Keyword::Restart => "restart",
            Keyword::Stopped => "stopped",
        }
    }

    fn is_word(self, word: &[u8]) -> bool
        ensures { result ≡ bytes_eq (keyword_text self) word.now }
    {
        self.text().as_bytes() == word
    }

    /// The keyword that a word is.
    #[tactic(auto, unfolding(crate::specs::Keywords::keyword_of))]
    pub(crate) fn of(word: &[u8]) -> Option<Keyword>
        ensures { result ≡ keyword_of word.now }
    {
        KEYWORDS
            .iter()
            .copied()
            .find(|keyword| keyword.is_word(word))
    }
}
