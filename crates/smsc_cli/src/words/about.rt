//! Words that ask about a program.
ghost use Rattle.std.specs.Prelude.{◌≡◌};
ghost use Rattle.smsc_cli.specs.words.About.{about_in};

/// What a word asks about a program.
#[derive(Clone, Copy, PartialEq, Eq)]
pub enum About {
    /// `--help` or `-h`: how it is used.
    Help,
    /// `--version`: what proves it, and which builds are proved.
    Version,
}

/// What all three programs print for `--version`.
///
/// A program can't know how it was built: the toolchain builds one source alike before and after its proof. So these
/// words are true of each build.
pub const VERSION: &str =
    "rattle-kit-13b logic dac8208d650f15bf: proved where `rt run` built it; not proved where `rt try` or demo/build did\n";

/// What the word asks about a program, if it is one of these three.
pub fn about_of(word: &str) -> Option<About>
    ensures { result ≡ about_in word.now }
{
    if word == "--help" || word == "-h" {
        return Some(About::Help);
    }
    if word == "--version" {
        return Some(About::Version);
    }
    None
}
