//! Words of which there are several, each with a name of its own.
ghost use Rattle.std.specs.Prelude.{◌≡◌, ◌↔◌, ℕ, List, true};
ghost use Rattle.smsc_cli.specs.words.Several.{HasRoom, IsNew};

/// What has a name, or a number, in words.
pub(crate) trait Named {
    ghost name: { Self → List ℕ };

    /// Whether that is its name.
    fn has_name(&self, text: &str) -> bool
        ensures { (result ≡ true) ↔ name self.now ≡ text.now };
}

// Whether none of these has the name.
fn is_new<T: Named>(text: &str, some: &[T]) -> bool
    ensures { (result ≡ true) ↔ IsNew T.name text.now some.now }
{
    match some.split_first() {
        Some((first, others)) => {
            if first.has_name(text) {
                return false;
            }
            is_new(text, others)
        }
        None => true,
    }
}

/// Whether one of that name may be added: it is new, and there are fewer than the most.
pub(crate) fn has_room<T: Named>(most: usize, text: &str, some: &[T]) -> bool
    ensures { (result ≡ true) ↔ HasRoom T.name most text.now some.now }
{
    some.len() < most && is_new(text, some)
}
