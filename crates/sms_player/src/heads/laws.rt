//! Laws of heads.
ghost use Rattle.sms_player.specs.heads.Heads.{LinksLaw};

/// A centre can have links to the handsets of a head that can be played.
pub fn handsets_can_have_links()
    ensures { LinksLaw }
{}
