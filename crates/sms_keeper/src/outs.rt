//! What a step of the machine puts out.
ghost use Rattle.std.specs.Prelude.{◌≡◌, ◌↔◌, [], ◌∷◌, IsTrue, length, option_copied, slice_get};
ghost use Rattle.sms_keeper.specs.OutLists.{outs_in};

use std::marker::Model;

/// An answer of the machine, with the number of the seat that it is for.
#[derive(Drop)]
pub struct Out<O> {
    pub seat: usize,
    pub out: O,
}

#[derive(Drop)]
pub(crate) enum Held<O> {
    Nothing,
    One(Out<O>),
    Many(Vec<Out<O>>),
}

/// Outs in order, seen by contracts as a list. None and one take no memory, so that a refusal can always be reported.
#[derive(Drop)]
pub struct Outs<O> {
    held: Held<O>,
}

impl<O> Model for Outs<O> {
    ghost use Rattle.std.specs.Prelude.{List};
    ghost use Rattle.sms_keeper.specs.declared.outs.Out.{Out};
    ghost use Rattle.sms_keeper.specs.OutLists.{outs_in};

    ghost Value = { List (Out O) };

    ghost view = { λ o. outs_in o.held };
}

impl<O: Drop> Outs<O> {
    /// No outs.
    pub fn none() -> Outs<O>
        ensures { result ≡ [] }
    {
        Outs {
            held: Held::Nothing,
        }
    }

    /// A list of one out.
    pub fn one(out: Out<O>) -> Outs<O>
        ensures { result ≡ out ∷ [] }
    {
        Outs {
            held: Held::One(out),
        }
    }

    /// The outs of the vector.
    pub fn from_vec(outs: Vec<Out<O>>) -> Outs<O>
        ensures { result ≡ outs.items }
    {
        Outs {
            held: Held::Many(outs),
        }
    }

    /// How many outs there are.
    pub fn len(&self) -> usize
        ensures { result ≡ length self.now }
    {
        match &self.held {
            Held::Nothing => 0,
            Held::One(_) => 1,
            Held::Many(outs) => outs.len(),
        }
    }

    /// Whether there is no out.
    pub fn is_empty(&self) -> bool
        ensures { IsTrue result ↔ (self.now ≡ []) }
    {
        self.len() == 0
    }

    /// The out at a place, from 0, if there is one.
    pub fn get(&self, at: usize) -> Option<&Out<O>>
        ensures { option_copied result ≡ slice_get self.now at }
    {
        match &self.held {
            Held::Nothing => None,
            Held::One(out) => { if at == 0 { Some(out) } else { None } }
            Held::Many(outs) => outs.get(at),
        }
    }

    pub(crate) fn into_held(self) -> Held<O>
        ensures { outs_in result ≡ self }
    {
        let Outs { held } = self;
        held
    }
}
