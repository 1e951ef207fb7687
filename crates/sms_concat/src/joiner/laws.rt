//! Laws of a joiner, over its definition alone.
ghost use Rattle.std.specs.Prelude.{◌≡◌, ◌↔◌, ◌≤◌, ◌<◌, ℕ, List, true, Ok, Some};
ghost use Rattle.sms_base.specs.Among.{Among};
ghost use Rattle.sms_alphabet.specs.declared.concat_key.ConcatKey.{ConcatKey as KeyOf};
ghost use Rattle.sms_concat.specs.declared.content.Content.{Content as ContentOf};
ghost use Rattle.sms_concat.specs.declared.content.Part.{Part as PartOf};
ghost use Rattle.sms_concat.specs.Joining.{content_joined};
ghost use Rattle.sms_concat.specs.Splitting.{split_of};
ghost use Rattle.sms_concat.specs.joiner.StepwiseJoining.{AreSameParts, IsTaken, Taken, has_number, is_full, joined_stepwise, none_taken, takes, with_part};

/// The parts of a message that joins at once join to its content step by step. They may be added in any order, and some
/// of them more than once. So may the parts of a split.
pub fn steps_join_alike()
    ensures whole { (parts came : List PartOf) (content : ContentOf) → content_joined parts ≡ Some content → AreSameParts came parts
        → joined_stepwise came ≡ Some content }
    ensures split { (content : ContentOf) (reference : ℕ) (parts came : List PartOf) → split_of content reference ≡ Ok parts → AreSameParts came parts
        → joined_stepwise came ≡ Some content }
{}

/// What a joiner holds stays in order as parts are taken.
pub fn taken_parts_are_in_order()
    ensures none { (key : KeyOf) → IsTaken (none_taken key) }
    ensures more { (taken : Taken) (part : PartOf) → IsTaken taken → takes taken part ≡ true → IsTaken (with_part taken part) }
{}

/// A joiner is full exactly where each number from 1 to the total is there. What joins is full; and a full joiner whose parts
/// have one data coding scheme joins.
pub fn full_is_each_number()
    ensures each { (taken : Taken) → IsTaken taken → (is_full taken ≡ true) ↔ ((number : ℕ) → 0 < number → number ≤ taken.total
        → has_number number taken.parts ≡ true) }
    ensures joined { (taken : Taken) (content : ContentOf) → IsTaken taken → content_joined taken.parts ≡ Some content → is_full taken ≡ true }
    ensures joins { (taken : Taken) (dcs : ℕ) → IsTaken taken → 0 < taken.total → is_full taken ≡ true
        → ((part : PartOf) → Among part taken.parts → part.content.dcs ≡ dcs) → (content : ContentOf) × (content_joined taken.parts ≡ Some content) }
{}
