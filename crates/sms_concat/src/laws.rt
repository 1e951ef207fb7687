//! Laws of the user data fields, of splitting and of joining, over their definitions alone.
ghost use Rattle.std.specs.Prelude.{◌≡◌, ◌↔◌, ◌≤◌, ℕ, Bool, List, All, length, true, Ok, Some};
ghost use Rattle.sms_alphabet.specs.DataCodingScheme.{coding_of};
ghost use Rattle.sms_alphabet.specs.declared.concat_key.ConcatReference.{ConcatReference as ReferenceOf};
ghost use Rattle.sms_concat.specs.declared.content.Content.{Content as ContentOf};
ghost use Rattle.sms_concat.specs.declared.content.Part.{Part as PartOf};
ghost use Rattle.sms_concat.specs.declared.content.UserData.{UserData as UserDataOf};
ghost use Rattle.sms_concat.specs.Joining.{content_joined, is_same_reference};
ghost use Rattle.sms_concat.specs.Splitting.{IsSplit, IsUncut, split_of};
ghost use Rattle.sms_concat.specs.UserData.{header_of, AreUnits, HasRoom, IsPart, IsUserData, part_in, user_data_behind};
ghost use Rattle.sms_alphabet.specs.Concatenation.{header_key};

/// What is written of a part is read as that part.
pub fn written_part_is_read()
    ensures { (part : PartOf) (user : UserDataOf) → IsPart part → IsUserData (header_of part.key) part.content user
        → part_in user.header_indicator part.content.dcs user.length user.octets ≡ Ok part }
{}

/// Every content but a compressed one that does not fit has one split, and no other.
pub fn one_split_each()
    ensures there { (content : ContentOf) (reference : ℕ) → (IsUncut content → ⊥) → (parts : List PartOf) × IsSplit content reference parts }
    ensures only { (content : ContentOf) (reference : ℕ) (one other : List PartOf) → IsSplit content reference one → IsSplit content reference other
        → one ≡ other }
{}

/// A content is split into parts exactly where they are its split, and at most 20.
pub fn split_is_the_relation()
    ensures { (content : ContentOf) (reference : ℕ) (parts : List PartOf)
        → (split_of content reference ≡ Ok parts) ↔ (IsSplit content reference parts × (length parts ≤ 20)) }
{}

/// Each part of a split has room, and what is written of it is read as that part.
pub fn split_parts_are_read()
    ensures room { (content : ContentOf) (reference : ℕ) (parts : List PartOf) → AreUnits content.coding content.units → split_of content reference ≡ Ok parts
        → All HasRoom parts }
    ensures read { (content : ContentOf) (reference : ℕ) (parts : List PartOf) → content.coding ≡ coding_of content.dcs → AreUnits content.coding content.units
        → split_of content reference ≡ Ok parts → All IsPart parts }
{}

/// The parts of a split join to the content.
pub fn split_parts_join()
    ensures { (content : ContentOf) (reference : ℕ) (parts : List PartOf) → split_of content reference ≡ Ok parts → content_joined parts ≡ Some content }
{}

/// References are equal exactly where they test as one.
pub fn same_references_are_equal()
    ensures { (one other : ReferenceOf) → (is_same_reference one other ≡ true) ↔ (one ≡ other) }
{}

/// A part that is read has the data coding scheme of the fields, the coding that it names and the header's key.
pub fn read_part_says_the_fields()
    ensures { (indicator : Bool) (dcs total : ℕ) (octets : List ℕ) (part : PartOf) → part_in indicator dcs total octets ≡ Ok part → (part.content.dcs ≡ dcs)
        × (part.content.coding ≡ coding_of dcs) × (part.key ≡ header_key indicator octets) }
{}

/// The user data of a content behind a header carries it.
pub fn user_data_carries_its_content()
    ensures { (header : List ℕ) (content : ContentOf) → AreUnits content.coding content.units → IsUserData header content (user_data_behind header content) }
{}
