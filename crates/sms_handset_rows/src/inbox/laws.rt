//! Laws of open groups, over their definitions alone.
ghost use Rattle.std.specs.Prelude.{◌≡◌, List, Some, true};
ghost use Rattle.sms_concat.specs.Joining.{content_joined};
ghost use Rattle.sms_concat.specs.joiner.StepwiseJoining.{Taken};
ghost use Rattle.sms_handset_rows.specs.declared.inbox.entry.Entry.{Entry as EntryOf};
ghost use Rattle.sms_handset_rows.specs.declared.inbox.entry.Group.{Group as GroupOf};
ghost use Rattle.sms_handset_rows.specs.inbox.Groups.{all_numbers, joined_content, part_numbers};
ghost use Rattle.sms_handset_rows.specs.inbox.TakenParts.{taken_of};

/// What was taken of a full group's entries joins to the content of the group.
pub fn taken_groups_join()
    ensures { (g : GroupOf) (es : List EntryOf) (t : Taken) → taken_of g es ≡ Some t → all_numbers g.total (part_numbers es) ≡ true
        → joined_content g es ≡ content_joined t.parts }
{}
