//! Laws of one handset's link, references and waiting parts, over their definitions alone. What is done for one handset
//! is done over the rows and links of all handsets, and no other handset's changes.
ghost use Rattle.std.specs.Prelude.{Option, Some, ◌≡◌, ◌<◌, ◌∷◌, [], ℕ, List};
ghost use Rattle.sms_base.specs.Among.{Among};
ghost use Rattle.sms_rows.specs.table.Table.{put, without};
ghost use Rattle.sms_centre_rows.specs.waiting.Keys.{handset_key, queued_key, reference_key};
ghost use Rattle.sms_centre_rows.specs.waiting.Links.{with_link};
ghost use Rattle.sms_centre_rows.specs.waiting.References.{given_row, handset_of, mentioned, next_reference};
ghost use Rattle.sms_centre_rows.specs.waiting.DeliveryQueueRows.{Represents, row_for};
ghost use Rattle.sms_centre_rows.specs.waiting.DeliveryQueues.{DeliveryQueueOf, queue_given, queue_on};
ghost use Rattle.sms_centre_rows.specs.waiting.SoundAllocations.{IsNumber, SoundAllocations};
ghost use Rattle.sms_centre_rows.specs.waiting.SoundWaiting.{SoundWaiting};
ghost use Rattle.sms_centre_rows.specs.waiting.Waiting.{all_at_once, withdrawn};
ghost use Rattle.sms_centre_rows.specs.declared.waiting.handset.HandsetRow.{HandsetRow};
ghost use Rattle.sms_centre_rows.specs.declared.waiting.handset_link.HandsetLink.{HandsetLink};
ghost use Rattle.sms_centre_rows.specs.declared.waiting.queued_part.QueuedPart.{QueuedPart};
ghost use Rattle.sms_centre_rows.specs.declared.waiting.reference.ReferenceRow.{ReferenceRow};

/// The next reference of a handset over all rows is that of its queue.
pub fn a_queue_knows_the_next_reference()
    ensures { (number : List ℕ) (handsets : List HandsetRow) (references : List ReferenceRow) (waiting : List QueuedPart) (links : List HandsetLink)
        (s : DeliveryQueueOf) (now : ℕ)
        → SoundAllocations handsets references → Represents number handsets references waiting links s
        → next_reference (handset_of number handsets) waiting references now ≡ next_reference (row_for number handsets s) s.waiting s.given now }
{}

/// A reference that is given is given on the queue of its handset, and all other queues stay as they are.
pub fn an_allocation_stays_on_its_queue()
    ensures own { (number : List ℕ) (handsets : List HandsetRow) (references : List ReferenceRow) (waiting : List QueuedPart) (links : List HandsetLink)
        (s : DeliveryQueueOf) (reference now : ℕ)
        → SoundAllocations handsets references → reference < 256 → Represents number handsets references waiting links s
        → Represents number (put handset_key (mentioned (handset_of number handsets) reference) handsets)
        (put reference_key (given_row (handset_of number handsets) reference now) references)
        waiting links (queue_given (row_for number handsets s) reference now s) }
    ensures others { (number other : List ℕ) (handsets : List HandsetRow) (references : List ReferenceRow) (waiting : List QueuedPart)
        (links : List HandsetLink) (s : DeliveryQueueOf) (reference now : ℕ)
        → SoundAllocations handsets references → reference < 256 → ¬ (number ≡ other) → Represents other handsets references waiting links s
        → Represents other (put handset_key (mentioned (handset_of number handsets) reference) handsets)
        (put reference_key (given_row (handset_of number handsets) reference now) references)
        waiting links s }
{}

/// A giving leaves sound handsets and references sound.
pub fn an_allocation_is_sound()
    ensures { (number : List ℕ) (handsets : List HandsetRow) (references : List ReferenceRow) (reference now : ℕ)
        → SoundAllocations handsets references → IsNumber number → reference < 256
        → SoundAllocations (put handset_key (mentioned (handset_of number handsets) reference) handsets)
        (put reference_key (given_row (handset_of number handsets) reference now) references) }
{}

/// A link that changes changes on the queue of its handset, and all other queues stay as they are.
pub fn a_link_stays_on_its_queue()
    ensures own { (handsets : List HandsetRow) (references : List ReferenceRow) (waiting : List QueuedPart) (links : List HandsetLink) (link : HandsetLink)
        (s : DeliveryQueueOf)
        → Represents link.handset handsets references waiting links s → Represents link.handset handsets references waiting (with_link link links)
        (queue_on link s) }
    ensures others { (other : List ℕ) (handsets : List HandsetRow) (references : List ReferenceRow) (waiting : List QueuedPart) (links : List HandsetLink)
        (link : HandsetLink) (s : DeliveryQueueOf)
        → ¬ (link.handset ≡ other) → Represents other handsets references waiting links s → Represents other handsets references waiting
        (with_link link links) s }
{}

/// What waits for a handset holds references that were given there, all different, whatever becomes of it. One more may
/// take the next reference. One may be put off. One or all parts of a message may wait no more. All may be due at once.
pub fn waiting_parts_have_distinct_references()
    ensures more { (row : Option HandsetRow) (h : HandsetRow) (references : List ReferenceRow) (waiting : List QueuedPart) (l : QueuedPart) (now : ℕ)
        → SoundWaiting row references waiting → ((g : HandsetRow) → row ≡ Some g → g.place ≡ h.place)
        → next_reference h waiting references now ≡ Some l.reference
        → SoundWaiting (Some (mentioned h l.reference)) (put reference_key (given_row h l.reference now) references) (put queued_key l waiting) }
    ensures put_off { (row : Option HandsetRow) (references : List ReferenceRow) (waiting : List QueuedPart) (was l : QueuedPart)
        → SoundWaiting row references waiting → Among was waiting → queued_key was ≡ queued_key l → was.reference ≡ l.reference → SoundWaiting row references
        (put queued_key l waiting) }
    ensures fewer { (row : Option HandsetRow) (references : List ReferenceRow) (waiting : List QueuedPart) (key : ℕ) → SoundWaiting row references waiting
        → SoundWaiting row references (without queued_key key waiting) }
    ensures withdrawn { (row : Option HandsetRow) (references : List ReferenceRow) (waiting : List QueuedPart) (id : ℕ) → SoundWaiting row references waiting
        → SoundWaiting row references (withdrawn id waiting) }
    ensures at_once { (row : Option HandsetRow) (references : List ReferenceRow) (waiting : List QueuedPart) (now : ℕ) → SoundWaiting row references waiting
        → SoundWaiting row references (all_at_once now waiting) }
{}
