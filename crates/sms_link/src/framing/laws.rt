//! Laws of streams, over their definitions alone.
ghost use Rattle.std.specs.Prelude.{◌≡◌, ◌++◌, List, ℕ, Ok, Err, Some};
ghost use Rattle.sms_link.specs.framing.Framing.{BeginsWithFrame, IsStream, framed, front_of};
ghost use Rattle.sms_link.specs.declared.framing.fault.FramingFault.{FramingFault as FaultOf};

/// A stream has one cut into frames and a rest.
pub fn stream_has_one_cut()
    ensures { (octets : List ℕ) (one other : List (List ℕ)) (rest left : List ℕ) → IsStream octets one rest → IsStream octets other left → (one ≡ other)
        × (rest ≡ left) }
{}

/// Octets have a frame at the front exactly where they begin with it.
pub fn front_is_the_frame()
    ensures found { (octets frame : List ℕ) → front_of octets ≡ Ok (Some frame) → BeginsWithFrame octets frame }
    ensures only { (octets frame : List ℕ) → BeginsWithFrame octets frame → front_of octets ≡ Ok (Some frame) }
{}

/// What is at the front stays there when more octets arrive, a fault too.
pub fn more_octets_change_no_front()
    ensures frame { (octets more frame : List ℕ) → front_of octets ≡ Ok (Some frame) → front_of (octets ++ more) ≡ Ok (Some frame) }
    ensures fault { (octets more : List ℕ) (fault : FaultOf) → front_of octets ≡ Err fault → front_of (octets ++ more) ≡ Err fault }
{}

/// The frames of two pieces, the second behind what was left of the first, are those of both together.
pub fn pieces_join()
    ensures { (first second : List ℕ) (one other : List (List ℕ)) (rest left : List ℕ) → IsStream first one rest → IsStream (rest ++ second) other left
        → IsStream (first ++ second) (one ++ other) left }
{}
